// Numbers at a position of a reply, in either byte order.
#![tactic(auto)]

ghost use Rattle.std.specs.Prelude.{◌≡◌, ◌+◌, ◌≤◌, length, take, drop};
ghost use Rattle.field.specs.Numbers.{number, signed};

#[derive(Clone, Copy, Debug, PartialEq, Eq)]
pub enum ByteOrder {
    BigEndian,
    LittleEndian,
}

// By as_array, which is one load: copy_from_slice asks at each call whether the two lists overlap.
fn bytes_at<const N: usize>(reply: &[u8], offset: usize) -> [u8; N]
    requires { offset + N ≤ length reply.now }
    ensures { result ≡ take N (drop offset reply.now) }
{
    *reply[offset..offset + N].as_array().unwrap()
}

// Reply, position and order one by one: callers move the position at each call, and a struct would be made anew for each.
// A function for each width is plainer than a trait over u16, u32 and u64, which needs two methods for each, and a bound by Fn([u8; N]) gets no
// proof. One from_le_bytes, over bytes that are turned round in big-endian, makes some 60 instructions of u64_at, which has five so. Each matches
// on the order here: methods of ByteOrder would be these three matches again.
#[tactic(auto, using(crate::proofs::Numbers::big_2, crate::proofs::Numbers::little_2))]
pub fn u16_at(reply: &[u8], offset: usize, order: ByteOrder) -> u16
    requires { offset + 2 ≤ length reply.now }
    ensures { result ≡ number order 2 reply.now offset }
{
    let bytes = bytes_at(reply, offset);
    match order {
        ByteOrder::BigEndian => u16::from_be_bytes(bytes),
        ByteOrder::LittleEndian => u16::from_le_bytes(bytes),
    }
}

#[tactic(auto, using(crate::proofs::Numbers::big_4, crate::proofs::Numbers::little_4))]
pub fn u32_at(reply: &[u8], offset: usize, order: ByteOrder) -> u32
    requires { offset + 4 ≤ length reply.now }
    ensures { result ≡ number order 4 reply.now offset }
{
    let bytes = bytes_at(reply, offset);
    match order {
        ByteOrder::BigEndian => u32::from_be_bytes(bytes),
        ByteOrder::LittleEndian => u32::from_le_bytes(bytes),
    }
}

#[tactic(auto, using(crate::proofs::Numbers::big_8, crate::proofs::Numbers::little_8))]
pub fn u64_at(reply: &[u8], offset: usize, order: ByteOrder) -> u64
    requires { offset + 8 ≤ length reply.now }
    ensures { result ≡ number order 8 reply.now offset }
{
    let bytes = bytes_at(reply, offset);
    match order {
        ByteOrder::BigEndian => u64::from_be_bytes(bytes),
        ByteOrder::LittleEndian => u64::from_le_bytes(bytes),
    }
}

// The number of 32 bits in two's complement. By std's `cast_signed`, whose promise is in std's words; callers need the document's.
#[tactic(auto, using(crate::proofs::Numbers::signed_is))]
pub fn to_signed(bits: u32) -> i32
    ensures { result ≡ signed bits }
{
    bits.cast_signed()
}
