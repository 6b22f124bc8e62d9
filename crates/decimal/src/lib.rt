// Numbers in decimal: as characters, which letters can be put before, and over the front of a lent buffer.
#![tactic(auto)]

ghost use Rattle.std.specs.Prelude.{◌++◌, ◌≡◌, ◌≤◌, ◌<◌, length, drop, MatchOption};
ghost use Rattle.outcome.specs.Room.{room_written};
ghost use Rattle.decimal.specs.Decimal.{digit_of, decimal_of, Spells};

fn digit(number: u64) -> u8
    ensures { result ≡ digit_of number }
{
    (0x30 + number % 10) as u8
}

// The digits end where the array ends, so that letters can be put before them. No `String`, which is on the heap.
#[derive(Clone, Copy, Debug)]
pub struct Digits {
    pub characters: [u8; 24],
    pub start: usize,
    ghost within: { start ≤ 24 },
}

impl Digits {
    pub fn as_bytes(&self) -> &[u8]
        ensures { result.now ≡ drop self.now.start self.now.characters }
    {
        &self.characters[self.start..]
    }

    // The same with letters before them.
    pub fn preceded_by<const N: usize>(self, letters: &[u8; N]) -> Self
        requires { N ≤ self.start }
        ensures { drop result.start result.characters ≡ letters.now ++ drop self.start self.characters }
    {
        let start = self.start - N;
        let mut characters = self.characters;
        characters[start..self.start].copy_from_slice(letters);
        Digits { characters, start }
    }
}

// From the last digit to the first, while one is left: a `for` over the places would end in a case that never comes.
#[tactic(auto, using(crate::proofs::Counting::counting_none, crate::proofs::Counting::counting_more))]
pub fn digits_of(number: u64) -> Digits
    ensures { Spells number result.characters result.start }
{
    let mut characters = [0; 24];
    let mut rest = number;
    let mut start = 23;
    while rest >= 10 {
        characters[start] = digit(rest);
        rest /= 10;
        start -= 1;
    }
    characters[start] = digit(rest);
    Digits { characters, start }
}

// Writes the digits over the buffer's front and says how many they are; where there is no room for them, the buffer is as it was. For programs that
// use this crate: in the library's own texts letters stand before a number, or a line holds it.
#[tactic(auto, unfolding(outcome::specs::Room::room_written))]
pub fn write_decimal(number: u64, buffer: &mut [u8]) -> Option<usize>
    ensures gives { MatchOption result (length buffer.old < length (decimal_of number)) (λ n. (n ≡ length (decimal_of number)) × (n ≤ length buffer.old)) }
    ensures leaves { buffer.new ≡ room_written (decimal_of number) buffer.old }
{
    let digits = digits_of(number);
    let bytes = digits.as_bytes();
    let count = bytes.len();
    if buffer.len() < count {
        return None;
    }
    buffer[..count].copy_from_slice(bytes);
    Some(count)
}
