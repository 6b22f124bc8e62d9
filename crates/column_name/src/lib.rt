// The name of a column: its own bytes, which are a part of the reply, and its text, which is written to a lent buffer.
#![tactic(auto)]

ghost use Rattle.std.specs.Prelude.{◌≡◌, [], ◌≤◌, length, drop, IfOk};
ghost use Rattle.std.specs.Result.{OnErr};
ghost use Rattle.codepage.specs.Page.{page037};
ghost use Rattle.outcome.specs.Refusal.{refusal_in};
ghost use Rattle.outcome.specs.Room.{room_refusal, room_length, room_written};
ghost use Rattle.text.specs.Alphabet.{alphabet_number};
ghost use Rattle.text.specs.Chars.{chars};
ghost use Rattle.column_name.specs.Part.{part_refusal, part_of};
ghost use Rattle.column_name.specs.Name.{generated_name, given_refusal, given_length, given_written, name_refusal, name_length, name_written};

use decimal::Digits;
use outcome::Refusal;
use text::{Alphabet, Text};
use types::ColumnMetadata;

// The bytes of a name in the reply, for callers who have no record: a generated one has none, whatever its place and length.
#[tactic(auto, unfolding(crate::specs::Part::part_refusal, crate::specs::Part::part_of, outcome::specs::Bytes::bytes_refusal))]
pub fn given_part(reply: &[u8], name: Text) -> Result<&[u8], Refusal>
    ensures refuses { refusal_in result ≡ part_refusal reply.now name }
    ensures gives { IfOk result (λ part. part.now ≡ part_of reply.now name) }
    ensures refused { OnErr result (part_of reply.now name ≡ []) }
{
    // No `?`, behind which name part took 51 instructions for 32.
    match outcome::part_of(reply, name.place, name.length) {
        Ok(_) if name.alphabet == 0 => Ok(&[]),
        Ok(_) if name.alphabet > 2 => Err(Refusal::OutsideReply),
        part => part,
    }
}

// The entry name part.
pub fn name_part<'a>(reply: &'a [u8], column: ColumnMetadata) -> Result<&'a [u8], Refusal>
    ensures refuses { refusal_in result ≡ part_refusal reply.now column.name }
    ensures gives { IfOk result (λ part. part.now ≡ part_of reply.now column.name) }
    ensures refused { OnErr result (part_of reply.now column.name ≡ []) }
{
    given_part(reply, column.name)
}

// The generated name of a column.
#[tactic(auto, unfolding(crate::specs::Name::generated_name))]
fn generated_name(number: u16) -> Digits
    ensures { drop result.start result.characters ≡ generated_name number }
{
    decimal::digits_of(u64::from(number) + 1).preceded_by(b"COL")
}

// Writes the characters of a text over the buffer's front, where there is room for them, and says how many they are.
// Bytes and alphabet stay apart: see text's `all_name_chars`.
#[tactic(auto, unfolding(outcome::specs::Room::room_refusal, outcome::specs::Room::room_length, outcome::specs::Room::room_written), using(crate::proofs::Written::chars_length, crate::proofs::Written::chars_page, crate::proofs::Written::chars_other))]
fn write_text(bytes: &[u8], alphabet: Alphabet, buffer: &mut [u8]) -> Result<usize, Refusal>
    ensures refuses { refusal_in result ≡ room_refusal (chars page037 (alphabet_number alphabet) bytes.now) (length buffer.old) }
    ensures gives { IfOk result (λ n. n ≡ room_length (chars page037 (alphabet_number alphabet) bytes.now) (length buffer.old)) }
    ensures refused { OnErr result (room_length (chars page037 (alphabet_number alphabet) bytes.now) (length buffer.old) ≡ 0) }
    ensures leaves { buffer.new ≡ room_written (chars page037 (alphabet_number alphabet) bytes.now) buffer.old }
{
    let needed = bytes.len();
    if buffer.len() < needed {
        return Err(Refusal::RoomTooShort { needed });
    }
    match alphabet {
        Alphabet::Ascii => buffer[..needed].copy_from_slice(bytes),
        Alphabet::Page037 => codepage::write_chars(bytes, buffer),
    }
    Ok(needed)
}

// The text of a column of this number, for callers who have no record, and its length. Nothing is written where it refuses.
#[tactic(auto, unfolding(crate::specs::Name::given_refusal, crate::specs::Name::given_length, crate::specs::Name::given_written, crate::specs::Name::given_text, crate::specs::Part::part_of), using(crate::proofs::Written::chars_other))]
pub fn given_text(
    reply: &[u8],
    number: u16,
    text: Text,
    buffer: &mut [u8],
) -> Result<usize, Refusal>
    ensures refuses { refusal_in result ≡ given_refusal page037 reply.now number text (length buffer.old) }
    ensures gives { IfOk result (λ n. n ≡ given_length page037 reply.now number text (length buffer.old)) }
    ensures refused { OnErr result (given_length page037 reply.now number text (length buffer.old) ≡ 0) }
    ensures leaves { buffer.new ≡ given_written page037 reply.now number text buffer.old }
{
    let bytes = given_part(reply, text)?;
    match text.alphabet {
        0 => write_text(generated_name(number).as_bytes(), Alphabet::Ascii, buffer),
        alphabet => write_text(bytes, Alphabet::from(alphabet), buffer),
    }
}

// The entry name text.
#[tactic(auto, unfolding(crate::specs::Name::name_refusal, crate::specs::Name::name_length, crate::specs::Name::name_written))]
pub fn name_text(reply: &[u8], column: ColumnMetadata, buffer: &mut [u8]) -> Result<usize, Refusal>
    ensures refuses { refusal_in result ≡ name_refusal page037 reply.now column (length buffer.old) }
    ensures gives { IfOk result (λ n. n ≡ name_length page037 reply.now column (length buffer.old)) }
    ensures refused { OnErr result (name_length page037 reply.now column (length buffer.old) ≡ 0) }
    ensures leaves { buffer.new ≡ name_written page037 reply.now column buffer.old }
{
    given_text(reply, column.number, column.name, buffer)
}
