// A name's part of the reply, and the texts that are written to a lent buffer.
ghost use Rattle.std.specs.Prelude.{◌≡◌};
ghost use lib.ListN.{take, drop};
ghost use Rattle.codepage.specs.Page.{page037};
ghost use Rattle.outcome.specs.Refusal.{in_numbers};
ghost use Rattle.text.specs.Text.{text_is};
ghost use Rattle.message_text.specs.Answer.{message_refusal, message_length, message_written};
ghost use Rattle.column_name.specs.Part.{part_refusal, part_of};
ghost use Rattle.column_name.specs.Name.{name_refusal, name_length, name_written};
ghost use Rattle.entries.specs.Named.{named_column};
ghost use Rattle.entries.specs.Part.{part_place, part_length};

use crate::{CountResult, PartResult};
use text::Text;

// C gives a name as its place, length and alphabet, one by one, so the entries take them so, and the alphabet as a number.

// The entry name part: where the part lies in the reply. A part without bytes lies at 0.
pub fn name_part(reply: &[u8], place: usize, length: usize, alphabet: u8) -> PartResult
    ensures refuses { result.refusal ≡ in_numbers (part_refusal reply.now (text_is place length alphabet)) }
    ensures places { result.place ≡ part_place reply.now (text_is place length alphabet) }
    ensures counts { result.length ≡ part_length reply.now (text_is place length alphabet) }
    ensures gives { take result.length (drop result.place reply.now) ≡ part_of reply.now (text_is place length alphabet) }
{
    let name = Text {
        place,
        length,
        alphabet,
    };
    let part = column_name::given_part(reply, name);
    // No `From`: where the part lies is told by the name's place, which the `Result` does not have.
    let refusal = crate::refusal_numbers(&part);
    let bytes = part.unwrap_or(&[]);
    let count = bytes.len();
    PartResult {
        refusal,
        place: if count == 0 { 0 } else { place },
        length: count,
    }
}

// The entry name text.
#[tactic(auto, unfolding(crate::specs::Named::named_column, column_name::specs::Name::name_refusal, column_name::specs::Name::name_length, column_name::specs::Name::name_written), using(crate::proofs::Answers::name_given))]
pub fn name_text(
    reply: &[u8],
    number: u16,
    place: usize,
    length: usize,
    alphabet: u8,
    buffer: &mut [u8],
) -> CountResult
    ensures refuses { result.refusal ≡ in_numbers (name_refusal page037 reply.now (named_column number place length alphabet) (lib.ListN.length buffer.old)) }
    ensures counts { result.count ≡ name_length page037 reply.now (named_column number place length alphabet) (lib.ListN.length buffer.old) }
    ensures leaves { buffer.new ≡ name_written page037 reply.now (named_column number place length alphabet) buffer.old }
{
    let name = Text {
        place,
        length,
        alphabet,
    };
    CountResult::from(column_name::given_text(reply, number, name, buffer))
}

// The entry message text. Place and length one by one, as C gives them.
#[tactic(auto, using(crate::proofs::Answers::message_given))]
pub fn message_text(reply: &[u8], place: usize, length: usize, buffer: &mut [u8]) -> CountResult
    ensures refuses { result.refusal ≡ in_numbers (message_refusal page037 reply.now place length (lib.ListN.length buffer.old)) }
    ensures counts { result.count ≡ message_length page037 reply.now place length (lib.ListN.length buffer.old) }
    ensures leaves { buffer.new ≡ message_written page037 reply.now place length buffer.old }
{
    CountResult::from(message_text::message_text(reply, place, length, buffer))
}
