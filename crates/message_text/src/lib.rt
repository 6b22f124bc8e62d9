// The text of a status record's message, written to a lent buffer.
#![tactic(auto)]

ghost use Rattle.std.specs.Prelude.{false, ◌≡◌, ◌+◌, ◌<◌, ◌≤◌, IfOk};
ghost use Rattle.std.specs.Result.{OnErr};
ghost use lib.ListN.{length};
ghost use Rattle.std.proofs.lemmas.List.Edits.{sets};
ghost use Rattle.search.specs.Search.{pick, over};
ghost use Rattle.codepage.specs.Page.{page037};
ghost use Rattle.codepage.specs.Blank.{is_blank};
ghost use Rattle.outcome.specs.Refusal.{refusal_in};
ghost use Rattle.message.specs.Message.{message_text};
ghost use Rattle.message.specs.Squeezed.{is_gap, added};
ghost use Rattle.message_text.specs.Answer.{message_refusal, message_length, message_written};

use message::{Behind, Message};
use outcome::Refusal;

// By how much a character makes the text longer.
fn added_length(behind: Behind, blank: bool) -> usize
    ensures { result ≡ pick blank 0 (pick (is_gap behind) 2 1) }
{
    match (blank, behind.is_gap()) {
        (true, _) => 0,
        (false, true) => 2,
        (false, false) => 1,
    }
}

// How long the text is.
#[tactic(auto, using(message::proofs::Squeezed::left_length, message::proofs::Squeezed::left_none, message::proofs::Squeezed::added_length, message::proofs::Text::text_is, message::proofs::Text::text_short))]
fn text_length(message: Message) -> usize
    ensures { result ≡ length (message_text page037 message.entry.bytes.now) }
{
    let mut length = 0;
    let mut behind = Behind::Nothing;
    for byte in message.bytes {
        let blank = message.is_blank(*byte);
        length += added_length(behind, blank);
        behind = behind.after(blank);
    }
    length
}

// Writes a character that is no blank, behind one blank where there is a gap, and says where the next goes.
#[tactic(auto, unfolding(message::specs::Squeezed::added))]
fn put_char(buffer: &mut [u8], at: usize, behind: Behind, character: u8) -> usize
    requires not_blank { is_blank character ≡ false }
    requires room { at + length (added behind character) ≤ length buffer.old }
    ensures next { result ≡ at + length (added behind character) }
    ensures leaves { buffer.new ≡ sets buffer.old at (added behind character) }
{
    if behind.is_gap() {
        buffer[at] = 0x20;
        buffer[at + 1] = character;
        return at + 2;
    }
    buffer[at] = character;
    at + 1
}

// Writes the text over the buffer's front, and says how long it is.
// Another than column_name's function of that name: that one writes a text as it is, this one squeezes its blanks.
// No iterator over the text, which `text_length` would count: it would hold a character back at each gap, and the count maps no byte.
// By an `else`: with a `continue` each character took three jumps for one, and a message in ASCII 1.3 times as long. Blanks by this test, and no
// `after`: of it the compiler made a longer step from blank to blank, and a message of blanks 1.5 times as long.
#[tactic(auto, unfolding(message::specs::Squeezed::added), using(message::proofs::Squeezed::left_length, message::proofs::Squeezed::left_more, message::proofs::Squeezed::left_none, message::proofs::Squeezed::sets_append, message::proofs::Squeezed::sets_over, message::proofs::Text::text_is))]
fn write_text(message: Message, buffer: &mut [u8]) -> usize
    requires { length (message_text page037 message.bytes.now) ≤ length buffer.old }
    ensures gives { result ≡ length (message_text page037 message.entry.bytes.now) }
    ensures leaves { buffer.new ≡ over (message_text page037 message.entry.bytes.now) buffer.old }
{
    let mut at = 0;
    let mut behind = Behind::Nothing;
    for byte in message.bytes {
        if !message.is_blank(*byte) {
            at = put_char(buffer, at, behind, message.character(*byte));
            behind = Behind::Character;
        } else if matches!(behind, Behind::Character) {
            behind = Behind::Blanks;
        }
    }
    at
}

// The room that the text needs. Where its bytes would fit, their number serves, as a text is never longer: its length is not asked for.
#[tactic(auto, using(message::proofs::Text::text_short))]
fn room_needed(message: Message, room: usize) -> usize
    ensures enough { length (message_text page037 message.entry.bytes.now) ≤ result }
    ensures exact { room < result → result ≡ length (message_text page037 message.entry.bytes.now) }
{
    if message.bytes.len() <= room {
        return message.bytes.len();
    }
    text_length(message)
}

// The entry message text: the text of the `length` bytes of the reply from `place` on, written to the buffer's front, and its length.
#[tactic(auto, unfolding(crate::specs::Answer::message_refusal, crate::specs::Answer::message_length, crate::specs::Answer::message_written, outcome::specs::Bytes::bytes_refusal))]
pub fn message_text(
    reply: &[u8],
    place: usize,
    length: usize,
    buffer: &mut [u8],
) -> Result<usize, Refusal>
    ensures refuses { refusal_in result ≡ message_refusal page037 reply.now place length (lib.ListN.length buffer.old) }
    ensures gives { IfOk result (λ n. n ≡ message_length page037 reply.now place length (lib.ListN.length buffer.old)) }
    ensures refused { OnErr result (message_length page037 reply.now place length (lib.ListN.length buffer.old) ≡ 0) }
    ensures leaves { buffer.new ≡ message_written page037 reply.now place length buffer.old }
{
    let bytes = outcome::part_of(reply, place, length)?;
    let message = Message::new(bytes);
    let needed = room_needed(message, buffer.len());
    if buffer.len() < needed {
        return Err(Refusal::RoomTooShort { needed });
    }
    Ok(write_text(message, buffer))
}
