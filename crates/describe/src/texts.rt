// The texts of a reply, decoded in room that is made once.
use outcome::Refusal;
use output::Characters;
use std::alloc::{AllocError, Global};
use std::fmt;
use text::Text;

// `-` stands for a text without characters.
#[derive(Clone, Copy, Debug)]
pub(crate) struct OrDash<'a>(pub &'a [u8]);

impl fmt::Display for OrDash<'_> {
    fn fmt<W: fmt::Write>(&self, f: &mut fmt::Formatter<W>) -> fmt::Result {
        if self.0.is_empty() {
            f.write_str("-")
        } else {
            write!(f, "{}", Characters(self.0))
        }
    }
}

#[derive(Drop)]
pub(crate) struct Texts<'a> {
    pub reply: &'a [u8],
    room: Vec<u8>,
}

impl<'a> Texts<'a> {
    // No text is longer than the longest reply.
    pub(crate) fn new(alloc: Global, reply: &'a [u8]) -> Result<Self, AllocError> {
        let room = vec![in alloc; 0u8; 65_536]?;
        Ok(Texts { reply, room })
    }

    // A text of the column with this number. Here and at `message` another entry is called, with other arguments: what they share is `first`.
    pub(crate) fn of_column(&mut self, number: u16, text: Text) -> OrDash<'_> {
        let count = column_name::given_text(self.reply, number, text, &mut self.room);
        OrDash(self.first(count))
    }

    // The message's text, which is at most as long as the reply.
    pub(crate) fn message(&mut self, place: usize, length: usize) -> Characters<'_> {
        let count = message_text::message_text(self.reply, place, length, &mut self.room);
        Characters(self.first(count))
    }

    // What was written to the room; nothing where it was refused.
    fn first(&self, count: Result<usize, Refusal>) -> &[u8] {
        self.room.get(..count.unwrap_or(0)).unwrap_or(&[])
    }
}
