// Texts in lines, and the entries that give a text, written into what they are lent, or a part of the reply: M, T and U.
use crate::instead::{Instead, put_ok};
use crate::lent::{Lent, MARK, marked, untouched};
use crate::payload::Payload;
use entries::CountResult;
use output::Hex;
use std::fmt;
use std::io::Write;
use text::Text;

// Bytes in hex, `?` where there are none to be had.
#[derive(Clone, Copy)]
pub(crate) struct HexIfAny<'a>(pub Option<&'a [u8]>);

impl fmt::Display for HexIfAny<'_> {
    fn fmt<W: fmt::Write>(&self, f: &mut fmt::Formatter<W>) -> fmt::Result {
        match self.0 {
            Some(bytes) => write!(f, "{}", Hex(bytes)),
            None => f.write_str("?"),
        }
    }
}

// `place/length`: compact_table's `Table` and others are two numbers too, of other meanings.
#[derive(Clone, Copy)]
pub(crate) struct Span {
    pub place: usize,
    pub length: usize,
}

impl fmt::Display for Span {
    fn fmt<W: fmt::Write>(&self, f: &mut fmt::Formatter<W>) -> fmt::Result {
        let Span { place, length } = *self;
        write!(f, "{place}/{length}")
    }
}

// `place/length/alphabet`.
#[derive(Clone, Copy)]
pub(crate) struct Place(pub Text);

impl fmt::Display for Place {
    fn fmt<W: fmt::Write>(&self, f: &mut fmt::Formatter<W>) -> fmt::Result {
        let Text {
            place,
            length,
            alphabet,
        } = self.0;
        write!(f, "{place}/{length}/{alphabet}")
    }
}

// What an entry wrote to the front of `room`; nothing where it refused.
fn written(answer: CountResult, room: &[u8]) -> HexIfAny<'_> {
    if answer.refusal.is_refused() {
        return HexIfAny(None);
    }
    HexIfAny(room.get(..answer.count))
}

// A text's characters. `number` is its column's, for a generated name; `room` is for the text. Reply and room one by one: of a struct that lends the
// room on, as a method would, the prover's borrow checker says that it does not cover it.
pub(crate) fn characters<'a>(
    reply: &[u8],
    number: u16,
    text: Text,
    room: &'a mut [u8],
) -> HexIfAny<'a> {
    let answer = entries::texts::name_text(
        reply,
        number,
        text.place,
        text.length,
        text.alphabet,
        room,
    );
    written(answer, room)
}

// A message's characters.
pub(crate) fn message<'a>(
    reply: &[u8],
    place: usize,
    length: usize,
    room: &'a mut [u8],
) -> HexIfAny<'a> {
    let answer = entries::texts::message_text(reply, place, length, room);
    written(answer, room)
}

// The text in what was lent and marked.
fn put_lent(out: &mut impl Write, lent: &[u8], answer: CountResult) -> Result<(), Instead> {
    untouched(lent, answer.count, MARK)?;
    put_ok(out, answer.refusal, HexIfAny(lent.get(..answer.count)))
}

// M: a message's text. In front of the reply stand its place, its length and how many bytes are lent.
pub(crate) fn put_message_text(
    out: &mut impl Write,
    payload: &[u8],
    lent: &mut Lent,
) -> Result<(), Instead> {
    let mut payload = Payload::new(payload);
    let place = payload.u32()? as usize;
    let length = payload.u32()? as usize;
    let count = usize::from(payload.u16()?);
    let room = marked(&mut lent.text, count, MARK)?;
    let answer = entries::texts::message_text(payload.rest, place, length, room);
    put_lent(out, room, answer)
}

// The number of a column, and its name's place, length and alphabet.
fn named(payload: &mut Payload) -> Result<(u16, Text), Instead> {
    let number = payload.u16()?;
    let place = payload.u32()? as usize;
    let length = payload.u32()? as usize;
    let alphabet = payload.u8()?;
    Ok((
        number,
        Text {
            place,
            length,
            alphabet,
        },
    ))
}

// T: a name's text. In front of the reply stand the column's number, its name's place, length and alphabet, and how many bytes are lent.
pub(crate) fn put_name_text(
    out: &mut impl Write,
    payload: &[u8],
    lent: &mut Lent,
) -> Result<(), Instead> {
    let mut payload = Payload::new(payload);
    let (number, name) = named(&mut payload)?;
    let count = usize::from(payload.u16()?);
    let room = marked(&mut lent.text, count, MARK)?;
    let answer = entries::texts::name_text(
        payload.rest,
        number,
        name.place,
        name.length,
        name.alphabet,
        room,
    );
    put_lent(out, room, answer)
}

// U: a name's own bytes. In front of the reply stand the column's number, and its name's place, length and alphabet.
pub(crate) fn put_name_part(out: &mut impl Write, payload: &[u8]) -> Result<(), Instead> {
    let mut payload = Payload::new(payload);
    let (_, name) = named(&mut payload)?;
    let answer = entries::texts::name_part(payload.rest, name.place, name.length, name.alphabet);
    let part = Span {
        place: answer.place,
        length: answer.length,
    };
    put_ok(out, answer.refusal, part)
}
