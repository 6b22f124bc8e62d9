// The entries that read a status record, S, s and G, and how one is written:
// `st=NULL,CODE,STATE,PROC,E1/E2/E3/E4/E5/E6,FETCHED,UPDATED,WARNINGS,MESSAGE`.
use crate::instead::{Instead, accepted, put_ok};
use crate::lent::Lent;
use crate::texts::{self, HexIfAny, Span};
use output::{Hex, Sqlcode};
use sqlcard::SqlCard;
use std::fmt;
use std::io::Write;

// A record and its message's characters.
#[derive(Clone, Copy)]
pub(crate) struct Status<'a> {
    card: SqlCard,
    message: HexIfAny<'a>,
}

impl<'a> Status<'a> {
    // The message's text is written to `room`.
    pub(crate) fn new(reply: &[u8], card: SqlCard, room: &'a mut [u8]) -> Self {
        let message = texts::message(reply, card.message_place, card.message_length, room);
        Status { card, message }
    }
}

impl fmt::Display for Status<'_> {
    fn fmt<W: fmt::Write>(&self, f: &mut fmt::Formatter<W>) -> fmt::Result {
        let card = self.card;
        let is_null = u8::from(card.is_null);
        let code = Sqlcode(card.sqlcode);
        let state = Hex(&card.sqlstate);
        // Of SQLERRPROC as many bytes as the record has.
        let count = usize::from(card.sqlerrproc_length);
        let procedure = HexIfAny(card.sqlerrproc.get(..count));
        let [e1, e2, e3, e4, e5, e6] = card.sqlerrd;
        let fetched = card.rows_fetched;
        let updated = card.rows_updated;
        let warnings = Hex(&card.sqlwarn);
        let message = self.message;
        write!(f, "st={is_null},{code},{state},{procedure}")?;
        write!(f, ",{e1}/{e2}/{e3}/{e4}/{e5}/{e6}")?;
        write!(f, ",{fetched},{updated},{warnings},{message}")
    }
}

// S: the status alone.
pub(crate) fn put_status_alone(
    out: &mut impl Write,
    reply: &[u8],
    lent: &mut Lent,
) -> Result<(), Instead> {
    let answer = entries::status::parse_sqlcard_data(reply);
    let status = Status::new(reply, answer.card, &mut lent.text);
    put_ok(out, answer.refusal, status)
}

// s: where its message stands in the reply.
pub(crate) fn put_message_place(out: &mut impl Write, reply: &[u8]) -> Result<(), Instead> {
    let answer = entries::status::parse_sqlcard_data(reply);
    let message = Span {
        place: answer.card.message_place,
        length: answer.card.message_length,
    };
    put_ok(out, answer.refusal, message)
}

// G: the SQLCA group and its length.
pub(crate) fn put_group(
    out: &mut impl Write,
    reply: &[u8],
    lent: &mut Lent,
) -> Result<(), Instead> {
    let answer = entries::status::consume_sqlca_group(reply);
    accepted(answer.refusal)?;
    let length = answer.length;
    let status = Status::new(reply, answer.card, &mut lent.text);
    write!(out, "OK g={length} {status}")?;
    Ok(())
}
