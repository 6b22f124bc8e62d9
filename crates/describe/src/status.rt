// A reply in words: its status and size; or, alone, why it was refused.
use crate::texts::Texts;
use outcome::{Refusal, RefusalNumbers};
use output::{Characters, Sqlcode};
use sqlcard::SqlCard;
use std::io::Write;
use std::{fmt, io};

// `1 row`, `2 rows`.
#[derive(Clone, Copy)]
struct Counted(usize, &'static str);

impl fmt::Display for Counted {
    fn fmt<W: fmt::Write>(&self, f: &mut fmt::Formatter<W>) -> fmt::Result {
        let count = self.0;
        let word = self.1;
        let ending = if count == 1 { "" } else { "s" };
        write!(f, "{count} {word}{ending}")
    }
}

// Code and state.
fn put_code(out: &mut impl Write, card: SqlCard) -> io::Result<()> {
    let code = Sqlcode(card.sqlcode);
    let state = card.sqlstate;
    write!(
        out,
        "status: SQLCODE {code}, SQLSTATE {}",
        Characters(&state)
    )
}

// Proc and rows.
fn put_procedure(out: &mut impl Write, card: SqlCard) -> io::Result<()> {
    let procedure = card.sqlerrproc;
    let rows = Counted(card.rows_updated as usize, "row");
    let name = Characters(output::without_blanks(&procedure));
    writeln!(out, ", proc {name}, {rows} updated")
}

// The lines of a status record.
pub(crate) fn put_status(out: &mut impl Write, texts: &mut Texts, card: SqlCard) -> io::Result<()> {
    if card.is_null {
        return writeln!(out, "status: success");
    }
    put_code(out, card)?;
    put_procedure(out, card)?;
    let message = texts.message(card.message_place, card.message_length);
    if message.0.is_empty() {
        return Ok(());
    }
    writeln!(out, "message: {message}")
}

// How many columns and bytes there are.
pub(crate) fn put_size(out: &mut impl Write, columns: usize, bytes: usize) -> io::Result<()> {
    let columns = Counted(columns, "column");
    let bytes = Counted(bytes, "byte");
    writeln!(out, "{columns}, {bytes}")
}

// `refused`, the refusal's number, and what it means: 6 does not come, since 4,096 columns are lent, and the other numbers are other entries'.
#[derive(Clone, Copy)]
pub(crate) struct Refused(pub Refusal);

impl fmt::Display for Refused {
    fn fmt<W: fmt::Write>(&self, f: &mut fmt::Formatter<W>) -> fmt::Result {
        let number = RefusalNumbers::from(self.0).number;
        write!(f, "refused: {number}")?;
        match self.0 {
            Refusal::EmptyReply => write!(f, ", the reply is empty"),
            Refusal::BufferTooShort { expected, actual } => {
                let expected = Counted(expected, "byte");
                write!(
                    f,
                    ", the reply ends early: {expected} expected, {actual} there"
                )
            }
            Refusal::ReplyTooLong => write!(f, ", the reply is longer than 65536 bytes"),
            _ => Ok(()),
        }
    }
}
