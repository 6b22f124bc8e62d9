// The entries that list columns: D, L, P and d.
use crate::cards::Status;
use crate::cases::Print;
use crate::column_list;
use crate::instead::{Instead, accepted};
use crate::lent::{Lent, MARKED_WORD, RECORDS, WORDS, marked, untouched};
use crate::payload::Payload;
use column_words::WORDS_PER_COLUMN;
use entries::SqldardResult;
use std::io::Write;

// `OK n=COUNT`, then the status and the columns, or the places of their texts. How to print and the reply, one by one: the first is the case's
// letter, the second its payload.
fn put_described(
    out: &mut impl Write,
    print: Print,
    reply: &[u8],
    answer: SqldardResult,
    words: &[u64],
    room: &mut [u8],
) -> Result<(), Instead> {
    let count = answer.count;
    let used = count.checked_mul(WORDS_PER_COLUMN).ok_or(Instead::Touched)?;
    untouched(words, used, MARKED_WORD)?;
    accepted(answer.refusal)?;
    let (columns, _) = words.as_chunks::<WORDS_PER_COLUMN>();
    let columns = columns.get(..count).ok_or(Instead::Touched)?;
    write!(out, "OK n={count}")?;
    match print {
        Print::Places => column_list::put_all_places(out, columns)?,
        Print::Characters => {
            write!(out, " {}", Status::new(reply, answer.card, room))?;
            column_list::put_columns(out, reply, columns, room)?;
        }
    }
    Ok(())
}

// A description for which as many records are lent.
fn put_list(
    out: &mut impl Write,
    print: Print,
    reply: &[u8],
    records: u16,
    lent: &mut Lent,
) -> Result<(), Instead> {
    if RECORDS < records {
        return Err(Instead::Bad);
    }
    let words = marked(
        &mut lent.words,
        WORDS_PER_COLUMN * usize::from(records),
        MARKED_WORD,
    )?;
    let answer = entries::description::parse_sqldard_data(reply, words);
    put_described(out, print, reply, answer, words, &mut lent.text)
}

// D and d: the reply.
pub(crate) fn put_description(
    out: &mut impl Write,
    print: Print,
    reply: &[u8],
    lent: &mut Lent,
) -> Result<(), Instead> {
    put_list(out, print, reply, RECORDS, lent)
}

// L: how many records are lent, and the reply.
pub(crate) fn put_short_list(
    out: &mut impl Write,
    payload: &[u8],
    lent: &mut Lent,
) -> Result<(), Instead> {
    let mut payload = Payload::new(payload);
    let records = payload.u16()?;
    put_list(out, Print::Characters, payload.rest, records, lent)
}

// P: the code point, and the reply.
pub(crate) fn put_with_code_point(
    out: &mut impl Write,
    payload: &[u8],
    lent: &mut Lent,
) -> Result<(), Instead> {
    let mut payload = Payload::new(payload);
    let code_point = payload.u16()?;
    let reply = payload.rest;
    let words = marked(&mut lent.words, WORDS, MARKED_WORD)?;
    let answer = entries::description::parse_sqldard(code_point, reply, words);
    put_described(out, Print::Characters, reply, answer, words, &mut lent.text)
}
