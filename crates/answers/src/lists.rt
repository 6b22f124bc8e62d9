// The entries that ask of lists of columns: C and W of described replies, Q and R of records in the payload.
use crate::instead::{Instead, put_ok};
use crate::lent::{Lent, WORDS};
use crate::payload::Payload;
use crate::records::fill_records;
use column_words::WORDS_PER_COLUMN;
use std::io::Write;

// How a payload holds lists: replies and records are laid out differently, and have nothing else in common.
pub(crate) trait Lists {
    // The bytes of each of two lists.
    fn two(payload: &[u8]) -> Result<(&[u8], &[u8]), Instead>;

    // The words of a list's columns at the front of `words`, and the words behind them.
    fn columns<'a>(
        bytes: &[u8],
        words: &'a mut [u64],
    ) -> Result<(&'a [u64], &'a mut [u64]), Instead>;
}

// A list is what a reply describes, empty where it is refused. In front of two replies stands the length of the first.
pub(crate) struct Replies;

impl Lists for Replies {
    fn two(payload: &[u8]) -> Result<(&[u8], &[u8]), Instead> {
        let mut payload = Payload::new(payload);
        let count = payload.u32()? as usize;
        let first = payload.bytes(count)?;
        Ok((first, payload.rest))
    }

    fn columns<'a>(
        bytes: &[u8],
        words: &'a mut [u64],
    ) -> Result<(&'a [u64], &'a mut [u64]), Instead> {
        let columns = words.get_mut(..WORDS).ok_or(Instead::Bad)?;
        let count = entries::description::parse_sqldard_data(bytes, columns).count;
        let end = count.checked_mul(WORDS_PER_COLUMN).ok_or(Instead::Bad)?;
        let (columns, rest) = words.split_at_mut_checked(end).ok_or(Instead::Bad)?;
        Ok((columns, rest))
    }
}

// A list is its records. Each of two stands behind its count.
pub(crate) struct Records;

// The bytes of the records whose count stands in front.
fn counted<'a>(payload: &mut Payload<'a>) -> Result<&'a [u8], Instead> {
    let count = payload.u16()?;
    payload.bytes(50 * usize::from(count))
}

impl Lists for Records {
    fn two(payload: &[u8]) -> Result<(&[u8], &[u8]), Instead> {
        let mut payload = Payload::new(payload);
        let first = counted(&mut payload)?;
        let second = counted(&mut payload)?;
        if !payload.rest.is_empty() {
            return Err(Instead::Bad);
        }
        Ok((first, second))
    }

    fn columns<'a>(
        bytes: &[u8],
        words: &'a mut [u64],
    ) -> Result<(&'a [u64], &'a mut [u64]), Instead> {
        fill_records(bytes, words)
    }
}

// C and Q: same cut of two lists, 1 or 0.
pub(crate) fn put_same_cut<L: Lists>(
    out: &mut impl Write,
    payload: &[u8],
    lent: &mut Lent,
) -> Result<(), Instead> {
    let (first, second) = L::two(payload)?;
    let (first, words) = L::columns(first, &mut lent.words)?;
    let (second, _) = L::columns(second, words)?;
    let answer = entries::lists::same_cut(first, second);
    put_ok(out, answer.refusal, u8::from(answer.same))
}

// W and R: the widest row of a list.
pub(crate) fn put_widest_row<L: Lists>(
    out: &mut impl Write,
    payload: &[u8],
    lent: &mut Lent,
) -> Result<(), Instead> {
    let (columns, _) = L::columns(payload, &mut lent.words)?;
    let answer = entries::lists::widest_row(columns);
    put_ok(out, answer.refusal, answer.count)
}
