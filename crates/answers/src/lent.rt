// What is lent to the entries. It is marked beforehand, so that it is seen where more was written than the answer.
use crate::instead::Instead;
use column_words::WORDS_PER_COLUMN;
use std::alloc::{AllocError, Global};

pub(crate) const MARK: u8 = 0xAA;

pub(crate) const MARKED_WORD: u64 = 0xAAAA_AAAA_AAAA_AAAA;

// The records that are lent for a description at most, and their words.
pub(crate) const RECORDS: u16 = 4096;

pub(crate) const WORDS: usize = 4096 * WORDS_PER_COLUMN;

#[derive(Drop)]
pub(crate) struct Lent {
    // What M and T lend, and where a text is written to be printed.
    pub text: Vec<u8>,
    // 8,400 columns: as many records as a payload can hold, and more than are lent for each of two replies.
    pub words: Vec<u64>,
}

impl Lent {
    pub(crate) fn new(alloc: Global) -> Result<Self, AllocError> {
        let text = vec![in alloc; 0u8; 65_536]?;
        let words = vec![in alloc; 0u64; 8400 * WORDS_PER_COLUMN]?;
        Ok(Lent { text, words })
    }
}

// The first `count` elements of what is lent, marked. Two calls of std's, and no type: what is marked is lent to an entry at once.
pub(crate) fn marked<T: Copy>(lent: &mut [T], count: usize, mark: T) -> Result<&mut [T], Instead>
    requires { T.is_infallible mark }
{
    let lent = lent.get_mut(..count).ok_or(Instead::Bad)?;
    lent.fill(mark);
    Ok(lent)
}

// Whether all behind the first `count` elements is as it was marked.
pub(crate) fn untouched<T: PartialEq + Copy>(
    lent: &[T],
    count: usize,
    mark: T,
) -> Result<(), Instead> {
    let rest = lent.get(count..).ok_or(Instead::Touched)?;
    if rest.iter().all(|element| *element == mark) {
        Ok(())
    } else {
        Err(Instead::Touched)
    }
}
