// Same cut and widest row, of lists of columns in words.
ghost use Rattle.std.specs.Prelude.{◌≡◌};
ghost use Rattle.outcome.specs.Refusal.{in_numbers};
ghost use Rattle.entries.specs.Lists.{words_cut_refusal, words_cut_answer, words_row_refusal, words_row_answer};

use crate::{CountResult, CutResult};
use column_words::WORDS_PER_COLUMN;
use columns::MOST_COLUMNS;
use list_words::WordColumns;
use outcome::{Refusal, RefusalNumbers};

// The refusal of words that stand for no list of columns, which is the library's own. A number: with an error enum, its two conversions and a
// function for each entry that answers it, this file was twice as long.
const NO_COLUMNS: u8 = 255;

// The entry same cut: `first` and `second` are lists of columns, 22 words each. A list that is too long is refused before its words are looked at.
pub fn same_cut(first: &[u64], second: &[u64]) -> CutResult
    ensures refuses { result.refusal ≡ in_numbers (words_cut_refusal first.now second.now) }
    ensures gives { result.same ≡ words_cut_answer first.now second.now }
{
    if (MOST_COLUMNS < first.len() / WORDS_PER_COLUMN)
        | (MOST_COLUMNS < second.len() / WORDS_PER_COLUMN)
    {
        return CutResult::from(Err(Refusal::ReplyTooLong));
    }
    match (WordColumns::new(first), WordColumns::new(second)) {
        (Some(first), Some(second)) => CutResult::from(columns::same_cut_of(&first, &second)),
        _ => CutResult {
            refusal: RefusalNumbers::alone(NO_COLUMNS),
            same: false,
        },
    }
}

// The entry widest row: `columns` is a list of columns, 22 words each.
pub fn widest_row(columns: &[u64]) -> CountResult
    ensures refuses { result.refusal ≡ in_numbers (words_row_refusal columns.now) }
    ensures gives { result.count ≡ words_row_answer columns.now }
{
    if MOST_COLUMNS < columns.len() / WORDS_PER_COLUMN {
        return CountResult::from(Err(Refusal::ReplyTooLong));
    }
    match WordColumns::new(columns) {
        Some(columns) => CountResult::from(columns::widest_row_of(&columns)),
        None => CountResult {
            refusal: RefusalNumbers::alone(NO_COLUMNS),
            count: 0,
        },
    }
}
