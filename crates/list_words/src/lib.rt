// Lists of columns as words: what is asked of lists of records can be asked of them too.
#![tactic(auto)]

ghost use Rattle.std.specs.Prelude.{◌≡◌, true, false, List, map, MatchOption};
ghost use Rattle.std.specs.List.{list_all};
ghost use Rattle.types.specs.declared.ColumnMetadata.{ColumnMetadata};
ghost use Rattle.column_words.specs.Columns.{column_in, is_column, columns_in, are_columns};

use column_words::{ColumnWords, WORDS_PER_COLUMN};
use columns::ColumnList;
use std::marker::Model;
use types::ColumnMetadata;

// A list of columns that is held as their words.
#[derive(Drop)]
pub struct WordColumns<'a> {
    columns: &'a [ColumnWords],
}

impl<'a> Model for WordColumns<'a> {
    ghost Value = { List ColumnMetadata };

    ghost view = { λ s. map (λ words. column_in words 0) s.columns.now };

    ghost invariant = { λ s. list_all (λ words. is_column words 0) s.columns.now ≡ true };
}

impl<'a> WordColumns<'a> {
    // The columns of words that stand for columns and nothing else.
    #[tactic(auto, using(column_words::proofs::Chunks::all_columns, column_words::proofs::Chunks::columns_of_arrays))]
    pub fn new(words: &'a [u64]) -> Option<Self>
        ensures { MatchOption result (are_columns words.now ≡ false) (λ columns. (are_columns words.now ≡ true) × (columns ≡ columns_in words.now)) }
    {
        if !column_words::are_columns(words) {
            return None;
        }
        let (columns, _) = words.as_chunks::<WORDS_PER_COLUMN>();
        Some(WordColumns { columns })
    }
}

impl<'a> ColumnList for &WordColumns<'a> {
    ghost columns = { λ s. s.now };

    fn count(&self) -> usize {
        self.columns.len()
    }

    fn column(&self, i: usize) -> ColumnMetadata {
        let columns = self.columns;
        column_words::column_at(&columns[i])
    }
}
