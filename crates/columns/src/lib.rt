// Lists of columns: whether two make the same cut, and how wide a row can be.
#![tactic(auto)]

ghost use Rattle.std.specs.Prelude.{◌≡◌, false, ℕ, ◌<◌, List, length, slice_index_or, IfOk};
ghost use Rattle.std.specs.Result.{OnErr};
ghost use Rattle.outcome.specs.Refusal.{refusal_in};
ghost use Rattle.types.specs.declared.ColumnMetadata.{ColumnMetadata};
ghost use Rattle.columns.specs.Blank.{no_column};
ghost use Rattle.columns.specs.Cut.{coarse_column, same_column, same_cut, cut_refusal, cut_answer};
ghost use Rattle.columns.specs.Row.{row_refusal, row_answer};

use outcome::Refusal;
use types::ColumnMetadata;

// A longer list is refused.
pub const MOST_COLUMNS: usize = 4095;

// A list of columns, whether it is held as records or as words. By places, and no iterator: that of words would be a `map` by a closure, whose type
// an `impl` cannot name.
pub trait ColumnList {
    ghost columns: { Self → List ColumnMetadata };

    fn count(&self) -> usize
        ensures { result ≡ length (columns self.now) };

    fn column(&self, i: usize) -> ColumnMetadata
        requires { i < length (columns self.now) }
        ensures { result ≡ slice_index_or (columns self.now) i no_column };
}

impl ColumnList for &[ColumnMetadata] {
    ghost columns = { λ s. s.now };

    fn count(&self) -> usize {
        self.len()
    }

    fn column(&self, i: usize) -> ColumnMetadata {
        self[i]
    }
}

// Whether two columns are cut from a row alike, whatever their CCSIDs. By hand, as five of the record's
// thirteen fields count here, and six below; a derive takes all.
fn coarse_column(c: &ColumnMetadata, d: &ColumnMetadata) -> bool
    ensures { result ≡ coarse_column c.now d.now }
{
    (c.drda_type == d.drda_type)
        & (c.length == d.length)
        & (c.precision == d.precision)
        & (c.scale == d.scale)
        & (c.byte_order == d.byte_order)
}

// Whether two columns are cut from a row alike, and have equal CCSIDs.
#[tactic(auto, unfolding(crate::specs::Cut::same_column))]
pub fn same_column(c: &ColumnMetadata, d: &ColumnMetadata) -> bool
    ensures { result ≡ same_column c.now d.now }
{
    coarse_column(c, d) & (c.ccsid == d.ccsid)
}

// Whether the columns at place `i` of two lists are cut from a row alike. Two lists that are compared, here and below: nothing keeps both as a pair.
fn same_at<L: ColumnList + Copy>(a: L, b: L, i: usize) -> bool
    requires first { i < length (L.columns a) }
    requires second { i < length (L.columns b) }
    ensures { result ≡ same_column (slice_index_or (L.columns a) i no_column) (slice_index_or (L.columns b) i no_column) }
{
    same_column(&a.column(i), &b.column(i))
}

// Whether the columns of two lists are cut from a row alike.
pub fn same_columns<L: ColumnList + Copy>(a: L, b: L) -> bool
    ensures { result ≡ same_cut (L.columns a) (L.columns b) }
{
    a.count() == b.count() && (0..a.count()).all(|i| same_at(a, b, i))
}

// What the entry same cut answers, of lists that are held in either way.
#[tactic(auto, unfolding(crate::specs::Cut::cut_refusal, crate::specs::Cut::cut_answer))]
pub fn same_cut_of<L: ColumnList + Copy>(a: L, b: L) -> Result<bool, Refusal>
    ensures refuses { refusal_in result ≡ cut_refusal (L.columns a) (L.columns b) }
    ensures gives { IfOk result (λ same. same ≡ cut_answer (L.columns a) (L.columns b)) }
    ensures refused { OnErr result (cut_answer (L.columns a) (L.columns b) ≡ false) }
{
    if MOST_COLUMNS < a.count() || MOST_COLUMNS < b.count() {
        return Err(Refusal::ReplyTooLong);
    }
    Ok(same_columns(a, b))
}

// The entry same cut, of records.
pub fn same_cut(a: &[ColumnMetadata], b: &[ColumnMetadata]) -> Result<bool, Refusal>
    ensures refuses { refusal_in result ≡ cut_refusal a.now b.now }
    ensures gives { IfOk result (λ same. same ≡ cut_answer a.now b.now) }
    ensures refused { OnErr result (cut_answer a.now b.now ≡ false) }
{
    same_cut_of(a, b)
}

// What the entry widest row answers, of a list that is held in either way.
#[tactic(auto, unfolding(crate::specs::Row::row_refusal))]
pub fn widest_row_of<L: ColumnList + Copy>(columns: L) -> Result<usize, Refusal>
    ensures refuses { refusal_in result ≡ row_refusal (L.columns columns) }
    ensures gives { IfOk result (λ width. width ≡ row_answer (L.columns columns)) }
    ensures refused { OnErr result (row_answer (L.columns columns) ≡ 0) }
{
    if MOST_COLUMNS < columns.count() {
        return Err(Refusal::ReplyTooLong);
    }
    let mut width = 0;
    // A `try_fold` would be no plainer: each turn refuses or adds.
    for i in 0..columns.count() {
        let column = columns.column(i);
        if widths::is_large_column(&column) {
            return Err(Refusal::LargeObject {
                number: column.number,
            });
        }
        width += widths::column_width(&column);
    }
    Ok(width)
}

// The entry widest row, of records.
pub fn widest_row(columns: &[ColumnMetadata]) -> Result<usize, Refusal>
    ensures refuses { refusal_in result ≡ row_refusal columns.now }
    ensures gives { IfOk result (λ width. width ≡ row_answer columns.now) }
    ensures refused { OnErr result (row_answer columns.now ≡ 0) }
{
    widest_row_of(columns)
}
