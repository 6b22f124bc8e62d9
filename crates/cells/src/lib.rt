// The cells of a column in a table that hold its numbers, written to a line. What they hold is promised, with the column's record, so that no
// number can stand under another's head. By `append`, and not by `Display`: see `line`. Functions over a line, and no methods of it: the type is
// `line`'s, and a trait would say each signature and promise twice. What a cell holds is written once, in `lent`, to the bytes of a line.
#![tactic(auto)]

pub mod lent;

ghost use Rattle.std.specs.Prelude.{◌≡◌};
ghost use Rattle.line.specs.Line.{with_text};
ghost use Rattle.cells.specs.Cells.{type_text, number_cell, cells_of};

use line::Line;
use types::{ColumnMetadata, Db2Type};

// A type's name, whose letters are given, with what it says besides.
pub fn append_type<const N: usize>(line: &mut Line<N>, letters: &[u8], db2_type: Db2Type)
    ensures { line.new ≡ with_text N line.old (type_text letters.now db2_type) }
{
    line.used = lent::append_type(&mut line.bytes, line.used, letters, db2_type);
}

// The number of a column, under its head.
pub fn append_number<const N: usize>(line: &mut Line<N>, column: ColumnMetadata)
    ensures { line.new ≡ with_text N line.old (number_cell column) }
{
    line.used = lent::append_number(&mut line.bytes, line.used, column);
}

// The cells from the type, as wide as `width`, to the CCSID.
pub fn append_cells<const N: usize>(
    line: &mut Line<N>,
    letters: &[u8],
    column: ColumnMetadata,
    width: usize,
)
    ensures { line.new ≡ with_text N line.old (cells_of letters.now width column) }
{
    line.used = lent::append_cells(&mut line.bytes, line.used, letters, column, width);
}
