// The cells at the end of a lent line, of which the first `used` bytes are written; each function says how many are written then.
ghost use Rattle.std.specs.Prelude.{◌++◌, ◌≡◌, [], ◌∷◌};
ghost use Rattle.decimal.specs.Decimal.{decimal_of};
ghost use Rattle.line.specs.Line.{Appended, padded};
ghost use Rattle.sqlda.specs.Types.{code_of};
ghost use Rattle.sqlda.specs.Codes.{value_of};
ghost use Rattle.cells.specs.Cells.{in_brackets, values_text, type_text, yes_or_no, number_cell, cells_of};

use types::{ColumnMetadata, Db2Type};

// `5,1`.
fn append_precision(line: &mut [u8], used: usize, precision: u8, scale: u8) -> usize
    ensures { Appended line.old used (decimal_of precision ++ ((0x2C ∷ []) ++ decimal_of scale)) line.new result }
{
    let next = line::append_decimal(line, used, u64::from(precision));
    let next = line::append(line, next, b",");
    line::append_decimal(line, next, u64::from(scale))
}

// `(5,1)`.
fn append_precision_in_brackets(line: &mut [u8], used: usize, precision: u8, scale: u8) -> usize
    ensures { Appended line.old used (in_brackets (decimal_of precision ++ ((0x2C ∷ []) ++ decimal_of scale))) line.new result }
{
    let next = line::append(line, used, b"(");
    let next = append_precision(line, next, precision, scale);
    line::append(line, next, b")")
}

// `(10)`.
fn append_size(line: &mut [u8], used: usize, value: u64) -> usize
    ensures { Appended line.old used (in_brackets (decimal_of value)) line.new result }
{
    let next = line::append(line, used, b"(");
    let next = line::append_decimal(line, next, value);
    line::append(line, next, b")")
}

// What a type says besides its name.
#[tactic(auto, unfolding(crate::specs::Cells::values_text))]
fn append_values(line: &mut [u8], used: usize, db2_type: Db2Type) -> usize
    ensures { Appended line.old used (values_text (code_of db2_type) (value_of db2_type)) line.new result }
{
    match db2_type {
        Db2Type::Decimal { precision, scale } => {
            append_precision_in_brackets(line, used, precision, scale)
        }
        Db2Type::DecFloat(digits) => append_size(line, used, u64::from(digits)),
        Db2Type::Char(n)
        | Db2Type::VarChar(n)
        | Db2Type::Graphic(n)
        | Db2Type::VarGraphic(n)
        | Db2Type::Binary(n)
        | Db2Type::VarBinary(n)
        | Db2Type::RowId(n) => append_size(line, used, u64::from(n)),
        // No text, but by `append`, for which a `used` past the line's end is the line's end.
        _ => line::append(line, used, b""),
    }
}

// A type's name, whose letters are given, with what it says besides.
pub fn append_type(line: &mut [u8], used: usize, letters: &[u8], db2_type: Db2Type) -> usize
    ensures { Appended line.old used (type_text letters.now db2_type) line.new result }
{
    let next = line::append(line, used, letters);
    append_values(line, next, db2_type)
}

fn append_type_cell(
    line: &mut [u8],
    used: usize,
    letters: &[u8],
    db2_type: Db2Type,
    width: usize,
) -> usize
    ensures { Appended line.old used (padded width (type_text letters.now db2_type)) line.new result }
{
    let next = append_type(line, used, letters, db2_type);
    line::append_padded(line, next, used, width)
}

// A number under a head of this width.
fn append_number_cell(line: &mut [u8], used: usize, number: u16, width: usize) -> usize
    ensures { Appended line.old used (padded width (decimal_of number)) line.new result }
{
    let next = line::append_decimal(line, used, u64::from(number));
    line::append_padded(line, next, used, width)
}

// The number of a column, under its head.
pub fn append_number(line: &mut [u8], used: usize, column: ColumnMetadata) -> usize
    ensures { Appended line.old used (number_cell column) line.new result }
{
    append_number_cell(line, used, column.number, 6)
}

fn append_yes_or_no(line: &mut [u8], used: usize, holds: bool) -> usize
    ensures { Appended line.old used (yes_or_no holds) line.new result }
{
    if holds {
        line::append(line, used, b"yes")
    } else {
        line::append(line, used, b"no")
    }
}

fn append_nullable_cell(line: &mut [u8], used: usize, nullable: bool) -> usize
    ensures { Appended line.old used (padded 8 (yes_or_no nullable)) line.new result }
{
    let next = append_yes_or_no(line, used, nullable);
    line::append_padded(line, next, used, 8)
}

// The cells from the type, as wide as `width`, to the CCSID.
pub fn append_cells(
    line: &mut [u8],
    used: usize,
    letters: &[u8],
    column: ColumnMetadata,
    width: usize,
) -> usize
    ensures { Appended line.old used (cells_of letters.now width column) line.new result }
{
    let next = append_type_cell(line, used, letters, column.db2_type, width);
    let next = append_number_cell(line, next, column.length, 6);
    let next = append_nullable_cell(line, next, column.nullable);
    append_number_cell(line, next, column.ccsid, 5)
}
