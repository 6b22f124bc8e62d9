// The bytes that a column can take in a row.
#![tactic(auto)]

ghost use Rattle.std.specs.Prelude.{◌≡◌, ◌≤◌};
ghost use Rattle.widths.specs.Width.{is_large, is_varying, is_graphic, value_width, column_width};
ghost use Rattle.widths.specs.Inside.{most_value, most_width};

use types::{ColumnMetadata, Db2Type};

// A row with a column of such a type has no widest.
pub fn is_large_column(column: &ColumnMetadata) -> bool
    ensures { result ≡ is_large column.now.db2_type }
{
    matches!(
        column.db2_type,
        Db2Type::Blob | Db2Type::Clob | Db2Type::DbClob | Db2Type::Xml
    )
}

// Two bytes of length stand before a value of such a type.
fn is_varying(db2_type: Db2Type) -> bool
    ensures { result ≡ is_varying db2_type }
{
    matches!(
        db2_type,
        Db2Type::VarChar(_) | Db2Type::VarBinary(_) | Db2Type::VarGraphic(_) | Db2Type::RowId(_)
    )
}

// Lengths of such a type count double-byte characters.
fn is_graphic(db2_type: Db2Type) -> bool
    ensures { result ≡ is_graphic db2_type }
{
    matches!(db2_type, Db2Type::Graphic(_) | Db2Type::VarGraphic(_))
}

// The bytes that a column's value can take.
#[tactic(auto, unfolding(crate::specs::Width::value_width))]
fn value_width(column: &ColumnMetadata) -> usize
    ensures value { result ≡ value_width column.now }
    ensures upper_bound { result ≤ most_value }
{
    let length = usize::from(column.length);
    if is_graphic(column.db2_type) {
        2 * length
    } else {
        length
    }
}

// The bytes that a column can take in a row.
#[tactic(auto, unfolding(crate::specs::Width::column_width))]
pub fn column_width(column: &ColumnMetadata) -> usize
    ensures value { result ≡ column_width column.now }
    ensures upper_bound { result ≤ most_width }
{
    let varying = is_varying(column.db2_type);
    value_width(column) + usize::from(column.nullable) + 2 * usize::from(varying)
}
