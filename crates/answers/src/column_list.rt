// Columns as lines have them: ` C NUMBER NAME TYPE CODE LENGTH NULLABLE PRECISION SCALE CCSID ORDER BASE SCHEMA LABEL`,
// or the places of their texts.
use crate::texts::{self, Place};
use crate::type_values::TypeValues;
use column_words::ColumnWords;
use field::ByteOrder;
use std::io::Write;
use std::{fmt, io};
use text::Text;
use types::ColumnMetadata;

fn order_name(order: ByteOrder) -> &'static str {
    match order {
        ByteOrder::BigEndian => "BE",
        ByteOrder::LittleEndian => "LE",
    }
}

// `TYPE CODE LENGTH NULLABLE PRECISION SCALE CCSID ORDER`.
#[derive(Clone, Copy)]
struct Numbers(ColumnMetadata);

impl fmt::Display for Numbers {
    fn fmt<W: fmt::Write>(&self, f: &mut fmt::Formatter<W>) -> fmt::Result {
        let column = self.0;
        let db2_type = TypeValues(column.db2_type);
        let code = column.drda_type;
        let length = column.length;
        let nullable = u8::from(column.nullable);
        let precision = column.precision;
        let scale = column.scale;
        let ccsid = column.ccsid;
        let order = order_name(column.byte_order);
        write!(f, "{db2_type} {code} {length} {nullable}")?;
        write!(f, " {precision} {scale} {ccsid} {order}")
    }
}

fn put_text(
    out: &mut impl Write,
    reply: &[u8],
    column: ColumnMetadata,
    text: Text,
    room: &mut [u8],
) -> io::Result<()> {
    write!(
        out,
        " {}",
        texts::characters(reply, column.number, text, room)
    )
}

fn put_column(
    out: &mut impl Write,
    reply: &[u8],
    column: ColumnMetadata,
    room: &mut [u8],
) -> io::Result<()> {
    let number = column.number;
    write!(out, " C {number}")?;
    put_text(out, reply, column, column.name, room)?;
    write!(out, " {}", Numbers(column))?;
    put_text(out, reply, column, column.base_table_name, room)?;
    put_text(out, reply, column, column.schema_name, room)?;
    put_text(out, reply, column, column.label, room)
}

pub(crate) fn put_columns(
    out: &mut impl Write,
    reply: &[u8],
    columns: &[ColumnWords],
    room: &mut [u8],
) -> io::Result<()> {
    for words in columns {
        put_column(out, reply, column_words::column_or_blank(words), room)?;
    }
    Ok(())
}

// The places of their texts: ` NAME LABEL BASE SCHEMA`.
pub(crate) fn put_all_places(out: &mut impl Write, columns: &[ColumnWords]) -> io::Result<()> {
    for words in columns {
        let column = column_words::column_or_blank(words);
        let name = Place(column.name);
        let label = Place(column.label);
        let base = Place(column.base_table_name);
        let schema = Place(column.schema_name);
        write!(out, " {name} {label} {base} {schema}")?;
    }
    Ok(())
}
