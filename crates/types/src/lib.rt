// Columns and their types, and the table of SQLTYPE's base types.
#![tactic(auto)]

mod table;

ghost use Rattle.std.specs.Prelude.{◌≡◌, ◌<◌, MatchOption};
ghost use Rattle.types.specs.Rows.{unknown_row, lookup};

use field::ByteOrder;
use table::TYPES;
use text::Text;

#[derive(Clone, Copy, Debug, PartialEq, Eq)]
pub enum Db2Type {
    SmallInt,
    Integer,
    BigInt,
    Real,
    Double,
    Decimal { precision: u8, scale: u8 },
    DecFloat(u8),
    Char(u16),
    VarChar(u16),
    Clob,
    Binary(u16),
    VarBinary(u16),
    Blob,
    Date,
    Time,
    Timestamp,
    Graphic(u16),
    VarGraphic(u16),
    DbClob,
    RowId(u16),
    Boolean,
    Xml,
}

// A column of the reply; number counts from 0. Nullable is a `bool`: yes or no, as SQLTYPE's low bit says it.
#[derive(Clone, Copy, Debug, PartialEq, Eq)]
pub struct ColumnMetadata {
    pub number: u16,
    pub db2_type: Db2Type,
    pub drda_type: u8,
    pub length: u16,
    pub nullable: bool,
    pub precision: u8,
    pub scale: u8,
    pub ccsid: u16,
    pub byte_order: ByteOrder,
    pub name: Text,
    pub label: Text,
    pub base_table_name: Text,
    pub schema_name: Text,
}

// The type codes of columns that are not nullable, under the Rust's names. They are the Rust's own, not the LIDs of DRDA's SQLDTAGRP.
impl ColumnMetadata {
    pub const DRDA_TYPE_INTEGER: u8 = 0x02;

    pub const DRDA_TYPE_SMALLINT: u8 = 0x04;

    pub const DRDA_TYPE_BIGINT: u8 = 0x16;

    pub const DRDA_TYPE_FLOAT4: u8 = 0x0A;

    pub const DRDA_TYPE_FLOAT8: u8 = 0x0E;

    pub const DRDA_TYPE_DECIMAL: u8 = 0x0C;

    pub const DRDA_TYPE_CHAR: u8 = 0x30;

    pub const DRDA_TYPE_VARCHAR: u8 = 0x32;

    pub const DRDA_TYPE_BINARY: u8 = 0x60;

    pub const DRDA_TYPE_VARBINARY: u8 = 0x62;

    pub const DRDA_TYPE_BLOB: u8 = 0xC8;

    pub const DRDA_TYPE_CLOB: u8 = 0xCA;

    pub const DRDA_TYPE_DBCLOB: u8 = 0xCC;

    pub const DRDA_TYPE_ROWID: u8 = 0x1E;

    pub const DRDA_TYPE_DATE: u8 = 0x20;

    pub const DRDA_TYPE_TIME: u8 = 0x22;

    pub const DRDA_TYPE_TIMESTAMP: u8 = 0x24;

    pub const DRDA_TYPE_GRAPHIC: u8 = 0x3C;

    pub const DRDA_TYPE_VARGRAPH: u8 = 0x3E;

    pub const DRDA_TYPE_BOOLEAN: u8 = 0xBE;

    pub const DRDA_TYPE_DECFLOAT: u8 = 0xBA;

    pub const DRDA_TYPE_XML: u8 = 0xDC;
}

// Which Db2Type a row of the table stands for. A second enum, since a row has no data, and a descriptor's numbers give it.
#[derive(Clone, Copy, Debug, PartialEq, Eq)]
pub enum Kind {
    SmallInt,
    Integer,
    BigInt,
    Real,
    Double,
    Decimal,
    DecFloat,
    Char,
    VarChar,
    Clob,
    Binary,
    VarBinary,
    Blob,
    Date,
    Time,
    Timestamp,
    Graphic,
    VarGraphic,
    DbClob,
    RowId,
    Boolean,
    Xml,
}

#[derive(Clone, Copy, Debug, PartialEq, Eq)]
pub struct TypeRow {
    pub base: u16,
    pub kind: Kind,
    pub code: u8,
}

// How a type that is not known is described: as VarChar, with base type 0, which no type has.
const UNKNOWN: TypeRow = TypeRow {
    base: 0,
    kind: Kind::VarChar,
    code: ColumnMetadata::DRDA_TYPE_VARCHAR,
};

// The row of a base type, none where the type is not known.
pub fn known_type(base: u16) -> Option<TypeRow>
    ensures { MatchOption result (lookup base ≡ unknown_row) (λ row. (row ≡ lookup base) × (0 < row.base)) }
{
    match TYPES.binary_search_by_key(&base, |row| row.base) {
        Ok(at) => Some(TYPES[at]),
        Err(_) => None,
    }
}

// The row of a base type, in every case: that of an unknown type has base type 0 and is VarChar's.
pub fn find_type(base: u16) -> TypeRow
    ensures { result ≡ lookup base }
{
    known_type(base).unwrap_or(UNKNOWN)
}
