// What SQLTYPE and its length, precision, scale and CCSID say of a column: its type, length and code. A type as code and value, and back.
#![tactic(auto)]

ghost use Rattle.std.specs.Prelude.{◌≡◌};
ghost use Rattle.sqlda.specs.Types.{is_known, searched_base, row_for, cap_of, type_of, length_of, code_of, sqlda_type};
ghost use Rattle.sqlda.specs.Codes.{value_of, type_with, is_type};

use types::{ColumnMetadata, Db2Type, Kind, TypeRow};

// What SQLTYPE and its length, precision, scale and CCSID say of a column, each as the column has it: nullable is a `bool` there.
#[derive(Clone, Copy, Debug, PartialEq, Eq)]
pub struct SqldaType {
    pub db2_type: Db2Type,
    pub drda_type: u8,
    pub length: u16,
    pub nullable: bool,
}

// Whether the base type has a row. Scans ask at every byte of a reply, so what the table cannot have is not searched for.
#[tactic(auto, using(crate::proofs::Laws::below_unknown, crate::proofs::Laws::above_unknown))]
pub fn is_known_sql_type(sql_type: u16) -> bool
    ensures { result ≡ is_known sql_type }
{
    (384..=2437).contains(&sql_type) && types::known_type(sql_type - sql_type % 2).is_some()
}

// The base type to look up: CCSID 0 says that the characters are bytes, so the character types are the binary ones.
#[tactic(auto, unfolding(crate::specs::Types::searched_base))]
fn searched_base(base: u16, ccsid: u16) -> u16
    ensures { result ≡ searched_base base ccsid }
{
    match (base, ccsid) {
        (448 | 456, 0) => 908,
        (452, 0) => 912,
        _ => base,
    }
}

// The row that describes the column: 480 below raw length 8 is Real, which has no row of its own.
#[tactic(auto, unfolding(crate::specs::Types::row_for))]
fn row_for(sql_type: u16, raw: u64, ccsid: u16) -> TypeRow
    ensures { result ≡ row_for sql_type raw ccsid }
{
    let base = sql_type - sql_type % 2;
    if base == 480 && raw < 8 {
        return TypeRow {
            base,
            kind: Kind::Real,
            code: ColumnMetadata::DRDA_TYPE_FLOAT4,
        };
    }
    types::find_type(searched_base(base, ccsid))
}

// A length has 16 bits: a longer raw one counts as 65,535.
#[tactic(auto, unfolding(crate::specs::Types::cap_of))]
fn capped(raw: u64) -> u16
    ensures { result ≡ cap_of raw }
{
    raw.min(65535) as u16
}

// An arm for each kind, since the kinds differ in what they say of a type besides. Raw length and precision, here and in `length_for`, are two of a
// descriptor's numbers: the five stand together in column's `Sqldagrp`, above this crate.
fn db2_type_for(kind: Kind, raw: u64, precision: u8, scale: u8) -> Db2Type
    ensures { result ≡ type_of kind raw precision scale }
{
    let n = capped(raw);
    match kind {
        Kind::SmallInt => Db2Type::SmallInt,
        Kind::Integer => Db2Type::Integer,
        Kind::BigInt => Db2Type::BigInt,
        Kind::Real => Db2Type::Real,
        Kind::Double => Db2Type::Double,
        Kind::Decimal => Db2Type::Decimal { precision, scale },
        Kind::DecFloat => Db2Type::DecFloat(if 8 < raw { 34 } else { 16 }),
        Kind::Char => Db2Type::Char(n),
        Kind::VarChar => Db2Type::VarChar(n),
        Kind::Clob => Db2Type::Clob,
        Kind::Binary => Db2Type::Binary(n),
        Kind::VarBinary => Db2Type::VarBinary(n),
        Kind::Blob => Db2Type::Blob,
        Kind::Date => Db2Type::Date,
        Kind::Time => Db2Type::Time,
        Kind::Timestamp => Db2Type::Timestamp,
        Kind::Graphic => Db2Type::Graphic(n),
        Kind::VarGraphic => Db2Type::VarGraphic(n),
        Kind::DbClob => Db2Type::DbClob,
        Kind::RowId => Db2Type::RowId(n),
        Kind::Boolean => Db2Type::Boolean,
        Kind::Xml => Db2Type::Xml,
    }
}

fn length_for(kind: Kind, raw: u64, precision: u8) -> u16
    ensures { result ≡ length_of kind raw precision }
{
    match kind {
        Kind::SmallInt | Kind::Boolean => 2,
        Kind::Integer | Kind::Real => 4,
        Kind::BigInt | Kind::Double | Kind::Time => 8,
        Kind::Decimal => (u16::from(precision) + 2) / 2,
        Kind::Date => 10,
        Kind::Timestamp if raw == 0 => 26,
        _ => capped(raw),
    }
}

// One search of the table says all: nullable, SQLTYPE's low bit, adds 1 to the code.
#[tactic(auto, using(crate::proofs::Laws::code_small, crate::proofs::Laws::bit_is), unfolding(crate::specs::Types::sqlda_type))]
pub fn sqlda_type(sql_type: u16, raw: u64, precision: u8, scale: u8, ccsid: u16) -> SqldaType
    ensures { result ≡ sqlda_type sql_type raw precision scale ccsid }
{
    let row = row_for(sql_type, raw, ccsid);
    let nullable = sql_type % 2 == 1;
    SqldaType {
        db2_type: db2_type_for(row.kind, raw, precision, scale),
        drda_type: row.code + u8::from(nullable),
        length: length_for(row.kind, raw, precision),
        nullable,
    }
}

// The type's code without the nullable bit. Two numbers tell a type, and a `From` for each of them would not say which it is.
pub fn type_code(db2_type: Db2Type) -> u8
    ensures { result ≡ code_of db2_type }
{
    match db2_type {
        Db2Type::SmallInt => ColumnMetadata::DRDA_TYPE_SMALLINT,
        Db2Type::Integer => ColumnMetadata::DRDA_TYPE_INTEGER,
        Db2Type::BigInt => ColumnMetadata::DRDA_TYPE_BIGINT,
        Db2Type::Real => ColumnMetadata::DRDA_TYPE_FLOAT4,
        Db2Type::Double => ColumnMetadata::DRDA_TYPE_FLOAT8,
        Db2Type::Decimal { .. } => ColumnMetadata::DRDA_TYPE_DECIMAL,
        Db2Type::DecFloat(_) => ColumnMetadata::DRDA_TYPE_DECFLOAT,
        Db2Type::Char(_) => ColumnMetadata::DRDA_TYPE_CHAR,
        Db2Type::VarChar(_) => ColumnMetadata::DRDA_TYPE_VARCHAR,
        Db2Type::Clob => ColumnMetadata::DRDA_TYPE_CLOB,
        Db2Type::Binary(_) => ColumnMetadata::DRDA_TYPE_BINARY,
        Db2Type::VarBinary(_) => ColumnMetadata::DRDA_TYPE_VARBINARY,
        Db2Type::Blob => ColumnMetadata::DRDA_TYPE_BLOB,
        Db2Type::Date => ColumnMetadata::DRDA_TYPE_DATE,
        Db2Type::Time => ColumnMetadata::DRDA_TYPE_TIME,
        Db2Type::Timestamp => ColumnMetadata::DRDA_TYPE_TIMESTAMP,
        Db2Type::Graphic(_) => ColumnMetadata::DRDA_TYPE_GRAPHIC,
        Db2Type::VarGraphic(_) => ColumnMetadata::DRDA_TYPE_VARGRAPH,
        Db2Type::DbClob => ColumnMetadata::DRDA_TYPE_DBCLOB,
        Db2Type::RowId(_) => ColumnMetadata::DRDA_TYPE_ROWID,
        Db2Type::Boolean => ColumnMetadata::DRDA_TYPE_BOOLEAN,
        Db2Type::Xml => ColumnMetadata::DRDA_TYPE_XML,
    }
}

// What the type says besides: its length, its digits, or precision and scale in two bytes. One number for each type, as a column's words have it.
pub fn type_value(db2_type: Db2Type) -> u64
    ensures { result ≡ value_of db2_type }
{
    match db2_type {
        Db2Type::Decimal { precision, scale } => u64::from(u16::from_be_bytes([precision, scale])),
        Db2Type::DecFloat(digits) => u64::from(digits),
        Db2Type::Char(n)
        | Db2Type::VarChar(n)
        | Db2Type::Binary(n)
        | Db2Type::VarBinary(n)
        | Db2Type::Graphic(n)
        | Db2Type::VarGraphic(n)
        | Db2Type::RowId(n) => u64::from(n),
        _ => 0,
    }
}

// The type with this code, and what the value says of it. Codes that are none stand for Xml, since every code has an answer here: who may hold
// another asks `is_type` first, as column_words::column_get, which answers an Option. An arm for each type, as above: it is the same table read
// the other way, and a search of a list of types would make them all first.
#[tactic(auto, unfolding(crate::specs::Codes::type_with))]
pub fn type_with(code: u64, value: u16) -> Db2Type
    ensures { result ≡ type_with code value }
{
    let [precision, scale] = value.to_be_bytes();
    match u8::try_from(code) {
        Ok(ColumnMetadata::DRDA_TYPE_SMALLINT) => Db2Type::SmallInt,
        Ok(ColumnMetadata::DRDA_TYPE_INTEGER) => Db2Type::Integer,
        Ok(ColumnMetadata::DRDA_TYPE_BIGINT) => Db2Type::BigInt,
        Ok(ColumnMetadata::DRDA_TYPE_FLOAT4) => Db2Type::Real,
        Ok(ColumnMetadata::DRDA_TYPE_FLOAT8) => Db2Type::Double,
        Ok(ColumnMetadata::DRDA_TYPE_DECIMAL) => Db2Type::Decimal { precision, scale },
        Ok(ColumnMetadata::DRDA_TYPE_DECFLOAT) => Db2Type::DecFloat(scale),
        Ok(ColumnMetadata::DRDA_TYPE_CHAR) => Db2Type::Char(value),
        Ok(ColumnMetadata::DRDA_TYPE_VARCHAR) => Db2Type::VarChar(value),
        Ok(ColumnMetadata::DRDA_TYPE_CLOB) => Db2Type::Clob,
        Ok(ColumnMetadata::DRDA_TYPE_BINARY) => Db2Type::Binary(value),
        Ok(ColumnMetadata::DRDA_TYPE_VARBINARY) => Db2Type::VarBinary(value),
        Ok(ColumnMetadata::DRDA_TYPE_BLOB) => Db2Type::Blob,
        Ok(ColumnMetadata::DRDA_TYPE_DATE) => Db2Type::Date,
        Ok(ColumnMetadata::DRDA_TYPE_TIME) => Db2Type::Time,
        Ok(ColumnMetadata::DRDA_TYPE_TIMESTAMP) => Db2Type::Timestamp,
        Ok(ColumnMetadata::DRDA_TYPE_GRAPHIC) => Db2Type::Graphic(value),
        Ok(ColumnMetadata::DRDA_TYPE_VARGRAPH) => Db2Type::VarGraphic(value),
        Ok(ColumnMetadata::DRDA_TYPE_DBCLOB) => Db2Type::DbClob,
        Ok(ColumnMetadata::DRDA_TYPE_ROWID) => Db2Type::RowId(value),
        Ok(ColumnMetadata::DRDA_TYPE_BOOLEAN) => Db2Type::Boolean,
        _ => Db2Type::Xml,
    }
}

// Whether there is a type that has just this code and this value.
#[tactic(auto, unfolding(crate::specs::Codes::is_type))]
pub fn is_type(code: u64, value: u64) -> bool
    ensures { result ≡ is_type code value }
{
    let Ok(low) = u16::try_from(value) else {
        return false;
    };
    let db2_type = type_with(code, low);
    u64::from(type_code(db2_type)) == code && type_value(db2_type) == value
}
