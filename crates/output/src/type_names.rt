// The names of types. Letters, and no Display: a cell's promise speaks of its letters. No promise of their own, which would be this table again.
use types::Db2Type;

pub fn type_name(db2_type: Db2Type) -> &'static str {
    match db2_type {
        Db2Type::SmallInt => "SmallInt",
        Db2Type::Integer => "Integer",
        Db2Type::BigInt => "BigInt",
        Db2Type::Real => "Real",
        Db2Type::Double => "Double",
        Db2Type::Decimal { .. } => "Decimal",
        Db2Type::DecFloat(_) => "DecFloat",
        Db2Type::Char(_) => "Char",
        Db2Type::VarChar(_) => "VarChar",
        Db2Type::Clob => "Clob",
        Db2Type::Binary(_) => "Binary",
        Db2Type::VarBinary(_) => "VarBinary",
        Db2Type::Blob => "Blob",
        Db2Type::Date => "Date",
        Db2Type::Time => "Time",
        Db2Type::Timestamp => "Timestamp",
        Db2Type::Graphic(_) => "Graphic",
        Db2Type::VarGraphic(_) => "VarGraphic",
        Db2Type::DbClob => "DbClob",
        Db2Type::RowId(_) => "RowId",
        Db2Type::Boolean => "Boolean",
        Db2Type::Xml => "Xml",
    }
}
