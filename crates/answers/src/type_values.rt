// A type in the Rust's Debug form without blanks: `Char(4)`, `Decimal{precision:5,scale:2}`.
use std::fmt;
use types::Db2Type;

#[derive(Clone, Copy)]
pub(crate) struct TypeValues(pub Db2Type);

impl fmt::Display for TypeValues {
    fn fmt<W: fmt::Write>(&self, f: &mut fmt::Formatter<W>) -> fmt::Result {
        match self.0 {
            Db2Type::Decimal { precision, scale } => {
                write!(f, "Decimal{{precision:{precision},scale:{scale}}}")
            }
            other => write!(f, "{other:?}"),
        }
    }
}
