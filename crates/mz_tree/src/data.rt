// The items of a data file.

ghost use Rattle.std.specs.Prelude.{◌≡◌};
ghost use Rattle.mz_tree.specs.Data.{value, is_name};

use mz_base::{Name, Span};

/// A value of a data file, as it is written.
#[derive(Debug)]
pub enum Datum {
    Bool(bool),
    Int(i64),
    Ident(Name),
    Absent,
    Range(Box<Datum>, Box<Datum>),
    Set(Vec<Datum>),
    Array(Vec<Datum>),
    Rows(Vec<Vec<Datum>>),
    ArrayNd(Vec<Datum>, Vec<Datum>),
}

impl Drop for Datum {
    fn drop(self) {
        match self {
            Datum::Bool(_) => {}
            Datum::Int(_) => {}
            Datum::Ident(_) => {}
            Datum::Absent => {}
            Datum::Range(_low, _high) => {}
            Datum::Set(_elements) => {}
            Datum::Array(_elements) => {}
            Datum::Rows(_lines) => {}
            Datum::ArrayNd(_sets, _elements) => {}
        }
    }
}

impl Datum {
    /// Whether it is an identifier.
    #[tactic(auto, unfolding(crate::specs::Data::value))]
    pub fn is_name(&self) -> bool
        ensures { result ≡ is_name (value self.now) }
    {
        matches!(self, Datum::Ident(_))
    }
}

/// A value for a name: the places of the name and of the value's first token.
#[derive(Debug, Drop)]
pub struct DataItem {
    pub name: Name,
    pub span: Span,
    pub at: Span,
    pub datum: Datum,
}

/// The items of all data files, in order.
#[derive(Debug, Drop)]
pub struct Data {
    pub items: Vec<DataItem>,
}
