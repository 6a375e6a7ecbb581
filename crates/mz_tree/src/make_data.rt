// Values of data files, made from parts that are there.

ghost use Rattle.std.specs.Prelude.{◌≡◌, IfOk, map};
ghost use Rattle.mz_tree.specs.Data.{value, values, lines, bool, int, ident, absent, range, set, array, rows, array_nd};

use crate::data::Datum;
use mz_base::Name;
use std::alloc::{AllocError, Global};

pub fn make_bool_datum(b: bool) -> Datum
    ensures { value result ≡ bool b }
{
    Datum::Bool(b)
}

pub fn make_int_datum(n: i64) -> Datum
    ensures { value result ≡ int n }
{
    Datum::Int(n)
}

pub fn make_ident_datum(name: Name) -> Datum
    ensures { value result ≡ ident name }
{
    Datum::Ident(name)
}

/// `<>`
pub fn make_absent_datum() -> Datum
    ensures { value result ≡ absent }
{
    Datum::Absent
}

/// `from..to`
pub fn make_range_datum(alloc: Global, from: Datum, to: Datum) -> Result<Datum, AllocError>
    ensures { IfOk result (λ d. value d ≡ range (value from) (value to)) }
{
    let low = Box::new(alloc, from)?;
    let high = Box::new(alloc, to)?;
    Ok(Datum::Range(low, high))
}

/// `{..}`
pub fn make_set_datum(elements: Vec<Datum>) -> Datum
    ensures { value result ≡ set (values (map value elements.items)) }
{
    Datum::Set(elements)
}

/// `[..]`
pub fn make_array_datum(elements: Vec<Datum>) -> Datum
    ensures { value result ≡ array (values (map value elements.items)) }
{
    Datum::Array(elements)
}

/// `[|..|]`
pub fn make_rows_datum(table: Vec<Vec<Datum>>) -> Datum
    ensures { value result ≡ rows (lines (map (λ l. map value l.items) table.items)) }
{
    Datum::Rows(table)
}

/// An array with its index sets.
pub fn make_array_nd_datum(sets: Vec<Datum>, elements: Vec<Datum>) -> Datum
    ensures { value result ≡ array_nd (values (map value sets.items)) (values (map value elements.items)) }
{
    Datum::ArrayNd(sets, elements)
}
