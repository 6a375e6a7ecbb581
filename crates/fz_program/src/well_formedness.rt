// The test whether a FlatZinc program is well formed. It changes nothing and takes no memory.

ghost use Rattle.std.specs.Prelude.{◌≡◌, ◌↔◌, map, IsTrue};
ghost use Rattle.std.specs.List.{AllByRecursion};
ghost use Rattle.fz_program.specs.Flat.{
  AreMarks,
  AreParts,
  IsOfSet,
  IsSome,
  IsWellFormedArray,
  IsWellFormedRow,
  IsWellFormedVariable,
  WellFormed,
  array_item,
  is_goal,
  program,
  row,
  variable,
};

use crate::table::kinds_of;
use crate::{
    Domain, FzArray, FzGoal, FzProgram, FzRow, FzVar, Kind, are_alike, are_arguments, are_distinct,
    has_places, is_definition, is_index, is_variable_of, is_within,
};
use mz_base::is_identifier;

/// Whether a program is well formed: distinct identifiers as names, the marks of one line, domains
/// that aren't empty, numbers within -2^61 and 2^61, arrays of declared variables of one kind that
/// are as many as the index ranges have places, rows with arguments of the kinds that the table
/// has, a defined variable that stands in its row, linear rows with as many coefficients as
/// variables whose sums stay within 64 bits, and an integer variable to minimize or maximize.
///
/// It takes no memory, so it compares names pair by pair, and its time grows with the square of
/// their number; for all else it grows with the size of the program. It is a test aid: the compiler
/// doesn't call it.
pub fn well_formed(p: &FzProgram) -> bool
    ensures { IsTrue result ↔ WellFormed (program p.now) }
{
    are_distinct(&p.vars, &p.arrays) && are_parts(p)
}

/// Whether all but the names that stand twice is well formed. It takes no memory, and its time grows
/// with the size of the program: with a test of the names by a table it is a whole test in linear
/// time.
pub fn are_parts(p: &FzProgram) -> bool
    ensures { IsTrue result ↔ AreParts (program p.now) }
{
    are_variables(&p.vars)
        && are_arrays(&p.vars, &p.arrays)
        && are_rows(&p.vars, &p.rows)
        && is_goal(&p.vars, p.goal)
}

fn are_variables(vars: &[FzVar]) -> bool
    ensures { IsTrue result ↔ AllByRecursion IsWellFormedVariable (map variable vars.now) }
{
    for v in vars {
        if !is_variable(v) {
            return false;
        }
    }
    true
}

fn is_variable(v: &FzVar) -> bool
    ensures { IsTrue result ↔ IsWellFormedVariable (variable v.now) }
{
    is_identifier(v.label.text.as_bytes())
        && has_marks(v.output, v.introduced, v.defined)
        && has_values(&v.domain)
}

// Whether the marks are those of one line.
fn has_marks(output: bool, introduced: bool, defined: bool) -> bool
    ensures { IsTrue result ↔ AreMarks output introduced defined }
{
    if output {
        !introduced && !defined
    } else {
        introduced || !defined
    }
}

// Whether a domain isn't empty.
fn has_values(domain: &Domain) -> bool
    ensures answer { IsTrue result ↔ IsSome domain.now }
    ensures of_set { IsOfSet domain.now }
{
    match domain {
        Domain::Bool => true,
        Domain::Ints(s) => !s.ranges().is_empty(),
        Domain::SetOf(s) => {
            let _ranges = s.ranges();
            true
        }
    }
}

fn are_arrays(vars: &[FzVar], arrays: &[FzArray]) -> bool
    ensures { IsTrue result
        ↔ AllByRecursion (IsWellFormedArray (map variable vars.now)) (map array_item arrays.now) }
{
    for a in arrays {
        if !is_array(vars, a) {
            return false;
        }
    }
    true
}

#[tactic(auto, using(crate::proofs::Places::all_ranges))]
fn is_array(vars: &[FzVar], a: &FzArray) -> bool
    ensures { IsTrue result ↔ IsWellFormedArray (map variable vars.now) (array_item a.now) }
{
    is_identifier(a.label.text.as_bytes())
        && is_index(&a.index)
        && has_places(&a.index, a.items.len() as u64)
        && are_alike(vars, &a.items)
}

// Whether the rows are well formed, where these variables are declared.
fn are_rows(vars: &[FzVar], rows: &[FzRow]) -> bool
    ensures { IsTrue result
        ↔ AllByRecursion (IsWellFormedRow (map variable vars.now)) (map row rows.now) }
{
    for r in rows {
        if !is_row(vars, r) {
            return false;
        }
    }
    true
}

fn is_row(vars: &[FzVar], r: &FzRow) -> bool
    ensures { IsTrue result ↔ IsWellFormedRow (map variable vars.now) (row r.now) }
{
    are_arguments(vars, kinds_of(r.name), &r.args)
        && (is_definition(&r.args, r.defines) && is_within(vars, &r.args))
}

// Whether what is minimized or maximized is an integer variable.
fn is_goal(vars: &[FzVar], goal: FzGoal) -> bool
    ensures { result ≡ is_goal (map variable vars.now) goal }
{
    match goal {
        FzGoal::Satisfy => true,
        FzGoal::Minimize(k) => is_variable_of(vars, Kind::Int, k),
        FzGoal::Maximize(k) => is_variable_of(vars, Kind::Int, k),
    }
}
