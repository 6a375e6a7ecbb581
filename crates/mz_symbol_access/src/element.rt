// The element of a var array at a place.

ghost use Rattle.std.specs.Prelude.{◌≡◌, IfOk, None, Some, false, length, true};
ghost use Rattle.mz_index.specs.Places.{count_of};
ghost use Rattle.mz_arena.specs.Values.{access_term, and_term, guard_term};
ghost use Rattle.mz_meaning.specs.Cells.{held};
ghost use Rattle.mz_meaning.specs.Runs.{give};
ghost use Rattle.mz_symbol.specs.Readings.{Reading, Reads, symbol_seen};
ghost use Rattle.mz_symbol.specs.Makes.{GoesOnBy, Means};
ghost use Rattle.mz_symbol_rows.specs.StepsOptions.{symbol_of};
ghost use Rattle.mz_symbol_access.specs.AccessValues.{access_charge, access_value, at_node, item_charge};
ghost use Rattle.mz_symbol_access.specs.StepsElement.{is_number, plain_term, there_term, value_term, IsFound, IsItemAt, IsOptionAt, IsOptionOf, IsPlainAt};

use crate::nodes::made;
use crate::nowhere::nowhere;
use crate::reached::{has_count, reached_node};
use crate::truth::truth_node;
use mz_arena::{Id, NodeKind};
use mz_base::{Memory, Stop};
use mz_core::Base;
use mz_symbol::{Lists, Run, Symbol};
use mz_symbol_arrays::lines::defined;
use std::alloc::Global;

/// The element of an array at these indices, at a node of this base, an option or not. The ranges are
/// those of the array's indices. Undefined where the array is, or where an index is or lies outside
/// its range; a truth value that is no option is false there.
///
/// Out of memory too where there is no such array, where the elements or the indices are of another
/// sort, or where there are more indices than ranges, or fewer.
#[tactic(auto, using(mz_symbol_rows::proofs::GoingOn::goes_both, mz_symbol_rows::proofs::GoingOn::goes_most))]
pub fn access(
    alloc: Global,
    run: &mut Run,
    line: u64,
    ranges: &[(i64, i64)],
    indices: &[Symbol],
    base: Base,
    opt: bool,
) -> Result<Symbol, Stop>
    ensures goes { GoesOnBy (access_charge (length indices.now) opt) run.old run.new }
    ensures means { Means symbol_seen result run.old run.new (λ r. give (held r.mode (at_node base opt (access_value r ranges.now line indices.now)))) }
{
    let Ok(lists) = run.lists(line) else {
        return Err(Stop::Memory);
    };
    let found = defined(run, line)?;
    if is_none(found.1) {
        let none = nowhere(alloc, run, base, opt)?;
        return Ok(none);
    }
    if !is_base(lists.base, base) {
        return Err(Stop::Memory);
    }
    if !has_count(ranges, found.1) {
        return Err(Stop::Memory);
    }
    let Ok(item) = found_item(run, ranges, indices, base, opt, found.0, lists) else {
        return Err(Stop::Memory);
    };
    Ok(item)
}

/// The element at indices, of an array with as many elements as the ranges have places.
#[tactic(auto, using(mz_symbol_rows::proofs::GoingOn::goes_both, mz_symbol_rows::proofs::GoingOn::goes_most))]
fn found_item(
    run: &mut Run,
    ranges: &[(i64, i64)],
    indices: &[Symbol],
    base: Base,
    opt: bool,
    d: Id,
    lists: Lists,
) -> Result<Symbol, Memory>
    ensures goes { GoesOnBy (access_charge (length indices.now) opt) run.old run.new }
    ensures found { IfOk result (λ s. (r : Reading) → Reads r run.new → IsFound opt r run.old run.new ranges.now indices.now base d lists s) }
{
    let place = reached_node(run, ranges, indices)?;
    let item = item_at(run, ranges, base, opt, d, lists, place)?;
    Ok(item)
}

fn is_none(count: u64) -> bool
    ensures { result ≡ true → count ≡ 0 }
{
    count == 0
}

fn is_base(a: Base, b: Base) -> bool
    ensures { result ≡ true → a ≡ b }
{
    match a {
        Base::Bool => match b {
            Base::Bool => true,
            _ => false,
        },
        Base::Int => match b {
            Base::Int => true,
            _ => false,
        },
        Base::Enum(d) => match b {
            Base::Enum(e) => d == e,
            _ => false,
        },
        Base::SetInt => match b {
            Base::SetInt => true,
            _ => false,
        },
        Base::SetEnum(d) => match b {
            Base::SetEnum(e) => d == e,
            _ => false,
        },
        _ => false,
    }
}

/// Whether the value of this base is a number.
fn is_number(base: Base) -> bool
    ensures { result ≡ is_number base }
{
    match base {
        Base::Bool => true,
        Base::Int => true,
        Base::Enum(_) => true,
        _ => false,
    }
}

/// The value at a place where the array is defined; of a truth value whether it is true.
#[tactic(auto, using(mz_symbol_rows::proofs::GoingOn::goes_both, mz_symbol_rows::proofs::GoingOn::goes_most))]
fn plain_node(run: &mut Run, base: Base, d: Id, list: Id, place: Id) -> Result<Id, Stop>
    ensures goes { GoesOnBy 32 run.old run.new }
    ensures means { Means (λ r. r.term) result run.old run.new (λ r. give (plain_term base (r.term d) (access_term (r.term place) (r.term list)))) }
{
    let item = made(run, NodeKind::Access, place, list)?;
    match base {
        Base::Bool => made(run, NodeKind::And, d, item),
        _ => made(run, NodeKind::Guard, d, item),
    }
}

/// Whether an option isn't absent: where its value is undefined it occurs.
#[tactic(auto, using(mz_symbol_rows::proofs::GoingOn::goes_both, mz_symbol_rows::proofs::GoingOn::goes_most))]
fn there_node(run: &mut Run, value: Id, place: Id, list: Id) -> Result<Id, Stop>
    ensures goes { GoesOnBy 42 run.old run.new }
    ensures means { Means (λ r. r.term) result run.old run.new (λ r. give (there_term (r.term value) (access_term (r.term place) (r.term list)))) }
{
    let occurs = made(run, NodeKind::Access, place, list)?;
    let is = made(run, NodeKind::Eq, value, value)?;
    let lost = made(run, NodeKind::Not, is, 0)?;
    made(run, NodeKind::Or, lost, occurs)
}

pub(crate) fn symbol(base: Base, occurs: Option<Id>, term: Id) -> Symbol
    ensures { result ≡ symbol_of base occurs term }
{
    Symbol { base, occurs, term }
}

/// The value at a place of an array without options, as an option's value is.
#[tactic(auto, using(mz_symbol_rows::proofs::GoingOn::goes_most))]
fn value_node(
    run: &mut Run,
    ranges: &[(i64, i64)],
    base: Base,
    list: Id,
    place: Id,
) -> Result<Id, Stop>
    ensures goes { GoesOnBy 54 run.old run.new }
    ensures means { Means (λ r. r.term) result run.old run.new (λ r. give (value_term base (count_of ranges.now) None (r.term place) (r.term list))) }
{
    match base {
        Base::Bool => truth_node(run, ranges, list, place),
        _ => made(run, NodeKind::Access, place, list),
    }
}

/// The element of an array without options, as an option.
#[tactic(auto, using(mz_symbol_rows::proofs::GoingOn::goes_both, mz_symbol_rows::proofs::GoingOn::goes_most))]
fn present(
    run: &mut Run,
    ranges: &[(i64, i64)],
    base: Base,
    list: Id,
    place: Id,
) -> Result<Symbol, Stop>
    ensures goes { GoesOnBy 66 run.old run.new }
    ensures option { IfOk result (λ s. (r : Reading) → Reads r run.new → IsOptionOf r run.old run.new base (count_of ranges.now) list None place s) }
{
    let term = value_node(run, ranges, base, list, place)?;
    let there = run.truth_node(true)?;
    Ok(symbol(base, Some(there), term))
}

/// The element of an array with options, of which a second list tells whether they are there.
#[tactic(auto, using(mz_symbol_rows::proofs::GoingOn::goes_both, mz_symbol_rows::proofs::GoingOn::goes_most))]
fn marked(
    run: &mut Run,
    ranges: &[(i64, i64)],
    base: Base,
    list: Id,
    marks: Id,
    place: Id,
) -> Result<Symbol, Stop>
    ensures goes { GoesOnBy 66 run.old run.new }
    ensures option { IfOk result (λ s. (r : Reading) → Reads r run.new → IsOptionOf r run.old run.new base (count_of ranges.now) list (Some marks) place s) }
{
    let _dimensions = ranges.len();
    let term = made(run, NodeKind::Access, place, list)?;
    let there = there_node(run, term, place, marks)?;
    Ok(symbol(base, Some(there), term))
}

fn option_of(
    run: &mut Run,
    ranges: &[(i64, i64)],
    base: Base,
    lists: Lists,
    place: Id,
) -> Result<Symbol, Stop>
    ensures goes { GoesOnBy 66 run.old run.new }
    ensures option { IfOk result (λ s. (r : Reading) → Reads r run.new → IsOptionOf r run.old run.new base (count_of ranges.now) lists.terms lists.occurs place s) }
{
    match lists.occurs {
        None => present(run, ranges, base, lists.terms, place),
        Some(marks) => marked(run, ranges, base, lists.terms, marks, place),
    }
}

/// The element as an option of a number.
#[tactic(auto, using(mz_symbol_rows::proofs::GoingOn::goes_both, mz_symbol_rows::proofs::GoingOn::goes_most))]
fn option_at(
    run: &mut Run,
    ranges: &[(i64, i64)],
    base: Base,
    d: Id,
    lists: Lists,
    place: Id,
) -> Result<Symbol, Stop>
    requires { is_number base ≡ true }
    ensures goes { GoesOnBy 74 run.old run.new }
    ensures option { IfOk result (λ s. (r : Reading) → Reads r run.new → IsOptionAt r run.old run.new base (count_of ranges.now) d lists place s) }
{
    let at = made(run, NodeKind::Guard, d, place)?;
    let option = option_of(run, ranges, base, lists, at)?;
    Ok(option)
}

/// The element as what is no option.
#[tactic(auto, using(mz_symbol_rows::proofs::GoingOn::goes_most))]
fn plain_at(run: &mut Run, base: Base, d: Id, lists: Lists, place: Id) -> Result<Symbol, Stop>
    ensures goes { GoesOnBy 32 run.old run.new }
    ensures plain { IfOk result (λ s. (r : Reading) → Reads r run.new → IsPlainAt r run.old run.new base d lists place s) }
{
    match lists.occurs {
        None => {
            let term = plain_node(run, base, d, lists.terms, place)?;
            Ok(symbol(base, None, term))
        }
        Some(_) => Err(Stop::Memory),
    }
}

/// The element at a place.
fn item_at(
    run: &mut Run,
    ranges: &[(i64, i64)],
    base: Base,
    opt: bool,
    d: Id,
    lists: Lists,
    place: Id,
) -> Result<Symbol, Memory>
    ensures goes { GoesOnBy (item_charge opt) run.old run.new }
    ensures item { IfOk result (λ s. (r : Reading) → Reads r run.new → IsItemAt opt r run.old run.new base (count_of ranges.now) d lists place s) }
{
    if opt {
        if !is_number(base) {
            return Err(Memory);
        }
        match option_at(run, ranges, base, d, lists, place) {
            Ok(option) => Ok(option),
            Err(_) => Err(Memory),
        }
    } else {
        match plain_at(run, base, d, lists, place) {
            Ok(plain) => Ok(plain),
            Err(_) => Err(Memory),
        }
    }
}
