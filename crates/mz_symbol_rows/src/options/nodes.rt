// The nodes of options.

ghost use Rattle.std.specs.Prelude.{◌≡◌, false, pos, Some};
ghost use Rattle.mz_arena.specs.Charges.{charge_of};
ghost use Rattle.mz_arena.specs.Entries.{is_free};
ghost use Rattle.mz_arena.specs.Values.{number, or_term, not_term, guard_term};
ghost use Rattle.mz_meaning.specs.Runs.{give};
ghost use Rattle.mz_symbol.specs.Makes.{GoesOnBy, Means};
ghost use Rattle.mz_symbol_rows.specs.StepsOptions.{meaning_of, whole_term, bit_term, bits_term, alike_term, same_term, other_term, equal_where_term, there_term, equal_term, unequal_there_term, unequal_term, value_term, summand_term, kept_term};

use mz_arena::{Id, Node, NodeKind};
use mz_base::Stop;
use mz_core::Base;
use mz_symbol::Run;

/// A node of this kind over up to three others.
pub(crate) fn made(run: &mut Run, kind: NodeKind, a: Id, b: Id, c: Id) -> Result<Id, Stop>
    requires { is_free kind ≡ false }
    ensures goes { GoesOnBy (charge_of kind) run.old run.new }
    ensures means { Means (λ r. r.term) result run.old run.new (λ r. give (meaning_of kind a b c r)) }
{
    let n = Node {
        kind,
        a,
        b,
        c,
        number: 0,
    };
    run.node(&n)
}

pub(crate) fn integer(run: &mut Run, n: i64) -> Result<Id, Stop>
    ensures goes { GoesOnBy 0 run.old run.new }
    ensures means { Means (λ r. r.term) result run.old run.new (λ _. give (Some (number n))) }
{
    let n = Node {
        kind: NodeKind::Int,
        a: 0,
        b: 0,
        c: 0,
        number: n,
    };
    run.node(&n)
}

/// A truth value as an integer, which it is as an option's value.
#[tactic(auto, using(crate::proofs::GoingOn::goes_both, crate::proofs::GoingOn::goes_most))]
pub(crate) fn whole_node(run: &mut Run, base: Base, x: Id) -> Result<Id, Stop>
    ensures goes { GoesOnBy 4 run.old run.new }
    ensures means { Means (λ r. r.term) result run.old run.new (λ r. give (whole_term base (r.term x))) }
{
    match base {
        Base::Bool => made(run, NodeKind::ToInt, x, 0, 0),
        _ => Ok(x),
    }
}

// ---- equality

/// Whether an integer is 1, or whether it is another number.
#[tactic(auto, using(crate::proofs::GoingOn::goes_both, crate::proofs::GoingOn::goes_most))]
fn bit_node(run: &mut Run, x: Id, is: bool) -> Result<Id, Stop>
    ensures goes { GoesOnBy 6 run.old run.new }
    ensures means { Means (λ r. r.term) result run.old run.new (λ r. give (bit_term is (r.term x))) }
{
    let one = integer(run, 1)?;
    if is {
        made(run, NodeKind::Eq, x, one, 0)
    } else {
        made(run, NodeKind::Ne, x, one, 0)
    }
}

/// Whether two integers are these truth values.
#[tactic(auto, using(crate::proofs::GoingOn::goes_both, crate::proofs::GoingOn::goes_most))]
fn bits_node(run: &mut Run, x: Id, first: bool, y: Id, second: bool) -> Result<Id, Stop>
    ensures goes { GoesOnBy 18 run.old run.new }
    ensures means { Means (λ r. r.term) result run.old run.new (λ r. give (bits_term (r.term x) first (r.term y) second)) }
{
    let u = bit_node(run, x, first)?;
    let v = bit_node(run, y, second)?;
    made(run, NodeKind::And, u, v, 0)
}

/// Whether two integers are one truth value, or whether they are two.
#[tactic(auto, using(crate::proofs::GoingOn::goes_both, crate::proofs::GoingOn::goes_most))]
fn alike_node(run: &mut Run, same: bool, x: Id, y: Id) -> Result<Id, Stop>
    ensures goes { GoesOnBy 42 run.old run.new }
    ensures means { Means (λ r. r.term) result run.old run.new (λ r. give (alike_term same (r.term x) (r.term y))) }
{
    let yes = bits_node(run, x, true, y, same)?;
    let no = bits_node(run, x, false, y, !same)?;
    made(run, NodeKind::Or, yes, no, 0)
}

#[tactic(auto, using(crate::proofs::GoingOn::goes_both, crate::proofs::GoingOn::goes_most))]
fn same_node(run: &mut Run, base: Base, x: Id, y: Id) -> Result<Id, Stop>
    ensures goes { GoesOnBy 42 run.old run.new }
    ensures means { Means (λ r. r.term) result run.old run.new (λ r. give (same_term base (r.term x) (r.term y))) }
{
    match base {
        Base::Bool => alike_node(run, true, x, y),
        _ => made(run, NodeKind::Eq, x, y, 0),
    }
}

#[tactic(auto, using(crate::proofs::GoingOn::goes_both, crate::proofs::GoingOn::goes_most))]
fn other_node(run: &mut Run, base: Base, x: Id, y: Id) -> Result<Id, Stop>
    ensures goes { GoesOnBy 42 run.old run.new }
    ensures means { Means (λ r. r.term) result run.old run.new (λ r. give (other_term base (r.term x) (r.term y))) }
{
    match base {
        Base::Bool => alike_node(run, false, x, y),
        _ => made(run, NodeKind::Ne, x, y, 0),
    }
}

/// Whether a truth value is true and two integers are equal. Of one integer twice it asks whether
/// that is defined.
#[tactic(auto, using(crate::proofs::GoingOn::goes_both, crate::proofs::GoingOn::goes_most))]
pub(crate) fn equal_where(run: &mut Run, o: Id, x: Id, y: Id) -> Result<Id, Stop>
    ensures goes { GoesOnBy 12 run.old run.new }
    ensures means { Means (λ r. r.term) result run.old run.new (λ r. give (equal_where_term (r.term o) (r.term x) (r.term y))) }
{
    let same = made(run, NodeKind::Eq, x, y, 0)?;
    made(run, NodeKind::And, o, same, 0)
}

#[tactic(auto, using(crate::proofs::GoingOn::goes_both, crate::proofs::GoingOn::goes_most))]
fn there_node(run: &mut Run, base: Base, p: Id, x: Id, y: Id) -> Result<Id, Stop>
    ensures goes { GoesOnBy 48 run.old run.new }
    ensures means { Means (λ r. r.term) result run.old run.new (λ r. give (there_term base (r.term p) (r.term x) (r.term y))) }
{
    let same = same_node(run, base, x, y)?;
    made(run, NodeKind::And, p, same, 0)
}

/// Whether two options are equal, by their occurrences and their values.
#[tactic(auto, using(crate::proofs::GoingOn::goes_both, crate::proofs::GoingOn::goes_most))]
pub(crate) fn equal_node(run: &mut Run, base: Base, o: Id, x: Id, p: Id, y: Id) -> Result<Id, Stop>
    ensures goes { GoesOnBy 70 run.old run.new }
    ensures means { Means (λ r. r.term) result run.old run.new (λ r. give (equal_term base (r.term o) (r.term x) (r.term p) (r.term y))) }
{
    let there = there_node(run, base, p, x, y)?;
    let none = made(run, NodeKind::Not, p, 0, 0)?;
    made(run, NodeKind::If, o, there, none)
}

/// Whether a value that is there isn't an option.
#[tactic(auto, using(crate::proofs::GoingOn::goes_both, crate::proofs::GoingOn::goes_most))]
fn unequal_there(run: &mut Run, base: Base, x: Id, p: Id, y: Id) -> Result<Id, Stop>
    ensures goes { GoesOnBy 64 run.old run.new }
    ensures means { Means (λ r. r.term) result run.old run.new (λ r. give (unequal_there_term base (r.term x) (r.term p) (r.term y))) }
{
    let other = other_node(run, base, x, y)?;
    let alone = made(run, NodeKind::Eq, x, x, 0)?;
    made(run, NodeKind::If, p, other, alone)
}

/// Whether two options differ, by their occurrences and their values.
#[tactic(auto, using(crate::proofs::GoingOn::goes_both, crate::proofs::GoingOn::goes_most))]
pub(crate) fn unequal_node(
    run: &mut Run,
    base: Base,
    o: Id,
    x: Id,
    p: Id,
    y: Id,
) -> Result<Id, Stop>
    ensures goes { GoesOnBy 92 run.old run.new }
    ensures means { Means (λ r. r.term) result run.old run.new (λ r. give (unequal_term base (r.term o) (r.term x) (r.term p) (r.term y))) }
{
    let there = unequal_there(run, base, x, p, y)?;
    let alone = equal_where(run, p, y, y)?;
    made(run, NodeKind::If, o, there, alone)
}

// ---- values

/// An option's value, undefined where it is absent; a truth value is false there.
#[tactic(auto, using(crate::proofs::GoingOn::goes_both, crate::proofs::GoingOn::goes_most))]
pub(crate) fn value_node(run: &mut Run, base: Base, o: Id, x: Id) -> Result<Id, Stop>
    ensures goes { GoesOnBy 12 run.old run.new }
    ensures means { Means (λ r. r.term) result run.old run.new (λ r. give (value_term base (r.term o) (r.term x))) }
{
    match base {
        Base::Bool => true_where(run, o, x),
        _ => made(run, NodeKind::Guard, o, x, 0),
    }
}

#[tactic(auto, using(crate::proofs::GoingOn::goes_both, crate::proofs::GoingOn::goes_most))]
fn true_where(run: &mut Run, o: Id, x: Id) -> Result<Id, Stop>
    ensures goes { GoesOnBy 12 run.old run.new }
    ensures means { Means (λ r. r.term) result run.old run.new (λ r. give (equal_where_term (r.term o) (r.term x) (Some (number (pos 1))))) }
{
    let one = integer(run, 1)?;
    equal_where(run, o, x, one)
}

/// An option's integer, and 0 where it is absent.
#[tactic(auto, using(crate::proofs::GoingOn::goes_both, crate::proofs::GoingOn::goes_most))]
pub(crate) fn summand_node(run: &mut Run, o: Id, x: Id) -> Result<Id, Stop>
    ensures goes { GoesOnBy 16 run.old run.new }
    ensures means { Means (λ r. r.term) result run.old run.new (λ r. give (summand_term (r.term o) (r.term x))) }
{
    let zero = integer(run, 0)?;
    made(run, NodeKind::If, o, x, zero)
}

// ---- under a condition

/// Whether a condition is false, or an option is there.
#[tactic(auto, using(crate::proofs::GoingOn::goes_both, crate::proofs::GoingOn::goes_most))]
pub(crate) fn occurs_unless(run: &mut Run, d: Id, o: Id) -> Result<Id, Stop>
    ensures goes { GoesOnBy 12 run.old run.new }
    ensures means { Means (λ r. r.term) result run.old run.new (λ r. give (or_term (not_term (r.term d)) (r.term o))) }
{
    let other = made(run, NodeKind::Not, d, 0, 0)?;
    made(run, NodeKind::Or, other, o, 0)
}

/// A value where a condition holds, else undefined; a truth value is false there.
#[tactic(auto, using(crate::proofs::GoingOn::goes_both, crate::proofs::GoingOn::goes_most))]
pub(crate) fn kept_node(run: &mut Run, base: Base, d: Id, x: Id) -> Result<Id, Stop>
    ensures goes { GoesOnBy 8 run.old run.new }
    ensures means { Means (λ r. r.term) result run.old run.new (λ r. give (kept_term base (r.term d) (r.term x))) }
{
    match base {
        Base::Bool => made(run, NodeKind::And, d, x, 0),
        _ => guard_node(run, d, x),
    }
}

/// A value where a condition holds, else undefined.
pub(crate) fn guard_node(run: &mut Run, d: Id, x: Id) -> Result<Id, Stop>
    ensures goes { GoesOnBy 8 run.old run.new }
    ensures means { Means (λ r. r.term) result run.old run.new (λ r. give (guard_term (r.term d) (r.term x))) }
{
    made(run, NodeKind::Guard, d, x, 0)
}
