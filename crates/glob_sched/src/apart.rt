// Tasks and boxes that may not overlap.

ghost use Rattle.std.specs.Prelude.{◌≡◌, ◌*◌, ◌∷◌, [], IfOk, length, zip};
ghost use Rattle.mz_core.specs.declared.types.Base.TheVariants as base;
ghost use Rattle.mz_arena.specs.Values.{is_true};
ghost use Rattle.mz_globals.specs.declared.global.Global.TheVariants as global;
ghost use Rattle.mz_globals.specs.Lists.{pairwise};
ghost use Rattle.mz_symbol.specs.Makes.{GoesOnBy};
ghost use Rattle.glob_nodes.specs.Arguments.{IsWhole, array_value};
ghost use Rattle.glob_nodes.specs.Rows.{IsRow, row_cost};
ghost use Rattle.glob_nodes.specs.Says.{Says, Tells, pair_count};
ghost use Rattle.glob_nodes.specs.Several.{all_defined, arrays, sizes};
ghost use Rattle.glob_sched.specs.Senses.{are_apart, are_apart_or_idle, are_boxes_apart, boxes_in};

use crate::relations::{Apart, ApartOrIdle, BoxesApart};
use glob_nodes::{Numbers, each_two, where_arrays, zipped};
use mz_arena::Id;
use mz_base::Memory;
use mz_symbol::Run;
use std::alloc::Global;

/// `disjunctive`: of each two tasks with durations, one ends at or before the other's start.
pub fn disjunctive(alloc: Global, run: &mut Run, s: &Numbers, d: &Numbers) -> Result<Id, Memory>
    requires first { IsWhole run.old s.now }
    requires second { IsWhole run.old d.now }
    ensures goes { GoesOnBy (56 * row_cost global.Disjunctive (length s.now.items.items ∷ length d.now.items.items ∷ [])) run.old run.new }
    ensures row { IfOk result (IsRow base.Bool run.old run.new global.Disjunctive (λ r. array_value r s.now ∷ array_value r d.now ∷ [])) }
{
    let body = all_apart_or_idle(alloc, run, s, d)?;
    where_arrays(run, s, d, body)
}

fn all_apart_or_idle(alloc: Global, run: &mut Run, s: &Numbers, d: &Numbers) -> Result<Id, Memory>
    ensures goes { GoesOnBy (56 * pair_count (zip s.now.items.items d.now.items.items)) run.old run.new }
    ensures tells { IfOk result (Tells run.old run.new (λ r. pairwise (are_apart_or_idle r) (zip s.now.items.items d.now.items.items))) }
{
    let tasks = zipped(alloc, &s.items, &d.items)?;
    each_two(run, &ApartOrIdle {}, &tasks)
}

/// `disjunctive_strict`: of each two tasks, one ends at or before the other's start.
pub fn disjunctive_strict(
    alloc: Global,
    run: &mut Run,
    s: &Numbers,
    d: &Numbers,
) -> Result<Id, Memory>
    requires first { IsWhole run.old s.now }
    requires second { IsWhole run.old d.now }
    ensures goes { GoesOnBy (56 * row_cost global.DisjunctiveStrict (length s.now.items.items ∷ length d.now.items.items ∷ [])) run.old run.new }
    ensures row { IfOk result (IsRow base.Bool run.old run.new global.DisjunctiveStrict (λ r. array_value r s.now ∷ array_value r d.now ∷ [])) }
{
    let body = all_apart(alloc, run, s, d)?;
    where_arrays(run, s, d, body)
}

fn all_apart(alloc: Global, run: &mut Run, s: &Numbers, d: &Numbers) -> Result<Id, Memory>
    ensures goes { GoesOnBy (32 * pair_count (zip s.now.items.items d.now.items.items)) run.old run.new }
    ensures tells { IfOk result (Tells run.old run.new (λ r. pairwise (are_apart r) (zip s.now.items.items d.now.items.items))) }
{
    let tasks = zipped(alloc, &s.items, &d.items)?;
    each_two(run, &Apart {}, &tasks)
}

/// `diffn`: of each two boxes, one ends at or before the other's start in x or in y.
///
/// `x` and `y` are where the boxes begin, `dx` and `dy` their sizes.
pub fn diffn(
    alloc: Global,
    run: &mut Run,
    x: &Numbers,
    y: &Numbers,
    dx: &Numbers,
    dy: &Numbers,
) -> Result<Id, Memory>
    requires x { IsWhole run.old x.now }
    requires y { IsWhole run.old y.now }
    requires dx { IsWhole run.old dx.now }
    requires dy { IsWhole run.old dy.now }
    ensures goes { GoesOnBy (56 * row_cost global.Diffn (sizes (x.now ∷ y.now ∷ dx.now ∷ dy.now ∷ []))) run.old run.new }
    ensures row { IfOk result (IsRow base.Bool run.old run.new global.Diffn (λ r. arrays r (x.now ∷ y.now ∷ dx.now ∷ dy.now ∷ []))) }
{
    let body = all_boxes_apart(alloc, run, x, y, dx, dy)?;
    where_boxes(run, x, y, dx, dy, body)
}

fn all_boxes_apart(
    alloc: Global,
    run: &mut Run,
    x: &Numbers,
    y: &Numbers,
    dx: &Numbers,
    dy: &Numbers,
) -> Result<Id, Memory>
    ensures goes { GoesOnBy (64 * pair_count (boxes_in x.now dx.now y.now dy.now)) run.old run.new }
    ensures tells { IfOk result (Tells run.old run.new (λ r. pairwise (are_boxes_apart r) (boxes_in x.now dx.now y.now dy.now))) }
{
    let in_x = zipped(alloc, &x.items, &dx.items)?;
    let in_y = zipped(alloc, &y.items, &dy.items)?;
    let boxes = zipped(alloc, &in_x, &in_y)?;
    each_two(run, &BoxesApart {}, &boxes)
}

/// A truth value where four arrays are defined, else false.
#[tactic(auto, using(mz_symbol_rows::proofs::GoingOn::goes_both, mz_symbol_rows::proofs::GoingOn::goes_most))]
fn where_boxes(
    run: &mut Run,
    x: &Numbers,
    y: &Numbers,
    dx: &Numbers,
    dy: &Numbers,
    body: Id,
) -> Result<Id, Memory>
    ensures goes { GoesOnBy 24 run.old run.new }
    ensures says { IfOk result (Says run.old run.new (λ r. all_defined r (x.now ∷ dx.now ∷ y.now ∷ dy.now ∷ []) (is_true (r.term body)))) }
{
    let inner = where_arrays(run, y, dy, body)?;
    let id = where_arrays(run, x, dx, inner)?;
    Ok(id)
}
