// Tasks that share a resource.

ghost use Rattle.std.specs.Prelude.{◌≡◌, ◌+◌, ◌*◌, ◌∷◌, ◌&&◌, [], IfOk, Some, is_some, length, pos};
ghost use Rattle.mz_core.specs.declared.types.Base.TheVariants as base;
ghost use Rattle.mz_arena.specs.Values.{is_true};
ghost use Rattle.mz_globals.specs.declared.global.Global.TheVariants as global;
ghost use Rattle.mz_symbol.specs.Makes.{GoesOnBy};
ghost use Rattle.glob_nodes.specs.declared.nodes.Compare.TheVariants as compare;
ghost use Rattle.glob_nodes.specs.Arguments.{IsWhole, array_value, number_value};
ghost use Rattle.glob_nodes.specs.Rows.{IsRow, row_cost};
ghost use Rattle.glob_nodes.specs.Says.{Says, Tells, compares, num};
ghost use Rattle.glob_nodes.specs.Numbers.{IsNumber, added, plus};
ghost use Rattle.glob_nodes.specs.Several.{all_defined};
ghost use Rattle.glob_sched.specs.Senses.{is_enough, runs_at, taken, taken_at, used_room, uses_in};

use glob_nodes::{
    Compare, Join, Numbers, Part, Test, all_pass, compared, joined, number, one_if, plus, product,
    summed, where_arrays, where_defined, zipped,
};
use mz_arena::Id;
use mz_base::Memory;
use mz_symbol::Run;
use std::alloc::Global;

/// `cumulative`: at each task's start no more is used than `b`, which isn't negative. That is so at
/// every time then (`starts_are_enough` in mz_globals).
pub fn cumulative(
    alloc: Global,
    run: &mut Run,
    s: &Numbers,
    d: &Numbers,
    u: &Numbers,
    b: Id,
) -> Result<Id, Memory>
    requires s { IsWhole run.old s.now }
    requires d { IsWhole run.old d.now }
    requires u { IsWhole run.old u.now }
    ensures goes { GoesOnBy (56 * row_cost global.Cumulative (length s.now.items.items ∷ length d.now.items.items ∷ length u.now.items.items ∷ 1 ∷ [])) run.old run.new }
    ensures row { IfOk result (IsRow base.Bool run.old run.new global.Cumulative (λ r. array_value r s.now ∷ array_value r d.now ∷ array_value r u.now ∷ number_value r b ∷ [])) }
{
    let body = all_fit(alloc, run, s, d, u, b)?;
    where_tasks(run, s, d, u, b, body)
}

fn all_fit(
    alloc: Global,
    run: &mut Run,
    s: &Numbers,
    d: &Numbers,
    u: &Numbers,
    b: Id,
) -> Result<Id, Memory>
    ensures goes { GoesOnBy (used_room (length (uses_in s.now d.now u.now))) run.old run.new }
    ensures tells { IfOk result (Tells run.old run.new (λ r. is_enough r (uses_in s.now d.now u.now) b)) }
{
    let tasks = zipped(alloc, &s.items, &d.items)?;
    let uses = zipped(alloc, &tasks, &u.items)?;
    starts_fit(run, &uses, b)
}

#[tactic(auto, using(mz_symbol_rows::proofs::GoingOn::goes_both, mz_symbol_rows::proofs::GoingOn::goes_most))]
fn starts_fit(run: &mut Run, uses: &[((Id, Id), Id)], b: Id) -> Result<Id, Memory>
    ensures goes { GoesOnBy (used_room (length uses.now)) run.old run.new }
    ensures tells { IfOk result (Tells run.old run.new (λ r. is_enough r uses.now b)) }
{
    let at_starts = all_pass(run, &StartFits { uses, b }, uses)?;
    let enough = is_positive(run, b)?;
    let id = joined(run, Join::Both, enough, at_starts)?;
    Ok(id)
}

/// That an integer is 0 or more.
#[tactic(auto, using(mz_symbol_rows::proofs::GoingOn::goes_both))]
pub(crate) fn is_positive(run: &mut Run, b: Id) -> Result<Id, Memory>
    ensures goes { GoesOnBy 6 run.old run.new }
    ensures says { IfOk result (Says run.old run.new (λ r. compares compare.AtMost (Some (pos 0)) (num r b))) }
{
    let zero = number(run, 0)?;
    compared(run, Compare::AtMost, zero, b)
}

/// Tasks with their uses of which no more is used at a time than this.
#[derive(Clone, Copy)]
struct StartFits<'a> {
    uses: &'a [((Id, Id), Id)],
    b: Id,
}

impl<'a> Test<((Id, Id), Id)> for StartFits<'a> {
    ghost use Rattle.std.specs.Prelude.{◌+◌, ◌*◌, length};
    ghost use Rattle.glob_sched.specs.Senses.{start_fits};

    ghost holds = { λ c x r. start_fits r c.uses.now c.b x };

    ghost room = { λ c. 34 * length c.uses.now + 6 };

    fn test(&self, run: &mut Run, x: &((Id, Id), Id)) -> Result<Id, Memory> {
        let id = fits(run, self.uses, self.b, x.0.0)?;
        Ok(id)
    }
}

/// What all tasks take at a time is at most this.
#[tactic(auto, using(mz_symbol_rows::proofs::GoingOn::goes_both))]
fn fits(run: &mut Run, uses: &[((Id, Id), Id)], b: Id, at: Id) -> Result<Id, Memory>
    ensures goes { GoesOnBy (34 * length uses.now + 6) run.old run.new }
    ensures says { IfOk result (Says run.old run.new (λ r. compares compare.AtMost (added (λ w. taken_at r at w) uses.now) (num r b))) }
{
    let used = summed(run, &TakenAt { at }, uses)?;
    compared(run, Compare::AtMost, used, b)
}

/// What a task takes at a time.
#[derive(Clone, Copy)]
struct TakenAt {
    at: Id,
}

impl Part<((Id, Id), Id)> for TakenAt {
    ghost use Rattle.glob_sched.specs.Senses.{taken_at};

    ghost amount = { λ c x r. taken_at r c.at x };

    ghost room = { 30 };

    fn part(&self, run: &mut Run, x: &((Id, Id), Id)) -> Result<Id, Memory> {
        let id = taken_at(run, self.at, x.0.0, x.0.1, x.1)?;
        Ok(id)
    }
}

#[tactic(auto, using(mz_symbol_rows::proofs::GoingOn::goes_both, mz_symbol_rows::proofs::GoingOn::goes_most))]
fn taken_at(run: &mut Run, at: Id, s: Id, d: Id, u: Id) -> Result<Id, Memory>
    ensures goes { GoesOnBy 30 run.old run.new }
    ensures is { IfOk result (IsNumber run.old run.new (λ r. taken (num r at) (num r s) (num r d) (num r u))) }
{
    let runs = runs_at(run, at, s, d)?;
    let bit = one_if(run, runs)?;
    let id = product(run, bit, u)?;
    Ok(id)
}

/// That a task runs at a time: it has begun, and hasn't ended.
#[tactic(auto, using(mz_symbol_rows::proofs::GoingOn::goes_both, mz_symbol_rows::proofs::GoingOn::goes_most))]
fn runs_at(run: &mut Run, at: Id, s: Id, d: Id) -> Result<Id, Memory>
    ensures goes { GoesOnBy 22 run.old run.new }
    ensures says { IfOk result (Says run.old run.new (λ r. runs_at (num r at) (num r s) (num r d))) }
{
    let ends = ends_after(run, at, s, d)?;
    let begun = compared(run, Compare::AtMost, s, at)?;
    let id = joined(run, Join::Both, begun, ends)?;
    Ok(id)
}

#[tactic(auto, using(mz_symbol_rows::proofs::GoingOn::goes_both))]
fn ends_after(run: &mut Run, at: Id, s: Id, d: Id) -> Result<Id, Memory>
    ensures goes { GoesOnBy 10 run.old run.new }
    ensures says { IfOk result (Says run.old run.new (λ r. compares compare.Less (num r at) (plus (num r s) (num r d)))) }
{
    let end = plus(run, s, d)?;
    compared(run, Compare::Less, at, end)
}

/// A truth value where three arrays and an integer are defined, else false.
#[tactic(auto, using(mz_symbol_rows::proofs::GoingOn::goes_both, mz_symbol_rows::proofs::GoingOn::goes_most))]
fn where_tasks(
    run: &mut Run,
    s: &Numbers,
    d: &Numbers,
    u: &Numbers,
    b: Id,
    body: Id,
) -> Result<Id, Memory>
    ensures goes { GoesOnBy 30 run.old run.new }
    ensures says { IfOk result (Says run.old run.new (λ r. all_defined r (s.now ∷ d.now ∷ u.now ∷ []) (is_some (num r b) && is_true (r.term body)))) }
{
    let most = where_defined(run, b, body)?;
    let inner = joined(run, Join::Both, u.defined, most)?;
    let id = where_arrays(run, s, d, inner)?;
    Ok(id)
}
