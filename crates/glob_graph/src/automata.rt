// `regular`.

ghost use Rattle.std.specs.Prelude.{◌≡◌, ◌+◌, ◌*◌, ◌≤◌, ◌∷◌, [], IfOk, IfSome, Some, length, nat_abs, nat_eq, pos};
ghost use Rattle.std.specs.List.{list_all};
ghost use Rattle.mz_value.specs.Contents as values;
ghost use Rattle.mz_core.specs.declared.types.Base.TheVariants as base;
ghost use Rattle.mz_arena.specs.Values.{as_set, cons_term};
ghost use Rattle.mz_arena.specs.Values as terms;
ghost use Rattle.mz_globals.specs.declared.global.Global.TheVariants as global;
ghost use Rattle.mz_symbol.specs.Readings.{Reading, state_of};
ghost use Rattle.mz_symbol.specs.Makes.{GoesOnBy};
ghost use Rattle.mz_symbol_access.specs.StepsPlace.{sum_node};
ghost use Rattle.glob_nodes.specs.declared.nodes.Compare.TheVariants as compare;
ghost use Rattle.glob_nodes.specs.Arguments.{IsWhole, array_value};
ghost use Rattle.glob_nodes.specs.Rows.{IsRow, row_cost};
ghost use Rattle.glob_nodes.specs.Says.{Gives, Says, Tells, compares, num};
ghost use Rattle.glob_nodes.specs.Numbers.{IsNumber, plus};
ghost use Rattle.glob_nodes.specs.Sets.{set_value};
ghost use Rattle.glob_graph.specs.Tables.{table_value};
ghost use Rattle.glob_graph.specs.Walks.{values_list};
ghost use Rattle.glob_graph.specs.Automata.{IsAccepted, IsLastState, IsNear, IsNextState, IsPlace, as_state, first_state, is_final, is_letter, row_of, steps_of};

use crate::tables::Rows;
use glob_nodes::{
    Compare, Join, Numbers, Test, all_pass, compared, constant, extreme, joined, lies_in, made,
    number, plus, product, truth,
};
use mz_arena::{Id, Node, NodeKind};
use mz_base::Memory;
use mz_operations::Side;
use mz_symbol::Run;

/// An automaton over the states `1..states` and the letters `1..letters`. Its steps have a row for
/// each state, with the state after each letter; where another number is, there is no step.
#[derive(Drop)]
pub struct Automaton {
    pub states: i64,
    pub letters: i64,
    pub steps: Rows,
    /// The first state.
    pub start: i64,
    /// The node of the set of the states that accept.
    pub accepting: Id,
}

/// `regular`: the elements are letters that lead from the first state to one that accepts.
pub fn regular(run: &mut Run, xs: &Numbers, m: &Automaton) -> Result<Id, Memory>
    requires whole { IsWhole run.old xs.now }
    requires fits { length m.now.steps.cells.items ≤ nat_abs m.now.states * nat_abs m.now.letters }
    ensures goes { GoesOnBy (56 * row_cost global.Regular (length xs.now.items.items ∷ nat_abs m.now.states ∷ nat_abs m.now.letters ∷ 0 ∷ 0 ∷ 0 ∷ [])) run.old run.new }
    ensures row { IfOk result (IsRow base.Bool run.old run.new global.Regular
        (λ r. array_value r xs.now ∷ Some (values.int m.now.states) ∷ Some (values.int m.now.letters) ∷ table_value m.now.steps ∷ Some (values.int m.now.start) ∷ set_value r m.now.accepting ∷ [])) }
{
    let body = accepted(run, &xs.items, m)?;
    joined(run, Join::Both, xs.defined, body)
}

/// That integers lead from the first state to one that accepts. Without steps there is no state
/// after a letter.
fn accepted(run: &mut Run, ids: &[Id], m: &Automaton) -> Result<Id, Memory>
    ensures goes { GoesOnBy (56 * (length ids.now + length ids.now * length m.now.steps.cells.items) + 50) run.old run.new }
    ensures accepted { IfOk result (IsAccepted run.old run.new m.now ids.now) }
{
    if ids.is_empty() {
        starts_accepted(run, ids, m)
    } else if has_no_step(m) {
        truth(run, false)
    } else {
        all_accepted(run, ids, m)
    }
}

fn has_no_step(m: &Automaton) -> bool
    ensures { result ≡ nat_eq (length m.now.steps.cells.items) 0 }
{
    m.steps.cells.is_empty()
}

/// That the first state accepts; the integers are none.
fn starts_accepted(run: &mut Run, ids: &[Id], m: &Automaton) -> Result<Id, Memory>
    requires { length ids.now ≡ 0 }
    ensures goes { GoesOnBy 18 run.old run.new }
    ensures accepted { IfOk result (IsAccepted run.old run.new m.now ids.now) }
{
    let start = first_state(run, m)?;
    is_final(run, m, start)
}

/// That integers are letters, and lead to a state that accepts.
fn all_accepted(run: &mut Run, ids: &[Id], m: &Automaton) -> Result<Id, Memory>
    ensures goes { GoesOnBy (112 * length ids.now + 8 * length m.now.steps.cells.items + 24) run.old run.new }
    ensures accepted { IfOk result (IsAccepted run.old run.new m.now ids.now) }
{
    let letters = are_letters(run, m, ids)?;
    let list = list_of_steps(run, m, &m.steps.cells)?;
    let end = last_state(run, m, list, ids)?;
    let last = is_final(run, m, end)?;
    joined(run, Join::Both, letters, last)
}

// ---- letters

/// Letters of an automaton.
#[derive(Clone, Copy)]
struct IsLetter<'a> {
    m: &'a Automaton,
}

impl<'a> Test<Id> for IsLetter<'a> {
    ghost use Rattle.glob_nodes.specs.Says.{num};
    ghost use Rattle.glob_graph.specs.Automata.{is_letter};

    ghost holds = { λ c x r. is_letter c.m.now.letters (num r x) };

    ghost room = { λ c. 18 };

    fn test(&self, run: &mut Run, x: &Id) -> Result<Id, Memory> {
        let id = is_letter(run, self.m, *x)?;
        Ok(id)
    }
}

fn are_letters(run: &mut Run, m: &Automaton, ids: &[Id]) -> Result<Id, Memory>
    ensures goes { GoesOnBy (24 * length ids.now) run.old run.new }
    ensures tells { IfOk result (Tells run.old run.new (λ r. list_all (λ x. is_letter m.now.letters (num r x)) ids.now)) }
{
    let id = all_pass(run, &IsLetter { m }, ids)?;
    Ok(id)
}

#[tactic(auto, using(mz_symbol_rows::proofs::GoingOn::goes_both, mz_symbol_rows::proofs::GoingOn::goes_most))]
fn is_letter(run: &mut Run, m: &Automaton, x: Id) -> Result<Id, Memory>
    ensures goes { GoesOnBy 18 run.old run.new }
    ensures says { IfOk result (Says run.old run.new (λ r. is_letter m.now.letters (num r x))) }
{
    let first = is_positive(run, x)?;
    let last = is_before(run, m, x)?;
    let id = joined(run, Join::Both, first, last)?;
    Ok(id)
}

#[tactic(auto, using(mz_symbol_rows::proofs::GoingOn::goes_both))]
fn is_positive(run: &mut Run, x: Id) -> Result<Id, Memory>
    ensures goes { GoesOnBy 6 run.old run.new }
    ensures says { IfOk result (Says run.old run.new (λ r. compares compare.AtMost (Some (pos 1)) (num r x))) }
{
    let one = constant(run, 1)?;
    compared(run, Compare::AtMost, one, x)
}

#[tactic(auto, using(mz_symbol_rows::proofs::GoingOn::goes_both))]
fn is_before(run: &mut Run, m: &Automaton, x: Id) -> Result<Id, Memory>
    ensures goes { GoesOnBy 6 run.old run.new }
    ensures says { IfOk result (Says run.old run.new (λ r. compares compare.AtMost (num r x) (Some m.now.letters))) }
{
    let last = last_letter(run, m)?;
    compared(run, Compare::AtMost, x, last)
}

fn last_letter(run: &mut Run, m: &Automaton) -> Result<Id, Memory>
    ensures goes { GoesOnBy 0 run.old run.new }
    ensures is { IfOk result (IsNumber run.old run.new (λ _. Some m.now.letters)) }
{
    constant(run, m.letters)
}

/// A letter, and of any other integer the nearest one.
#[tactic(auto, using(mz_symbol_rows::proofs::GoingOn::goes_both, mz_symbol_rows::proofs::GoingOn::goes_most))]
fn nearest(run: &mut Run, m: &Automaton, x: Id) -> Result<Id, Memory>
    ensures goes { GoesOnBy 48 run.old run.new }
    ensures near { IfOk result (IsNear run.old run.new m.now x) }
{
    let last = last_letter(run, m)?;
    let low = extreme(run, Side::Least, &[x, last])?;
    let one = constant(run, 1)?;
    extreme(run, Side::Greatest, &[low, one])
}

// ---- states

/// A number as a state, 0 where it is none.
fn as_state(m: &Automaton, n: i64) -> i64
    ensures { result ≡ as_state m.now.states n }
{
    if n >= 1 && n <= m.states { n } else { 0 }
}

fn state(run: &mut Run, m: &Automaton, n: i64) -> Result<Id, Memory>
    ensures goes { GoesOnBy 0 run.old run.new }
    ensures gives { IfOk result (Gives run.old run.new (λ _. Some (terms.number (as_state m.now.states n)))) }
{
    number(run, as_state(m, n))
}

fn first_state(run: &mut Run, m: &Automaton) -> Result<Id, Memory>
    ensures goes { GoesOnBy 0 run.old run.new }
    ensures is { IfOk result (IsNumber run.old run.new (λ _. first_state m.now)) }
{
    state(run, m, m.start)
}

/// Whether a state is there and accepts.
#[tactic(auto, using(mz_symbol_rows::proofs::GoingOn::goes_both, mz_symbol_rows::proofs::GoingOn::goes_most))]
fn is_final(run: &mut Run, m: &Automaton, q: Id) -> Result<Id, Memory>
    ensures goes { GoesOnBy 18 run.old run.new }
    ensures says { IfOk result (Says run.old run.new (λ r. is_final (as_set (r.term m.now.accepting)) (num r q))) }
{
    let there = is_positive(run, q)?;
    let among = lies_in(run, q, m.accepting)?;
    let id = joined(run, Join::Both, there, among)?;
    Ok(id)
}

/// The list of the steps.
fn list_of_steps(run: &mut Run, m: &Automaton, cells: &[i64]) -> Result<Id, Memory>
    requires { cells.now ≡ m.now.steps.cells.items }
    ensures goes { GoesOnBy (8 * length cells.now) run.old run.new }
    ensures gives { IfOk result (Gives run.old run.new (λ _. values_list (steps_of m.now))) }
{
    let mut acc = made(run, NodeKind::Nil, 0, 0)?;
    let mut k = cells.len();
    while k > 0 {
        k -= 1;
        acc = before(run, m, cells[k], acc)?;
    }
    Ok(acc)
}

/// A list with one step more before it.
#[tactic(auto, using(mz_symbol_rows::proofs::GoingOn::goes_both))]
fn before(run: &mut Run, m: &Automaton, n: i64, list: Id) -> Result<Id, Memory>
    ensures goes { GoesOnBy 8 run.old run.new }
    ensures gives { IfOk result (Gives run.old run.new (λ r. cons_term (Some (terms.number (as_state m.now.states n))) (r.term list))) }
{
    let step = state(run, m, n)?;
    made(run, NodeKind::Cons, step, list)
}

/// The state to which letters lead from the first one; undefined where a step leads nowhere.
fn last_state(run: &mut Run, m: &Automaton, list: Id, ids: &[Id]) -> Result<Id, Memory>
    ensures goes { GoesOnBy (88 * length ids.now) run.old run.new }
    ensures last { IfOk result (IsLastState run.old run.new m.now list ids.now) }
{
    let mut at = first_state(run, m)?;
    let mut k = 0;
    'letters: while k < ids.len() {
        at = next_state(run, m, list, at, ids[k])?;
        k += 1;
    }
    Ok(at)
}

/// The state after another and a letter. There is none after 0: its places are before the first.
#[tactic(auto, using(mz_symbol_rows::proofs::GoingOn::goes_both, mz_symbol_rows::proofs::GoingOn::goes_most))]
fn next_state(run: &mut Run, m: &Automaton, list: Id, q: Id, x: Id) -> Result<Id, Memory>
    ensures goes { GoesOnBy 88 run.old run.new }
    ensures next { IfOk result (IsNextState run.old run.new m.now list q x) }
{
    let row = row_of(run, m, q)?;
    let place = place(run, m, row, x)?;
    made(run, NodeKind::Access, place, list)
}

/// How many steps are before those of a state.
#[tactic(auto, using(mz_symbol_rows::proofs::GoingOn::goes_both, mz_symbol_rows::proofs::GoingOn::goes_most))]
fn row_of(run: &mut Run, m: &Automaton, q: Id) -> Result<Id, Memory>
    ensures goes { GoesOnBy 8 run.old run.new }
    ensures is { IfOk result (IsNumber run.old run.new (λ r. row_of m.now.letters (num r q))) }
{
    let back = constant(run, -1)?;
    let rows = plus(run, q, back)?;
    let letters = last_letter(run, m)?;
    product(run, rows, letters)
}

/// The place of a letter's step after so many others, from 1. Where it could leave the limit, the
/// letter is first brought between the first and the last one.
#[tactic(auto, using(mz_symbol_rows::proofs::GoingOn::goes_both, mz_symbol_rows::proofs::GoingOn::goes_most))]
fn place(run: &mut Run, m: &Automaton, row: Id, x: Id) -> Result<Id, Memory>
    ensures goes { GoesOnBy 56 run.old run.new }
    ensures place { IfOk result (IsPlace run.old run.new m.now row x) }
{
    let direct = sum_within(run, row, x)?;
    match direct {
        Some(id) => Ok(id),
        None => nearest_place(run, m, row, x),
    }
}

#[tactic(auto, using(mz_symbol_rows::proofs::GoingOn::goes_both))]
fn nearest_place(run: &mut Run, m: &Automaton, row: Id, x: Id) -> Result<Id, Memory>
    ensures goes { GoesOnBy 52 run.old run.new }
    ensures place { IfOk result (IsPlace run.old run.new m.now row x) }
{
    let near = nearest(run, m, x)?;
    plus(run, row, near)
}

/// The sum of two integers; None where its bounds leave the limit.
fn sum_within(run: &mut Run, a: Id, b: Id) -> Result<Option<Id>, Memory>
    ensures goes { GoesOnBy 4 run.old run.new }
    ensures same { (r : Reading) → state_of r run.old ≡ state_of r run.new }
    ensures sum { IfOk result (λ o. IfSome o (IsNumber run.old run.new (λ r. plus (num r a) (num r b)))) }
{
    let sum = sum_node(a, b);
    run.tried(&sum)
}

fn sum_node(a: Id, b: Id) -> Node
    ensures { result ≡ sum_node a b }
{
    Node {
        kind: NodeKind::Add,
        a,
        b,
        c: 0,
        number: 0,
    }
}
