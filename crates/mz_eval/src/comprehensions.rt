// Comprehensions: generators as nested loops, no list of their elements is made.

ghost use Rattle.std.specs.Prelude.{◌≡◌, ◌∷◌, ◌<◌, [], map, length, IfOk, IfSome, MatchOption, Some};
ghost use Rattle.mz_core.specs.Types.{plain_type};
ghost use Rattle.mz_core.specs.TreeViews.{tree, gen};
ghost use Rattle.mz_meaning.specs.Forms.{done};
ghost use Rattle.mz_meaning.specs.Comprehensions.{comprehension};
ghost use Rattle.mz_symbol.specs.Makes.{GoesOn, Means};
ghost use Rattle.mz_symbol.specs.Readings.{blank};
ghost use Rattle.mz_eval_cells.specs.Views.{seen};
ghost use Rattle.mz_eval_comprehensions.specs.Presences.{presence_seen};
ghost use Rattle.mz_eval_comprehensions.specs.Views.{IsNextTurn, made_in, made_whole, turn_in, turns_left};
ghost use Rattle.mz_eval.specs.Levels.{world_in, scope_of, at_node};
ghost use Rattle.mz_eval.specs.Comprehensions.{from_head, from_generators, from_condition, from_own_condition, from_names, from_value};

use crate::choices::settled;
use crate::forms::eval_expression;
use crate::types::{Comprehension, Generator, Level, Slots};
use crate::weights::{sound, spent};
use mz_base::{Memory, Stop};
use mz_core::{Core, CoreGen};
use mz_eval_cells::Known;
use mz_eval_chains::base_of;
use mz_eval_comprehensions::presences::Presence;
use mz_eval_comprehensions::{
    Made, Turn, Turns, add_element, add_set, all_turns, both_occur, comprehended, elements_in,
    next_turn, nothing_made, occurs_where,
};
use mz_eval_nodes::elsewhere;
use mz_eval_scopes::{Scope, done};
use mz_symbol::Run;
use std::alloc::Global;

// A comprehension.
#[cycle(forms)]
#[tactic(auto, unfolding(mz_core::specs::Types::plain_type))]
pub(crate) fn eval_comprehension(
    level: &Level,
    node: &Core,
    braces: bool,
    head: &Core,
    all: &[CoreGen],
    scope: &Scope,
    run: &mut Run,
) -> Result<Known, Stop>
    ensures goes { GoesOn run.old run.new }
    ensures means { Means seen result run.old run.new
        (λ r. at_node r level.now scope.now node.now (λ w go ctx at t env. comprehension w go ctx braces (tree head.now) (map gen all.now) at t env)) }
{
    let whole = Comprehension {
        head: &*head,
        at: node.span,
    };
    let start = nothing_made(level.alloc);
    let made = eval_generators(level, &whole, all, Presence::Always, start, scope, run)?;
    ended(level, node, braces, made, run)
}

// the array or the set that is made, with the node's work
fn ended(level: &Level, node: &Core, braces: bool, made: Made, run: &mut Run) -> Result<Known, Stop>
    ensures goes { GoesOn run.old run.new }
    ensures means { Means seen result run.old run.new (λ r. done (world_in r level.now) node.now.span (made_whole r.mode (plain_type node.now.ty) braces (made_in r made))) }
{
    let cell = comprehended(level.alloc, run, braces, &node.ty, made)?;
    done(level.world, node.span, cell, run)
}

// The generators from one on, and the head.
#[cycle(forms)]
#[tactic(auto, using(crate::proofs::Parts::gens_apart))]
fn eval_generators(
    level: &Level,
    whole: &Comprehension,
    all: &[CoreGen],
    occurs: Presence,
    made: Made,
    scope: &Scope,
    run: &mut Run,
) -> Result<Made, Stop>
    ensures goes { GoesOn run.old run.new }
    ensures means { Means made_in result run.old run.new (λ r. from_generators r level.now whole.now (map gen all.now) (scope_of r level.now scope.now) (presence_seen r occurs) (made_in r made)) }
{
    let n = all.len();
    if n == 0 {
        return eval_head(level, whole, occurs, made, scope, run);
    }
    eval_generator(level, whole, &all[0], &all[1..], occurs, made, scope, run)
}

// One element.
#[cycle(forms)]
fn eval_head(
    level: &Level,
    whole: &Comprehension,
    occurs: Presence,
    made: Made,
    scope: &Scope,
    run: &mut Run,
) -> Result<Made, Stop>
    ensures goes { GoesOn run.old run.new }
    ensures means { Means made_in result run.old run.new (λ r. from_head r level.now whole.now (scope_of r level.now scope.now) (presence_seen r occurs) (made_in r made)) }
{
    let c = eval_expression(level, whole.head, scope, run)?;
    add_element(level.alloc, run, made, base_of(whole.head), occurs, c)
}

// A generator: its set is evaluated once for all its names.
#[cycle(forms)]
fn eval_generator(
    level: &Level,
    whole: &Comprehension,
    g: &CoreGen,
    others: &[CoreGen],
    occurs: Presence,
    made: Made,
    scope: &Scope,
    run: &mut Run,
) -> Result<Made, Stop>
    ensures goes { GoesOn run.old run.new }
    ensures means { Means made_in result run.old run.new
        (λ r. from_generators r level.now whole.now (gen g.now ∷ map gen others.now) (scope_of r level.now scope.now) (presence_seen r occurs) (made_in r made)) }
{
    let ctx = elsewhere(level.ctx);
    let outside = Level {
        alloc: level.alloc,
        world: level.world,
        left: level.left,
        ctx,
    };
    let c = eval_expression(&outside, &g.set, scope, run)?;
    let made = add_set(level.alloc, run, made, occurs, &c)?;
    let elements = elements_in(level.alloc, run, base_of(&g.set), g.set.ty.opt, &c)?;
    let generator = Generator {
        elements: &elements,
        cond: &g.cond,
        others: &*others,
        whole: &*whole,
    };
    eval_names(level, &generator, &g.slots, occurs, made, scope, run)
}

// The names that are left, the first of which varies slowest.
#[cycle(forms)]
fn eval_names(
    level: &Level,
    g: &Generator,
    slots: &[u64],
    occurs: Presence,
    made: Made,
    scope: &Scope,
    run: &mut Run,
) -> Result<Made, Stop>
    ensures goes { GoesOn run.old run.new }
    ensures means { Means made_in result run.old run.new (λ r. from_names r level.now g.now slots.now (scope_of r level.now scope.now) (presence_seen r occurs) (made_in r made)) }
{
    match parted(slots) {
        None => eval_where(level, g, occurs, made, scope, run),
        Some(s) => eval_name(level, g, &s, occurs, made, scope, run),
    }
}

// the first name and the others, if there is one
fn parted(slots: &[u64]) -> Option<Slots<'_>>
    ensures { MatchOption result (slots.now ≡ []) (λ s. slots.now ≡ s.first ∷ s.others.now) }
{
    match slots {
        [] => None,
        [first, others @ ..] => Some(Slots {
            first: *first,
            others,
        }),
    }
}

// the next element, after which fewer are left
fn taken(alloc: Global, run: &mut Run, t: &mut Turns) -> Result<Option<Turn>, Memory>
    ensures goes { GoesOn run.old run.new }
    ensures next { IfOk result (IsNextTurn run.old run.new t.old t.new) }
    ensures fewer { IfOk result (λ o. IfSome o (λ _. length (turns_left blank t.new) < length (turns_left blank t.old))) }
{
    let o = next_turn(alloc, run, t);
    sound(run);
    o
}

// A name, which takes each element in turn.
#[cycle(forms)]
fn eval_name(
    level: &Level,
    g: &Generator,
    slots: &Slots,
    occurs: Presence,
    made: Made,
    scope: &Scope,
    run: &mut Run,
) -> Result<Made, Stop>
    ensures goes { GoesOn run.old run.new }
    ensures means { Means made_in result run.old run.new
        (λ r. from_names r level.now g.now (slots.now.first ∷ slots.now.others.now) (scope_of r level.now scope.now) (presence_seen r occurs) (made_in r made)) }
{
    let mut made = made;
    let mut left_turns = all_turns(&*g.elements);
    'turns: while let Some(x) = taken(level.alloc, run, &mut left_turns)? {
        made = eval_turn(level, g, slots, x, occurs, made, scope, run)?;
    }
    Ok(made)
}

#[cycle(forms)]
fn eval_turn(
    level: &Level,
    g: &Generator,
    slots: &Slots,
    x: Turn,
    occurs: Presence,
    made: Made,
    scope: &Scope,
    run: &mut Run,
) -> Result<Made, Stop>
    ensures goes { GoesOn run.old run.new }
    ensures means { Means made_in result run.old run.new (λ r. from_value r level.now g.now slots.now (scope_of r level.now scope.now) (presence_seen r occurs) (made_in r made) (turn_in r x)) }
{
    spent(level.world, g.whole.at, run)?;
    let inner = Scope::Bound(slots.first, &x.cell, &*scope);
    let both = both_occur(run, occurs, x.presence)?;
    eval_names(level, g, slots.others, both, made, &inner, run)
}

// The condition of a generator.
#[cycle(forms)]
fn eval_where(
    level: &Level,
    g: &Generator,
    occurs: Presence,
    made: Made,
    scope: &Scope,
    run: &mut Run,
) -> Result<Made, Stop>
    ensures goes { GoesOn run.old run.new }
    ensures means { Means made_in result run.old run.new (λ r. from_own_condition r level.now g.now (scope_of r level.now scope.now) (presence_seen r occurs) (made_in r made)) }
{
    match g.cond {
        None => eval_generators(level, g.whole, g.others, occurs, made, scope, run),
        Some(e) => eval_filtered(level, g, e, occurs, made, scope, run),
    }
}

#[cycle(forms)]
fn eval_filtered(
    level: &Level,
    g: &Generator,
    e: &Core,
    occurs: Presence,
    made: Made,
    scope: &Scope,
    run: &mut Run,
) -> Result<Made, Stop>
    ensures goes { GoesOn run.old run.new }
    ensures means { Means made_in result run.old run.new (λ r. from_condition r level.now g.now (Some (tree e.now)) (scope_of r level.now scope.now) (presence_seen r occurs) (made_in r made)) }
{
    let ctx = elsewhere(level.ctx);
    let outside = Level {
        alloc: level.alloc,
        world: level.world,
        left: level.left,
        ctx,
    };
    let c = eval_expression(&outside, e, scope, run)?;
    match settled(&c) {
        Some(true) => eval_generators(level, g.whole, g.others, occurs, made, scope, run),
        Some(false) => Ok(made),
        None => {
            let both = occurs_where(level.alloc, run, occurs, &c)?;
            eval_generators(level, g.whole, g.others, both, made, scope, run)
        }
    }
}
