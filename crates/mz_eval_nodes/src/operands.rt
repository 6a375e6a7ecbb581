// The operands of a chain's operators, and the nodes of `++`.

ghost use Rattle.std.specs.Prelude.{◌≡◌, ◌∷◌, [], IfOk, MatchOption, true};
ghost use Rattle.mz_meaning.specs.Forms.{coerced_by, append_node};
ghost use Rattle.mz_value.specs.Contents as values;
ghost use Rattle.mz_meaning.specs.Cells.{par_value};
ghost use Rattle.mz_eval_cells.specs.Views.{seen};
ghost use Rattle.mz_symbol.specs.Readings.{Reading};
ghost use Rattle.mz_symbol.specs.Makes.{GoesOn, Means, MeansBare};
ghost use Rattle.mz_eval_scopes.specs.Seen.{world_seen};
ghost use Rattle.mz_eval_row_symbols.specs.Numbers.{AreNumbers};
ghost use Rattle.mz_eval_chains.specs.Innermosts.{operator_of};
ghost use Rattle.mz_eval_nodes.specs.Numbers.{IsOpened, IsRowOf, Opens, open_integer};
ghost use Rattle.mz_eval_nodes.specs.Operators.{operator_node, operated_on, placed_seen, nothing_appended, appended_seen, appended_nodes, left_seen, lefts_seen};

use crate::arguments::{element_argument, left_argument, right_argument};
use crate::types::Appended;
use crate::{node_of_numbers, node_of_pars, node_of_two};
use mz_base::{Span, Stop};
use mz_core::{Base, Coercion, TypeInst};
use mz_eval_cells::{Item, Known, is_par};
use mz_eval_chains::{Operator, coerce_both, is_uncoerced, operand_base, place_of};
use mz_eval_row_cells::row_at;
use mz_eval_row_symbols::{Argument, NumberRow, integer, number_in, row_of_numbers};
use mz_eval_scopes::World;
use mz_symbol::Run;
use std::alloc::{AllocError, Global};

/// The left operand of an operator under its coercions, which have the place of the node before.
pub fn prepared(
    alloc: Global,
    world: &World,
    at: Span,
    o: &Operator,
    left: Known,
    run: &mut Run,
) -> Result<Known, Stop>
    ensures goes { GoesOn run.old run.new }
    ensures means { Means seen result run.old run.new (λ r. coerced_by (world_seen r world.now) at (operator_of o.now).step.left (seen r left)) }
    ensures bare { MeansBare seen result run.old run.new (λ r. coerced_by (world_seen r world.now) at (operator_of o.now).step.left (seen r left)) }
{
    if is_uncoerced(o.before, &o.step.left) {
        return Ok(left);
    }
    coerce_both(alloc, world, at, o.before, &o.step.left, left, run)
}

// an operator's node over its operands
fn node_of(
    alloc: Global,
    world: &World,
    o: &Operator,
    args: (Argument, Argument),
    run: &mut Run,
) -> Result<Known, Stop>
    ensures goes { GoesOn run.old run.new }
    ensures means { Means seen result run.old run.new (λ r. operator_node (world_seen r world.now) (operator_of o.now) (seen r args.0.cell) (seen r args.1.cell)) }
    ensures bare { MeansBare seen result run.old run.new (λ r. operator_node (world_seen r world.now) (operator_of o.now) (seen r args.0.cell) (seen r args.1.cell)) }
{
    let row = row_at(o.step.row, operand_base(o));
    node_of_two(alloc, world, o.at, &o.step.ty, row, args, run)
}

// the same over two par cells
fn node_over_pars(
    alloc: Global,
    world: &World,
    o: &Operator,
    a: Known,
    b: Known,
    run: &mut Run,
) -> Result<Known, Stop>
    ensures goes { GoesOn run.old run.new }
    ensures means { Means seen result run.old run.new (λ r. operator_node (world_seen r world.now) (operator_of o.now) (seen r a) (seen r b)) }
    ensures bare { MeansBare seen result run.old run.new (λ r. operator_node (world_seen r world.now) (operator_of o.now) (seen r a) (seen r b)) }
{
    let row = row_at(o.step.row, operand_base(o));
    node_of_pars(alloc, world, o.at, &o.step.ty, row, a, b, run)
}

// the same over any cells; `kind` is what the type of the node before says
fn node_over_any(
    alloc: Global,
    world: &World,
    o: &Operator,
    kind: (Base, bool),
    a: Known,
    b: Known,
    run: &mut Run,
) -> Result<Known, Stop>
    ensures goes { GoesOn run.old run.new }
    ensures means { Means seen result run.old run.new (λ r. operator_node (world_seen r world.now) (operator_of o.now) (seen r a) (seen r b)) }
    ensures bare { MeansBare seen result run.old run.new (λ r. operator_node (world_seen r world.now) (operator_of o.now) (seen r a) (seen r b)) }
{
    let x = left_argument(o, kind, a);
    let y = right_argument(o, b);
    node_of(alloc, world, o, (x, y), run)
}

// an operator's row of two cells, where it is one of numbers of which a node tells one
fn numbers_of(o: &Operator, a: &Known, b: &Known) -> Option<NumberRow>
    ensures row { MatchOption result (Unit {0}) (IsRowOf o.now) }
    ensures numbers { MatchOption result (Unit {0}) (AreNumbers (λ r. seen r a.now) (λ r. seen r b.now)) }
{
    let x = number_in(a)?;
    let y = number_in(b)?;
    row_of_numbers(row_at(o.step.row, operand_base(o)), &x, &y)
}

// the same over cells
fn node_over(
    alloc: Global,
    world: &World,
    o: &Operator,
    kind: (Base, bool),
    a: Known,
    b: Known,
    run: &mut Run,
) -> Result<Known, Stop>
    ensures goes { GoesOn run.old run.new }
    ensures means { Means seen result run.old run.new (λ r. operator_node (world_seen r world.now) (operator_of o.now) (seen r a) (seen r b)) }
    ensures bare { MeansBare seen result run.old run.new (λ r. operator_node (world_seen r world.now) (operator_of o.now) (seen r a) (seen r b)) }
{
    if is_par(&a) && is_par(&b) {
        return node_over_pars(alloc, world, o, a, b, run);
    }
    match numbers_of(o, &a, &b) {
        None => node_over_any(alloc, world, o, kind, a, b, run),
        Some(n) => node_of_numbers(alloc, world, o.at, &o.step.ty, &n, run),
    }
}

// ---- a right operand under its coercions, and the row

fn node_coerced(
    alloc: Global,
    world: &World,
    o: &Operator,
    kind: (Base, bool),
    a: Known,
    c: Known,
    run: &mut Run,
) -> Result<Known, Stop>
    ensures goes { GoesOn run.old run.new }
    ensures means { Means seen result run.old run.new (λ r. operated_on (world_seen r world.now) (seen r a) (operator_of o.now) (seen r c)) }
    ensures bare { MeansBare seen result run.old run.new (λ r. operated_on (world_seen r world.now) (seen r a) (operator_of o.now) (seen r c)) }
{
    let place = place_of(o.operand);
    let b = coerce_both(alloc, world, place, o.after, &o.step.right, c, run)?;
    node_over(alloc, world, o, kind, a, b, run)
}

fn integer_in(k: &Known) -> Option<i64>
    ensures { MatchOption result (Unit {0}) (λ n. (r : Reading) → seen r k.now ≡ par_value (values.int n)) }
{
    match k {
        Known::One(Item::Int(n)) => Some(*n),
        _ => None,
    }
}

// whether this coercion, which is these alone, makes var of a par value
fn is_opening(links: &[(Coercion, TypeInst)], link: &(Coercion, TypeInst)) -> bool
    requires { links.now ≡ link.now ∷ [] }
    ensures { result ≡ true → Opens links.now }
{
    match link.0 {
        Coercion::ToVar => true,
        _ => false,
    }
}

// whether these are one coercion, and make var of a par value
fn opens(links: &[(Coercion, TypeInst)]) -> bool
    ensures { result ≡ true → Opens links.now }
{
    match links {
        [link] => is_opening(links, link),
        _ => false,
    }
}

// the integer that a right operand is, where it becomes var and nothing else
fn opened(o: &Operator, c: &Known) -> Option<i64>
    ensures { MatchOption result (Unit {0}) (IsOpened (operator_of o.now).step.right c.now) }
{
    match o.after {
        Some(_) => None,
        None => if opens(o.step.right.as_slice()) {
            integer_in(c)
        } else {
            None
        },
    }
}

// an operator's row of a cell and an integer that became var
fn numbers_with(o: &Operator, a: &Known, n: i64) -> Option<NumberRow>
    ensures row { MatchOption result (Unit {0}) (IsRowOf o.now) }
    ensures numbers { MatchOption result (Unit {0}) (AreNumbers (λ r. seen r a.now) (λ r. open_integer r.mode n)) }
{
    let x = number_in(a)?;
    row_of_numbers(row_at(o.step.row, operand_base(o)), &x, &integer(n))
}

// the node of such a row, which needs no cell of the integer
fn node_opened(
    alloc: Global,
    world: &World,
    o: &Operator,
    w: &NumberRow,
    a: &Known,
    c: &Known,
    n: i64,
    run: &mut Run,
) -> Result<Known, Stop>
    requires opened { IsOpened (operator_of o.now).step.right c.now n }
    requires row { IsRowOf o.now w.now }
    requires numbers { AreNumbers (λ r. seen r a.now) (λ r. open_integer r.mode n) w.now }
    ensures goes { GoesOn run.old run.new }
    ensures means { Means seen result run.old run.new (λ r. operated_on (world_seen r world.now) (seen r a.now) (operator_of o.now) (seen r c.now)) }
    ensures bare { MeansBare seen result run.old run.new (λ r. operated_on (world_seen r world.now) (seen r a.now) (operator_of o.now) (seen r c.now)) }
{
    run.spend(world.budget, place_of(o.operand), 0)?;
    node_of_numbers(alloc, world, o.at, &o.step.ty, w, run)
}

fn node_with_integer(
    alloc: Global,
    world: &World,
    o: &Operator,
    kind: (Base, bool),
    a: Known,
    c: Known,
    n: i64,
    run: &mut Run,
) -> Result<Known, Stop>
    requires { IsOpened (operator_of o.now).step.right c n }
    ensures goes { GoesOn run.old run.new }
    ensures means { Means seen result run.old run.new (λ r. operated_on (world_seen r world.now) (seen r a) (operator_of o.now) (seen r c)) }
    ensures bare { MeansBare seen result run.old run.new (λ r. operated_on (world_seen r world.now) (seen r a) (operator_of o.now) (seen r c)) }
{
    match numbers_with(o, &a, n) {
        None => node_coerced(alloc, world, o, kind, a, c, run),
        Some(w) => node_opened(alloc, world, o, &w, &a, &c, n, run),
    }
}

fn node_under(
    alloc: Global,
    world: &World,
    o: &Operator,
    kind: (Base, bool),
    a: Known,
    c: Known,
    run: &mut Run,
) -> Result<Known, Stop>
    ensures goes { GoesOn run.old run.new }
    ensures means { Means seen result run.old run.new (λ r. operated_on (world_seen r world.now) (seen r a) (operator_of o.now) (seen r c)) }
    ensures bare { MeansBare seen result run.old run.new (λ r. operated_on (world_seen r world.now) (seen r a) (operator_of o.now) (seen r c)) }
{
    match opened(o, &c) {
        None => node_coerced(alloc, world, o, kind, a, c, run),
        Some(n) => node_with_integer(alloc, world, o, kind, a, c, n, run),
    }
}

/// An operator's node: its right operand's coercions, and the row. `kind` is what the type of the node
/// before says.
pub fn operated_on(
    alloc: Global,
    world: &World,
    o: &Operator,
    kind: (Base, bool),
    a: Known,
    c: Known,
    run: &mut Run,
) -> Result<Known, Stop>
    ensures goes { GoesOn run.old run.new }
    ensures means { Means seen result run.old run.new (λ r. operated_on (world_seen r world.now) (seen r a) (operator_of o.now) (seen r c)) }
    ensures bare { MeansBare seen result run.old run.new (λ r. operated_on (world_seen r world.now) (seen r a) (operator_of o.now) (seen r c)) }
{
    if is_uncoerced(o.after, &o.step.right) {
        node_over(alloc, world, o, kind, a, c, run)
    } else {
        node_under(alloc, world, o, kind, a, c, run)
    }
}

/// The first operand alone.
pub fn nothing_appended<'a>(alloc: Global, place: Span, first: Known) -> Appended<'a>
    ensures { (r : Reading) → appended_seen r result ≡ nothing_appended place (seen r first) }
{
    Appended {
        lefts: Vec::new(alloc),
        place,
        last: first,
    }
}

/// One operator more with its left operand, and its right operand at this place.
#[tactic(auto, using(crate::proofs::Lefts::lefts_push))]
pub fn append_operand<'a>(
    lefts: Vec<(Operator<'a>, Known)>,
    o: Operator<'a>,
    left: Known,
    place: Span,
    last: Known,
) -> Result<Appended<'a>, AllocError>
    ensures { IfOk result (λ x. (r : Reading) → appended_seen r x ≡ record { lefts = (operator_of o.entry, seen r left) ∷ lefts_seen r lefts.entry.items; place = place; last = seen r last }) }
{
    let mut lefts = lefts;
    lefts.push((o, left))?;
    Ok(Appended { lefts, place, last })
}

// the node of an operator whose right operand is the cell `last` of the place `place`
fn node_before(
    alloc: Global,
    world: &World,
    place: Span,
    o: &Operator,
    left: Known,
    last: Known,
    run: &mut Run,
) -> Result<Known, Stop>
    ensures goes { GoesOn run.old run.new }
    ensures means { Means (λ r. placed_seen r o.now.at) result run.old run.new (λ r. append_node (world_seen r world.now) (place, seen r last) (operator_of o.now, seen r left)) }
{
    let b = coerce_both(alloc, world, place, o.after, &o.step.right, last, run)?;
    let x = element_argument(o, left);
    let y = element_argument(o, b);
    let next = node_of(alloc, world, o, (x, y), run)?;
    Ok(next)
}

fn append_node(
    alloc: Global,
    world: &World,
    place: Span,
    p: (Operator, Known),
    last: Known,
    run: &mut Run,
) -> Result<Known, Stop>
    ensures goes { GoesOn run.old run.new }
    ensures means { Means (λ r. placed_seen r p.entry.0.at) result run.old run.new (λ r. append_node (world_seen r world.now) (place, seen r last) (left_seen r p.entry)) }
{
    let (o, left) = p;
    node_before(alloc, world, place, &o, left, last, run)
}

/// The nodes of a chain of `++`, from the last operator on.
#[tactic(auto, using(crate::proofs::Lefts::lefts_push))]
pub fn appended_nodes(
    alloc: Global,
    world: &World,
    x: Appended,
    run: &mut Run,
) -> Result<Known, Stop>
    ensures goes { GoesOn run.old run.new }
    ensures means { Means seen result run.old run.new (λ r. appended_nodes (world_seen r world.now) (appended_seen r x.entry)) }
{
    let Appended {
        mut lefts,
        mut place,
        mut last,
    } = x;
    while let Some(p) = lefts.pop() {
        let at = p.0.at;
        last = append_node(alloc, world, place, p, last, run)?;
        place = at;
    }
    Ok(last)
}
