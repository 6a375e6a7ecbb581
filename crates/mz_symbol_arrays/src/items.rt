// Symbols as elements of a line: where a node is true an element has all its values.

ghost use Rattle.std.specs.Prelude.{◌≡◌, IfOk, None, Some, pos, true};
ghost use Rattle.mz_core.specs.declared.types.Base.TheVariants as base;
ghost use Rattle.std.specs.Ordering.{int_eq};
ghost use Rattle.mz_arena.specs.Values as terms;
ghost use Rattle.mz_arena.specs.Values.{and_term, card_term, comparison_term, if_term};
ghost use Rattle.mz_meaning.specs.Runs.{give};
ghost use Rattle.mz_symbol.specs.Readings.{Reading, Reads};
ghost use Rattle.mz_symbol.specs.Makes.{GoesOnBy, Means};
ghost use Rattle.mz_symbol_rows.specs.RowValues.{is_single};
ghost use Rattle.mz_symbol_arrays.specs.StepsArrays.{Fills, MakesItem, Settles, is_number_base, is_set_sort, symbol_of};
ghost use Rattle.mz_symbol_arrays.specs.Sure.{IsSure};

use crate::sure::is_sure;
use mz_arena::{Id, Node, NodeKind};
use mz_base::Stop;
use mz_core::Base;
use mz_symbol::{Run, Symbol};

// ---- nodes

pub(crate) fn both_node(run: &mut Run, x: Id, y: Id) -> Result<Id, Stop>
    ensures goes { GoesOnBy 6 run.old run.new }
    ensures means { Means (λ r. r.term) result run.old run.new (λ r. give (and_term (r.term x) (r.term y))) }
{
    let node = Node {
        kind: NodeKind::And,
        a: x,
        b: y,
        c: 0,
        number: 0,
    };
    run.node(&node)
}

fn tested_node(run: &mut Run, x: Id) -> Result<Id, Stop>
    ensures goes { GoesOnBy 6 run.old run.new }
    ensures means { Means (λ r. r.term) result run.old run.new (λ r. give (comparison_term int_eq (r.term x) (r.term x))) }
{
    let node = Node {
        kind: NodeKind::Eq,
        a: x,
        b: x,
        c: 0,
        number: 0,
    };
    run.node(&node)
}

/// Whether a number is there that surely is.
fn sure_there(run: &mut Run, x: Id) -> Result<Id, Stop>
    requires { IsSure run.old.arena x }
    ensures goes { GoesOnBy 6 run.old run.new }
    ensures means { Means (λ r. r.term) result run.old run.new (λ r. give (comparison_term int_eq (r.term x) (r.term x))) }
{
    let _number = x;
    let yes = run.truth_node(true)?;
    Ok(yes)
}

/// Whether a number is there.
fn number_there(run: &mut Run, x: Id) -> Result<Id, Stop>
    ensures goes { GoesOnBy 6 run.old run.new }
    ensures means { Means (λ r. r.term) result run.old run.new (λ r. give (comparison_term int_eq (r.term x) (r.term x))) }
{
    if is_sure(run.arena(), x) {
        return sure_there(run, x);
    }
    tested_node(run, x)
}

/// How many elements a set has.
fn size_node(run: &mut Run, x: Id) -> Result<Id, Stop>
    ensures goes { GoesOnBy 4 run.old run.new }
    ensures means { Means (λ r. r.term) result run.old run.new (λ r. give (card_term (r.term x))) }
{
    let node = Node {
        kind: NodeKind::Card,
        a: x,
        b: 0,
        c: 0,
        number: 0,
    };
    run.node(&node)
}

fn zero(run: &mut Run) -> Result<Id, Stop>
    ensures goes { GoesOnBy 0 run.old run.new }
    ensures means { Means (λ r. r.term) result run.old run.new (λ _. give (Some (terms.number (pos 0)))) }
{
    let node = Node {
        kind: NodeKind::Int,
        a: 0,
        b: 0,
        c: 0,
        number: 0,
    };
    run.node(&node)
}

fn chosen_node(run: &mut Run, o: Id, x: Id, y: Id) -> Result<Id, Stop>
    ensures goes { GoesOnBy 16 run.old run.new }
    ensures means { Means (λ r. r.term) result run.old run.new (λ r. give (if_term (r.term o) (r.term x) (r.term y))) }
{
    let node = Node {
        kind: NodeKind::If,
        a: o,
        b: x,
        c: y,
        number: 0,
    };
    run.node(&node)
}

fn symbol(base: Base, occurs: Option<Id>, term: Id) -> Symbol
    ensures { result ≡ symbol_of base occurs term }
{
    Symbol { base, occurs, term }
}

// ---- nodes that are there wherever they are read

/// A Boolean node that is true where this one is.
#[tactic(auto, using(mz_symbol_rows::proofs::GoingOn::goes_most))]
fn settled(run: &mut Run, x: Id) -> Result<Id, Stop>
    ensures goes { GoesOnBy 6 run.old run.new }
    ensures settles { IfOk result (λ y. (r : Reading) → Reads r run.new → Settles r run.old run.new x y) }
{
    if is_sure(run.arena(), x) {
        return Ok(x);
    }
    let y = both_node(run, x, x)?;
    Ok(y)
}

/// The value of an option where it is there, and elsewhere some value.
#[tactic(auto, using(mz_symbol_rows::proofs::GoingOn::goes_both, mz_symbol_rows::proofs::GoingOn::goes_most))]
fn filled(run: &mut Run, o: Id, x: Id) -> Result<Id, Stop>
    ensures goes { GoesOnBy 16 run.old run.new }
    ensures fills { IfOk result (λ y. (r : Reading) → Reads r run.new → Fills r run.old run.new o x y) }
{
    if is_sure(run.arena(), x) {
        return Ok(x);
    }
    let none = zero(run)?;
    let y = chosen_node(run, o, x, none)?;
    Ok(y)
}

// ---- elements by their sorts

/// A truth value is always there: false in place of undefined.
#[tactic(auto, using(mz_symbol_rows::proofs::GoingOn::goes_both, mz_symbol_rows::proofs::GoingOn::goes_most))]
fn truth_item(run: &mut Run, b: Base, x: Id) -> Result<(Symbol, Id), Stop>
    requires { b ≡ base.Bool }
    ensures goes { GoesOnBy 28 run.old run.new }
    ensures item { IfOk result (λ p. (r : Reading) → Reads r run.new → MakesItem r run.old run.new (symbol_of b None x) p.0 p.1) }
{
    let term = settled(run, x)?;
    let yes = run.truth_node(true)?;
    Ok((symbol(b, None, term), yes))
}

/// A number or a case.
#[tactic(auto, using(mz_symbol_rows::proofs::GoingOn::goes_most))]
fn number_item(run: &mut Run, b: Base, x: Id) -> Result<(Symbol, Id), Stop>
    requires { is_number_base b ≡ true }
    ensures goes { GoesOnBy 28 run.old run.new }
    ensures item { IfOk result (λ p. (r : Reading) → Reads r run.new → MakesItem r run.old run.new (symbol_of b None x) p.0 p.1) }
{
    let there = number_there(run, x)?;
    Ok((symbol(b, None, x), there))
}

#[tactic(auto, using(mz_symbol_rows::proofs::GoingOn::goes_both, mz_symbol_rows::proofs::GoingOn::goes_most))]
fn set_item(run: &mut Run, b: Base, x: Id) -> Result<(Symbol, Id), Stop>
    requires { is_set_sort b ≡ true }
    ensures goes { GoesOnBy 28 run.old run.new }
    ensures item { IfOk result (λ p. (r : Reading) → Reads r run.new → MakesItem r run.old run.new (symbol_of b None x) p.0 p.1) }
{
    let size = size_node(run, x)?;
    let there = number_there(run, size)?;
    Ok((symbol(b, None, x), there))
}

/// An option of a single value: one that is absent gets some value.
#[tactic(auto, using(mz_symbol_rows::proofs::GoingOn::goes_both, mz_symbol_rows::proofs::GoingOn::goes_most))]
fn option_item(run: &mut Run, b: Base, o: Id, x: Id) -> Result<(Symbol, Id), Stop>
    requires { is_single b ≡ true }
    ensures goes { GoesOnBy 28 run.old run.new }
    ensures item { IfOk result (λ p. (r : Reading) → Reads r run.new → MakesItem r run.old run.new (symbol_of b (Some o) x) p.0 p.1) }
{
    let occurs = settled(run, o)?;
    let term = filled(run, o, x)?;
    let there = number_there(run, term)?;
    Ok((symbol(b, Some(occurs), term), there))
}

// ---- any element

fn is_number_base(b: Base) -> bool
    ensures { result ≡ is_number_base b }
{
    match b {
        Base::Int => true,
        Base::Enum(_) => true,
        _ => false,
    }
}

fn is_set_sort(b: Base) -> bool
    ensures { result ≡ is_set_sort b }
{
    match b {
        Base::SetInt => true,
        Base::SetEnum(_) => true,
        _ => false,
    }
}

fn is_bool(b: Base) -> bool
    ensures { result ≡ true → b ≡ base.Bool }
{
    match b {
        Base::Bool => true,
        _ => false,
    }
}

#[tactic(auto, using(crate::proofs::ItemLaws::single_number, crate::proofs::ItemLaws::single_bool))]
fn is_single(b: Base) -> bool
    ensures { result ≡ true → is_single b ≡ true }
{
    is_number_base(b) || is_bool(b)
}

fn plain_item(run: &mut Run, b: Base, x: Id) -> Result<(Symbol, Id), Stop>
    ensures goes { GoesOnBy 28 run.old run.new }
    ensures item { IfOk result (λ p. (r : Reading) → Reads r run.new → MakesItem r run.old run.new (symbol_of b None x) p.0 p.1) }
{
    if is_number_base(b) {
        number_item(run, b, x)
    } else if is_set_sort(b) {
        set_item(run, b, x)
    } else if is_bool(b) {
        truth_item(run, b, x)
    } else {
        Err(Stop::Memory)
    }
}

fn option_of(run: &mut Run, b: Base, o: Id, x: Id) -> Result<(Symbol, Id), Stop>
    ensures goes { GoesOnBy 28 run.old run.new }
    ensures item { IfOk result (λ p. (r : Reading) → Reads r run.new → MakesItem r run.old run.new (symbol_of b (Some o) x) p.0 p.1) }
{
    if is_single(b) {
        option_item(run, b, o, x)
    } else {
        Err(Stop::Memory)
    }
}

/// An element with a symbol's value, and the node that is true where that is there.
pub(crate) fn item(run: &mut Run, s: Symbol) -> Result<(Symbol, Id), Stop>
    ensures goes { GoesOnBy 28 run.old run.new }
    ensures item { IfOk result (λ p. (r : Reading) → Reads r run.new → MakesItem r run.old run.new s p.0 p.1) }
{
    match s.occurs {
        None => {
            let p = plain_item(run, s.base, s.term)?;
            Ok(p)
        }
        Some(o) => {
            let q = option_of(run, s.base, o, s.term)?;
            Ok(q)
        }
    }
}
