// The values of absent options.

ghost use Rattle.std.specs.Prelude.{◌≡◌, ◌∷◌, [], IfOk, OnOk, Some, false, map, slice_get, true};
ghost use Rattle.mz_interval.specs.Ends.{is_number};
ghost use Rattle.mz_operations.specs.declared.row.Side.TheVariants.{Least};
ghost use Rattle.mz_operations.specs.Sets.{end_of};
ghost use Rattle.mz_arena.specs.declared.node.NodeKind.TheVariants.{Eq, Not, Or};
ghost use Rattle.mz_arena.specs.Entries.{children, entry, is_free};
ghost use Rattle.mz_arena.specs.Arenas.{IsArena, IsAsked};
ghost use Rattle.mz_arena.specs.Instances.{model_var, var_cell};
ghost use Rattle.mz_partial.specs.Calls.{IsNumber};
ghost use Rattle.mz_partial.specs.Nodes.{Placed};
ghost use Rattle.mz_partial.specs.Totals.{IsTruth, IsWhole};
ghost use Rattle.flat.specs.Absent.{AddsCellRoots, AreAllOptions, AreOptions, IsLeastNode, IsOption, IsValueNode, all_cells, has_truths};

use mz_arena::{Arena, Id, ModelVar, Node, NodeKind, VarCell};
use mz_base::Memory;
use mz_value::ShapeBase;

// A node that is no variable and no choice.
fn make(arena: &mut Arena, n: Node) -> Result<Id, Memory>
    requires asked { IsAsked arena.old n }
    requires bound { is_free n.kind ≡ false }
    ensures placed { IfOk result (Placed arena.old arena.new n.kind (children n)) }
    ensures stands { IfOk result (λ id. slice_get arena.new id ≡ Some (entry n)) }
{
    let id = given!(arena.intern(n));
    let _count = arena.len();
    Ok(id)
}

// The integer that is a number.
fn integer(arena: &mut Arena, number: i64) -> Result<Id, Memory>
    requires { is_number number ≡ true }
    ensures { IfOk result (IsNumber arena.old arena.new number) }
{
    let t = given!(make(
        arena,
        Node {
            kind: NodeKind::Int,
            a: 0,
            b: 0,
            c: 0,
            number,
        }
    ));
    Ok(t)
}

// Whether two integers are equal.
fn equal(arena: &mut Arena, a: Id, b: Id) -> Result<Id, Memory>
    requires a { IsWhole arena.old a }
    requires b { IsWhole arena.old b }
    ensures { IfOk result (Placed arena.old arena.new Eq (a ∷ b ∷ [])) }
{
    let t = given!(make(
        arena,
        Node {
            kind: NodeKind::Eq,
            a,
            b,
            c: 0,
            number: 0,
        }
    ));
    Ok(t)
}

// Whether a Boolean isn't true.
fn negation(arena: &mut Arena, a: Id) -> Result<Id, Memory>
    requires { IsTruth arena.old a }
    ensures { IfOk result (Placed arena.old arena.new Not (a ∷ [])) }
{
    let t = given!(make(
        arena,
        Node {
            kind: NodeKind::Not,
            a,
            b: 0,
            c: 0,
            number: 0,
        }
    ));
    Ok(t)
}

// Whether one of two Booleans is true.
fn either(arena: &mut Arena, a: Id, b: Id) -> Result<Id, Memory>
    requires a { IsTruth arena.old a }
    requires b { IsTruth arena.old b }
    ensures { IfOk result (Placed arena.old arena.new Or (a ∷ b ∷ [])) }
{
    let t = given!(make(
        arena,
        Node {
            kind: NodeKind::Or,
            a,
            b,
            c: 0,
            number: 0,
        }
    ));
    Ok(t)
}

// Whether the value of an option is the least number of its domain.
fn least_node(arena: &mut Arena, truth: bool, id: Id, least: i64) -> Result<Id, Memory>
    requires { IsValueNode arena.old truth id least }
    ensures { IfOk result (IsLeastNode arena.old arena.new truth id least) }
{
    if truth {
        let t = given!(negation(arena, id));
        Ok(t)
    } else {
        let n = given!(integer(arena, least));
        let t = given!(equal(arena, id, n));
        Ok(t)
    }
}

// Whether the values of a base are Booleans.
fn has_truths(base: &ShapeBase) -> bool
    ensures { result ≡ has_truths base.now }
{
    match base {
        ShapeBase::Bool => true,
        _ => false,
    }
}

// The least number of a cell's domain, where it has one.
#[tactic(auto, unfolding(mz_operations::specs::Sets::end_of))]
fn least_of(c: &VarCell) -> Option<i64>
    ensures { result ≡ end_of Least c.now.domain }
{
    let r = c.domain.ranges().first()?;
    Some(r.0)
}

// Adds a root that is true where the option is there or has this value, the least of its domain.
fn fix_value(
    arena: &mut Arena,
    m: &ModelVar,
    o: Id,
    c: &VarCell,
    least: i64,
    roots: &mut Vec<Id>,
) -> Result<(), Memory>
    requires arena { IsArena arena.old }
    requires occurs { c.now.occurs ≡ Some o }
    requires option { IsOption arena.old (model_var m.now) o (var_cell c.now) }
    requires least { end_of Least c.now.domain ≡ Some least }
    requires limit { is_number least ≡ true }
    ensures { OnOk result (AddsCellRoots arena.old arena.new (var_cell c.now ∷ []) roots.old.items roots.new.items) }
{
    let is_least = given!(least_node(arena, has_truths(&m.base), c.term, least));
    let root = given!(either(arena, o, is_least));
    roots.push(root)?;
    Ok(())
}

// Adds the root of an option, where its domain has a value.
fn fix_option(
    arena: &mut Arena,
    m: &ModelVar,
    o: Id,
    c: &VarCell,
    roots: &mut Vec<Id>,
) -> Result<(), Memory>
    requires arena { IsArena arena.old }
    requires occurs { c.now.occurs ≡ Some o }
    requires option { IsOption arena.old (model_var m.now) o (var_cell c.now) }
    ensures { OnOk result (AddsCellRoots arena.old arena.new (var_cell c.now ∷ []) roots.old.items roots.new.items) }
{
    let _ranges = c.domain.ranges();
    match least_of(c) {
        Some(least) => fix_value(arena, m, o, c, least, roots),
        None => Ok(()),
    }
}

// Adds the root of a cell, where it is an option whose domain has a value.
fn fix_cell(arena: &mut Arena, m: &ModelVar, c: &VarCell, roots: &mut Vec<Id>) -> Result<(), Memory>
    requires arena { IsArena arena.old }
    requires option { AreOptions arena.old (model_var m.now) (var_cell c.now ∷ []) }
    ensures { OnOk result (AddsCellRoots arena.old arena.new (var_cell c.now ∷ []) roots.old.items roots.new.items) }
{
    match c.occurs {
        Some(o) => fix_option(arena, m, o, c, roots),
        None => Ok(()),
    }
}

// Adds the roots of cells.
fn fix_cells(
    arena: &mut Arena,
    m: &ModelVar,
    cells: &[VarCell],
    roots: &mut Vec<Id>,
) -> Result<(), Memory>
    requires arena { IsArena arena.old }
    requires options { AreOptions arena.old (model_var m.now) (map var_cell cells.now) }
    ensures { OnOk result (AddsCellRoots arena.old arena.new (map var_cell cells.now) roots.old.items roots.new.items) }
{
    'cells: for c in cells {
        given!(fix_cell(arena, m, c, roots));
    }
    Ok(())
}

/// Adds roots that are true exactly where each absent option of these variables has the least number of its
/// domain for its value: one for each option whose domain has a number.
pub(crate) fn fix_absent(
    arena: &mut Arena,
    vars: &[ModelVar],
    roots: &mut Vec<Id>,
) -> Result<(), Memory>
    requires arena { IsArena arena.old }
    requires options { AreAllOptions arena.old (map model_var vars.now) }
    ensures { OnOk result (AddsCellRoots arena.old arena.new (all_cells (map model_var vars.now)) roots.old.items roots.new.items) }
{
    'vars: for m in vars {
        given!(fix_cells(arena, m, m.cells.as_slice(), roots));
    }
    Ok(())
}
