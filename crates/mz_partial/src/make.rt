// Nodes that are made.

ghost use Rattle.std.specs.Prelude.{◌≡◌, ◌≢◌, ◌∷◌, [], IfOk, Some, false, slice_get, take, true};
ghost use Rattle.mz_interval.specs.Ends.{is_number};
ghost use Rattle.mz_arena.specs.declared.node.NodeKind.TheVariants.{Not, If};
ghost use Rattle.mz_arena.specs.Entries.{arity, children, entry, is_free};
ghost use Rattle.mz_arena.specs.Arenas.{IsArena, IsAsked};
ghost use Rattle.mz_partial.specs.declared.group.Group.TheVariants.{Connective};
ghost use Rattle.mz_partial.specs.Groups.{group_of};
ghost use Rattle.mz_partial.specs.Totals.{IsTruth, IsWhole};
ghost use Rattle.mz_partial.specs.Nodes.{three, compares, AreAlike, MayRemake, Placed, Remade};
ghost use Rattle.mz_partial.specs.Calls.{IsNumber, IsConstant};

use mz_arena::{Arena, Id, Node, NodeKind};
use mz_base::Memory;

/// A node that is no variable and no choice.
pub(crate) fn make(arena: &mut Arena, n: Node) -> Result<Id, Memory>
    requires asked { IsAsked arena.old n }
    requires bound { is_free n.kind ≡ false }
    ensures placed { IfOk result (Placed arena.old arena.new n.kind (children n)) }
    ensures stands { IfOk result (λ id. slice_get arena.new id ≡ Some (entry n)) }
{
    let id = arena.intern(n)?;
    let _count = arena.len();
    Ok(id)
}

/// Whether a node has these children.
fn is_own(n: Node, a: Id, b: Id, c: Id) -> bool
    ensures own { result ≡ true → three a b c ≡ three n.a n.b n.c }
    ensures other { result ≡ false → three a b c ≢ three n.a n.b n.c }
{
    a == n.a && (b == n.b && c == n.c)
}

/// A node over other children of the same bounds: itself, where they are its own.
pub(crate) fn remake(arena: &mut Arena, id: Id, n: Node, a: Id, b: Id, c: Id) -> Result<Id, Memory>
    requires { MayRemake arena.old id n (take (arity n.kind) (three a b c)) }
    ensures { IfOk result (Remade arena.old arena.new id n (three a b c)) }
{
    if is_own(n, a, b, c) {
        return Ok(id);
    }
    let made = Node {
        kind: n.kind,
        a,
        b,
        c,
        number: n.number,
    };
    let t = make(arena, made)?;
    Ok(t)
}

/// The integer that is a number.
pub(crate) fn integer(arena: &mut Arena, number: i64) -> Result<Id, Memory>
    requires { is_number number ≡ true }
    ensures { IfOk result (IsNumber arena.old arena.new number) }
{
    let made = Node {
        kind: NodeKind::Int,
        a: 0,
        b: 0,
        c: 0,
        number,
    };
    let t = make(arena, made)?;
    Ok(t)
}

/// The Boolean that is always true.
pub(crate) fn always(arena: &mut Arena) -> Result<Id, Memory>
    ensures { IfOk result (IsConstant arena.old arena.new true) }
{
    let made = Node {
        kind: NodeKind::Bool,
        a: 0,
        b: 0,
        c: 0,
        number: 1,
    };
    let t = make(arena, made)?;
    Ok(t)
}

/// The Boolean that is never true.
pub(crate) fn nowhere(arena: &mut Arena) -> Result<Id, Memory>
    ensures { IfOk result (IsConstant arena.old arena.new false) }
{
    let made = Node {
        kind: NodeKind::Bool,
        a: 0,
        b: 0,
        c: 0,
        number: 0,
    };
    let t = make(arena, made)?;
    Ok(t)
}

/// Whether two Booleans are both true, or one of them.
pub(crate) fn connective(arena: &mut Arena, kind: NodeKind, a: Id, b: Id) -> Result<Id, Memory>
    requires arena { IsArena arena.old }
    requires kind { group_of kind ≡ Connective }
    requires a { IsTruth arena.old a }
    requires b { IsTruth arena.old b }
    ensures { IfOk result (Placed arena.old arena.new kind (a ∷ b ∷ [])) }
{
    let made = Node {
        kind,
        a,
        b,
        c: 0,
        number: 0,
    };
    let t = make(arena, made)?;
    Ok(t)
}

/// Whether a Boolean isn't true.
pub(crate) fn negation(arena: &mut Arena, a: Id) -> Result<Id, Memory>
    requires arena { IsArena arena.old }
    requires a { IsTruth arena.old a }
    ensures { IfOk result (Placed arena.old arena.new Not (a ∷ [])) }
{
    let made = Node {
        kind: NodeKind::Not,
        a,
        b: 0,
        c: 0,
        number: 0,
    };
    let t = make(arena, made)?;
    Ok(t)
}

/// A comparison of two integers.
pub(crate) fn comparison(arena: &mut Arena, kind: NodeKind, a: Id, b: Id) -> Result<Id, Memory>
    requires arena { IsArena arena.old }
    requires kind { compares kind ≡ true }
    requires a { IsWhole arena.old a }
    requires b { IsWhole arena.old b }
    ensures { IfOk result (Placed arena.old arena.new kind (a ∷ b ∷ [])) }
{
    let made = Node {
        kind,
        a,
        b,
        c: 0,
        number: 0,
    };
    let t = make(arena, made)?;
    Ok(t)
}

/// The first or the second of two integers, or of two Booleans.
pub(crate) fn choice(arena: &mut Arena, c: Id, a: Id, b: Id) -> Result<Id, Memory>
    requires arena { IsArena arena.old }
    requires c { IsTruth arena.old c }
    requires alike { AreAlike arena.old a b }
    ensures { IfOk result (Placed arena.old arena.new If (three c a b)) }
{
    let made = Node {
        kind: NodeKind::If,
        a: c,
        b: a,
        c: b,
        number: 0,
    };
    let t = make(arena, made)?;
    Ok(t)
}
