// A node of an arena, and what a node of each kind may cost.

ghost use Rattle.std.specs.Prelude.{◌≡◌, ◌≤◌};
ghost use Rattle.mz_arena.specs.Charges.{charge_of};

/// A node of an arena by its place there, from 0. The ids of its children are smaller.
pub type Id = u64;

/// What a node is. The comment says which of the fields `a`, `b`, `c` are its children, and of
/// what sort: an integer, a Boolean (0 or 1), a set, or a list.
#[derive(Clone, Copy, PartialEq, Eq)]
pub enum NodeKind {
    /// The integer `number`.
    Int,
    /// The Boolean `number`, 0 or 1.
    Bool,
    /// A decision variable. `a` is the SetConst of its domain, `b` the number of its part in the
    /// model, of which an optional cell has two and any other one, `c` is 1 where it is Boolean, else
    /// 0, and `number` is the node's own id.
    Var,
    /// A choice. `a`, `c` and `number` as in a Var; `b` is the number of its part, from 0 in the
    /// order of the choices, SetLocals among them.
    Local,
    /// The sum of the integers `a` and `b`.
    Add,
    /// The product of the integers `a` and `b`.
    Mul,
    /// The quotient of the integers `a` and `b`, rounded toward zero; undefined where `b` is 0.
    Div,
    /// The remainder of the integers `a` and `b`; undefined where `b` is 0.
    Mod,
    /// The least of the list `a` of integers; undefined of none.
    Min,
    /// The greatest of the list `a` of integers; undefined of none.
    Max,
    /// The magnitude of the integer `a`.
    Abs,
    /// 1 where the Boolean `a` is true, else 0.
    ToInt,
    /// Whether the integers `a` and `b` are equal.
    Eq,
    /// Whether the integers `a` and `b` differ.
    Ne,
    /// Whether the integer `a` is at most `b`.
    Le,
    /// Whether the integer `a` is less than `b`.
    Lt,
    /// Whether the Booleans `a` and `b` are both true.
    And,
    /// Whether one of the Booleans `a` and `b` is true.
    Or,
    /// Whether the Boolean `a` isn't true.
    Not,
    /// Whether the Booleans `a` and `b` are both true or both not.
    Iff,
    /// `b` where the Boolean `a` is true, else `c`: two integers, two Booleans or two sets.
    If,
    /// The element of the list `b` at the place `a`, an integer, from 1; undefined outside.
    Access,
    /// `b`, an integer, a Boolean or a set; undefined where the Boolean `a` isn't true.
    Guard,
    /// The empty list.
    Nil,
    /// The list with `a`, an integer, a Boolean or a set, before the list `b` of such.
    Cons,
    /// A set, which only `set_const` makes. `number` is its place among the arena's sets.
    SetConst,
    /// A set variable. `a` is the SetConst of which it is a subset; `b` and `number` as in a Var.
    SetVar,
    /// A choice of a set. `a` and `number` as in a SetVar, `b` as in a Local.
    SetLocal,
    /// Whether the integer `a` is an element of the set `b`.
    Member,
    /// What the set `a` or the set `b` has.
    Union,
    /// What both the set `a` and the set `b` have.
    Intersect,
    /// What the set `a` has and the set `b` hasn't.
    Diff,
    /// What one alone of the sets `a` and `b` has.
    Symdiff,
    /// How many elements the set `a` has.
    Card,
    /// Whether the sets `a` and `b` are equal.
    SetEq,
    /// Whether the set `b` has what the set `a` has.
    Subset,
}

/// What a node stands for.
#[derive(Clone, Copy)]
pub enum Sort {
    Integer,
    Boolean,
    Set,
    List,
}

/// A node. A field that its kind doesn't speak of means nothing, and is 0 by custom.
#[derive(Clone, Copy, PartialEq, Eq)]
pub struct Node {
    pub kind: NodeKind,
    pub a: Id,
    pub b: Id,
    pub c: Id,
    pub number: i64,
}

/// The greatest number of variables and constraints that a node of this kind may cost in a flat
/// program, with what makes it total.
pub fn charge(kind: NodeKind) -> u64
    ensures charge { result ≡ charge_of kind }
    ensures limit { result ≤ 32 }
{
    match kind {
        NodeKind::Int | NodeKind::Bool | NodeKind::Nil | NodeKind::SetConst => 0,
        NodeKind::Var | NodeKind::Local | NodeKind::SetVar | NodeKind::SetLocal => 4,
        NodeKind::Add | NodeKind::Mul | NodeKind::Abs | NodeKind::ToInt => 4,
        NodeKind::Eq | NodeKind::Ne | NodeKind::Le | NodeKind::Lt => 6,
        NodeKind::And | NodeKind::Or | NodeKind::Not | NodeKind::Iff => 6,
        NodeKind::Member | NodeKind::SetEq | NodeKind::Subset => 6,
        NodeKind::Union | NodeKind::Intersect | NodeKind::Diff | NodeKind::Symdiff => 4,
        NodeKind::Card => 4,
        NodeKind::Cons | NodeKind::Min | NodeKind::Max | NodeKind::Guard => 8,
        NodeKind::If => 16,
        NodeKind::Div | NodeKind::Mod | NodeKind::Access => 24,
    }
}
