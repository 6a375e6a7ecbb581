// The groups of kinds.

ghost use Rattle.std.specs.Prelude.{◌≡◌};
ghost use Rattle.mz_partial.specs.Groups.{group_of};

use mz_arena::NodeKind;

/// What a node's value needs of its children's.
#[derive(Clone, Copy)]
pub(crate) enum Group {
    /// A constant, a variable, a choice or the empty list: nothing.
    Leaf,
    /// An operation on one child: its value.
    One,
    /// An operation on two children: both values.
    Two,
    /// An element before a list: both values.
    Cons,
    /// A comparison: nothing; it is false where a child has no value.
    Test,
    /// Of two Booleans: nothing; a Boolean without a value counts as false.
    Connective,
    /// Of one Boolean: nothing.
    Reading,
    /// Two branches: the value of the one that is taken.
    Choice,
    /// A value under a condition: that it holds, and the value.
    Guard,
    /// A quotient or a remainder: both values, the second other than 0.
    Division,
    /// The least or the greatest of a list: its value, and an element.
    Extreme,
    /// An element of a list: both values, the first a place of the list.
    Access,
}

pub(crate) fn group_of(kind: NodeKind) -> Group
    ensures { result ≡ group_of kind }
{
    match kind {
        NodeKind::Int => Group::Leaf,
        NodeKind::Bool => Group::Leaf,
        NodeKind::Var => Group::Leaf,
        NodeKind::Local => Group::Leaf,
        NodeKind::Add => Group::Two,
        NodeKind::Mul => Group::Two,
        NodeKind::Div => Group::Division,
        NodeKind::Mod => Group::Division,
        NodeKind::Min => Group::Extreme,
        NodeKind::Max => Group::Extreme,
        NodeKind::Abs => Group::One,
        NodeKind::ToInt => Group::Reading,
        NodeKind::Eq => Group::Test,
        NodeKind::Ne => Group::Test,
        NodeKind::Le => Group::Test,
        NodeKind::Lt => Group::Test,
        NodeKind::And => Group::Connective,
        NodeKind::Or => Group::Connective,
        NodeKind::Not => Group::Reading,
        NodeKind::Iff => Group::Connective,
        NodeKind::If => Group::Choice,
        NodeKind::Access => Group::Access,
        NodeKind::Guard => Group::Guard,
        NodeKind::Nil => Group::Leaf,
        NodeKind::Cons => Group::Cons,
        NodeKind::SetConst => Group::Leaf,
        NodeKind::SetVar => Group::Leaf,
        NodeKind::SetLocal => Group::Leaf,
        NodeKind::Member => Group::Test,
        NodeKind::Union => Group::Two,
        NodeKind::Intersect => Group::Two,
        NodeKind::Diff => Group::Two,
        NodeKind::Symdiff => Group::Two,
        NodeKind::Card => Group::One,
        NodeKind::SetEq => Group::Test,
        NodeKind::Subset => Group::Test,
    }
}
