// The table of rows by kinds of nodes.

ghost use Rattle.std.specs.Prelude.{◌≡◌};
ghost use Rattle.flat_reif_rows.specs.NodeRows.{is_joined, row_of_one, row_of_two};
ghost use Rattle.flat_reif_rows.specs.RootRows.{is_clause_kind, test_of};

use fz_program::RowName;
use mz_arena::NodeKind;

/// The row that gives a node of this kind from its one child; `None` where there is no such row here.
pub fn row_of_one(kind: NodeKind) -> Option<RowName>
    ensures { result ≡ row_of_one kind }
{
    match kind {
        NodeKind::Not => Some(RowName::BoolNot),
        NodeKind::ToInt => Some(RowName::BoolToInt),
        NodeKind::Abs => Some(RowName::IntAbs),
        NodeKind::Card => Some(RowName::SetCard),
        _ => None,
    }
}

/// The row that gives a node of this kind from its two children; `None` where there is no such row here.
pub fn row_of_two(kind: NodeKind) -> Option<RowName>
    ensures { result ≡ row_of_two kind }
{
    match kind {
        NodeKind::Eq => Some(RowName::IntEqReif),
        NodeKind::Ne => Some(RowName::IntNeReif),
        NodeKind::Le => Some(RowName::IntLeReif),
        NodeKind::Lt => Some(RowName::IntLtReif),
        NodeKind::And => Some(RowName::ArrayBoolAnd),
        NodeKind::Or => Some(RowName::ArrayBoolOr),
        NodeKind::Iff => Some(RowName::BoolEqReif),
        NodeKind::Member => Some(RowName::SetInReif),
        NodeKind::Mul => Some(RowName::IntTimes),
        NodeKind::Div => Some(RowName::IntDiv),
        NodeKind::Mod => Some(RowName::IntMod),
        NodeKind::Union => Some(RowName::SetUnion),
        NodeKind::Intersect => Some(RowName::SetIntersect),
        NodeKind::Diff => Some(RowName::SetDiff),
        NodeKind::Symdiff => Some(RowName::SetSymdiff),
        NodeKind::SetEq => Some(RowName::SetEqReif),
        NodeKind::Subset => Some(RowName::SetSubsetReif),
        _ => None,
    }
}

// Whether the row takes both children in one array.
pub(crate) fn is_joined(kind: NodeKind) -> bool
    ensures { result ≡ is_joined kind }
{
    matches!(kind, NodeKind::And | NodeKind::Or)
}

/// The row that holds where a node of this kind is true, over its two children; `None` where there is no
/// such row here.
pub fn test_of(kind: NodeKind) -> Option<RowName>
    ensures { result ≡ test_of kind }
{
    match kind {
        NodeKind::Eq => Some(RowName::IntEq),
        NodeKind::Ne => Some(RowName::IntNe),
        NodeKind::Le => Some(RowName::IntLe),
        NodeKind::Lt => Some(RowName::IntLt),
        NodeKind::Or => Some(RowName::BoolClause),
        NodeKind::Iff => Some(RowName::BoolEq),
        NodeKind::Member => Some(RowName::SetIn),
        NodeKind::SetEq => Some(RowName::SetEq),
        NodeKind::Subset => Some(RowName::SetSubset),
        _ => None,
    }
}

// Whether the row takes both children in one array, and an empty one.
pub(crate) fn is_clause_kind(kind: NodeKind) -> bool
    ensures { result ≡ is_clause_kind kind }
{
    matches!(kind, NodeKind::Or)
}
