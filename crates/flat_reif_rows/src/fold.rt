// What a node is without a row.

ghost use Rattle.std.specs.Prelude.{◌≡◌, ◌∷◌, [], IfSome};
ghost use Rattle.mz_arena.specs.declared.node.NodeKind.TheVariants.{And, Iff, Or};
ghost use Rattle.fz_program.specs.Arguments.{plain};
ghost use Rattle.fz_build.specs.Bounds.{ends_of};
ghost use Rattle.fz_build.specs.Growth.{EndsEnclose};
ghost use Rattle.flat_reif_rows.specs.Making.{AreOperands};
ghost use Rattle.flat_reif_rows.specs.Folds.{IsCompared, IsFold, IsFoldOfOne, IsCounted, IsNegated, fold_of_answer};

use crate::connective::{conjoined, disjoined, equated, truth_in};
use crate::ends::compared;
use fz_build::Build;
use fz_program::Arg;
use mz_arena::NodeKind;

/// What a node with two children is by their arguments.
#[derive(Clone, Copy)]
pub enum Fold {
    /// This truth value.
    Truth(bool),
    /// What the first child is.
    First,
    /// What the second child is.
    Second,
    /// It isn't told without a row.
    Row,
}

fn fold_of_answer(b: Option<bool>) -> Fold
    ensures { result ≡ fold_of_answer b }
{
    match b {
        Some(c) => Fold::Truth(c),
        None => Fold::Row,
    }
}

// What a comparison is, by the ends of its operands' ranges.
fn comparison(build: &Build, kind: NodeKind, a: &Arg, b: &Arg) -> Fold
    requires { AreOperands build.now.vars kind (plain a.now ∷ plain b.now ∷ []) }
    ensures { IsFold build.now.vars kind (plain a.now) (plain b.now) result }
{
    fold_of_answer(compared(kind, build.ends(a), build.ends(b)))
}

/// What a node of this kind is, where its two children's arguments tell it without a row: a comparison
/// whose operands' ranges decide it, and a connective of which a part is a constant.
pub fn fold_of_two(build: &Build, kind: NodeKind, a: &Arg, b: &Arg) -> Fold
    requires { AreOperands build.now.vars kind (plain a.now ∷ plain b.now ∷ []) }
    ensures { IsFold build.now.vars kind (plain a.now) (plain b.now) result }
{
    match kind {
        NodeKind::And => conjoined(truth_in(a), truth_in(b)),
        NodeKind::Or => disjoined(truth_in(a), truth_in(b)),
        NodeKind::Iff => equated(truth_in(a), truth_in(b)),
        kind => comparison(build, kind, a, b),
    }
}

// The other truth value.
fn negated(b: Option<bool>) -> Option<Arg>
    ensures { IfSome result (λ out. IsNegated b (plain out)) }
{
    match b {
        Some(c) => Some(Arg::Bool(!c)),
        None => None,
    }
}

// 1 for what is true, and 0 for what is false.
fn counted(b: Option<bool>) -> Option<Arg>
    ensures { IfSome result (λ out. IsCounted b (plain out)) }
{
    match b {
        Some(true) => Some(Arg::Int(1)),
        Some(false) => Some(Arg::Int(0)),
        None => None,
    }
}

/// The argument for a negation of a constant, and for a constant truth value as an integer.
pub fn fold_of_one(kind: NodeKind, a: &Arg) -> Option<Arg>
    ensures { IfSome result (λ out. IsFoldOfOne kind (plain a.now) (plain out)) }
{
    match kind {
        NodeKind::Not => negated(truth_in(a)),
        NodeKind::ToInt => counted(truth_in(a)),
        _ => None,
    }
}
