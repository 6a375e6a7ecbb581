// The names of operators in the table of the library.

ghost use Rattle.std.specs.Prelude.{◌≡◌};
ghost use Rattle.mz_check_meaning.specs.Chains.{prefix_name, operator_name, groups_right};

use mz_tree::{BinOp, UnOp};

/// The name of a prefix operator.
#[tactic(auto, unfolding(mz_check_meaning::specs::Chains::prefix_name))]
pub fn prefix_name(op: UnOp) -> &'static str
    ensures { result.now ≡ prefix_name op }
{
    match op {
        UnOp::Not => "not",
        UnOp::Plus => "+",
        UnOp::Minus => "-",
    }
}

/// The name of a binary operator.
#[tactic(auto, unfolding(mz_check_meaning::specs::Chains::operator_name))]
pub(crate) fn operator_name(op: BinOp) -> &'static str
    ensures { result.now ≡ operator_name op }
{
    match op {
        BinOp::Iff => "<->",
        BinOp::Imp => "->",
        BinOp::Rimp => "<-",
        BinOp::Or => "\\/",
        BinOp::Xor => "xor",
        BinOp::And => "/\\",
        BinOp::Lt => "<",
        BinOp::Gt => ">",
        BinOp::Le => "<=",
        BinOp::Ge => ">=",
        BinOp::Eq => "=",
        BinOp::Ne => "!=",
        BinOp::Member => "in",
        BinOp::Subset => "subset",
        BinOp::Superset => "superset",
        BinOp::Union => "union",
        BinOp::Diff => "diff",
        BinOp::Symdiff => "symdiff",
        BinOp::Range => "..",
        BinOp::Add => "+",
        BinOp::Sub => "-",
        BinOp::Mul => "*",
        BinOp::Div => "div",
        BinOp::Mod => "mod",
        BinOp::Intersect => "intersect",
        BinOp::Pow => "^",
        BinOp::Concat => "++",
        BinOp::Default => "default",
    }
}

/// Whether the operators of a chain group to the right, as those of `++` do; all others group to the left.
pub fn groups_right(op: BinOp) -> bool
    ensures { result ≡ groups_right op }
{
    match op {
        BinOp::Concat => true,
        _ => false,
    }
}
