// Operators between two integers, whose rows are known without a search among all rows.

ghost use Rattle.std.specs.Prelude.{◌≡◌, ◌||◌, IfOk, IsTrue};
ghost use Rattle.mz_core.specs.Types.{plain_type};
ghost use Rattle.mz_check_calls.specs.StepsIntegers.{scalar_of, integer, integer_base, integer_row, integer_candidate, IsRowOf};
ghost use Rattle.mz_check_calls.specs.Views.{candidate};

use crate::operators::operator_name;
use crate::pairs::Candidate;
use mz_base::Memory;
use mz_builtin::number_of;
use mz_check_meaning::Callee;
use mz_core::{Base, Signature, TypeInst};
use mz_tree::BinOp;
use std::alloc::Global;

/// Whether this is the type of an integer, par or var.
#[tactic(auto, unfolding(mz_core::specs::Types::plain_type))]
fn is_integer(t: &TypeInst) -> bool
    ensures { IsTrue result → plain_type t.now ≡ integer t.now.var }
{
    !t.opt && matches!(t.base, Base::Int) && t.dims.is_empty()
}

/// The base of what an operator between integers makes, of which one is var or none is.
#[tactic(auto, unfolding(crate::specs::StepsIntegers::integer_base))]
fn integer_base(var: bool, op: BinOp) -> Option<Base>
    ensures { result ≡ integer_base var op }
{
    match op {
        BinOp::Eq => Some(Base::Bool),
        BinOp::Ne => Some(Base::Bool),
        BinOp::Lt => Some(Base::Bool),
        BinOp::Le => Some(Base::Bool),
        BinOp::Gt => Some(Base::Bool),
        BinOp::Ge => Some(Base::Bool),
        BinOp::Range => { if var { None } else { Some(Base::SetInt) } }
        BinOp::Add => Some(Base::Int),
        BinOp::Sub => Some(Base::Int),
        BinOp::Mul => Some(Base::Int),
        BinOp::Div => Some(Base::Int),
        BinOp::Mod => Some(Base::Int),
        _ => None,
    }
}

/// The row of an operator between integers, and the base of what it makes.
fn integer_row(var: bool, op: BinOp) -> Option<(u32, Base)>
    ensures { result ≡ integer_row var op }
{
    let base = integer_base(var, op)?;
    let number = number_of(operator_name(op))?;
    Some((number, base))
}

/// Whether one of two types is var.
pub(crate) fn is_one_var(left: &TypeInst, right: &TypeInst) -> bool
    ensures { result ≡ (left.now.var || right.now.var) }
{
    left.var || right.var
}

fn row_of_integers(op: BinOp, left: &TypeInst, right: &TypeInst) -> Option<(u32, Base)>
    requires left { plain_type left.now ≡ integer left.now.var }
    requires right { plain_type right.now ≡ integer right.now.var }
    ensures { IsRowOf op (plain_type left.now) (plain_type right.now) (left.now.var || right.now.var) result }
{
    let var = is_one_var(left, right);
    integer_row(var, op)
}

/// The row of an operator between operands of these types, and the base of what it makes, where both are integers and it has such a row.
pub(crate) fn row_between(op: BinOp, left: &TypeInst, right: &TypeInst) -> Option<(u32, Base)>
    ensures { IsRowOf op (plain_type left.now) (plain_type right.now) (left.now.var || right.now.var) result }
{
    if is_integer(left) && is_integer(right) {
        row_of_integers(op, left, right)
    } else {
        None
    }
}

#[tactic(auto, unfolding(mz_core::specs::Types::plain_type))]
fn scalar_of(alloc: Global, var: bool, base: Base) -> TypeInst
    ensures { plain_type result ≡ scalar_of var base }
{
    TypeInst {
        var,
        opt: false,
        base,
        dims: Vec::new(alloc),
    }
}

/// An operator between integers, by its row and the base of what it makes.
#[tactic(auto, unfolding(mz_core::specs::Types::plain_signature))]
pub(crate) fn integer_candidate(
    alloc: Global,
    var: bool,
    row: (u32, Base),
) -> Result<Candidate, Memory>
    ensures { IfOk result (λ c. candidate c ≡ integer_candidate var row) }
{
    let params = vec![in alloc;
        scalar_of(alloc, var, Base::Int),
        scalar_of(alloc, var, Base::Int),
    ]?;
    let signature = Signature {
        params,
        result: scalar_of(alloc, var, row.1),
    };
    Ok(Candidate {
        callee: Callee::Row(row.0),
        signature,
    })
}
