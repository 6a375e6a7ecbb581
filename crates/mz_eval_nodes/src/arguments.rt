// The arguments of rows: cells, with what the types of their nodes say.

ghost use Rattle.std.specs.Prelude.{◌≡◌, map};
ghost use Rattle.mz_core.specs.Types.{plain_type};
ghost use Rattle.mz_core.specs.TreeViews.{tree};
ghost use Rattle.mz_meaning.specs.Forms.{arguments_base};

use mz_core::{Base, Coercion, Core, TypeInst};
use mz_eval_cells::Known;
use mz_eval_chains::{Operator, base_of, operand_base};
use mz_eval_row_symbols::Argument;

/// The base of a row's arguments: the first one's, and without arguments the node's.
#[tactic(auto, unfolding(mz_core::specs::Types::plain_type))]
pub fn arguments_base(all: &[Core], t: &TypeInst) -> Base
    ensures { result ≡ arguments_base (map tree all.now) (plain_type t.now) }
{
    match all.first() {
        None => t.base,
        Some(e) => base_of(e),
    }
}

/// The cell of an expression as an argument.
pub fn argument_of(e: &Core, k: Known) -> Argument
    ensures { result.cell ≡ k }
{
    Argument {
        cell: k,
        base: e.ty.base,
        opt: e.ty.opt,
    }
}

/// What a type says of an argument: its base, and whether it is an option.
pub fn kind_of(t: &TypeInst) -> (Base, bool) {
    (t.base, t.opt)
}

// what the last of these coercions leads to, and those round an expression before them, if any is there
fn coerced_kind(
    round: Option<&Core>,
    links: &[(Coercion, TypeInst)],
    kind: (Base, bool),
) -> (Base, bool) {
    match links.last() {
        Some(l) => kind_of(&l.1),
        None => match round {
            Some(e) => kind_of(&e.ty),
            None => kind,
        },
    }
}

/// An operator's left operand under its coercions, as an argument; `kind` is what the type of the
/// node before says.
pub(crate) fn left_argument(o: &Operator, kind: (Base, bool), k: Known) -> Argument
    ensures { result.cell ≡ k }
{
    let (base, opt) = coerced_kind(o.before, &o.step.left, kind);
    Argument { cell: k, base, opt }
}

/// An operator's right operand under its coercions, as an argument.
pub(crate) fn right_argument(o: &Operator, k: Known) -> Argument
    ensures { result.cell ≡ k }
{
    let (_, opt) = coerced_kind(o.after, &o.step.right, kind_of(&o.operand.ty));
    Argument {
        cell: k,
        base: operand_base(o),
        opt,
    }
}

/// An operand of `++` as an argument: its elements are those of the node's type.
pub(crate) fn element_argument(o: &Operator, k: Known) -> Argument
    ensures { result.cell ≡ k }
{
    Argument {
        cell: k,
        base: o.step.ty.base,
        opt: o.step.ty.opt,
    }
}
