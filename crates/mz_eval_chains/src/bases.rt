// The base of an operator's right operand, under its coercions.

ghost use Rattle.std.specs.Prelude.{◌≡◌};
ghost use Rattle.mz_core.specs.Tree.{root_coercions, type_of};
ghost use Rattle.mz_core.specs.TreeViews.{tree};
ghost use Rattle.mz_meaning.specs.Coerced.{coerced_type};
ghost use Rattle.mz_meaning.specs.Chains.{operand_base};
ghost use Rattle.mz_eval_chains.specs.Links.{links_round};
ghost use Rattle.mz_eval_chains.specs.Innermosts.{operator_of};

use crate::types::Operator;
use mz_core::{Base, Core, CoreForm};

/// The base of an expression's type. Takes no memory.
#[tactic(auto, using(mz_core::proofs::TreeLaws::type_of_tree), unfolding(mz_core::specs::Types::plain_type))]
pub fn base_of(e: &Core) -> Base
    ensures { result ≡ (type_of (tree e.now)).base }
{
    e.ty.base
}

// the base of an operand under the coercions round an expression
#[tactic(auto, using(mz_core::proofs::TreeLaws::root_coercions_is))]
fn base_round(operand: &Core, e: &Core) -> Base
    ensures { result ≡ (coerced_type (type_of (tree operand.now)) (root_coercions (tree e.now))).base }
{
    match &e.form {
        CoreForm::Coerce(_, _) => e.ty.base,
        _ => base_of(operand),
    }
}

fn round_base(operand: &Core, round: Option<&Core>) -> Base
    ensures { result ≡ (coerced_type (type_of (tree operand.now)) (links_round round.entry)).base }
{
    match round {
        None => base_of(operand),
        Some(e) => base_round(operand, e),
    }
}

/// The base of an operator's right operand after its coercions. Takes no memory.
pub fn operand_base(o: &Operator) -> Base
    ensures { result ≡ operand_base (operator_of o.now).step }
{
    let links = o.step.right.as_slice();
    match links.last() {
        None => round_base(o.operand, o.after),
        Some(l) => l.1.base,
    }
}
