// The levels of operators, and whether an operand is a chain of a level.

ghost use Rattle.std.specs.Prelude.{◌≡◌, is_some, map};
ghost use Rattle.mz_core.specs.TreeViews.{tree, step};
ghost use Rattle.mz_meaning.specs.Chains as chains;
ghost use Rattle.mz_meaning.specs.Chains.{chain_level, same_level};

use mz_core::{Core, CoreForm, CoreStep};
use mz_operations::level_of;

/// The level of `++`.
const APPEND: u64 = 12;

#[tactic(auto, using(crate::proofs::Heads::no_level, crate::proofs::Heads::first_level))]
pub(crate) fn same_level(l: u64, all: &[CoreStep]) -> bool
    ensures { result ≡ same_level l (map step all.now) }
{
    match all {
        [] => false,
        [s, ..] => l == level_of(s.row),
    }
}

#[tactic(auto, using(crate::proofs::Heads::no_chain, crate::proofs::Heads::first_chain))]
pub(crate) fn chain_level(all: &[CoreStep]) -> u64
    ensures { result ≡ chain_level (map step all.now) }
{
    match all {
        [] => 0,
        [s, ..] => level_of(s.row),
    }
}

/// Whether these operators are `++`.
pub fn is_appended(all: &[CoreStep]) -> bool
    ensures { result ≡ same_level 12 (map step all.now) }
{
    same_level(APPEND, all)
}

// whether an operand is a chain of the level of these operators
#[tactic(auto, using(crate::proofs::Innermosts::innermost_of_tree))]
fn is_chain_of_level(e: &Core, all: &[CoreStep]) -> bool
    ensures { result ≡ is_some (chains.innermost_of (chain_level (map step all.now)) (tree e.now)) }
{
    match &e.form {
        CoreForm::Chain(_, inner) => same_level(chain_level(all), inner.as_slice()),
        CoreForm::Coerce(_, part) => is_chain_of_level(part, all),
        _ => false,
    }
}

/// Whether the first operand of a chain with these operators is a chain of their level.
pub fn has_innermost(first: &Core, all: &[CoreStep]) -> bool
    ensures { result ≡ is_some (chains.innermost_of (chain_level (map step all.now)) (tree first.now)) }
{
    is_chain_of_level(first, all)
}
