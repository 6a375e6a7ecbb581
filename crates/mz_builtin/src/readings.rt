// What an entry's letter and mark stand for.

ghost use Rattle.std.specs.Prelude.{◌≡◌, ◌++◌, IfOk};
ghost use Rattle.mz_builtin.specs.Readings.{cases, sets_of_cases, scalars, sets, meanings, readings_of, result_var};

use crate::entry::{Letter, Mark};
use mz_base::Memory;
use mz_core::Base;
use std::alloc::Global;

/// The mark `opt` and the base that a reading gives to the letter.
pub(crate) type Meaning = (bool, Base);

#[tactic(auto, unfolding(crate::specs::Readings::cases))]
fn add_cases(all: &mut Vec<Meaning>, opt: bool, enums: &[u64]) -> Result<(), Memory>
    ensures { IfOk result (λ _. all.new.items ≡ all.old.items ++ cases opt enums.now) }
{
    for e in enums {
        all.push((opt, Base::Enum(*e)))?;
    }
    Ok(())
}

#[tactic(auto, unfolding(crate::specs::Readings::scalars))]
fn add_scalars(all: &mut Vec<Meaning>, opt: bool, enums: &[u64]) -> Result<(), Memory>
    ensures { IfOk result (λ _. all.new.items ≡ all.old.items ++ scalars opt enums.now) }
{
    all.push((opt, Base::Bool))?;
    add_cases(all, opt, enums)?;
    all.push((opt, Base::Int))?;
    Ok(())
}

#[tactic(auto, unfolding(crate::specs::Readings::sets_of_cases))]
fn add_sets_of_cases(all: &mut Vec<Meaning>, enums: &[u64]) -> Result<(), Memory>
    ensures { IfOk result (λ _. all.new.items ≡ all.old.items ++ sets_of_cases enums.now) }
{
    for e in enums {
        all.push((false, Base::SetEnum(*e)))?;
    }
    Ok(())
}

#[tactic(auto, unfolding(crate::specs::Readings::sets))]
fn add_sets(all: &mut Vec<Meaning>, enums: &[u64]) -> Result<(), Memory>
    ensures { IfOk result (λ _. all.new.items ≡ all.old.items ++ sets enums.now) }
{
    add_sets_of_cases(all, enums)?;
    all.push((false, Base::SetInt))?;
    Ok(())
}

#[tactic(auto, unfolding(crate::specs::Readings::meanings))]
pub(crate) fn meanings(alloc: Global, enums: &[u64], letter: Letter) -> Result<Vec<Meaning>, Memory>
    ensures { IfOk result (λ v. v.items ≡ meanings enums.now letter) }
{
    let mut all = Vec::new(alloc);
    match letter {
        Letter::None => all.push((false, Base::Int))?,
        Letter::Case => add_cases(&mut all, false, enums)?,
        Letter::Number => {
            add_cases(&mut all, false, enums)?;
            all.push((false, Base::Int))?;
        }
        Letter::Scalar => add_scalars(&mut all, false, enums)?,
        Letter::Value => {
            add_scalars(&mut all, false, enums)?;
            add_sets(&mut all, enums)?;
        }
        Letter::Any => {
            add_scalars(&mut all, false, enums)?;
            add_sets(&mut all, enums)?;
            add_scalars(&mut all, true, enums)?;
        }
    }
    Ok(all)
}

/// Whether the arguments are var, in each reading.
#[tactic(auto, unfolding(crate::specs::Readings::readings_of))]
pub(crate) fn readings_of(mark: Mark) -> &'static [bool]
    ensures { result.now ≡ readings_of mark }
{
    match mark {
        Mark::Par => &[false],
        Mark::Var | Mark::ParResult => &[false, true],
    }
}

#[tactic(auto, unfolding(crate::specs::Readings::result_var))]
pub(crate) fn result_var(mark: Mark, var: bool) -> bool
    ensures { result ≡ result_var mark var }
{
    match mark {
        Mark::Var => var,
        Mark::Par | Mark::ParResult => false,
    }
}
