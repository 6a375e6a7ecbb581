// Copies of arguments, with memory of their own, and lists of them with one more.

ghost use Rattle.std.specs.Prelude.{◌≡◌, ◌∷◌, ◌++◌, [], IfOk, map};
ghost use Rattle.fz_program.specs.Arguments.{argument, array, one, plain, plains, var};
ghost use Rattle.fz_build.specs.Inputs.{argument_at};

use fz_program::Arg;
use mz_base::Memory;
use std::alloc::Global;

// An argument that is no array, or an element of one. No row takes an array in an array: in the
// place of such an element stands an empty one.
fn copied_element(alloc: Global, a: &Arg) -> Result<Arg, Memory>
    ensures { IfOk result (λ b. plain b ≡ plain a.now) }
{
    match a {
        Arg::Bool(b) => Ok(Arg::Bool(*b)),
        Arg::Int(n) => Ok(Arg::Int(*n)),
        Arg::Set(s) => Ok(Arg::Set(s.copy(alloc)?)),
        Arg::Var(k) => Ok(Arg::Var(*k)),
        Arg::Array(_) => Ok(Arg::Array(Vec::new(alloc))),
    }
}

// The elements of an array.
fn copied_elements(alloc: Global, items: &[Arg]) -> Result<Vec<Arg>, Memory>
    ensures { IfOk result (λ all. map plain all.items ≡ map plain items.now) }
{
    let mut all = Vec::new(alloc);
    for a in items {
        all.push(given!(copied_element(alloc, a)))?;
    }
    Ok(all)
}

// An argument.
fn copied(alloc: Global, a: &Arg) -> Result<Arg, Memory>
    ensures { IfOk result (λ b. argument b ≡ argument a.now) }
{
    match a {
        Arg::Bool(b) => Ok(Arg::Bool(*b)),
        Arg::Int(n) => Ok(Arg::Int(*n)),
        Arg::Set(s) => Ok(Arg::Set(s.copy(alloc)?)),
        Arg::Var(k) => Ok(Arg::Var(*k)),
        Arg::Array(items) => Ok(Arg::Array(copied_elements(alloc, items)?)),
    }
}

/// Copies of all arguments.
pub fn copied_all(alloc: Global, args: &[Arg]) -> Result<Vec<Arg>, Memory>
    ensures { IfOk result (λ all. map argument all.items ≡ map argument args.now) }
{
    let mut all = Vec::new(alloc);
    for a in args {
        all.push(given!(copied(alloc, a)))?;
    }
    Ok(all)
}

/// The elements, copied, and one more.
pub fn with_element(alloc: Global, items: &[Arg], last: Arg) -> Result<Arg, Memory>
    ensures { IfOk result (λ a. argument a ≡ array (plains items.now ++ plain last ∷ [])) }
{
    let mut all = copied_elements(alloc, items)?;
    all.push(last)?;
    Ok(Arg::Array(all))
}

/// The arguments, copied, and the variable last.
pub fn with_last(alloc: Global, inputs: &[Arg], k: u64) -> Result<Vec<Arg>, Memory>
    ensures { IfOk result (λ all. map argument all.items ≡ map argument inputs.now ++ one (var k) ∷ []) }
{
    let mut all = given!(copied_all(alloc, inputs));
    all.push(Arg::Var(k))?;
    Ok(all)
}

fn empty_array(alloc: Global) -> Arg
    ensures { argument result ≡ array [] }
{
    Arg::Array(Vec::new(alloc))
}

/// A copy of the input at a place, from 0, or an empty array where there is none.
pub fn copied_at(alloc: Global, inputs: &[Arg], k: usize) -> Result<Arg, Memory>
    ensures { IfOk result (λ a. argument a ≡ argument_at (map argument inputs.now) k) }
{
    match inputs.get(k) {
        Some(a) => copied(alloc, a),
        None => Ok(empty_array(alloc)),
    }
}
