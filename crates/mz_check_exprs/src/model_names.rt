// What the names of a scoped model stand for.

ghost use Rattle.std.specs.Prelude.{◌≡◌, ◌∷◌, [], ◌++◌, map, IfOk, OnOk};
ghost use Rattle.std.specs.List.{flat_map};
ghost use Rattle.mz_tree.specs.Items.{function_of};
ghost use Rattle.mz_scope_order.specs.Scoped.{scoped_decl, lent_function, scoped_tree, enum_tree, shared_names, AreDistinct};
ghost use Rattle.mz_check_meaning.specs.Checks.{numbered, case_meaning, enum_meanings, decl_meaning, bare_meaning, with_parameters, untyped};
ghost use Rattle.mz_check_context.specs.Known.{known};
ghost use Rattle.mz_check_exprs.specs.Meanings.{meanings_of};

use mz_base::{Memory, Name, Names, Span};
use mz_check_context::{Context, FunctionNames, Meanings, Overloads};
use mz_check_meaning::Meaning;
use mz_scope_order::{Scoped, ScopedDecl, ScopedEnum};
use mz_tree::Function;
use std::alloc::Global;

/// Adds the cases of an enum.
fn add_cases(all: &mut Vec<(Name, Meaning)>, of: u64, cases: &[(Name, Span)]) -> Result<(), Memory>
    ensures { OnOk result (all.new.items ≡ all.old.items ++ map (case_meaning of) (numbered cases.now)) }
{
    for (k, c) in cases.iter().enumerate() {
        all.push((c.0, Meaning::Case(of, k as i64 + 1)))?;
    }
    Ok(())
}

/// Adds an enum with its cases.
fn add_enum(all: &mut Vec<(Name, Meaning)>, number: u64, e: &ScopedEnum) -> Result<(), Memory>
    ensures { OnOk result (all.new.items ≡ all.old.items ++ enum_meanings (number, enum_tree e.now)) }
{
    all.push((e.name, Meaning::Enum(number)))?;
    add_cases(all, number, e.cases.as_slice())
}

/// Adds enums with their cases.
fn add_enums(all: &mut Vec<(Name, Meaning)>, enums: &[ScopedEnum]) -> Result<(), Memory>
    ensures { OnOk result (all.new.items ≡ all.old.items ++ flat_map enum_meanings (numbered (map enum_tree enums.now))) }
{
    for (k, e) in enums.iter().enumerate() {
        add_enum(all, k as u64, e)?;
    }
    Ok(())
}

/// Adds a declaration.
fn add_decl(all: &mut Vec<(Name, Meaning)>, number: u64, d: &ScopedDecl<'_>) -> Result<(), Memory>
    ensures { OnOk result (all.new.items ≡ all.old.items ++ decl_meaning (number, scoped_decl d.now) ∷ []) }
{
    all.push((d.decl.name, Meaning::Decl(number)))?;
    Ok(())
}

/// Adds declarations.
fn add_decls(all: &mut Vec<(Name, Meaning)>, decls: &[ScopedDecl<'_>]) -> Result<(), Memory>
    ensures { OnOk result (all.new.items ≡ all.old.items ++ map decl_meaning (numbered (map scoped_decl decls.now))) }
{
    for (k, d) in decls.iter().enumerate() {
        add_decl(all, k as u64, d)?;
    }
    Ok(())
}

/// Adds a function, where it has no parameters.
fn add_bare(all: &mut Vec<(Name, Meaning)>, number: u64, f: &Function) -> Result<(), Memory>
    ensures { OnOk result (all.new.items ≡ all.old.items ++ bare_meaning (number, function_of f.now)) }
{
    if f.params.is_empty() {
        all.push((f.name, Meaning::Function(number)))?;
    }
    Ok(())
}

/// Adds the functions without parameters.
fn add_all_bare(all: &mut Vec<(Name, Meaning)>, functions: &[&Function]) -> Result<(), Memory>
    ensures { OnOk result (all.new.items ≡ all.old.items ++ flat_map bare_meaning (numbered (map lent_function functions.now))) }
{
    for (k, f) in functions.iter().enumerate() {
        add_bare(all, k as u64, f)?;
    }
    Ok(())
}

/// Adds a function, where it has parameters.
fn add_overload(all: &mut Vec<(Name, u64)>, number: u64, f: &Function) -> Result<(), Memory>
    ensures { OnOk result (all.new.items ≡ all.old.items ++ with_parameters (number, function_of f.now)) }
{
    if !f.params.is_empty() {
        all.push((f.name, number))?;
    }
    Ok(())
}

/// The functions with parameters, each by its name and its number.
fn overloads(alloc: Global, functions: &[&Function]) -> Result<Vec<(Name, u64)>, Memory>
    ensures { IfOk result (λ v. v.items ≡ flat_map with_parameters (numbered (map lent_function functions.now))) }
{
    let mut all = Vec::new(alloc);
    for (k, f) in functions.iter().enumerate() {
        add_overload(&mut all, k as u64, f)?;
    }
    Ok(all)
}

/// The names of functions, one for each.
fn function_names(alloc: Global, functions: &[&Function]) -> Result<Vec<Name>, Memory>
    ensures { IfOk result (λ v. v.items ≡ map (λ f. f.name) (map lent_function functions.now)) }
{
    let mut all = Vec::new(alloc);
    for f in functions {
        all.push(f.name)?;
    }
    Ok(all)
}

/// What the names of the shared space stand for.
fn meanings(alloc: Global, scoped: &Scoped<'_>) -> Result<Meanings, Memory>
    requires { AreDistinct (shared_names (scoped_tree scoped.now)) }
    ensures { IfOk result (λ m. m ≡ meanings_of (scoped_tree scoped.now)) }
{
    let mut all = Vec::new(alloc);
    add_enums(&mut all, scoped.enums.as_slice())?;
    add_decls(&mut all, scoped.decls.as_slice())?;
    add_all_bare(&mut all, scoped.functions.as_slice())?;
    Meanings::of(alloc, all.as_slice())
}

/// What is known of a scoped model before any type is typed.
#[tactic(auto, unfolding(mz_check_meaning::specs::Checks::untyped))]
pub fn untyped<'a>(
    alloc: Global,
    scoped: &Scoped<'_>,
    names: &'a Names,
) -> Result<Context<'a>, Memory>
    requires { AreDistinct (shared_names (scoped_tree scoped.now)) }
    ensures { IfOk result (λ c. known c ≡ untyped names.now (scoped_tree scoped.now)) }
{
    let functions = scoped.functions.as_slice();
    let meanings = meanings(alloc, scoped)?;
    let overloads = Overloads::of(alloc, overloads(alloc, functions)?)?;
    let function_names = FunctionNames::of(alloc, function_names(alloc, functions)?)?;
    let count = scoped.decls.len() as u64;
    Ok(Context::new(alloc, names, meanings, overloads, function_names, count))
}
