// The typed declarations and functions: their types are taken from the tables, and their values and bodies from the typed items.

ghost use Rattle.std.specs.Prelude.{◌≡◌, ℕ, ◌++◌, false, nat_eq, map, slice_get, IfOk, OnOk};
ghost use Rattle.std.specs.Option.{option_map};
ghost use Rattle.mz_core.specs.TreeViews.{tree, decl, declared_type};
ghost use Rattle.mz_core.specs.Program.{function};
ghost use Rattle.mz_tree.specs.Items.{function_of};
ghost use Rattle.mz_scope_order.specs.Scoped.{scoped_decl, lent_function, scoped_tree};
ghost use Rattle.mz_check_meaning.specs.Models.{entry_of};
ghost use Rattle.mz_check_meaning.specs.Checks.{sections};
ghost use Rattle.mz_check_context.specs.Headings.{heading, tested};
ghost use Rattle.mz_check_context.specs.Known.{answers, known};
ghost use Rattle.mz_check.specs.StepsParts.{AreParts, parts, sections_of};
ghost use Rattle.mz_check.specs.StepsTaking.{taken, decl_with, function_with, decl_by, function_by, at_number, from_number};

use crate::parts::{TypedItems, TypedSections};
use indexmap::IndexMap;
use mz_base::{Fault, Memory};
use mz_check_context::{Context, Heading, TypeTables};
use mz_check_forms::make_declaration;
use mz_core::{Core, CoreDecl, CoreFunction, CoreType};
use mz_scope_order::{Scoped, ScopedDecl};
use mz_tree::Function;
use std::alloc::Global;

/// A type, where there is one that isn't refused.
fn typed(t: Option<Result<CoreType, Fault>>) -> Option<CoreType>
    ensures { option_map declared_type result ≡ taken (option_map (tested declared_type) t) }
{
    match t {
        Some(Ok(t)) => Some(t),
        Some(Err(_)) => None,
        None => None,
    }
}

/// Takes out the type of a declaration. None, where it has none or is refused.
#[tactic(auto, using(mz_check_context::proofs::Answering::answer_found))]
fn take_type(types: &mut IndexMap<u64, Result<CoreType, Fault>>, d: u64) -> Option<CoreType>
    ensures taken { option_map declared_type result ≡ taken (entry_of d (answers declared_type types.old.entries)) }
    ensures others { (k : ℕ) → nat_eq d k ≡ false → entry_of k (answers declared_type types.new.entries) ≡ entry_of k (answers declared_type types.old.entries) }
{
    typed(types.swap_remove(&d))
}

/// A heading, where there is one that isn't refused.
fn typed_heading(h: Option<Result<Heading, Fault>>) -> Option<Heading>
    ensures { option_map heading result ≡ taken (option_map (tested heading) h) }
{
    match h {
        Some(Ok(h)) => Some(h),
        Some(Err(_)) => None,
        None => None,
    }
}

/// Takes out the types of a function. None, where it has none or they are refused.
#[tactic(auto, using(mz_check_context::proofs::Answering::answer_found))]
fn take_heading(headings: &mut IndexMap<u64, Result<Heading, Fault>>, f: u64) -> Option<Heading>
    ensures taken { option_map heading result ≡ taken (entry_of f (answers heading headings.old.entries)) }
    ensures others { (k : ℕ) → nat_eq f k ≡ false → entry_of k (answers heading headings.new.entries) ≡ entry_of k (answers heading headings.old.entries) }
{
    typed_heading(headings.swap_remove(&f))
}

/// A declaration with its type and its value.
fn made_decl(number: u64, d: &ScopedDecl<'_>, t: CoreType, value: Option<Core>) -> CoreDecl
    ensures { decl result ≡ decl_with number (scoped_decl d.now) (declared_type t) (option_map tree value) }
{
    make_declaration(number, d.decl.name, d.decl.span, t, value)
}

/// A function with its types and its body.
fn made_function(f: &Function, h: Heading, body: Core) -> CoreFunction
    ensures { function result ≡ function_with (function_of f.now) (heading h) (tree body) }
{
    CoreFunction {
        name: f.name,
        span: f.span,
        params: h.params,
        result: h.result,
        body,
    }
}

/// Adds a declaration, whose type is taken from the table; where there is none, nothing.
fn add_decl(
    all: &mut Vec<CoreDecl>,
    types: &mut IndexMap<u64, Result<CoreType, Fault>>,
    number: u64,
    d: &ScopedDecl<'_>,
    value: Option<Core>,
) -> Result<(), Memory>
    ensures made { OnOk result (map decl all.new.items ≡ map decl all.old.items ++ decl_by (entry_of number (answers declared_type types.old.entries)) number (scoped_decl d.now) (option_map tree value)) }
    ensures others { OnOk result ((k : ℕ) → nat_eq number k ≡ false → entry_of k (answers declared_type types.new.entries) ≡ entry_of k (answers declared_type types.old.entries)) }
{
    match take_type(types, number) {
        Some(t) => {
            all.push(made_decl(number, d, t, value))?;
            Ok(())
        }
        None => Ok(()),
    }
}

/// Adds a function, whose types are taken from the table; where there are none, nothing.
fn add_function(
    all: &mut Vec<CoreFunction>,
    headings: &mut IndexMap<u64, Result<Heading, Fault>>,
    number: u64,
    f: &Function,
    body: Core,
) -> Result<(), Memory>
    ensures made { OnOk result (map function all.new.items ≡ map function all.old.items ++ function_by (entry_of number (answers heading headings.old.entries)) number (function_of f.now) (tree body)) }
    ensures others { OnOk result ((k : ℕ) → nat_eq number k ≡ false → entry_of k (answers heading headings.new.entries) ≡ entry_of k (answers heading headings.old.entries)) }
{
    match take_heading(headings, number) {
        Some(h) => {
            all.push(made_function(f, h, body))?;
            Ok(())
        }
        None => Ok(()),
    }
}

/// Adds the declaration of this number.
fn add_decl_at(
    all: &mut Vec<CoreDecl>,
    types: &mut IndexMap<u64, Result<CoreType, Fault>>,
    decls: &[ScopedDecl<'_>],
    number: usize,
    value: Option<Core>,
) -> Result<(), Memory>
    ensures made { OnOk result (map decl all.new.items ≡ map decl all.old.items ++ at_number decl_by (answers declared_type types.old.entries) number (slice_get (map scoped_decl decls.now) number) (option_map tree value)) }
    ensures others { OnOk result ((k : ℕ) → nat_eq number k ≡ false → entry_of k (answers declared_type types.new.entries) ≡ entry_of k (answers declared_type types.old.entries)) }
{
    match decls.get(number) {
        Some(d) => add_decl(all, types, number as u64, d, value),
        None => Ok(()),
    }
}

/// Adds the function of this number.
fn add_function_at(
    all: &mut Vec<CoreFunction>,
    headings: &mut IndexMap<u64, Result<Heading, Fault>>,
    functions: &[&Function],
    number: usize,
    body: Core,
) -> Result<(), Memory>
    ensures made { OnOk result (map function all.new.items ≡ map function all.old.items ++ at_number function_by (answers heading headings.old.entries) number (slice_get (map lent_function functions.now) number) (tree body)) }
    ensures others { OnOk result ((k : ℕ) → nat_eq number k ≡ false → entry_of k (answers heading headings.new.entries) ≡ entry_of k (answers heading headings.old.entries)) }
{
    match functions.get(number) {
        Some(f) => add_function(all, headings, number as u64, f, body),
        None => Ok(()),
    }
}

/// The declarations with their types and their values.
fn made_decls(
    alloc: Global,
    decls: &[ScopedDecl<'_>],
    mut types: IndexMap<u64, Result<CoreType, Fault>>,
    values: Vec<Option<Core>>,
) -> Result<Vec<CoreDecl>, Memory>
    ensures { IfOk result (λ v. map decl v.items ≡ from_number decl_by (answers declared_type types.entries) 0 (map scoped_decl decls.now) (map (option_map tree) values.items)) }
{
    let mut all = Vec::new(alloc);
    let mut number = 0;
    for value in values {
        add_decl_at(&mut all, &mut types, decls, number, value)?;
        number += 1;
    }
    Ok(all)
}

/// The functions with their types and their bodies.
fn made_functions(
    alloc: Global,
    functions: &[&Function],
    mut headings: IndexMap<u64, Result<Heading, Fault>>,
    bodies: Vec<Core>,
) -> Result<Vec<CoreFunction>, Memory>
    ensures { IfOk result (λ v. map function v.items ≡ from_number function_by (answers heading headings.entries) 0 (map lent_function functions.now) (map tree bodies.items)) }
{
    let mut all = Vec::new(alloc);
    let mut number = 0;
    for body in bodies {
        add_function_at(&mut all, &mut headings, functions, number, body)?;
        number += 1;
    }
    Ok(all)
}

/// The typed sections of a model, from its typed items and what is known of it.
pub(crate) fn assembled(
    alloc: Global,
    scoped: &Scoped<'_>,
    context: Context<'_>,
    items: TypedItems,
) -> Result<TypedSections, Memory>
    requires { AreParts (scoped_tree scoped.now) (known context) (parts items) }
    ensures { IfOk result (λ r. sections (scoped_tree scoped.now) (known context.entry) ≡ Ok (sections_of r)) }
{
    let TypedItems {
        values,
        bodies,
        constraints,
        goal,
        outputs,
    } = items;
    let TypeTables { types, headings } = context.into_tables();
    let decls = made_decls(alloc, scoped.decls.as_slice(), types, values)?;
    let functions = made_functions(alloc, scoped.functions.as_slice(), headings, bodies)?;
    Ok(TypedSections {
        decls,
        functions,
        constraints,
        goal,
        outputs,
    })
}
