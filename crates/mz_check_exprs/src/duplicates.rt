// Functions with parameters of one name and the same types of parameters, of the model or of the library.

ghost use Rattle.std.specs.Prelude.{◌≡◌, ◌<◌, [], length, map, IfOk};
ghost use Rattle.std.specs.List.{flat_map, list_any};
ghost use Rattle.mz_base.specs.Names.{text_of};
ghost use Rattle.mz_core.specs.Types.{plain_type};
ghost use Rattle.mz_core.specs.TreeViews.{decl};
ghost use Rattle.mz_builtin.specs.Views.{plain_numbered};
ghost use Rattle.mz_scope_order.specs.Scoped.{scoped_tree};
ghost use Rattle.mz_check_meaning.specs.Models.{entry_of, signature_of};
ghost use Rattle.mz_check_meaning.specs.Duplicates.{has_params, duplicate_after};
ghost use Rattle.mz_check_meaning.specs.Checks.{numbered, with_parameters, signed};
ghost use Rattle.mz_check_context.specs.Headings.{heading as seen_heading};
ghost use Rattle.mz_check_context.specs.Known.{known};
ghost use Rattle.mz_check_exprs.specs.NamedModels.{AreNamed};
ghost use Rattle.mz_check_exprs.specs.StepsDuplicates.{has_types, is_row_with, is_taken_before, is_taken_with, taken_at};

use crate::places::function_place;
use crate::same::{same_params, same_types};
use mz_base::{Fault, Kind, Memory, Name, Span, Stop};
use mz_check_calls::rows_for;
use mz_check_context::{Context, Groups, Heading, signature_of};
use mz_core::{CoreDecl, Signature, TypeInst};
use mz_scope_order::Scoped;
use std::alloc::Global;

/// Whether a row has parameters of these types.
#[tactic(auto, unfolding(mz_core::specs::Types::plain_signature))]
fn row_has(row: &(u32, Signature), params: &[TypeInst]) -> bool
    ensures { result ≡ has_params (map plain_type params.now) (plain_numbered row.now) }
{
    same_types(row.1.params.as_slice(), params)
}

/// Whether one of these rows has parameters of these types.
fn any_row(rows: &[(u32, Signature)], params: &[TypeInst]) -> bool
    ensures { result ≡ list_any (has_params (map plain_type params.now)) (map plain_numbered rows.now) }
{
    for row in rows {
        if row_has(row, params) {
            return true;
        }
    }
    false
}

/// Whether a row of the library that no function hides has this name and parameters of these types.
fn is_row_with(alloc: Global, name: &str, params: &[TypeInst]) -> Result<bool, Memory>
    ensures { IfOk result (λ b. b ≡ is_row_with name.now (map plain_type params.now)) }
{
    let rows = rows_for(alloc, true, name, params)?;
    let found = any_row(rows.as_slice(), params);
    Ok(found)
}

/// Whether a function has parameters of these types. One whose types are refused hasn't.
fn has_types(context: &Context<'_>, function: u64, params: &[CoreDecl]) -> Result<bool, Memory>
    ensures { IfOk result (λ b. b ≡ has_types (map (λ d. d.ty.ty) (map decl params.now)) (entry_of function (known context.now).headings)) }
{
    match context.heading_of(Span::start(0), function) {
        Ok(h) => Ok(same_params(params, h.params.as_slice())),
        Err(Stop::Refused(_)) => Ok(false),
        Err(Stop::Memory) => Err(Memory),
    }
}

/// Whether one of these functions has parameters of these types.
fn is_taken_before(
    context: &Context<'_>,
    numbers: &[u64],
    params: &[CoreDecl],
) -> Result<bool, Memory>
    ensures { IfOk result (λ b. b ≡ is_taken_before (known context.now) numbers.now (map (λ d. d.ty.ty) (map decl params.now))) }
{
    for k in numbers {
        let same = has_types(context, *k, params)?;
        if same {
            return Ok(true);
        }
    }
    Ok(false)
}

/// Whether a row of the library has the name and the types of parameters of a function.
fn is_row_taken(
    alloc: Global,
    context: &Context<'_>,
    name: Name,
    h: &Heading,
) -> Result<bool, Memory>
    requires { name < length (known context.now).texts }
    ensures { IfOk result (λ b. b ≡ is_row_with (text_of (known context.now).texts name) (signature_of (seen_heading h.now)).params) }
{
    let signature = signature_of(alloc, h)?;
    let row = is_row_with(alloc, context.text(name), signature.params.as_slice())?;
    Ok(row)
}

/// Whether a function is declared twice: it has the name and the types of parameters of one of these, which come before it, or of a
/// row of the library.
fn is_taken(
    alloc: Global,
    context: &Context<'_>,
    before: &[u64],
    name: Name,
    h: &Heading,
) -> Result<bool, Memory>
    requires { name < length (known context.now).texts }
    ensures { IfOk result (λ b. b ≡ is_taken_with (known context.now) before.now name (signature_of (seen_heading h.now)).params) }
{
    let taken = is_taken_before(context, before, h.params.as_slice())?;
    if taken {
        return Ok(true);
    }
    let row = is_row_taken(alloc, context, name, h)?;
    Ok(row)
}

/// The same for a function by its number; one whose types are refused isn't.
fn taken_at(
    alloc: Global,
    context: &Context<'_>,
    before: &[u64],
    name: Name,
    function: u64,
) -> Result<bool, Memory>
    requires { name < length (known context.now).texts }
    ensures { IfOk result (λ b. b ≡ taken_at (known context.now) before.now name function) }
{
    match context.heading_of(Span::start(0), function) {
        Ok(h) => is_taken(alloc, context, before, name, h),
        Err(Stop::Refused(_)) => Ok(false),
        Err(Stop::Memory) => Err(Memory),
    }
}

/// The first function with parameters that is declared twice: DuplicateName at its name.
pub fn duplicate(
    alloc: Global,
    scoped: &Scoped<'_>,
    context: &Context<'_>,
) -> Result<Option<Fault>, Memory>
    requires named { AreNamed (length (known context.now).texts) (scoped_tree scoped.now) }
    requires functions { (known context.now).functions ≡ flat_map with_parameters (numbered (scoped_tree scoped.now).functions) }
    ensures { IfOk result (λ found. found ≡ duplicate_after (known context.now).texts [] (signed (scoped_tree scoped.now) (known context.now))) }
{
    let functions = context.functions();
    let mut before = Groups::new(alloc);
    for f in functions {
        let taken = taken_at(alloc, context, before.numbers(f.0), f.0, f.1)?;
        if taken {
            return Ok(Some(Fault::at(Kind::DuplicateName, function_place(scoped, f.1))));
        }
        before.add(f.0, f.1)?;
    }
    Ok(None)
}
