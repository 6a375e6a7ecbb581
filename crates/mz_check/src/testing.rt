// The tests of types, before values, bodies and items are typed.

ghost use Rattle.std.specs.Prelude.{◌≡◌, [], length, map, OnOk};
ghost use Rattle.std.specs.List.{flat_map};
ghost use Rattle.std.specs.Option.{option_map};
ghost use Rattle.mz_scope_order.specs.Scoped.{scoped_decl, lent_function, scoped_tree};
ghost use Rattle.mz_check_meaning.specs.Checks.{numbered, with_parameters, none_met, type_met, heading_met, types_met, no_fault, signed};
ghost use Rattle.mz_check_meaning.specs.Duplicates.{duplicate_after};
ghost use Rattle.mz_check_meaning.specs.Passes.{Passes};
ghost use Rattle.mz_check_context.specs.Known.{known};
ghost use Rattle.mz_check_exprs.specs.NamedModels.{AreNamed};
ghost use Rattle.mz_check.specs.StepsMeeting.{met_of, after, IsTested};

use crate::faults::{Met, note, passed};
use mz_base::{Memory, Span, Stop};
use mz_check_context::{Context, Heading};
use mz_check_exprs::duplicate;
use mz_core::CoreType;
use mz_scope_order::{Scoped, ScopedDecl};
use mz_tree::Function;
use std::alloc::Global;

/// Notes why the type of a declaration is refused, at its place.
fn note_type(
    first: &mut Option<Met>,
    at: Span,
    typed: Result<&CoreType, Stop>,
) -> Result<(), Memory>
    ensures { OnOk result (IsTested typed.entry at (option_map met_of first.old) (option_map met_of first.new)) }
{
    match typed {
        Ok(_) => Ok(()),
        Err(stop) => note(first, at, stop),
    }
}

/// Notes why the types of a function are refused, at its place.
fn note_heading(
    first: &mut Option<Met>,
    at: Span,
    typed: Result<&Heading, Stop>,
) -> Result<(), Memory>
    ensures { OnOk result (IsTested typed.entry at (option_map met_of first.old) (option_map met_of first.new)) }
{
    match typed {
        Ok(_) => Ok(()),
        Err(stop) => note(first, at, stop),
    }
}

/// The fault that is met first, among those of the types of declarations too.
fn test_decls(
    context: &Context<'_>,
    decls: &[ScopedDecl<'_>],
    first: &mut Option<Met>,
) -> Result<(), Memory>
    ensures { OnOk result (option_map met_of first.new ≡ after (option_map met_of first.old) (flat_map (type_met (known context.now)) (numbered (map scoped_decl decls.now)))) }
{
    for (k, d) in decls.iter().enumerate() {
        let t = context.type_of_decl(d.decl.span, k as u64);
        note_type(first, d.decl.span, t)?;
    }
    Ok(())
}

/// The fault that is met first, among those of the types of functions too.
fn test_functions(
    context: &Context<'_>,
    functions: &[&Function],
    first: &mut Option<Met>,
) -> Result<(), Memory>
    ensures { OnOk result (option_map met_of first.new ≡ after (option_map met_of first.old) (flat_map (heading_met (known context.now)) (numbered (map lent_function functions.now)))) }
{
    for (k, f) in functions.iter().enumerate() {
        let h = context.heading_of(f.span, k as u64);
        note_heading(first, f.span, h)?;
    }
    Ok(())
}

/// The fault of a type that is met first, if there is one.
pub(crate) fn test_types(scoped: &Scoped<'_>, context: &Context<'_>) -> Result<(), Stop>
    ensures { Passes (λ _. tt) result (none_met (types_met (scoped_tree scoped.now) (known context.now))) }
{
    let mut first = None;
    test_decls(context, scoped.decls.as_slice(), &mut first)?;
    test_functions(context, scoped.functions.as_slice(), &mut first)?;
    passed(first)
}

/// The fault of the first function that is declared twice, if there is one.
pub(crate) fn test_duplicates(
    alloc: Global,
    scoped: &Scoped<'_>,
    context: &Context<'_>,
) -> Result<(), Stop>
    requires named { AreNamed (length (known context.now).texts) (scoped_tree scoped.now) }
    requires functions { (known context.now).functions ≡ flat_map with_parameters (numbered (scoped_tree scoped.now).functions) }
    ensures { Passes (λ _. tt) result (no_fault (duplicate_after (known context.now).texts [] (signed (scoped_tree scoped.now) (known context.now)))) }
{
    let found = duplicate(alloc, scoped, context)?;
    match found {
        Some(f) => Err(Stop::Refused(f)),
        None => Ok(()),
    }
}
