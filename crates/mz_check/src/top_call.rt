// From a scoped model and its data to a typed program.

ghost use Rattle.std.specs.Prelude.{◌≡◌, length, map, IfOk, IfErr};
ghost use Rattle.std.specs.List.{flat_map};
ghost use Rattle.mz_base.specs.Faults.{IfRefused};
ghost use Rattle.mz_core.specs.Program.{plain_program};
ghost use Rattle.mz_scope_order.specs.Scoped.{scoped_tree, shared_names, AreDistinct};
ghost use Rattle.mz_scope_order.specs.Subjects.{subject, IsOrderOf};
ghost use Rattle.mz_check_meaning.specs.Checks.{numbered, with_parameters};
ghost use Rattle.mz_check_meaning.specs.Passes.{Passes};
ghost use Rattle.mz_check_context.specs.Known.{known};
ghost use Rattle.mz_check_exprs.specs.NamedModels.{AreNamed};
ghost use Rattle.mz_check_data.specs.WithData.{with_values, checked_given, checked_with_data, AreNumbered, ChecksWithData, IsRefusedWithData};
ghost use Rattle.mz_check_data.specs.Views.{typed_item};
ghost use Rattle.mz_check.specs.StepsParts.{sections_of};

use crate::assemble::assembled;
use crate::context::typed_context;
use crate::parts::TypedSections;
use crate::program::program_of;
use crate::sections::typed_items;
use crate::testing::{test_duplicates, test_types};
use mz_base::{Names, Stop};
use mz_check_context::Context;
use mz_check_data::{given_values, with_values};
use mz_core::{Core, Program};
use mz_scope_order::{Scoped, Subject};
use std::alloc::Global;

/// The typed sections, whose declarations have the values that data gives them.
#[tactic(auto, unfolding(mz_check_data::specs::WithData::with_values))]
fn with_data(sections: TypedSections, values: Vec<(u64, Core)>) -> TypedSections
    requires { AreNumbered (sections_of sections).decls }
    ensures { sections_of result ≡ with_values (map typed_item values.items) (sections_of sections) }
{
    let TypedSections {
        decls,
        functions,
        constraints,
        goal,
        outputs,
    } = sections;
    TypedSections {
        decls: with_values(decls, values),
        functions,
        constraints,
        goal,
        outputs,
    }
}

/// The typed sections of a model all of whose types are typed, with its data; or the fault that is met first.
#[tactic(auto, unfolding(mz_check_data::specs::WithData::checked_given))]
fn checked_sections(
    alloc: Global,
    scoped: &Scoped<'_>,
    context: Context<'_>,
) -> Result<TypedSections, Stop>
    requires named { AreNamed (length (known context).texts) (scoped_tree scoped.now) }
    requires functions { (known context).functions ≡ flat_map with_parameters (numbered (scoped_tree scoped.now).functions) }
    ensures { Passes sections_of result (checked_given (scoped_tree scoped.now) (known context.entry)) }
{
    test_types(scoped, &context)?;
    test_duplicates(alloc, scoped, &context)?;
    let values = given_values(alloc, &context, scoped.given.as_slice())?;
    let items = typed_items(alloc, scoped, &context)?;
    let sections = assembled(alloc, scoped, context, items)?;
    Ok(with_data(sections, values))
}

/// The typed sections of a model with its data, whose types are typed in this order.
fn sections_in_order(
    alloc: Global,
    scoped: &Scoped<'_>,
    names: &Names,
    order: &[Subject],
) -> Result<TypedSections, Stop>
    requires distinct { AreDistinct (shared_names (scoped_tree scoped.now)) }
    requires named { AreNamed (length names.now) (scoped_tree scoped.now) }
    requires order { IsOrderOf (scoped_tree scoped.now) (map subject order.now) }
    ensures { Passes sections_of result (checked_with_data names.now (scoped_tree scoped.now) (map subject order.now)) }
{
    let context = typed_context(alloc, scoped, names, order)?;
    checked_sections(alloc, scoped, context)
}

/// The typed program of a scoped model with its data, or its first fault of types: first types are typed, in the model's order of
/// types; then functions that are declared twice are refused; then data that doesn't fit; then values, bodies and all other items
/// are typed, in source order. A declaration's value is the written one, or the one from data.
///
/// `names` has the texts of all names in the model, of which no two in the shared space are the same.
pub fn check(alloc: Global, scoped: &Scoped<'_>, names: &Names) -> Result<Program, Stop>
    requires distinct { AreDistinct (shared_names (scoped_tree scoped.now)) }
    requires ordered { IsOrderOf (scoped_tree scoped.now) (map subject scoped.now.types.items) }
    requires named { AreNamed (length names.now) (scoped_tree scoped.now) }
    ensures checks { IfOk result (λ p. ChecksWithData names.now (scoped_tree scoped.now) (plain_program p)) }
    ensures refused { IfErr result (λ e. IfRefused e (IsRefusedWithData names.now (scoped_tree scoped.now))) }
{
    let sections = sections_in_order(alloc, scoped, names, scoped.types.as_slice())?;
    let program = program_of(alloc, scoped, names, sections)?;
    Ok(program)
}
