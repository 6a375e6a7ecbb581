// The tests of names, over a model with its data.

ghost use Rattle.std.specs.Prelude.{◌≡◌, Some, None, IfOk, IfErr, map};
ghost use Rattle.mz_base.specs.Faults.{IfRefused};
ghost use Rattle.mz_tree.specs.Data.{given};
ghost use Rattle.mz_scope_names.specs.Given.{occurrences};
ghost use Rattle.mz_scope_names.specs.StepsWalk.{items_of};
ghost use Rattle.mz_scope.specs.Tests.{AreNamed, refusal_of};

use crate::refusals::refusal;
use crate::{end_of, solves_of};
use mz_base::{Fault, Memory, Names, Stop};
use mz_scope_names::occurrences;
use mz_tree::{Data, Sources};
use std::alloc::Global;

/// What the tests refuse of a model with its data, or None.
fn first_refusal(
    alloc: Global,
    sources: &Sources,
    given_data: &Data,
    names: &Names,
) -> Result<Option<Fault>, Memory>
    requires { AreNamed names.now (occurrences (items_of sources.now.files.items) (map given given_data.now.items.items)) }
    ensures { IfOk result (λ found. found ≡ refusal_of names.now sources.now.files.items given_data.now.items.items) }
{
    let os = occurrences(alloc, sources, given_data)?;
    let solves = solves_of(alloc, sources.files.as_slice())?;
    let end = end_of(sources.files.as_slice());
    let found = refusal(alloc, names, end, solves.as_slice(), os.as_slice())?;
    Ok(found)
}

/// Tests the names of a model with its data: reserved names, names that are declared or given a value a second time, solve
/// items, unknown names, data for enums, and missing values, in this order, each over the whole in the order of
/// the text.
pub(crate) fn test_names(
    alloc: Global,
    sources: &Sources,
    given_data: &Data,
    names: &Names,
) -> Result<(), Stop>
    requires { AreNamed names.now (occurrences (items_of sources.now.files.items) (map given given_data.now.items.items)) }
    ensures passed { IfOk result (λ _. refusal_of names.now sources.now.files.items given_data.now.items.items ≡ None) }
    ensures refused { IfErr result (λ s. IfRefused s (λ f. refusal_of names.now sources.now.files.items given_data.now.items.items ≡ Some f)) }
{
    match first_refusal(alloc, sources, given_data, names)? {
        Some(fault) => Err(Stop::Refused(fault)),
        None => Ok(()),
    }
}
