// The scoped model of a model's files with their data.

ghost use Rattle.std.specs.Prelude.{◌<◌, length, map, IfOk, IfErr};
ghost use Rattle.mz_base.specs.Faults.{IfRefused};
ghost use Rattle.mz_scope_order.specs.Scoped.{scoped_tree, AreRanked};
ghost use Rattle.mz_scope_order.specs.Subjects.{subject, IsOrderOf};
ghost use Rattle.mz_analysis.specs.Analysis.{IsScopedModel, IsIllNamed, IsRead, files_read, items_read, count_read};
ghost use Rattle.mz_analysis.specs.Known.{IsWithin};

use mz_base::{Names, Stop};
use mz_include::with_data::SourcesWithData;
use mz_scope::scope;
use mz_scope_order::Scoped;
use std::alloc::Global;

/// The scoped model of a model's files with the items of its data, by the table of their names.
///
/// Refused, in this order, each over the whole in the order of the text, where data comes after the model: a reserved name, a name that
/// is declared or given a value a second time, a missing or a second solve item, an unknown name, data that doesn't fit an enum, a
/// declaration or an enum that lacks its value, and what is cyclic. The place of a refusal lies in one of the files.
pub fn scoped_model<'a>(
    alloc: Global,
    read: &'a SourcesWithData,
    names: &Names,
) -> Result<Scoped<'a>, Stop>
    requires { IsRead names.now read.now }
    ensures scoped { IfOk result (λ s. IsScopedModel names.now (files_read names.now read.now) (items_read read.now) (scoped_tree s)) }
    ensures ranked { IfOk result (λ s. AreRanked (scoped_tree s)) }
    ensures ordered { IfOk result (λ s. IsOrderOf (scoped_tree s) (map subject s.types.items)) }
    ensures within { IfOk result (λ s. IsWithin (length names.now) (count_read read.now) (scoped_tree s)) }
    ensures refused { IfErr result (λ s. IfRefused s (IsIllNamed names.now (files_read names.now read.now) (items_read read.now))) }
    ensures placed { IfErr result (λ s. IfRefused s (λ f. f.span.file < count_read read.now)) }
{
    scope(alloc, &read.sources, &read.given_data, names)
}
