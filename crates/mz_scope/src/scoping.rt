// The scoped model of a model's files and data.

ghost use Rattle.std.specs.Prelude.{◌≡◌, None, map, IfOk, IfErr};
ghost use Rattle.mz_base.specs.Faults.{IfRefused, fault_at};
ghost use Rattle.mz_base.specs.declared.kind.Kind.TheVariants.{Cyclic};
ghost use Rattle.mz_base.specs.declared.stop.Stop.TheVariants.{Refused};
ghost use Rattle.mz_tree.specs.Data.{given};
ghost use Rattle.mz_scope_names.specs.Given.{occurrences};
ghost use Rattle.mz_scope_names.specs.StepsWalk.{items_of};
ghost use Rattle.mz_scope_names.specs.Sketches.{decl_sketch, function_sketch};
ghost use Rattle.mz_scope_order.specs.Answer.{IsAnswer};
ghost use Rattle.mz_scope_order.specs.Dependencies.{AreDeclarations};
ghost use Rattle.mz_scope_order.specs.Scoped.{scoped_tree, parts_tree, IsScoped, AreRanked};
ghost use Rattle.mz_scope_order.specs.Subjects.{subject, IsOrderOf};
ghost use Rattle.mz_scope.specs.Scope.{IsRefused};
ghost use Rattle.mz_scope.specs.StepsScope.{IsArranged, HasCycle};
ghost use Rattle.mz_scope.specs.Tests.{AreNamed, refusal_of};

use crate::testing::test_names;
use mz_base::{Fault, Kind, Memory, Names, Span, Stop};
use mz_scope_order::{
    ModelParts, Scoped, Sequence, arranged, decl_sketches, function_sketches, model_parts,
    sequence_of,
};
use mz_tree::{Data, Sources};
use std::alloc::Global;

/// The refusal of what is cyclic.
fn cyclic(at: Span) -> Stop
    ensures { result ≡ Refused (fault_at Cyclic at) }
{
    Stop::Refused(Fault::at(Kind::Cyclic, at))
}

/// The parts in these orders, or the refusal of what has none.
fn in_sequence<'a>(
    alloc: Global,
    parts: ModelParts<'a>,
    sequence: Sequence,
) -> Result<Scoped<'a>, Stop>
    requires { IsAnswer (map decl_sketch (parts_tree parts).decls) (map function_sketch (parts_tree parts).functions) sequence }
    ensures arranged { IfOk result (λ s. IsArranged (parts_tree parts.entry) (scoped_tree s)) }
    ensures ordered { IfOk result (λ s. IsOrderOf (scoped_tree s) (map subject s.types.items)) }
    ensures cyclic { IfErr result (λ s. IfRefused s (HasCycle (parts_tree parts.entry))) }
{
    match sequence {
        Sequence::Ordered(order, types) => {
            let scoped = arranged(alloc, parts, order.as_slice(), types)?;
            Ok(scoped)
        }
        Sequence::CyclicDecl(d) => Err(cyclic(parts.decls[d].decl.span)),
        Sequence::CyclicFunction(f) => Err(cyclic(parts.functions[f].span)),
    }
}

/// The orders in which the declarations of these parts are evaluated and their types are typed, or what has none.
fn sequence_in(alloc: Global, parts: &ModelParts<'_>) -> Result<Sequence, Memory>
    requires { AreDeclarations (map decl_sketch (parts_tree parts.now).decls) }
    ensures { IfOk result (IsAnswer (map decl_sketch (parts_tree parts.now).decls) (map function_sketch (parts_tree parts.now).functions)) }
{
    let decls = decl_sketches(alloc, parts.decls.as_slice())?;
    let functions = function_sketches(alloc, parts.functions.as_slice())?;
    let sequence = sequence_of(alloc, decls.as_slice(), functions.as_slice())?;
    Ok(sequence)
}

/// The scoped model of a model's files and data.
///
/// Refused, in this order, each over the whole in the order of the text: a reserved name, a name that is declared or given a value
/// a second time, a missing or a second solve item, an unknown name, data that doesn't fit an enum, a declaration or an enum that
/// lacks its value, and what is cyclic: the first declaration that never has its turn, or else the first function whose types lead
/// back to its name. The model has an order in which its types can be typed. It refers to the trees of the files and of the data,
/// and copies none.
pub fn scope<'a>(
    alloc: Global,
    sources: &'a Sources,
    given_data: &'a Data,
    names: &Names,
) -> Result<Scoped<'a>, Stop>
    requires { AreNamed names.now (occurrences (items_of sources.now.files.items) (map given given_data.now.items.items)) }
    ensures tested { IfOk result (λ _. refusal_of names.now sources.now.files.items given_data.now.items.items ≡ None) }
    ensures scoped { IfOk result (λ s. IsScoped (items_of sources.now.files.items) (map given given_data.now.items.items) (scoped_tree s)) }
    ensures ranked { IfOk result (λ s. AreRanked (scoped_tree s)) }
    ensures ordered { IfOk result (λ s. IsOrderOf (scoped_tree s) (map subject s.types.items)) }
    ensures refused { IfErr result (λ s. IfRefused s (IsRefused names.now sources.now.files.items given_data.now.items.items)) }
{
    test_names(alloc, sources, given_data, names)?;
    let parts = model_parts(alloc, sources, given_data)?;
    let sequence = sequence_in(alloc, &parts)?;
    in_sequence(alloc, parts, sequence)
}
