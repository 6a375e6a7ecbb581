// The types of functions.

ghost use Rattle.std.specs.Prelude.{◌≡◌, map, IfOk};
ghost use Rattle.mz_core.specs.Types.{plain_type, plain_signature};
ghost use Rattle.mz_core.specs.TreeViews.{decl, declared_type};
ghost use Rattle.mz_check_meaning.specs.Models.{signature_of};
ghost use Rattle.mz_check_meaning.specs.Passes.{Passes};
ghost use Rattle.mz_check_context.specs.Headings.{heading, tested};

use mz_base::{Fault, Memory, Stop};
use mz_core::{CoreDecl, CoreType, Signature, TypeInst, copy_type};
use std::alloc::Global;

/// A function's typed parameters, and its typed result.
#[derive(Drop)]
pub struct Heading {
    pub params: Vec<CoreDecl>,
    pub result: CoreType,
}

/// A declared type, or the fault at which its typing stopped.
pub(crate) fn declared_or_fault(t: &Result<CoreType, Fault>) -> Result<&CoreType, Stop>
    ensures { Passes (λ u. declared_type u.now) result (tested declared_type t.now) }
{
    match t {
        Ok(t) => Ok(t),
        Err(f) => Err(Stop::Refused(*f)),
    }
}

/// A heading, or the fault at which its typing stopped.
pub(crate) fn heading_or_fault(h: &Result<Heading, Fault>) -> Result<&Heading, Stop>
    ensures { Passes (λ g. heading g.now) result (tested heading h.now) }
{
    match h {
        Ok(h) => Ok(h),
        Err(f) => Err(Stop::Refused(*f)),
    }
}

/// The type that a declared type is.
pub fn type_in(t: &CoreType) -> &TypeInst
    ensures { plain_type result.now ≡ (declared_type t.now).ty }
{
    &t.ty
}

/// The type of a parameter.
pub fn param_type(d: &CoreDecl) -> &TypeInst
    ensures { plain_type result.now ≡ (decl d.now).ty.ty }
{
    type_in(&d.ty)
}

fn param_types(alloc: Global, params: &[CoreDecl]) -> Result<Vec<TypeInst>, Memory>
    ensures { IfOk result (λ v. map plain_type v.items ≡ map (λ d. d.ty.ty) (map decl params.now)) }
{
    let mut types = Vec::new(alloc);
    for d in params {
        types.push(copy_type(alloc, param_type(d))?)?;
    }
    Ok(types)
}

/// The types of a function's parameters and of its result.
#[tactic(auto, unfolding(mz_core::specs::Types::plain_signature))]
pub fn signature_of(alloc: Global, h: &Heading) -> Result<Signature, Memory>
    ensures { IfOk result (λ s. plain_signature s ≡ signature_of (heading h.now)) }
{
    let params = param_types(alloc, h.params.as_slice())?;
    let result = copy_type(alloc, type_in(&h.result))?;
    Ok(Signature { params, result })
}
