// Written types, when their sets are typed.

ghost use Rattle.std.specs.Prelude.{◌≡◌, IfOk, map};
ghost use Rattle.std.specs.Option.{option_map};
ghost use Rattle.mz_core.specs.Types.{plain_type};
ghost use Rattle.mz_core.specs.TreeViews.{tree, declared_type};
ghost use Rattle.mz_check_meaning.specs.Tests.{each};
ghost use Rattle.mz_check_meaning.specs.WrittenTypes.{with_base, par_set, index_of, index, values, set_of_values, declared_base, declared};
ghost use Rattle.mz_check_meaning.specs.Passes.{Passes};
ghost use Rattle.mz_check_context.specs.Views.{typed_base, typed_index, typed_values};

use crate::generator::member_of;
use mz_base::{Memory, Span, Stop};
use mz_check_forms::{
    base_of, coerced, is_set_type, is_var, make_declared_type, mismatch, place_of, scalar, type_of,
};
use mz_core::{Base, Core, CoreType, Ix, TypeInst};
use std::alloc::Global;

/// What stands where a type says which values there are: `bool`, `int`, or a typed set.
#[derive(Drop)]
pub enum TypedBase {
    Bool,
    Int,
    Set(Core),
}

/// An index type, and the set that gives it.
#[derive(Drop)]
pub struct TypedIndex {
    pub ty: Ix,
    pub set: Option<Core>,
}

/// A base, and the set that gives it.
#[derive(Drop)]
pub struct TypedValues {
    pub base: Base,
    pub set: Option<Core>,
}

/// The set; `{}` counts as a set of integers.
fn with_base(alloc: Global, base: Base, e: Core) -> Result<Core, Memory>
    ensures { IfOk result (λ x. tree x ≡ with_base base (tree e)) }
{
    match base {
        Base::SetBottom => coerced(alloc, e, &scalar(alloc, Base::SetInt)),
        _ => Ok(e),
    }
}

/// A par set of integers or of cases. TypeMismatch at what is none.
#[tactic(auto, unfolding(mz_check_meaning::specs::WrittenTypes::par_set))]
fn par_set(alloc: Global, e: Core) -> Result<Core, Stop>
    ensures { Passes tree result (par_set (tree e)) }
{
    if !is_set_type(type_of(&e)) || is_var(&e) {
        return Err(mismatch(place_of(&e)));
    }
    let base = base_of(type_of(&e));
    Ok(with_base(alloc, base, e)?)
}

/// The type of an index that runs over a set of this base.
fn index_of(base: Base) -> Ix
    ensures { result ≡ index_of base }
{
    match base {
        Base::SetEnum(e) => Ix::Enum(e),
        _ => Ix::Int,
    }
}

/// The type of an index. TypeMismatch at the written type where it is `bool`, and at what is no par set.
#[tactic(auto, unfolding(mz_check_meaning::specs::WrittenTypes::index))]
fn index(alloc: Global, span: Span, b: TypedBase) -> Result<TypedIndex, Stop>
    ensures { Passes typed_index result (index span (typed_base b)) }
{
    match b {
        TypedBase::Bool => Err(mismatch(span)),
        TypedBase::Int => Ok(TypedIndex {
            ty: Ix::Int,
            set: None,
        }),
        TypedBase::Set(e) => {
            let set = par_set(alloc, e)?;
            let ty = index_of(base_of(type_of(&set)));
            Ok(TypedIndex { ty, set: Some(set) })
        }
    }
}

/// The base of the values of a type. TypeMismatch at what is no par set.
#[tactic(auto, unfolding(mz_check_meaning::specs::WrittenTypes::values))]
fn values(alloc: Global, b: TypedBase) -> Result<TypedValues, Stop>
    ensures { Passes typed_values result (values (typed_base b)) }
{
    match b {
        TypedBase::Bool => Ok(TypedValues {
            base: Base::Bool,
            set: None,
        }),
        TypedBase::Int => Ok(TypedValues {
            base: Base::Int,
            set: None,
        }),
        TypedBase::Set(e) => {
            let set = par_set(alloc, e)?;
            let base = member_of(base_of(type_of(&set)));
            Ok(TypedValues {
                base,
                set: Some(set),
            })
        }
    }
}

/// The base of sets of values of a base. TypeMismatch at the written type, where there are no such sets.
#[tactic(auto, unfolding(mz_check_meaning::specs::WrittenTypes::set_of_values))]
fn set_of_values(span: Span, base: Base) -> Result<Base, Stop>
    ensures { Passes (λ b. b) result (set_of_values span base) }
{
    match base {
        Base::Enum(e) => Ok(Base::SetEnum(e)),
        Base::Int => Ok(Base::SetInt),
        _ => Err(mismatch(span)),
    }
}

#[tactic(auto, unfolding(mz_check_meaning::specs::WrittenTypes::declared_base))]
fn declared_base(span: Span, set: bool, base: Base) -> Result<Base, Stop>
    ensures { Passes (λ b. b) result (declared_base span set base) }
{
    if set {
        set_of_values(span, base)
    } else {
        Ok(base)
    }
}

fn indices(alloc: Global, span: Span, dims: Vec<TypedBase>) -> Result<Vec<TypedIndex>, Stop>
    ensures { Passes (λ v. map typed_index v.items) result (each (index span) (map typed_base dims.items)) }
{
    let mut all = Vec::new(alloc);
    for b in dims {
        all.push(index(alloc, span, b)?)?;
    }
    Ok(all)
}

fn types_of(alloc: Global, indices: &[TypedIndex]) -> Result<Vec<Ix>, Memory>
    ensures { IfOk result (λ v. v.items ≡ map (λ i. i.ty) (map typed_index indices.now)) }
{
    let mut all = Vec::new(alloc);
    for i in indices {
        all.push(i.ty)?;
    }
    Ok(all)
}

fn sets_of(alloc: Global, indices: Vec<TypedIndex>) -> Result<Vec<Option<Core>>, Memory>
    ensures { IfOk result (λ v. map (option_map tree) v.items ≡ map (λ i. i.set) (map typed_index indices.items)) }
{
    let mut all = Vec::new(alloc);
    for i in indices {
        let TypedIndex { ty: _, set } = i;
        all.push(set)?;
    }
    Ok(all)
}

#[tactic(auto, unfolding(mz_core::specs::Types::plain_type))]
fn marked(var: bool, opt: bool, base: Base, dims: Vec<Ix>) -> TypeInst
    ensures { plain_type result ≡ record { var = var; opt = opt; base = base; dims = dims.items } }
{
    TypeInst {
        var,
        opt,
        base,
        dims,
    }
}

/// A type with its marks `var`, `opt` and `set of`, whose sets are typed. TypeMismatch at the first set that is none, or not par, and at
/// the written type where an index is `bool` or its sets are of Booleans.
#[inline(never)]
#[tactic(auto, unfolding(mz_check_meaning::specs::WrittenTypes::declared))]
pub fn declared(
    alloc: Global,
    span: Span,
    var: bool,
    opt: bool,
    set: bool,
    dims: Vec<TypedBase>,
    base: TypedBase,
) -> Result<CoreType, Stop>
    ensures { Passes declared_type result (declared span var opt set (map typed_base dims.items) (typed_base base)) }
{
    let indices = indices(alloc, span, dims)?;
    let TypedValues { base, set: domain } = values(alloc, base)?;
    let base = declared_base(span, set, base)?;
    let types = types_of(alloc, &indices)?;
    let sets = sets_of(alloc, indices)?;
    Ok(make_declared_type(span, marked(var, opt, base, types), sets, domain))
}
