// The test that an instance's variables are those of the declarations.

ghost use Rattle.std.specs.Prelude.{◌≡◌, IfSome, MatchOption, None, Some, is_none, map, slice_get, true};
ghost use Rattle.mz_core.specs.Order.{no_dims, same_base};
ghost use Rattle.mz_core.specs.Program.{plain_program};
ghost use Rattle.mz_core.specs.TreeViews.{decl};
ghost use Rattle.mz_core.specs.Types.{plain_type};
ghost use Rattle.mz_arena.specs.Instances.{model_var};
ghost use Rattle.mz_instance.specs.Parts.{base_of};
ghost use Rattle.mz_meaning.specs.Walk.{ordered};
ghost use Rattle.mz_model_meaning.specs.Modeled.{AreVarsOf, IsVarOf};
ghost use Rattle.mz_model.specs.Matching.{IsNextOf, AreNextAt};

use mz_arena::ModelVar;
use mz_core::{Base, CoreDecl, Program, TypeInst};
use mz_value::ShapeBase;

fn shape_base(s: ShapeBase) -> Base
    ensures { result ≡ base_of s }
{
    match s {
        ShapeBase::Bool => Base::Bool,
        ShapeBase::Int => Base::Int,
        ShapeBase::Enum(e) => Base::Enum(e),
        ShapeBase::SetInt => Base::SetInt,
        ShapeBase::SetEnum(e) => Base::SetEnum(e),
    }
}

fn same_base(a: Base, b: Base) -> bool
    ensures { result ≡ same_base a b }
{
    a == b
}

fn same_truth(a: bool, b: bool) -> bool
    ensures { result ≡ true → a ≡ b }
{
    match a {
        true => b,
        false => !b,
    }
}

#[tactic(auto, unfolding(mz_core::specs::Types::plain_type), using(mz_core::proofs::Tests::same_base_is))]
fn has_base(t: &TypeInst, m: &ModelVar) -> bool
    ensures { result ≡ true → base_of m.now.base ≡ (plain_type t.now).base }
{
    same_base(shape_base(m.base), t.base)
}

#[tactic(auto, unfolding(mz_core::specs::Types::plain_type))]
fn has_option(t: &TypeInst, m: &ModelVar) -> bool
    ensures { result ≡ true → m.now.opt ≡ (plain_type t.now).opt }
{
    same_truth(m.opt, t.opt)
}

#[tactic(auto, unfolding(mz_core::specs::Types::plain_type))]
fn is_scalar(t: &TypeInst) -> bool
    ensures { result ≡ no_dims (plain_type t.now).dims }
{
    t.dims.is_empty()
}

fn has_one(m: &ModelVar) -> bool
    ensures { result ≡ is_none (model_var m.now).index }
{
    match &m.index {
        None => true,
        Some(_) => false,
    }
}

fn has_index(t: &TypeInst, m: &ModelVar) -> bool
    ensures { result ≡ true → is_none (model_var m.now).index ≡ no_dims (plain_type t.now).dims }
{
    same_truth(has_one(m), is_scalar(t))
}

/// Whether a variable is that of a declaration.
fn is_var_of(d: &CoreDecl, m: &ModelVar) -> bool
    ensures { result ≡ true → IsVarOf (decl d.now) (model_var m.now) }
{
    if m.name != d.name {
        return false;
    }
    let t = &d.ty.ty;
    if !has_base(t, m) {
        return false;
    }
    if !has_option(t, m) {
        return false;
    }
    has_index(t, m)
}

#[tactic(auto, unfolding(mz_core::specs::Types::plain_type))]
fn is_var(t: &TypeInst) -> bool
    ensures { result ≡ (plain_type t.now).var }
{
    t.var
}

fn is_var_name(d: &CoreDecl) -> bool
    ensures { result ≡ (decl d.now).ty.ty.var }
{
    is_var(&d.ty.ty)
}

fn var_at(vars: &[ModelVar], at: usize) -> Option<&ModelVar>
    ensures { MatchOption result (Unit {0}) (λ m. slice_get vars.now at ≡ Some m.now) }
{
    vars.get(at)
}

/// The place after the variable of a declaration that is var.
#[tactic(auto, using(crate::proofs::Vars::var_next))]
fn after_var(d: &CoreDecl, vars: &[ModelVar], at: usize) -> Option<usize>
    requires { (decl d.now).ty.ty.var ≡ true }
    ensures { IfSome result (IsNextOf (decl d.now) (map model_var vars.now) at) }
{
    match var_at(vars, at) {
        None => None,
        Some(m) => {
            if is_var_of(d, m) {
                at.checked_add(1)
            } else {
                None
            }
        }
    }
}

/// The place after the variable of a declaration, which has this place; the same place where it is
/// par. None where the variable isn't the declaration's.
#[tactic(auto, using(crate::proofs::Vars::par_next))]
fn after_decl(d: &CoreDecl, vars: &[ModelVar], at: usize) -> Option<usize>
    ensures { IfSome result (IsNextOf (decl d.now) (map model_var vars.now) at) }
{
    if is_var_name(d) {
        after_var(d, vars, at)
    } else {
        Some(at)
    }
}

fn decl_in(decls: &[CoreDecl], k: u64) -> Option<&CoreDecl>
    ensures { MatchOption result (slice_get decls.now k ≡ None) (λ d. slice_get decls.now k ≡ Some d.now) }
{
    decls.get(k as usize)
}

/// The same of the declaration with this number, if there is one.
#[tactic(auto, using(crate::proofs::Vars::no_number, crate::proofs::Vars::this_number))]
fn after_number(decls: &[CoreDecl], k: u64, vars: &[ModelVar], at: usize) -> Option<usize>
    ensures { IfSome result (AreNextAt (map decl decls.now) (map model_var vars.now) k at) }
{
    match decl_in(decls, k) {
        None => Some(at),
        Some(d) => after_decl(d, vars, at),
    }
}

/// Whether variables are those of the declarations with these numbers.
#[tactic(auto, using(crate::proofs::Vars::vars_start, crate::proofs::Vars::vars_step, crate::proofs::Vars::vars_end))]
fn are_vars_in(decls: &[CoreDecl], all: &[u64], vars: &[ModelVar]) -> bool
    ensures { result ≡ true → AreVarsOf (ordered (map decl decls.now) all.now) (map model_var vars.now) }
{
    let mut at = 0;
    for k in all {
        match after_number(decls, *k, vars, at) {
            None => return false,
            Some(next) => at = next,
        }
    }
    at == vars.len()
}

/// Whether variables are those of the declarations, in the order of evaluation.
#[tactic(auto, unfolding(mz_core::specs::Program::plain_program))]
pub(crate) fn are_vars_of(program: &Program, vars: &[ModelVar]) -> bool
    ensures { result ≡ true → AreVarsOf (ordered (plain_program program.now).decls (plain_program program.now).order) (map model_var vars.now) }
{
    are_vars_in(&program.decls, &program.order, vars)
}
