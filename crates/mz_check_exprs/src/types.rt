// The types of declarations and functions, in an order in which each comes after those that it refers to.

ghost use Rattle.std.specs.Prelude.{◌≡◌, ◌<◌, length, map, slice_get, IfOk, OnOk};
ghost use Rattle.mz_core.specs.TreeViews.{declared_type};
ghost use Rattle.mz_tree.specs.Items.{function_of};
ghost use Rattle.mz_scope_order.specs.Parts.{decl_at, function_at};
ghost use Rattle.mz_scope_order.specs.Scoped.{scoped_decl, scoped_tree};
ghost use Rattle.mz_scope_order.specs.Subjects.{subject, IsOf, AreOf, of_decl, of_function};
ghost use Rattle.mz_check_meaning.specs.Models.{outermost};
ghost use Rattle.mz_check_meaning.specs.Typing.{check_written};
ghost use Rattle.mz_check_meaning.specs.Headings.{written_in, heading, with_type, with_types};
ghost use Rattle.mz_check_context.specs.Headings.{heading as seen_heading, tested};
ghost use Rattle.mz_check_context.specs.Known.{known};
ghost use Rattle.mz_check_exprs.specs.NamedModels.{IsNamedDeclaration, IsNamedFunction, AreNamed};
ghost use Rattle.mz_check_exprs.specs.NewSubjects.{IsNew, AreNew};
ghost use Rattle.mz_check_exprs.specs.StepsTypes.{IsAnswer, IfThere, with_there};

use crate::check_written;
use crate::headings::heading;
use mz_base::{Fault, Memory, Stop};
use mz_check_context::{Context, Heading};
use mz_core::CoreType;
use mz_scope_order::{Scoped, ScopedDecl, Subject};
use mz_tree::Function;
use std::alloc::Global;

/// A type, or the fault at which its typing stopped.
fn type_answer(t: Result<CoreType, Stop>) -> Result<Result<CoreType, Fault>, Memory>
    ensures { IfOk result (IsAnswer declared_type t) }
{
    match t {
        Ok(t) => Ok(Ok(t)),
        Err(Stop::Refused(f)) => Ok(Err(f)),
        Err(Stop::Memory) => Err(Memory),
    }
}

/// The types of a function, or the fault at which their typing stopped.
fn heading_answer(h: Result<Heading, Stop>) -> Result<Result<Heading, Fault>, Memory>
    ensures { IfOk result (IsAnswer seen_heading h) }
{
    match h {
        Ok(h) => Ok(Ok(h)),
        Err(Stop::Refused(f)) => Ok(Err(f)),
        Err(Stop::Memory) => Err(Memory),
    }
}

/// What the type of a declaration is typed to.
fn type_of(
    alloc: Global,
    context: &Context<'_>,
    d: &ScopedDecl<'_>,
) -> Result<Result<CoreType, Fault>, Memory>
    requires { IsNamedDeclaration (length (known context.now).texts) (scoped_decl d.now) }
    ensures { IfOk result (λ t. tested declared_type t ≡ check_written (known context.now) (written_in (scoped_decl d.now)) (outermost (known context.now))) }
{
    let mut scope = context.outermost(alloc);
    let t = check_written(alloc, context, &mut scope, &d.decl.ty);
    let answer = type_answer(t)?;
    Ok(answer)
}

/// What the types of a function are typed to.
fn types_of(
    alloc: Global,
    context: &Context<'_>,
    f: &Function,
) -> Result<Result<Heading, Fault>, Memory>
    requires { IsNamedFunction (length (known context.now).texts) (function_of f.now) }
    ensures { IfOk result (λ h. tested seen_heading h ≡ heading (known context.now) (function_of f.now)) }
{
    let h = heading(alloc, context, f);
    let answer = heading_answer(h)?;
    Ok(answer)
}

/// A declaration by its place.
fn decl_at<'s, 'a>(scoped: &'s Scoped<'a>, d: u64) -> &'s ScopedDecl<'a>
    requires { d < length (scoped_tree scoped.now).decls }
    ensures { scoped_decl result.now ≡ decl_at (scoped_tree scoped.now).decls d }
{
    &scoped.decls[d as usize]
}

/// A function by its place.
fn function_at<'a>(scoped: &Scoped<'a>, f: u64) -> &'a Function
    requires { f < length (scoped_tree scoped.now).functions }
    ensures { function_of result.now ≡ function_at (scoped_tree scoped.now).functions f }
{
    scoped.functions[f as usize]
}

/// Adds the type of a declaration.
fn add_decl(
    alloc: Global,
    scoped: &Scoped<'_>,
    context: &mut Context<'_>,
    d: u64,
) -> Result<(), Memory>
    requires counted { d < length (scoped_tree scoped.now).decls }
    requires named { AreNamed (length (known context.old).texts) (scoped_tree scoped.now) }
    requires new { IsNew (known context.old) (of_decl d) }
    ensures { OnOk result (known context.new ≡ with_type (scoped_tree scoped.now) (known context.old) (of_decl d)) }
{
    let t = type_of(alloc, context, decl_at(scoped, d))?;
    context.add_type(d, t)
}

/// Adds the types of a function.
fn add_function(
    alloc: Global,
    scoped: &Scoped<'_>,
    context: &mut Context<'_>,
    f: u64,
) -> Result<(), Memory>
    requires counted { f < length (scoped_tree scoped.now).functions }
    requires named { AreNamed (length (known context.old).texts) (scoped_tree scoped.now) }
    requires new { IsNew (known context.old) (of_function f) }
    ensures { OnOk result (known context.new ≡ with_type (scoped_tree scoped.now) (known context.old) (of_function f)) }
{
    let h = types_of(alloc, context, function_at(scoped, f))?;
    context.add_heading(f, h)
}

/// Adds the types of one subject.
fn add_subject(
    alloc: Global,
    scoped: &Scoped<'_>,
    context: &mut Context<'_>,
    x: &Subject,
) -> Result<(), Memory>
    requires counted { IsOf (scoped_tree scoped.now) (subject x.now) }
    requires named { AreNamed (length (known context.old).texts) (scoped_tree scoped.now) }
    requires new { IsNew (known context.old) (subject x.now) }
    ensures { OnOk result (known context.new ≡ with_type (scoped_tree scoped.now) (known context.old) (subject x.now)) }
{
    match x {
        Subject::Decl(d) => add_decl(alloc, scoped, context, *d),
        Subject::Function(f) => add_function(alloc, scoped, context, *f),
    }
}

/// Adds the types of the subject at this place, where there is one.
fn add_at(
    alloc: Global,
    scoped: &Scoped<'_>,
    context: &mut Context<'_>,
    order: &[Subject],
    k: usize,
) -> Result<(), Memory>
    requires counted { IfThere (slice_get (map subject order.now) k) (IsOf (scoped_tree scoped.now)) }
    requires named { AreNamed (length (known context.old).texts) (scoped_tree scoped.now) }
    requires new { IfThere (slice_get (map subject order.now) k) (IsNew (known context.old)) }
    ensures { OnOk result (known context.new ≡ with_there (scoped_tree scoped.now) (known context.old) (slice_get (map subject order.now) k)) }
{
    match order.get(k) {
        Some(x) => add_subject(alloc, scoped, context, x),
        None => Ok(()),
    }
}

/// Adds the types of these subjects in their order, each once. A type that is refused is kept as its fault.
pub fn with_types(
    alloc: Global,
    scoped: &Scoped<'_>,
    context: &mut Context<'_>,
    order: &[Subject],
) -> Result<(), Memory>
    requires counted { AreOf (scoped_tree scoped.now) (map subject order.now) }
    requires named { AreNamed (length (known context.old).texts) (scoped_tree scoped.now) }
    requires new { AreNew (known context.old) (map subject order.now) }
    ensures { OnOk result (known context.new ≡ with_types (scoped_tree scoped.now) (known context.old) (map subject order.now)) }
{
    for k in 0..order.len() {
        add_at(alloc, scoped, context, order, k)?;
    }
    Ok(())
}
