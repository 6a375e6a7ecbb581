// What a case is typed to in a scoped model.

ghost use Rattle.std.specs.Prelude.{length, map};
ghost use Rattle.mz_scope_order.specs.Scoped.{scoped_tree, shared_names, AreDistinct};
ghost use Rattle.mz_scope_order.specs.Subjects.{subject, IsOrderOf};
ghost use Rattle.mz_check_exprs.specs.NamedModels.{AreNamed};
ghost use Rattle.mz_check_context.specs.Known.{known};
ghost use Rattle.mz_tree.specs.Views.{tree, written};
ghost use Rattle.mz_check_exprs.specs.Naming.{IsNamed, IsNamedType};

use crate::typed::{put_declared, put_tree};
use crate::types::put_type;
use cases::Page;
use mz_base::{Memory, Names, Stop};
use mz_check_context::{Context, Scope};
use mz_check_exprs::{check, check_written, untyped, with_types};
use mz_scope_order::Scoped;
use mz_tree::{Expr, TypeText};
use std::alloc::Global;

/// What a case is: an expression, an expression in an output item, or a written type.
#[derive(Clone, Copy, Debug, PartialEq, Eq)]
pub enum Kind {
    Expression,
    Output,
    Written,
}

/// A refusal: its kind, and its column in the text of the case, or its line and column.
pub fn print_stop(page: &mut Page, stop: Stop) -> Result<(), Memory> {
    match stop {
        Stop::Refused(fault) => {
            page.put("  ");
            page.put(fault.kind.name());
            page.put(" at ");
            if fault.span.line != 3 {
                page.put(fault.span.line);
                page.put(":");
            }
            page.put(fault.span.col);
            page.line("");
            Ok(())
        }
        Stop::Memory => Err(Memory),
    }
}

/// An expression with its type.
fn print_expression(
    alloc: Global,
    context: &Context<'_>,
    e: &Expr,
    scope: Scope,
    count: u64,
    text: &str,
    page: &mut Page,
) -> Result<(), Memory>
    requires { IsNamed (length (known context.now).texts) (tree e.now) }
{
    let mut scope = scope;
    match check(alloc, context, &mut scope, e) {
        Ok(core) => {
            page.put("  ");
            put_type(page, &core.ty);
            page.put(": ");
            put_tree(page, text, count, &core);
            page.line("");
            Ok(())
        }
        Err(stop) => print_stop(page, stop),
    }
}

/// A written type with its sets.
fn print_written(
    alloc: Global,
    context: &Context<'_>,
    t: &TypeText,
    count: u64,
    text: &str,
    page: &mut Page,
) -> Result<(), Memory>
    requires { IsNamedType (length (known context.now).texts) (written t.now) }
{
    let mut scope = context.outermost(alloc);
    match check_written(alloc, context, &mut scope, t) {
        Ok(ty) => {
            page.put("  ");
            put_declared(page, text, count, &ty);
            page.line("");
            Ok(())
        }
        Err(stop) => print_stop(page, stop),
    }
}

/// What the last constraint is typed to, where all types of the model are known.
fn print_constraint(
    alloc: Global,
    scoped: &Scoped<'_>,
    context: &Context<'_>,
    scope: Scope,
    text: &str,
    page: &mut Page,
) -> Result<(), Memory>
    requires { AreNamed (length (known context.now).texts) (scoped_tree scoped.now) }
{
    let count = scoped.decls.len() as u64;
    let all = scoped.constraints.as_slice();
    if all.is_empty() {
        return Ok(());
    }
    let last = all.len() - 1;
    print_expression(alloc, context, all[last], scope, count, text, page)
}

/// What the result of the last function is typed to, where all types of the model are known.
fn print_result(
    alloc: Global,
    scoped: &Scoped<'_>,
    context: &Context<'_>,
    text: &str,
    page: &mut Page,
) -> Result<(), Memory>
    requires { AreNamed (length (known context.now).texts) (scoped_tree scoped.now) }
{
    let count = scoped.decls.len() as u64;
    let all = scoped.functions.as_slice();
    if all.is_empty() {
        return Ok(());
    }
    let last = all.len() - 1;
    print_written(alloc, context, &all[last].result, count, text, page)
}

/// What a case is typed to.
pub fn print(
    alloc: Global,
    scoped: &Scoped<'_>,
    names: &Names,
    kind: Kind,
    text: &str,
    page: &mut Page,
) -> Result<(), Memory>
    requires distinct { AreDistinct (shared_names (scoped_tree scoped.now)) }
    requires ordered { IsOrderOf (scoped_tree scoped.now) (map subject scoped.now.types.items) }
    requires named { AreNamed (length names.now) (scoped_tree scoped.now) }
{
    let mut context = untyped(alloc, scoped, names)?;
    with_types(alloc, scoped, &mut context, scoped.types.as_slice())?;
    match kind {
        Kind::Expression => {
            let scope = context.outermost(alloc);
            print_constraint(alloc, scoped, &context, scope, text, page)
        }
        Kind::Output => {
            let scope = context.in_output(alloc);
            print_constraint(alloc, scoped, &context, scope, text, page)
        }
        Kind::Written => print_result(alloc, scoped, &context, text, page),
    }
}
