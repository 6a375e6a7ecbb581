// The typing of an expression: its parts are typed from left to right, and then its own premises are tested.

ghost use Rattle.std.specs.Prelude.{◌≡◌, ◌<◌, [], All, OnOk, length, map};
ghost use Rattle.mz_core.specs.TreeViews.{tree, declared_type};
ghost use Rattle.mz_tree.specs.Views.{tree as source};
ghost use Rattle.mz_tree.specs.declared.expr.Form.TheViews.{out-Form, out-LetItem, out-TextPart, out-TypeBase};
ghost use Rattle.mz_check_meaning.specs.Tests.{each, loop};
ghost use Rattle.mz_check_meaning.specs.Typing.{check};
ghost use Rattle.mz_check_meaning.specs.Forms.{parts, branch_next, from_left_of, from_right_of, gen_next, let_next, piece, based_part};
ghost use Rattle.mz_check_meaning.specs.Passes.{Passes};
ghost use Rattle.mz_check_context.specs.Known.{known};
ghost use Rattle.mz_check_context.specs.Extending.{Extends};
ghost use Rattle.mz_check_context.specs.Views.{typed_base};
ghost use Rattle.mz_check_exprs.specs.Naming.{IsNamed, IsNamedExpression, IsNamedPiece, IsNamedGen, IsNamedBase, IsNamedWritten, IsNamedDecl, IsNamedItem, IsNamedForm, IsNamedCallee};
ghost use Rattle.mz_check_exprs.specs.StepsForms.{expression, operand_by, branch_by, piece_layer, piece_by, gen_by, base_layer, base_by, type_by, local_next, item_layer, item_by, form_layer, accessed_by, gen_after};
ghost use Rattle.mz_check_exprs.specs.Views.{generated, declared_in, branched};

use crate::binding::{add_declaration, bind_names, new_name};
use crate::ending::{end_call, end_chain, end_comprehension, end_let};
use crate::laws::form_is_named;
use crate::texts::{group_right, prefixed, shown, texted};
use crate::written::absent_type;
use mz_base::{Kind, Span, Stop};
use mz_check_calls::{Chained, Operand, appended, applied};
use mz_check_context::{
    Context, Scope, TypedBase, TypedGen, TypedItem, bare_call, declared, named, running_type,
};
use mz_check_forms::{
    accessed, decided, fitted, listed, make_absent, make_bool, make_int, make_text, refusal,
    scalar, set_literal, tabled, var_of,
};
use mz_core::{Base, Core, CoreType};
use mz_tree::{Decl, Expr, Form, Gen, LetItem, PlacedOp, TextPart, TypeBase, TypeText};
use std::alloc::Global;

/// An expression, typed where these names are in scope; or the first fault. The scope is as it was, but where the expression is refused
/// or memory runs out: then some local names may still be in scope.
#[inline(always)]
#[cycle(typing)]
pub fn check(
    alloc: Global,
    context: &Context<'_>,
    scope: &mut Scope,
    e: &Expr,
) -> Result<Core, Stop>
    requires { IsNamed (length (known context.now).texts) (source e.now) }
    ensures passes { Passes tree result (check (known context.now) (source e.now) scope.old) }
    ensures kept { OnOk result (scope.new ≡ scope.old) }
{
    form_is_named(context, e);
    match &e.form {
        Form::Access(_, _) => check_access(alloc, context, scope, e),
        Form::Chain(_, _) => check_chain(alloc, context, scope, e),
        _ => check_other(alloc, context, scope, e),
    }
}

/// An access, by a function of its own: a tall tree has few forms but accesses and chains, so each of their levels takes little of the
/// stack.
#[inline(never)]
#[cycle(typing)]
fn check_access(
    alloc: Global,
    context: &Context<'_>,
    scope: &mut Scope,
    e: &Expr,
) -> Result<Core, Stop>
    requires parts { IsNamedForm (length (known context.now).texts) (out-Form e.now.form) }
    requires callee { IsNamedCallee (length (known context.now).texts) (out-Form e.now.form) }
    ensures passes { Passes tree result (form_layer (known context.now) (out-Form e.now.form) e.now.span scope.old) }
    ensures kept { OnOk result (scope.new ≡ scope.old) }
{
    match &e.form {
        Form::Access(x, xs) => {
            let of = check(alloc, context, scope, x)?;
            check_indices(alloc, context, scope, xs.as_slice(), e.span, of)
        }
        _ => check_other(alloc, context, scope, e),
    }
}

/// A chain, by a function of its own.
#[inline(never)]
#[cycle(typing)]
fn check_chain(
    alloc: Global,
    context: &Context<'_>,
    scope: &mut Scope,
    e: &Expr,
) -> Result<Core, Stop>
    requires parts { IsNamedForm (length (known context.now).texts) (out-Form e.now.form) }
    requires callee { IsNamedCallee (length (known context.now).texts) (out-Form e.now.form) }
    ensures passes { Passes tree result (form_layer (known context.now) (out-Form e.now.form) e.now.span scope.old) }
    ensures kept { OnOk result (scope.new ≡ scope.old) }
{
    match &e.form {
        Form::Chain(x, rest) => {
            let first = check(alloc, context, scope, x)?;
            if group_right(rest.as_slice()) {
                return check_right(alloc, context, scope, rest.as_slice(), e.span, first);
            }
            check_left(alloc, context, scope, rest.as_slice(), e.span, first)
        }
        _ => check_other(alloc, context, scope, e),
    }
}

#[inline(never)]
#[cycle(typing)]
fn check_other(
    alloc: Global,
    context: &Context<'_>,
    scope: &mut Scope,
    e: &Expr,
) -> Result<Core, Stop>
    requires parts { IsNamedForm (length (known context.now).texts) (out-Form e.now.form) }
    requires callee { IsNamedCallee (length (known context.now).texts) (out-Form e.now.form) }
    ensures passes { Passes tree result (form_layer (known context.now) (out-Form e.now.form) e.now.span scope.old) }
    ensures kept { OnOk result (scope.new ≡ scope.old) }
{
    check_form(alloc, context, scope, &e.form, e.span)
}

#[cycle(typing)]
fn check_form(
    alloc: Global,
    context: &Context<'_>,
    scope: &mut Scope,
    form: &Form,
    span: Span,
) -> Result<Core, Stop>
    requires parts { IsNamedForm (length (known context.now).texts) (out-Form form.now) }
    requires callee { IsNamedCallee (length (known context.now).texts) (out-Form form.now) }
    ensures passes { Passes tree result (form_layer (known context.now) (out-Form form.now) span scope.old) }
    ensures kept { OnOk result (scope.new ≡ scope.old) }
{
    match form {
        Form::Int(n) => Ok(make_int(span, scalar(alloc, Base::Int), *n)),
        Form::Bool(b) => Ok(make_bool(span, scalar(alloc, Base::Bool), *b)),
        Form::Absent => Ok(make_absent(span, absent_type(alloc))),
        Form::Text(content) => Ok(make_text(span, scalar(alloc, Base::Text), *content)),
        Form::Ident(name) => named(alloc, context, scope, span, *name),
        Form::Interp(ps) => {
            let pieces = check_pieces(alloc, context, scope, ps.as_slice(), span)?;
            texted(alloc, span, pieces)
        }
        Form::Unary(op, x) => {
            let operand = check(alloc, context, scope, x)?;
            prefixed(alloc, span, *op, operand)
        }
        Form::Chain(x, rest) => {
            let first = check(alloc, context, scope, x)?;
            if group_right(rest.as_slice()) {
                check_right(alloc, context, scope, rest.as_slice(), span, first)
            } else {
                check_left(alloc, context, scope, rest.as_slice(), span, first)
            }
        }
        Form::Call(name, xs) => {
            if xs.is_empty() {
                return bare_call(alloc, context, scope, span, *name);
            }
            let args = check_all(alloc, context, scope, xs.as_slice())?;
            applied(alloc, context, span, *name, args)
        }
        Form::GenCall(name, gs, x) => {
            let mark = scope.mark();
            let start = scope.next();
            let gens = check_gens(alloc, context, scope, gs.as_slice(), start)?;
            let head = check(alloc, context, scope, x)?;
            end_call(alloc, context, scope, mark, span, *name, gens, head)
        }
        Form::Access(x, xs) => {
            let of = check(alloc, context, scope, x)?;
            check_indices(alloc, context, scope, xs.as_slice(), span, of)
        }
        Form::Array(xs) => {
            let elements = check_all(alloc, context, scope, xs.as_slice())?;
            listed(alloc, span, elements)
        }
        Form::Rows(rows) => {
            let mut lines = Vec::new(alloc);
            for row in rows.as_slice() {
                let line = check_all(alloc, context, scope, row.as_slice())?;
                lines.push(line)?;
            }
            tabled(alloc, span, lines)
        }
        Form::Set(xs) => {
            let elements = check_all(alloc, context, scope, xs.as_slice())?;
            set_literal(alloc, span, elements)
        }
        Form::ArrayComp(x, gs) => {
            let mark = scope.mark();
            let start = scope.next();
            let gens = check_gens(alloc, context, scope, gs.as_slice(), start)?;
            let head = check(alloc, context, scope, x)?;
            end_comprehension(alloc, scope, mark, span, false, gens, head)
        }
        Form::SetComp(x, gs) => {
            let mark = scope.mark();
            let start = scope.next();
            let gens = check_gens(alloc, context, scope, gs.as_slice(), start)?;
            let head = check(alloc, context, scope, x)?;
            end_comprehension(alloc, scope, mark, span, true, gens, head)
        }
        Form::If(bs, other) => {
            let mut conds = Vec::new(alloc);
            let mut thens = Vec::new(alloc);
            check_branches(alloc, context, scope, bs.as_slice(), &mut conds, &mut thens)?;
            match other {
                None => decided(alloc, span, conds, thens, None),
                Some(x) => {
                    let last = check(alloc, context, scope, x)?;
                    decided(alloc, span, conds, thens, Some(last))
                }
            }
        }
        Form::Let(ls, x) => {
            let mark = scope.mark();
            let start = scope.next();
            let mut items = Vec::new(alloc);
            check_items(alloc, context, scope, ls.as_slice(), start, &mut items)?;
            let body = check(alloc, context, scope, x)?;
            end_let(alloc, scope, mark, span, items, body)
        }
        Form::Whole => Err(refusal(Kind::LeftOut, span)),
    }
}

/// An access, after what is accessed.
#[inline(never)]
#[cycle(typing)]
fn check_indices(
    alloc: Global,
    context: &Context<'_>,
    scope: &mut Scope,
    xs: &[Expr],
    span: Span,
    of: Core,
) -> Result<Core, Stop>
    requires { All (IsNamedExpression (length (known context.now).texts)) xs.now }
    ensures passes { Passes tree result (accessed_by span (tree of) (map (expression (known context.now)) xs.now) scope.old) }
    ensures kept { OnOk result (scope.new ≡ scope.old) }
{
    let indices = check_all(alloc, context, scope, xs)?;
    accessed(alloc, span, of, indices)
}

#[inline(never)]
#[cycle(typing)]
fn check_all(
    alloc: Global,
    context: &Context<'_>,
    scope: &mut Scope,
    es: &[Expr],
) -> Result<Vec<Core>, Stop>
    requires { All (IsNamedExpression (length (known context.now).texts)) es.now }
    ensures passes { Passes (λ v. map tree v.items) result (parts (map (expression (known context.now)) es.now) scope.old) }
    ensures kept { OnOk result (scope.new ≡ scope.old) }
{
    let mut all = Vec::with_capacity(alloc, es.len())?;
    for e in es {
        let part = check(alloc, context, scope, e)?;
        all.push(part)?;
    }
    Ok(all)
}

/// The pieces of a text, from the left.
#[inline(never)]
#[cycle(typing)]
fn check_pieces(
    alloc: Global,
    context: &Context<'_>,
    scope: &mut Scope,
    ps: &[TextPart],
    span: Span,
) -> Result<Vec<Core>, Stop>
    requires { All (λ p. IsNamedPiece (length (known context.now).texts) (out-TextPart p)) ps.now }
    ensures passes { Passes (λ v. map tree v.items) result (each (piece span scope.old) (map (piece_by (known context.now)) ps.now)) }
    ensures kept { OnOk result (scope.new ≡ scope.old) }
{
    let mut all = Vec::new(alloc);
    for p in ps {
        let part = check_piece(alloc, context, scope, p, span)?;
        all.push(part)?;
    }
    Ok(all)
}

#[inline(never)]
#[cycle(typing)]
fn check_piece(
    alloc: Global,
    context: &Context<'_>,
    scope: &mut Scope,
    p: &TextPart,
    span: Span,
) -> Result<Core, Stop>
    requires { IsNamedPiece (length (known context.now).texts) (out-TextPart p.now) }
    ensures passes { Passes tree result (piece span scope.old (piece_layer (known context.now) (out-TextPart p.now))) }
    ensures kept { OnOk result (scope.new ≡ scope.old) }
{
    match p {
        TextPart::Plain(content) => Ok(make_text(span, scalar(alloc, Base::Text), *content)),
        TextPart::Shown(x) => {
            let e = check(alloc, context, scope, x)?;
            shown(alloc, e)
        }
    }
}

/// A chain of operators that group to the left, after its first operand.
#[inline(never)]
#[cycle(typing)]
fn check_left(
    alloc: Global,
    context: &Context<'_>,
    scope: &mut Scope,
    rest: &[(PlacedOp, Expr)],
    span: Span,
    first: Core,
) -> Result<Core, Stop>
    requires { All (λ o. IsNamedExpression (length (known context.now).texts) o.1) rest.now }
    ensures passes { Passes tree result (from_left_of span (tree first) (map (operand_by (known context.now)) rest.now) scope.old) }
    ensures kept { OnOk result (scope.new ≡ scope.old) }
{
    let mut done = Chained::of(alloc, &first)?;
    for o in rest {
        let e = check(alloc, context, scope, &o.1)?;
        done.add_left(alloc, span, o.0, e)?;
    }
    end_chain(alloc, span, first, done)
}

/// A chain of operators that group to the right, after its first operand.
#[inline(never)]
#[cycle(typing)]
fn check_right(
    alloc: Global,
    context: &Context<'_>,
    scope: &mut Scope,
    rest: &[(PlacedOp, Expr)],
    span: Span,
    first: Core,
) -> Result<Core, Stop>
    requires { All (λ o. IsNamedExpression (length (known context.now).texts) o.1) rest.now }
    ensures passes { Passes tree result (from_right_of span (tree first) (map (operand_by (known context.now)) rest.now) scope.old) }
    ensures kept { OnOk result (scope.new ≡ scope.old) }
{
    let mut operands = Vec::new(alloc);
    for o in rest {
        let e = check(alloc, context, scope, &o.1)?;
        operands.push(Operand {
            operator: o.0,
            tree: e,
        })?;
    }
    appended(alloc, span, first, operands)
}

/// Adds the conditions of an `if`, and what stands after the `then` of each.
#[inline(never)]
#[cycle(typing)]
fn check_branches(
    alloc: Global,
    context: &Context<'_>,
    scope: &mut Scope,
    bs: &[(Expr, Expr)],
    conds: &mut Vec<Core>,
    thens: &mut Vec<Core>,
) -> Result<(), Stop>
    requires { All (λ b. IsNamedExpression (length (known context.now).texts) b.0 × IsNamedExpression (length (known context.now).texts) b.1) bs.now }
    ensures passes { Passes (λ _. branched conds.new.items thens.new.items) result (loop (branch_next scope.old) (branched conds.old.items thens.old.items) (map (branch_by (known context.now)) bs.now)) }
    ensures kept { OnOk result (scope.new ≡ scope.old) }
{
    for b in bs {
        let cond = check(alloc, context, scope, &b.0)?;
        let then = check(alloc, context, scope, &b.1)?;
        conds.push(cond)?;
        thens.push(then)?;
    }
    Ok(())
}

/// The generators of a comprehension, whose names stay in scope. `start` is the slot that was the next before them.
#[inline(never)]
#[cycle(typing)]
fn check_gens(
    alloc: Global,
    context: &Context<'_>,
    scope: &mut Scope,
    gs: &[Gen],
    start: u64,
) -> Result<Vec<TypedGen>, Stop>
    requires { All (IsNamedGen (length (known context.now).texts)) gs.now }
    ensures passes { Passes (λ v. generated v.items scope.new) result (loop (gen_next start) (generated [] scope.old) (map (gen_by (known context.now)) gs.now)) }
    ensures extends { OnOk result (Extends scope.old scope.new) }
{
    let mut all = Vec::new(alloc);
    for g in gs {
        check_gen(alloc, context, scope, g, start, &mut all)?;
    }
    Ok(all)
}

/// Adds one more generator.
#[inline(never)]
#[cycle(typing)]
fn check_gen(
    alloc: Global,
    context: &Context<'_>,
    scope: &mut Scope,
    g: &Gen,
    start: u64,
    all: &mut Vec<TypedGen>,
) -> Result<(), Stop>
    requires { IsNamedGen (length (known context.now).texts) g.now }
    ensures passes { Passes (λ _. generated all.new.items scope.new) result (gen_next start (generated all.old.items scope.old) (gen_by (known context.now) g.now)) }
    ensures extends { OnOk result (Extends scope.old scope.new) }
{
    let set = check(alloc, context, scope, &g.set)?;
    check_where(alloc, context, scope, g, set, start, all)
}

/// The same, after its set.
#[inline(never)]
#[cycle(typing)]
fn check_where(
    alloc: Global,
    context: &Context<'_>,
    scope: &mut Scope,
    g: &Gen,
    set: Core,
    start: u64,
    all: &mut Vec<TypedGen>,
) -> Result<(), Stop>
    requires { IsNamedGen (length (known context.now).texts) g.now }
    ensures passes { Passes (λ _. generated all.new.items scope.new) result (gen_after start (generated all.old.items scope.old) (gen_by (known context.now) g.now) (tree set)) }
    ensures extends { OnOk result (Extends scope.old scope.new) }
{
    let ty = running_type(alloc, &set)?;
    let slots = bind_names(alloc, start, &ty, g.names.as_slice(), scope)?;
    match &g.cond {
        None => {
            all.push(TypedGen {
                slots,
                set,
                cond: None,
            })?;
            Ok(())
        }
        Some(x) => {
            let cond = check(alloc, context, scope, x)?;
            all.push(TypedGen {
                slots,
                set,
                cond: Some(cond),
            })?;
            Ok(())
        }
    }
}

/// Adds the items of a `let`, whose names stay in scope. `start` is the slot that was the next before them.
#[inline(never)]
#[cycle(typing)]
fn check_items(
    alloc: Global,
    context: &Context<'_>,
    scope: &mut Scope,
    ls: &[LetItem],
    start: u64,
    all: &mut Vec<TypedItem>,
) -> Result<(), Stop>
    requires { All (λ l. IsNamedItem (length (known context.now).texts) (out-LetItem l)) ls.now }
    ensures passes { Passes (λ _. declared_in all.new.items scope.new) result (loop (let_next start) (declared_in all.old.items scope.old) (map (item_by (known context.now)) ls.now)) }
    ensures extends { OnOk result (Extends scope.old scope.new) }
{
    for l in ls {
        check_item(alloc, context, scope, l, start, all)?;
    }
    Ok(())
}

#[inline(never)]
#[cycle(typing)]
fn check_item(
    alloc: Global,
    context: &Context<'_>,
    scope: &mut Scope,
    l: &LetItem,
    start: u64,
    all: &mut Vec<TypedItem>,
) -> Result<(), Stop>
    requires { IsNamedItem (length (known context.now).texts) (out-LetItem l.now) }
    ensures passes { Passes (λ _. declared_in all.new.items scope.new) result (let_next start (declared_in all.old.items scope.old) (item_layer (known context.now) (out-LetItem l.now))) }
    ensures extends { OnOk result (Extends scope.old scope.new) }
{
    match l {
        LetItem::Decl(d) => check_local(alloc, context, scope, d, start, all),
        LetItem::Constraint(x) => {
            let e = check(alloc, context, scope, x)?;
            all.push(TypedItem::Constraint(e))?;
            Ok(())
        }
    }
}

/// Adds a declaration of a `let`: its type, then its name, then its value, in which the name isn't bound yet.
#[inline(never)]
#[cycle(typing)]
fn check_local(
    alloc: Global,
    context: &Context<'_>,
    scope: &mut Scope,
    d: &Decl,
    start: u64,
    all: &mut Vec<TypedItem>,
) -> Result<(), Stop>
    requires { IsNamedDecl (length (known context.now).texts) d.now }
    ensures passes { Passes (λ _. declared_in all.new.items scope.new) result (local_next (known context.now) start (declared_in all.old.items scope.old) d.now) }
    ensures extends { OnOk result (Extends scope.old scope.new) }
{
    let ty = check_type(alloc, context, scope, &d.ty)?;
    new_name(scope, start, d.name, d.span)?;
    match &d.value {
        None => {
            if !var_of(&ty.ty) {
                return Err(refusal(Kind::MissingData, d.span));
            }
            Ok(add_declaration(alloc, d.name, d.span, ty, None, all, scope)?)
        }
        Some(x) => {
            let e = check(alloc, context, scope, x)?;
            let value = fitted(alloc, e, &ty.ty)?;
            Ok(add_declaration(alloc, d.name, d.span, ty, Some(value), all, scope)?)
        }
    }
}

/// A written type: all its sets are typed, from left to right, and then they are tested.
#[inline(never)]
#[cycle(typing)]
pub(crate) fn check_type(
    alloc: Global,
    context: &Context<'_>,
    scope: &mut Scope,
    t: &TypeText,
) -> Result<CoreType, Stop>
    requires { IsNamedWritten (length (known context.now).texts) t.now }
    ensures passes { Passes declared_type result (type_by (known context.now) t.now scope.old) }
    ensures kept { OnOk result (scope.new ≡ scope.old) }
{
    match &t.dims {
        None => {
            let base = check_base(alloc, context, scope, &t.base)?;
            declared(alloc, t.span, t.var, t.opt, t.set, Vec::new(alloc), base)
        }
        Some(bs) => {
            let dims = check_bases(alloc, context, scope, bs.as_slice())?;
            let base = check_base(alloc, context, scope, &t.base)?;
            declared(alloc, t.span, t.var, t.opt, t.set, dims, base)
        }
    }
}

#[inline(never)]
#[cycle(typing)]
fn check_bases(
    alloc: Global,
    context: &Context<'_>,
    scope: &mut Scope,
    bs: &[TypeBase],
) -> Result<Vec<TypedBase>, Stop>
    requires { All (λ b. IsNamedBase (length (known context.now).texts) (out-TypeBase b)) bs.now }
    ensures passes { Passes (λ v. map typed_base v.items) result (each (based_part scope.old) (map (base_by (known context.now)) bs.now)) }
    ensures kept { OnOk result (scope.new ≡ scope.old) }
{
    let mut all = Vec::new(alloc);
    for b in bs {
        let base = check_base(alloc, context, scope, b)?;
        all.push(base)?;
    }
    Ok(all)
}

/// What stands where a type says which values there are.
#[inline(never)]
#[cycle(typing)]
fn check_base(
    alloc: Global,
    context: &Context<'_>,
    scope: &mut Scope,
    b: &TypeBase,
) -> Result<TypedBase, Stop>
    requires { IsNamedBase (length (known context.now).texts) (out-TypeBase b.now) }
    ensures passes { Passes typed_base result (based_part scope.old (base_layer (known context.now) (out-TypeBase b.now))) }
    ensures kept { OnOk result (scope.new ≡ scope.old) }
{
    match b {
        TypeBase::Bool => Ok(TypedBase::Bool),
        TypeBase::Int => Ok(TypedBase::Int),
        TypeBase::Of(x) => {
            let set = check(alloc, context, scope, x)?;
            Ok(TypedBase::Set(set))
        }
    }
}
