// The occurrences of names in expressions, declarations and types, in the order of the text.

ghost use Rattle.std.specs.Prelude.{◌≡◌, ◌++◌, OnOk, map};
ghost use Rattle.mz_tree.specs.Tree.{trees, links, branches, parts, gens, lets, bases};
ghost use Rattle.mz_tree.specs.Views.{tree, part, generator, let_of, declaration, written, based, link, branch};
ghost use Rattle.mz_scope_names.specs.Occurrences.{bound, in_tree, in_trees, in_links, in_branches, in_part, in_parts, in_generator, in_gens, in_let, in_lets, in_local, in_written, in_based, in_bases};

use crate::occurrence::{Occurrence, Role, note};
use mz_base::{Memory, Name, Span};
use mz_tree::{Decl, Expr, Form, Gen, LetItem, PlacedOp, TextPart, TypeBase, TypeText};

/// Adds the names that an expression uses, and those that are local in it.
#[cycle(walk)]
pub(crate) fn in_expression(out: &mut Vec<Occurrence>, e: &Expr) -> Result<(), Memory>
    ensures { OnOk result (out.new.items ≡ out.old.items ++ in_tree (tree e.now)) }
{
    match &e.form {
        Form::Int(_) => Ok(()),
        Form::Bool(_) => Ok(()),
        Form::Absent => Ok(()),
        Form::Text(_) => Ok(()),
        Form::Ident(n) => note(out, Role::Used, *n, e.span),
        Form::Interp(ps) => in_pieces(out, ps.as_slice()),
        Form::Unary(_, x) => in_expression(out, x),
        Form::Chain(x, rest) => {
            in_expression(out, x)?;
            in_operands(out, rest.as_slice())
        }
        Form::Call(n, xs) => {
            note(out, Role::Used, *n, e.span)?;
            in_all(out, xs.as_slice())
        }
        Form::GenCall(n, gs, x) => {
            note(out, Role::Used, *n, e.span)?;
            in_generators(out, gs.as_slice())?;
            in_expression(out, x)
        }
        Form::Access(x, xs) => {
            in_expression(out, x)?;
            in_all(out, xs.as_slice())
        }
        Form::Array(xs) => in_all(out, xs.as_slice()),
        Form::Rows(rs) => {
            for row in rs.as_slice() {
                in_all(out, row.as_slice())?;
            }
            Ok(())
        }
        Form::Set(xs) => in_all(out, xs.as_slice()),
        Form::ArrayComp(x, gs) => {
            in_expression(out, x)?;
            in_generators(out, gs.as_slice())
        }
        Form::SetComp(x, gs) => {
            in_expression(out, x)?;
            in_generators(out, gs.as_slice())
        }
        Form::If(bs, other) => {
            in_choices(out, bs.as_slice())?;
            match other {
                Some(x) => in_expression(out, x),
                None => Ok(()),
            }
        }
        Form::Let(ls, x) => {
            in_let_items(out, ls.as_slice())?;
            in_expression(out, x)
        }
        Form::Whole => Ok(()),
    }
}

#[cycle(walk)]
fn in_all(out: &mut Vec<Occurrence>, es: &[Expr]) -> Result<(), Memory>
    ensures { OnOk result (out.new.items ≡ out.old.items ++ in_trees (trees (map tree es.now))) }
{
    for e in es {
        in_expression(out, e)?;
    }
    Ok(())
}

#[cycle(walk)]
fn in_operands(out: &mut Vec<Occurrence>, rest: &[(PlacedOp, Expr)]) -> Result<(), Memory>
    ensures { OnOk result (out.new.items ≡ out.old.items ++ in_links (links (map link rest.now))) }
{
    for operand in rest {
        in_expression(out, &operand.1)?;
    }
    Ok(())
}

#[cycle(walk)]
fn in_choices(out: &mut Vec<Occurrence>, choices: &[(Expr, Expr)]) -> Result<(), Memory>
    ensures { OnOk result (out.new.items ≡ out.old.items ++ in_branches (branches (map branch choices.now))) }
{
    for choice in choices {
        in_expression(out, &choice.0)?;
        in_expression(out, &choice.1)?;
    }
    Ok(())
}

#[cycle(walk)]
fn in_pieces(out: &mut Vec<Occurrence>, pieces: &[TextPart]) -> Result<(), Memory>
    ensures { OnOk result (out.new.items ≡ out.old.items ++ in_parts (parts (map part pieces.now))) }
{
    for piece in pieces {
        in_piece(out, piece)?;
    }
    Ok(())
}

#[cycle(walk)]
fn in_piece(out: &mut Vec<Occurrence>, piece: &TextPart) -> Result<(), Memory>
    ensures { OnOk result (out.new.items ≡ out.old.items ++ in_part (part piece.now)) }
{
    match piece {
        TextPart::Plain(_) => Ok(()),
        TextPart::Shown(e) => in_expression(out, e),
    }
}

/// Adds the names that a generator binds.
fn in_bound(out: &mut Vec<Occurrence>, names: &[(Name, Span)]) -> Result<(), Memory>
    ensures { OnOk result (out.new.items ≡ out.old.items ++ map bound names.now) }
{
    for name in names {
        note(out, Role::Local, name.0, name.1)?;
    }
    Ok(())
}

#[cycle(walk)]
fn in_generators(out: &mut Vec<Occurrence>, generators: &[Gen]) -> Result<(), Memory>
    ensures { OnOk result (out.new.items ≡ out.old.items ++ in_gens (gens (map generator generators.now))) }
{
    for g in generators {
        in_generator(out, g)?;
    }
    Ok(())
}

#[cycle(walk)]
fn in_generator(out: &mut Vec<Occurrence>, g: &Gen) -> Result<(), Memory>
    ensures { OnOk result (out.new.items ≡ out.old.items ++ in_generator (generator g.now)) }
{
    in_bound(out, g.names.as_slice())?;
    in_expression(out, &g.set)?;
    match &g.cond {
        Some(condition) => in_expression(out, condition),
        None => Ok(()),
    }
}

#[cycle(walk)]
fn in_let_items(out: &mut Vec<Occurrence>, items: &[LetItem]) -> Result<(), Memory>
    ensures { OnOk result (out.new.items ≡ out.old.items ++ in_lets (lets (map let_of items.now))) }
{
    for item in items {
        in_let_item(out, item)?;
    }
    Ok(())
}

#[cycle(walk)]
fn in_let_item(out: &mut Vec<Occurrence>, item: &LetItem) -> Result<(), Memory>
    ensures { OnOk result (out.new.items ≡ out.old.items ++ in_let (let_of item.now)) }
{
    match item {
        LetItem::Decl(d) => in_local(out, d),
        LetItem::Constraint(e) => in_expression(out, e),
    }
}

/// Adds the occurrences of a declaration in a `let`.
#[cycle(walk)]
fn in_local(out: &mut Vec<Occurrence>, d: &Decl) -> Result<(), Memory>
    ensures { OnOk result (out.new.items ≡ out.old.items ++ in_local (declaration d.now)) }
{
    in_type(out, &d.ty)?;
    note(out, Role::Local, d.name, d.span)?;
    match &d.value {
        Some(value) => in_expression(out, value),
        None => {
            if d.ty.var {
                Ok(())
            } else {
                note(out, Role::Lacking, d.name, d.span)
            }
        }
    }
}

/// Adds the names that a written type uses.
#[cycle(walk)]
pub(crate) fn in_type(out: &mut Vec<Occurrence>, t: &TypeText) -> Result<(), Memory>
    ensures { OnOk result (out.new.items ≡ out.old.items ++ in_written (written t.now)) }
{
    match &t.dims {
        Some(dims) => {
            in_dims(out, dims.as_slice())?;
            in_base(out, &t.base)
        }
        None => in_base(out, &t.base),
    }
}

#[cycle(walk)]
fn in_dims(out: &mut Vec<Occurrence>, dims: &[TypeBase]) -> Result<(), Memory>
    ensures { OnOk result (out.new.items ≡ out.old.items ++ in_bases (bases (map based dims.now))) }
{
    for dim in dims {
        in_base(out, dim)?;
    }
    Ok(())
}

#[cycle(walk)]
fn in_base(out: &mut Vec<Occurrence>, base: &TypeBase) -> Result<(), Memory>
    ensures { OnOk result (out.new.items ≡ out.old.items ++ in_based (based base.now)) }
{
    match base {
        TypeBase::Bool => Ok(()),
        TypeBase::Int => Ok(()),
        TypeBase::Of(e) => in_expression(out, e),
    }
}
