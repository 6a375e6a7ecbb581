// The names outside that expressions, declarations and types use.

ghost use Rattle.std.specs.Prelude.{◌≡◌, ◌++◌, OnOk, map};
ghost use Rattle.mz_tree.specs.Tree.{trees, links, branches, parts, gens, lets, bases};
ghost use Rattle.mz_tree.specs.Views.{tree, part, generator, let_of, declaration, written, based, link, branch};
ghost use Rattle.mz_scope_names.specs.Uses.{with_bound, with_generator, with_gens, with_declaration, with_let, with_lets, in_tree, in_trees, in_links, in_branches, in_part, in_parts, in_generator, in_gens, in_let, in_lets, in_declaration, in_written, in_based, in_bases};

use crate::adding::{applied, mention};
use crate::{NameSet, NameUse};
use mz_base::{Memory, Name, Span};
use mz_tree::{Decl, Expr, Form, Gen, LetItem, PlacedOp, TextPart, TypeBase, TypeText};

/// Adds the names that an expression uses where these are hidden.
#[cycle(walk)]
pub(crate) fn in_expression(
    out: &mut Vec<NameUse>,
    hidden: &mut NameSet,
    e: &Expr,
) -> Result<(), Memory>
    ensures uses { OnOk result (out.new.items ≡ out.old.items ++ in_tree hidden.old (tree e.now)) }
    ensures hidden { OnOk result (hidden.new ≡ hidden.old) }
{
    match &e.form {
        Form::Int(_) => Ok(()),
        Form::Bool(_) => Ok(()),
        Form::Absent => Ok(()),
        Form::Text(_) => Ok(()),
        Form::Ident(n) => mention(out, hidden, *n),
        Form::Interp(ps) => in_pieces(out, hidden, ps.as_slice()),
        Form::Unary(_, x) => in_expression(out, hidden, x),
        Form::Chain(x, rest) => {
            in_expression(out, hidden, x)?;
            in_operands(out, hidden, rest.as_slice())
        }
        Form::Call(n, xs) => {
            applied(out, hidden, *n, xs.is_empty())?;
            in_all(out, hidden, xs.as_slice())
        }
        Form::GenCall(n, gs, x) => {
            let depth = hidden.len();
            applied(out, hidden, *n, false)?;
            in_generators(out, hidden, gs.as_slice())?;
            in_expression(out, hidden, x)?;
            hidden.truncate(depth);
            Ok(())
        }
        Form::Access(x, xs) => {
            in_expression(out, hidden, x)?;
            in_all(out, hidden, xs.as_slice())
        }
        Form::Array(xs) => in_all(out, hidden, xs.as_slice()),
        Form::Rows(rs) => {
            for row in rs.as_slice() {
                in_all(out, hidden, row.as_slice())?;
            }
            Ok(())
        }
        Form::Set(xs) => in_all(out, hidden, xs.as_slice()),
        Form::ArrayComp(x, gs) => {
            let depth = hidden.len();
            in_generators(out, hidden, gs.as_slice())?;
            in_expression(out, hidden, x)?;
            hidden.truncate(depth);
            Ok(())
        }
        Form::SetComp(x, gs) => {
            let depth = hidden.len();
            in_generators(out, hidden, gs.as_slice())?;
            in_expression(out, hidden, x)?;
            hidden.truncate(depth);
            Ok(())
        }
        Form::If(bs, other) => {
            in_choices(out, hidden, bs.as_slice())?;
            match other {
                Some(x) => in_expression(out, hidden, x),
                None => Ok(()),
            }
        }
        Form::Let(ls, x) => {
            let depth = hidden.len();
            in_let_items(out, hidden, ls.as_slice())?;
            in_expression(out, hidden, x)?;
            hidden.truncate(depth);
            Ok(())
        }
        Form::Whole => Ok(()),
    }
}

#[cycle(walk)]
fn in_all(out: &mut Vec<NameUse>, hidden: &mut NameSet, es: &[Expr]) -> Result<(), Memory>
    ensures uses { OnOk result (out.new.items ≡ out.old.items ++ in_trees hidden.old (trees (map tree es.now))) }
    ensures hidden { OnOk result (hidden.new ≡ hidden.old) }
{
    for e in es {
        in_expression(out, hidden, e)?;
    }
    Ok(())
}

#[cycle(walk)]
fn in_operands(
    out: &mut Vec<NameUse>,
    hidden: &mut NameSet,
    rest: &[(PlacedOp, Expr)],
) -> Result<(), Memory>
    ensures uses { OnOk result (out.new.items ≡ out.old.items ++ in_links hidden.old (links (map link rest.now))) }
    ensures hidden { OnOk result (hidden.new ≡ hidden.old) }
{
    for operand in rest {
        in_expression(out, hidden, &operand.1)?;
    }
    Ok(())
}

#[cycle(walk)]
fn in_choices(
    out: &mut Vec<NameUse>,
    hidden: &mut NameSet,
    choices: &[(Expr, Expr)],
) -> Result<(), Memory>
    ensures uses { OnOk result (out.new.items ≡ out.old.items ++ in_branches hidden.old (branches (map branch choices.now))) }
    ensures hidden { OnOk result (hidden.new ≡ hidden.old) }
{
    for choice in choices {
        in_expression(out, hidden, &choice.0)?;
        in_expression(out, hidden, &choice.1)?;
    }
    Ok(())
}

#[cycle(walk)]
fn in_pieces(
    out: &mut Vec<NameUse>,
    hidden: &mut NameSet,
    pieces: &[TextPart],
) -> Result<(), Memory>
    ensures uses { OnOk result (out.new.items ≡ out.old.items ++ in_parts hidden.old (parts (map part pieces.now))) }
    ensures hidden { OnOk result (hidden.new ≡ hidden.old) }
{
    for piece in pieces {
        in_piece(out, hidden, piece)?;
    }
    Ok(())
}

#[cycle(walk)]
fn in_piece(out: &mut Vec<NameUse>, hidden: &mut NameSet, piece: &TextPart) -> Result<(), Memory>
    ensures uses { OnOk result (out.new.items ≡ out.old.items ++ in_part hidden.old (part piece.now)) }
    ensures hidden { OnOk result (hidden.new ≡ hidden.old) }
{
    match piece {
        TextPart::Plain(_) => Ok(()),
        TextPart::Shown(e) => in_expression(out, hidden, e),
    }
}

/// Hides the names that a generator binds.
fn hide_bound(hidden: &mut NameSet, names: &[(Name, Span)]) -> Result<(), Memory>
    ensures { OnOk result (hidden.new ≡ with_bound hidden.old names.now) }
{
    for name in names {
        hidden.add(name.0)?;
    }
    Ok(())
}

/// Adds what a generator uses, and hides its names.
#[cycle(walk)]
fn in_one(out: &mut Vec<NameUse>, hidden: &mut NameSet, g: &Gen) -> Result<(), Memory>
    ensures uses { OnOk result (out.new.items ≡ out.old.items ++ in_generator hidden.old (generator g.now)) }
    ensures hidden { OnOk result (hidden.new ≡ with_generator hidden.old (generator g.now)) }
{
    in_expression(out, hidden, &g.set)?;
    hide_bound(hidden, g.names.as_slice())?;
    match &g.cond {
        Some(condition) => in_expression(out, hidden, condition),
        None => Ok(()),
    }
}

#[cycle(walk)]
fn in_generators(out: &mut Vec<NameUse>, hidden: &mut NameSet, gs: &[Gen]) -> Result<(), Memory>
    ensures uses { OnOk result (out.new.items ≡ out.old.items ++ in_gens hidden.old (gens (map generator gs.now))) }
    ensures hidden { OnOk result (hidden.new ≡ with_gens hidden.old (gens (map generator gs.now))) }
{
    for g in gs {
        in_one(out, hidden, g)?;
    }
    Ok(())
}

/// Adds what an item of a `let` uses, and hides the name that it declares.
#[cycle(walk)]
fn in_let_item(out: &mut Vec<NameUse>, hidden: &mut NameSet, item: &LetItem) -> Result<(), Memory>
    ensures uses { OnOk result (out.new.items ≡ out.old.items ++ in_let hidden.old (let_of item.now)) }
    ensures hidden { OnOk result (hidden.new ≡ with_let hidden.old (let_of item.now)) }
{
    match item {
        LetItem::Decl(d) => in_local(out, hidden, d),
        LetItem::Constraint(e) => in_expression(out, hidden, e),
    }
}

/// Adds what a declaration in a `let` uses, and hides its name.
#[cycle(walk)]
fn in_local(out: &mut Vec<NameUse>, hidden: &mut NameSet, d: &Decl) -> Result<(), Memory>
    ensures uses { OnOk result (out.new.items ≡ out.old.items ++ in_declaration hidden.old (declaration d.now)) }
    ensures hidden { OnOk result (hidden.new ≡ with_declaration hidden.old (declaration d.now)) }
{
    in_type(out, hidden, &d.ty)?;
    match &d.value {
        Some(value) => {
            in_expression(out, hidden, value)?;
            hidden.add(d.name)
        }
        None => hidden.add(d.name),
    }
}

#[cycle(walk)]
fn in_let_items(
    out: &mut Vec<NameUse>,
    hidden: &mut NameSet,
    items: &[LetItem],
) -> Result<(), Memory>
    ensures uses { OnOk result (out.new.items ≡ out.old.items ++ in_lets hidden.old (lets (map let_of items.now))) }
    ensures hidden { OnOk result (hidden.new ≡ with_lets hidden.old (lets (map let_of items.now))) }
{
    for item in items {
        in_let_item(out, hidden, item)?;
    }
    Ok(())
}

/// Adds what a written type uses.
#[cycle(walk)]
pub(crate) fn in_type(
    out: &mut Vec<NameUse>,
    hidden: &mut NameSet,
    t: &TypeText,
) -> Result<(), Memory>
    ensures uses { OnOk result (out.new.items ≡ out.old.items ++ in_written hidden.old (written t.now)) }
    ensures hidden { OnOk result (hidden.new ≡ hidden.old) }
{
    match &t.dims {
        Some(dims) => {
            in_dims(out, hidden, dims.as_slice())?;
            in_base(out, hidden, &t.base)
        }
        None => in_base(out, hidden, &t.base),
    }
}

#[cycle(walk)]
fn in_dims(out: &mut Vec<NameUse>, hidden: &mut NameSet, dims: &[TypeBase]) -> Result<(), Memory>
    ensures uses { OnOk result (out.new.items ≡ out.old.items ++ in_bases hidden.old (bases (map based dims.now))) }
    ensures hidden { OnOk result (hidden.new ≡ hidden.old) }
{
    for dim in dims {
        in_base(out, hidden, dim)?;
    }
    Ok(())
}

#[cycle(walk)]
fn in_base(out: &mut Vec<NameUse>, hidden: &mut NameSet, base: &TypeBase) -> Result<(), Memory>
    ensures uses { OnOk result (out.new.items ≡ out.old.items ++ in_based hidden.old (based base.now)) }
    ensures hidden { OnOk result (hidden.new ≡ hidden.old) }
{
    match base {
        TypeBase::Bool => Ok(()),
        TypeBase::Int => Ok(()),
        TypeBase::Of(e) => in_expression(out, hidden, e),
    }
}
