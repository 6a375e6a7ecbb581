// The first declaration without a bound in typed expressions, declarations and types.

ghost use Rattle.std.specs.Prelude.{◌≡◌, map};
ghost use Rattle.std.specs.List.{flat_map, list_any};
ghost use Rattle.std.specs.Option.{option_map};
ghost use Rattle.std.specs.Prelude.{is_none};
ghost use Rattle.mz_core.specs.Types as types;
ghost use Rattle.mz_core.specs.declared.tree.CoreForm.TheViews.{out-CoreForm};
ghost use Rattle.mz_core.specs.TreeViews.{tree, declared_type, decl, gen, step, item, branch, form_layer};
ghost use Rattle.mz_meaning.specs.Unbounded.{unbounded_in};
ghost use Rattle.mz_model_unbounded.specs.Firsts.{first_place};
ghost use Rattle.mz_model_unbounded.specs.StepsLayers.{has_no_bound, in_if, in_type, in_all, in_sets, in_branch, in_step, in_generator, in_local, in_item, in_layer, is_unbounded};

use crate::places::note_if;
use mz_base::Span;
use mz_core::{Base, Core, CoreDecl, CoreForm, CoreGen, CoreItem, CoreStep, CoreType};

fn is_nothing(m: &Option<Core>) -> bool
    ensures { result ≡ is_none (option_map tree m.now) }
{
    match m {
        None => true,
        Some(_) => false,
    }
}

// whether some index is `int`
fn some_nothing(ms: &[Option<Core>]) -> bool
    ensures { result ≡ list_any is_none (map (option_map tree) ms.now) }
{
    for m in ms {
        if is_nothing(m) {
            return true;
        }
    }
    false
}

// whether this is the base of a set
fn is_set(b: Base) -> bool
    ensures { result ≡ types.is_set b }
{
    match b {
        Base::SetInt => true,
        Base::SetEnum(_) => true,
        Base::SetBottom => true,
        _ => false,
    }
}

// whether a type has an index `int`, or is that of a set without a greatest one
#[tactic(auto, unfolding(mz_core::specs::Types::plain_type))]
fn has_no_bound(t: &CoreType) -> bool
    ensures { result ≡ has_no_bound (declared_type t.now) }
{
    some_nothing(t.index.as_slice()) || (is_set(t.ty.base) && is_nothing(&t.set))
}

// whether a declaration has neither a value nor a bound
fn is_unbounded(d: &CoreDecl) -> bool
    ensures { result ≡ is_unbounded (decl d.now) }
{
    is_nothing(&d.value) && has_no_bound(&d.ty)
}

/// Goes on with the first place in an expression.
#[cycle(unbounded)]
pub(crate) fn in_tree(found: &mut Option<Span>, e: &Core)
    ensures { found.new ≡ first_place found.old (unbounded_in (tree e.now)) }
{
    in_form(found, &e.form);
}

#[cycle(unbounded)]
#[tactic(auto, using(crate::proofs::Firsts::first_of_none))]
fn in_form(found: &mut Option<Span>, form: &CoreForm)
    ensures { found.new ≡ first_place found.old (in_layer (form_layer (out-CoreForm form.now))) }
{
    match form {
        CoreForm::Bool(_) => {}
        CoreForm::Int(_) => {}
        CoreForm::Enum(_, _) => {}
        CoreForm::Text(_) => {}
        CoreForm::Absent => {}
        CoreForm::EnumSet(_) => {}
        CoreForm::Slot(_) => {}
        CoreForm::Whole => {}
        CoreForm::Chain(x, steps) => {
            in_tree(found, x);
            in_steps(found, steps.as_slice());
        }
        CoreForm::Builtin(_, xs) => in_all(found, xs.as_slice()),
        CoreForm::Call(_, xs) => in_all(found, xs.as_slice()),
        CoreForm::Access(x, xs) => {
            in_tree(found, x);
            in_all(found, xs.as_slice());
        }
        CoreForm::Array(xs) => in_all(found, xs.as_slice()),
        CoreForm::Rows(rows) => {
            for row in rows.as_slice() {
                in_all(found, row.as_slice());
            }
        }
        CoreForm::Set(xs) => in_all(found, xs.as_slice()),
        CoreForm::Comp(_, x, gens) => {
            in_tree(found, x);
            in_generators(found, gens.as_slice());
        }
        CoreForm::If(branches, other) => {
            in_branches(found, branches.as_slice());
            match other {
                None => {}
                Some(x) => in_tree(found, x),
            }
        }
        CoreForm::Let(items, x) => {
            in_items(found, items.as_slice());
            in_tree(found, x);
        }
        CoreForm::Coerce(_, x) => in_tree(found, x),
    }
}

#[cycle(unbounded)]
pub(crate) fn in_all(found: &mut Option<Span>, es: &[Core])
    ensures { found.new ≡ first_place found.old (in_all (map tree es.now)) }
{
    for e in es {
        in_tree(found, e);
    }
}

#[cycle(unbounded)]
fn in_steps(found: &mut Option<Span>, steps: &[CoreStep])
    ensures { found.new ≡ first_place found.old (flat_map in_step (map step steps.now)) }
{
    for s in steps {
        in_tree(found, &s.operand);
    }
}

#[cycle(unbounded)]
fn in_branches(found: &mut Option<Span>, branches: &[(Core, Core)])
    ensures { found.new ≡ first_place found.old (flat_map in_branch (map branch branches.now)) }
{
    for b in branches {
        in_tree(found, &b.0);
        in_tree(found, &b.1);
    }
}

#[cycle(unbounded)]
#[tactic(auto, using(crate::proofs::Firsts::first_of_none))]
pub(crate) fn in_option(found: &mut Option<Span>, m: &Option<Core>)
    ensures { found.new ≡ first_place found.old (in_if (option_map tree m.now)) }
{
    match m {
        None => {}
        Some(e) => in_tree(found, e),
    }
}

#[cycle(unbounded)]
fn in_sets(found: &mut Option<Span>, ms: &[Option<Core>])
    ensures { found.new ≡ first_place found.old (in_sets (map (option_map tree) ms.now)) }
{
    for m in ms {
        match m {
            None => {}
            Some(e) => in_tree(found, e),
        }
    }
}

#[cycle(unbounded)]
fn in_generators(found: &mut Option<Span>, gens: &[CoreGen])
    ensures { found.new ≡ first_place found.old (flat_map in_generator (map gen gens.now)) }
{
    for g in gens {
        in_tree(found, &g.set);
        in_option(found, &g.cond);
    }
}

/// Goes on with the first place in the sets of a declared type.
#[cycle(unbounded)]
#[tactic(auto, using(crate::proofs::Firsts::first_append))]
pub(crate) fn in_type(found: &mut Option<Span>, t: &CoreType)
    ensures { found.new ≡ first_place found.old (in_type (declared_type t.now)) }
{
    in_sets(found, t.index.as_slice());
    in_option(found, &t.set);
}

#[cycle(unbounded)]
#[tactic(auto, using(crate::proofs::Firsts::first_append))]
pub(crate) fn in_local(found: &mut Option<Span>, d: &CoreDecl)
    ensures { found.new ≡ first_place found.old (in_local (decl d.now)) }
{
    note_if(found, is_unbounded(d), &d.span);
    in_type(found, &d.ty);
    in_option(found, &d.value);
}

#[cycle(unbounded)]
fn in_items(found: &mut Option<Span>, items: &[CoreItem])
    ensures { found.new ≡ first_place found.old (flat_map in_item (map item items.now)) }
{
    for i in items {
        in_item(found, i);
    }
}

#[cycle(unbounded)]
fn in_item(found: &mut Option<Span>, i: &CoreItem)
    ensures { found.new ≡ first_place found.old (in_item (item i.now)) }
{
    match i {
        CoreItem::Decl(d) => in_local(found, d),
        CoreItem::Constraint(e) => in_tree(found, e),
    }
}
