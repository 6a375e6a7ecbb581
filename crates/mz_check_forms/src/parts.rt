// Generators, declarations, items of lets and operators of chains, made from parts that are there.

ghost use Rattle.std.specs.Prelude.{◌≡◌, map};
ghost use Rattle.std.specs.Option.{option_map};
ghost use Rattle.mz_core.specs.Types.{plain_type};
ghost use Rattle.mz_core.specs.Paths.{path_links};
ghost use Rattle.mz_core.specs.Tree as pure;
ghost use Rattle.mz_core.specs.TreeViews.{tree, decl, declared_type, gen, item, step};

use mz_base::{Name, Span};
use mz_core::{Coercion, Core, CoreDecl, CoreGen, CoreItem, CoreStep, CoreType, TypeInst};

/// A generator over a set or an array, with a slot for each of its names.
pub fn make_generator(slots: Vec<u64>, set: Core, cond: Option<Core>) -> CoreGen
    ensures { gen result ≡ record { slots = slots.items; set = tree set; cond = option_map tree cond } }
{
    CoreGen { slots, set, cond }
}

/// A declared type, with an index set or `None` for each dimension, and the set of its values.
pub fn make_declared_type(
    span: Span,
    ty: TypeInst,
    index: Vec<Option<Core>>,
    set: Option<Core>,
) -> CoreType
    ensures { declared_type result ≡ record { span = span; ty = plain_type ty; index = map (option_map tree) index.items; set = option_map tree set } }
{
    CoreType {
        span,
        ty,
        index,
        set,
    }
}

pub fn make_declaration(
    slot: u64,
    name: Name,
    span: Span,
    ty: CoreType,
    value: Option<Core>,
) -> CoreDecl
    ensures { decl result ≡ record { slot = slot; name = name; span = span; ty = declared_type ty; value = option_map tree value } }
{
    CoreDecl {
        slot,
        name,
        span,
        ty,
        value,
    }
}

/// A declaration as an item of a `let`.
pub fn make_local(d: CoreDecl) -> CoreItem
    ensures { item result ≡ pure.declares (decl d) }
{
    CoreItem::Decl(d)
}

/// A constraint as an item of a `let`.
pub fn make_constraint(e: Core) -> CoreItem
    ensures { item result ≡ pure.constrains (tree e) }
{
    CoreItem::Constraint(e)
}

/// An operator of a chain, with the place where its second operand begins and the coercions of its two operands.
pub fn make_step(
    start: Span,
    row: u32,
    ty: TypeInst,
    left: Vec<(Coercion, TypeInst)>,
    right: Vec<(Coercion, TypeInst)>,
    operand: Core,
) -> CoreStep
    ensures { step result ≡ record { start = start; row = row; ty = plain_type ty; left = path_links left.items; right = path_links right.items; operand = tree operand } }
{
    CoreStep {
        start,
        row,
        ty,
        left,
        right,
        operand,
    }
}
