// Typed expressions, made from their place, their type and their parts.

ghost use Rattle.std.specs.Prelude.{◌≡◌, IfOk, map};
ghost use Rattle.std.specs.Option.{option_map};
ghost use Rattle.mz_core.specs.Types.{plain_type};
ghost use Rattle.mz_core.specs.Tree as pure;
ghost use Rattle.mz_core.specs.TreeViews.{tree, branch, gen, item, step};

use mz_base::{Memory, Name, Span};
use mz_core::{Coercion, Core, CoreForm, CoreGen, CoreItem, CoreStep, TypeInst};
use std::alloc::Global;

pub fn make_bool(span: Span, ty: TypeInst, b: bool) -> Core
    ensures { tree result ≡ pure.node span (plain_type ty) (pure.bool b) }
{
    Core {
        span,
        ty,
        form: CoreForm::Bool(b),
    }
}

pub fn make_int(span: Span, ty: TypeInst, n: i64) -> Core
    ensures { tree result ≡ pure.node span (plain_type ty) (pure.int n) }
{
    Core {
        span,
        ty,
        form: CoreForm::Int(n),
    }
}

/// A case of an enum, by the enum's number and its own, of which the first is 1.
pub fn make_case(span: Span, ty: TypeInst, of: u64, number: i64) -> Core
    ensures { tree result ≡ pure.node span (plain_type ty) (pure.case of number) }
{
    Core {
        span,
        ty,
        form: CoreForm::Enum(of, number),
    }
}

pub fn make_text(span: Span, ty: TypeInst, content: Name) -> Core
    ensures { tree result ≡ pure.node span (plain_type ty) (pure.text content) }
{
    Core {
        span,
        ty,
        form: CoreForm::Text(content),
    }
}

/// `<>`
pub fn make_absent(span: Span, ty: TypeInst) -> Core
    ensures { tree result ≡ pure.node span (plain_type ty) pure.absent }
{
    Core {
        span,
        ty,
        form: CoreForm::Absent,
    }
}

/// The set of all cases of an enum.
pub fn make_enum_set(span: Span, ty: TypeInst, of: u64) -> Core
    ensures { tree result ≡ pure.node span (plain_type ty) (pure.enum_set of) }
{
    Core {
        span,
        ty,
        form: CoreForm::EnumSet(of),
    }
}

pub fn make_slot(span: Span, ty: TypeInst, slot: u64) -> Core
    ensures { tree result ≡ pure.node span (plain_type ty) (pure.slot slot) }
{
    Core {
        span,
        ty,
        form: CoreForm::Slot(slot),
    }
}

fn chain_node(span: Span, ty: TypeInst, first: Box<Core>, steps: Vec<CoreStep>) -> Core
    ensures { tree result ≡ pure.node span (plain_type ty) (pure.chain (tree first.value) (pure.steps (map step steps.items))) }
{
    Core {
        span,
        ty,
        form: CoreForm::Chain(first, steps),
    }
}

/// The first operand, and the operators of one level with their other operands.
pub fn make_chain(
    alloc: Global,
    span: Span,
    ty: TypeInst,
    first: Core,
    steps: Vec<CoreStep>,
) -> Result<Core, Memory>
    ensures { IfOk result (λ x. tree x ≡ pure.node span (plain_type ty) (pure.chain (tree first) (pure.steps (map step steps.items)))) }
{
    let first = Box::new(alloc, first)?;
    Ok(chain_node(span, ty, first, steps))
}

/// A row of the table of built-ins, by its number.
pub fn make_builtin(span: Span, ty: TypeInst, row: u32, args: Vec<Core>) -> Core
    ensures { tree result ≡ pure.node span (plain_type ty) (pure.builtin row (pure.trees (map tree args.items))) }
{
    Core {
        span,
        ty,
        form: CoreForm::Builtin(row, args),
    }
}

/// A function, by its place among the program's.
pub fn make_call(span: Span, ty: TypeInst, function: u64, args: Vec<Core>) -> Core
    ensures { tree result ≡ pure.node span (plain_type ty) (pure.call function (pure.trees (map tree args.items))) }
{
    Core {
        span,
        ty,
        form: CoreForm::Call(function, args),
    }
}

pub fn make_access(
    alloc: Global,
    span: Span,
    ty: TypeInst,
    of: Core,
    indices: Vec<Core>,
) -> Result<Core, Memory>
    ensures { IfOk result (λ x. tree x ≡ pure.node span (plain_type ty) (pure.access (tree of) (pure.trees (map tree indices.items)))) }
{
    let of = Box::new(alloc, of)?;
    Ok(Core {
        span,
        ty,
        form: CoreForm::Access(of, indices),
    })
}

pub fn make_array(span: Span, ty: TypeInst, elements: Vec<Core>) -> Core
    ensures { tree result ≡ pure.node span (plain_type ty) (pure.array (pure.trees (map tree elements.items))) }
{
    Core {
        span,
        ty,
        form: CoreForm::Array(elements),
    }
}

/// An array literal of two dimensions.
pub fn make_rows(span: Span, ty: TypeInst, lines: Vec<Vec<Core>>) -> Core
    ensures { tree result ≡ pure.node span (plain_type ty) (pure.rows (pure.rows_of (map (λ r. map tree r.items) lines.items))) }
{
    Core {
        span,
        ty,
        form: CoreForm::Rows(lines),
    }
}

pub fn make_set(span: Span, ty: TypeInst, elements: Vec<Core>) -> Core
    ensures { tree result ≡ pure.node span (plain_type ty) (pure.set (pure.trees (map tree elements.items))) }
{
    Core {
        span,
        ty,
        form: CoreForm::Set(elements),
    }
}

fn comprehension_node(
    span: Span,
    ty: TypeInst,
    braces: bool,
    head: Box<Core>,
    generators: Vec<CoreGen>,
) -> Core
    ensures { tree result ≡ pure.node span (plain_type ty) (pure.comp braces (tree head.value) (pure.gens (map gen generators.items))) }
{
    Core {
        span,
        ty,
        form: CoreForm::Comp(braces, head, generators),
    }
}

/// A comprehension, in braces or not.
pub fn make_comprehension(
    alloc: Global,
    span: Span,
    ty: TypeInst,
    braces: bool,
    head: Core,
    generators: Vec<CoreGen>,
) -> Result<Core, Memory>
    ensures { IfOk result (λ x. tree x ≡ pure.node span (plain_type ty) (pure.comp braces (tree head) (pure.gens (map gen generators.items)))) }
{
    let head = Box::new(alloc, head)?;
    Ok(comprehension_node(span, ty, braces, head, generators))
}

/// Conditions, each with its branch, and an `else` where there is one.
pub fn make_if(
    alloc: Global,
    span: Span,
    ty: TypeInst,
    cases: Vec<(Core, Core)>,
    other: Option<Core>,
) -> Result<Core, Memory>
    ensures { IfOk result (λ x. tree x ≡ pure.node span (plain_type ty) (pure.choice (pure.branches (map branch cases.items)) (pure.maybe (option_map tree other)))) }
{
    let other = match other {
        None => None,
        Some(other) => Some(Box::new(alloc, other)?),
    };
    Ok(Core {
        span,
        ty,
        form: CoreForm::If(cases, other),
    })
}

fn let_node(span: Span, ty: TypeInst, items: Vec<CoreItem>, body: Box<Core>) -> Core
    ensures { tree result ≡ pure.node span (plain_type ty) (pure.let_in (pure.items (map item items.items)) (tree body.value)) }
{
    Core {
        span,
        ty,
        form: CoreForm::Let(items, body),
    }
}

/// Items, each of which sees the declarations before it, and the body, which sees all.
pub fn make_let(
    alloc: Global,
    span: Span,
    ty: TypeInst,
    items: Vec<CoreItem>,
    body: Core,
) -> Result<Core, Memory>
    ensures { IfOk result (λ x. tree x ≡ pure.node span (plain_type ty) (pure.let_in (pure.items (map item items.items)) (tree body))) }
{
    let body = Box::new(alloc, body)?;
    Ok(let_node(span, ty, items, body))
}

/// One step of coercion, to this type.
pub fn make_coercion(
    alloc: Global,
    span: Span,
    ty: TypeInst,
    coercion: Coercion,
    inner: Core,
) -> Result<Core, Memory>
    ensures { IfOk result (λ x. tree x ≡ pure.node span (plain_type ty) (pure.coerce coercion (tree inner))) }
{
    let inner = Box::new(alloc, inner)?;
    Ok(Core {
        span,
        ty,
        form: CoreForm::Coerce(coercion, inner),
    })
}
