// Cases of `below`, `join_types` and `coercions`: a line for each pair of types.

use mz_base::Memory;
use mz_core::{Base, Ix, TypeInst, below, coercions, join_types, make_type};
use std::alloc::Global;

// a type's marks, its base, and its index types
fn push_type(out: &mut String, t: &TypeInst) -> Result<(), Memory> {
    if t.var {
        out.push_str("var ")?;
    }
    if t.opt {
        out.push_str("opt ")?;
    }
    let base = t.base;
    let dims = &t.dims;
    write!(out, "{base:?}{dims:?}")?;
    Ok(())
}

fn push_join(alloc: Global, out: &mut String, t: &TypeInst, u: &TypeInst) -> Result<(), Memory> {
    match join_types(alloc, t, u)? {
        None => out.push_str("; no join")?,
        Some(joined) => {
            out.push_str("; join ")?;
            push_type(out, &joined)?;
        }
    }
    Ok(())
}

fn push_path(alloc: Global, out: &mut String, t: &TypeInst, u: &TypeInst) -> Result<(), Memory> {
    if !below(t, u) {
        return Ok(out.push_str("; not below")?);
    }
    out.push_str("; below")?;
    for (coercion, to) in &coercions(alloc, t, u)? {
        write!(out, ", {coercion:?} ")?;
        push_type(out, to)?;
    }
    Ok(())
}

fn push_case(alloc: Global, out: &mut String, t: &TypeInst, u: &TypeInst) -> Result<(), Memory> {
    push_type(out, t)?;
    out.push_str(" and ")?;
    push_type(out, u)?;
    push_join(alloc, out, t, u)?;
    push_path(alloc, out, t, u)?;
    out.push_str("\n")?;
    Ok(())
}

// marks, a base and index types
#[derive(Drop)]
pub struct Parts<'a>(pub bool, pub bool, pub Base, pub &'a [Ix]);

pub fn make(alloc: Global, t: &Parts) -> Result<TypeInst, Memory> {
    make_type(alloc, t.0, t.1, t.2, t.3)
}

fn push_pair(alloc: Global, out: &mut String, t: &Parts, u: &Parts) -> Result<(), Memory> {
    let first = make(alloc, t)?;
    let second = make(alloc, u)?;
    push_case(alloc, out, &first, &second)
}

pub fn push_cases(alloc: Global, out: &mut String) -> Result<(), Memory> {
    let list = &[Ix::Int];
    for (t, u) in &[
        (
            Parts(false, false, Base::Bool, &[]),
            Parts(true, true, Base::Int, &[]),
        ),
        (
            Parts(false, false, Base::SetEnum(0), &[]),
            Parts(true, false, Base::Int, list),
        ),
        (
            Parts(false, false, Base::SetBottom, &[]),
            Parts(false, false, Base::Enum(1), list),
        ),
        (
            Parts(
                false,
                false,
                Base::Enum(0),
                &[Ix::Enum(0), Ix::Int, Ix::Enum(1)],
            ),
            Parts(false, false, Base::Int, &[Ix::Int, Ix::Int, Ix::Int]),
        ),
        (
            Parts(false, false, Base::Int, list),
            Parts(false, false, Base::Int, list),
        ),
        (
            Parts(false, false, Base::Enum(0), &[]),
            Parts(false, false, Base::Enum(1), &[]),
        ),
        (
            Parts(false, false, Base::Bool, &[Ix::Enum(0)]),
            Parts(true, false, Base::Enum(1), &[Ix::Enum(1)]),
        ),
        (
            Parts(false, false, Base::SetEnum(0), &[]),
            Parts(false, false, Base::Bool, list),
        ),
        (
            Parts(false, false, Base::Bottom, &[]),
            Parts(false, false, Base::Bool, list),
        ),
        (
            Parts(false, false, Base::SetBottom, &[]),
            Parts(false, false, Base::Bottom, list),
        ),
        (
            Parts(false, true, Base::Bottom, &[]),
            Parts(false, false, Base::SetInt, &[]),
        ),
        (
            Parts(false, false, Base::Text, &[]),
            Parts(false, false, Base::Int, &[]),
        ),
    ] {
        push_pair(alloc, out, t, u)?;
    }
    Ok(())
}
