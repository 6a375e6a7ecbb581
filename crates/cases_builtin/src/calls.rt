// Cases of `signatures`, `fitting` and `choose`, and of the names and numbers of the table: a line
// for each call.

use crate::order::{Parts, make};
use mz_base::Memory;
use mz_builtin::{built_ins, fitting, global, globals, known, signatures};
use mz_core::{Base, Ix, Signature, TypeInst};
use mz_overload::{Resolution, choose};
use std::alloc::Global;

// Parts the numbers of entries from their signatures.
fn push_parted(
    all: Vec<(u32, Signature)>,
    numbers: &mut Vec<u32>,
    types: &mut Vec<Signature>,
) -> Result<(), Memory> {
    for (number, signature) in all {
        numbers.push(number)?;
        types.push(signature)?;
    }
    Ok(())
}

fn push_resolution(out: &mut String, numbers: &[u32], found: Resolution) -> Result<(), Memory> {
    match found {
        Resolution::One(k) => {
            let taken = numbers.get(k as usize).copied();
            write!(out, "takes {k}, entry {taken:?}")?;
        }
        Resolution::NoneFits => out.push_str("none fits")?,
        Resolution::Ambiguous => out.push_str("ambiguous")?,
    }
    Ok(())
}

fn push_call(alloc: Global, out: &mut String, name: &str, args: &[TypeInst]) -> Result<(), Memory> {
    let all = signatures(alloc, name, args)?.len();
    let few = fitting(alloc, name, args)?;
    let fit = few.len();
    write!(out, "{name}: {all} signatures, {fit} fit, ")?;
    let mut numbers = Vec::new(alloc);
    let mut types = Vec::new(alloc);
    push_parted(few, &mut numbers, &mut types)?;
    push_resolution(out, &numbers, choose(&types, args))?;
    out.push_str("\n")?;
    Ok(())
}

fn push_case(alloc: Global, out: &mut String, name: &str, args: &[Parts]) -> Result<(), Memory> {
    let mut types = Vec::new(alloc);
    for t in args {
        types.push(make(alloc, t)?)?;
    }
    push_call(alloc, out, name, &types)
}

fn push_name(out: &mut String, name: &str) -> Result<(), Memory> {
    let is_known = known(name);
    write!(out, "{name}: known {is_known}\n")?;
    Ok(())
}

fn push_number(out: &mut String, number: u32) -> Result<(), Memory> {
    let place = global(number);
    write!(out, "{number}: global {place:?}\n")?;
    Ok(())
}

fn push_table(out: &mut String) -> Result<(), Memory> {
    let count = built_ins().len() + globals().len();
    write!(out, "{count} entries\n")?;
    for name in ["/\\", "array6d", "circuit", "all", ""] {
        push_name(out, name)?;
    }
    for number in [0, 92, 93, 131] {
        push_number(out, number)?;
    }
    Ok(())
}

pub fn push_calls(alloc: Global, out: &mut String) -> Result<(), Memory> {
    let list = &[Ix::Int];
    for (name, args) in &[
        (
            "+",
            &[
                Parts(false, false, Base::Bool, &[]),
                Parts(false, false, Base::Int, &[]),
            ] as &[Parts],
        ),
        (
            "=",
            &[
                Parts(false, false, Base::Enum(3), &[]),
                Parts(true, false, Base::Enum(3), &[]),
            ],
        ),
        (
            "array3d",
            &[
                Parts(false, false, Base::SetEnum(1), &[]),
                Parts(false, false, Base::SetEnum(2), &[]),
                Parts(false, false, Base::SetEnum(3), &[]),
                Parts(false, false, Base::Int, list),
            ],
        ),
        ("length", &[Parts(false, false, Base::Bottom, list)]),
        (
            "<",
            &[
                Parts(false, false, Base::SetInt, &[]),
                Parts(false, false, Base::SetInt, &[]),
            ],
        ),
        ("nothing", &[]),
    ] {
        push_case(alloc, out, name, args)?;
    }
    push_table(out)
}
