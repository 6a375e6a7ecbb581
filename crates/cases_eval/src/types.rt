// Types as words: `var`, `opt`, a base and a number of dimensions, as `int`, `vint`, `vobool`, `e0`, `sint`, `se0` and `int*2`.

use mz_base::Memory;
use mz_core::{Base, Coercion, Ix, TypeInst};
use std::alloc::Global;

fn base_of(word: &str) -> Base {
    match word {
        "bool" => Base::Bool,
        "int" => Base::Int,
        "sint" => Base::SetInt,
        "sbottom" => Base::SetBottom,
        "text" => Base::Text,
        "e0" => Base::Enum(0),
        "e1" => Base::Enum(1),
        "se0" => Base::SetEnum(0),
        "se1" => Base::SetEnum(1),
        _ => Base::Bottom,
    }
}

/// The type of a word.
pub fn type_of(alloc: Global, word: &str) -> Result<TypeInst, Memory> {
    let (scalar, count) = match word.split_once('*') {
        Some((scalar, count)) => (scalar, count.parse::<u64>().unwrap_or(0)),
        None => (word, 0),
    };
    let (var, rest) = match scalar.strip_prefix("v") {
        Some(rest) => (true, rest),
        None => (false, scalar),
    };
    let (opt, rest) = match rest.strip_prefix("o") {
        Some(rest) => (true, rest),
        None => (false, rest),
    };
    let mut dims = Vec::new(alloc);
    for _ in 0..count {
        dims.push(Ix::Int)?;
    }
    Ok(TypeInst {
        var,
        opt,
        base: base_of(rest),
        dims,
    })
}

/// The coercion of a word.
pub fn coercion_of(word: &str) -> Coercion {
    match word {
        "var" => Coercion::ToVar,
        "bool2int" => Coercion::BoolToInt,
        "enum2int" => Coercion::EnumToInt,
        "setenum2int" => Coercion::SetEnumToSetInt,
        "opt" => Coercion::ToOpt,
        "set2array" => Coercion::SetToArray,
        "index2int" => Coercion::IndexToInt,
        "bottomset" => Coercion::SetBottomToSet,
        _ => Coercion::BottomToBase,
    }
}
