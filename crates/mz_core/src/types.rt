// Types, and what goes from one type to another.

/// What a scalar is, or each element of an array.
///
/// An enum goes by its number. `SetBottom` is the base of `{}`, and `Bottom` that of the elements of
/// `[]` and of `<>`.
#[derive(Clone, Copy, Debug, PartialEq, Eq)]
pub enum Base {
    Bool,
    Int,
    Enum(u64),
    SetInt,
    SetEnum(u64),
    SetBottom,
    Text,
    Bottom,
}

/// The type of an index: an integer, or a case of the enum with this number.
#[derive(Clone, Copy, Debug, PartialEq, Eq)]
pub enum Ix {
    Int,
    Enum(u64),
}

/// A type.
///
/// `dims` has the index type of each dimension of an array, and nothing for a scalar; `var`, `opt`
/// and `base` are those of the scalar or of the array's elements.
#[derive(Debug, Drop)]
pub struct TypeInst {
    pub var: bool,
    pub opt: bool,
    pub base: Base,
    pub dims: Vec<Ix>,
}

/// The types of a function's or an operator's parameters, in order, and of its result.
#[derive(Debug, Drop)]
pub struct Signature {
    pub params: Vec<TypeInst>,
    pub result: TypeInst,
}

/// One step from a type to a higher one. Of an array it coerces each element, but for `IndexToInt`,
/// which coerces an index, and for `SetToArray`, which makes an array of a set's elements in
/// ascending order.
#[derive(Clone, Copy, Debug, PartialEq, Eq)]
pub enum Coercion {
    ToVar,
    BoolToInt,
    EnumToInt,
    SetEnumToSetInt,
    ToOpt,
    SetToArray,
    IndexToInt,
    BottomToBase,
    SetBottomToSet,
}
