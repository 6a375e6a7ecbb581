// What a top-level name stands for.

/// What a name of the shared space of top-level names stands for.
#[derive(Clone, Copy, Debug, PartialEq, Eq)]
pub enum Meaning {
    /// A declaration, by its place in the order of evaluation, from 0. This number is its slot too.
    Decl(u64),
    /// A function without parameters, by its place among all functions in source order, from 0.
    Function(u64),
    /// An enum, by its place among the enums, from 0.
    Enum(u64),
    /// A case: the number of its enum, and the case's own number, from 1.
    Case(u64, i64),
}
