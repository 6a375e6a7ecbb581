// What a call calls.

/// What a call or an operator calls.
#[derive(Clone, Copy, Debug, PartialEq, Eq)]
pub enum Callee {
    /// A function of the model, by its place among all functions in source order, from 0.
    Function(u64),
    /// An operator, built-in or global, by its number in the table.
    Row(u32),
}
