// What has types.

/// A declaration or a function, by its place in the scoped model, from 0.
#[derive(Clone, Copy, Debug, PartialEq, Eq)]
pub enum Subject {
    Decl(u64),
    Function(u64),
}
