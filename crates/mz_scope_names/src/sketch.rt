// What a declaration or a function uses.

use crate::name_use::NameUse;
use mz_base::Name;

/// What a declaration or a function uses of the names outside.
#[derive(Drop)]
pub struct Sketch {
    pub name: Name,
    /// Whether it is a function with parameters.
    pub applied: bool,
    /// What its type uses, or the types of its parameters and of its result.
    pub types: Vec<NameUse>,
    /// What its value uses, or its body.
    pub rest: Vec<NameUse>,
}
