// The types of this crate.

use mz_arena::{Id, ModelVar, ParValue};

/// What is made of names: variables, the nodes that say that they have their values, and the values of
/// par names.
#[derive(Drop)]
pub(crate) struct Taken {
    pub(crate) vars: Vec<ModelVar>,
    pub(crate) roots: Vec<Id>,
    pub(crate) pars: Vec<ParValue>,
}
