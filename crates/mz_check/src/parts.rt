// What comes between typing and the program.

use mz_core::{Core, CoreDecl, CoreFunction, CoreGoal};

/// The values, bodies and items of a model, typed.
#[derive(Drop)]
pub(crate) struct TypedItems {
    pub values: Vec<Option<Core>>,
    pub bodies: Vec<Core>,
    pub constraints: Vec<Core>,
    pub goal: CoreGoal,
    pub outputs: Vec<Core>,
}

/// The declarations, functions and items of a model, typed. Declarations stand in the order of evaluation.
#[derive(Drop)]
pub(crate) struct TypedSections {
    pub decls: Vec<CoreDecl>,
    pub functions: Vec<CoreFunction>,
    pub constraints: Vec<Core>,
    pub goal: CoreGoal,
    pub outputs: Vec<Core>,
}
