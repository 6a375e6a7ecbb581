// A typed program: its declarations, functions, constraints, objective and output items.

use crate::tree::{Core, CoreDecl, CoreType};
use mz_base::{Name, Span};
use mz_value::{Cases, TextValue};

/// A function with its name and the name's place.
#[derive(Drop)]
pub struct CoreFunction {
    pub name: Name,
    pub span: Span,
    pub params: Vec<CoreDecl>,
    pub result: CoreType,
    pub body: Core,
}

/// What is asked for.
#[derive(Drop)]
pub enum CoreGoal {
    Satisfy,
    Minimize(Core),
    Maximize(Core),
}

/// A typed program. Declarations, functions, constraints and output items stand in source order.
#[derive(Drop)]
pub struct Program {
    /// The names of each enum's cases.
    pub cases: Cases,
    /// The text of each name that stands for a text literal.
    pub texts: Vec<(Name, TextValue)>,
    pub decls: Vec<CoreDecl>,
    /// The places in `decls`, in the order in which the declarations are evaluated.
    pub order: Vec<u64>,
    pub functions: Vec<CoreFunction>,
    pub constraints: Vec<Core>,
    pub goal: CoreGoal,
    pub outputs: Vec<Core>,
}
