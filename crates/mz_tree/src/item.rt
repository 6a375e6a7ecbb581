// The items of a model's files.

use crate::expr::{Decl, Expr, TypeText};
use mz_base::{Name, Span};

/// What a solve item asks for.
#[derive(Debug, Drop)]
pub enum Goal {
    Satisfy,
    Minimize(Expr),
    Maximize(Expr),
}

/// An item. A `Span` is the place of the name or of `solve`; for `Include` that of its text.
#[derive(Debug)]
pub enum Item {
    Include(Name, Span),
    Decl(Decl),
    Assign(Name, Span, Expr),
    Constraint(Expr),
    Solve(Span, Goal),
    Output(Expr),
    Function(Function),
    Enum(Name, Span, Option<Vec<(Name, Span)>>),
    Annotation(Name),
}

impl Drop for Item {
    fn drop(self) {
        match self {
            Item::Include(_, _) => {}
            Item::Decl(_declaration) => {}
            Item::Assign(_, _, _value) => {}
            Item::Constraint(_constraint) => {}
            Item::Solve(_, _goal) => {}
            Item::Output(_text) => {}
            Item::Function(_function) => {}
            Item::Enum(_, _, _cases) => {}
            Item::Annotation(_) => {}
        }
    }
}

/// A function, a predicate or a test, with the place of its name.
#[derive(Debug, Drop)]
pub struct Function {
    pub name: Name,
    pub span: Span,
    pub result: TypeText,
    pub params: Vec<Decl>,
    pub body: Expr,
}
