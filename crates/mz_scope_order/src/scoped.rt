// The scoped model.

use crate::subject::Subject;
use mz_base::{Name, Span};
use mz_tree::{DataItem, Decl, Expr, Function, Goal};

/// An enum with its cases, whose numbers are their places here, from 1. Cases from data have the place of the data's value.
#[derive(Drop)]
pub struct ScopedEnum {
    pub name: Name,
    pub span: Span,
    pub cases: Vec<(Name, Span)>,
}

/// A declaration at top level, with its value: its own, or else the one that an assignment item gives.
#[derive(Clone, Copy)]
pub struct ScopedDecl<'a> {
    pub decl: &'a Decl,
    pub value: Option<&'a Expr>,
}

/// A model whose names are tested and whose declarations stand in the order of evaluation. All else stands in the order of the
/// text, the files one after the other. It refers to the trees of the files and of the data, and copies none.
#[derive(Drop)]
pub struct Scoped<'a> {
    /// The enums: the number of one is its place here, from 0.
    pub enums: Vec<ScopedEnum>,
    /// Each declaration at top level, in order of evaluation.
    pub decls: Vec<ScopedDecl<'a>>,
    pub functions: Vec<&'a Function>,
    /// All declarations and functions, each once and after those that its types refer to.
    pub types: Vec<Subject>,
    pub constraints: Vec<&'a Expr>,
    /// What the first solve item asks for. None, where there is no solve item.
    pub goal: Option<&'a Goal>,
    pub outputs: Vec<&'a Expr>,
    /// The items of the data, but for those of enums.
    pub given: Vec<&'a DataItem>,
}
