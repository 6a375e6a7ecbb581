// What goes through evaluations, and through those of calls and comprehensions.

use mz_base::Span;
use mz_core::{Core, CoreFunction, CoreGen};
use mz_eval_comprehensions::Elements;
use mz_eval_guards::Guard;
use mz_eval_scopes::{Context, Scope, World};
use std::alloc::Global;

/// An evaluation at one level of nesting and in one place: its memory, its world, how many levels are
/// left below, and whether free locals may be evaluated.
#[derive(Clone, Copy)]
pub struct Level<'a> {
    pub alloc: Global,
    pub world: &'a World<'a>,
    pub left: u64,
    pub ctx: Context,
}

/// A call of a function: its place, and the scope in which its arguments are evaluated.
#[derive(Clone, Copy)]
pub struct Call<'a> {
    pub function: &'a CoreFunction,
    pub at: Span,
    pub scope: &'a Scope<'a>,
}

/// The scope of a call so far, how many elements the arrays among the arguments in it have, and whether
/// these arguments suit their parameters.
#[derive(Clone, Copy)]
pub struct CallScope<'a> {
    pub scope: &'a Scope<'a>,
    pub elements: u64,
    pub holds: Guard,
}

/// A comprehension's head and place.
#[derive(Clone, Copy)]
pub struct Comprehension<'a> {
    pub head: &'a Core,
    pub at: Span,
}

/// A generator whose set is evaluated: what its names run over, and what follows for each of their
/// values, which is its condition, the generators after it and the comprehension's head.
#[derive(Clone, Copy)]
pub struct Generator<'a> {
    pub elements: &'a Elements<'a>,
    pub cond: &'a Option<Core>,
    pub others: &'a [CoreGen],
    pub whole: &'a Comprehension<'a>,
}

/// A name of a generator, and the names after it.
#[derive(Clone, Copy)]
pub struct Slots<'a> {
    pub first: u64,
    pub others: &'a [u64],
}
