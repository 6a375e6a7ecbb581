// What prints a model's solutions.

use crate::Line;
use crate::names::TopName;
use mz_base::Names;
use mz_core::Program;

/// What prints a model's solutions: its program and names, and what is worked out of them once.
#[derive(Drop)]
pub struct SolutionPrinter<'a> {
    pub names: &'a Names,
    pub program: &'a Program,
    pub top: Vec<TopName>,
    /// The place of each name's slot among those of the decision variables.
    pub places: Vec<Option<usize>>,
    /// The lines of the default text.
    pub lines: Vec<Line>,
    pub budget: u64,
    pub int_range: i64,
}
