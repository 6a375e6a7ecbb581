// The types of this crate.

use mz_eval_cells::Known;
use mz_eval_guards::Guard;

/// Names with their cells, and whether all that is declared holds.
#[derive(Drop)]
pub struct Names {
    pub slots: Vec<u64>,
    pub cells: Vec<Known>,
    pub holds: Guard,
}
