// Cells: what an evaluation has for an expression, and how types and coercions change it.
#![tactic(auto)]

mod bounding;
mod coercing;
mod making;
mod reading;
mod recasting;
mod sealing;
mod sharing;
mod types;

pub use bounding::{
    all_bounds, bound_of, bounds_as, bounds_in, empty_bound, is_set_base, no_bounds, scalar_bound,
};
pub use coercing::{coerced, coerced_to, coercion_work, enum_in};
pub use making::{
    array, copied_cell, known_of, one, row_of, set, text, undefined, var_cell, var_items, var_of,
    var_value,
};
pub use reading::{
    all_par, index_of, is_par, is_there, is_true, length_of, ranges_of, set_in, test_of, there,
};
pub use recasting::recast;
pub use sealing::{both_sure, guarded, is_truth, sealed_by, stays, surely, to_var, typed, unsure};
pub use sharing::{copied_value, given, share, share_bound, share_bounds, share_item};
pub use types::{Bound, Bounds, Item, Known, Origin, Origins, Sure, VarItems, VarValue};
