// What lets and calls make step by step, under every reading: names with their cells and guards,
// free locals, the arguments and results of calls, and the work and weight of what is declared.
#![tactic(auto)]

mod choosing;
mod conditions;
mod counting;
mod guarding;
mod joining;
mod naming;
mod suiting;
mod types;
mod values;

pub use choosing::chosen_in;
pub use counting::{counted, declared_weight, handed};
pub use guarding::{guarded_in, resulting};
pub use joining::both_hold;
pub use naming::{constrained, nothing_bound, with_local};
pub use suiting::{kept_by, plain_suits, suited};
pub use types::Names;
