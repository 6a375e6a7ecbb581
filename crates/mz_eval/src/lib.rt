// The cells of expressions in a run, and the values of par ones.
#![tactic(auto)]

mod calls;
mod choices;
mod comprehensions;
mod forms;
mod globals;
mod locals;
mod operators;
mod plain_calls;
mod top_call;
mod types;
mod weights;

pub use mz_eval_chains::place_of;
pub use mz_eval_names::{counted, declared_weight};
pub use mz_eval_scopes::Env;
pub use top_call::{evaluated, expanded, value};
