// What an evaluation makes step by step: the nodes of operators and globals with their work and types, the arguments of rows, the branches of an `if`, and the contexts of parts.
#![tactic(auto)]

mod arguments;
mod branches;
mod contexts;
mod counting;
mod globals;
mod nodes;
mod operands;
mod types;

pub use arguments::{argument_of, arguments_base, kind_of};
pub use branches::with_branch;
pub use contexts::{
    arguments_within, contexts_before, elsewhere, first_within, is_settled, left_within,
    operand_within, right_within, within,
};
pub use counting::counted;
pub use globals::operated_global;
pub use mz_eval_arrays::{Gathered, array_cell_in, nothing_gathered, set_cell};
pub use mz_eval_globals::global_numbered;
pub use mz_eval_row_cells::row_at;
pub use nodes::{
    node_of_numbers, node_of_pars, node_of_two, untyped_all, untyped_one, untyped_two,
};
pub use operands::{append_operand, appended_nodes, nothing_appended, operated_on, prepared};
pub use types::Appended;
