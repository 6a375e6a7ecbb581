// What holds of each form of an expression when its parts are typed: its own premises, and its typed node.
#![tactic(auto)]

mod access;
mod branches;
mod coerce;
mod joins;
mod kinds;
mod literals;
mod look;
mod make;
mod parts;

pub use access::accessed;
pub use branches::decided;
pub use coerce::{all_coerced, allowed_at, coerced, coercions_to, condition, each_to, fitted};
pub use kinds::{
    base_of, dims_of, element_of, is_allowed, is_scalar, is_set_type, list_of, made_var, mismatch,
    refusal, scalar, typed_as, var_of,
};
pub use literals::{is_var, listed, member_base, set_base, set_literal, some_var, tabled};
pub use look::{place_of, type_of};
pub use make::{
    make_absent, make_access, make_array, make_bool, make_builtin, make_call, make_case,
    make_chain, make_coercion, make_comprehension, make_enum_set, make_if, make_int, make_let,
    make_rows, make_set, make_slot, make_text,
};
pub use parts::{
    make_constraint, make_declaration, make_declared_type, make_generator, make_local, make_step,
};
