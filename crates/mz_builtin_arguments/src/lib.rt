// The arguments of operations: what each is, sets that are made of sets, and copies of values.
#![tactic(auto)]

mod arguments;
mod copy;
mod set;
mod view;

pub use arguments::{
    argument, bool_at, case_at, element_at, enum_at, index_at, int_at, items_at, option_at,
    ordinal_at, pair, row_at, set_at, text_at,
};
pub use copy::{copied, copied_items, copied_text, push_copies};
pub use set::{
    combined, contains, difference, end_of, intersection, is_number, is_subset, same_set, union,
    up_to,
};
pub use view::{
    as_bool, as_case, as_element, as_index, as_int, as_items, as_option, as_ordinal, as_pair,
    as_row, as_set, as_text, enum_of, is_absent, is_bounded, is_fixable,
};
