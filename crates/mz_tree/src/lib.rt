// The syntax trees of files, and which names stand in data.
#![tactic(auto)]

mod data;
mod expr;
mod height;
mod item;
mod law;
#[tactic(auto, unfolding(crate::specs::Views::tree, crate::specs::Views::shape, crate::specs::Views::let_of, crate::specs::Views::part, crate::specs::Views::based, crate::specs::Views::declaration, crate::specs::Views::generator, crate::specs::Views::written))]
mod make;
#[tactic(auto, unfolding(crate::specs::Data::value))]
mod make_data;
mod names_law;
#[tactic(auto, unfolding(crate::specs::Views::tree, crate::specs::Views::shape, crate::specs::Views::let_of, crate::specs::Views::part, crate::specs::Views::based, crate::specs::Views::declaration, crate::specs::Views::generator, crate::specs::Views::written))]
mod parts;
mod source;

pub use data::{Data, DataItem, Datum};
pub use expr::{
    BinOp, Decl, Expr, Form, Gen, LetItem, PlacedOp, TextPart, TypeBase, TypeText, UnOp,
};
pub use height::HEIGHT_LIMIT;
pub use item::{Function, Goal, Item};
pub use law::names_and_places;
pub use make::{
    make_absent, make_access, make_array, make_array_comp, make_bool, make_call, make_chain,
    make_gen_call, make_ident, make_if, make_int, make_interp, make_let, make_rows, make_set,
    make_set_comp, make_text, make_unary,
};
pub use make_data::{
    make_absent_datum, make_array_datum, make_array_nd_datum, make_bool_datum, make_ident_datum,
    make_int_datum, make_range_datum, make_rows_datum, make_set_datum,
};
pub use names_law::names_stay;
pub use parts::{
    make_bool_base, make_declaration, make_generator, make_int_base, make_let_constraint,
    make_let_declaration, make_plain, make_scalar, make_set_base, make_shown,
};
pub use source::{SourceFile, Sources};
