// Types and coercions as texts.

use cases::Page;
use mz_core::{Base, Coercion, Ix, TypeInst};

fn base_word(base: Base) -> &'static str {
    match base {
        Base::Bool => "bool",
        Base::Int => "int",
        Base::Enum(_) => "enum ",
        Base::SetInt => "set of int",
        Base::SetEnum(_) => "set of enum ",
        Base::SetBottom => "set of bottom",
        Base::Text => "text",
        Base::Bottom => "bottom",
    }
}

/// A base, with the number of its enum.
fn put_base(page: &mut Page, base: Base) {
    page.put(base_word(base));
    match base {
        Base::Enum(e) => page.put(e),
        Base::SetEnum(e) => page.put(e),
        _ => {}
    }
}

fn put_index(page: &mut Page, index: Ix) {
    match index {
        Ix::Int => page.put("int"),
        Ix::Enum(e) => page.put(format_args!("enum {e}")),
    }
}

/// The index types of an array, in brackets.
fn put_dims(page: &mut Page, dims: &[Ix]) {
    let mut open = "array[";
    for index in dims {
        page.put(open);
        put_index(page, *index);
        open = ", ";
    }
    page.put("] of ");
}

/// A type.
pub fn put_type(page: &mut Page, t: &TypeInst) {
    if !t.dims.is_empty() {
        put_dims(page, t.dims.as_slice());
    }
    if t.var {
        page.put("var ");
    }
    if t.opt {
        page.put("opt ");
    }
    put_base(page, t.base);
}

/// The mark of a coercion.
pub fn mark_of(coercion: Coercion) -> &'static str {
    match coercion {
        Coercion::ToVar => "'v",
        Coercion::BoolToInt => "'i",
        Coercion::EnumToInt => "'e",
        Coercion::SetEnumToSetInt => "'s",
        Coercion::ToOpt => "'o",
        Coercion::SetToArray => "'a",
        Coercion::IndexToInt => "'x",
        Coercion::BottomToBase => "'b",
        Coercion::SetBottomToSet => "'t",
    }
}

/// The marks of coercions, in their order.
pub fn put_marks(page: &mut Page, coercions: &[(Coercion, TypeInst)]) {
    for c in coercions {
        page.put(mark_of(c.0));
    }
}
