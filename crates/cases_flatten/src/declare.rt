// Variables of the model.

use crate::draft::Draft;
use crate::set::{index, places, set};
use mz_arena::{Id, ModelVar, Node, NodeKind, VarCell};
use mz_base::Memory;
use mz_value::{RangeSet, ShapeBase};
use std::alloc::Global;

/// What the values of a variable are.
#[derive(Clone, Copy)]
pub struct Declared {
    /// Whether they may be absent.
    pub opt: bool,
    /// The kind of their nodes.
    pub kind: NodeKind,
    /// 1 of truth values, else 0.
    pub mark: u64,
}

/// What a word declares: `int`, `bool`, `set`, `optint` or `optbool`.
pub fn kind_of(word: &str) -> Option<Declared> {
    let opt = word.starts_with("opt");
    let base = match word.strip_prefix("opt") {
        Some(rest) => rest,
        None => word,
    };
    if base == "int" {
        return Some(Declared {
            opt,
            kind: NodeKind::Var,
            mark: 0,
        });
    }
    if base == "bool" {
        return Some(Declared {
            opt,
            kind: NodeKind::Var,
            mark: 1,
        });
    }
    if base == "set" {
        return Some(Declared {
            opt,
            kind: NodeKind::SetVar,
            mark: 0,
        });
    }
    None
}

fn base_of(d: Declared) -> ShapeBase {
    match d.kind {
        NodeKind::SetVar => ShapeBase::SetInt,
        _ => {
            if d.mark == 1 {
                ShapeBase::Bool
            } else {
                ShapeBase::Int
            }
        }
    }
}

// The node of the next part, over a set.
fn part(
    draft: &mut Draft,
    kind: NodeKind,
    mark: u64,
    domain: RangeSet,
) -> Result<Option<Id>, Memory> {
    let a = given!(draft.arena.set_const(domain));
    let number = draft.own();
    let b = draft.parts;
    draft.parts = b.wrapping_add(1);
    draft.node(Node {
        kind,
        a,
        b,
        c: mark,
        number,
    })
}

// A word of a cell: the name, with a point and its place where it stands in an array, and with `?` where it is the
// occurrence.
fn cell_word(alloc: Global, name: &str, place: u64, end: &str) -> Result<String, Memory> {
    let mut text = String::from_str(alloc, name)?;
    if place > 0 {
        text.push('.')?;
        text.write(place)?;
    }
    text.push_str(end)?;
    Ok(text)
}

// The occurrence of an option.
fn occurrence(
    alloc: Global,
    draft: &mut Draft,
    name: &str,
    place: u64,
) -> Result<Option<Id>, Memory> {
    let truths = RangeSet::range(alloc, 0, 1)?;
    let id = given!(part(draft, NodeKind::Var, 1, truths));
    if let Some(id) = id {
        let text = given!(cell_word(alloc, name, place, "?"));
        given!(draft.label(text, id));
    }
    Ok(id)
}

// A cell, at a place from 1 of an array, or at 0 of a scalar.
fn cell(
    alloc: Global,
    draft: &mut Draft,
    d: Declared,
    name: &str,
    place: u64,
    domain: &RangeSet,
) -> Result<Option<VarCell>, Memory> {
    let occurs = if d.opt {
        given!(occurrence(alloc, draft, name, place))
    } else {
        None
    };
    let own = domain.copy(alloc)?;
    let Some(term) = given!(part(draft, d.kind, d.mark, own)) else {
        return Ok(None);
    };
    let text = given!(cell_word(alloc, name, place, ""));
    given!(draft.label(text, term));
    let domain = domain.copy(alloc)?;
    Ok(Some(VarCell {
        occurs,
        term,
        domain,
    }))
}

// The cells at places from 1.
fn cells(
    alloc: Global,
    draft: &mut Draft,
    d: Declared,
    name: &str,
    count: u64,
    domain: &RangeSet,
) -> Result<Option<Vec<VarCell>>, Memory> {
    let mut all = Vec::new(alloc);
    for k in 0..count {
        match given!(cell(alloc, draft, d, name, k.wrapping_add(1), domain)) {
            Some(c) => all.push(c)?,
            None => return Ok(None),
        }
    }
    Ok(Some(all))
}

// Adds a variable.
fn add(
    alloc: Global,
    draft: &mut Draft,
    d: Declared,
    name: &str,
    index: Option<Vec<(i64, i64)>>,
    cells: Vec<VarCell>,
) -> Result<(), Memory> {
    let text = String::from_str(alloc, name)?;
    let named = given!(draft.names.intern(name));
    draft.texts.push(text)?;
    draft.vars.push(ModelVar {
        name: named,
        index,
        opt: d.opt,
        base: base_of(d),
        cells,
    })?;
    Ok(())
}

// A scalar.
fn declare_scalar(
    alloc: Global,
    draft: &mut Draft,
    d: Declared,
    name: &str,
    domain: &RangeSet,
) -> Result<bool, Memory> {
    let Some(c) = given!(cell(alloc, draft, d, name, 0, domain)) else {
        return Ok(false);
    };
    let all = vec![in alloc; c]?;
    given!(add(alloc, draft, d, name, None, all));
    Ok(true)
}

// An array with index ranges.
fn declare_array(
    alloc: Global,
    draft: &mut Draft,
    d: Declared,
    name: &str,
    ranges: Vec<(i64, i64)>,
    domain: &RangeSet,
) -> Result<bool, Memory> {
    let count = places(ranges.as_slice());
    let Some(all) = given!(cells(alloc, draft, d, name, count, domain)) else {
        return Ok(false);
    };
    given!(add(alloc, draft, d, name, Some(ranges), all));
    Ok(true)
}

/// Declares a variable over a set: a scalar where the index is `-`, else an array.
pub fn declare(
    alloc: Global,
    draft: &mut Draft,
    d: Declared,
    name: &str,
    ranges: &str,
    domain: &str,
) -> Result<bool, Memory> {
    let Some(domain) = given!(set(alloc, domain)) else {
        return Ok(false);
    };
    if ranges == "-" {
        return declare_scalar(alloc, draft, d, name, &domain);
    }
    match given!(index(alloc, ranges)) {
        Some(ranges) => declare_array(alloc, draft, d, name, ranges, &domain),
        None => Ok(false),
    }
}
