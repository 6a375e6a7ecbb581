// The coercions that lead from a type to one above it.

ghost use Rattle.std.specs.Prelude.{◌≡◌, ◌++◌, IfOk};
ghost use Rattle.mz_core.specs.Types.{plain_type};
ghost use Rattle.mz_core.specs.Coercions.{Leads, Below};
ghost use Rattle.mz_core.specs.Paths.{path_links, raising, base_links, index_links, mark_links, links_by, coercions};

use crate::make::make_type;
use crate::order::{becomes_array, same_base, same_index, same_type, set_of};
use crate::types::{Base, Coercion, Ix, TypeInst};
use mz_base::Memory;
use std::alloc::Global;

fn raising(b: Base) -> Coercion
    ensures { result ≡ raising b }
{
    match b {
        Base::Bool => Coercion::BoolToInt,
        Base::Enum(_) => Coercion::EnumToInt,
        Base::SetEnum(_) => Coercion::SetEnumToSetInt,
        Base::SetBottom => Coercion::SetBottomToSet,
        _ => Coercion::BottomToBase,
    }
}

#[tactic(auto, unfolding(crate::specs::Types::plain_type))]
fn add_base(
    alloc: Global,
    path: &mut Vec<(Coercion, TypeInst)>,
    t: &TypeInst,
    b: Base,
) -> Result<(), Memory>
    ensures { IfOk result (λ _. path_links path.new.items ≡ path_links path.old.items ++ base_links (plain_type t.now) b) }
{
    if !same_base(t.base, b) {
        let to = make_type(alloc, t.var, t.opt, b, &t.dims)?;
        path.push((raising(t.base), to))?;
    }
    Ok(())
}

// from the type with t's marks and u's base and indices to u
#[tactic(auto, unfolding(crate::specs::Types::plain_type))]
fn add_marks(
    alloc: Global,
    path: &mut Vec<(Coercion, TypeInst)>,
    t: &TypeInst,
    u: &TypeInst,
) -> Result<(), Memory>
    ensures { IfOk result (λ _. path_links path.new.items ≡ path_links path.old.items ++ mark_links (record (plain_type t.now) { base = u.now.base; dims = u.now.dims.items }) (plain_type u.now)) }
{
    if t.opt != u.opt {
        let to = make_type(alloc, t.var, u.opt, u.base, &u.dims)?;
        path.push((Coercion::ToOpt, to))?;
    }
    if t.var != u.var {
        let to = make_type(alloc, u.var, u.opt, u.base, &u.dims)?;
        path.push((Coercion::ToVar, to))?;
    }
    Ok(())
}

// the index types that are left, and what they become; those that are done stand in `done`
#[tactic(auto, unfolding(crate::specs::Types::plain_type, crate::specs::Paths::index_links))]
fn add_indices(
    alloc: Global,
    path: &mut Vec<(Coercion, TypeInst)>,
    t: &TypeInst,
    base: Base,
    done: &mut Vec<Ix>,
    xs: &[Ix],
    ys: &[Ix],
) -> Result<(), Memory>
    ensures { IfOk result (λ _. path_links path.new.items ≡ path_links path.old.items ++ index_links (record (plain_type t.now) { base = base }) done.old.items xs.now ys.now) }
{
    match xs {
        [] => Ok(()),
        [x, xs @ ..] => match ys {
            [] => Ok(()),
            [y, ys @ ..] => {
                if same_index(*x, *y) {
                    done.push(*x)?;
                } else {
                    done.push(*y)?;
                    let mut to = make_type(alloc, t.var, t.opt, base, &*done)?;
                    to.dims.extend_from_slice(xs)?;
                    path.push((Coercion::IndexToInt, to))?;
                }
                add_indices(alloc, path, t, base, done, xs, ys)
            }
        },
    }
}

#[tactic(auto, unfolding(crate::specs::Types::plain_type))]
fn add_links(
    alloc: Global,
    path: &mut Vec<(Coercion, TypeInst)>,
    t: &TypeInst,
    u: &TypeInst,
    set: Option<Base>,
) -> Result<(), Memory>
    ensures { IfOk result (λ _. path_links path.new.items ≡ path_links path.old.items ++ links_by (plain_type t.now) (plain_type u.now) set) }
{
    match set {
        None => {
            add_base(alloc, path, t, u.base)?;
            let mut done = Vec::new(alloc);
            add_indices(alloc, path, t, u.base, &mut done, &t.dims, &u.dims)?;
        }
        Some(set) => {
            add_base(alloc, path, t, set)?;
            let to = make_type(alloc, t.var, t.opt, u.base, &u.dims)?;
            path.push((Coercion::SetToArray, to))?;
        }
    }
    add_marks(alloc, path, t, u)
}

#[tactic(auto, unfolding(crate::specs::Paths::coercions, crate::specs::Types::plain_type))]
fn links(alloc: Global, t: &TypeInst, u: &TypeInst) -> Result<Vec<(Coercion, TypeInst)>, Memory>
    ensures { IfOk result (λ v. path_links v.items ≡ coercions (plain_type t.now) (plain_type u.now)) }
{
    let mut path = Vec::new(alloc);
    if !same_type(t, u) {
        let set = if becomes_array(t, u) {
            set_of(u.base)
        } else {
            None
        };
        add_links(alloc, &mut path, t, u, set)?;
    }
    Ok(path)
}

/// The coercions that lead from a type to one above it, in order, each with the type that it leads
/// to; none where the two are equal.
///
/// The base is coerced first, a set to the array of its elements with it, then the indices from the
/// left, then option and var.
pub fn coercions(
    alloc: Global,
    t: &TypeInst,
    u: &TypeInst,
) -> Result<Vec<(Coercion, TypeInst)>, Memory>
    requires { Below (plain_type t.now) (plain_type u.now) }
    ensures leads { IfOk result (λ v. Leads (plain_type t.now) (path_links v.items) (plain_type u.now)) }
    ensures computed { IfOk result (λ v. path_links v.items ≡ coercions (plain_type t.now) (plain_type u.now)) }
{
    links(alloc, t, u)
}
