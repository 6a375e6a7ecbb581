// The lists of parameters that accept a call's arguments, made from the arguments' types.

ghost use Rattle.std.specs.Prelude.{◌≡◌, ◌++◌, [], map, filter, IfOk};
ghost use Rattle.mz_core.specs.Types.{plain_type};
ghost use Rattle.mz_core.specs.Order.{below, index_below};
ghost use Rattle.mz_builtin.specs.StepsFits.{indices_above, lists_above, near_lists, near_of_rank, near_arrays, near_types, element, element_fits, may_fit, types_above, accepting};
ghost use Rattle.mz_builtin.specs.Readings.{type_of};
ghost use Rattle.mz_builtin.specs.Views.{plain_choices, index_lists_of, type_lists_of};

use crate::choices::Choices;
use crate::entry::{Of, Param};
use crate::lists::{joined_indices, joined_types, no_index, no_type};
use crate::params::one_type;
use crate::readings::Meaning;
use crate::types::{add_types_with, index_sets, type_of};
use mz_base::Memory;
use mz_core::{Ix, TypeInst, below, make_type};
use std::alloc::Global;

fn index_below(x: Ix, y: Ix) -> bool
    ensures { result ≡ index_below x y }
{
    match (x, y) {
        (_, Ix::Int) => true,
        (Ix::Enum(e), Ix::Enum(f)) => e == f,
        (Ix::Int, Ix::Enum(_)) => false,
    }
}

#[tactic(auto, unfolding(crate::specs::StepsFits::indices_above))]
fn indices_above(alloc: Global, indices: &[Ix], d: Ix) -> Result<Vec<Ix>, Memory>
    ensures { IfOk result (λ v. v.items ≡ indices_above indices.now d) }
{
    let mut all = Vec::new(alloc);
    for i in indices {
        if index_below(d, *i) {
            all.push(*i)?;
        }
    }
    Ok(all)
}

#[tactic(auto, unfolding(crate::specs::StepsFits::lists_above))]
fn lists_above(alloc: Global, indices: &[Ix], dims: &[Ix]) -> Result<Vec<Vec<Ix>>, Memory>
    ensures { IfOk result (λ v. index_lists_of v.items ≡ lists_above indices.now dims.now) }
{
    let [d, rest @ ..] = dims else {
        return no_index(alloc);
    };
    let firsts = indices_above(alloc, indices, *d)?;
    let tails = lists_above(alloc, indices, rest)?;
    joined_indices(alloc, &firsts, &tails)
}

#[tactic(auto, unfolding(crate::specs::StepsFits::near_lists))]
fn near_lists(alloc: Global, indices: &[Ix], dims: &[Ix], n: u64) -> Result<Vec<Vec<Ix>>, Memory>
    ensures { IfOk result (λ v. index_lists_of v.items ≡ near_lists indices.now dims.now n) }
{
    if n == dims.len() as u64 {
        lists_above(alloc, indices, dims)
    } else if dims.is_empty() && n == 1 {
        lists_above(alloc, indices, &[Ix::Int])
    } else {
        Ok(Vec::new(alloc))
    }
}

#[tactic(auto, unfolding(crate::specs::StepsFits::near_of_rank))]
fn add_near_of_rank(
    alloc: Global,
    all: &mut Vec<TypeInst>,
    m: Meaning,
    var: bool,
    o: Of,
    indices: &[Ix],
    dims: &[Ix],
    n: u64,
) -> Result<(), Memory>
    ensures { IfOk result (λ _. map plain_type all.new.items ≡ map plain_type all.old.items ++ near_of_rank m var o indices.now dims.now n) }
{
    let lists = near_lists(alloc, indices, dims, n)?;
    add_types_with(alloc, all, m, var, o, &lists)
}

#[tactic(auto, unfolding(crate::specs::StepsFits::near_arrays))]
fn near_arrays(
    alloc: Global,
    m: Meaning,
    var: bool,
    o: Of,
    indices: &[Ix],
    dims: &[Ix],
    ranks: &[u64],
) -> Result<Vec<TypeInst>, Memory>
    ensures { IfOk result (λ v. map plain_type v.items ≡ near_arrays m var o indices.now dims.now ranks.now) }
{
    let mut all = Vec::new(alloc);
    for n in ranks {
        add_near_of_rank(alloc, &mut all, m, var, o, indices, dims, *n)?;
    }
    Ok(all)
}

#[tactic(auto, unfolding(crate::specs::StepsFits::near_types))]
fn near_types(
    alloc: Global,
    c: &Choices,
    m: Meaning,
    var: bool,
    dims: &[Ix],
    p: Param,
) -> Result<Vec<TypeInst>, Memory>
    ensures { IfOk result (λ v. map plain_type v.items ≡ near_types (plain_choices c.now) m var dims.now p) }
{
    match p {
        Param::One(o) => one_type(alloc, m, var, o),
        Param::Par(o) => one_type(alloc, m, false, o),
        Param::Array(o) => near_arrays(alloc, m, var, o, &c.indices, dims, &c.ranks),
        Param::Sized(n, o) => near_arrays(alloc, m, var, o, &c.indices, dims, &[n]),
        Param::ParSized(n, o) => near_arrays(alloc, m, false, o, &c.indices, dims, &[n]),
        Param::IndexSet => index_sets(alloc, &c.enums),
    }
}

// The types that the argument is below.
fn kept_above(alloc: Global, a: &TypeInst, types: Vec<TypeInst>) -> Result<Vec<TypeInst>, Memory>
    ensures { IfOk result (λ v. map plain_type v.items ≡ filter (below (plain_type a.now)) (map plain_type types.items)) }
{
    let mut all = Vec::new(alloc);
    for t in types {
        if below(a, &t) {
            all.push(t)?;
        }
    }
    Ok(all)
}

#[tactic(auto, unfolding(mz_core::specs::Types::plain_type))]
fn is_element_below(
    alloc: Global,
    a: &TypeInst,
    m: Meaning,
    var: bool,
    o: Of,
) -> Result<bool, Memory>
    ensures { IfOk result (λ b. b ≡ below (element (plain_type a.now)) (type_of m var o [])) }
{
    let element = make_type(alloc, a.var, a.opt, a.base, &[])?;
    let wanted = type_of(alloc, m, var, o, &[])?;
    Ok(below(&element, &wanted))
}

// Whether the argument is no array, or its elements fit.
#[tactic(auto, unfolding(crate::specs::StepsFits::element_fits, mz_core::specs::Types::plain_type))]
fn element_fits(alloc: Global, m: Meaning, var: bool, o: Of, a: &TypeInst) -> Result<bool, Memory>
    ensures { IfOk result (λ b. b ≡ element_fits m var o (plain_type a.now)) }
{
    if a.dims.is_empty() {
        return Ok(true);
    }
    is_element_below(alloc, a, m, var, o)
}

#[tactic(auto, unfolding(crate::specs::StepsFits::may_fit))]
fn may_fit(alloc: Global, m: Meaning, var: bool, a: &TypeInst, p: Param) -> Result<bool, Memory>
    ensures { IfOk result (λ b. b ≡ may_fit m var (plain_type a.now) p) }
{
    match p {
        Param::One(_) | Param::Par(_) | Param::IndexSet => Ok(true),
        Param::Array(o) | Param::Sized(_, o) => element_fits(alloc, m, var, o, a),
        Param::ParSized(_, o) => element_fits(alloc, m, false, o, a),
    }
}

#[tactic(auto, unfolding(crate::specs::StepsFits::types_above, mz_core::specs::Types::plain_type))]
fn types_above(
    alloc: Global,
    c: &Choices,
    m: Meaning,
    var: bool,
    a: &TypeInst,
    p: Param,
) -> Result<Vec<TypeInst>, Memory>
    ensures { IfOk result (λ v. map plain_type v.items ≡ types_above (plain_choices c.now) m var (plain_type a.now) p) }
{
    if !may_fit(alloc, m, var, a, p)? {
        return Ok(Vec::new(alloc));
    }
    let near = near_types(alloc, c, m, var, &a.dims, p)?;
    kept_above(alloc, a, near)
}

/// The lists of types that the parameters have and that accept the arguments.
#[tactic(auto, unfolding(crate::specs::StepsFits::accepting, crate::specs::Readings::joined))]
pub(crate) fn accepting(
    alloc: Global,
    c: &Choices,
    m: Meaning,
    var: bool,
    args: &[TypeInst],
    ps: &[Param],
) -> Result<Vec<Vec<TypeInst>>, Memory>
    ensures { IfOk result (λ v. type_lists_of v.items ≡ accepting (plain_choices c.now) m var (map plain_type args.now) ps.now) }
{
    match args {
        [] => {
            if ps.is_empty() {
                no_type(alloc)
            } else {
                Ok(Vec::new(alloc))
            }
        }
        [a, args @ ..] => match ps {
            [] => Ok(Vec::new(alloc)),
            [p, ps @ ..] => {
                let firsts = types_above(alloc, c, m, var, a, *p)?;
                if firsts.is_empty() {
                    return Ok(Vec::new(alloc));
                }
                let tails = accepting(alloc, c, m, var, args, ps)?;
                joined_types(alloc, &firsts, &tails)
            }
        },
    }
}
