// The types that an entry's parameters have in the readings with one meaning of its letter.

ghost use Rattle.std.specs.Prelude.{◌≡◌, ◌++◌, ◌∷◌, [], map, IfOk};
ghost use Rattle.mz_core.specs.Types.{plain_type};
ghost use Rattle.mz_builtin.specs.Readings.{type_of, types_of_rank, array_types, param_types, all_params};
ghost use Rattle.mz_builtin.specs.Views.{plain_choices, type_lists_of};

use crate::choices::Choices;
use crate::entry::{Of, Param};
use crate::lists::{index_lists, joined_types, no_type};
use crate::readings::Meaning;
use crate::types::{add_types_with, index_sets, type_of};
use mz_base::Memory;
use mz_core::{Ix, TypeInst};
use std::alloc::Global;

#[tactic(auto, unfolding(crate::specs::Readings::types_of_rank))]
fn add_types_of_rank(
    alloc: Global,
    all: &mut Vec<TypeInst>,
    m: Meaning,
    var: bool,
    o: Of,
    indices: &[Ix],
    n: u64,
) -> Result<(), Memory>
    ensures { IfOk result (λ _. map plain_type all.new.items ≡ map plain_type all.old.items ++ types_of_rank m var o indices.now n) }
{
    let lists = index_lists(alloc, indices, n)?;
    add_types_with(alloc, all, m, var, o, &lists)
}

#[tactic(auto, unfolding(crate::specs::Readings::array_types))]
fn array_types(
    alloc: Global,
    m: Meaning,
    var: bool,
    o: Of,
    indices: &[Ix],
    ranks: &[u64],
) -> Result<Vec<TypeInst>, Memory>
    ensures { IfOk result (λ v. map plain_type v.items ≡ array_types m var o indices.now ranks.now) }
{
    let mut all = Vec::new(alloc);
    for n in ranks {
        add_types_of_rank(alloc, &mut all, m, var, o, indices, *n)?;
    }
    Ok(all)
}

pub(crate) fn one_type(alloc: Global, m: Meaning, var: bool, o: Of) -> Result<Vec<TypeInst>, Memory>
    ensures { IfOk result (λ v. map plain_type v.items ≡ type_of m var o [] ∷ []) }
{
    let mut all = Vec::new(alloc);
    all.push(type_of(alloc, m, var, o, &[])?)?;
    Ok(all)
}

#[tactic(auto, unfolding(crate::specs::Readings::param_types))]
fn param_types(
    alloc: Global,
    c: &Choices,
    m: Meaning,
    var: bool,
    p: Param,
) -> Result<Vec<TypeInst>, Memory>
    ensures { IfOk result (λ v. map plain_type v.items ≡ param_types (plain_choices c.now) m var p) }
{
    match p {
        Param::One(o) => one_type(alloc, m, var, o),
        Param::Par(o) => one_type(alloc, m, false, o),
        Param::Array(o) => array_types(alloc, m, var, o, &c.indices, &c.ranks),
        Param::Sized(n, o) => array_types(alloc, m, var, o, &c.indices, &[n]),
        Param::ParSized(n, o) => array_types(alloc, m, false, o, &c.indices, &[n]),
        Param::IndexSet => index_sets(alloc, &c.enums),
    }
}

/// Every list of types that the parameters have.
#[tactic(auto, unfolding(crate::specs::Readings::all_params, crate::specs::Readings::products))]
pub(crate) fn all_params(
    alloc: Global,
    c: &Choices,
    m: Meaning,
    var: bool,
    ps: &[Param],
) -> Result<Vec<Vec<TypeInst>>, Memory>
    ensures { IfOk result (λ v. type_lists_of v.items ≡ all_params (plain_choices c.now) m var ps.now) }
{
    let [p, rest @ ..] = ps else {
        return no_type(alloc);
    };
    let firsts = param_types(alloc, c, m, var, *p)?;
    let tails = all_params(alloc, c, m, var, rest)?;
    joined_types(alloc, &firsts, &tails)
}
