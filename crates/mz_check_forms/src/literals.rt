// Array and set literals.

ghost use Rattle.std.specs.Prelude.{◌≡◌, IfOk, map};
ghost use Rattle.std.specs.List.{list_any};
ghost use Rattle.mz_core.specs.TreeViews.{tree};
ghost use Rattle.mz_check_meaning.specs.Arrays.{is_var, listed, tabled, each_to, member_base, set_base, set_literal};
ghost use Rattle.mz_check_meaning.specs.Passes.{Passes};
ghost use Rattle.mz_core.specs.Types.{plain_type};

use crate::coerce::each_to;
use crate::joins::{elements_join, members_join, rows_join};
use crate::kinds::{base_of, list_of, refusal, scalar, table_of, var_of};
use crate::{make_array, make_rows, make_set, type_of};
use mz_base::{Kind, Memory, Span, Stop};
use mz_core::{Base, Core, TypeInst};
use std::alloc::Global;

/// `[..]` with its typed elements.
#[inline(never)]
#[tactic(auto, unfolding(mz_check_meaning::specs::Arrays::listed))]
pub fn listed(alloc: Global, span: Span, es: Vec<Core>) -> Result<Core, Stop>
    ensures { Passes tree result (listed span (map tree es.items)) }
{
    let t = elements_join(alloc, &es)?;
    let elements = each_to(alloc, &t, es)?;
    let ty = list_of(alloc, &t)?;
    Ok(make_array(span, ty, elements))
}

fn rows_to(alloc: Global, t: &TypeInst, lines: Vec<Vec<Core>>) -> Result<Vec<Vec<Core>>, Memory>
    ensures { IfOk result (λ v. map (λ r. map tree r.items) v.items ≡ map (each_to (plain_type t.now)) (map (λ r. map tree r.items) lines.items)) }
{
    let mut all = Vec::new(alloc);
    for line in lines {
        all.push(each_to(alloc, t, line)?)?;
    }
    Ok(all)
}

/// `[| .. |]` with its typed rows, which may differ in length.
#[inline(never)]
#[tactic(auto, unfolding(mz_check_meaning::specs::Arrays::tabled))]
pub fn tabled(alloc: Global, span: Span, lines: Vec<Vec<Core>>) -> Result<Core, Stop>
    ensures { Passes tree result (tabled span (map (λ r. map tree r.items) lines.items)) }
{
    let t = rows_join(alloc, &lines)?;
    let elements = rows_to(alloc, &t, lines)?;
    let ty = table_of(alloc, &t)?;
    Ok(make_rows(span, ty, elements))
}

/// The base of a set's elements: a Boolean counts as an integer.
pub fn member_base(base: Base) -> Base
    ensures { result ≡ member_base base }
{
    match base {
        Base::Bool => Base::Int,
        b => b,
    }
}

/// The base of the sets of elements of a base.
pub fn set_base(base: Base) -> Base
    ensures { result ≡ set_base base }
{
    match base {
        Base::Enum(e) => Base::SetEnum(e),
        Base::Bottom => Base::SetBottom,
        _ => Base::SetInt,
    }
}

/// Whether some expression is var.
pub fn some_var(es: &[Core]) -> bool
    ensures { result ≡ list_any is_var (map tree es.now) }
{
    for e in es {
        if is_var(e) {
            return true;
        }
    }
    false
}

/// Whether an expression is var.
pub fn is_var(e: &Core) -> bool
    ensures { result ≡ is_var (tree e.now) }
{
    var_of(type_of(e))
}

/// `{..}` with its typed elements. LeftOut at it, where one of them is var.
#[inline(never)]
#[tactic(auto, unfolding(mz_check_meaning::specs::Arrays::set_literal))]
pub fn set_literal(alloc: Global, span: Span, es: Vec<Core>) -> Result<Core, Stop>
    ensures { Passes tree result (set_literal span (map tree es.items)) }
{
    let t = members_join(alloc, &es)?;
    if some_var(&es) {
        return Err(refusal(Kind::LeftOut, span));
    }
    let member = scalar(alloc, member_base(base_of(&t)));
    let elements = each_to(alloc, &member, es)?;
    Ok(make_set(span, scalar(alloc, set_base(base_of(&t))), elements))
}
