// The values that data gives declarations.

ghost use Rattle.std.specs.Prelude.{map};
ghost use Rattle.mz_tree.specs.Data.{given};
ghost use Rattle.mz_scope_order.specs.Scoped.{lent_given};
ghost use Rattle.mz_check_meaning.specs.Passes.{Passes};
ghost use Rattle.mz_check_context.specs.Known.{known};
ghost use Rattle.mz_check_data.specs.WithData.{declared_as, given_value, given_values};
ghost use Rattle.mz_check_data.specs.Views.{typed_item};

use crate::fit::typed_value;
use crate::plain::misfit;
use mz_base::{Span, Stop};
use mz_check_context::{Context, type_in};
use mz_check_meaning::Meaning;
use mz_core::Core;
use mz_tree::DataItem;
use std::alloc::Global;

/// The number of the declaration that a name stands for. DataForm at this place, where it stands for none.
#[tactic(auto, unfolding(crate::specs::WithData::declared_as))]
fn declared_as(span: Span, meaning: Option<Meaning>) -> Result<u64, Stop>
    ensures { Passes (λ d. d) result (declared_as span meaning) }
{
    match meaning {
        Some(Meaning::Decl(d)) => Ok(d),
        _ => Err(misfit(span)),
    }
}

/// The value that an item of the data gives, with the number of its declaration. DataForm at the value, where it doesn't fit the
/// declared type.
#[tactic(auto, unfolding(crate::specs::WithData::given_value))]
pub fn given_value(
    alloc: Global,
    context: &Context<'_>,
    item: &DataItem,
) -> Result<(u64, Core), Stop>
    ensures { Passes typed_item result (given_value (known context.now) (given item.now)) }
{
    let d = declared_as(item.at, context.meaning(item.name))?;
    let t = context.type_of_decl(item.span, d)?;
    let e = typed_value(alloc, context, type_in(t), item)?;
    Ok((d, e))
}

/// The values that these items give, each with the number of its declaration. DataForm at the first that doesn't fit its declaration's
/// type.
#[tactic(auto, unfolding(crate::specs::WithData::given_values))]
pub fn given_values(
    alloc: Global,
    context: &Context<'_>,
    items: &[&DataItem],
) -> Result<Vec<(u64, Core)>, Stop>
    ensures { Passes (λ v. map typed_item v.items) result (given_values (known context.now) (map lent_given items.now)) }
{
    let mut all = Vec::new(alloc);
    for item in items {
        all.push(given_value(alloc, context, item)?)?;
    }
    Ok(all)
}
