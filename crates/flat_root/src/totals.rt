// The total terms of roots.

ghost use Rattle.std.specs.Prelude.{◌≡◌, ◌++◌, [], OnOk};
ghost use Rattle.mz_partial.specs.Totals.{AreParts};
ghost use Rattle.flat_reif.specs.States.{state};
ghost use Rattle.flat_root.specs.Keeps.{IsReadyState};
ghost use Rattle.flat_root.specs.Totals.{AddsTotal, AreRoots, IsRoot, Totals};

use flat_reif::Flat;
use mz_arena::Id;
use mz_base::Memory;
use mz_partial::Memo;

// Makes a root total: adds where it has a value, and its total term.
fn add_total(
    flat: &mut Flat,
    memo: &mut Memo,
    id: Id,
    defined: &mut Vec<Id>,
    terms: &mut Vec<Id>,
) -> Result<(), Memory>
    requires ready { IsReadyState (state flat.old) }
    requires memo { AreParts (state flat.old).es memo.old }
    requires root { IsRoot (state flat.old).es id }
    ensures added { OnOk result (AddsTotal (state flat.old) (state flat.new) id defined.old.items defined.new.items terms.old.items terms.new.items) }
    ensures memo { OnOk result (AreParts (state flat.new).es memo.new) }
{
    let p = given!(flat.total(id, memo));
    defined.push(p.defined)?;
    terms.push(p.term)?;
    Ok(())
}

// What must be true for these roots, nodes that always have a value: adds where each has a value, and the
// total terms.
pub(crate) fn totals(
    flat: &mut Flat,
    memo: &mut Memo,
    roots: &[Id],
    defined: &mut Vec<Id>,
    terms: &mut Vec<Id>,
) -> Result<(), Memory>
    requires ready { IsReadyState (state flat.old) }
    requires memo { AreParts (state flat.old).es memo.old }
    requires roots { AreRoots (state flat.old).es roots.now }
    requires nothing { defined.old.items ++ terms.old.items ≡ [] }
    ensures totals { OnOk result (Totals (state flat.old) (state flat.new) roots.now (defined.new.items ++ terms.new.items)) }
    ensures memo { OnOk result (AreParts (state flat.new).es memo.new) }
{
    'roots: for id in roots {
        given!(add_total(flat, memo, *id, defined, terms));
    }
    Ok(())
}
