// Var cells that have no value under any reading, and how many elements cells have.

ghost use Rattle.std.specs.Prelude.{◌≡◌, ◌+◌, ◌*◌, ℕ, IfOk, List, None, Option, true};
ghost use Rattle.mz_value.specs.Ranges.{Range};
ghost use Rattle.mz_value.specs.Contents.{Content};
ghost use Rattle.mz_arena.specs.Values.{Term};
ghost use Rattle.mz_meaning.specs.Cells.{held};
ghost use Rattle.mz_symbol.specs.Readings.{Reading};
ghost use Rattle.mz_eval_cells.specs.Views.{origin_value, origins_value, row_content, seen, var_content};
ghost use Rattle.mz_eval_symbols.specs.Taken.{count_in};
ghost use Rattle.mz_eval_names.specs.Steps.{HasNoValue};

use mz_base::Memory;
use mz_eval_cells::{Known, Origin, Origins, VarItems, VarValue, length_of};

fn is_nothing(o: &Origin) -> bool
    ensures { result ≡ true → (t : ℕ → Term) → origin_value t o.now ≡ None }
{
    match o {
        Origin::Nothing => true,
        Origin::Item(_) => false,
        Origin::Symbol(_) => false,
        Origin::Truth(_, _) => false,
    }
}

fn are_nothing(o: &Origins) -> bool
    ensures { result ≡ true → (l : ℕ → Option (List Content)) → origins_value l o.now ≡ None }
{
    match o {
        Origins::Nothing => true,
        Origins::Values(_) => false,
        Origins::Line(_) => false,
    }
}

#[tactic(auto, using(crate::proofs::CellLaws::no_content))]
pub(crate) fn is_valueless(v: &VarValue) -> bool
    ensures { result ≡ true → (r : Reading) → held r.mode (var_content r.term v.now) ≡ None }
{
    is_nothing(&v.origin)
}

#[tactic(auto, using(crate::proofs::CellLaws::no_row))]
fn are_valueless(xs: &VarItems) -> bool
    ensures { result ≡ true → (r : Reading) (ix : List Range) → held r.mode (row_content r.line ix xs.now) ≡ None }
{
    are_nothing(&xs.origins)
}

/// Whether a cell is var, and has no value under any reading.
#[tactic(auto, using(crate::proofs::CellLaws::var_without, crate::proofs::CellLaws::unshaped_without))]
pub(crate) fn has_no_value(k: &Known) -> bool
    ensures { result ≡ true → (r : Reading) → HasNoValue (seen r k.now) }
{
    match k {
        Known::Undefined => false,
        Known::One(_) => false,
        Known::Array(_, _) => false,
        Known::Var(v) => is_valueless(v),
        Known::Row(_, xs) => are_valueless(xs),
        Known::Unshaped(_) => true,
    }
}

pub(crate) fn item_count(k: &Known) -> u64
    ensures { result ≡ count_in k.now }
{
    match length_of(k) {
        None => 0,
        Some(n) => n,
    }
}

/// So much, and so much more for each element of an array. Out of memory where it passes 2^64.
pub(crate) fn charge(fixed: u64, each: u64, k: &Known) -> Result<u64, Memory>
    ensures { IfOk result (λ n. n ≡ fixed + each * count_in k.now) }
{
    let all = each.checked_mul(item_count(k)).ok_or(Memory)?;
    let sum = fixed.checked_add(all).ok_or(Memory)?;
    Ok(sum)
}
