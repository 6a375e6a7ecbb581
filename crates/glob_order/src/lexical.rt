// The order of lists.

ghost use Rattle.std.specs.Prelude.{◌≡◌, ◌+◌, ◌*◌, ◌∷◌, ◌&&◌, ◌||◌, [], IfOk, length, map, min, nat_lt, nat_eq};
ghost use Rattle.mz_core.specs.declared.types.Base.TheVariants as base;
ghost use Rattle.mz_arena.specs.Values.{is_true};
ghost use Rattle.mz_globals.specs.declared.global.Global.TheVariants as global;
ghost use Rattle.mz_symbol.specs.Makes.{GoesOnBy};
ghost use Rattle.glob_nodes.specs.declared.nodes.Compare.TheVariants as compare;
ghost use Rattle.glob_nodes.specs.Arguments.{IsWhole, array_value};
ghost use Rattle.glob_nodes.specs.Rows.{IsRow, row_cost};
ghost use Rattle.glob_nodes.specs.Says.{Says, Tells, compares, num};
ghost use Rattle.glob_order.specs.Senses.{lexed};

use glob_nodes::{Compare, Join, Numbers, compared, joined, truth, where_arrays};
use mz_arena::Id;
use mz_base::Memory;
use mz_symbol::Run;

/// `lex_less`, and with `equal` set `lex_lesseq`.
pub fn lex(run: &mut Run, equal: bool, xs: &Numbers, ys: &Numbers) -> Result<Id, Memory>
    requires first { IsWhole run.old xs.now }
    requires second { IsWhole run.old ys.now }
    ensures goes { GoesOnBy (56 * row_cost (global.Lex equal) (length xs.now.items.items ∷ length ys.now.items.items ∷ [])) run.old run.new }
    ensures row { IfOk result (IsRow base.Bool run.old run.new (global.Lex equal) (λ r. array_value r xs.now ∷ array_value r ys.now ∷ [])) }
{
    let body = lexed(run, equal, &xs.items, &ys.items)?;
    where_arrays(run, xs, ys, body)
}

fn lexed(run: &mut Run, equal: bool, xs: &[Id], ys: &[Id]) -> Result<Id, Memory>
    ensures goes { GoesOnBy (24 * min (length xs.now) (length ys.now)) run.old run.new }
    ensures tells { IfOk result (Tells run.old run.new (λ r. lexed equal (map (num r) xs.now) (map (num r) ys.now))) }
{
    let mut acc = truth(run, begins(xs.len(), ys.len(), equal))?;
    let mut k = lesser(xs.len(), ys.len());
    while k > 0 {
        k -= 1;
        acc = preceded(run, xs[k], ys[k], acc)?;
    }
    Ok(acc)
}

fn begins(m: usize, n: usize, equal: bool) -> bool
    ensures { result ≡ (nat_lt m n || (equal && nat_eq m n)) }
{
    m < n || (equal && m == n)
}

fn lesser(m: usize, n: usize) -> usize
    ensures { result ≡ min m n }
{
    if m < n { m } else { n }
}

/// An element of each, and what is told of those after them.
#[tactic(auto, using(mz_symbol_rows::proofs::GoingOn::goes_both, mz_symbol_rows::proofs::GoingOn::goes_most))]
fn preceded(run: &mut Run, x: Id, y: Id, told: Id) -> Result<Id, Memory>
    ensures goes { GoesOnBy 24 run.old run.new }
    ensures says { IfOk result (Says run.old run.new (λ r. compares compare.AtMost (num r x) (num r y) && (compares compare.Less (num r x) (num r y) || is_true (r.term told)))) }
{
    let less = compared(run, Compare::Less, x, y)?;
    let rest = joined(run, Join::Either, less, told)?;
    let most = compared(run, Compare::AtMost, x, y)?;
    let id = joined(run, Join::Both, most, rest)?;
    Ok(id)
}
