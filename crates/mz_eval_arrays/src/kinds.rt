// Symbols by what their values count as.

ghost use Rattle.std.specs.Prelude.{◌≡◌, IfOk, false, is_some, true};
ghost use Rattle.mz_symbol.specs.Readings.{Reading, symbol_seen};
ghost use Rattle.mz_symbol_rows.specs.RowValues.{argument};
ghost use Rattle.mz_eval_arrays.specs.ArrayCells.{is_counted};

use mz_base::Memory;
use mz_core::Base;
use mz_symbol::Symbol;

/// Whether what is undefined counts as false: of a Boolean that is no option.
fn is_counted(base: Base, opt: bool) -> bool
    ensures { result ≡ is_counted base opt }
{
    match base {
        Base::Bool => match opt {
            true => false,
            false => true,
        },
        _ => false,
    }
}

fn is_same(a: bool, b: bool) -> bool
    ensures { result ≡ true → a ≡ b }
{
    match a {
        true => b,
        false => !b,
    }
}

fn symbol_counted(s: Symbol) -> bool
    ensures { result ≡ is_counted s.base (is_some s.occurs) }
{
    is_counted(s.base, s.occurs.is_some())
}

/// A symbol, which counts as what a node of this base does, an option or not; else out of memory.
pub fn of_kind(s: Symbol, base: Base, opt: bool) -> Result<Symbol, Memory>
    ensures is { IfOk result (λ x. x ≡ s) }
    ensures kind { IfOk result (λ x. is_counted s.base (is_some s.occurs) ≡ is_counted base opt) }
{
    let own = symbol_counted(s);
    let asked = is_counted(base, opt);
    if is_same(own, asked) {
        Ok(s)
    } else {
        Err(Memory)
    }
}

/// A symbol whose value as an argument is its own: not of a Boolean that is no option.
#[tactic(auto, using(crate::proofs::KindLaws::own_argument))]
pub fn uncounted(s: Symbol) -> Result<Symbol, Memory>
    ensures { IfOk result (λ x. (r : Reading) → argument r s ≡ symbol_seen r x) }
{
    let own = symbol_counted(s);
    if own {
        return Err(Memory);
    }
    Ok(s)
}
