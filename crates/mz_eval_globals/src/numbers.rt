// The globals by the numbers that the typed tree has for them.

ghost use Rattle.std.specs.Prelude.{◌≡◌};
ghost use Rattle.mz_meaning.specs.Globals.{global_of};

use mz_builtin::global;
use mz_globals::{Global, global_at};

/// The global with this number; `None` of a number that an operator or a built-in has, or nothing.
/// Takes no memory.
#[tactic(auto, using(crate::proofs::Places::without_place, crate::proofs::Places::with_place))]
pub fn global_numbered(number: u32) -> Option<Global>
    ensures { result ≡ global_of number }
{
    match global(number) {
        None => None,
        Some(place) => global_at(place),
    }
}
