// The fault that is met first.

ghost use Rattle.std.specs.Prelude.{◌≡◌, OnOk};
ghost use Rattle.std.specs.Option.{option_map};
ghost use Rattle.mz_check_meaning.specs.Checks.{stands_before};
ghost use Rattle.mz_check_meaning.specs.Passes.{Passes};
ghost use Rattle.mz_check.specs.StepsMeeting.{met_of, sooner, IsNoted, test_of};

use mz_base::{Fault, Memory, Span, Stop};

/// Whether the first place comes before the second: the files in their order, then the place in the file.
pub(crate) fn stands_before(a: Span, b: Span) -> bool
    ensures { result ≡ stands_before a b }
{
    a.file < b.file || (a.file == b.file && a.byte < b.byte)
}

/// A fault, with the place of the item in which it is met.
#[derive(Clone, Copy)]
pub(crate) struct Met {
    pub at: Span,
    pub fault: Fault,
}

/// Of two faults the one that is met first; of two that are met at one place the first.
pub(crate) fn sooner(first: Option<Met>, next: Met) -> Met
    ensures { met_of result ≡ sooner (option_map met_of first) (met_of next) }
{
    match first {
        None => next,
        Some(met) => {
            if stands_before(next.at, met.at) {
                next
            } else {
                met
            }
        }
    }
}

/// Notes why an item is refused, where it is met before all others so far.
pub(crate) fn note(first: &mut Option<Met>, at: Span, stop: Stop) -> Result<(), Memory>
    ensures { OnOk result (IsNoted at stop (option_map met_of first.old) (option_map met_of first.new)) }
{
    match stop {
        Stop::Refused(fault) => {
            *first = Some(sooner(*first, Met { at, fault }));
            Ok(())
        }
        Stop::Memory => Err(Memory),
    }
}

/// The fault that is met first, if there is one.
pub(crate) fn passed(first: Option<Met>) -> Result<(), Stop>
    ensures { Passes (λ _. tt) result (test_of (option_map met_of first)) }
{
    match first {
        None => Ok(()),
        Some(met) => Err(Stop::Refused(met.fault)),
    }
}
