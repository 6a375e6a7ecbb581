// The best candidate.

ghost use Rattle.std.specs.Prelude.{◌≡◌, map};
ghost use Rattle.std.specs.Option.{option_map};
ghost use Rattle.mz_base.specs.declared.kind.Kind.TheVariants as kind;
ghost use Rattle.mz_core.specs.Types.{plain_type};
ghost use Rattle.mz_check_meaning.specs.Tests.{found};
ghost use Rattle.mz_check_meaning.specs.Calls.{unfit, best};
ghost use Rattle.mz_check_meaning.specs.Passes.{Passes};
ghost use Rattle.mz_check_calls.specs.Views.{candidate};

use crate::left_out::is_left_out;
use crate::pairs::{Candidate, Candidates};
use mz_base::{Kind, Span, Stop};
use mz_check_forms::refusal;
use mz_core::TypeInst;
use mz_overload::Resolution;
use std::alloc::Global;

fn unfit(left_out: bool) -> Kind
    ensures { result ≡ unfit left_out }
{
    if left_out {
        Kind::LeftOut
    } else {
        Kind::NoOverload
    }
}

fn found(span: Span, c: Option<Candidate>) -> Result<Candidate, Stop>
    ensures { Passes candidate result (found kind.NoOverload span (option_map candidate c)) }
{
    match c {
        Some(c) => Ok(c),
        None => Err(refusal(Kind::NoOverload, span)),
    }
}

/// The accepting candidate whose parameters are below those of every other accepting one. Where none accepts, LeftOut for what is
/// left out by its name and NoOverload else; Ambiguous, where some accept and none is the best.
#[tactic(auto, unfolding(mz_check_meaning::specs::Calls::best))]
pub(crate) fn best(
    alloc: Global,
    span: Span,
    name: &str,
    args: &[TypeInst],
    candidates: Candidates,
) -> Result<Candidate, Stop>
    ensures { Passes candidate result (best span name.now (map plain_type args.now) candidates) }
{
    match candidates.choose(args) {
        Resolution::One(place) => found(span, candidates.take(place)),
        Resolution::NoneFits => {
            let left_out = is_left_out(alloc, name, args)?;
            Err(refusal(unfit(left_out), span))
        }
        Resolution::Ambiguous => Err(refusal(Kind::Ambiguous, span)),
    }
}
