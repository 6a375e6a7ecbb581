// Overload resolution: the best among candidates.

ghost use Rattle.std.specs.Prelude.{◌≡◌, ◌+◌, ◌<◌, map, length, drop};
ghost use Rattle.mz_core.specs.Types.{plain_type, plain_signature};
ghost use Rattle.mz_overload.specs.Best.{all_below, accepts, is_least, resolution, IsResolution};
ghost use Rattle.mz_overload.specs.StepsResolution.{resolution_from, first_accepting};

use mz_core::{Signature, TypeInst, below};

/// What a call finds among its candidates.
#[derive(Clone, Copy, Debug, PartialEq, Eq)]
pub enum Resolution {
    /// The place, from 0, of the best candidate.
    One(u64),
    /// No candidate accepts the arguments.
    NoneFits,
    /// Some candidates accept the arguments, and none of them is the best.
    Ambiguous,
}

#[tactic(auto, unfolding(crate::specs::Best::all_below))]
fn all_below(ts: &[TypeInst], us: &[TypeInst]) -> bool
    ensures { result ≡ all_below (map plain_type ts.now) (map plain_type us.now) }
{
    match ts {
        [] => us.is_empty(),
        [t, ts @ ..] => match us {
            [] => false,
            [u, us @ ..] => below(t, u) && all_below(ts, us),
        },
    }
}

#[tactic(auto, unfolding(mz_core::specs::Types::plain_signature))]
fn accepts(args: &[TypeInst], c: &Signature) -> bool
    ensures { result ≡ accepts (map plain_type args.now) (plain_signature c.now) }
{
    all_below(args, &c.params)
}

#[tactic(auto, unfolding(mz_core::specs::Types::plain_signature))]
fn params_below(c: &Signature, d: &Signature) -> bool
    ensures { result ≡ all_below (plain_signature c.now).params (plain_signature d.now).params }
{
    all_below(&c.params, &d.params)
}

// Whether the candidate's parameters are below those of every one that accepts.
#[tactic(auto, unfolding(crate::specs::Best::is_least))]
fn is_least(cands: &[Signature], args: &[TypeInst], c: &Signature) -> bool
    ensures { result ≡ is_least (map plain_signature cands.now) (map plain_type args.now) (plain_signature c.now) }
{
    for d in cands {
        if accepts(args, d) && !params_below(c, d) {
            return false;
        }
    }
    true
}

// The resolution, where `c`, at the place `first`, is the first candidate that accepts. If some
// candidate is the best, then the last one that replaces `c` is.
#[tactic(auto, unfolding(crate::specs::StepsResolution::resolution_from))]
fn resolution_from(
    cands: &[Signature],
    args: &[TypeInst],
    first: usize,
    c: &Signature,
) -> Resolution
    requires { first < length cands.now }
    ensures { result ≡ resolution_from (map plain_signature cands.now) (map plain_type args.now) first (plain_signature c.now) (first + 1) (map plain_signature (drop (first + 1) cands.now)) }
{
    let mut at = first;
    let mut least = c;
    for i in first + 1..cands.len() {
        let d = &cands[i];
        if accepts(args, d) && !params_below(least, d) {
            at = i;
            least = d;
        }
    }
    if is_least(cands, args, least) {
        Resolution::One(at as u64)
    } else {
        Resolution::Ambiguous
    }
}

#[tactic(auto, unfolding(crate::specs::StepsResolution::first_accepting))]
fn first_accepting(cands: &[Signature], args: &[TypeInst]) -> Resolution
    ensures { result ≡ first_accepting (map plain_signature cands.now) (map plain_type args.now) 0 (map plain_signature cands.now) }
{
    for i in 0..cands.len() {
        let c = &cands[i];
        if accepts(args, c) {
            return resolution_from(cands, args, i, c);
        }
    }
    Resolution::NoneFits
}

/// The candidate that a call with arguments of these types takes. Takes no memory.
///
/// A candidate accepts where it has as many parameters as there are arguments, and each argument is
/// below its parameter. `One` has the place of the best: the accepting candidate whose parameters
/// are below those of every other accepting one. Where several with equal parameters are the best,
/// it is the first of them.
pub fn choose(cands: &[Signature], args: &[TypeInst]) -> Resolution
    ensures best { IsResolution (map plain_signature cands.now) (map plain_type args.now) result }
    ensures first { result ≡ resolution (map plain_signature cands.now) (map plain_type args.now) }
{
    first_accepting(cands, args)
}
