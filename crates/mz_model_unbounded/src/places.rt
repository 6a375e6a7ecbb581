// The first of several places, in source order.

ghost use Rattle.std.specs.Prelude.{◌≡◌};
ghost use Rattle.mz_model_unbounded.specs.Firsts.{earlier, first_place};
ghost use Rattle.mz_meaning.specs.Unbounded.{only_if, stands_before};

use mz_base::Span;

fn is_before(a: &Span, b: &Span) -> bool
    ensures { result ≡ stands_before a.now b.now }
{
    a.file < b.file || (a.file == b.file && a.byte < b.byte)
}

/// Goes on with this place, where it is before the one that is found so far.
fn note(found: &mut Option<Span>, at: &Span)
    ensures { found.new ≡ earlier found.old at.now }
{
    match found {
        None => *found = Some(*at),
        Some(best) => {
            if is_before(at, best) {
                *found = Some(*at);
            }
        }
    }
}

/// Goes on with this place, where it is one of those that are looked for.
#[tactic(auto, using(crate::proofs::Firsts::first_of_none, crate::proofs::Firsts::first_of_one))]
pub(crate) fn note_if(found: &mut Option<Span>, here: bool, at: &Span)
    ensures { found.new ≡ first_place found.old (only_if here at.now) }
{
    if here {
        note(found, at);
    }
}
