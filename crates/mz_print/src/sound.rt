// That the sets of a value are lists of ranges of the one form, as those of the code always are.

ghost use Rattle.std.specs.Prelude.{map};
ghost use Rattle.std.specs.List.{AllByRecursion};
ghost use Rattle.mz_value.specs.Contents.{content};
ghost use Rattle.mz_print.specs.Printable.{IsSoundSet, HasSoundSets};
ghost use Rattle.mz_value.specs.Ranges.{AreCanonical, AreInLimit};

use mz_value::{RangeSet, Value};

fn set_is_sound(s: &RangeSet)
    ensures canonical { AreCanonical s.now }
    ensures limits { AreInLimit s.now }
{
    let _ranges = s.ranges();
}

fn is_sound(v: &Value)
    ensures { IsSoundSet (content v.now) }
{
    match v {
        Value::Set(s) => set_is_sound(&s.ranges),
        _ => {}
    }
}

fn are_sound(items: &[Value])
    ensures { AllByRecursion IsSoundSet (map content items.now) }
{
    for x in items {
        is_sound(x);
    }
}

/// Looks at each set of a value.
pub(crate) fn sets_are_sound(v: &Value)
    ensures { HasSoundSets (content v.now) }
{
    match v {
        Value::Set(s) => set_is_sound(&s.ranges),
        Value::Array(a) => are_sound(&a.items),
        _ => {}
    }
}
