// Whether operands have values for which a node is defined, by their ranges.

ghost use Rattle.std.specs.Prelude.{◌≡◌, ◌<◌, ◌^◌, pos, true, false};
ghost use Rattle.mz_operations.specs.Monotone.{MayDivide};
ghost use Rattle.fz_program.specs.Arguments.{plain};
ghost use Rattle.fz_build.specs.Bounds.{ends_of};
ghost use Rattle.fz_build.specs.Growth.{EndsEnclose};
ghost use Rattle.flat_reif_rows.specs.Elements.{Reaches, ReachesNone};

use fz_build::Build;
use fz_program::Arg;

fn is_zero(ends: (i64, i64)) -> bool
    ensures yes { result ≡ true → ends ≡ (pos 0, pos 0) }
    ensures no { result ≡ false → MayDivide ends }
{
    ends.0 == 0 && ends.1 == 0
}

/// Whether an integer may be another number than 0, by its domain: then it may be a divisor. In each
/// solution it lies between the ends of its domain.
pub fn may_divide(build: &Build, a: &Arg) -> bool
    ensures yes { result ≡ true → MayDivide (ends_of build.now.vars (plain a.now)) }
    ensures no { result ≡ false → ends_of build.now.vars (plain a.now) ≡ (pos 0, pos 0) }
    ensures encloses { EndsEnclose build.now.vars (plain a.now) }
{
    !is_zero(build.ends(a))
}

fn reaches(ends: (i64, i64), count: u64) -> bool
    requires { count < 2 ^ 63 }
    ensures yes { result ≡ true → Reaches ends count }
    ensures no { result ≡ false → ReachesNone ends count }
{
    1 <= count && 1 <= ends.1 && ends.0 <= count as i64
}

/// Whether an integer may be a place of a list of this many elements, by the ends of its domain: if so, an
/// access with this index to such a list has a row. In each solution the index lies between these ends.
pub fn may_reach(build: &Build, index: &Arg, count: u64) -> bool
    requires { count < 2 ^ 63 }
    ensures yes { result ≡ true → Reaches (ends_of build.now.vars (plain index.now)) count }
    ensures no { result ≡ false → ReachesNone (ends_of build.now.vars (plain index.now)) count }
    ensures encloses { EndsEnclose build.now.vars (plain index.now) }
{
    reaches(build.ends(index), count)
}
