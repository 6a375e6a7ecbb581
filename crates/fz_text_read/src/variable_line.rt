// The lines of variables.

ghost use Rattle.std.specs.Prelude.{◌≡◌};
ghost use Rattle.fz_items.specs.Gives.{Gives, with_rest};
ghost use Rattle.fz_program.specs.Flat.{variable};
ghost use Rattle.fz_text_read.specs.Lines.{
  defined_mark,
  domain_at,
  integers_at,
  introduced_mark,
  mark_at,
  marked_at,
  output_mark,
  set_of_at,
};

use crate::list::set;
use crate::parts::Part;
use crate::token::{behind, expect, label as named, name};
use fz_items::Miss;
use fz_program::{Domain, FzVar};
use std::alloc::Global;

#[tactic(auto, unfolding(crate::specs::Lines::set_of_at))]
fn set_of(alloc: Global, bytes: &[u8]) -> Result<(Domain, &[u8]), Miss>
    ensures { Gives (with_rest (λ d. d)) result (set_of_at bytes.now) }
{
    let (s, rest) = given!(set(alloc, bytes));
    Ok((Domain::SetOf(s), rest))
}

#[tactic(auto, unfolding(crate::specs::Lines::integers_at))]
fn integers(alloc: Global, bytes: &[u8]) -> Result<(Domain, &[u8]), Miss>
    ensures { Gives (with_rest (λ d. d)) result (integers_at bytes.now) }
{
    let (s, rest) = given!(set(alloc, bytes));
    Ok((Domain::Ints(s), rest))
}

/// `bool`, a set, or `set of` a set.
#[tactic(auto, unfolding(crate::specs::Lines::domain_at))]
fn domain_of(alloc: Global, bytes: &[u8]) -> Result<(Domain, &[u8]), Miss>
    ensures { Gives (with_rest (λ d. d)) result (domain_at bytes.now) }
{
    match behind(b"bool", bytes) {
        Some(rest) => Ok((Domain::Bool, rest)),
        None => match behind(b"set of ", bytes) {
            Some(rest) => set_of(alloc, rest),
            None => integers(alloc, bytes),
        },
    }
}

/// Whether a mark stands first, and the bytes after it, where it does.
#[tactic(auto, unfolding(crate::specs::Lines::mark_at))]
fn mark<'a>(text: &[u8], bytes: &'a [u8]) -> (bool, &'a [u8])
    ensures { (result.0, (result.1).now) ≡ mark_at text.now bytes.now }
{
    match behind(text, bytes) {
        Some(rest) => (true, rest),
        None => (false, bytes),
    }
}

/// The marks of a variable and the end of its line.
#[tactic(auto, unfolding(crate::specs::Lines::marked_at))]
fn marked<'a>(
    alloc: Global,
    domain: Domain,
    label: &str,
    bytes: &'a [u8],
) -> Result<(FzVar, &'a [u8]), Miss>
    ensures { Gives (with_rest variable) result (marked_at domain label.now bytes.now) }
{
    let (output, rest) = mark(b" :: output_var", bytes);
    let (introduced, rest) = mark(b" :: var_is_introduced", rest);
    let (defined, rest) = mark(b" :: is_defined_var", rest);
    let rest = given!(expect(b";\n", rest));
    let label = given!(named(alloc, label));
    Ok((
        FzVar {
            label,
            domain,
            introduced,
            defined,
            output,
        },
        rest,
    ))
}

/// A variable's line, after `var `.
#[derive(Drop)]
pub(crate) struct VariableLine {
    pub alloc: Global,
}

impl<'a> Part<'a> for VariableLine {
    ghost use Rattle.fz_program.specs.Flat.{Variable, variable};
    ghost use Rattle.fz_text_read.specs.Lines.{variable_at};

    type Item = FzVar;

    ghost Seen = { Variable };

    ghost seen = { variable };

    ghost read_at = { λ p. variable_at };

    #[tactic(auto, unfolding(crate::specs::Lines::variable_at))]
    fn read(&self, bytes: &'a [u8]) -> Result<(FzVar, &'a [u8]), Miss> {
        let (domain, rest) = given!(domain_of(self.alloc, bytes));
        let rest = given!(expect(b": ", rest));
        let (label, rest) = given!(name(rest));
        marked(self.alloc, domain, label, rest)
    }
}
