// Values that no list but a set's stands in.

ghost use Rattle.std.specs.Prelude.{◌≡◌, ◌≤◌, ◌<◌, length, OnOk};
ghost use Rattle.mz_grammar.specs.Reads.{Reads};
ghost use Rattle.mz_tree.specs.Data.{value, is_name};
ghost use Rattle.mz_grammar.specs.RulesPromise.{Gives};
ghost use Rattle.mz_grammar.specs.Tokens.{place};
ghost use Rattle.mz_dzn.specs.Steps.{braces_at};
ghost use Rattle.mz_grammar.specs.Data.{reads, plain, range, set, bounds, one};

use crate::list::ones;
use crate::word::{literal_of, negated_of};
use mz_base::Stop;
use mz_grammar::{Cursor, is_sym};
use mz_lexer::Symbol;
use mz_tree::{Datum, make_absent_datum, make_int_datum, make_range_datum, make_set_datum};
use std::alloc::Global;

/// A truth value, a number or an identifier.
#[tactic(auto, using(crate::proofs::Equations::one_reads))]
pub fn one(cur: &mut Cursor<'_>) -> Result<Datum, Stop>
    ensures reads { Gives (λ d. (place cur.old.rest.now, value d)) cur.new.end cur.new.rest.now result (reads one cur.old.room cur.old.rest.now) }
    ensures room { cur.new.room ≡ cur.old.room }
    ensures end { cur.new.end ≡ cur.old.end }
    ensures shorter { OnOk result (length cur.new.rest.now < length cur.old.rest.now) }
{
    if is_sym(Symbol::SMinus, cur.tok()) {
        cur.skip();
        let Some(z) = negated_of(cur.tok()) else {
            return Err(cur.unfit());
        };
        cur.skip();
        return Ok(make_int_datum(z));
    }
    let Some(literal) = literal_of(cur.tok()) else {
        return Err(cur.unfit());
    };
    cur.skip();
    Ok(literal)
}

/// What may follow a value that is one token: the upper end of a range.
#[tactic(auto, using(crate::proofs::Equations::range_reads))]
pub fn range_from(alloc: Global, cur: &mut Cursor<'_>, from: Datum) -> Result<Datum, Stop>
    ensures reads { Gives value cur.new.end cur.new.rest.now result (reads (range (value from)) cur.old.room cur.old.rest.now) }
    ensures room { cur.new.room ≡ cur.old.room }
    ensures end { cur.new.end ≡ cur.old.end }
    ensures shorter { OnOk result (length cur.new.rest.now ≤ length cur.old.rest.now) }
{
    if !is_sym(Symbol::SDots, cur.tok()) {
        return Ok(from);
    }
    cur.skip();
    let to = one(cur)?;
    Ok(make_range_datum(alloc, from, to)?)
}

/// What follows the first value of a set: the upper end of a range, which only an identifier can do without.
#[tactic(auto, using(crate::proofs::Equations::bounds_reads))]
fn bounds_from(alloc: Global, cur: &mut Cursor<'_>, from: Datum) -> Result<Datum, Stop>
    ensures reads { Gives value cur.new.end cur.new.rest.now result (reads (bounds (is_name (value from)) (value from)) cur.old.room cur.old.rest.now) }
    ensures room { cur.new.room ≡ cur.old.room }
    ensures end { cur.new.end ≡ cur.old.end }
    ensures shorter { OnOk result (length cur.new.rest.now ≤ length cur.old.rest.now) }
{
    if is_sym(Symbol::SDots, cur.tok()) {
        cur.skip();
        let to = one(cur)?;
        return Ok(make_range_datum(alloc, from, to)?);
    }
    if from.is_name() {
        return Ok(from);
    }
    Err(cur.unfit())
}

/// A set in braces, before its `{`.
fn braces(alloc: Global, cur: &mut Cursor<'_>) -> Result<Datum, Stop>
    requires { 0 < length cur.old.rest.now }
    ensures { Reads value braces_at cur.old cur.new result }
{
    cur.push()?;
    cur.skip();
    let elements = ones(alloc, cur)?;
    cur.pop();
    Ok(make_set_datum(elements))
}

/// A set: in braces, a range or an identifier.
#[tactic(auto, using(crate::proofs::Equations::set_reads))]
pub fn index_set(alloc: Global, cur: &mut Cursor<'_>) -> Result<Datum, Stop>
    ensures { Reads value (reads set) cur.old cur.new result }
{
    if is_sym(Symbol::SLBrace, cur.tok()) {
        return braces(alloc, cur);
    }
    let from = one(cur)?;
    bounds_from(alloc, cur, from)
}

/// A value that is no array.
#[tactic(auto, using(crate::proofs::Equations::plain_reads))]
pub fn plain(alloc: Global, cur: &mut Cursor<'_>) -> Result<Datum, Stop>
    ensures { Reads (λ d. (place cur.old.rest.now, value d)) (reads plain) cur.old cur.new result }
{
    if is_sym(Symbol::SLBrace, cur.tok()) {
        return braces(alloc, cur);
    }
    if is_sym(Symbol::SAbsent, cur.tok()) {
        cur.skip();
        return Ok(make_absent_datum());
    }
    let from = one(cur)?;
    range_from(alloc, cur, from)
}
