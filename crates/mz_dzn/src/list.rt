// Lists: each is read in a loop, however long it is.

ghost use Rattle.std.specs.Prelude.{map};
ghost use Rattle.mz_tree.specs.Data.{value};
ghost use Rattle.mz_grammar.specs.Reads.{Passes, Reads};
ghost use Rattle.mz_grammar.specs.Data.{reads, plains, rows, row, ones, index_sets};

use crate::step::{goes_on, row_goes_on, skip_comma};
use crate::value::{index_set, one, plain};
use mz_base::Stop;
use mz_grammar::{Cursor, is_sym};
use mz_lexer::Symbol;
use mz_tree::Datum;
use std::alloc::Global;

/// The elements of a set, up to and with the `}`.
#[tactic(auto, using(crate::proofs::Equations::ones_reads, mz_grammar::proofs::Steps::prefix_push, std::proofs::lemmas::List::map_push, mz_grammar::proofs::Steps::nothing_behind, mz_grammar::proofs::Steps::no_prefix))]
pub fn ones(alloc: Global, cur: &mut Cursor<'_>) -> Result<Vec<Datum>, Stop>
    ensures { Reads (λ v. map value v.items) (reads ones) cur.old cur.new result }
{
    let mut all = Vec::new(alloc);
    while !is_sym(Symbol::SRBrace, cur.tok()) {
        let datum = one(cur)?;
        all.push(datum)?;
        if !goes_on(cur, Symbol::SComma, Symbol::SRBrace)? {
            return Ok(all);
        }
    }
    cur.skip();
    Ok(all)
}

/// The elements of an array, up to and with the `]`.
#[tactic(auto, using(crate::proofs::Equations::plains_reads, mz_grammar::proofs::Steps::prefix_push, std::proofs::lemmas::List::map_push, mz_grammar::proofs::Steps::nothing_behind, mz_grammar::proofs::Steps::no_prefix))]
pub fn plains(alloc: Global, cur: &mut Cursor<'_>) -> Result<Vec<Datum>, Stop>
    ensures { Reads (λ v. map value v.items) (reads plains) cur.old cur.new result }
{
    let mut all = Vec::new(alloc);
    while !is_sym(Symbol::SRBrack, cur.tok()) {
        let datum = plain(alloc, cur)?;
        all.push(datum)?;
        if !goes_on(cur, Symbol::SComma, Symbol::SRBrack)? {
            return Ok(all);
        }
    }
    cur.skip();
    Ok(all)
}

/// The cells of a row, before the `|` or `|]` after it.
#[tactic(auto, using(crate::proofs::Equations::row_reads, mz_grammar::proofs::Steps::prefix_push, std::proofs::lemmas::List::map_push, mz_grammar::proofs::Steps::nothing_behind, mz_grammar::proofs::Steps::no_prefix))]
fn row(alloc: Global, cur: &mut Cursor<'_>) -> Result<Vec<Datum>, Stop>
    ensures { Reads (λ v. map value v.items) (reads row) cur.old cur.new result }
{
    let mut all = Vec::new(alloc);
    loop {
        let datum = plain(alloc, cur)?;
        all.push(datum)?;
        if !row_goes_on(cur) {
            return Ok(all);
        }
    }
}

/// The rows of a table, up to and with the `|]`.
#[tactic(auto, using(crate::proofs::Equations::rows_reads, mz_grammar::proofs::Steps::prefix_push, std::proofs::lemmas::List::map_push, mz_grammar::proofs::Steps::nothing_behind, mz_grammar::proofs::Steps::no_prefix))]
pub fn rows(alloc: Global, cur: &mut Cursor<'_>) -> Result<Vec<Vec<Datum>>, Stop>
    ensures { Reads (λ v. map (λ l. map value l.items) v.items) (reads rows) cur.old cur.new result }
{
    let mut all = Vec::new(alloc);
    while !is_sym(Symbol::SRRows, cur.tok()) {
        let cells = row(alloc, cur)?;
        all.push(cells)?;
        if !goes_on(cur, Symbol::SBar, Symbol::SRRows)? {
            return Ok(all);
        }
    }
    cur.skip();
    Ok(all)
}

/// The index sets of an array, this many, each with the comma after it; and one comma more, where it stands there.
#[tactic(auto, using(crate::proofs::Equations::index_sets_more, crate::proofs::Equations::index_sets_none, mz_grammar::proofs::Steps::prefix_push, std::proofs::lemmas::List::map_push, mz_grammar::proofs::Steps::nothing_behind, mz_grammar::proofs::Steps::no_prefix))]
pub fn index_sets(alloc: Global, cur: &mut Cursor<'_>, dimensions: u8) -> Result<Vec<Datum>, Stop>
    ensures { Passes (λ v. map value v.items) (reads (index_sets dimensions)) cur.old cur.new result }
{
    let mut all = Vec::new(alloc);
    let mut left = dimensions;
    while left > 0 {
        let datum = index_set(alloc, cur)?;
        all.push(datum)?;
        cur.symbol(Symbol::SComma)?;
        left -= 1;
    }
    skip_comma(cur);
    Ok(all)
}
