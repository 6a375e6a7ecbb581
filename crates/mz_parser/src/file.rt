// The items of a file, each up to its semicolon.

ghost use Rattle.std.specs.Prelude.{◌≡◌, map, [], OnOk};
ghost use Rattle.mz_grammar.specs.Reads.{Passes};
ghost use Rattle.mz_tree.specs.Items.{item};
ghost use Rattle.mz_grammar.specs.RulesPromise.{Gives};
ghost use Rattle.mz_grammar.specs.Parts as parts;
ghost use Rattle.mz_grammar.specs.Reading.{reads};
ghost use Rattle.mz_parser.specs.Model.{semicolon_at};

use crate::kinds::item;
use mz_base::Stop;
use mz_grammar::Cursor;
use mz_lexer::Symbol;
use mz_tree::Item;
use std::alloc::Global;

/// The items up to the end of the file.
#[tactic(auto, using(crate::proofs::Lists::items_reads, mz_grammar::proofs::Steps::no_prefix))]
pub fn all_items(alloc: Global, cur: &mut Cursor<'_>) -> Result<Vec<Item>, Stop>
    ensures reads { Gives (λ v. map item v.items) cur.new.end cur.new.rest.now result (reads parts.file cur.old.room cur.old.rest.now) }
    ensures room { OnOk result (cur.new.room ≡ cur.old.room) }
    ensures end { cur.new.end ≡ cur.old.end }
    ensures whole { OnOk result (cur.new.rest.now ≡ []) }
{
    let mut all = Vec::new(alloc);
    while cur.tok().is_some() {
        let i = item(alloc, cur)?;
        all.push(i)?;
        semicolon(cur)?;
    }
    Ok(all)
}

/// Passes the semicolon after an item, which may be missing after the last.
fn semicolon(cur: &mut Cursor<'_>) -> Result<(), Stop>
    ensures { Passes (λ u. tt) (λ room ts. semicolon_at ts) cur.old cur.new result }
{
    if cur.tok().is_none() {
        return Ok(());
    }
    cur.symbol(Symbol::SSemi)?;
    Ok(())
}
