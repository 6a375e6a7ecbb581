// The items of a model's file.
#![tactic(auto)]

ghost use Rattle.std.specs.Prelude.{◌≤◌, map, IfOk};
ghost use Rattle.mz_base.specs.declared.limit.TheConstants.{OPEN_LIMIT};
ghost use Rattle.mz_tree.specs.declared.height.TheConstants.{HEIGHT_LIMIT};
ghost use Rattle.mz_tree.specs.Items.{item, items_height};
ghost use Rattle.mz_grammar_ebnf.specs.ModelSyntax.{DerivesModel};
ghost use Rattle.mz_parser.specs.Model.{IsItems};

mod enums;
mod file;
mod kinds;
mod parameters;
mod token;

use crate::file::all_items;
use mz_base::{Span, Stop};
use mz_grammar::Cursor;
use mz_lexer::Token;
use mz_tree::Item;
use std::alloc::Global;

/// The items of a whole file, in their order. `end` is the place of the file's end.
///
/// Refused with Syntax, LeftOut or TooDeep, at the first token with which no file begins, or at `end` where the file isn't
/// complete there. LeftOut where the token begins a form that is left out of the language, TooDeep where it would be one more
/// open at once than `OPEN_LIMIT`. Memory where memory runs out.
pub fn items(alloc: Global, tokens: &[Token], end: Span) -> Result<Vec<Item>, Stop>
    ensures reads { IsItems end tokens.now result }
    ensures derived { IfOk result (λ items. DerivesModel OPEN_LIMIT tokens.now (map item items.items)) }
    ensures bounded { IfOk result (λ items. items_height items.items ≤ HEIGHT_LIMIT) }
{
    let mut cur = Cursor::new(tokens, end);
    all_items(alloc, &mut cur)
}
