// The items of a data file.

ghost use Rattle.std.specs.Prelude.{◌≡◌, ◌<◌, ℕ, [], length, map, OnOk, IfOk, IfErr, All};
ghost use Rattle.mz_grammar.specs.Reads.{Passes, Reads};
ghost use Rattle.mz_base.specs.Faults.{IfRefused};
ghost use Rattle.mz_base.specs.declared.limit.TheConstants.{OPEN_LIMIT};
ghost use Rattle.mz_tree.specs.Data.{value, given};
ghost use Rattle.mz_grammar.specs.RulesPromise.{Gives, Answers};
ghost use Rattle.mz_grammar.specs.Tokens.{place};
ghost use Rattle.mz_grammar.specs.Data.{rule, reads, dimensions_of, file, item, datum, named, sized};
ghost use Rattle.mz_lexer.specs.Views.{HasName};
ghost use Rattle.mz_tree.specs.Named.{IsGivenWithin};
ghost use Rattle.mz_grammar_ebnf.specs.DataSyntax.{DerivesFile};
ghost use Rattle.mz_dzn.specs.DataFile.{IsGivenIn, IsNoDataFile};
ghost use Rattle.mz_dzn.specs.Steps.{array_at, table_at, brackets_at};

use crate::dimensions::dimensions_of;
use crate::list::{index_sets, plains, rows};
use crate::step::file_goes_on;
use crate::value::{plain, range_from};
use crate::word::ident_of;
use mz_base::{Kind, Name, Names, Span, Stop};
use mz_grammar::{Cursor, is_sym};
use mz_lexer::{Symbol, Token};
use mz_tree::{
    Data, DataItem, Datum, make_array_datum, make_array_nd_datum, make_ident_datum, make_rows_datum,
};
use std::alloc::Global;

/// The elements of an array with index sets, in their brackets.
fn brackets(alloc: Global, cur: &mut Cursor<'_>) -> Result<Vec<Datum>, Stop>
    ensures { Reads (λ v. map value v.items) brackets_at cur.old cur.new result }
{
    if !is_sym(Symbol::SLBrack, cur.tok()) {
        return Err(cur.unfit());
    }
    cur.push()?;
    cur.skip();
    let elements = plains(alloc, cur)?;
    cur.pop();
    Ok(elements)
}

/// What follows the `(` of an array with this many index sets, up to and with the `)`.
#[tactic(auto, using(crate::proofs::Equations::sized_reads))]
fn sized(alloc: Global, cur: &mut Cursor<'_>, dimensions: u8) -> Result<Datum, Stop>
    ensures { Passes value (reads (sized dimensions)) cur.old cur.new result }
{
    let sets = index_sets(alloc, cur, dimensions)?;
    let elements = brackets(alloc, cur)?;
    cur.symbol(Symbol::SRParen)?;
    Ok(make_array_nd_datum(sets, elements))
}

/// What follows an identifier with which a value begins.
#[tactic(auto, using(crate::proofs::Equations::named_reads))]
fn named(alloc: Global, cur: &mut Cursor<'_>, names: &Names, name: Name) -> Result<Datum, Stop>
    ensures { Passes value (reads (named (dimensions_of names.now name) name)) cur.old cur.new result }
{
    if !is_sym(Symbol::SLParen, cur.tok()) {
        return range_from(alloc, cur, make_ident_datum(name));
    }
    let Some(dimensions) = dimensions_of(names, name) else {
        return Err(cur.unfit());
    };
    cur.push()?;
    cur.skip();
    let array = sized(alloc, cur, dimensions)?;
    cur.pop();
    Ok(array)
}

/// An array in brackets, before its `[`.
fn array(alloc: Global, cur: &mut Cursor<'_>) -> Result<Datum, Stop>
    requires { 0 < length cur.old.rest.now }
    ensures { Reads (λ d. (place cur.old.rest.now, value d)) array_at cur.old cur.new result }
{
    cur.push()?;
    cur.skip();
    let elements = plains(alloc, cur)?;
    cur.pop();
    Ok(make_array_datum(elements))
}

/// A table of rows, before its `[|`.
fn table(alloc: Global, cur: &mut Cursor<'_>) -> Result<Datum, Stop>
    requires { 0 < length cur.old.rest.now }
    ensures { Reads (λ d. (place cur.old.rest.now, value d)) table_at cur.old cur.new result }
{
    cur.push()?;
    cur.skip();
    let lines = rows(alloc, cur)?;
    cur.pop();
    Ok(make_rows_datum(lines))
}

/// A value.
#[tactic(auto, using(crate::proofs::Equations::datum_reads))]
fn datum(alloc: Global, cur: &mut Cursor<'_>, names: &Names) -> Result<Datum, Stop>
    ensures { Reads (λ d. (place cur.old.rest.now, value d)) (reads (datum (dimensions_of names.now))) cur.old cur.new result }
{
    if is_sym(Symbol::SLBrack, cur.tok()) {
        return array(alloc, cur);
    }
    if is_sym(Symbol::SLRows, cur.tok()) {
        return table(alloc, cur);
    }
    let Some(name) = ident_of(cur.tok()) else {
        return plain(alloc, cur);
    };
    cur.skip();
    named(alloc, cur, names, name)
}

/// A name and its value.
#[tactic(auto, using(crate::proofs::Equations::item_reads))]
fn item(alloc: Global, cur: &mut Cursor<'_>, names: &Names) -> Result<DataItem, Stop>
    ensures { Reads given (reads (item (dimensions_of names.now))) cur.old cur.new result }
{
    let Some(name) = ident_of(cur.tok()) else {
        return Err(cur.unfit());
    };
    let span = cur.pass();
    cur.symbol(Symbol::SEq)?;
    let at = cur.place();
    let datum = datum(alloc, cur, names)?;
    Ok(DataItem {
        name,
        span,
        at,
        datum,
    })
}

/// All items, up to the end of the file.
#[tactic(auto, using(crate::proofs::Equations::file_reads, mz_grammar::proofs::Steps::prefix_push, std::proofs::lemmas::List::map_push, mz_grammar::proofs::Steps::nothing_behind, mz_grammar::proofs::Steps::no_prefix))]
fn file(alloc: Global, cur: &mut Cursor<'_>, names: &Names) -> Result<Vec<DataItem>, Stop>
    ensures reads { Gives (λ v. map given v.items) cur.new.end cur.new.rest.now result (reads (file (dimensions_of names.now)) cur.old.room cur.old.rest.now) }
    ensures whole { OnOk result (cur.new.rest.now ≡ []) }
    ensures room { OnOk result (cur.new.room ≡ cur.old.room) }
    ensures end { cur.new.end ≡ cur.old.end }
{
    let mut all = Vec::new(alloc);
    while cur.tok().is_some() {
        let item = item(alloc, cur, names)?;
        all.push(item)?;
        if !file_goes_on(cur)? {
            return Ok(all);
        }
    }
    Ok(all)
}

/// The items of a data file's tokens, in order.
///
/// `end` is the place of the file's end, and `names` the table of the tokens' names: the texts `array1d` to `array6d`
/// begin an array with index sets where a `(` follows. The table is only read. Where the tokens' names are of it, the
/// names in the items are; and where the tokens' places are in one file, so are the items'.
///
/// In an item `span` is the name's place and `at` that of the value's first token: the tokens' own places, with lines
/// and columns from 1 and bytes from 0. A list may be as long as memory allows, since each is read in a loop.
///
/// The one refusal is Syntax, at the first token with which no data file goes on, or at `end` where the file may not
/// end there. No data file has enough open brackets for TooDeep, and none is LeftOut. After a refusal, or where memory runs out,
/// nothing is given.
pub fn data_items(alloc: Global, tokens: &[Token], end: Span, names: &Names) -> Result<Data, Stop>
    ensures answers { Answers rule (file (dimensions_of names.now)) (λ d. map given d.items.items) OPEN_LIMIT end tokens.now [] result }
    ensures derived { IfOk result (λ d. DerivesFile (dimensions_of names.now) OPEN_LIMIT tokens.now (map given d.items.items)) }
    ensures not_derived { IfErr result (λ s. IfRefused s (λ f. IsNoDataFile names.now tokens.now)) }
    ensures named { IfOk result (λ d. All (HasName names.now) tokens.now → All (IsGivenWithin (length names.now)) (map given d.items.items)) }
    ensures placed { IfOk result (λ d. (number : ℕ) → All (λ t. t.span.file ≡ number) tokens.now → All (IsGivenIn number) (map given d.items.items)) }
    ensures syntax { IfErr result (λ s. IfRefused s (λ f. f.kind ≡ Kind.Syntax)) }
{
    let mut cur = Cursor::new(tokens, end);
    let items = file(alloc, &mut cur, names)?;
    Ok(Data { items })
}
