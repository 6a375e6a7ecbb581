// What follows an element of a list.

ghost use Rattle.std.specs.Prelude.{◌≡◌, ◌≤◌, ◌<◌, length, false, [], OnOk, IfOk, if◌then◌else◌};
ghost use Rattle.mz_grammar.specs.RulesPromise.{Gives};
ghost use Rattle.mz_grammar.specs.Tokens.{tok_at, behind};
ghost use Rattle.mz_grammar.specs.Look.{is_sym};
ghost use Rattle.mz_lexer.specs.declared.token.Symbol.TheVariants.{SComma};
ghost use Rattle.mz_dzn.specs.Steps.{goes_on_at, row_goes_on_at, file_goes_on_at};

use crate::word::ends_row;
use mz_base::Stop;
use mz_grammar::{Cursor, is_sym};
use mz_lexer::Symbol;

/// What follows an element: true after a separator, false after the closing symbol.
#[tactic(auto, unfolding(crate::specs::Steps::goes_on_at))]
pub fn goes_on(cur: &mut Cursor<'_>, separator: Symbol, closing: Symbol) -> Result<bool, Stop>
    ensures reads { Gives (λ b. b) cur.new.end cur.new.rest.now result (goes_on_at separator closing cur.old.rest.now) }
    ensures room { cur.new.room ≡ cur.old.room }
    ensures end { cur.new.end ≡ cur.old.end }
    ensures shorter { OnOk result (length cur.new.rest.now < length cur.old.rest.now) }
{
    if is_sym(separator, cur.tok()) {
        cur.skip();
        Ok(true)
    } else if is_sym(closing, cur.tok()) {
        cur.skip();
        Ok(false)
    } else {
        Err(cur.unfit())
    }
}

/// What follows a cell of a row: true after a comma with a further cell.
#[tactic(auto, unfolding(crate::specs::Steps::row_goes_on_at))]
pub fn row_goes_on(cur: &mut Cursor<'_>) -> bool
    ensures reads { Gives (λ b. b) cur.new.end cur.new.rest.now (Ok result) (row_goes_on_at cur.old.rest.now) }
    ensures room { cur.new.room ≡ cur.old.room }
    ensures end { cur.new.end ≡ cur.old.end }
    ensures shorter { length cur.new.rest.now ≤ length cur.old.rest.now }
{
    if !is_sym(Symbol::SComma, cur.tok()) {
        return false;
    }
    cur.skip();
    !ends_row(cur.tok())
}

/// What follows an item: true after a semicolon, false at the end of the file.
#[tactic(auto, unfolding(crate::specs::Steps::file_goes_on_at))]
pub fn file_goes_on(cur: &mut Cursor<'_>) -> Result<bool, Stop>
    ensures reads { Gives (λ b. b) cur.new.end cur.new.rest.now result (file_goes_on_at cur.old.rest.now) }
    ensures whole { IfOk result (λ more. more ≡ false → cur.new.rest.now ≡ []) }
    ensures room { cur.new.room ≡ cur.old.room }
    ensures end { cur.new.end ≡ cur.old.end }
    ensures shorter { OnOk result (length cur.new.rest.now ≤ length cur.old.rest.now) }
{
    if cur.tok().is_none() {
        Ok(false)
    } else if is_sym(Symbol::SSemi, cur.tok()) {
        cur.skip();
        Ok(true)
    } else {
        Err(cur.unfit())
    }
}

/// Passes a comma, where one comes next.
pub fn skip_comma(cur: &mut Cursor<'_>)
    ensures rest { cur.new.rest.now ≡ (if is_sym SComma (tok_at cur.old.rest.now) then behind cur.old.rest.now else cur.old.rest.now) }
    ensures room { cur.new.room ≡ cur.old.room }
    ensures end { cur.new.end ≡ cur.old.end }
    ensures shorter { length cur.new.rest.now ≤ length cur.old.rest.now }
{
    if is_sym(Symbol::SComma, cur.tok()) {
        cur.skip();
    }
}
