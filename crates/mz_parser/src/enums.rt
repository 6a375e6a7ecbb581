// The cases of an enum.

ghost use Rattle.std.specs.Prelude.{◌≡◌, Some};
ghost use Rattle.mz_grammar.specs.Reads.{Passes, Reads};
ghost use Rattle.mz_grammar.specs.Rules.{left_out, syntax};
ghost use Rattle.mz_grammar.specs.Tokens.{tok_at, place_or};
ghost use Rattle.mz_grammar.specs.RulesReading.{on};
ghost use Rattle.mz_grammar.specs.Tests.{ident_of};
ghost use Rattle.std.specs.Option.{option_map};
ghost use Rattle.mz_grammar.specs.RulesPromise.{fault_of};
ghost use Rattle.mz_grammar.specs.Parts as parts;
ghost use Rattle.mz_grammar.specs.Reading.{reads};
ghost use Rattle.mz_grammar.specs.Steps.{braced_at};

use mz_base::{Name, Span, Stop};
use mz_expr_operands::step::{ident, ident_of, separator};
use mz_grammar::{Closing, Cursor, is_sym};
use mz_lexer::Symbol;
use std::alloc::Global;

/// The cases after the `=`, or None where no `=` stands here.
#[tactic(auto, using(mz_grammar::proofs::ItemEquations::cases_reads))]
pub fn cases(alloc: Global, cur: &mut Cursor<'_>) -> Result<Option<Vec<(Name, Span)>>, Stop>
    ensures { Passes (λ cs. option_map (λ v. v.items) cs) (reads parts.cases) cur.old cur.new result }
{
    if !is_sym(Symbol::SEq, cur.tok()) {
        return Ok(None);
    }
    cur.skip();
    let all = braced(alloc, cur)?;
    Ok(Some(all))
}

/// The cases in their braces. A name that isn't in braces, and what would make more cases after them, is left out of the language.
#[tactic(auto, using(mz_grammar::proofs::Steps::open_more, mz_grammar::proofs::Steps::open_none))]
fn braced(alloc: Global, cur: &mut Cursor<'_>) -> Result<Vec<(Name, Span)>, Stop>
    ensures { Reads (λ v. Some v.items) braced_at cur.old cur.new result }
{
    if !is_sym(Symbol::SLBrace, cur.tok()) {
        return Err(unbraced(cur));
    }
    cur.push()?;
    cur.skip();
    let all = case_names(alloc, cur)?;
    cur.pop();
    if is_sym(Symbol::SConcat, cur.tok()) || is_sym(Symbol::SLParen, cur.tok()) {
        return Err(cur.left_out());
    }
    Ok(all)
}

/// A name in the place of the opening brace is left out of the language; another token fits nowhere.
fn unbraced(cur: &Cursor<'_>) -> Stop
    ensures { result ≡ Stop.Refused (fault_of (on (ident_of (tok_at cur.now.rest.now)) syntax (λ n. left_out)) (place_or cur.now.end cur.now.rest.now)) }
{
    match ident_of(cur) {
        None => cur.unfit(),
        Some(_) => cur.left_out(),
    }
}

/// The names of the cases up to the closing brace.
#[tactic(auto, using(mz_grammar::proofs::ItemEquations::case_names_reads, mz_grammar::proofs::Steps::prefix_prefix, mz_grammar::proofs::Steps::no_prefix))]
fn case_names(alloc: Global, cur: &mut Cursor<'_>) -> Result<Vec<(Name, Span)>, Stop>
    ensures { Reads (λ v. v.items) (reads parts.case_names) cur.old cur.new result }
{
    let mut all = Vec::new(alloc);
    while !is_sym(Symbol::SRBrace, cur.tok()) {
        let case = ident(cur)?;
        all.push(case)?;
        if !separator(cur, Closing::Brace)? {
            return Ok(all);
        }
    }
    cur.skip();
    Ok(all)
}
