// The parameters of a function.

ghost use Rattle.std.specs.Prelude.{map};
ghost use Rattle.mz_tree.specs.Views.{declaration};
ghost use Rattle.mz_grammar.specs.Reads.{Passes, Reads};
ghost use Rattle.mz_grammar.specs.Parts as parts;
ghost use Rattle.mz_grammar.specs.Reading.{reads};

use mz_base::Stop;
use mz_expr::parser::{annotations, type_text};
use mz_expr_operands::step::{ident, separator};
use mz_grammar::{Closing, Cursor, is_sym};
use mz_lexer::Symbol;
use mz_tree::{Decl, make_declaration};
use std::alloc::Global;

/// The parameters in their parentheses, or none where no parenthesis stands here.
#[tactic(auto, using(mz_grammar::proofs::ItemEquations::params_reads, mz_grammar::proofs::Steps::open_more, mz_grammar::proofs::Steps::open_none))]
pub fn params(alloc: Global, cur: &mut Cursor<'_>) -> Result<Vec<Decl>, Stop>
    ensures { Passes (λ v. map declaration v.items) (reads parts.params) cur.old cur.new result }
{
    if !is_sym(Symbol::SLParen, cur.tok()) {
        return Ok(Vec::new(alloc));
    }
    cur.push()?;
    cur.skip();
    let all = param_list(alloc, cur)?;
    cur.pop();
    Ok(all)
}

/// Parameters up to the closing parenthesis.
#[tactic(auto, using(mz_grammar::proofs::ItemEquations::param_list_reads, mz_grammar::proofs::Steps::no_prefix))]
fn param_list(alloc: Global, cur: &mut Cursor<'_>) -> Result<Vec<Decl>, Stop>
    ensures { Reads (λ v. map declaration v.items) (reads parts.param_list) cur.old cur.new result }
{
    let mut all = Vec::new(alloc);
    while !is_sym(Symbol::SRParen, cur.tok()) {
        let d = param(alloc, cur)?;
        all.push(d)?;
        if !separator(cur, Closing::Paren)? {
            return Ok(all);
        }
    }
    cur.skip();
    Ok(all)
}

/// A parameter. Its annotations are dropped.
#[tactic(auto, using(mz_grammar::proofs::ItemEquations::param_reads))]
fn param(alloc: Global, cur: &mut Cursor<'_>) -> Result<Decl, Stop>
    ensures { Reads declaration (reads parts.param) cur.old cur.new result }
{
    let ty = type_text(alloc, cur)?;
    cur.symbol(Symbol::SColon)?;
    let (name, span) = ident(cur)?;
    annotations(alloc, cur)?;
    Ok(make_declaration(ty, name, span, None))
}
