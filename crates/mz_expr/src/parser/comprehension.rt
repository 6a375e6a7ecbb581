// Generators.

ghost use Rattle.std.specs.Prelude.{map};
ghost use Rattle.std.specs.Option.{option_map};
ghost use Rattle.mz_tree.specs.Tree as pure;
ghost use Rattle.mz_tree.specs.Views.{tree, generator};
ghost use Rattle.mz_grammar.specs.Reads.{Passes, Reads};
ghost use Rattle.mz_grammar.specs.RulesReading.{with_prefix};
ghost use Rattle.mz_grammar.specs.Parts as parts;
ghost use Rattle.mz_grammar.specs.Reading.{reads};
ghost use Rattle.mz_grammar.specs.Steps.{generators_at};
ghost use Rattle.mz_expr.specs.Descent.{MayRead};

use crate::parser::descent::{Descent, Entry};
use mz_base::{Name, OneDrop, Span, Stop};
use mz_expr_operands::operand::Operand;
use mz_expr_operands::step::{closes, ident, ident_of, separator};
use mz_grammar::{Closing, Cursor, Level, is_sym, is_word};
use mz_lexer::{Keyword, Symbol};
use mz_tree::{Expr, Gen, make_generator};
use std::alloc::Global;

impl<F: Fn(Global, &mut Cursor<'_>, Entry) -> Result<Operand, Stop>> Descent<F> {
    /// A generator.
    #[tactic(auto, using(mz_grammar::proofs::ListEquations::generator_reads))]
    pub fn generator(&self, cur: &mut Cursor<'_>) -> Result<Gen, Stop>
        requires { MayRead self.now.room self.now.entry (F.pre self.now.reader) (F.post self.now.reader) cur.old }
        ensures { Reads generator (reads parts.generator) cur.old cur.new result }
    {
        let first = ident(cur)?;
        let mut before = Vec::new(self.alloc);
        before.push(first)?;
        let names = more_names(self.alloc, cur, before)?;
        cur.word(Keyword::KIn)?;
        let x = self.inside(cur, Entry::Level(Level::Union))?;
        let set = OneDrop::new(x.into_expr(self.alloc)?);
        let cond = self.filter(cur)?;
        Ok(make_generator(names, set.take(), cond))
    }

    /// What a generator's `where` says, if there is one.
    #[tactic(auto, using(mz_grammar::proofs::ListEquations::filter_reads))]
    pub fn filter(&self, cur: &mut Cursor<'_>) -> Result<Option<Expr>, Stop>
        requires { MayRead self.now.room self.now.entry (F.pre self.now.reader) (F.post self.now.reader) cur.old }
        ensures { Passes (λ e. pure.maybe (option_map tree e)) (reads parts.filter) cur.old cur.new result }
    {
        if !is_word(Keyword::KWhere, cur.tok()) {
            return Ok(None);
        }
        cur.skip();
        let e = self.expr(cur)?;
        Ok(Some(e))
    }

    /// Generators, one at least, and the closing token.
    #[tactic(auto, using(mz_grammar::proofs::Equations::generators_reads, mz_grammar::proofs::Steps::prefix_push, std::proofs::lemmas::List::map_push, mz_grammar::proofs::Steps::nothing_behind, mz_grammar::proofs::Steps::no_prefix))]
    pub fn generators(&self, cur: &mut Cursor<'_>, c: Closing) -> Result<Vec<Gen>, Stop>
        requires { MayRead self.now.room self.now.entry (F.pre self.now.reader) (F.post self.now.reader) cur.old }
        ensures { Reads (λ v. map generator v.items) (generators_at c) cur.old cur.new result }
    {
        let mut all = Vec::new(self.alloc);
        loop {
            let g = self.generator(cur)?;
            all.push(g)?;
            if !separator(cur, c)? {
                return Ok(all);
            }
            if closes(c, cur.tok()) {
                cur.skip();
                return Ok(all);
            }
        }
    }
}

/// Names, each after a comma, after those that were read.
#[tactic(auto, using(mz_grammar::proofs::ListEquations::more_names_reads, mz_grammar::proofs::Steps::prefix_more, mz_grammar::proofs::Steps::nothing_behind))]
fn more_names(
    alloc: Global,
    cur: &mut Cursor<'_>,
    before: Vec<(Name, Span)>,
) -> Result<Vec<(Name, Span)>, Stop>
    ensures { Passes (λ v. v.items) (λ room ts. with_prefix before.items (reads parts.more_names room ts)) cur.old cur.new result }
{
    let mut all = before;
    while is_sym(Symbol::SComma, cur.tok()) {
        cur.skip();
        match ident_of(cur) {
            None => return Ok(all),
            Some(name) => {
                let at = cur.pass();
                all.push((name, at))?;
            }
        }
    }
    Ok(all)
}
