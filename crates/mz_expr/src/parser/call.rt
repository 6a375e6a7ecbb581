// Names and calls.

ghost use Rattle.std.specs.Prelude.{◌≡◌, ◌<◌, length, map, true};
ghost use Rattle.mz_grammar.specs.Tokens.{tok_at};
ghost use Rattle.mz_grammar.specs.Look.{is_sym};
ghost use Rattle.mz_grammar.specs.Reads.{Passes, Reads};
ghost use Rattle.mz_grammar.specs.RulesReading.{mapped, with_prefix};
ghost use Rattle.mz_grammar.specs.Parts as parts;
ghost use Rattle.mz_grammar.specs.Reading.{reads};
ghost use Rattle.mz_grammar.specs.Steps.{called_at, guarded_at, waited_at};
ghost use Rattle.mz_expr_operands.specs.Views.{operand, argument};
ghost use Rattle.mz_expr.specs.Descent.{MayOpen, MayRead};

use crate::parser::descent::{Descent, Entry};
use mz_base::{Name, OneDrop, Span, Stop};
use mz_expr_operands::argument::{
    Argument, awaits_in, exprs_of, generators_of, guarded_argument, possible_after,
    strict_argument, takes_where,
};
use mz_expr_operands::operand::{Operand, other};
use mz_expr_operands::step::separator;
use mz_grammar::{Closing, Cursor, Generators, Level, is_sym, is_word};
use mz_lexer::{Keyword, Symbol};
use mz_tree::{make_call, make_gen_call, make_generator};
use std::alloc::Global;

impl<F: Fn(Global, &mut Cursor<'_>, Entry) -> Result<Operand, Stop>> Descent<F> {
    /// A name, or a call of it.
    #[tactic(auto, using(mz_grammar::proofs::Equations::named_reads, mz_grammar::proofs::Steps::open_more, mz_grammar::proofs::Steps::open_none))]
    pub fn named(&self, cur: &mut Cursor<'_>, name: Name, at: Span) -> Result<Operand, Stop>
        requires { MayOpen self.now.room self.now.entry (F.pre self.now.reader) (F.post self.now.reader) cur.old }
        ensures { Passes operand (reads (parts.named name at)) cur.old cur.new result }
    {
        if !is_sym(Symbol::SLParen, cur.tok()) {
            return Ok(Operand::Name(name, at));
        }
        cur.push()?;
        cur.skip();
        let args = self.arguments(cur)?;
        cur.pop();
        self.called(cur, name, at, args)
    }

    /// A call, after its arguments.
    fn called(
        &self,
        cur: &mut Cursor<'_>,
        name: Name,
        at: Span,
        args: Vec<Argument>,
    ) -> Result<Operand, Stop>
        requires { MayOpen self.now.room self.now.entry (F.pre self.now.reader) (F.post self.now.reader) cur.old }
        ensures { Passes operand (called_at name at (map argument args.items)) cur.old cur.new result }
    {
        if is_sym(Symbol::SLParen, cur.tok()) {
            return self.generator_call(cur, name, at, args);
        }
        match exprs_of(self.alloc, args)? {
            None => Err(cur.unfit()),
            Some(all) => Ok(other(at, make_call(at, name, all))),
        }
    }

    /// The second parentheses of a call with generators.
    #[tactic(auto, using(mz_grammar::proofs::Steps::open_more, mz_grammar::proofs::Steps::open_none))]
    fn generator_call(
        &self,
        cur: &mut Cursor<'_>,
        name: Name,
        at: Span,
        args: Vec<Argument>,
    ) -> Result<Operand, Stop>
        requires may { MayOpen self.now.room self.now.entry (F.pre self.now.reader) (F.post self.now.reader) cur.old }
        requires opens { is_sym Symbol.SLParen (tok_at cur.old.rest.now) ≡ true }
        ensures { Passes operand (called_at name at (map argument args.items)) cur.old cur.new result }
    {
        match generators_of(self.alloc, args)? {
            None => Err(cur.unfit()),
            Some(all) => {
                cur.push()?;
                cur.skip();
                let e = OneDrop::new(self.expr(cur)?);
                cur.symbol(Symbol::SRParen)?;
                cur.pop();
                Ok(other(at, make_gen_call(self.alloc, at, name, all, e.take())?))
            }
        }
    }

    /// The arguments of a call, and the closing parenthesis.
    #[tactic(auto, using(mz_grammar::proofs::Equations::arguments_reads, mz_grammar::proofs::Steps::prefix_push, std::proofs::lemmas::List::map_push, mz_grammar::proofs::Steps::nothing_behind, mz_grammar::proofs::Steps::no_prefix))]
    fn arguments(&self, cur: &mut Cursor<'_>) -> Result<Vec<Argument>, Stop>
        requires { MayRead self.now.room self.now.entry (F.pre self.now.reader) (F.post self.now.reader) cur.old }
        ensures { Reads (λ v. map argument v.items) (reads (parts.arguments Generators.Possible)) cur.old cur.new result }
    {
        let mut all = Vec::new(self.alloc);
        let mut generators = Generators::Possible;
        while !is_sym(Symbol::SRParen, cur.tok()) {
            if awaits_in(generators) && is_word(Keyword::KIn, cur.tok()) {
                let set = self.waited(cur)?;
                return self.guarded(cur, all, set);
            }
            let x = self.inside(cur, Entry::Level(Level::Iff))?;
            if takes_where(generators, &x) && is_word(Keyword::KWhere, cur.tok()) {
                cur.skip();
                let condition = self.expr(cur)?;
                return self.guarded(cur, all, guarded_argument(x, condition));
            }
            generators = possible_after(generators, &x);
            all.push(Argument::Unguarded(x))?;
            if !separator(cur, Closing::Paren)? {
                return Ok(all);
            }
        }
        cur.skip();
        Ok(all)
    }

    /// The set, after its `in`, of names that end with a comma.
    #[tactic(auto)]
    fn waited(&self, cur: &mut Cursor<'_>) -> Result<Argument, Stop>
        requires may { MayRead self.now.room self.now.entry (F.pre self.now.reader) (F.post self.now.reader) cur.old }
        requires some { 0 < length cur.old.rest.now }
        ensures { Reads argument waited_at cur.old cur.new result }
    {
        cur.skip();
        let x = self.inside(cur, Entry::Level(Level::Union))?;
        let set = OneDrop::new(x.into_expr(self.alloc)?);
        let cond = self.filter(cur)?;
        Ok(strict_argument(make_generator(Vec::new(self.alloc), set.take(), cond)))
    }

    /// An argument that makes the call one with generators, and the others, which must be generators.
    #[tactic(auto, using(mz_grammar::proofs::Steps::prefix_push, std::proofs::lemmas::List::map_push, mz_grammar::proofs::Steps::nothing_behind))]
    fn guarded(
        &self,
        cur: &mut Cursor<'_>,
        all: Vec<Argument>,
        x: Argument,
    ) -> Result<Vec<Argument>, Stop>
        requires { MayRead self.now.room self.now.entry (F.pre self.now.reader) (F.post self.now.reader) cur.old }
        ensures { Reads (λ v. map argument v.items) (λ room ts. with_prefix (map argument all.items) (guarded_at (argument x) room ts)) cur.old cur.new result }
    {
        let mut all = all;
        all.push(x)?;
        if !separator(cur, Closing::Paren)? {
            return Ok(all);
        }
        self.strict(cur, all)
    }

    /// Generators up to the closing parenthesis.
    #[tactic(auto, using(mz_grammar::proofs::Equations::generators_reads, mz_grammar::proofs::Steps::prefix_push, std::proofs::lemmas::List::map_push, mz_grammar::proofs::Steps::nothing_behind, mz_grammar::proofs::Steps::mapped_prefix))]
    fn strict(&self, cur: &mut Cursor<'_>, before: Vec<Argument>) -> Result<Vec<Argument>, Stop>
        requires { MayRead self.now.room self.now.entry (F.pre self.now.reader) (F.post self.now.reader) cur.old }
        ensures { Reads (λ v. map argument v.items) (λ room ts. with_prefix (map argument before.items) (mapped (λ gs. map parts.strict gs) (reads (parts.generators Closing.Paren) room ts))) cur.old cur.new result }
    {
        let mut all = before;
        while !is_sym(Symbol::SRParen, cur.tok()) {
            let g = self.generator(cur)?;
            all.push(strict_argument(g))?;
            if !separator(cur, Closing::Paren)? {
                return Ok(all);
            }
        }
        cur.skip();
        Ok(all)
    }
}
