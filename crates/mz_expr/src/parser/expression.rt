// Operators, atoms and annotations.

ghost use Rattle.std.specs.Prelude.{map};
ghost use Rattle.mz_tree.specs.Views.{tree, link};
ghost use Rattle.mz_grammar.specs.Reads.{Passes, Reads};
ghost use Rattle.mz_grammar.specs.Parts as parts;
ghost use Rattle.mz_grammar.specs.Reading.{reads};
ghost use Rattle.mz_expr_operands.specs.Views.{operand};
ghost use Rattle.mz_expr.specs.StepsClimb.{with_operators};
ghost use Rattle.mz_expr.specs.Descent.{MayBegin, MayOpen, MayRead};

use crate::parser::descent::{Descent, Entry};
use mz_base::Stop;
use mz_expr_operands::operand::{Operand, accessed, chained, other, unless_annotated};
use mz_expr_operands::operator::{
    binary_of, is_nonassociative, level_number, next_level, prefix_of,
};
use mz_expr_operands::step::separator;
use mz_grammar::{Closing, Cursor, Level, is_sym};
use mz_lexer::Symbol;
use mz_tree::{Expr, PlacedOp, make_unary};
use std::alloc::Global;

impl<F: Fn(Global, &mut Cursor<'_>, Entry) -> Result<Operand, Stop>> Descent<F> {
    /// A whole expression.
    #[tactic(auto, using(mz_grammar::proofs::Equations::expr_reads))]
    pub fn expr(&self, cur: &mut Cursor<'_>) -> Result<Expr, Stop>
        requires { MayRead self.now.room self.now.entry (F.pre self.now.reader) (F.post self.now.reader) cur.old }
        ensures { Reads tree (reads parts.expr) cur.old cur.new result }
    {
        let x = self.inside(cur, Entry::Level(Level::Iff))?;
        Ok(x.into_expr(self.alloc)?)
    }

    /// An expression of this level or a tighter one: what comes before the operators, and then level by level those that
    /// stand there, each level looser than the last.
    #[tactic(auto, using(crate::proofs::Climbs::climbs))]
    pub fn level(&self, cur: &mut Cursor<'_>, l: Level) -> Result<Operand, Stop>
        requires { MayBegin (Entry.Level l) self.now.room self.now.entry (F.pre self.now.reader) (F.post self.now.reader) cur.old }
        ensures { Reads operand (reads (parts.level l)) cur.old cur.new result }
    {
        let mut x = self.unit(cur)?;
        let mut done: u8 = 13;
        while let Some(k) = next_level(l, done, cur.tok()) {
            x = self.with_operators(cur, k, x)?;
            done = level_number(k);
        }
        Ok(x)
    }

    /// An operand with the operators of one level after it.
    fn with_operators(
        &self,
        cur: &mut Cursor<'_>,
        l: Level,
        first: Operand,
    ) -> Result<Operand, Stop>
        requires { MayBegin (Entry.Level l) self.now.room self.now.entry (F.pre self.now.reader) (F.post self.now.reader) cur.old }
        ensures { Passes operand (with_operators l (operand first)) cur.old cur.new result }
    {
        let links = self.operators(cur, l)?;
        Ok(chained(self.alloc, first, links)?)
    }

    /// The operators of one level in a row, each with the operand after it.
    #[tactic(auto, using(mz_grammar::proofs::Equations::operators_reads, mz_grammar::proofs::Steps::prefix_push, std::proofs::lemmas::List::map_push, mz_grammar::proofs::Steps::nothing_behind, mz_grammar::proofs::Steps::no_prefix))]
    fn operators(&self, cur: &mut Cursor<'_>, l: Level) -> Result<Vec<(PlacedOp, Expr)>, Stop>
        requires { MayBegin (Entry.Level l) self.now.room self.now.entry (F.pre self.now.reader) (F.post self.now.reader) cur.old }
        ensures { Passes (λ v. map link v.items) (reads (parts.operators l)) cur.old cur.new result }
    {
        let mut all = Vec::with_capacity(self.alloc, 1)?;
        while let Some(op) = binary_of(l, cur.tok()) {
            cur.skip();
            let x = self.operand(cur, l)?;
            let start = x.at();
            all.push((PlacedOp { op, start }, x.into_expr(self.alloc)?))?;
            if is_nonassociative(l) {
                return Ok(all);
            }
        }
        Ok(all)
    }

    /// An atom, or a prefix operator and what it applies to.
    #[tactic(auto, using(mz_grammar::proofs::Equations::unit_reads, mz_grammar::proofs::Steps::open_more, mz_grammar::proofs::Steps::open_none))]
    pub fn unit(&self, cur: &mut Cursor<'_>) -> Result<Operand, Stop>
        requires { MayBegin Entry.Unit self.now.room self.now.entry (F.pre self.now.reader) (F.post self.now.reader) cur.old }
        ensures { Reads operand (reads parts.unit) cur.old cur.new result }
    {
        match prefix_of(cur.tok()) {
            None => self.atom(cur),
            Some(op) => {
                cur.push()?;
                let at = cur.pass();
                let x = self.inside(cur, Entry::Unit)?;
                cur.pop();
                let operand = x.into_expr(self.alloc)?;
                Ok(other(at, make_unary(self.alloc, at, op, operand)?))
            }
        }
    }

    /// A head with its accesses and annotations.
    #[tactic(auto, using(mz_grammar::proofs::Equations::atom_reads))]
    fn atom(&self, cur: &mut Cursor<'_>) -> Result<Operand, Stop>
        requires { MayBegin Entry.Unit self.now.room self.now.entry (F.pre self.now.reader) (F.post self.now.reader) cur.old }
        ensures { Reads operand (reads parts.atom) cur.old cur.new result }
    {
        let first = self.head(cur)?;
        let x = self.accesses(cur, first)?;
        let annotated = self.annotations(cur)?;
        Ok(unless_annotated(self.alloc, annotated, x)?)
    }

    /// The accesses after a head. Each `[` stays open up to the last `]`.
    #[tactic(auto, using(mz_grammar::proofs::Equations::accesses_reads, mz_grammar::proofs::Steps::open_more, mz_grammar::proofs::Steps::open_none))]
    fn accesses(&self, cur: &mut Cursor<'_>, first: Operand) -> Result<Operand, Stop>
        requires { MayOpen self.now.room self.now.entry (F.pre self.now.reader) (F.post self.now.reader) cur.old }
        ensures { Passes operand (reads (parts.accesses (operand first))) cur.old cur.new result }
    {
        let room = cur.room;
        let mut x = first;
        while is_sym(Symbol::SLBrack, cur.tok()) {
            cur.push()?;
            cur.skip();
            let at = self.indices(cur)?;
            x = accessed(self.alloc, x, at)?;
        }
        cur.room = room;
        Ok(x)
    }

    /// The indices of an access, one at least, and the closing bracket.
    #[tactic(auto, using(mz_grammar::proofs::Equations::indices_reads, mz_grammar::proofs::Equations::more_indices_reads, mz_grammar::proofs::Steps::prefix_push, std::proofs::lemmas::List::map_push, mz_grammar::proofs::Steps::nothing_behind, mz_grammar::proofs::Steps::no_prefix))]
    fn indices(&self, cur: &mut Cursor<'_>) -> Result<Vec<Expr>, Stop>
        requires { MayRead self.now.room self.now.entry (F.pre self.now.reader) (F.post self.now.reader) cur.old }
        ensures { Reads (λ v. map tree v.items) (reads parts.indices) cur.old cur.new result }
    {
        let mut all = Vec::with_capacity(self.alloc, 1)?;
        loop {
            if is_sym(Symbol::SDots, cur.tok()) {
                return Err(cur.left_out());
            }
            let e = self.expr(cur)?;
            all.push(e)?;
            if !separator(cur, Closing::Bracket)? {
                return Ok(all);
            }
            if is_sym(Symbol::SRBrack, cur.tok()) {
                cur.skip();
                return Ok(all);
            }
        }
    }

    /// Annotations, which are dropped: whether there are any.
    #[tactic(auto, using(mz_grammar::proofs::Equations::annotations_reads, crate::proofs::Loops::annotated_step))]
    pub fn annotations(&self, cur: &mut Cursor<'_>) -> Result<bool, Stop>
        requires { MayBegin Entry.Unit self.now.room self.now.entry (F.pre self.now.reader) (F.post self.now.reader) cur.old }
        ensures { Passes (λ b. b) (reads parts.annotations) cur.old cur.new result }
    {
        let mut any = false;
        while is_sym(Symbol::SColons, cur.tok()) {
            cur.skip();
            let first = self.apart(cur)?;
            self.accesses(cur, first)?;
            any = true;
        }
        Ok(any)
    }

    /// Marks, which are dropped.
    #[tactic(auto, using(mz_grammar::proofs::Equations::marks_reads))]
    pub fn marks(&self, cur: &mut Cursor<'_>) -> Result<(), Stop>
        requires { MayBegin Entry.Unit self.now.room self.now.entry (F.pre self.now.reader) (F.post self.now.reader) cur.old }
        ensures { Passes (λ u. tt) (reads parts.marks) cur.old cur.new result }
    {
        while is_sym(Symbol::SColons, cur.tok()) {
            cur.skip();
            self.apart(cur)?;
        }
        Ok(())
    }
}
