// `if` and `let`.

ghost use Rattle.std.specs.Prelude.{◌<◌, length, map};
ghost use Rattle.std.specs.Option.{option_map};
ghost use Rattle.mz_tree.specs.Tree as pure;
ghost use Rattle.mz_tree.specs.Views.{tree, branch, let_of};
ghost use Rattle.mz_grammar.specs.Reads.{Reads};
ghost use Rattle.mz_grammar.specs.Parts as parts;
ghost use Rattle.mz_grammar.specs.Reading.{reads};
ghost use Rattle.mz_grammar.specs.Steps.{head_word_at, let_at, with_branches};
ghost use Rattle.mz_expr_operands.specs.Views.{operand};
ghost use Rattle.mz_expr.specs.Descent.{MayOpen, MayRead};

use crate::parser::descent::{Descent, Entry};
use mz_base::{OneDrop, Stop};
use mz_expr_operands::operand::{Operand, other};
use mz_expr_operands::step::let_separator;
use mz_grammar::{Cursor, is_sym, is_word};
use mz_lexer::{Keyword, Symbol};
use mz_tree::{Expr, LetItem, make_if, make_let, make_let_constraint, make_let_declaration};
use std::alloc::Global;

impl<F: Fn(Global, &mut Cursor<'_>, Entry) -> Result<Operand, Stop>> Descent<F> {
    /// An `if`.
    #[tactic(auto, using(mz_grammar::proofs::Steps::open_more, mz_grammar::proofs::Steps::open_none))]
    pub fn choice(&self, cur: &mut Cursor<'_>) -> Result<Operand, Stop>
        requires may { MayOpen self.now.room self.now.entry (F.pre self.now.reader) (F.post self.now.reader) cur.old }
        requires some { 0 < length cur.old.rest.now }
        ensures { Reads operand (head_word_at Keyword.KIf) cur.old cur.new result }
    {
        cur.push()?;
        let at = cur.pass();
        let first = self.branch(cur)?;
        let mut before = Vec::new(self.alloc);
        before.push(first)?;
        let (cases, last) = self.branches(cur, before)?;
        cur.pop();
        Ok(other(at, make_if(self.alloc, at, cases, last)?))
    }

    /// A condition, and what follows its `then`.
    #[tactic(auto, using(mz_grammar::proofs::ListEquations::branch_reads))]
    fn branch(&self, cur: &mut Cursor<'_>) -> Result<(Expr, Expr), Stop>
        requires { MayRead self.now.room self.now.entry (F.pre self.now.reader) (F.post self.now.reader) cur.old }
        ensures { Reads branch (reads parts.branch) cur.old cur.new result }
    {
        let condition = OneDrop::new(self.expr(cur)?);
        cur.word(Keyword::KThen)?;
        let e = self.expr(cur)?;
        Ok((condition.take(), e))
    }

    /// The other branches up to the `endif`, after those that were read.
    #[tactic(auto, using(mz_grammar::proofs::ListEquations::branches_reads, crate::proofs::Loops::branches_push, mz_grammar::proofs::Steps::nothing_behind))]
    fn branches(
        &self,
        cur: &mut Cursor<'_>,
        before: Vec<(Expr, Expr)>,
    ) -> Result<(Vec<(Expr, Expr)>, Option<Expr>), Stop>
        requires { MayRead self.now.room self.now.entry (F.pre self.now.reader) (F.post self.now.reader) cur.old }
        ensures { Reads (λ r. (map branch r.0.items, pure.maybe (option_map tree r.1))) (λ room ts. with_branches (map branch before.items) (reads parts.branches room ts)) cur.old cur.new result }
    {
        let mut all = before;
        while is_word(Keyword::KElseif, cur.tok()) {
            cur.skip();
            let next = self.branch(cur)?;
            all.push(next)?;
        }
        if is_word(Keyword::KElse, cur.tok()) {
            cur.skip();
            let e = OneDrop::new(self.expr(cur)?);
            cur.word(Keyword::KEndif)?;
            return Ok((all, Some(e.take())));
        }
        if is_word(Keyword::KEndif, cur.tok()) {
            cur.skip();
            return Ok((all, None));
        }
        Err(cur.unfit())
    }

    /// A `let`.
    #[tactic(auto, using(mz_grammar::proofs::Steps::open_more, mz_grammar::proofs::Steps::open_none))]
    pub fn let_in(&self, cur: &mut Cursor<'_>) -> Result<Operand, Stop>
        requires may { MayOpen self.now.room self.now.entry (F.pre self.now.reader) (F.post self.now.reader) cur.old }
        requires some { 0 < length cur.old.rest.now }
        ensures { Reads operand let_at cur.old cur.new result }
    {
        cur.push()?;
        let at = cur.pass();
        if !is_sym(Symbol::SLBrace, cur.tok()) {
            return Err(cur.unfit());
        }
        cur.push()?;
        cur.skip();
        let items = self.let_items(cur)?;
        cur.pop();
        cur.word(Keyword::KIn)?;
        let body = self.expr(cur)?;
        cur.pop();
        Ok(other(at, make_let(self.alloc, at, items, body)?))
    }

    /// The items of a `let`, and the closing brace.
    #[tactic(auto, using(mz_grammar::proofs::ListEquations::let_items_reads, mz_grammar::proofs::Steps::prefix_push, std::proofs::lemmas::List::map_push, mz_grammar::proofs::Steps::nothing_behind, mz_grammar::proofs::Steps::no_prefix))]
    fn let_items(&self, cur: &mut Cursor<'_>) -> Result<Vec<LetItem>, Stop>
        requires { MayRead self.now.room self.now.entry (F.pre self.now.reader) (F.post self.now.reader) cur.old }
        ensures { Reads (λ v. map let_of v.items) (reads parts.let_items) cur.old cur.new result }
    {
        let mut all = Vec::new(self.alloc);
        while !is_sym(Symbol::SRBrace, cur.tok()) {
            let item = self.let_item(cur)?;
            all.push(item)?;
            if !let_separator(cur)? {
                return Ok(all);
            }
        }
        cur.skip();
        Ok(all)
    }

    /// An item of a `let`.
    #[tactic(auto, using(mz_grammar::proofs::ListEquations::let_item_reads))]
    fn let_item(&self, cur: &mut Cursor<'_>) -> Result<LetItem, Stop>
        requires { MayRead self.now.room self.now.entry (F.pre self.now.reader) (F.post self.now.reader) cur.old }
        ensures { Reads let_of (reads parts.let_item) cur.old cur.new result }
    {
        if is_word(Keyword::KConstraint, cur.tok()) {
            cur.skip();
            self.marks(cur)?;
            let e = self.expr(cur)?;
            return Ok(make_let_constraint(e));
        }
        let d = self.declaration(cur)?;
        Ok(make_let_declaration(d))
    }
}
