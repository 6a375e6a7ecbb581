// Arrays, sets, rows and the pieces of texts.

ghost use Rattle.std.specs.Prelude.{◌≡◌, ◌<◌, length, OnOk, map, [], ◌∷◌, ◌++◌, Ok};
ghost use Rattle.mz_grammar.specs.Reads.{Passes, Reads};
ghost use Rattle.mz_tree.specs.Tree as pure;
ghost use Rattle.mz_tree.specs.Views.{tree, tree_row, part};
ghost use Rattle.mz_grammar.specs.Rules.{syntax};
ghost use Rattle.mz_grammar.specs.Tokens.{tok_at, behind};
ghost use Rattle.mz_grammar.specs.Tests.{tail_of};
ghost use Rattle.mz_grammar.specs.RulesPromise.{Gives};
ghost use Rattle.mz_grammar.specs.RulesReading.{mapped, with_prefix, listed, on, stuck};
ghost use Rattle.mz_grammar.specs.Parts as parts;
ghost use Rattle.mz_grammar.specs.Reading.{reads};
ghost use Rattle.mz_grammar.specs.Steps.{separator_at};
ghost use Rattle.mz_expr.specs.Descent.{MayRead};

use crate::parser::descent::{Descent, Entry};
use mz_base::{OneDrop, Span, Stop};
use mz_expr_operands::operand::Operand;
use mz_expr_operands::step::{closes, ends_row, middle_of, separator, tail_of};
use mz_grammar::{Closing, Cursor, is_sym};
use mz_lexer::Symbol;
use mz_tree::{
    Expr, TextPart, make_array, make_array_comp, make_plain, make_set, make_set_comp, make_shown,
};
use std::alloc::Global;

impl<F: Fn(Global, &mut Cursor<'_>, Entry) -> Result<Operand, Stop>> Descent<F> {
    /// The rest of a text after pieces that were read: expressions and pieces up to its last one.
    #[tactic(auto, using(mz_grammar::proofs::ListEquations::text_rest_reads, mz_grammar::proofs::Steps::prefix_push, std::proofs::lemmas::List::map_push, mz_grammar::proofs::Steps::nothing_behind, mz_grammar::proofs::Steps::prefix_prefix))]
    pub fn text_rest(
        &self,
        cur: &mut Cursor<'_>,
        before: Vec<TextPart>,
    ) -> Result<Vec<TextPart>, Stop>
        requires { MayRead self.now.room self.now.entry (F.pre self.now.reader) (F.post self.now.reader) cur.old }
        ensures { Reads (λ v. map part v.items) (λ room ts. with_prefix (map part before.items) (reads parts.text_rest room ts)) cur.old cur.new result }
    {
        let mut all = before;
        loop {
            let e = self.expr(cur)?;
            all.push(make_shown(e))?;
            match middle_of(cur) {
                None => return last_piece(cur, all),
                Some(piece) => {
                    cur.skip();
                    all.push(make_plain(piece))?;
                }
            }
        }
    }

    /// Elements up to the closing token, after those that were read.
    #[tactic(auto, using(mz_grammar::proofs::Equations::elements_reads, mz_grammar::proofs::Steps::prefix_push, std::proofs::lemmas::List::map_push, mz_grammar::proofs::Steps::nothing_behind))]
    fn elements(
        &self,
        cur: &mut Cursor<'_>,
        c: Closing,
        before: Vec<Expr>,
    ) -> Result<Vec<Expr>, Stop>
        requires { MayRead self.now.room self.now.entry (F.pre self.now.reader) (F.post self.now.reader) cur.old }
        ensures { Reads (λ v. map tree v.items) (λ room ts. with_prefix (map tree before.items) (reads (parts.elements c) room ts)) cur.old cur.new result }
    {
        let mut all = before;
        while !closes(c, cur.tok()) {
            let e = self.expr(cur)?;
            all.push(e)?;
            if !separator(cur, c)? {
                return Ok(all);
            }
        }
        cur.skip();
        Ok(all)
    }

    /// An element that was read, and those after it up to the closing token.
    #[tactic(auto, using(mz_grammar::proofs::Steps::prefix_push, std::proofs::lemmas::List::map_push, mz_grammar::proofs::Steps::nothing_behind))]
    fn elements_behind(&self, cur: &mut Cursor<'_>, c: Closing, e: Expr) -> Result<Vec<Expr>, Stop>
        requires { MayRead self.now.room self.now.entry (F.pre self.now.reader) (F.post self.now.reader) cur.old }
        ensures { Reads (λ v. map tree v.items) (λ room ts. listed (separator_at c) (reads (parts.elements c) room) (tree e) ts) cur.old cur.new result }
    {
        let mut all = Vec::new(self.alloc);
        all.push(e)?;
        if separator(cur, c)? {
            self.elements(cur, c, all)
        } else {
            Ok(all)
        }
    }

    /// What stands in the brackets of an array, and the closing one.
    #[tactic(auto, using(mz_grammar::proofs::ListEquations::array_body_reads))]
    pub fn array_body(&self, cur: &mut Cursor<'_>, at: Span) -> Result<Expr, Stop>
        requires { MayRead self.now.room self.now.entry (F.pre self.now.reader) (F.post self.now.reader) cur.old }
        ensures { Reads tree (λ room ts. mapped (λ f. pure.node at f) (reads parts.array_body room ts)) cur.old cur.new result }
    {
        if is_sym(Symbol::SRBrack, cur.tok()) {
            cur.skip();
            return Ok(make_array(at, Vec::new(self.alloc)));
        }
        let e = OneDrop::new(self.expr(cur)?);
        if is_sym(Symbol::SBar, cur.tok()) {
            cur.skip();
            let all = self.generators(cur, Closing::Bracket)?;
            return Ok(make_array_comp(self.alloc, at, e.take(), all)?);
        }
        let all = self.elements_behind(cur, Closing::Elements, e.take())?;
        Ok(make_array(at, all))
    }

    /// What stands in the braces of a set, and the closing one.
    #[tactic(auto, using(mz_grammar::proofs::ListEquations::set_body_reads))]
    pub fn set_body(&self, cur: &mut Cursor<'_>, at: Span) -> Result<Expr, Stop>
        requires { MayRead self.now.room self.now.entry (F.pre self.now.reader) (F.post self.now.reader) cur.old }
        ensures { Reads tree (λ room ts. mapped (λ f. pure.node at f) (reads parts.set_body room ts)) cur.old cur.new result }
    {
        if is_sym(Symbol::SRBrace, cur.tok()) {
            cur.skip();
            return Ok(make_set(at, Vec::new(self.alloc)));
        }
        let e = OneDrop::new(self.expr(cur)?);
        if is_sym(Symbol::SBar, cur.tok()) {
            cur.skip();
            let all = self.generators(cur, Closing::Brace)?;
            return Ok(make_set_comp(self.alloc, at, e.take(), all)?);
        }
        let all = self.elements_behind(cur, Closing::Brace, e.take())?;
        Ok(make_set(at, all))
    }

    /// What stands between `[|` and `|]`, and the latter.
    #[tactic(auto, using(mz_grammar::proofs::ListEquations::rows_body_reads, mz_grammar::proofs::Steps::prefix_push, std::proofs::lemmas::List::map_push, mz_grammar::proofs::Steps::nothing_behind))]
    pub fn rows_body(&self, cur: &mut Cursor<'_>) -> Result<Vec<Vec<Expr>>, Stop>
        requires { MayRead self.now.room self.now.entry (F.pre self.now.reader) (F.post self.now.reader) cur.old }
        ensures { Reads (λ v. map tree_row v.items) (reads parts.rows_body) cur.old cur.new result }
    {
        let mut all = Vec::new(self.alloc);
        if is_sym(Symbol::SRRows, cur.tok()) {
            cur.skip();
            return Ok(all);
        }
        if is_sym(Symbol::SBar, cur.tok()) {
            return Err(cur.left_out());
        }
        let line = self.row(cur)?;
        all.push(line)?;
        self.more_rows(cur, all)
    }

    /// Rows, each after a `|`, up to the `|]`, after those that were read.
    #[tactic(auto, using(mz_grammar::proofs::ListEquations::more_rows_reads, mz_grammar::proofs::Steps::prefix_push, std::proofs::lemmas::List::map_push, mz_grammar::proofs::Steps::nothing_behind))]
    fn more_rows(
        &self,
        cur: &mut Cursor<'_>,
        before: Vec<Vec<Expr>>,
    ) -> Result<Vec<Vec<Expr>>, Stop>
        requires { MayRead self.now.room self.now.entry (F.pre self.now.reader) (F.post self.now.reader) cur.old }
        ensures { Reads (λ v. map tree_row v.items) (λ room ts. with_prefix (map tree_row before.items) (reads parts.more_rows room ts)) cur.old cur.new result }
    {
        let mut all = before;
        while !is_sym(Symbol::SRRows, cur.tok()) {
            if !is_sym(Symbol::SBar, cur.tok()) {
                return Err(cur.unfit());
            }
            cur.skip();
            if is_sym(Symbol::SRRows, cur.tok()) {
                cur.skip();
                return Ok(all);
            }
            let line = self.row(cur)?;
            all.push(line)?;
        }
        cur.skip();
        Ok(all)
    }

    /// A row.
    #[tactic(auto, using(mz_grammar::proofs::ListEquations::row_reads, mz_grammar::proofs::Steps::prefix_push, std::proofs::lemmas::List::map_push, mz_grammar::proofs::Steps::nothing_behind))]
    fn row(&self, cur: &mut Cursor<'_>) -> Result<Vec<Expr>, Stop>
        requires { MayRead self.now.room self.now.entry (F.pre self.now.reader) (F.post self.now.reader) cur.old }
        ensures { Reads (λ v. map tree v.items) (reads parts.row) cur.old cur.new result }
    {
        let mut all = Vec::new(self.alloc);
        let e = self.expr(cur)?;
        all.push(e)?;
        self.cells(cur, all)
    }

    /// The elements of a row, each after a comma, after those that were read.
    #[tactic(auto, using(mz_grammar::proofs::ListEquations::cells_reads, mz_grammar::proofs::Steps::prefix_push, std::proofs::lemmas::List::map_push, mz_grammar::proofs::Steps::nothing_behind))]
    fn cells(&self, cur: &mut Cursor<'_>, before: Vec<Expr>) -> Result<Vec<Expr>, Stop>
        requires { MayRead self.now.room self.now.entry (F.pre self.now.reader) (F.post self.now.reader) cur.old }
        ensures { Passes (λ v. map tree v.items) (λ room ts. with_prefix (map tree before.items) (reads parts.cells room ts)) cur.old cur.new result }
    {
        let mut all = before;
        while is_sym(Symbol::SComma, cur.tok()) {
            cur.skip();
            if ends_row(cur) {
                return Ok(all);
            }
            let e = self.expr(cur)?;
            all.push(e)?;
        }
        Ok(all)
    }
}

/// The last piece of a text, after those that were read.
#[tactic(auto, using(std::proofs::lemmas::List::map_push))]
fn last_piece(cur: &mut Cursor<'_>, before: Vec<TextPart>) -> Result<Vec<TextPart>, Stop>
    ensures reads { Gives (λ v. map part v.items) cur.new.end cur.new.rest.now result (on (tail_of (tok_at cur.old.rest.now)) (stuck syntax cur.old.rest.now) (λ n. Ok (map part before.items ++ (pure.plain n ∷ []), behind cur.old.rest.now))) }
    ensures room { cur.new.room ≡ cur.old.room }
    ensures end { cur.new.end ≡ cur.old.end }
    ensures shorter { OnOk result (length cur.new.rest.now < length cur.old.rest.now) }
{
    match tail_of(cur) {
        None => Err(cur.unfit()),
        Some(piece) => {
            cur.skip();
            let mut all = before;
            all.push(make_plain(piece))?;
            Ok(all)
        }
    }
}
