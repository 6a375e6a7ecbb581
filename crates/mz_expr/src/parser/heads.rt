// Heads: what an atom begins with.

ghost use Rattle.std.specs.Prelude.{◌<◌, length, Some};
ghost use Rattle.mz_grammar.specs.Reads.{Reads};
ghost use Rattle.mz_grammar.specs.Parts as parts;
ghost use Rattle.mz_grammar.specs.Reading.{reads};
ghost use Rattle.mz_grammar.specs.Steps.{head_at, head_word_at, head_symbol_at, parenthesised_at};
ghost use Rattle.mz_expr_operands.specs.Views.{operand};
ghost use Rattle.mz_expr.specs.Descent.{MayOpen};

use crate::parser::descent::{Descent, Entry};
use mz_base::{Name, OneDrop, Stop};
use mz_expr_operands::operand::{Operand, other};
use mz_grammar::{Cursor, is_sym};
use mz_lexer::{Keyword, Symbol, Tok};
use mz_tree::{make_absent, make_bool, make_int, make_interp, make_plain, make_rows, make_text};
use std::alloc::Global;

impl<F: Fn(Global, &mut Cursor<'_>, Entry) -> Result<Operand, Stop>> Descent<F> {
    /// A head.
    #[tactic(auto, using(mz_grammar::proofs::Equations::head_reads))]
    pub fn head(&self, cur: &mut Cursor<'_>) -> Result<Operand, Stop>
        requires { MayOpen self.now.room self.now.entry (F.pre self.now.reader) (F.post self.now.reader) cur.old }
        ensures { Reads operand (reads parts.head) cur.old cur.new result }
    {
        match cur.tok() {
            None => Err(cur.unfit()),
            Some(tok) => self.head_token(cur, tok),
        }
    }

    /// A head that begins with this token.
    fn head_token(&self, cur: &mut Cursor<'_>, tok: Tok) -> Result<Operand, Stop>
        requires may { MayOpen self.now.room self.now.entry (F.pre self.now.reader) (F.post self.now.reader) cur.old }
        requires some { 0 < length cur.old.rest.now }
        ensures { Reads operand (head_at (Some tok)) cur.old cur.new result }
    {
        match tok {
            Tok::Int(n) => {
                let at = cur.pass();
                Ok(other(at, make_int(at, n)))
            }
            Tok::Text(content) => {
                let at = cur.pass();
                Ok(other(at, make_text(at, content)))
            }
            Tok::TextHead(content) => self.interpolated(cur, content),
            Tok::Ident(name) => {
                let at = cur.pass();
                self.named(cur, name, at)
            }
            Tok::Word(k) => self.head_word(cur, k),
            Tok::Sym(s) => self.head_symbol(cur, s),
            Tok::TextMid(_) => Err(cur.unfit()),
            Tok::TextTail(_) => Err(cur.unfit()),
        }
    }

    /// A head that begins with this keyword.
    fn head_word(&self, cur: &mut Cursor<'_>, k: Keyword) -> Result<Operand, Stop>
        requires may { MayOpen self.now.room self.now.entry (F.pre self.now.reader) (F.post self.now.reader) cur.old }
        requires some { 0 < length cur.old.rest.now }
        ensures { Reads operand (head_word_at k) cur.old cur.new result }
    {
        match k {
            Keyword::KTrue => {
                let at = cur.pass();
                Ok(other(at, make_bool(at, true)))
            }
            Keyword::KFalse => {
                let at = cur.pass();
                Ok(other(at, make_bool(at, false)))
            }
            Keyword::KIf => self.choice(cur),
            Keyword::KLet => self.let_in(cur),
            _ => Err(cur.unfit()),
        }
    }

    /// A head that begins with this symbol.
    fn head_symbol(&self, cur: &mut Cursor<'_>, s: Symbol) -> Result<Operand, Stop>
        requires may { MayOpen self.now.room self.now.entry (F.pre self.now.reader) (F.post self.now.reader) cur.old }
        requires some { 0 < length cur.old.rest.now }
        ensures { Reads operand (head_symbol_at s) cur.old cur.new result }
    {
        match s {
            Symbol::SAbsent => {
                let at = cur.pass();
                Ok(other(at, make_absent(at)))
            }
            Symbol::SLParen => self.parenthesised(cur),
            Symbol::SLBrack => self.array(cur),
            Symbol::SLRows => self.rows(cur),
            Symbol::SLBrace => self.set(cur),
            _ => Err(cur.unfit()),
        }
    }

    /// A text with interpolation, whose first piece is this one.
    #[tactic(auto, using(mz_grammar::proofs::Steps::open_more, mz_grammar::proofs::Steps::open_none))]
    fn interpolated(&self, cur: &mut Cursor<'_>, content: Name) -> Result<Operand, Stop>
        requires may { MayOpen self.now.room self.now.entry (F.pre self.now.reader) (F.post self.now.reader) cur.old }
        requires some { 0 < length cur.old.rest.now }
        ensures { Reads operand (head_at (Some (Tok.TextHead content))) cur.old cur.new result }
    {
        cur.push()?;
        let at = cur.pass();
        let mut pieces = Vec::new(self.alloc);
        pieces.push(make_plain(content))?;
        let all = self.text_rest(cur, pieces)?;
        cur.pop();
        Ok(other(at, make_interp(at, all)))
    }

    /// An expression in parentheses, which make no node.
    #[tactic(auto, using(mz_grammar::proofs::Steps::open_more, mz_grammar::proofs::Steps::open_none))]
    fn parenthesised(&self, cur: &mut Cursor<'_>) -> Result<Operand, Stop>
        requires may { MayOpen self.now.room self.now.entry (F.pre self.now.reader) (F.post self.now.reader) cur.old }
        requires some { 0 < length cur.old.rest.now }
        ensures { Reads operand parenthesised_at cur.old cur.new result }
    {
        cur.push()?;
        let at = cur.pass();
        let e = OneDrop::new(self.expr(cur)?);
        if is_sym(Symbol::SRParen, cur.tok()) {
            cur.skip();
            cur.pop();
            return Ok(other(at, e.take()));
        }
        if is_sym(Symbol::SComma, cur.tok()) {
            return Err(cur.left_out());
        }
        Err(cur.unfit())
    }

    /// An array literal or an array comprehension.
    #[tactic(auto, using(mz_grammar::proofs::Steps::open_more, mz_grammar::proofs::Steps::open_none))]
    fn array(&self, cur: &mut Cursor<'_>) -> Result<Operand, Stop>
        requires may { MayOpen self.now.room self.now.entry (F.pre self.now.reader) (F.post self.now.reader) cur.old }
        requires some { 0 < length cur.old.rest.now }
        ensures { Reads operand (head_symbol_at Symbol.SLBrack) cur.old cur.new result }
    {
        cur.push()?;
        let at = cur.pass();
        let e = self.array_body(cur, at)?;
        cur.pop();
        Ok(other(at, e))
    }

    /// An array literal of two dimensions.
    #[tactic(auto, using(mz_grammar::proofs::Steps::open_more, mz_grammar::proofs::Steps::open_none))]
    fn rows(&self, cur: &mut Cursor<'_>) -> Result<Operand, Stop>
        requires may { MayOpen self.now.room self.now.entry (F.pre self.now.reader) (F.post self.now.reader) cur.old }
        requires some { 0 < length cur.old.rest.now }
        ensures { Reads operand (head_symbol_at Symbol.SLRows) cur.old cur.new result }
    {
        cur.push()?;
        let at = cur.pass();
        let lines = self.rows_body(cur)?;
        cur.pop();
        Ok(other(at, make_rows(at, lines)))
    }

    /// A set literal or a set comprehension.
    #[tactic(auto, using(mz_grammar::proofs::Steps::open_more, mz_grammar::proofs::Steps::open_none))]
    fn set(&self, cur: &mut Cursor<'_>) -> Result<Operand, Stop>
        requires may { MayOpen self.now.room self.now.entry (F.pre self.now.reader) (F.post self.now.reader) cur.old }
        requires some { 0 < length cur.old.rest.now }
        ensures { Reads operand (head_symbol_at Symbol.SLBrace) cur.old cur.new result }
    {
        cur.push()?;
        let at = cur.pass();
        let e = self.set_body(cur, at)?;
        cur.pop();
        Ok(other(at, e))
    }
}
