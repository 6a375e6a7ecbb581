// Types.

ghost use Rattle.std.specs.Prelude.{map};
ghost use Rattle.mz_tree.specs.Views.{written, based};
ghost use Rattle.mz_grammar.specs.Reads.{Reads};
ghost use Rattle.mz_grammar.specs.Parts as parts;
ghost use Rattle.mz_grammar.specs.Reading.{reads};
ghost use Rattle.mz_grammar.specs.Steps.{dimensions_at};
ghost use Rattle.mz_expr.specs.Descent.{MayRead};

use crate::parser::descent::{Descent, Entry};
use mz_base::{Span, Stop};
use mz_expr_operands::operand::Operand;
use mz_expr_operands::step::{begins_base, separator};
use mz_grammar::{Closing, Cursor, Level, is_sym, is_word};
use mz_lexer::{Keyword, Symbol};
use mz_tree::{TypeBase, TypeText, make_bool_base, make_int_base, make_scalar, make_set_base};
use std::alloc::Global;

impl<F: Fn(Global, &mut Cursor<'_>, Entry) -> Result<Operand, Stop>> Descent<F> {
    /// A type.
    #[tactic(auto, using(mz_grammar::proofs::ItemEquations::type_reads))]
    pub fn type_text(&self, cur: &mut Cursor<'_>) -> Result<TypeText, Stop>
        requires { MayRead self.now.room self.now.entry (F.pre self.now.reader) (F.post self.now.reader) cur.old }
        ensures { Reads written (reads parts.type) cur.old cur.new result }
    {
        if is_word(Keyword::KArray, cur.tok()) {
            let span = cur.pass();
            let dims = self.dimensions(cur)?;
            let element = self.element(cur)?;
            return Ok(element.into_array(span, dims));
        }
        if is_word(Keyword::KList, cur.tok()) {
            let span = cur.pass();
            cur.word(Keyword::KOf)?;
            let element = self.element(cur)?;
            let mut dims = Vec::with_capacity(self.alloc, 1)?;
            dims.push(make_int_base())?;
            return Ok(element.into_array(span, dims));
        }
        self.element(cur)
    }

    /// The index types of an array type in their brackets, and the `of`.
    #[tactic(auto, using(mz_grammar::proofs::Steps::open_more, mz_grammar::proofs::Steps::open_none))]
    fn dimensions(&self, cur: &mut Cursor<'_>) -> Result<Vec<TypeBase>, Stop>
        requires { MayRead self.now.room self.now.entry (F.pre self.now.reader) (F.post self.now.reader) cur.old }
        ensures { Reads (λ v. map based v.items) dimensions_at cur.old cur.new result }
    {
        if !is_sym(Symbol::SLBrack, cur.tok()) {
            return Err(cur.unfit());
        }
        cur.push()?;
        cur.skip();
        if is_sym(Symbol::SRBrack, cur.tok()) {
            return Err(cur.unfit());
        }
        let all = self.index_types(cur)?;
        cur.pop();
        cur.word(Keyword::KOf)?;
        Ok(all)
    }

    /// At most six index types, and the closing bracket.
    #[tactic(auto, using(mz_grammar::proofs::ItemEquations::index_types_more, mz_grammar::proofs::ItemEquations::index_types_none, mz_grammar::proofs::Steps::prefix_push, std::proofs::lemmas::List::map_push, mz_grammar::proofs::Steps::nothing_behind, mz_grammar::proofs::Steps::no_prefix))]
    fn index_types(&self, cur: &mut Cursor<'_>) -> Result<Vec<TypeBase>, Stop>
        requires { MayRead self.now.room self.now.entry (F.pre self.now.reader) (F.post self.now.reader) cur.old }
        ensures { Reads (λ v. map based v.items) (reads (parts.index_types 6)) cur.old cur.new result }
    {
        let mut all = Vec::new(self.alloc);
        let mut left: u8 = 6;
        while !is_sym(Symbol::SRBrack, cur.tok()) {
            if left == 0 {
                if begins_base(cur) {
                    return Err(cur.left_out());
                }
                return Err(cur.unfit());
            }
            let (_, base) = self.base(cur)?;
            all.push(base)?;
            if !separator(cur, Closing::Bracket)? {
                return Ok(all);
            }
            left -= 1;
        }
        cur.skip();
        Ok(all)
    }

    /// A type that is no array.
    #[tactic(auto, using(mz_grammar::proofs::ItemEquations::element_reads))]
    fn element(&self, cur: &mut Cursor<'_>) -> Result<TypeText, Stop>
        requires { MayRead self.now.room self.now.entry (F.pre self.now.reader) (F.post self.now.reader) cur.old }
        ensures { Reads written (reads parts.element) cur.old cur.new result }
    {
        if is_word(Keyword::KVar, cur.tok()) {
            let span = cur.pass();
            let ty = self.unmarked(cur)?;
            return Ok(ty.marked(span, true));
        }
        if is_word(Keyword::KPar, cur.tok()) {
            let span = cur.pass();
            let ty = self.unmarked(cur)?;
            return Ok(ty.marked(span, false));
        }
        self.unmarked(cur)
    }

    /// A type without `var` or `par`.
    #[tactic(auto, using(mz_grammar::proofs::ItemEquations::unmarked_reads))]
    fn unmarked(&self, cur: &mut Cursor<'_>) -> Result<TypeText, Stop>
        requires { MayRead self.now.room self.now.entry (F.pre self.now.reader) (F.post self.now.reader) cur.old }
        ensures { Reads written (reads parts.unmarked) cur.old cur.new result }
    {
        if is_word(Keyword::KOpt, cur.tok()) {
            let span = cur.pass();
            if is_word(Keyword::KSet, cur.tok()) {
                return Err(cur.left_out());
            }
            let (_, base) = self.base(cur)?;
            return Ok(make_scalar(span, false, true, false, base));
        }
        if is_word(Keyword::KSet, cur.tok()) {
            let span = cur.pass();
            cur.word(Keyword::KOf)?;
            let (_, base) = self.base(cur)?;
            return Ok(make_scalar(span, false, false, true, base));
        }
        let (span, base) = self.base(cur)?;
        Ok(make_scalar(span, false, false, false, base))
    }

    /// What a type is of, with its place.
    #[tactic(auto, using(mz_grammar::proofs::ItemEquations::base_reads))]
    fn base(&self, cur: &mut Cursor<'_>) -> Result<(Span, TypeBase), Stop>
        requires { MayRead self.now.room self.now.entry (F.pre self.now.reader) (F.post self.now.reader) cur.old }
        ensures { Reads (λ b. (b.0, based b.1)) (reads parts.base) cur.old cur.new result }
    {
        if is_word(Keyword::KBool, cur.tok()) {
            let at = cur.pass();
            return Ok((at, make_bool_base()));
        }
        if is_word(Keyword::KInt, cur.tok()) {
            let at = cur.pass();
            return Ok((at, make_int_base()));
        }
        let x = self.inside(cur, Entry::Level(Level::Union))?;
        let at = x.at();
        let e = x.into_expr(self.alloc)?;
        Ok((at, make_set_base(self.alloc, e)?))
    }
}
