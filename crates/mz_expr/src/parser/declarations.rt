// Declarations.

ghost use Rattle.std.specs.Option.{option_map};
ghost use Rattle.mz_tree.specs.Tree as pure;
ghost use Rattle.mz_tree.specs.Views.{tree, declaration, written};
ghost use Rattle.mz_grammar.specs.Reads.{Passes, Reads};
ghost use Rattle.mz_grammar.specs.Parts as parts;
ghost use Rattle.mz_grammar.specs.Reading.{reads};
ghost use Rattle.mz_expr.specs.Descent.{MayRead};

use crate::parser::descent::{Descent, Entry};
use mz_base::Stop;
use mz_expr_operands::operand::Operand;
use mz_expr_operands::step::ident;
use mz_grammar::{Cursor, is_sym};
use mz_lexer::Symbol;
use mz_tree::{Decl, Expr, TypeText, make_declaration};
use std::alloc::Global;

impl<F: Fn(Global, &mut Cursor<'_>, Entry) -> Result<Operand, Stop>> Descent<F> {
    /// A declaration.
    #[tactic(auto, using(mz_grammar::proofs::ItemEquations::declaration_reads))]
    pub fn declaration(&self, cur: &mut Cursor<'_>) -> Result<Decl, Stop>
        requires { MayRead self.now.room self.now.entry (F.pre self.now.reader) (F.post self.now.reader) cur.old }
        ensures { Reads declaration (reads parts.declaration) cur.old cur.new result }
    {
        let ty = self.type_text(cur)?;
        self.declared(cur, ty)
    }

    /// A declaration, after its type.
    #[tactic(auto, using(mz_grammar::proofs::ItemEquations::declared_reads))]
    pub fn declared(&self, cur: &mut Cursor<'_>, ty: TypeText) -> Result<Decl, Stop>
        requires { MayRead self.now.room self.now.entry (F.pre self.now.reader) (F.post self.now.reader) cur.old }
        ensures { Reads declaration (reads (parts.declared (written ty))) cur.old cur.new result }
    {
        cur.symbol(Symbol::SColon)?;
        let (name, span) = ident(cur)?;
        self.annotations(cur)?;
        let value = self.value(cur)?;
        Ok(make_declaration(ty, name, span, value))
    }

    /// What follows the `=` of a declaration, if there is one.
    #[tactic(auto, using(mz_grammar::proofs::ItemEquations::value_reads))]
    fn value(&self, cur: &mut Cursor<'_>) -> Result<Option<Expr>, Stop>
        requires { MayRead self.now.room self.now.entry (F.pre self.now.reader) (F.post self.now.reader) cur.old }
        ensures { Passes (λ e. pure.maybe (option_map tree e)) (reads parts.value) cur.old cur.new result }
    {
        if !is_sym(Symbol::SEq, cur.tok()) {
            return Ok(None);
        }
        cur.skip();
        let e = self.expr(cur)?;
        Ok(Some(e))
    }
}
