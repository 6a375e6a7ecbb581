// The calls of this crate: what they read, in the words of the grammar.

ghost use Rattle.std.specs.Prelude.{◌≡◌, OnOk};
ghost use Rattle.mz_tree.specs.Views.{tree, declaration, written};
ghost use Rattle.mz_grammar.specs.RulesPromise.{Answers};
ghost use Rattle.mz_grammar.specs.Parts as parts;
ghost use Rattle.mz_grammar.specs.Model.{rule};
ghost use Rattle.mz_expr.specs.Prefix.{PassesAnnotations};

use crate::parser;
use mz_base::Stop;
use mz_grammar::Cursor;
use mz_tree::{Decl, Expr, TypeText};
use std::alloc::Global;

/// An expression.
///
/// The longest prefix of the tokens that is one; after it the cursor stands with as many open as before. Refused with
/// Syntax or LeftOut at the first token with which none goes on, or with TooDeep at the token that would be the 121st
/// open; after that, and where memory runs out, the cursor may stand anywhere.
pub fn expression(alloc: Global, cur: &mut Cursor<'_>) -> Result<Expr, Stop>
    ensures answers { Answers rule parts.expr tree cur.old.room cur.old.end cur.old.rest.now cur.new.rest.now result }
    ensures room { OnOk result (cur.new.room ≡ cur.old.room) }
    ensures end { cur.new.end ≡ cur.old.end }
{
    parser::expr(alloc, cur)
}

/// A declaration.
///
/// The longest prefix of the tokens that is one; after it the cursor stands with as many open as before. Refused with
/// Syntax or LeftOut at the first token with which none goes on, or with TooDeep at the token that would be the 121st
/// open; after that, and where memory runs out, the cursor may stand anywhere.
pub fn declaration(alloc: Global, cur: &mut Cursor<'_>) -> Result<Decl, Stop>
    ensures answers { Answers rule parts.declaration declaration cur.old.room cur.old.end cur.old.rest.now cur.new.rest.now result }
    ensures room { OnOk result (cur.new.room ≡ cur.old.room) }
    ensures end { cur.new.end ≡ cur.old.end }
{
    parser::declaration(alloc, cur)
}

/// A type.
///
/// The longest prefix of the tokens that is one; after it the cursor stands with as many open as before. Refused with
/// Syntax or LeftOut at the first token with which none goes on, or with TooDeep at the token that would be the 121st
/// open; after that, and where memory runs out, the cursor may stand anywhere.
pub fn type_text(alloc: Global, cur: &mut Cursor<'_>) -> Result<TypeText, Stop>
    ensures answers { Answers rule parts.type written cur.old.room cur.old.end cur.old.rest.now cur.new.rest.now result }
    ensures room { OnOk result (cur.new.room ≡ cur.old.room) }
    ensures end { cur.new.end ≡ cur.old.end }
{
    parser::type_text(alloc, cur)
}

/// Marks: annotations before an expression or a goal, which are dropped.
///
/// The longest prefix of the tokens that is one; after it the cursor stands with as many open as before. Refused with
/// Syntax or LeftOut at the first token with which none goes on, or with TooDeep at the token that would be the 121st
/// open; after that, and where memory runs out, the cursor may stand anywhere.
pub fn marks(alloc: Global, cur: &mut Cursor<'_>) -> Result<(), Stop>
    ensures answers { Answers rule parts.marks (λ u. tt) cur.old.room cur.old.end cur.old.rest.now cur.new.rest.now result }
    ensures room { OnOk result (cur.new.room ≡ cur.old.room) }
    ensures end { cur.new.end ≡ cur.old.end }
{
    parser::marks(alloc, cur)
}

/// Annotations, which are dropped.
///
/// The longest prefix of the tokens that is a row of them, which may be none; otherwise as `expression`.
pub fn anns(alloc: Global, cur: &mut Cursor<'_>) -> Result<(), Stop>
    ensures answers { PassesAnnotations cur.old.room cur.old.end cur.old.rest.now cur.new.rest.now result }
    ensures room { OnOk result (cur.new.room ≡ cur.old.room) }
    ensures end { cur.new.end ≡ cur.old.end }
{
    match parser::annotations(alloc, cur) {
        Ok(_) => Ok(()),
        Err(stop) => Err(stop),
    }
}
