// The entry points of the descent.

ghost use Rattle.mz_tree.specs.Views.{tree, declaration, written};
ghost use Rattle.mz_grammar.specs.Reads.{Passes, Reads};
ghost use Rattle.mz_grammar.specs.Parts as parts;
ghost use Rattle.mz_grammar.specs.Reading.{reads};
ghost use Rattle.mz_expr_operands.specs.Views.{operand};

use crate::parser::descent::{Descent, Entry, descend};
use mz_base::Stop;
use mz_expr_operands::operand::Operand;
use mz_grammar::{Cursor, Level};
use mz_tree::{Decl, Expr, TypeText};
use std::alloc::Global;

/// An expression of this level or a tighter one.
pub fn level(alloc: Global, cur: &mut Cursor<'_>, l: Level) -> Result<Operand, Stop>
    ensures { Reads operand (reads (parts.level l)) cur.old cur.new result }
{
    descend(alloc, cur, Entry::Level(l))
}

/// A whole expression.
pub fn expr(alloc: Global, cur: &mut Cursor<'_>) -> Result<Expr, Stop>
    ensures { Reads tree (reads parts.expr) cur.old cur.new result }
{
    Descent::outside(alloc, cur.room, descend).expr(cur)
}

/// Annotations, which are dropped: whether there are any.
pub fn annotations(alloc: Global, cur: &mut Cursor<'_>) -> Result<bool, Stop>
    ensures { Passes (λ b. b) (reads parts.annotations) cur.old cur.new result }
{
    Descent::outside(alloc, cur.room, descend).annotations(cur)
}

/// Marks, which are dropped.
pub fn marks(alloc: Global, cur: &mut Cursor<'_>) -> Result<(), Stop>
    ensures { Passes (λ u. tt) (reads parts.marks) cur.old cur.new result }
{
    Descent::outside(alloc, cur.room, descend).marks(cur)
}

/// A type.
pub fn type_text(alloc: Global, cur: &mut Cursor<'_>) -> Result<TypeText, Stop>
    ensures { Reads written (reads parts.type) cur.old cur.new result }
{
    Descent::outside(alloc, cur.room, descend).type_text(cur)
}

/// A declaration.
pub fn declaration(alloc: Global, cur: &mut Cursor<'_>) -> Result<Decl, Stop>
    ensures { Reads declaration (reads parts.declaration) cur.old cur.new result }
{
    Descent::outside(alloc, cur.room, descend).declaration(cur)
}

/// A declaration, after its type.
pub fn declared(alloc: Global, cur: &mut Cursor<'_>, ty: TypeText) -> Result<Decl, Stop>
    ensures { Reads declaration (reads (parts.declared (written ty))) cur.old cur.new result }
{
    Descent::outside(alloc, cur.room, descend).declared(cur, ty)
}
