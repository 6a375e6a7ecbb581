// The descent: each part of the grammar is read by a method, and what leads back to the start is passed to them as a value.
//
// So each method is proved by itself, and `descend` alone calls itself.

ghost use Rattle.std.specs.Prelude.{◌≡◌, ◌≤◌, suc};
ghost use Rattle.mz_base.specs.declared.limit.TheConstants.{OPEN_LIMIT};
ghost use Rattle.mz_grammar.specs.Reads.{Reads};
ghost use Rattle.mz_grammar.specs.Parts as parts;
ghost use Rattle.mz_grammar.specs.Reading.{reads};
ghost use Rattle.mz_expr_operands.specs.Views.{operand};
ghost use Rattle.mz_expr.specs.Descent.{entry_at, tighter, MayBegin, MayRead};

use mz_base::Stop;
use mz_expr_operands::operand::Operand;
use mz_expr_operands::operator::tighter_level;
use mz_grammar::{Cursor, Level};
use std::alloc::Global;

/// Where the descent begins.
#[derive(Clone, Copy)]
pub enum Entry {
    /// An expression of this level or a tighter one.
    Level(Level),
    /// An atom, or a prefix operator and what it applies to.
    Unit,
    /// What an atom or an annotation begins with.
    Head,
}

/// Reads parts of the grammar. Its reader is called only where less is to be read: with fewer tokens that may still be
/// opened than `room`, or with as many and further down than `entry`.
#[derive(Clone, Copy)]
pub struct Descent<F> {
    pub alloc: Global,
    pub room: u32,
    pub entry: Entry,
    pub reader: F,
}

/// What stands on either side of an operator of this level.
fn tighter(l: Level) -> Entry
    ensures { result ≡ tighter l }
{
    match tighter_level(l) {
        None => Entry::Unit,
        Some(k) => Entry::Level(k),
    }
}

impl<F: Fn(Global, &mut Cursor<'_>, Entry) -> Result<Operand, Stop>> Descent<F> {
    /// What reads all that stands where this many tokens may still be opened.
    pub fn outside(alloc: Global, room: u32, reader: F) -> Descent<F>
        requires { room ≤ OPEN_LIMIT }
        ensures { result ≡ record { alloc = alloc; room = suc room; entry = Entry.Unit; reader = reader } }
    {
        Descent {
            alloc,
            room: room + 1,
            entry: Entry::Unit,
            reader,
        }
    }

    /// What is read after a token that was opened.
    #[tactic(auto, using(crate::proofs::Descents::below_room))]
    pub fn inside(&self, cur: &mut Cursor<'_>, entry: Entry) -> Result<Operand, Stop>
        requires { MayRead self.now.room self.now.entry (F.pre self.now.reader) (F.post self.now.reader) cur.old }
        ensures { Reads operand (entry_at entry) cur.old cur.new result }
    {
        (self.reader)(self.alloc, cur, entry)
    }

    /// The head of an annotation.
    #[tactic(auto, using(crate::proofs::Descents::below_unit))]
    pub fn apart(&self, cur: &mut Cursor<'_>) -> Result<Operand, Stop>
        requires { MayBegin Entry.Unit self.now.room self.now.entry (F.pre self.now.reader) (F.post self.now.reader) cur.old }
        ensures { Reads operand (reads parts.head) cur.old cur.new result }
    {
        (self.reader)(self.alloc, cur, Entry::Head)
    }

    /// What stands on either side of an operator of this level.
    #[tactic(auto, using(crate::proofs::Descents::operand_entry, crate::proofs::Descents::below_level))]
    pub fn operand(&self, cur: &mut Cursor<'_>, l: Level) -> Result<Operand, Stop>
        requires { MayBegin (Entry.Level l) self.now.room self.now.entry (F.pre self.now.reader) (F.post self.now.reader) cur.old }
        ensures { Reads operand (reads (parts.operand l)) cur.old cur.new result }
    {
        (self.reader)(self.alloc, cur, tighter(l))
    }
}

/// What the descent reads from this entry on.
pub fn descend(alloc: Global, cur: &mut Cursor<'_>, entry: Entry) -> Result<Operand, Stop>
    ensures { Reads operand (entry_at entry) cur.old cur.new result }
{
    let descent = Descent {
        alloc,
        room: cur.room,
        entry,
        reader: descend,
    };
    match entry {
        Entry::Level(l) => descent.level(cur, l),
        Entry::Unit => descent.unit(cur),
        Entry::Head => descent.head(cur),
    }
}
