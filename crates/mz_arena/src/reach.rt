// The bounds of a node of each kind.

ghost use Rattle.std.specs.Prelude.{◌≡◌, IfOk, option_map, true, false};
ghost use Rattle.mz_interval.specs.Interval.{ends};
ghost use Rattle.mz_arena.specs.Entries.{is_set_const};
ghost use Rattle.mz_arena.specs.Extents.{whole, extreme_extent};
ghost use Rattle.mz_arena.specs.Places.{IsListedTable};
ghost use Rattle.mz_arena.specs.Tables.{Sets, asked, known, is_plain, IsKept, IsLongCons, IsShort, IsSoundTable, TellsAny, TellsIn};

use crate::node::{Id, Node, NodeKind};
use crate::number::constant;
use crate::table::{Reach, Table};
use crate::truth::constant_truth;
use mz_interval::Interval;
use mz_operations::Side;
use std::alloc::{AllocError, Global};

/// An integer with these bounds, where there are any.
fn number(bounds: Option<Interval>) -> Option<Reach>
    ensures short { IsShort result }
    ensures told { (sets : Sets) → TellsAny sets result (option_map whole (option_map ends bounds)) }
{
    match bounds {
        Some(i) => Some(Reach::Whole(i)),
        None => None,
    }
}

/// Whether a node of this kind needs no new set.
fn is_plain(kind: NodeKind) -> bool
    ensures { result ≡ is_plain kind }
{
    match kind {
        NodeKind::If => false,
        NodeKind::Access => false,
        NodeKind::Union => false,
        NodeKind::Intersect => false,
        NodeKind::Symdiff => false,
        _ => true,
    }
}

impl Table {
    /// The least or the greatest integer of a list.
    fn extreme_of(&self, side: Side, list: Id) -> Option<Reach>
        requires { IsSoundTable self.now }
        ensures short { IsShort result }
        ensures told { TellsIn self.now result (extreme_extent side (known self.now list)) }
    {
        if self.is_whole_list(list) {
            Some(Reach::Whole(self.extreme(side, list)))
        } else {
            None
        }
    }

    /// A node that needs no new set; `None` where it has no bounds.
    fn plain(&self, n: &Node) -> Option<Reach>
        requires { IsSoundTable self.now }
        ensures long { IsLongCons n.now.kind result }
        ensures told { is_plain n.now.kind ≡ true → is_set_const n.now.kind ≡ false → TellsIn self.now result (asked self.now n.now) }
    {
        match n.kind {
            NodeKind::Int => number(constant(&n.number)),
            NodeKind::Bool => constant_truth(&n.number),
            NodeKind::Var => self.variable(n.c, n.a),
            NodeKind::Local => self.variable(n.c, n.a),
            NodeKind::Add => number(self.sum(n.a, n.b)),
            NodeKind::Mul => number(self.product(n.a, n.b)),
            NodeKind::Div => number(self.quotient(n.a, n.b)),
            NodeKind::Mod => number(self.remainder(n.a, n.b)),
            NodeKind::Min => self.extreme_of(Side::Least, n.a),
            NodeKind::Max => self.extreme_of(Side::Greatest, n.a),
            NodeKind::Abs => number(self.magnitude(n.a)),
            NodeKind::ToInt => self.to_int(n.a),
            NodeKind::Eq => self.comparison(n.a, n.b),
            NodeKind::Ne => self.comparison(n.a, n.b),
            NodeKind::Le => self.comparison(n.a, n.b),
            NodeKind::Lt => self.comparison(n.a, n.b),
            NodeKind::And => self.connective(n.a, n.b),
            NodeKind::Or => self.connective(n.a, n.b),
            NodeKind::Not => self.negation(n.a),
            NodeKind::Iff => self.connective(n.a, n.b),
            NodeKind::Guard => self.guard(n.a, n.b),
            NodeKind::Nil => Some(Reach::Empty),
            NodeKind::Cons => self.cons(n.a, n.b),
            NodeKind::SetVar => self.set_variable(n.a),
            NodeKind::SetLocal => self.set_variable(n.a),
            NodeKind::Member => self.member(n.a, n.b),
            NodeKind::Diff => self.diff(n.a, n.b),
            NodeKind::Card => number(self.card(n.a)),
            NodeKind::SetEq => self.set_comparison(n.a, n.b),
            NodeKind::Subset => self.set_comparison(n.a, n.b),
            NodeKind::If => None,
            NodeKind::Access => None,
            NodeKind::SetConst => None,
            NodeKind::Union => None,
            NodeKind::Intersect => None,
            NodeKind::Symdiff => None,
        }
    }

    /// The bounds of a node over the nodes of the table; `None` where it has none. A new greatest
    /// set is put into the table.
    pub(crate) fn reach_of(&mut self, alloc: Global, n: &Node) -> Result<Option<Reach>, AllocError>
        requires sound { IsSoundTable self.old }
        requires listed { IsListedTable self.old }
        requires other { is_set_const n.now.kind ≡ false }
        ensures kept { IsKept self.old self.new }
        ensures long { IfOk result (IsLongCons n.now.kind) }
        ensures told { IfOk result (λ r. TellsIn self.new r (asked self.old n.now)) }
    {
        if is_plain(n.kind) {
            return Ok(self.plain(n));
        }
        match n.kind {
            NodeKind::If => self.branches(alloc, n.a, n.b, n.c),
            NodeKind::Access => self.access(alloc, n.a, n.b),
            NodeKind::Union => self.united(alloc, n.a, n.b),
            NodeKind::Intersect => self.intersected(alloc, n.a, n.b),
            NodeKind::Symdiff => self.united(alloc, n.a, n.b),
            _ => unreachable!(),
        }
    }
}
