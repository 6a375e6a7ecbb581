// What is asked of a node, beside its bounds.

ghost use Rattle.std.specs.Prelude.{◌≡◌, pos, slice_get};
ghost use Rattle.std.specs.Ordering.{int_eq};
ghost use Rattle.mz_arena.specs.Entries.{is_set_const, is_local, is_free};
ghost use Rattle.mz_arena.specs.StepsAsked.{is_const};
ghost use Rattle.mz_arena.specs.Tables.{entries};

use crate::node::{Id, NodeKind};
use crate::table::Table;

pub(crate) fn is_set_const(kind: NodeKind) -> bool
    ensures { result ≡ is_set_const kind }
{
    match kind {
        NodeKind::SetConst => true,
        _ => false,
    }
}

/// Whether a node of this kind is a choice.
pub(crate) fn is_local(kind: NodeKind) -> bool
    ensures { result ≡ is_local kind }
{
    match kind {
        NodeKind::Local => true,
        NodeKind::SetLocal => true,
        _ => false,
    }
}

/// Whether a node of this kind is a variable or a choice.
pub(crate) fn is_free(kind: NodeKind) -> bool
    ensures { result ≡ is_free kind }
{
    match kind {
        NodeKind::Var => true,
        NodeKind::Local => true,
        NodeKind::SetVar => true,
        NodeKind::SetLocal => true,
        _ => false,
    }
}

/// Whether a number is this id.
pub(crate) fn is_id(number: &i64, id: Id) -> bool
    ensures { result ≡ int_eq number.now (pos id) }
{
    if *number < 0 {
        false
    } else {
        *number as u64 == id
    }
}

impl Table {
    /// Whether there is a SetConst with this id.
    pub(crate) fn is_const(&self, id: Id) -> bool
        ensures { result ≡ is_const (slice_get (entries self.now.sets.items self.now.stored.items) id) }
    {
        if (id as usize) < self.stored.len() {
            is_set_const(self.stored[id as usize].node.kind)
        } else {
            false
        }
    }
}
