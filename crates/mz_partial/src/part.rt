// What is kept of an id.

ghost use Rattle.std.specs.Prelude.{◌≡◌, ◌<◌, Some, length, slice_get};

use mz_arena::Id;

/// What is kept of an id: a total term, the Boolean that tells where the id has a value, none where
/// it always has one, and how many elements it has where it is a list.
#[derive(Clone, Copy)]
pub struct Part {
    pub(crate) flag: Option<Id>,
    pub(crate) term: Id,
    pub(crate) len: u64,
}

/// The part of one of the first ids.
pub(crate) fn part_at(memo: &[Part], id: Id) -> Part
    requires { id < length memo.now }
    ensures { slice_get memo.now id ≡ Some result }
{
    memo[id as usize]
}
