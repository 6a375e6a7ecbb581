// One pass over the nodes of a run.

ghost use Rattle.std.specs.Prelude.{◌≡◌, ◌<◌, Some, true, length, slice_get};
ghost use Rattle.mz_model_state.specs.Tested.{AllNumbered, IsNumbered};

use mz_arena::{Arena, Id, Node, NodeKind};

/// Whether this id is at the place.
fn is_at(ids: &[Id], place: u64, id: Id) -> bool
    ensures { result ≡ true → slice_get ids.now place ≡ Some id }
{
    match ids.get(place as usize) {
        None => false,
        Some(i) => *i == id,
    }
}

/// Whether a node that is a variable or a choice is the one with its number.
fn is_numbered(vars: &[Id], choices: &[Id], id: Id, n: Node) -> bool
    ensures { result ≡ true → IsNumbered vars.now choices.now id n }
{
    match n.kind {
        NodeKind::Var => is_at(vars, n.b, id),
        NodeKind::SetVar => is_at(vars, n.b, id),
        NodeKind::Local => is_at(choices, n.b, id),
        NodeKind::SetLocal => is_at(choices, n.b, id),
        _ => true,
    }
}

/// Whether each variable is the one of `vars` with its number, and each choice that of `choices`.
pub(crate) fn all_numbered(arena: &Arena, vars: &[Id], choices: &[Id]) -> bool
    ensures { result ≡ true → AllNumbered arena.now vars.now choices.now }
{
    let count = arena.len();
    for id in 0..count {
        let n = arena.node(id);
        if !is_numbered(vars, choices, id, n) {
            return false;
        }
    }
    true
}
