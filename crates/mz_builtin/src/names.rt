// Names and numbers of the table.

ghost use Rattle.std.specs.Prelude.{◌≡◌, ◌≤◌, ◌+◌, length, map};
ghost use Rattle.std.specs.List.{list_any};
ghost use Rattle.mz_builtin.specs.Entries.{plain_line};
ghost use Rattle.mz_builtin.specs.Table.{placed_from};
ghost use Rattle.mz_builtin.specs.Signatures.{has_name, is_known, global_place, first_named};
ghost use Rattle.mz_builtin.specs.Signatures as definition;

use crate::entry::Line;
use crate::table::{built_ins, first_global, globals};

#[tactic(auto, unfolding(crate::specs::Signatures::has_name))]
pub(crate) fn has_name(name: &str, line: &Line) -> bool
    ensures { result ≡ has_name name.now (plain_line line.now) }
{
    line.name == name
}

fn is_among(name: &str, lines: &[Line]) -> bool
    ensures { result ≡ list_any (has_name name.now) (map plain_line lines.now) }
{
    for line in lines {
        if has_name(name, line) {
            return true;
        }
    }
    false
}

/// Whether some operator, built-in or global has this name. Takes no memory.
#[tactic(auto, unfolding(crate::specs::Signatures::is_known))]
pub fn known(name: &str) -> bool
    ensures { result ≡ is_known name.now }
{
    is_among(name, built_ins()) || is_among(name, globals())
}

#[tactic(auto, unfolding(crate::specs::Signatures::first_named, crate::specs::Table::placed_from))]
fn first_named(name: &str, lines: &[Line]) -> Option<u32>
    requires { length lines.now ≤ 10000 }
    ensures { result ≡ first_named name.now (placed_from 0 (map plain_line lines.now)) }
{
    let mut number = 0;
    for line in lines {
        if has_name(name, line) {
            return Some(number);
        }
        number += 1;
    }
    None
}

/// The number of the first operator or built-in of this name: of a binary operator where the name
/// is a prefix operator's too. Takes no memory.
pub fn number_of(name: &str) -> Option<u32>
    ensures { result ≡ definition.number_of name.now }
{
    first_named(name, built_ins())
}

/// The place, from 0, among the globals, in the order of the table, of the one with this number;
/// None for the number of an operator or built-in. Takes no memory.
#[tactic(auto, unfolding(crate::specs::Signatures::global_place))]
pub fn global(number: u32) -> Option<u32>
    ensures { result ≡ global_place number }
{
    let first = first_global();
    if number < first {
        None
    } else {
        Some(number - first)
    }
}
