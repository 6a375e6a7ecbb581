// How many dimensions an identifier means that begins an array with index sets.

ghost use Rattle.std.specs.Prelude.{◌≡◌, ◌<◌, length};
ghost use Rattle.std.specs.Str.{bytes_eq};
ghost use Rattle.mz_base.specs.Names.{text_of};
ghost use Rattle.mz_grammar.specs.Data.{dimensions_of};

use mz_base::{Name, Names};

/// Whether a name has this text, which isn't empty. A name that isn't of the table has no text.
fn has_text(names: &Names, n: Name, text: &str) -> bool
    requires { 0 < length text.now }
    ensures { result ≡ bytes_eq (text_of names.now n) text.now }
{
    match names.find(text) {
        Some(found) => n == found,
        None => false,
    }
}

/// How many dimensions a name means: 1 to 6 for the texts `array1d` to `array6d`, and None for any other.
#[tactic(auto, unfolding(mz_grammar::specs::Data::dimensions_of))]
pub fn dimensions_of(names: &Names, n: Name) -> Option<u8>
    ensures { result ≡ dimensions_of names.now n }
{
    if has_text(names, n, "array1d") {
        Some(1)
    } else if has_text(names, n, "array2d") {
        Some(2)
    } else if has_text(names, n, "array3d") {
        Some(3)
    } else if has_text(names, n, "array4d") {
        Some(4)
    } else if has_text(names, n, "array5d") {
        Some(5)
    } else if has_text(names, n, "array6d") {
        Some(6)
    } else {
        None
    }
}
