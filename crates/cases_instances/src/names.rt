// Whether names are those that flattening takes.

ghost use Rattle.std.specs.Prelude.{◌≡◌, false, map, string_bytes, true};
ghost use Rattle.std.specs.List.{Contains};
ghost use Rattle.mz_base.specs.Names.{text_of};
ghost use Rattle.mz_arena.specs.Instances.{model_var};
ghost use Rattle.fz_program.specs.Flat.{AreDistinct};
ghost use Rattle.fz_program.specs.Names.{is_reserved};
ghost use Rattle.flat_meaning.specs.Front.{AreNamed, HasName, HaveNames};
ghost use Rattle.cases_instances.specs.Texts.{AreTexts};

use mz_arena::ModelVar;
use mz_base::{Name, Names, is_identifier};

// Whether a text begins as the names do that the compiler makes.
fn is_reserved(x: &str) -> bool
    ensures { result ≡ is_reserved x.now }
{
    x.as_bytes().starts_with(b"X_")
}

// Whether a name is this text's.
fn is_name(names: &Names, n: Name, x: &str) -> bool
    ensures { result ≡ true → text_of names.now n ≡ x.now }
{
    match names.find(x) {
        Some(m) => m == n,
        None => false,
    }
}

// Whether a variable's name is this text, an identifier that isn't reserved.
fn has_name(names: &Names, m: &ModelVar, x: &str) -> bool
    ensures name { result ≡ true → HasName names.now (model_var m.now) }
    ensures text { result ≡ true → text_of names.now m.now.name ≡ x.now }
{
    is_name(names, m.name, x) && (is_identifier(x.as_bytes()) && !is_reserved(x))
}

// Whether the names of variables are these texts, identifiers that aren't reserved.
fn have_names(names: &Names, vars: &[ModelVar], texts: &[String]) -> bool
    ensures names { result ≡ true → HaveNames names.now (map model_var vars.now) }
    ensures texts { result ≡ true → AreTexts names.now (map model_var vars.now) (map string_bytes texts.now) }
{
    let mut others = texts;
    let mut rest = vars;
    'vars: while let [m, more @ ..] = rest {
        let [x, next @ ..] = others else {
            return false;
        };
        if !has_name(names, m, x.as_str()) {
            return false;
        }
        rest = more;
        others = next;
    }
    others.is_empty()
}

// Whether two texts are the same.
fn is_text(y: &str, x: &str) -> bool
    ensures yes { result ≡ true → y.now ≡ x.now }
    ensures no { result ≡ false → y.now ≡ x.now → ⊥ }
{
    y == x
}

// Whether a text is one of these.
fn is_among(x: &str, texts: &[String]) -> bool
    ensures { result ≡ false → Contains (map string_bytes texts.now) x.now → ⊥ }
{
    'texts: for y in texts {
        if is_text(y.as_str(), x) {
            return true;
        }
    }
    false
}

// Whether no text stands twice.
fn are_distinct(texts: &[String]) -> bool
    ensures { result ≡ true → AreDistinct (map string_bytes texts.now) }
{
    let mut rest = texts;
    'texts: while let [x, more @ ..] = rest {
        if is_among(x.as_str(), more) {
            return false;
        }
        rest = more;
    }
    true
}

/// Whether the names of variables are these texts: identifiers that differ, none of which begins with `X_`.
pub fn are_named(names: &Names, vars: &[ModelVar], texts: &[String]) -> bool
    ensures { result ≡ true → AreNamed names.now (map model_var vars.now) }
{
    have_names(names, vars, texts) && are_distinct(texts)
}
