// Symbols and lines that are these values wherever they are read.

ghost use Rattle.std.specs.Prelude.{◌≡◌, ◌∷◌, [], MatchOption, Some, false, map, true, ℕ};
ghost use Rattle.mz_value.specs.Contents as values;
ghost use Rattle.mz_value.specs.Contents.{content};
ghost use Rattle.mz_arena.specs.Values.{Term};
ghost use Rattle.mz_symbol.specs.Readings.{Reading, Reads};
ghost use Rattle.mz_symbol.specs.Runs.{ReadsNodes};
ghost use Rattle.mz_symbol.specs.Symbols.{line_value, symbol_value};
ghost use Rattle.mz_eval_elements.specs.StepsLines.{Show};

use crate::nodes::{is_bit, is_number};
use mz_arena::Arena;
use mz_core::Base;
use mz_symbol::{Line, Run, Symbol};
use mz_value::Value;

fn is_truth(nodes: &Arena, s: Symbol, b: bool) -> bool
    ensures { result ≡ true → (t : ℕ → Term) → ReadsNodes t nodes.now → symbol_value t s ≡ Some (values.bool b) }
{
    match s.base {
        Base::Bool => s.occurs.is_none() && is_bit(nodes, s.term, b),
        _ => false,
    }
}

fn is_integer(nodes: &Arena, s: Symbol, n: &i64) -> bool
    ensures { result ≡ true → (t : ℕ → Term) → ReadsNodes t nodes.now → symbol_value t s ≡ Some (values.int n.now) }
{
    match s.base {
        Base::Int => s.occurs.is_none() && is_number(nodes, s.term, n),
        _ => false,
    }
}

fn is_case(nodes: &Arena, s: Symbol, e: u64, n: &i64) -> bool
    ensures { result ≡ true → (t : ℕ → Term) → ReadsNodes t nodes.now → symbol_value t s ≡ Some (values.case e n.now) }
{
    match s.base {
        Base::Enum(d) => d == e && (s.occurs.is_none() && is_number(nodes, s.term, n)),
        _ => false,
    }
}

fn is_absent(nodes: &Arena, s: Symbol) -> bool
    ensures { result ≡ true → (t : ℕ → Term) → ReadsNodes t nodes.now → symbol_value t s ≡ Some values.absent }
{
    match s.occurs {
        Some(o) => is_bit(nodes, o, false),
        None => false,
    }
}

fn is_value(nodes: &Arena, s: Symbol, v: &Value) -> bool
    ensures { result ≡ true → (t : ℕ → Term) → ReadsNodes t nodes.now → symbol_value t s ≡ Some (content v.now) }
{
    match v {
        Value::Bool(b) => is_truth(nodes, s, *b),
        Value::Int(n) => is_integer(nodes, s, n),
        Value::Enum(e, n) => is_case(nodes, s, *e, n),
        Value::Set(_) => false,
        Value::Absent => is_absent(nodes, s),
        Value::Text(_) => false,
        Value::Array(_) => false,
    }
}

fn differs(nodes: &Arena, s: &Symbol, v: &Value) -> bool
    ensures { result ≡ false → (t : ℕ → Term) → ReadsNodes t nodes.now → symbol_value t s.now ≡ Some (content v.now) }
{
    !is_value(nodes, *s, v)
}

/// The first symbol, and the others.
fn split(ss: &[Symbol]) -> Option<(&Symbol, &[Symbol])>
    ensures { MatchOption result (Unit {0}) (λ x. ss.now ≡ x.0.now ∷ x.1.now) }
{
    match ss {
        [] => None,
        [s, more @ ..] => Some((s, more)),
    }
}

fn is_none(ss: &[Symbol]) -> bool
    ensures { result ≡ true → ss.now ≡ [] }
{
    ss.is_empty()
}

/// Whether symbols are these values, one by one.
fn are_values(nodes: &Arena, ss: &[Symbol], items: &[Value]) -> bool
    ensures { result ≡ true → (t : ℕ → Term) → ReadsNodes t nodes.now → Show t ss.now items.now }
{
    let mut rest = ss;
    for v in items {
        let Some(x) = split(rest) else {
            return false;
        };
        if differs(nodes, x.0, v) {
            return false;
        }
        rest = x.1;
    }
    is_none(rest)
}

#[tactic(auto, using(crate::proofs::LineLaws::line_told))]
fn is_line(nodes: &Arena, l: &Line, items: &[Value]) -> bool
    ensures { result ≡ true → (t : ℕ → Term) → ReadsNodes t nodes.now → line_value t l.now ≡ Some (map content items.now) }
{
    is_bit(nodes, l.defined, true) && are_values(nodes, &l.items, items)
}

/// Whether the array with this number has these elements wherever it is read.
pub(crate) fn has_values(run: &Run, line: u64, items: &[Value]) -> bool
    ensures { result ≡ true → (r : Reading) → Reads r run.now → r.line line ≡ Some (map content items.now) }
{
    let Some(l) = run.line(line) else {
        return false;
    };
    is_line(run.arena(), l, items)
}
