// The arguments of a FlatZinc program's rows: whether they are of the kinds that the table has.

ghost use Rattle.std.specs.Prelude.{◌≡◌, map};
ghost use Rattle.std.specs.List.{list_all, list_any};
ghost use Rattle.fz_program.specs.Arguments.{argument, plain, set};
ghost use Rattle.fz_program.specs.Flat.{
  are_all_of,
  are_arguments,
  has_variable,
  is_argument,
  is_constant,
  is_definition,
  is_literal,
  is_one_of,
  is_plain,
  is_variable,
  is_variable_of,
  kind_of_domain,
  same_kind,
  variable,
};

use crate::program::{Arg, Domain, FzVar};
use crate::row_name::Kind;
use mz_value::{GREATEST, LEAST, RangeSet};

pub(crate) fn is_literal(n: i64) -> bool
    ensures { result ≡ is_literal n }
{
    LEAST <= n && n <= GREATEST
}

#[tactic(auto, unfolding(crate::specs::Flat::kind_of_domain))]
fn kind_of(domain: &Domain) -> Kind
    ensures { result ≡ kind_of_domain domain.now }
{
    match domain {
        Domain::Bool => Kind::Bool,
        Domain::Ints(_) => Kind::Int,
        Domain::SetOf(_) => Kind::Set,
    }
}

// Whether both are integers, both truth values, or both sets.
#[tactic(auto, unfolding(crate::specs::Flat::same_kind))]
fn same_kind(a: Kind, b: Kind) -> bool
    ensures { result ≡ same_kind a b }
{
    match a {
        Kind::Int => matches!(b, Kind::Int),
        Kind::Bool => matches!(b, Kind::Bool),
        Kind::Set => matches!(b, Kind::Set),
        _ => false,
    }
}

/// Whether a variable is declared, and is of a kind. Places are from 0.
pub fn is_variable_of(vars: &[FzVar], kind: Kind, k: u64) -> bool
    ensures { result ≡ is_variable_of (map variable vars.now) kind k }
{
    match vars.get(k as usize) {
        Some(v) => same_kind(kind, kind_of(&v.domain)),
        None => false,
    }
}

#[tactic(auto, unfolding(crate::specs::Flat::is_constant))]
fn is_constant(kind: Kind, a: &Arg) -> bool
    ensures { result ≡ is_constant kind (plain a.now) }
{
    match a {
        Arg::Bool(_) => same_kind(kind, Kind::Bool),
        Arg::Int(n) => same_kind(kind, Kind::Int) && is_literal(*n),
        Arg::Set(s) => is_constant_set(kind, s),
        Arg::Var(_) => false,
        Arg::Array(_) => false,
    }
}

// The same of a set. Its ranges are canonical and in the limit, so no test of them is made.
#[tactic(auto, unfolding(crate::specs::Flat::is_constant), using(crate::proofs::Sets::with_set))]
fn is_constant_set(kind: Kind, s: &RangeSet) -> bool
    ensures { result ≡ is_constant kind (set s.now) }
{
    let _ranges = s.ranges();
    same_kind(kind, Kind::Set)
}

#[tactic(auto, unfolding(crate::specs::Flat::is_plain))]
fn is_plain(vars: &[FzVar], kind: Kind, a: &Arg) -> bool
    ensures { result ≡ is_plain (map variable vars.now) kind (plain a.now) }
{
    match a {
        Arg::Var(k) => is_variable_of(vars, kind, *k),
        _ => is_constant(kind, a),
    }
}

// Whether an argument is no array, and of a kind.
fn is_one(vars: &[FzVar], kind: Kind, a: &Arg) -> bool
    ensures { result ≡ is_one_of (is_plain (map variable vars.now) kind) (argument a.now) }
{
    match a {
        Arg::Array(_) => false,
        _ => is_plain(vars, kind, a),
    }
}

fn is_one_constant(kind: Kind, a: &Arg) -> bool
    ensures { result ≡ is_one_of (is_constant kind) (argument a.now) }
{
    match a {
        Arg::Array(_) => false,
        _ => is_constant(kind, a),
    }
}

// Whether an argument is an array of elements of a kind.
fn are_all(vars: &[FzVar], kind: Kind, a: &Arg) -> bool
    ensures { result ≡ are_all_of (is_plain (map variable vars.now) kind) (argument a.now) }
{
    match a {
        Arg::Array(items) => are_plain(vars, kind, items),
        _ => false,
    }
}

fn are_plain(vars: &[FzVar], kind: Kind, items: &[Arg]) -> bool
    ensures { result ≡ list_all (λ a. is_plain (map variable vars.now) kind (plain a)) items.now }
{
    items.iter().all(|a| is_plain(vars, kind, a))
}

fn are_all_constant(kind: Kind, a: &Arg) -> bool
    ensures { result ≡ are_all_of (is_constant kind) (argument a.now) }
{
    match a {
        Arg::Array(items) => are_constant(kind, items),
        _ => false,
    }
}

fn are_constant(kind: Kind, items: &[Arg]) -> bool
    ensures { result ≡ list_all (λ a. is_constant kind (plain a)) items.now }
{
    items.iter().all(|a| is_constant(kind, a))
}

#[tactic(auto, unfolding(crate::specs::Flat::is_argument))]
fn is_argument(vars: &[FzVar], kind: Kind, a: &Arg) -> bool
    ensures { result ≡ is_argument (map variable vars.now) kind (argument a.now) }
{
    match kind {
        Kind::Int => is_one(vars, Kind::Int, a),
        Kind::Bool => is_one(vars, Kind::Bool, a),
        Kind::Set => is_one(vars, Kind::Set, a),
        Kind::ConstInt => is_one_constant(Kind::Int, a),
        Kind::Ints => are_all(vars, Kind::Int, a),
        Kind::Bools => are_all(vars, Kind::Bool, a),
        Kind::Sets => are_all(vars, Kind::Set, a),
        Kind::ConstInts => are_all_constant(Kind::Int, a),
        Kind::ConstBools => are_all_constant(Kind::Bool, a),
        Kind::ConstSets => are_all_constant(Kind::Set, a),
    }
}

/// Whether there are as many arguments as kinds, each of its kind.
#[tactic(auto, unfolding(crate::specs::Flat::are_arguments))]
pub fn are_arguments(vars: &[FzVar], kinds: &[Kind], args: &[Arg]) -> bool
    ensures { result ≡ are_arguments (map variable vars.now) kinds.now (map argument args.now) }
{
    match kinds {
        [] => args.is_empty(),
        [kind, more_kinds @ ..] => match args {
            [] => false,
            [a, more @ ..] => {
                is_argument(vars, *kind, a) && are_arguments(vars, more_kinds, more)
            }
        },
    }
}

fn is_variable(k: u64, a: &Arg) -> bool
    ensures { result ≡ is_variable k (plain a.now) }
{
    match a {
        Arg::Var(j) => *j == k,
        _ => false,
    }
}

fn is_among(k: u64, items: &[Arg]) -> bool
    ensures { result ≡ list_any (λ a. is_variable k (plain a)) items.now }
{
    items.iter().any(|a| is_variable(k, a))
}

fn has_variable(k: u64, a: &Arg) -> bool
    ensures { result ≡ has_variable k (argument a.now) }
{
    match a {
        Arg::Array(items) => is_among(k, items),
        _ => is_variable(k, a),
    }
}

fn have_variable(k: u64, args: &[Arg]) -> bool
    ensures { result ≡ list_any (λ a. has_variable k (argument a)) args.now }
{
    args.iter().any(|a| has_variable(k, a))
}

/// Whether the variable that a row defines, where it defines one, stands in it.
pub fn is_definition(args: &[Arg], defines: Option<u64>) -> bool
    ensures { result ≡ is_definition (map argument args.now) defines }
{
    match defines {
        None => true,
        Some(k) => have_variable(k, args),
    }
}
