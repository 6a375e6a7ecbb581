// What is known of an argument before solving.

ghost use Rattle.std.specs.Prelude.{◌≡◌, ◌++◌, IfOk, OnOk, Some, map};
ghost use Rattle.std.specs.Option.{option_map};
ghost use Rattle.mz_value.specs.Contents.{content};
ghost use Rattle.mz_operations.specs.Arguments.{arguments};
ghost use Rattle.mz_operations.specs.Bounds.{bound_of};
ghost use Rattle.mz_globals.specs.Givens as words;
ghost use Rattle.mz_eval_globals.specs.Views.{plain_given, option_list, array_given, one_given};

use mz_value::{ArrayValue, Value};
use std::alloc::{AllocError, Global};

/// What is known of an argument: an array's least and greatest index for each dimension, both
/// inclusive; and the least and the greatest value of each element, or of the number. Of a set
/// there is nothing to know, nor of an undefined par argument, nor of an array without a shape.
#[derive(Drop)]
pub struct Given {
    pub index: Vec<(i64, i64)>,
    pub ends: Vec<(i64, i64)>,
}

/// The bounds of a value that is no array; `None` of a set.
#[tactic(auto, unfolding(mz_operations::specs::Bounds::bound_of))]
fn ends_of(v: &Value) -> Option<(i64, i64)>
    ensures { option_list result ≡ words.ends_in (bound_of (content v.now)) }
{
    match v {
        Value::Bool(false) => Some((0, 0)),
        Value::Bool(true) => Some((1, 1)),
        Value::Int(n) => Some((*n, *n)),
        Value::Enum(_, k) => Some((*k, *k)),
        Value::Set(_) => None,
        Value::Absent => Some((0, 0)),
        Value::Text(_) => Some((0, 0)),
        Value::Array(_) => Some((0, 0)),
    }
}

/// The bounds of all elements.
fn ends_of_all(alloc: Global, items: &[Value]) -> Result<Vec<(i64, i64)>, AllocError>
    ensures { IfOk result (λ es. es.items ≡ words.ends_in_all (map bound_of (map content items.now))) }
{
    let mut all = Vec::new(alloc);
    for v in items {
        push_ends(&mut all, ends_of(v))?;
    }
    Ok(all)
}

fn push_ends(all: &mut Vec<(i64, i64)>, ends: Option<(i64, i64)>) -> Result<(), AllocError>
    ensures { OnOk result (all.new.items ≡ all.old.items ++ option_list ends) }
{
    match ends {
        None => Ok(()),
        Some(e) => {
            all.push(e)?;
            Ok(())
        }
    }
}

fn given_of_array(alloc: Global, a: &ArrayValue) -> Result<Given, AllocError>
    ensures { IfOk result (λ g. plain_given g ≡ array_given a.now.index.items (map content a.now.items.items)) }
{
    let index = Vec::from_slice(alloc, &a.index)?;
    let ends = ends_of_all(alloc, &a.items)?;
    Ok(Given { index, ends })
}

fn given_of_one(alloc: Global, v: &Value) -> Result<Given, AllocError>
    ensures { IfOk result (λ g. plain_given g ≡ one_given (words.ends_in (bound_of (content v.now)))) }
{
    let mut ends = Vec::new(alloc);
    push_ends(&mut ends, ends_of(v))?;
    Ok(Given {
        index: Vec::new(alloc),
        ends,
    })
}

#[tactic(auto, unfolding(mz_operations::specs::Bounds::bounds_of))]
fn given_of_value(alloc: Global, v: &Value) -> Result<Given, AllocError>
    ensures { IfOk result (λ g. plain_given g ≡ words.given_of (Some (content v.now))) }
{
    match v {
        Value::Bool(_) => given_of_one(alloc, v),
        Value::Int(_) => given_of_one(alloc, v),
        Value::Enum(_, _) => given_of_one(alloc, v),
        Value::Set(_) => given_of_one(alloc, v),
        Value::Absent => given_of_one(alloc, v),
        Value::Text(_) => given_of_one(alloc, v),
        Value::Array(a) => given_of_array(alloc, a),
    }
}

/// What is known of a par argument; `None` is an undefined one.
pub fn given_of(alloc: Global, arg: &Option<Value>) -> Result<Given, AllocError>
    ensures { IfOk result (λ g. plain_given g ≡ words.given_of (option_map content arg.now)) }
{
    match arg {
        None => Ok(Given {
            index: Vec::new(alloc),
            ends: Vec::new(alloc),
        }),
        Some(v) => given_of_value(alloc, v),
    }
}

/// What is known of all par arguments.
pub(crate) fn givens_of(alloc: Global, args: &[Option<Value>]) -> Result<Vec<Given>, AllocError>
    ensures { IfOk result (λ gs. map plain_given gs.items ≡ map words.given_of (arguments args.now)) }
{
    let mut all = Vec::new(alloc);
    for arg in args {
        let given = given_of(alloc, arg)?;
        all.push(given)?;
    }
    Ok(all)
}
