// A line of a case.

use crate::declare::{Declared, declare, kind_of};
use crate::draft::Draft;
use crate::term::term;
use mz_arena::InstanceGoal;
use mz_base::Memory;
use std::alloc::Global;

// A variable: its name, its index ranges and its domain.
fn add_variable(
    alloc: Global,
    draft: &mut Draft,
    d: Declared,
    words: &str,
) -> Result<bool, Memory> {
    let Some((name, rest)) = words.split_once(' ') else {
        return Ok(false);
    };
    let Some((ranges, domain)) = rest.split_once(' ') else {
        return Ok(false);
    };
    declare(alloc, draft, d, name, ranges, domain)
}

// A word for a term.
fn add_label(alloc: Global, draft: &mut Draft, words: &str) -> Result<bool, Memory> {
    let Some((name, rest)) = words.split_once(' ') else {
        return Ok(false);
    };
    let Some(id) = given!(term(alloc, draft, rest)) else {
        return Ok(false);
    };
    let text = String::from_str(alloc, name)?;
    given!(draft.label(text, id));
    Ok(true)
}

fn add_root(alloc: Global, draft: &mut Draft, words: &str) -> Result<bool, Memory> {
    let Some(id) = given!(term(alloc, draft, words)) else {
        return Ok(false);
    };
    draft.roots.push(id)?;
    Ok(true)
}

fn set_goal(alloc: Global, draft: &mut Draft, minimize: bool, words: &str) -> Result<bool, Memory> {
    let Some(id) = given!(term(alloc, draft, words)) else {
        return Ok(false);
    };
    draft.goal = if minimize {
        InstanceGoal::Minimize(id)
    } else {
        InstanceGoal::Maximize(id)
    };
    Ok(true)
}

/// Adds what a line says, and tells whether it says something: `int x - 1..3` and the like declares a variable, `let p x y +`
/// names a term, `root x y <` adds a root, and `minimize x` or `maximize x` is the goal.
pub fn add_line(alloc: Global, draft: &mut Draft, line: &str) -> Result<bool, Memory> {
    let Some((first, rest)) = line.split_once(' ') else {
        return Ok(false);
    };
    if let Some(d) = kind_of(first) {
        return add_variable(alloc, draft, d, rest);
    }
    if first == "let" {
        return add_label(alloc, draft, rest);
    }
    if first == "root" {
        return add_root(alloc, draft, rest);
    }
    if first == "minimize" {
        return set_goal(alloc, draft, true, rest);
    }
    if first == "maximize" {
        return set_goal(alloc, draft, false, rest);
    }
    Ok(false)
}
