// What expressions are worth: each line of the input has an expression in words of postfix order, and is written with its value
// or fault and its work.
#![tactic(auto)]

mod machine;
mod types;

use crate::machine::Machine;
use cases::Page;
use mz_base::{Depth, Fault, Memory, Name, Names, Steps, Stop};
use mz_core::{Core, CoreFunction, CoreGoal, Program};
use mz_eval::{Env, value};
use mz_value::{Cases, TextValue, Value};
use std::alloc::Global;
use std::io;
use std::io::ErrorKind;

/// How far the domain of a `var int` without a value reaches.
const INT_RANGE: i64 = 1_000;

/// The nesting limit.
const NESTING: u32 = 600;

fn text(alloc: Global, s: &str) -> Result<TextValue, Memory> {
    Ok(TextValue {
        text: String::from_str(alloc, s)?,
    })
}

// an enum with three cases
fn cases_of(alloc: Global) -> Result<Cases, Memory> {
    let mut colours = Vec::new(alloc);
    colours.push(text(alloc, "Red")?)?;
    colours.push(text(alloc, "Green")?)?;
    colours.push(text(alloc, "Blue")?)?;
    let mut names = Vec::new(alloc);
    names.push(colours)?;
    Ok(Cases { names })
}

fn program(alloc: Global, name: Name) -> Result<Program, Memory> {
    let mut texts = Vec::new(alloc);
    texts.push((name, text(alloc, "m")?))?;
    Ok(Program {
        cases: cases_of(alloc)?,
        texts,
        decls: Vec::new(alloc),
        order: Vec::new(alloc),
        functions: Vec::new(alloc),
        constraints: Vec::new(alloc),
        goal: CoreGoal::Satisfy,
        outputs: Vec::new(alloc),
    })
}

fn refused(call: &str, fault: Fault, page: &mut Page) {
    page.put(call);
    page.put(": ");
    page.show(fault.kind);
    page.put(" at ");
    page.show(fault.span.col);
    page.put(" ");
    page.show(fault.number);
    page.put("\n");
}

fn evaluated(
    alloc: Global,
    call: &str,
    e: &Core,
    env: &Env,
    program: &Program,
    budget: u32,
    page: &mut Page,
) -> Result<(), Memory> {
    let mut steps = Steps::new(u64::from(budget));
    let mut depth = Depth::new(NESTING);
    match value(alloc, e, env, program, INT_RANGE, &mut steps, &mut depth) {
        Ok(v) => {
            page.put(call);
            page.put(": ");
            page.show(v);
            page.put(" work ");
            page.show(steps.used());
            page.put("\n");
            Ok(())
        }
        Err(Stop::Refused(fault)) => {
            refused(call, fault, page);
            Ok(())
        }
        Err(Stop::Memory) => Err(Memory),
    }
}

/// The machine after all words.
fn made(alloc: Global, name: Name, words: &str) -> Result<Machine, Memory> {
    let mut machine = Machine::new(alloc, name);
    for word in words.split(' ') {
        if !word.is_empty() {
            machine.word(word)?;
        }
    }
    Ok(machine)
}

/// Gives a slot the value of an expression.
fn set(
    alloc: Global,
    slot: &str,
    e: &Core,
    env: &mut Env,
    program: &Program,
) -> Result<(), Memory> {
    let mut steps = Steps::new(1_000_000);
    let mut depth = Depth::new(NESTING);
    let v: Option<Value> = match value(alloc, e, env, program, INT_RANGE, &mut steps, &mut depth) {
        Ok(v) => v,
        Err(Stop::Refused(_)) => None,
        Err(Stop::Memory) => return Err(Memory),
    };
    env.set(slot.parse::<u64>().unwrap_or(0), v)
}

fn add_function(
    machine: &mut Machine,
    ty: &str,
    index: bool,
    set: bool,
    program: &mut Program,
) -> Result<(), Memory> {
    let f: CoreFunction = machine.function(ty, index, set)?;
    program.functions.push(f)?;
    Ok(())
}

/// A line: `function TYPE; WORDS`, also with a set or with index sets of the result before the body, `set SLOT; WORDS`, `budget N CALL; WORDS` or `CALL; WORDS`.
fn line(
    alloc: Global,
    name: Name,
    line: &str,
    env: &mut Env,
    program: &mut Program,
    page: &mut Page,
) -> Result<(), Memory> {
    let Some((call, words)) = line.split_once(';') else {
        return Ok(());
    };
    let mut machine = made(alloc, name, words)?;
    if let Some(ty) = call.strip_prefix("function ") {
        return add_function(&mut machine, ty, false, false, program);
    }
    if let Some(ty) = call.strip_prefix("functionin ") {
        return add_function(&mut machine, ty, false, true, program);
    }
    if let Some(ty) = call.strip_prefix("functionix ") {
        return add_function(&mut machine, ty, true, false, program);
    }
    let e = machine.take()?;
    if let Some(slot) = call.strip_prefix("set ") {
        return set(alloc, slot, &e, env, program);
    }
    if let Some(rest) = call.strip_prefix("budget ") {
        let (budget, call) = rest.split_once(' ').unwrap_or((rest, ""));
        return evaluated(
            alloc,
            call,
            &e,
            env,
            program,
            budget.parse::<u32>().unwrap_or(0),
            page,
        );
    }
    evaluated(alloc, call, &e, env, program, 1_000_000, page)
}

/// All answers.
fn all(alloc: Global, input: &str) -> Result<String, Memory> {
    let mut page = Page::new(alloc);
    let mut names = Names::new(alloc);
    let name = names.intern("m")?;
    let mut env = Env::new(alloc);
    let mut program = program(alloc, name)?;
    for one in input.lines() {
        line(alloc, name, one, &mut env, &mut program, &mut page)?;
    }
    Ok(page.into_text()?)
}

fn main(rt: HostRuntime) -> io::Result<()> {
    let alloc = rt.alloc();
    let input = io::read_to_string(alloc, rt.reader())?;
    match all(alloc, input.as_str()) {
        Ok(text) => rt.print(text),
        Err(Memory) => Err(io::Error::from(ErrorKind::OutOfMemory)),
    }
}
