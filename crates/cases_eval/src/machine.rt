// Typed expressions from words in postfix order: a word takes its parts from what stands before it.

use crate::types::{coercion_of, type_of};
use mz_base::{Memory, Name, Span};
use mz_core::{Core, CoreDecl, CoreForm, CoreFunction, CoreGen, CoreItem, CoreStep, CoreType};
use std::alloc::Global;

/// What the words so far have made.
#[derive(Drop)]
pub struct Machine {
    alloc: Global,
    /// The number of the word, which is the place of its node.
    at: u32,
    name: Name,
    stack: Vec<Core>,
    generators: Vec<CoreGen>,
    items: Vec<CoreItem>,
    parameters: Vec<CoreDecl>,
}

/// Which parts of a declaration stand before it.
#[derive(Clone, Copy)]
struct Parts {
    index: bool,
    set: bool,
    value: bool,
}

fn with_parts(index: bool, set: bool, value: bool) -> Parts {
    Parts { index, set, value }
}

fn place(at: u32) -> Span {
    Span {
        file: 0,
        line: 1,
        col: at,
        byte: 0,
    }
}

/// The last `count` of a list, in their order.
fn last<T: Drop>(alloc: Global, from: &mut Vec<T>, count: u64) -> Result<Vec<T>, Memory> {
    let mut back = Vec::new(alloc);
    for _ in 0..count {
        if let Some(x) = from.pop() {
            back.push(x)?;
        }
    }
    let mut all = Vec::new(alloc);
    for _ in 0..count {
        if let Some(x) = back.pop() {
            all.push(x)?;
        }
    }
    Ok(all)
}

/// A list the other way round.
fn turned<T: Drop>(alloc: Global, back: Vec<T>) -> Result<Vec<T>, Memory> {
    let mut back = back;
    let mut all = Vec::new(alloc);
    for _ in 0..back.len() {
        if let Some(x) = back.pop() {
            all.push(x)?;
        }
    }
    Ok(all)
}

/// The first `count` of a list that stands the other way round.
fn first(alloc: Global, back: &mut Vec<Core>, count: u64) -> Result<Vec<Core>, Memory> {
    let mut all = Vec::new(alloc);
    for _ in 0..count {
        if let Some(x) = back.pop() {
            all.push(x)?;
        }
    }
    Ok(all)
}

fn number(word: &str) -> u64 {
    word.parse::<u64>().unwrap_or(0)
}

fn row(word: &str) -> u32 {
    word.parse::<u32>().unwrap_or(0)
}

impl Machine {
    /// Nothing is made.
    pub fn new(alloc: Global, name: Name) -> Machine {
        Machine {
            alloc,
            at: 0,
            name,
            stack: Vec::new(alloc),
            generators: Vec::new(alloc),
            items: Vec::new(alloc),
            parameters: Vec::new(alloc),
        }
    }

    /// The expression that was made last; `true` where there is none.
    pub fn take(&mut self) -> Result<Core, Memory> {
        match self.stack.pop() {
            Some(e) => Ok(e),
            None => self.node(CoreForm::Bool(true), "bool"),
        }
    }

    fn node(&self, form: CoreForm, ty: &str) -> Result<Core, Memory> {
        Ok(Core {
            span: place(self.at),
            ty: type_of(self.alloc, ty)?,
            form,
        })
    }

    fn put(&mut self, form: CoreForm, ty: &str) -> Result<(), Memory> {
        let node = self.node(form, ty)?;
        self.stack.push(node)?;
        Ok(())
    }

    fn boxed(&mut self) -> Result<Box<Core>, Memory> {
        let e = self.take()?;
        Ok(Box::new(self.alloc, e)?)
    }

    fn several(&mut self, count: &str) -> Result<Vec<Core>, Memory> {
        last(self.alloc, &mut self.stack, number(count))
    }

    fn step(&mut self, row_word: &str, ty: &str) -> Result<CoreStep, Memory> {
        let operand = self.take()?;
        Ok(CoreStep {
            start: operand.span,
            row: row(row_word),
            ty: type_of(self.alloc, ty)?,
            left: Vec::new(self.alloc),
            right: Vec::new(self.alloc),
            operand,
        })
    }

    // `op:ROW:TYPE`, an operator over two operands
    fn operator(&mut self, row_word: &str, ty: &str) -> Result<(), Memory> {
        let step = self.step(row_word, ty)?;
        let first = self.boxed()?;
        let mut steps = Vec::new(self.alloc);
        steps.push(step)?;
        self.put(CoreForm::Chain(first, steps), ty)
    }

    // `and:ROW:TYPE`, one operator more of the chain that stands before its operand
    fn operator_more(&mut self, row_word: &str, ty: &str) -> Result<(), Memory> {
        let step = self.step(row_word, ty)?;
        if let Some(chain) = self.stack.last_mut() {
            if let CoreForm::Chain(_, steps) = &mut chain.form {
                steps.push(step)?;
            }
        }
        Ok(())
    }

    // `gen:SLOTS`, over the set that stands before it
    fn generator(&mut self, slots: &str, cond: bool) -> Result<(), Memory> {
        let cond = if cond { Some(self.take()?) } else { None };
        let set = self.take()?;
        let mut all = Vec::new(self.alloc);
        for slot in slots.split(',') {
            all.push(number(slot))?;
        }
        self.generators.push(CoreGen {
            slots: all,
            set,
            cond,
        })?;
        Ok(())
    }

    // `row:ROW:TYPE:COUNT`, `call:FUNCTION:TYPE:COUNT`
    fn called(&mut self, head: &str, of: &str, rest: &str) -> Result<(), Memory> {
        let (ty, count) = rest.split_once(':').unwrap_or((rest, "0"));
        let all = self.several(count)?;
        let form = match head {
            "row" => CoreForm::Builtin(row(of), all),
            _ => CoreForm::Call(number(of), all),
        };
        self.put(form, ty)
    }

    // `array:TYPE:COUNT`, `set:TYPE:COUNT`, `at:TYPE:COUNT`
    fn listed(&mut self, head: &str, ty: &str, count: &str) -> Result<(), Memory> {
        let all = self.several(count)?;
        let form = match head {
            "array" => CoreForm::Array(all),
            "set" => CoreForm::Set(all),
            _ => CoreForm::Access(self.boxed()?, all),
        };
        self.put(form, ty)
    }

    // `rows:TYPE:LENGTHS`, a row for each of these lengths
    fn table(&mut self, ty: &str, lengths: &str) -> Result<(), Memory> {
        let mut count: u64 = 0;
        for length in lengths.split(',') {
            count = count.saturating_add(number(length));
        }
        let parts = last(self.alloc, &mut self.stack, count)?;
        let mut back = turned(self.alloc, parts)?;
        let mut rows = Vec::new(self.alloc);
        for length in lengths.split(',') {
            if !length.is_empty() {
                rows.push(first(self.alloc, &mut back, number(length))?)?;
            }
        }
        self.put(CoreForm::Rows(rows), ty)
    }

    // `comp:TYPE:COUNT`, an array of the head that stands before it, over this many generators; in braces `setcomp`
    fn comprehension(&mut self, braces: bool, ty: &str, count: &str) -> Result<(), Memory> {
        let head = self.boxed()?;
        let generators = last(self.alloc, &mut self.generators, number(count))?;
        self.put(CoreForm::Comp(braces, head, generators), ty)
    }

    // `if:TYPE:COUNT`, this many conditions with their branches, and what follows `else`; without it `ifonly`
    fn choice(&mut self, other: bool, ty: &str, count: &str) -> Result<(), Memory> {
        let last = if other { Some(self.boxed()?) } else { None };
        let mut back = Vec::new(self.alloc);
        for _ in 0..number(count) {
            let branch = self.take()?;
            let cond = self.take()?;
            back.push((cond, branch))?;
        }
        let all = turned(self.alloc, back)?;
        self.put(CoreForm::If(all, last), ty)
    }

    // a type whose set, if it has one, stands last before it, and before that its index sets
    fn declared_type(&mut self, ty: &str, index: bool, set: bool) -> Result<CoreType, Memory> {
        let ty = type_of(self.alloc, ty)?;
        let set = if set { Some(self.take()?) } else { None };
        let index = self.index_sets(index, ty.dims.len() as u64)?;
        Ok(CoreType {
            span: place(self.at),
            ty,
            index,
            set,
        })
    }

    fn index_sets(&mut self, given: bool, count: u64) -> Result<Vec<Option<Core>>, Memory> {
        let mut back = Vec::new(self.alloc);
        for _ in 0..count {
            let one = if given { Some(self.take()?) } else { None };
            back.push(one)?;
        }
        turned(self.alloc, back)
    }

    fn declared(&mut self, slot: &str, ty: &str, parts: Parts) -> Result<CoreDecl, Memory> {
        let value = if parts.value {
            Some(self.take()?)
        } else {
            None
        };
        Ok(CoreDecl {
            slot: number(slot),
            name: self.name,
            span: place(self.at),
            ty: self.declared_type(ty, parts.index, parts.set)?,
            value,
        })
    }

    // `let:TYPE:COUNT`, the body that stands before it under this many items
    fn scoped(&mut self, ty: &str, count: &str) -> Result<(), Memory> {
        let body = self.boxed()?;
        let items = last(self.alloc, &mut self.items, number(count))?;
        self.put(CoreForm::Let(items, body), ty)
    }

    // `to:COERCION:TYPE`
    fn coerced(&mut self, coercion: &str, ty: &str) -> Result<(), Memory> {
        let part = self.boxed()?;
        self.put(CoreForm::Coerce(coercion_of(coercion), part), ty)
    }

    // a word with two parts or more after its head
    fn longer(&mut self, head: &str, first: &str, rest: &str) -> Result<(), Memory> {
        match head {
            "slot" => self.put(CoreForm::Slot(number(first)), rest),
            "op" => self.operator(first, rest),
            "and" => self.operator_more(first, rest),
            "row" => self.called(head, first, rest),
            "call" => self.called(head, first, rest),
            "rows" => self.table(first, rest),
            "comp" => self.comprehension(false, first, rest),
            "setcomp" => self.comprehension(true, first, rest),
            "if" => self.choice(true, first, rest),
            "ifonly" => self.choice(false, first, rest),
            "let" => self.scoped(first, rest),
            "to" => self.coerced(first, rest),
            "left" => self.link(true, first, rest),
            "right" => self.link(false, first, rest),
            "decl" => self.item(first, rest, with_parts(false, false, true)),
            "declin" => self.item(first, rest, with_parts(false, true, true)),
            "declix" => self.item(first, rest, with_parts(true, false, true)),
            "declixin" => self.item(first, rest, with_parts(true, true, true)),
            "free" => self.item(first, rest, with_parts(false, true, false)),
            "freeany" => self.item(first, rest, with_parts(false, false, false)),
            "freeixin" => self.item(first, rest, with_parts(true, true, false)),
            "param" => self.parameter(first, rest, with_parts(false, false, false)),
            "paramin" => self.parameter(first, rest, with_parts(false, true, false)),
            "paramix" => self.parameter(first, rest, with_parts(true, false, false)),
            _ => self.listed(head, first, rest),
        }
    }

    fn item(&mut self, slot: &str, ty: &str, parts: Parts) -> Result<(), Memory> {
        let d = self.declared(slot, ty, parts)?;
        self.items.push(CoreItem::Decl(d))?;
        Ok(())
    }

    fn parameter(&mut self, slot: &str, ty: &str, parts: Parts) -> Result<(), Memory> {
        let d = self.declared(slot, ty, parts)?;
        self.parameters.push(d)?;
        Ok(())
    }

    // `left:COERCION:TYPE`, `right:COERCION:TYPE`: one coercion more of an operand of the last operator
    fn link(&mut self, left: bool, coercion: &str, ty: &str) -> Result<(), Memory> {
        let ty = type_of(self.alloc, ty)?;
        if let Some(chain) = self.stack.last_mut() {
            if let CoreForm::Chain(_, steps) = &mut chain.form {
                if let Some(step) = steps.last_mut() {
                    let links = if left {
                        &mut step.left
                    } else {
                        &mut step.right
                    };
                    links.push((coercion_of(coercion), ty))?;
                }
            }
        }
        Ok(())
    }

    fn constraint(&mut self) -> Result<(), Memory> {
        let e = self.take()?;
        self.items.push(CoreItem::Constraint(e))?;
        Ok(())
    }

    // a word with at most one part after its head
    fn shorter(&mut self, head: &str, rest: &str) -> Result<(), Memory> {
        match head {
            "gen" => self.generator(rest, false),
            "genif" => self.generator(rest, true),
            "case" => self.put(CoreForm::Enum(0, rest.parse::<i64>().unwrap_or(0)), "e0"),
            "cases" => self.put(CoreForm::EnumSet(number(rest)), "se0"),
            "text" => self.put(CoreForm::Text(self.name), "text"),
            "true" => self.put(CoreForm::Bool(true), "bool"),
            "false" => self.put(CoreForm::Bool(false), "bool"),
            "<>" => self.put(CoreForm::Absent, "obottom"),
            "con" => self.constraint(),
            _ => self.put(CoreForm::Int(head.parse::<i64>().unwrap_or(0)), "int"),
        }
    }

    /// Makes what a word says of what stands before it.
    pub fn word(&mut self, word: &str) -> Result<(), Memory> {
        self.at = self.at.saturating_add(1);
        match word.split_once(':') {
            None => self.shorter(word, ""),
            Some((head, rest)) => match rest.split_once(':') {
                None => self.shorter(head, rest),
                Some((first, others)) => self.longer(head, first, others),
            },
        }
    }

    /// A function with the parameters so far, whose result's index sets and set stand before its body.
    pub fn function(&mut self, ty: &str, index: bool, set: bool) -> Result<CoreFunction, Memory> {
        let body = self.take()?;
        let result = self.declared_type(ty, index, set)?;
        let count = self.parameters.len() as u64;
        let params = last(self.alloc, &mut self.parameters, count)?;
        Ok(CoreFunction {
            name: self.name,
            span: place(0),
            params,
            result,
            body,
        })
    }
}
