// The arguments of a call, as a line of the input writes them.

use mz_builtin_arguments::{union, up_to};
use mz_builtin_values::set_value;
use mz_value::{ArrayValue, RangeSet, TextValue, Value};
use std::alloc::{AllocError, Global};
use std::mem;

/// The arguments so far, and the array that is begun: its index ranges and its items so far.
#[derive(Drop)]
struct Arguments {
    all: Vec<Option<Value>>,
    is_array: bool,
    index: Vec<(i64, i64)>,
    items: Vec<Value>,
}

fn range_of(text: &str) -> Option<(i64, i64)> {
    let (lo, hi) = text.split_once("..")?;
    let Ok(lo) = lo.parse::<i64>() else {
        return None;
    };
    let Ok(hi) = hi.parse::<i64>() else {
        return None;
    };
    Some((lo, hi))
}

fn ranges_of(alloc: Global, text: &str) -> Result<Vec<(i64, i64)>, AllocError> {
    let mut all = Vec::new(alloc);
    for part in text.split(',') {
        if let Some(r) = range_of(part) {
            all.push(r)?;
        }
    }
    Ok(all)
}

fn set_of(alloc: Global, text: &str) -> Result<RangeSet, AllocError> {
    let ranges = ranges_of(alloc, text)?;
    let mut all = RangeSet::range(alloc, 1, 0)?;
    for r in &ranges {
        if let Some(s) = up_to(alloc, r.0, r.1)? {
            all = union(alloc, &all, &s)?;
        }
    }
    Ok(all)
}

fn case_of(of: u64, text: &str) -> Option<Value> {
    match text.parse::<i64>() {
        Ok(k) => Some(Value::Enum(of, k)),
        Err(_) => None,
    }
}

fn int_of(text: &str) -> Option<Value> {
    match text.parse::<i64>() {
        Ok(n) => Some(Value::Int(n)),
        Err(_) => None,
    }
}

fn text_of(alloc: Global, text: &str) -> Result<Value, AllocError> {
    let text = String::from_str(alloc, text)?;
    Ok(Value::Text(TextValue { text }))
}

/// The value that a word with a kind before its colon writes.
fn named(alloc: Global, kind: &str, text: &str) -> Result<Option<Value>, AllocError> {
    match kind {
        "text" => {
            let value = text_of(alloc, text)?;
            Ok(Some(value))
        }
        "set" => {
            let set = set_of(alloc, text)?;
            Ok(Some(set_value(None, set)))
        }
        "set_of_E" => {
            let set = set_of(alloc, text)?;
            Ok(Some(set_value(Some(0), set)))
        }
        _ => Ok(None),
    }
}

/// The value that a word without a colon writes.
fn plain(word: &str) -> Option<Value> {
    match word {
        "true" => return Some(Value::Bool(true)),
        "false" => return Some(Value::Bool(false)),
        "<>" => return Some(Value::Absent),
        _ => {}
    }
    if let Some(k) = word.strip_prefix('E') {
        return case_of(0, k);
    }
    if let Some(k) = word.strip_prefix('F') {
        return case_of(1, k);
    }
    int_of(word)
}

fn value_of(alloc: Global, word: &str) -> Result<Option<Value>, AllocError> {
    match word.split_once(':') {
        Some((kind, text)) => named(alloc, kind, text),
        None => Ok(plain(word)),
    }
}

/// An argument, or an item of the array that is begun.
fn put(args: &mut Arguments, value: Value) -> Result<(), AllocError> {
    if args.is_array {
        args.items.push(value)?;
    } else {
        args.all.push(Some(value))?;
    }
    Ok(())
}

fn end_array(alloc: Global, args: &mut Arguments) -> Result<(), AllocError> {
    let index = mem::replace(&mut args.index, Vec::new(alloc));
    let items = mem::replace(&mut args.items, Vec::new(alloc));
    args.is_array = false;
    args.all
        .push(Some(Value::Array(ArrayValue { index, items })))?;
    Ok(())
}

fn read_word(alloc: Global, args: &mut Arguments, word: &str) -> Result<(), AllocError> {
    if let Some(ranges) = word.strip_prefix("array:") {
        args.index = ranges_of(alloc, ranges)?;
        args.is_array = true;
        return Ok(());
    }
    if word == "end" {
        return end_array(alloc, args);
    }
    if word == "undefined" {
        args.all.push(None)?;
        return Ok(());
    }
    match value_of(alloc, word)? {
        Some(value) => put(args, value),
        None => Ok(()),
    }
}

/// The arguments that these words write.
pub(crate) fn arguments_of(alloc: Global, words: &str) -> Result<Vec<Option<Value>>, AllocError> {
    let mut args = Arguments {
        all: Vec::new(alloc),
        is_array: false,
        index: Vec::new(alloc),
        items: Vec::new(alloc),
    };
    for word in words.split(' ') {
        read_word(alloc, &mut args, word)?;
    }
    Ok(args.all)
}

/// The sizes that these words write.
pub(crate) fn sizes_of(alloc: Global, words: &str) -> Result<Vec<u64>, AllocError> {
    let mut all = Vec::new(alloc);
    for word in words.split(' ') {
        if let Ok(size) = word.parse::<u64>() {
            all.push(size)?;
        }
    }
    Ok(all)
}
