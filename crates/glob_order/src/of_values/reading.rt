// What the globals read of their arguments: lists of numbers, sets and Booleans, with the index range of the array where it counts.

ghost use Rattle.std.specs.Prelude.{◌≡◌, IfOk, map};
ghost use Rattle.std.specs.Option.{option_map};
ghost use Rattle.mz_value.specs.Contents.{content};
ghost use Rattle.mz_operations.specs.Views as views;
ghost use Rattle.mz_operations.specs.Arguments.{arguments};
ghost use Rattle.mz_globals.specs.Reading as words;
ghost use Rattle.glob_order.specs.Views.{listed, set_list, numbers_of, sets_of, booleans_of, grid_of};

use mz_builtin_arguments::{as_bool, as_int, as_set, index_at, items_at, row_at};
use mz_value::{RangeSet, Value};
use std::alloc::{AllocError, Global};

/// An array of numbers: its least and its greatest index, both inclusive, and its elements.
#[derive(Drop)]
pub struct PlacedNumbers {
    pub indices: (i64, i64),
    pub items: Vec<i64>,
}

/// The same of an array of sets.
#[derive(Drop)]
pub struct PlacedSets<'a> {
    pub indices: (i64, i64),
    pub items: Vec<&'a RangeSet>,
}

/// The same of an array of Booleans.
#[derive(Drop)]
pub struct PlacedBooleans {
    pub indices: (i64, i64),
    pub items: Vec<bool>,
}

/// An array of two dimensions: how many rows it has, and its elements, one row after another.
#[derive(Drop)]
pub struct Grid {
    pub rows: u128,
    pub cells: Vec<i64>,
}

/// The elements as numbers; `None` where one is none.
fn each_int(alloc: Global, items: &[Value]) -> Result<Option<Vec<i64>>, AllocError>
    ensures { IfOk result (λ o. listed o ≡ words.each views.as_int (map content items.now)) }
{
    let mut all = Vec::new(alloc);
    for x in items {
        let Some(n) = as_int(x) else {
            return Ok(None);
        };
        all.push(n)?;
    }
    Ok(Some(all))
}

/// The elements as Booleans; `None` where one is none.
fn each_bool(alloc: Global, items: &[Value]) -> Result<Option<Vec<bool>>, AllocError>
    ensures { IfOk result (λ o. listed o ≡ words.each views.as_bool (map content items.now)) }
{
    let mut all = Vec::new(alloc);
    for x in items {
        let Some(b) = as_bool(x) else {
            return Ok(None);
        };
        all.push(b)?;
    }
    Ok(Some(all))
}

/// The elements as sets; `None` where one is none.
fn each_set<'a>(alloc: Global, items: &'a [Value]) -> Result<Option<Vec<&'a RangeSet>>, AllocError>
    ensures { IfOk result (λ o. set_list o ≡ words.each views.as_set (map content items.now)) }
{
    let mut all = Vec::new(alloc);
    for x in items {
        let Some(s) = as_set(x) else {
            return Ok(None);
        };
        all.push(s)?;
    }
    Ok(Some(all))
}

/// The numbers of the array of one dimension at a place, from 0; `None` where it is undefined.
pub fn numbers_at(
    alloc: Global,
    args: &[Option<Value>],
    k: usize,
) -> Result<Option<Vec<i64>>, AllocError>
    ensures { IfOk result (λ o. listed o ≡ words.ints_at (arguments args.now) k) }
{
    match row_at(args, k) {
        None => Ok(None),
        Some(items) => each_int(alloc, items),
    }
}

/// The sets of the array of one dimension at a place.
pub fn sets_at<'a>(
    alloc: Global,
    args: &'a [Option<Value>],
    k: usize,
) -> Result<Option<Vec<&'a RangeSet>>, AllocError>
    ensures { IfOk result (λ o. set_list o ≡ words.sets_at (arguments args.now) k) }
{
    match row_at(args, k) {
        None => Ok(None),
        Some(items) => each_set(alloc, items),
    }
}

/// The Booleans of the array of one dimension at a place.
fn booleans_at(
    alloc: Global,
    args: &[Option<Value>],
    k: usize,
) -> Result<Option<Vec<bool>>, AllocError>
    ensures { IfOk result (λ o. listed o ≡ words.elements_at views.as_bool (arguments args.now) k) }
{
    match row_at(args, k) {
        None => Ok(None),
        Some(items) => each_bool(alloc, items),
    }
}

/// The first index range of the array at a place.
fn indices_at(args: &[Option<Value>], k: usize) -> Option<(i64, i64)>
    ensures { result ≡ words.indices_at (arguments args.now) k }
{
    let ranges = index_at(args, k)?;
    ranges.first().copied()
}

/// The array of numbers at a place, with its index range.
pub fn placed_numbers_at(
    alloc: Global,
    args: &[Option<Value>],
    k: usize,
) -> Result<Option<PlacedNumbers>, AllocError>
    ensures { IfOk result (λ o. option_map numbers_of o ≡ words.placed_at views.as_int (arguments args.now) k) }
{
    let Some(indices) = indices_at(args, k) else {
        return Ok(None);
    };
    match numbers_at(alloc, args, k)? {
        None => Ok(None),
        Some(items) => Ok(Some(PlacedNumbers { indices, items })),
    }
}

/// The array of sets at a place, with its index range.
pub fn placed_sets_at<'a>(
    alloc: Global,
    args: &'a [Option<Value>],
    k: usize,
) -> Result<Option<PlacedSets<'a>>, AllocError>
    ensures { IfOk result (λ o. option_map sets_of o ≡ words.placed_at views.as_set (arguments args.now) k) }
{
    let Some(indices) = indices_at(args, k) else {
        return Ok(None);
    };
    match sets_at(alloc, args, k)? {
        None => Ok(None),
        Some(items) => Ok(Some(PlacedSets { indices, items })),
    }
}

/// The array of Booleans at a place, with its index range.
pub fn placed_booleans_at(
    alloc: Global,
    args: &[Option<Value>],
    k: usize,
) -> Result<Option<PlacedBooleans>, AllocError>
    ensures { IfOk result (λ o. option_map booleans_of o ≡ words.placed_at views.as_bool (arguments args.now) k) }
{
    let Some(indices) = indices_at(args, k) else {
        return Ok(None);
    };
    match booleans_at(alloc, args, k)? {
        None => Ok(None),
        Some(items) => Ok(Some(PlacedBooleans { indices, items })),
    }
}

/// How many numbers a range has.
fn length_of(range: &(i64, i64)) -> u128
    ensures { result ≡ words.length_of range.now }
{
    if range.0 <= range.1 {
        (range.1 as i128 - range.0 as i128) as u128 + 1
    } else {
        0
    }
}

/// The array of two dimensions at a place.
pub fn grid_at(alloc: Global, args: &[Option<Value>], k: usize) -> Result<Option<Grid>, AllocError>
    ensures { IfOk result (λ o. option_map grid_of o ≡ words.grid_at (arguments args.now) k) }
{
    let Some(range) = indices_at(args, k) else {
        return Ok(None);
    };
    let Some(items) = items_at(args, k) else {
        return Ok(None);
    };
    match each_int(alloc, items)? {
        None => Ok(None),
        Some(cells) => Ok(Some(Grid {
            rows: length_of(&range),
            cells,
        })),
    }
}
