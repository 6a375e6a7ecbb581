// The data of a case.

ghost use Rattle.std.specs.Prelude.{◌≤◌, length, map, IfOk, All};
ghost use Rattle.mz_base.specs.Names.{Grows};
ghost use Rattle.mz_base.specs.declared.limit.TheConstants.{FILE_LIMIT};
ghost use Rattle.mz_tree.specs.Data.{given};
ghost use Rattle.mz_tree.specs.Named.{IsGivenWithin};

use cases::bytes_of;
use mz_base::{FILE_LIMIT, Names, Span, Stop};
use mz_dzn::data_items;
use mz_lexer::{after, tokens};
use mz_tree::Data;
use std::alloc::Global;

/// The data in some bytes, as the file of this number.
fn read(alloc: Global, bytes: &[u8], file: u64, names: &mut Names) -> Result<Data, Stop>
    requires { length bytes.now ≤ FILE_LIMIT }
    ensures named { IfOk result (λ d. All (IsGivenWithin (length names.new)) (map given d.items.items)) }
    ensures grows { Grows names.old names.new }
{
    let all = tokens(alloc, bytes, file, names)?;
    let end = after(Span::start(file), bytes);
    let data = data_items(alloc, all.as_slice(), end, names)?;
    Ok(data)
}

/// The data in a text, as the file of this number. Of a text that is too long nothing is read.
fn data_of(alloc: Global, text: &str, file: u64, names: &mut Names) -> Result<Data, Stop>
    ensures named { IfOk result (λ d. All (IsGivenWithin (length names.new)) (map given d.items.items)) }
    ensures grows { Grows names.old names.new }
{
    let bytes = bytes_of(alloc, text)?;
    if bytes.len() as u64 > FILE_LIMIT {
        return Err(Stop::Memory);
    }
    let data = read(alloc, bytes.as_slice(), file, names)?;
    Ok(data)
}

/// The data of two files.
fn both(
    alloc: Global,
    first: &str,
    second: &str,
    file: u64,
    names: &mut Names,
) -> Result<Data, Stop>
    ensures named { IfOk result (λ d. All (IsGivenWithin (length names.new)) (map given d.items.items)) }
    ensures grows { Grows names.old names.new }
{
    let mut data = data_of(alloc, first, file, names)?;
    let mut more = data_of(alloc, second, file.wrapping_add(1), names)?;
    data.items.append(&mut more.items)?;
    Ok(data)
}

/// The data in a text, as the files from this number on: ` ## ` stands between the texts of two files.
pub fn all_data(alloc: Global, text: &str, file: u64, names: &mut Names) -> Result<Data, Stop>
    ensures named { IfOk result (λ d. All (IsGivenWithin (length names.new)) (map given d.items.items)) }
    ensures grows { Grows names.old names.new }
{
    match text.split_once(" ## ") {
        Some((first, second)) => both(alloc, first, second, file, names),
        None => data_of(alloc, text, file, names),
    }
}
