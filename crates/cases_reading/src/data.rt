// The items of a text, as a data file.

ghost use Rattle.std.specs.Prelude.{◌≤◌, length};
ghost use Rattle.mz_base.specs.declared.limit.TheConstants.{FILE_LIMIT};

use crate::file::{FILE, end_of};
use crate::spellings::Spellings;
use crate::stopped;
use cases::Page;
use mz_base::{Memory, Names, Stop};
use mz_dzn::data_items;
use mz_lexer::tokens;
use mz_tree::Data;
use std::alloc::Global;

/// A data file's items, and how their names are spelled.
#[derive(Drop)]
struct ReadData {
    data: Data,
    names: Spellings,
}

/// Reads a text, where the table of names is that of its tokens or, if `outside`, an empty one.
fn read(alloc: Global, bytes: &[u8], outside: bool) -> Result<ReadData, Stop>
    requires { length bytes.now ≤ FILE_LIMIT }
{
    let mut table = Names::new(alloc);
    let all = tokens(alloc, bytes, FILE, &mut table)?;
    let names = Spellings::of(alloc, all.as_slice(), &table)?;
    if outside {
        table = Names::new(alloc);
    }
    let data = data_items(alloc, all.as_slice(), end_of(bytes), &table)?;
    Ok(ReadData { data, names })
}

/// Each item with the bytes where its name and its value begin, or the refusal.
pub fn print(alloc: Global, bytes: &[u8], outside: bool, page: &mut Page) -> Result<(), Memory>
    requires { length bytes.now ≤ FILE_LIMIT }
{
    match read(alloc, bytes, outside) {
        Ok(read) => {
            for item in read.data.items.as_slice() {
                let name = read.names.text(item.name);
                let datum = &item.datum;
                page.line(format_args!("  {name} {} {} {datum:?}", item.span.byte, item.at.byte));
            }
            Ok(())
        }
        Err(stop) => stopped::print(page, stop),
    }
}
