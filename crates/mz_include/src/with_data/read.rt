// One data file, read.

ghost use Rattle.std.specs.Prelude.{◌≡◌, ◌<◌, ◌≤◌, length, map, IfOk, IfErr, All};
ghost use Rattle.mz_base.specs.Names.{Grows, text_of};
ghost use Rattle.mz_base.specs.declared.limit.TheConstants.{FILE_LIMIT};
ghost use Rattle.mz_base.specs.Faults.{IfRefused as IfStopped, start_of, fault_at};
ghost use Rattle.mz_tree.specs.Data.{given};
ghost use Rattle.mz_tree.specs.Named.{IsGivenWithin};
ghost use Rattle.mz_dzn.specs.DataFile.{IsGivenIn};
ghost use Rattle.mz_include.specs.Ends.{IfRefused, CountsFiles};
ghost use Rattle.mz_include.specs.DataTexts.{IsDataText, IsUnfitText};
ghost use Rattle.mz_include.specs.DataFiles.{IsDataReading, FailsAsData};

use crate::GatherEnd;
use mz_base::{FILE_LIMIT, Fault, Kind, Name, Names, Span, Stop};
use mz_dzn::data_items;
use mz_io::{Fetched, Files};
use mz_lexer::{after, tokens};
use mz_tree::Data;
use std::alloc::Global;

/// The items of a text as the data file of this number: lexed whole, and then parsed.
fn parse(alloc: Global, turn: u64, text: &[u8], names: &mut Names) -> Result<Data, Stop>
    requires { length text.now ≤ FILE_LIMIT }
    ensures parsed { IfOk result (λ d. IsDataText names.new turn text.now (map given d.items.items)) }
    ensures within { IfOk result (λ d. All (IsGivenWithin (length names.new)) (map given d.items.items)) }
    ensures placed { IfOk result (λ d. All (IsGivenIn turn) (map given d.items.items)) }
    ensures refused { IfErr result (λ s. IfStopped s (IsUnfitText names.new turn text.now)) }
    ensures grows { Grows names.old names.new }
{
    let tokens = tokens(alloc, text, turn, names)?;
    let end = after(Span::start(turn), text);
    let data = data_items(alloc, tokens.as_slice(), end, names)?;
    Ok(data)
}

/// A refusal of the data file of this number itself, at its first byte.
fn refused(kind: Kind, turn: u64, name: Name) -> GatherEnd
    ensures { result ≡ GatherEnd.Refused (fault_at kind (start_of turn)) name }
{
    GatherEnd::Refused(Fault::at(kind, Span::start(turn)), name)
}

/// The items of the data file of this name and number: fetched within the limit, lexed whole, and then parsed.
pub fn read_data_file<F: Files>(
    alloc: Global,
    turn: u64,
    name: Name,
    files: &mut F,
    names: &mut Names,
) -> Result<Data, GatherEnd>
    requires { name < length names.old }
    ensures read { IfOk result (λ d. IsDataReading names.new (F.texts files.old) turn (text_of names.old name) (map given d.items.items)) }
    ensures within { IfOk result (λ d. All (IsGivenWithin (length names.new)) (map given d.items.items)) }
    ensures placed { IfOk result (λ d. All (IsGivenIn turn) (map given d.items.items)) }
    ensures refused { IfRefused result (λ f n. FailsAsData names.new (F.texts files.old) turn (text_of names.old name) f) }
    ensures owner { IfRefused result (λ _ n. n ≡ name) }
    ensures counted { CountsFiles (F.counts files.old) (F.counts files.new) result }
    ensures texts { F.texts files.new ≡ F.texts files.old }
    ensures grows { Grows names.old names.new }
{
    match files.fetch(alloc, names.text(name), FILE_LIMIT) {
        Fetched::Bytes(text) => match parse(alloc, turn, text.as_slice(), names) {
            Ok(data) => Ok(data),
            Err(Stop::Refused(fault)) => Err(GatherEnd::Refused(fault, name)),
            Err(Stop::Memory) => Err(GatherEnd::Memory),
        },
        Fetched::Missing => Err(refused(Kind::MissingFile, turn, name)),
        Fetched::TooLong => Err(refused(Kind::TooLong, turn, name)),
        Fetched::Failed => Err(GatherEnd::ReadFault),
        Fetched::Memory => Err(GatherEnd::Memory),
    }
}
