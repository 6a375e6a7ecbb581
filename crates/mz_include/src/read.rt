// One file, read.

ghost use Rattle.std.specs.Prelude.{◌≡◌, ◌<◌, ◌≤◌, length, IfOk, IfErr};
ghost use Rattle.mz_base.specs.Names.{Grows, text_of};
ghost use Rattle.mz_base.specs.declared.limit.TheConstants.{FILE_LIMIT};
ghost use Rattle.mz_base.specs.Faults.{IfRefused as IfStopped, fault_at};
ghost use Rattle.mz_include.specs.Sources.{IsLoaded, Fails};
ghost use Rattle.mz_include.specs.Parsing.{IsParsed, IsUnparsed};
ghost use Rattle.mz_include.specs.Ends.{IfRefused, CountsFiles};
ghost use Rattle.mz_include.specs.Views.{mention, file, IsKnown, IsFileOf};

use crate::end::GatherEnd;
use crate::queue::Mention;
use mz_base::{FILE_LIMIT, Fault, Kind, Name, Names, Span, Stop};
use mz_io::{Fetched, Files};
use mz_lexer::{after, tokens};
use mz_parser::items;
use mz_tree::SourceFile;
use std::alloc::Global;

/// The items of a file of this name and text: lexed whole, and then parsed.
fn parse(
    alloc: Global,
    turn: u64,
    name: Name,
    text: &[u8],
    names: &mut Names,
) -> Result<SourceFile, Stop>
    requires text { length text.now ≤ FILE_LIMIT }
    requires name { name < length names.old }
    ensures parsed { IfOk result (λ f. IsParsed names.new turn text.now (file names.new f)) }
    ensures name { IfOk result (λ f. f.name ≡ name) }
    ensures known { IfOk result (λ f. IsFileOf names.new turn f) }
    ensures refused { IfErr result (λ s. IfStopped s (λ f. IsUnparsed names.new turn text.now f)) }
    ensures grows { Grows names.old names.new }
{
    let tokens = tokens(alloc, text, turn, names)?;
    let end = after(Span::start(turn), text);
    let items = items(alloc, tokens.as_slice(), end)?;
    Ok(SourceFile { name, items, end })
}

/// A refusal of the file itself, where it was first named.
fn refused(kind: Kind, mention: Mention) -> GatherEnd
    ensures { result ≡ GatherEnd.Refused (fault_at kind mention.span) mention.owner }
{
    GatherEnd::Refused(Fault::at(kind, mention.span), mention.owner)
}

/// The file whose turn it is: fetched within the limit, lexed whole, and then parsed.
pub fn read_file<F: Files>(
    alloc: Global,
    turn: u64,
    named: Mention,
    files: &mut F,
    names: &mut Names,
) -> Result<SourceFile, GatherEnd>
    requires { IsKnown names.old named }
    ensures read { IfOk result (λ f. IsLoaded names.new (F.texts files.old) turn (mention names.old named) (file names.new f)) }
    ensures name { IfOk result (λ f. f.name ≡ named.name) }
    ensures known { IfOk result (λ f. IsFileOf names.new turn f) }
    ensures refused { IfRefused result (λ f n. Fails names.new (F.texts files.old) turn (mention names.old named) f (text_of names.new n)) }
    ensures owner { IfRefused result (λ _ n. n < length names.new) }
    ensures counted { CountsFiles (F.counts files.old) (F.counts files.new) result }
    ensures texts { F.texts files.new ≡ F.texts files.old }
    ensures grows { Grows names.old names.new }
{
    match files.fetch(alloc, names.text(named.name), FILE_LIMIT) {
        Fetched::Bytes(text) => match parse(alloc, turn, named.name, text.as_slice(), names) {
            Ok(file) => Ok(file),
            Err(Stop::Refused(fault)) => Err(GatherEnd::Refused(fault, named.name)),
            Err(Stop::Memory) => Err(GatherEnd::Memory),
        },
        Fetched::Missing => Err(refused(Kind::MissingFile, named)),
        Fetched::TooLong => Err(refused(Kind::TooLong, named)),
        Fetched::Failed => Err(GatherEnd::ReadFault),
        Fetched::Memory => Err(GatherEnd::Memory),
    }
}
