// A model with the files that it includes.

ghost use Rattle.std.specs.Prelude.{◌≡◌, ◌<◌, [], ◌∷◌, length, map, IfOk, All};
ghost use Rattle.mz_base.specs.Names.{Grows, text_of};
ghost use Rattle.mz_include.specs.Naming.{the_model};
ghost use Rattle.mz_include.specs.Sources.{IsSources, IsFirstFailure};
ghost use Rattle.mz_include.specs.Ends.{IfRefused, OnReadFault, CountsFiles};
ghost use Rattle.mz_include.specs.Views.{file, mention, IsKnown, AreKnown};
ghost use Rattle.mz_io.specs.Counts.{Rose};

use crate::end::GatherEnd;
use crate::included::note_included;
use crate::queue::{Mention, Queue};
use crate::read::read_file;
use mz_base::{Memory, Names, Span};
use mz_io::Files;
use mz_tree::Sources;
use std::alloc::Global;

/// The queue in which the model alone is named.
fn begin(alloc: Global, first: &str, names: &mut Names) -> Result<Queue, Memory>
    ensures named { IfOk result (λ q. map (mention names.new) q ≡ the_model first.now ∷ []) }
    ensures known { IfOk result (λ q. All (IsKnown names.new) q) }
    ensures grows { Grows names.old names.new }
{
    let name = names.intern(first)?;
    let mut queue = Queue::new(alloc);
    queue.add(Mention {
        name,
        span: Span::start(0),
        owner: name,
    })?;
    Ok(queue)
}

/// The model `first` and the files that it includes.
///
/// The files are the model and then each included name in the order in which it was first named,
/// each read once. A name that begins with `/` stands as it is; any other is put after the
/// including file's name up to and with its last `/`. An include item that writes `globals.mzn`,
/// or a global constraint's name with `.mzn`, names the built-in library, and nothing is fetched
/// for it. A file is fetched, then lexed whole, then parsed, before the next one.
///
/// The first file that fails is answered. `Refused` has the fault, and the name of the file of its
/// place: MissingFile and TooLong (more than 67,108,864 bytes) stand where the file was first
/// named, for the model at its first byte; Lexical, LeftOut, Bounds, Syntax and TooDeep stand in
/// the file itself. `ReadFault` comes where a fetch answers Failed.
///
/// After every answer the files are as they were, and the table of names has the names that it
/// had; it may have more.
pub fn gather<F: Files>(
    alloc: Global,
    first: &str,
    files: &mut F,
    names: &mut Names,
) -> Result<Sources, GatherEnd>
    // Ok: the model with its included files. Every name in them is of the table, and every place
    // in a file has the file's number.
    ensures sources { IfOk result (λ s. IsSources names.new (F.texts files.old) first.now (map (file names.new) s.files.items)) }
    ensures known { IfOk result (λ s. AreKnown names.new s.files.items) }

    // Each other answer has its cause; running out of memory alone is free.
    ensures refused { IfRefused result (λ f n. IsFirstFailure names.new (F.texts files.old) first.now f (text_of names.new n)) }
    ensures owner { IfRefused result (λ _ n. n < length names.new) }
    ensures read_fault { OnReadFault result (Rose (F.counts files.old).faults (F.counts files.new).faults) }
    ensures counted { CountsFiles (F.counts files.old) (F.counts files.new) result }

    // What every answer leaves.
    ensures texts { F.texts files.new ≡ F.texts files.old }
    ensures grows { Grows names.old names.new }
{
    let mut queue = begin(alloc, first, names)?;
    let mut read = Vec::new(alloc);
    while let Some(named) = queue.get(read.len()) {
        let file = match read_file(alloc, read.len() as u64, named, files, names) {
            Ok(file) => file,
            Err(end) => return Err(end),
        };
        note_included(alloc, file.name, file.items.as_slice(), names, &mut queue)?;
        read.push(file)?;
    }
    Ok(Sources { files: read })
}
