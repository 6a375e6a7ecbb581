// The top call.

ghost use Rattle.std.specs.Prelude.{◌≡◌, ◌<◌, ◌⊎◌, List, ℕ, Some, IsSomeAnd};
ghost use Rattle.mz_io.specs.Counts.{Rose};
ghost use Rattle.mz_words.specs.Found.{text_of};
ghost use Rattle.mz_words.specs.Requests.{AskedWithinLimits, asked, request_of};
ghost use Rattle.mz_tool.specs.Words.{IsUsage, OnCheck, OnMake, OnPrint, UnlessPrint};
ghost use Rattle.mz_tool.specs.Headline.{Writes, WritesPrefix};
ghost use Rattle.mz_tool.specs.Printed.{PrintEnds};
ghost use Rattle.mz_tool.specs.StepsEnding.{Ends, IsNamedEnd, status_of};
ghost use Rattle.mz_tool.specs.StepsPrinting.{PrintedEnd, RefusedEnd};
ghost use Rattle.mz_tool.specs.Status.{OnDone, IfRefused, OnReadFault, OnWriteFault, OnNothingWritten, IsRefusedBy, ByDistinctNames, CountsRead, CountsReadIf, CountsOut, IsComplete, IsNoted};

use crate::compile::{check, compile};
use crate::end::{End, file_of};
use crate::make::make;
use crate::note::note;
use crate::print::print;
use crate::status::Status;
use mz_base::Names;
use mz_io::{Files, Sink, Source};
use mz_words::{Request, WordsError, read_words};
use std::alloc::Global;

/// Does what is asked for.
fn done<F: Files, I: Source, S: Sink>(
    alloc: Global,
    request: &Request<'_>,
    files: &mut F,
    names: &mut Names,
    input: &mut I,
    out: &mut S,
) -> End
    requires { AskedWithinLimits (request_of request.now) }
    ensures ended { UnlessPrint (Some (request_of request.now)) (Ends names.new (F.texts files.old) (request_of request.now) (S.held out.old) (S.held out.new) result) }
    ensures printed { OnPrint (Some (request_of request.now)) (λ s.
        PrintedEnd names.new (F.texts files.old) s (I.left input.old) (I.left input.new) (S.held out.old) (S.held out.new) result) }
    ensures refused { OnPrint (Some (request_of request.now)) (λ s. RefusedEnd names.new (F.texts files.old) s result) }
    ensures named { IsNamedEnd names.new result }
    ensures counted { CountsRead (request_of request.now) (F.counts files.old) (F.counts files.new) (I.faults input.old) (I.faults input.new) (status_of result) }
    ensures output { CountsOut (S.counts out.old) (S.counts out.new) (status_of result) }
    ensures silent { OnCheck (Some (request_of request.now)) (out.new ≡ out.old) }
    ensures input { UnlessPrint (Some (request_of request.now)) (input.new ≡ input.old) }
    ensures quiet { OnMake (Some (request_of request.now)) (files.new ≡ files.old) }
    ensures texts { F.texts files.new ≡ F.texts files.old }
{
    match request {
        Request::Compile(options) => compile(alloc, options, files, names, out),
        Request::Check(options) => check(alloc, options, files, names),
        Request::Print(options) => print(alloc, options, files, names, input, out),
        Request::Make(number) => make(alloc, *number, names, out),
    }
}

/// Does what is asked for, and notes how it went.
fn answer<F: Files, I: Source, S: Sink, E: Sink>(
    alloc: Global,
    request: &Request<'_>,
    files: &mut F,
    input: &mut I,
    out: &mut S,
    notes: &mut E,
) -> Status
    requires { AskedWithinLimits (request_of request.now) }
    ensures headline { UnlessPrint (Some (request_of request.now)) (OnDone result (ByDistinctNames (λ table.
        Writes table (F.texts files.old) (request_of request.now) (S.held out.old) (S.held out.new)))) }
    ensures printed { OnPrint (Some (request_of request.now)) (λ s.
        PrintEnds (F.texts files.old) s (I.left input.old) (I.left input.new) (S.held out.old) (S.held out.new) result) }
    ensures usage { IsUsage (Some (request_of request.now)) result }
    ensures refused { IfRefused result (λ fault. ByDistinctNames (λ table.
        (file : List ℕ) × IsRefusedBy table (F.texts files.old) (request_of request.now) fault file)) }
    ensures counted { CountsRead (request_of request.now) (F.counts files.old) (F.counts files.new) (I.faults input.old) (I.faults input.new) result }
    ensures counted_out { CountsOut (S.counts out.old) (S.counts out.new) result }
    ensures complete { IsComplete (F.texts files.old) (Some (request_of request.now)) (I.left input.old)
        (F.counts files.old) (F.counts files.new) (I.faults input.old) (I.faults input.new) (S.counts out.old) (S.counts out.new) result }
    ensures cut_short { UnlessPrint (Some (request_of request.now)) (OnWriteFault result (ByDistinctNames (λ table.
        WritesPrefix table (F.texts files.old) (request_of request.now) (S.held out.old) (S.held out.new)))) }
    ensures untouched { UnlessPrint (Some (request_of request.now)) (OnNothingWritten result (S.held out.new ≡ S.held out.old)) }
    ensures silent { OnCheck (Some (request_of request.now)) (out.new ≡ out.old) }
    ensures input { UnlessPrint (Some (request_of request.now)) (input.new ≡ input.old) }
    ensures quiet { OnMake (Some (request_of request.now)) (files.new ≡ files.old) }
    ensures texts { F.texts files.new ≡ F.texts files.old }
    ensures notes { IsNoted (F.texts files.old) (Some (request_of request.now)) result
        (E.held notes.old) (E.held notes.new) (E.counts notes.old) (E.counts notes.new) }
{
    let mut names = Names::new(alloc);
    let end = done(alloc, request, files, &mut names, input, out);
    let status = end.status();
    note(notes, file_of(&end, &names), status);
    status
}

/// Runs the words after the program's name, and says how it went.
///
/// The commands are `compile`, `check` and `print`, each with a model's file, its data files in order, and the options `--budget N` and
/// `--int-range N` anywhere, and `make` with a number (`mz_words::read_words` has the words). The model and the files that it includes are
/// read, each once, and then the data files, each as often as it is named. `compile` writes the model's FlatZinc to `out` with one put;
/// `check` answers what `compile` does, and writes nothing there. `print` walks over the model as they do, and then takes a solver's
/// stream from `input`, at most 65,536 bytes at once: for each solution it writes the text that the model's output items describe, a
/// newline where that text isn't empty and lacks one, and the line `----------`, and each mark as it is, all before it takes more bytes;
/// what it holds doesn't grow with the stream. Each text is evaluated with a budget of its own. `make` makes the model of its number in
/// memory, compiles it there with the defaults, and writes four lines: how many bytes the model and its FlatZinc have, and how many
/// variable items and constraint items. Only `print` takes from `input`; `make` fetches no file. N of `--budget` is how many units of work
/// an evaluation may take, 10,000,000 where it isn't given; N of `--int-range` is how far a `var int` reaches from 0 on either side, else
/// 1,000,000,000.
///
/// What is refused has the place of the first fault, in the order of the files, where each is fetched, lexed whole and parsed before the
/// next one: all files of the model, and then the data files. `MissingFile` and `TooLong` (more than `FILE_LIMIT` bytes) stand where the
/// file was first named, for a file of the words at its line 1, column 1; `Lexical`, `LeftOut`, `Bounds`, `Syntax` and `TooDeep` in the
/// file itself. After all files come the tests of names, in this order, each over the whole: `ReservedName`, `DuplicateName`,
/// `SolveItems`, `UnknownName`, `DataForm` of an enum's data, `MissingData`, `Cyclic`; then the types: `UnknownName` and `DuplicateName`
/// of local names, `DuplicateName` of functions with parameters, `DataForm` of all other data, `TypeMismatch`, `NoOverload`,
/// `Ambiguous`, `LeftOut`.
///
/// All else is compiled (`crate::compiled`). The model is walked over once, without values of its variables: the declarations in
/// their order, each with its sets and its value, then the constraints in the order of the text, then the objective. The first of these
/// stops it, and no values of the variables solve such a model. `UnboundedSet` at a declaration's name, before all others: it has no
/// value and no bound, as `var set of int`. `ParUndefined` at the value or the set: a parameter's value is undefined or outside its set,
/// or a declared set is undefined. `IndexMismatch` at the value, the set, the call or the table: lengths or index sets don't fit.
/// `AssertFailed` at the call. `FreeInContext` at a local variable's declaration: it has no value, and is evaluated where there may be no
/// such choice, as under a negation. `NegativeArgument` at the power or the call, with the exponent or the argument's lower bound.
/// `Bounds` at the expression, with the end that leaves the limit. `Budget`, with the budget and 1, at the part that passes it. `Depth`,
/// with 601, at the expression. A place in a data file is that of a value there.
///
/// What is written has first the model's variables and arrays, in the order of evaluation and under their names, then variables that are
/// introduced, and rows that hold of their values exactly where the model is solved; it minimizes where the model does, and maximizes
/// where it does.
///
/// `print` refuses too: at a line of the stream that is no item, no end of a block and no mark, has a name or a value that the model's
/// variables don't have, or ends a block too soon (`BadSolution`, with the line); a stream of more than 1,073,741,824 bytes (`TooLong`);
/// an output item that is undefined for a solution (`OutputUndefined`, with the solution's number), and what evaluating an item stops at.
///
/// After `Done` `notes` holds what it held, after any other answer besides that one line that says why; the line of a refusal names the
/// file of its place as it was fetched, `-` for the stream, and `make` for that command. A put on `notes` that goes wrong cuts the line
/// short and changes no answer. After `WriteFault` `out` holds besides what it held a prefix of the FlatZinc or of the summary, after
/// `Usage`, `Refused`, `ReadFault` and `Memory` what it held. After `Refused` and `ReadFault` of `print` it holds besides what it held the
/// texts and marks that stand before the fault; after `WriteFault` and `Memory` a prefix of the texts so far, whole those of all blocks
/// and marks that end before the last 65,536 bytes taken.
pub fn run<F: Files, I: Source, S: Sink, E: Sink>(
    alloc: Global,
    words: &Vec<String>,
    files: &mut F,
    input: &mut I,
    out: &mut S,
    notes: &mut E,
) -> Status
    // Done: the bytes written spell a program with the model's solutions and no others. After `check` they could be written, and after
    // `make` they are counted.
    ensures headline { UnlessPrint (asked (text_of words.now.items)) (OnDone result (IsSomeAnd (asked (text_of words.now.items)) (λ a.
        ByDistinctNames (λ table. Writes table (F.texts files.old) a (S.held out.old) (S.held out.new))))) }

    // What `print` takes and writes, by each answer: nothing; or the stream is printed by the texts of the model's solutions.
    ensures printed { OnPrint (asked (text_of words.now.items)) (λ s.
        PrintEnds (F.texts files.old) s (I.left input.old) (I.left input.new) (S.held out.old) (S.held out.new) result) }

    // Each other answer has its cause; out of memory alone is free.
    ensures usage { IsUsage (asked (text_of words.now.items)) result }
    ensures refused { IfRefused result (λ fault. IsSomeAnd (asked (text_of words.now.items)) (λ a. ByDistinctNames (λ table.
        (file : List ℕ) × IsRefusedBy table (F.texts files.old) a fault file))) }
    ensures read_fault { OnReadFault result (Rose (F.counts files.old).faults (F.counts files.new).faults ⊎ Rose (I.faults input.old) (I.faults input.new)) }
    ensures write_fault { OnWriteFault result (Rose (S.counts out.old).faults (S.counts out.new).faults) }

    // A fetch, a take or a put on `out` that fails is answered as such; each count tells it up to the last u64.
    ensures failed_fetch { (F.counts files.old).faults < (F.counts files.new).faults → result ≡ Status.ReadFault }
    ensures failed_take { I.faults input.old < I.faults input.new → result ≡ Status.ReadFault }
    ensures failed_put { (S.counts out.old).faults < (S.counts out.new).faults → result ≡ Status.WriteFault }
    ensures counted { CountsReadIf (asked (text_of words.now.items)) (F.counts files.old) (F.counts files.new) (I.faults input.old) (I.faults input.new) result }
    ensures counted_out { CountsOut (S.counts out.old) (S.counts out.new) result }

    // A model that is there and is typed with its data, and that each walk goes through is compiled; and a stream that is printed whole by
    // the texts of its solutions is printed.
    ensures complete { IsComplete (F.texts files.old) (asked (text_of words.now.items)) (I.left input.old)
        (F.counts files.old) (F.counts files.new) (I.faults input.old) (I.faults input.new) (S.counts out.old) (S.counts out.new) result }

    // What an answer other than Done leaves, and what is noted. After `check` the output is as it was, whatever the answer; `print` alone
    // takes from the input, and `make` leaves the files alone.
    ensures cut_short { UnlessPrint (asked (text_of words.now.items)) (OnWriteFault result (IsSomeAnd (asked (text_of words.now.items)) (λ a.
        ByDistinctNames (λ table. WritesPrefix table (F.texts files.old) a (S.held out.old) (S.held out.new))))) }
    ensures untouched { UnlessPrint (asked (text_of words.now.items)) (OnNothingWritten result (S.held out.new ≡ S.held out.old)) }
    ensures silent { OnCheck (asked (text_of words.now.items)) (out.new ≡ out.old) }
    ensures input { UnlessPrint (asked (text_of words.now.items)) (input.new ≡ input.old) }
    ensures quiet { OnMake (asked (text_of words.now.items)) (files.new ≡ files.old) }
    ensures texts { F.texts files.new ≡ F.texts files.old }
    ensures notes { IsNoted (F.texts files.old) (asked (text_of words.now.items)) result
        (E.held notes.old) (E.held notes.new) (E.counts notes.old) (E.counts notes.new) }
{
    match read_words(alloc, words.as_slice()) {
        Ok(request) => answer(alloc, &request, files, input, out, notes),
        Err(WordsError::Usage) => {
            note(notes, "", Status::Usage);
            Status::Usage
        }
        Err(WordsError::Memory) => {
            note(notes, "", Status::Memory);
            Status::Memory
        }
    }
}
