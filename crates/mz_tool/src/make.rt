// The model of a number, made and compiled in memory.

ghost use Rattle.std.specs.Prelude.{◌≡◌, ◌++◌, ◌∷◌, ℕ, [], IfOk, OnOk, length};
ghost use Rattle.mz_io.specs.Files.{Texts};
ghost use Rattle.mz_words.specs.Requests.{make, settings};
ghost use Rattle.fz_program.specs.Flat.{program, WellFormed};
ghost use Rattle.fz_text.specs.Spelling.{spelling};
ghost use Rattle.mz_tool.specs.Making.{made_arrays, made_constraints, made_head, made_name, made_objective, made_settings, model_text, summary_line, summary_of};
ghost use Rattle.mz_tool.specs.Status.{CountsOut, IsNoReadFault};
ghost use Rattle.mz_tool.specs.StepsEnding.{Ends, IsNamedEnd, status_of};
ghost use Rattle.mz_tool.specs.StepsMaking.{IsMadeFiles, IsSummarized};

use crate::compile::{flat, write_program};
use crate::end::{End, failed};
use fz_program::FzProgram;
use itoa::Buffer;
use mz_base::{FILE_LIMIT, Memory, Names};
use mz_io::{Sent, Sink, SureFiles, SureSink, SureSource, read_all};
use mz_words::{DEFAULT_BUDGET, DEFAULT_INT_RANGE, Options};
use std::alloc::Global;

/// The most bytes of the model that are taken at once.
const PIECE: usize = 65_536;

#[tactic(auto, unfolding(crate::specs::Making::made_head))]
fn head() -> &'static [u8]
    ensures { result.now ≡ made_head }
{
    b"int: n = "
}

#[tactic(auto, unfolding(crate::specs::Making::made_arrays))]
fn arrays() -> &'static [u8]
    ensures { result.now ≡ made_arrays }
{
    b";\narray[1..n] of var 0..9: x;\narray[1..n] of var opt 1..4: o;\n"
}

#[tactic(auto, unfolding(crate::specs::Making::made_constraints))]
fn constraints() -> &'static [u8]
    ensures { result.now ≡ made_constraints }
{
    b"constraint forall(i in 1..n - 1)(x[i] * x[i + 1] <= 20 + i mod 7);\nconstraint forall(i in 1..n - 1)(x[i] div x[i + 1] != 3 \\/ occurs(o[i]));\nconstraint sum(x) <= 5 * n;\nconstraint count(x, 0) <= n div 2 + 1;\n"
}

#[tactic(auto, unfolding(crate::specs::Making::made_objective))]
fn objective() -> &'static [u8]
    ensures { result.now ≡ made_objective }
{
    b"solve maximize sum(i in 1..n)(x[i] * (i mod 3));\n"
}

/// The text of the model of a number.
fn model_text(alloc: Global, number: u64) -> Result<Vec<u8>, Memory>
    ensures { IfOk result (λ t. t.items ≡ model_text number) }
{
    let mut digits = Buffer::new();
    let mut text = Vec::new(alloc);
    text.extend_from_slice(head())?;
    text.extend_from_slice(digits.format(number).as_bytes())?;
    text.extend_from_slice(arrays())?;
    text.extend_from_slice(constraints())?;
    text.extend_from_slice(objective())?;
    Ok(text)
}

/// A text, read as a stream is read.
fn read_back(alloc: Global, text: Vec<u8>) -> Result<Vec<u8>, Memory>
    ensures { IfOk result (λ bytes. bytes.items ≡ text.items) }
{
    let mut source = SureSource::new(alloc, text, PIECE);
    match read_all(alloc, &mut source, FILE_LIMIT) {
        Ok(bytes) => Ok(bytes),
        Err(_) => Err(Memory),
    }
}

/// The one file of a model with this text.
fn files_of(alloc: Global, text: Vec<u8>) -> Result<SureFiles, Memory>
    ensures { IfOk result (λ f. f ≡ record { entries = (made_name, text.items) ∷ []; misses = 0; overruns = 0 }) }
{
    let bytes = read_back(alloc, text)?;
    let name = String::from_str(alloc, "make")?;
    let mut texts = Vec::new(alloc);
    texts.push((name, bytes))?;
    Ok(SureFiles::new(alloc, texts))
}

/// The model with no data, and the defaults.
fn options(alloc: Global) -> Options<'static>
    ensures { settings result ≡ made_settings }
{
    Options {
        model: "make",
        data_files: Vec::new(alloc),
        budget: DEFAULT_BUDGET,
        int_range: DEFAULT_INT_RANGE as i64,
    }
}

/// Appends a line of the summary.
fn push_line(text: &mut Vec<u8>, label: &[u8], number: u64) -> Result<(), Memory>
    ensures { OnOk result (text.new.items ≡ text.old.items ++ summary_line label.now number) }
{
    let mut digits = Buffer::new();
    text.extend_from_slice(label)?;
    text.extend_from_slice(digits.format(number).as_bytes())?;
    text.extend_from_slice(b"\n")?;
    Ok(())
}

/// The summary of a model of this many bytes, for which so many bytes are written, and of its program.
fn summary(alloc: Global, model: usize, written: usize, flat: &FzProgram) -> Result<Vec<u8>, Memory>
    ensures { IfOk result (λ t. t.items ≡ summary_of model written (program flat.now)) }
{
    let mut text = Vec::new(alloc);
    push_line(&mut text, b"model ", model as u64)?;
    push_line(&mut text, b"flatzinc ", written as u64)?;
    push_line(&mut text, b"variables ", flat.vars.len() as u64)?;
    push_line(&mut text, b"rows ", flat.rows.len() as u64)?;
    Ok(text)
}

/// How many bytes are written for a program.
fn written_bytes(alloc: Global, flat: &FzProgram) -> Result<usize, Memory>
    requires { WellFormed (program flat.now) }
    ensures { IfOk result (λ n. n ≡ length (spelling (program flat.now))) }
{
    let mut bytes = SureSink::new(alloc);
    match write_program(alloc, flat, &mut bytes) {
        End::Done => Ok(bytes.bytes().len()),
        _ => Err(Memory),
    }
}

/// The summary's lines, of a model of this many bytes and its program.
fn lines(alloc: Global, model: usize, flat: &FzProgram) -> Result<Vec<u8>, Memory>
    requires { WellFormed (program flat.now) }
    ensures { IfOk result (λ t. t.items ≡ summary_of model (length (spelling (program flat.now))) (program flat.now)) }
{
    let written = written_bytes(alloc, flat)?;
    summary(alloc, model, written, flat)
}

/// Writes the summary of a model of this many bytes and of its program.
fn summarize<S: Sink>(alloc: Global, model: usize, flat: &FzProgram, out: &mut S) -> End
    requires { WellFormed (program flat.now) }
    ensures left { IsSummarized model (program flat.now) (S.held out.old) (S.held out.new) result }
    ensures counted { CountsOut (S.counts out.old) (S.counts out.new) (status_of result) }
{
    let Ok(lines) = lines(alloc, model, flat) else {
        return End::Memory;
    };
    match out.put(lines.as_slice()) {
        Sent::All => End::Done,
        Sent::Failed => End::WriteFault,
        Sent::Memory => End::Memory,
    }
}

/// Compiles the model of this one file, which has so many bytes, and writes its summary.
fn make_of<S: Sink>(
    alloc: Global,
    model: usize,
    files: &mut SureFiles,
    names: &mut Names,
    out: &mut S,
) -> End
    ensures ended { (number : ℕ) (texts : Texts) → IsMadeFiles number files.old → model ≡ length (model_text number)
        → Ends names.new texts (make number) (S.held out.old) (S.held out.new) result }
    ensures named { IsNamedEnd names.new result }
    ensures sure { IsNoReadFault (status_of result) }
    ensures output { CountsOut (S.counts out.old) (S.counts out.new) (status_of result) }
{
    let options = options(alloc);
    match flat(alloc, &options, files, names) {
        Ok(flat) => summarize(alloc, model, &flat, out),
        Err(end) => failed(&end),
    }
}

/// Makes the model of a number, compiles it in memory, and writes its summary.
pub(crate) fn make<S: Sink>(alloc: Global, number: u64, names: &mut Names, out: &mut S) -> End
    ensures ended { (texts : Texts) → Ends names.new texts (make number) (S.held out.old) (S.held out.new) result }
    ensures named { IsNamedEnd names.new result }
    ensures sure { IsNoReadFault (status_of result) }
    ensures output { CountsOut (S.counts out.old) (S.counts out.new) (status_of result) }
{
    let Ok(text) = model_text(alloc, number) else {
        return End::Memory;
    };
    let model = text.len();
    let Ok(mut files) = files_of(alloc, text) else {
        return End::Memory;
    };
    make_of(alloc, model, &mut files, names, out)
}
