// The compiler as a program: the command's words, the system's files and streams, the exit status.
#![tactic(auto)]

ghost use Rattle.std.specs.Prelude.{◌≡◌};
ghost use Rattle.std.specs.Process.{exit_status};
ghost use Rattle.mz_words.specs.Found.{text_of};
ghost use Rattle.mz_words.specs.Requests.{asked};
ghost use Rattle.mz_tool.specs.Words.{OnCheck, OnMake, UnlessPrint};
ghost use Rattle.mz_tool.specs.Promises.{Promises};
ghost use Rattle.mzc.specs.Exit.{number_of, EndsWith};

use mz_io::{DiskFiles, Files, Sink, Source, StdSink, StdSource};
use mz_tool::Status;
use std::alloc::{AllocError, Global};
use std::env;
use std::io::ErrorKind;
use std::process::ExitCode;
use std::rt::Env;

fn main(rt: HostRuntime) -> ExitCode {
    let mut notes = StdSink::new(rt.stderr());
    match command_words(&rt) {
        Ok(words) => ended(
            rt.alloc(),
            &words,
            &mut DiskFiles::new(&rt),
            &mut StdSource::new(rt.stdin()),
            &mut StdSink::new(rt.stdout()),
            &mut notes,
        ),
        Err(AllocError) => {
            let _ = notes.put(b"mzc: out of memory\n");
            code_of(&Status::Memory)
        }
    }
}

// The words after the program's name. There are none where one isn't text, which is a wrong use.
fn command_words<R: Env + AllocGlobal>(rt: &R) -> Result<Vec<String>, AllocError> {
    match env::args(rt) {
        Ok(words) => words.skip(1).collect(rt.alloc()),
        Err(e) if e.kind() == ErrorKind::OutOfMemory => Err(AllocError),
        Err(_) => Ok(Vec::new(rt.alloc())),
    }
}

// Runs the words, and gives the exit status of the answer.
fn ended<F: Files, I: Source, S: Sink, E: Sink>(
    alloc: Global,
    words: &Vec<String>,
    files: &mut F,
    input: &mut I,
    out: &mut S,
    notes: &mut E,
) -> ExitCode
    ensures promises { EndsWith result (Promises (F.texts files.old) (asked (text_of words.now.items))
        (record {
          files = F.counts files.old;
          input = I.left input.old;
          input_faults = I.faults input.old;
          out = S.held out.old;
          out_counts = S.counts out.old;
          notes = E.held notes.old;
          note_counts = E.counts notes.old;
        })
        (record {
          files = F.counts files.new;
          input = I.left input.new;
          input_faults = I.faults input.new;
          out = S.held out.new;
          out_counts = S.counts out.new;
          notes = E.held notes.new;
          note_counts = E.counts notes.new;
        })) }
    ensures texts { F.texts files.new ≡ F.texts files.old }
    ensures silent { OnCheck (asked (text_of words.now.items)) (out.new ≡ out.old) }
    ensures input { UnlessPrint (asked (text_of words.now.items)) (input.new ≡ input.old) }
    ensures quiet { OnMake (asked (text_of words.now.items)) (files.new ≡ files.old) }
{
    let status = mz_tool::run(alloc, words, files, input, out, notes);
    code_of(&status)
}

fn code_of(status: &Status) -> ExitCode
    ensures { exit_status result ≡ number_of status.now }
{
    match status {
        Status::Done => ExitCode::from(0),
        Status::Refused(_) => ExitCode::from(1),
        Status::Usage => ExitCode::from(2),
        Status::ReadFault => ExitCode::from(3),
        Status::WriteFault => ExitCode::from(4),
        Status::Memory => ExitCode::from(5),
    }
}
