// What gathering the files of a model answers.

ghost use Rattle.std.specs.Prelude.{◌<◌, length, All, Err};
ghost use Rattle.mz_include.specs.Ends.{IfRefused};

use cases::Page;
use mz_base::{Memory, Names};
use mz_include::{GatherEnd, gather};
use mz_io::MemFiles;
use mz_tree::SourceFile;
use std::alloc::Global;

/// Each file with how many items it has, or why there are none, with the number of a fault's file.
#[tactic(auto, using(mz_include::proofs::KnownFiles::each_named))]
pub fn print(
    alloc: Global,
    first: &str,
    files: &mut MemFiles,
    page: &mut Page,
) -> Result<(), Memory> {
    let mut names = Names::new(alloc);
    match gather(alloc, first, files, &mut names) {
        Ok(sources) => {
            print_files(page, sources.files.as_slice(), &names);
            Ok(())
        }
        Err(end) => print_end(page, end, &names),
    }
}

fn print_files(page: &mut Page, files: &[SourceFile], names: &Names)
    requires { All (λ f. f.name < length names.now) files.now }
{
    for file in files {
        page.put(names.text(file.name));
        page.put(" ");
        page.line(file.items.len());
    }
}

fn print_end(page: &mut Page, end: GatherEnd, names: &Names) -> Result<(), Memory>
    requires { IfRefused {X = Unit {0}} (Err end) (λ _ n. n < length names.now) }
{
    match end {
        GatherEnd::Refused(fault, owner) => {
            let at = fault.span;
            page.put(names.text(owner));
            page.put(format_args!(":{}:{}: ", at.line, at.col));
            page.put(fault.kind.name());
            page.line(format_args!(" in file {}", at.file));
            Ok(())
        }
        GatherEnd::ReadFault => {
            page.line("read fault");
            Ok(())
        }
        GatherEnd::Memory => Err(Memory),
    }
}
