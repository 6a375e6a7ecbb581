// The typed program of a model's files with their data.

ghost use Rattle.std.specs.Prelude.{◌<◌, length, IfOk, IfErr, All};
ghost use Rattle.mz_base.specs.Faults.{IfRefused};
ghost use Rattle.mz_core.specs.Program.{plain_program};
ghost use Rattle.mz_analysis.specs.Analysis.{IsTypedModel, FailsTest, IsRead, files_read, items_read, evaluated, names_of};

use crate::scoping::scoped_model;
use mz_base::{Names, Stop};
use mz_check::check;
use mz_core::Program;
use mz_include::with_data::SourcesWithData;
use std::alloc::Global;

/// The typed program of a model's files with the items of its data, by the table of their names.
///
/// What `scoped_model` refuses is refused first, and then the first fault of types: those of declarations and functions, functions that
/// are declared twice, data that doesn't fit its declaration, and then all else. The place of a refusal lies in one of the files.
pub fn typed_model(alloc: Global, read: &SourcesWithData, names: &Names) -> Result<Program, Stop>
    requires { IsRead names.now read.now }
    ensures typed { IfOk result (λ p. IsTypedModel names.now (files_read names.now read.now) (items_read read.now) (plain_program p)) }
    ensures named { IfOk result (λ p. All (λ n. n < length names.now) (names_of (plain_program p).decls)) }
    ensures named_in_order { IfOk result (λ p. All (λ n. n < length names.now) (names_of (evaluated (plain_program p)))) }
    ensures refused { IfErr result (λ s. IfRefused s (FailsTest names.now (files_read names.now read.now) (length read.now.data_files.items) (items_read read.now))) }
{
    let scoped = scoped_model(alloc, read, names)?;
    let program = check(alloc, &scoped, names)?;
    Ok(program)
}
