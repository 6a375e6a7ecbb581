// How a FlatZinc program is read.

ghost use Rattle.std.specs.Prelude.{◌≡◌, ◌↔◌, IfErr, IfOk, IsTrue, Some};
ghost use Rattle.mz_base.specs.Faults.{IfRefused, fault_at, start_of};
ghost use Rattle.mz_base.specs.declared.kind.Kind.TheVariants.{Syntax};
ghost use Rattle.fz_program.specs.Flat.{AreParts, program};
ghost use Rattle.fz_text_read.specs.Lines.{program_at};
ghost use Rattle.fz_text.specs.Reading.{IsOnly, IsUnspelled};
ghost use Rattle.fz_text.specs.Spelling.{Spells, spelling};

use crate::text;
use fz_items::Miss;
use fz_program::{FzProgram, are_parts};
use fz_text_read::read_program;
use mz_base::{Fault, Kind, Span, Stop};
use std::alloc::{AllocError, Global};

/// The program that the bytes spell. A refusal of kind `Syntax` at the first byte comes exactly where
/// they spell none.
///
/// Its time grows with the length of the text, but for sets in braces, whose numbers are sorted.
pub fn read(alloc: Global, bytes: &[u8]) -> Result<FzProgram, Stop>
    ensures spelled { IfOk result (λ p. Spells bytes.now (program p)) }
    ensures refused { IfErr result (λ s. IfRefused s (IsUnspelled bytes.now)) }
{
    match read_program(alloc, bytes) {
        Ok(p) => confirmed(alloc, p, bytes),
        Err(Miss::Unfit) => Err(Stop::Refused(unspelled())),
        Err(Miss::Memory) => Err(Stop::Memory),
    }
}

/// Bytes spell at most one program.
pub fn one_program()
    ensures { IsOnly }
{}

// The refusal of bytes that spell no program.
fn unspelled() -> Fault
    ensures { result ≡ fault_at Syntax (start_of 0) }
{
    Fault::at(Kind::Syntax, Span::start(0))
}

// The program that was read, where it is well formed and its one spelling is the bytes.
fn confirmed(alloc: Global, p: FzProgram, bytes: &[u8]) -> Result<FzProgram, Stop>
    requires { program_at bytes.now ≡ Some (program p) }
    ensures spelled { IfOk result (λ q. Spells bytes.now (program q)) }
    ensures refused { IfErr result (λ s. IfRefused s (IsUnspelled bytes.now)) }
{
    if is_spelled(alloc, &p, bytes)? {
        Ok(p)
    } else {
        Err(Stop::Refused(unspelled()))
    }
}

// Whether all but the names is well formed, and the bytes are the program's one spelling.
fn is_spelled(alloc: Global, p: &FzProgram, bytes: &[u8]) -> Result<bool, AllocError>
    ensures { IfOk result (λ b. IsTrue b ↔ (AreParts (program p.now) × (bytes.now ≡ spelling (program p.now)))) }
{
    if !are_parts(p) {
        return Ok(false);
    }
    let spelled = text(alloc, p)?;
    Ok(spelled.as_slice() == bytes)
}
