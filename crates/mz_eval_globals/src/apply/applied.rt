// Calls of globals on values.

ghost use Rattle.std.specs.Prelude.{◌≡◌, IfOk};
ghost use Rattle.mz_operations.specs.Arguments.{arguments};
ghost use Rattle.mz_globals.specs.Table.{global_answer};
ghost use Rattle.mz_eval_globals.specs.Applied.{Answers, IsFault, refusal_on};

use crate::apply::givens::givens_of;
use crate::apply::refusals::refusal_of;
use crate::apply::values::value;
use mz_base::{Fault, Kind, Span, Stop};
use mz_globals::{Global, Refusal};
use mz_value::Value;
use std::alloc::{AllocError, Global as Heap};

fn fault_of(refusal: Refusal, at: Span) -> Fault
    ensures { IsFault result refusal at }
{
    match refusal {
        Refusal::Misfit => Fault::at(Kind::IndexMismatch, at),
        Refusal::Negative(n) => Fault {
            kind: Kind::NegativeArgument,
            span: at,
            number: n as i128,
        },
        Refusal::Outside(n) => Fault {
            kind: Kind::Bounds,
            span: at,
            number: n,
        },
    }
}

fn refusal_on(alloc: Heap, g: Global, args: &[Option<Value>]) -> Result<Option<Refusal>, AllocError>
    ensures { IfOk result (λ r. r ≡ refusal_on g (arguments args.now)) }
{
    let givens = givens_of(alloc, args)?;
    Ok(refusal_of(g, &givens))
}

/// What a call of a global gives of these arguments, of which each is undefined (`None`) or a
/// value: a truth value, which is false where one is undefined; for the function `count` a number,
/// or `None` where one is undefined.
///
/// Refused IndexMismatch where arrays that the global pairs differ in length, or a table or the
/// steps of an automaton have another shape than the other arguments say; NegativeArgument with the
/// first number that may not be negative and is; Bounds with the first sum that leaves
/// -2^61..2^61. An undefined argument is no cause of these.
pub fn apply_global(
    alloc: Heap,
    g: Global,
    args: &[Option<Value>],
    at: Span,
) -> Result<Option<Value>, Stop>
    ensures { Answers result at (global_answer g (arguments args.now)) }
{
    match refusal_on(alloc, g, args)? {
        Some(refusal) => Err(Stop::Refused(fault_of(refusal, at))),
        None => {
            let v = value(alloc, g, args)?;
            Ok(v)
        }
    }
}
