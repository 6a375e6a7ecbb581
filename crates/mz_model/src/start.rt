// The walk's start, where nothing is in hand.

ghost use Rattle.std.specs.Prelude.{◌≡◌, [], Some};
ghost use Rattle.mz_meaning.specs.Unbounded.{first_unbounded};
ghost use Rattle.mz_model.specs.Walks.{AreReadable, names_of, program_of};
ghost use Rattle.mz_model.specs.Ending.{StopHalts};

use crate::types::{Names, Task};
use mz_base::{Fault, Kind, Span, Stop};
use mz_eval_scopes::Env;
use mz_model_state::{declarations_are_walked, walks_are_closed};
use mz_symbol::Run;
use std::alloc::Global;

/// No name is in hand.
#[tactic(auto, using(crate::proofs::Starts::none_readable))]
pub(crate) fn no_names(alloc: Global) -> Names
    ensures readable { AreReadable result }
    ensures none { names_of result ≡ [] }
{
    Names {
        list: Vec::new(alloc),
        env: Env::new(alloc),
        parts: 0,
    }
}

/// The refusal of a declaration without a value and without a bound, whose name is here.
pub(crate) fn unbounded(alloc: Global, task: &Task, at: Span) -> Stop
    requires { first_unbounded (program_of task.now) ≡ Some at }
    ensures { StopHalts task.now result }
{
    walks_are_closed();
    declarations_are_walked();
    let run = Run::new(alloc);
    let _nodes = run.arena();
    Stop::Refused(Fault::at(Kind::UnboundedSet, at))
}
