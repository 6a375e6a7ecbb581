// How a command ends.

ghost use Rattle.std.specs.Prelude.{◌≡◌};
ghost use Rattle.mz_tool.specs.StepsEnding.{IsNamedEnd, IsNamedOwner, failed_end, file_of, owner_name, status_of};

use crate::status::Status;
use mz_base::{Fault, Name, Names};
use mz_include::GatherEnd;

/// What a fault's place is in.
#[derive(Clone, Copy, Debug)]
pub enum Owner {
    /// The file of this name.
    File(Name),
    /// The solver's stream.
    Stream,
}

/// How a command ends. A refusal has the owner of its place.
#[derive(Clone, Copy, Debug)]
pub enum End {
    Done,
    Refused(Fault, Owner),
    ReadFault,
    WriteFault,
    Memory,
}

impl End {
    /// The answer, without the owner.
    pub fn status(&self) -> Status
        ensures { result ≡ status_of self.now }
    {
        match self {
            End::Done => Status::Done,
            End::Refused(fault, _) => Status::Refused(*fault),
            End::ReadFault => Status::ReadFault,
            End::WriteFault => Status::WriteFault,
            End::Memory => Status::Memory,
        }
    }
}

/// The name that a line has for an owner.
fn owner_name<'a>(owner: &Owner, names: &'a Names) -> &'a str
    requires { IsNamedOwner names.now owner.now }
    ensures { result.now ≡ owner_name names.now owner.now }
{
    match owner {
        Owner::File(file) => names.text(*file),
        Owner::Stream => "-",
    }
}

/// The name that the line of a refusal has; an empty text where nothing is refused.
pub(crate) fn file_of<'a>(end: &End, names: &'a Names) -> &'a str
    requires { IsNamedEnd names.now end.now }
    ensures { result.now ≡ file_of names.now end.now }
{
    match end {
        End::Refused(_, owner) => owner_name(owner, names),
        _ => "",
    }
}

/// The end of a command whose model is refused, or isn't read or walked to its end.
pub(crate) fn failed(end: &GatherEnd) -> End
    ensures { result ≡ failed_end end.now }
{
    match end {
        GatherEnd::Refused(fault, file) => End::Refused(*fault, Owner::File(*file)),
        GatherEnd::ReadFault => End::ReadFault,
        GatherEnd::Memory => End::Memory,
    }
}
