// Candidates of a call.

ghost use Rattle.std.specs.Prelude.{◌≡◌, ◌∷◌, [], ◌++◌, map, slice_get, IfOk};
ghost use Rattle.std.specs.Option.{option_map};
ghost use Rattle.mz_core.specs.Types.{plain_type, plain_signature};
ghost use Rattle.mz_overload.specs.Best.{resolution};
ghost use Rattle.mz_check_calls.specs.Views.{candidate};

use mz_base::Memory;
use mz_check_meaning::Callee;
use mz_core::{Signature, TypeInst};
use mz_overload::{Resolution, choose};
use std::alloc::Global;
use std::marker::Model;

/// What may be called, with its parameters and its result.
#[derive(Drop)]
pub(crate) struct Candidate {
    pub callee: Callee,
    pub signature: Signature,
}

/// Candidates in their order.
#[derive(Drop)]
pub(crate) struct Candidates {
    callees: Vec<Callee>,
    signatures: Vec<Signature>,
}

impl Model for Candidates {
    ghost use Rattle.std.specs.Prelude.{◌≡◌, List, length};
    ghost use Rattle.mz_check_meaning.specs.Calls.{Candidate};
    ghost use Rattle.mz_check_calls.specs.Pairs.{paired};

    ghost Value = { List Candidate };

    ghost view = { λ c. paired c.callees.items c.signatures.items };

    ghost invariant = { λ c. length c.callees.items ≡ length c.signatures.items };
}

impl Candidates {
    /// No candidate.
    #[tactic(auto, using(crate::proofs::Pairing::paired_none))]
    pub fn new(alloc: Global) -> Candidates
        ensures { result ≡ [] }
    {
        Candidates {
            callees: Vec::new(alloc),
            signatures: Vec::new(alloc),
        }
    }

    /// These candidates, and one more after them.
    #[tactic(auto, using(crate::proofs::Pairing::paired_more))]
    pub fn with(self, callee: Callee, signature: Signature) -> Result<Candidates, Memory>
        ensures { IfOk result (λ all. all ≡ self ++ record { callee = callee; signature = plain_signature signature } ∷ []) }
    {
        let Candidates {
            mut callees,
            mut signatures,
        } = self;
        callees.push(callee)?;
        signatures.push(signature)?;
        Ok(Candidates {
            callees,
            signatures,
        })
    }

    /// The candidate that a call with arguments of these types takes.
    #[tactic(auto, using(crate::proofs::Pairing::paired_signatures))]
    pub fn choose(&self, args: &[TypeInst]) -> Resolution
        ensures { result ≡ resolution (map (λ c. c.signature) self.now) (map plain_type args.now) }
    {
        choose(self.signatures.as_slice(), args)
    }

    /// The candidate at a place, from 0.
    #[tactic(auto, using(crate::proofs::Pairing::paired_at, crate::proofs::Pairing::paired_past))]
    pub fn take(self, place: u64) -> Option<Candidate>
        ensures { option_map candidate result ≡ slice_get self place }
    {
        let Candidates {
            callees,
            mut signatures,
        } = self;
        let place = place as usize;
        if place < callees.len() {
            let callee = callees[place];
            let signature = signatures.swap_remove(place);
            Some(Candidate { callee, signature })
        } else {
            None
        }
    }
}
