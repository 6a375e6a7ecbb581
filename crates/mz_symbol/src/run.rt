// The run so far: work, weight and nodes.

ghost use Rattle.std.specs.Prelude.{◌≡◌, [], false};
ghost use Rattle.mz_arena.specs.Charges.{charge_of};
ghost use Rattle.mz_arena.specs.Entries.{is_free};

use crate::types::{Free, Line};
use mz_arena::{Arena, Id, Node};
use mz_base::{Fault, Kind, Memory, Span, Stop};
use mz_value::RangeSet;
use std::alloc::Global;
use std::collections::BTreeMap;
use std::marker::Model;

/// What an expansion has made so far: its work, its weight, nodes, choices, and the elements of var
/// arrays. It only grows.
#[derive(Drop)]
pub struct Run {
    pub(crate) alloc: Global,
    pub(crate) work: u64,
    pub(crate) weight: u64,
    /// Charges that work and weight have paid for, and that no node has taken yet.
    pub(crate) saved: u64,
    pub(crate) arena: Arena,
    pub(crate) choices: Vec<Free>,
    /// How many choice nodes the choices have.
    pub(crate) parts: u64,
    pub(crate) lines: Vec<Line>,
    /// Numbers of var arrays by keys of callers; no contract speaks of them.
    pub(crate) hints: BTreeMap<u64, u64>,
}

impl Model for Run {
    ghost use Rattle.mz_symbol.specs.Runs.{Run as PlainRun, IsCounted};

    ghost Value = { PlainRun };

    ghost view = { λ s. record { work = s.work; weight = s.weight; saved = s.saved; arena = s.arena; choices = s.choices.items; lines = s.lines.items } };

    ghost invariant = { λ s. IsCounted s.arena s.choices.items s.lines.items s.parts };
}

impl Run {
    ghost use Rattle.mz_meaning.specs.Runs as runs;
    ghost use Rattle.mz_meaning.specs.Runs.{give};
    ghost use Rattle.mz_symbol.specs.Runs.{IsRun};
    ghost use Rattle.mz_symbol.specs.Readings.{IsNodeOf, Reading, node_meaning, state_of};
    ghost use Rattle.mz_symbol.specs.Makes.{GoesOn, GoesOnBy, Earns, Means, MeansBare};
    ghost use Rattle.mz_symbol.specs.StepsNodes.{AddsNodes};
    ghost use Rattle.std.specs.Prelude.{IfOk, IfSome, true};
    ghost use Rattle.mz_arena.specs.Arenas.{IsChecked, IsConst, MadeAnew};

    /// Nothing is made yet.
    pub fn new(alloc: Global) -> Run
        ensures { result ≡ record { work = 0; weight = 0; saved = 0; arena = []; choices = []; lines = [] } }
    {
        Run::after(alloc, 0)
    }

    /// Nothing is made yet, and this much work is spent.
    #[tactic(auto, using(crate::proofs::RunLaws::nothing_counted))]
    pub fn after(alloc: Global, work: u64) -> Run
        ensures { result ≡ record { work = work; weight = 0; saved = 0; arena = []; choices = []; lines = [] } }
    {
        Run {
            alloc,
            work,
            weight: 0,
            saved: 0,
            arena: Arena::new(alloc),
            choices: Vec::new(alloc),
            parts: 0,
            lines: Vec::new(alloc),
            hints: BTreeMap::new(alloc),
        }
    }

    /// The work so far.
    pub fn work(&self) -> u64
        ensures { result ≡ self.now.work }
    {
        self.work
    }

    /// The nodes.
    pub fn arena(&self) -> &Arena
        ensures nodes { result.now ≡ self.now.arena }
        ensures sound { IsRun self.now }
    {
        &self.arena
    }

    /// The nodes for good; what else the run holds is dropped.
    pub fn into_arena(self) -> Arena
        ensures nodes { result ≡ self.arena }
        ensures sound { IsRun self }
    {
        let Run { arena, .. } = self;
        arena
    }

    /// The choices that were taken, in their order.
    pub fn choices(&self) -> &[Free]
        ensures { result.now ≡ self.now.choices }
    {
        &self.choices
    }

    /// More work, within the budget; else Budget at this place, with the budget and 1. Takes no
    /// memory.
    pub fn spend(&mut self, budget: u64, at: Span, n: u64) -> Result<(), Stop>
        ensures goes { GoesOn self.old self.new }
        ensures earns { IfOk result (λ _. Earns n self.old self.new) }
        ensures means { Means (λ _ _. tt) result self.old self.new (λ _. runs.spend budget at n) }
        ensures bare { MeansBare (λ _ _. tt) result self.old self.new (λ _. runs.spend budget at n) }
    {
        if budget < n || self.work > budget - n {
            return Err(Stop::Refused(Fault {
                kind: Kind::Budget,
                span: at,
                number: i128::from(budget) + 1,
            }));
        }
        self.work += n;
        Ok(())
    }

    /// More weight. Out of memory where it passes 2^64, and then nothing changes.
    pub fn weigh(&mut self, n: u64) -> Result<(), Stop>
        ensures goes { GoesOn self.old self.new }
        ensures earns { IfOk result (λ _. Earns n self.old self.new) }
        ensures means { Means (λ _ _. tt) result self.old self.new (λ r. runs.weigh r.mode n) }
    {
        if self.weight > u64::MAX - n {
            return Err(Stop::Memory);
        }
        self.weight += n;
        Ok(())
    }

    /// The id of a node. Out of memory where it may not be made too: where its children aren't of
    /// the sorts that its kind needs, or its bounds leave the limit.
    #[tactic(auto, using(crate::proofs::RunLaws::nodes_go, crate::proofs::RunLaws::node_means))]
    pub fn node(&mut self, n: &Node) -> Result<Id, Stop>
        requires { is_free n.now.kind ≡ false }
        ensures goes { GoesOnBy (charge_of n.now.kind) self.old self.new }
        ensures means { Means (λ r. r.term) result self.old self.new (λ r. give (node_meaning r n.now)) }
    {
        match self.checked(n)? {
            Some(id) => Ok(id),
            None => Err(Stop::Memory),
        }
    }

    /// The id of a node; None where it may not be made, as where its bounds leave the limit.
    #[tactic(auto, using(crate::proofs::RunLaws::nodes_go, crate::proofs::ChoiceLaws::adds_state))]
    pub fn tried(&mut self, n: &Node) -> Result<Option<Id>, Memory>
        requires { is_free n.now.kind ≡ false }
        ensures goes { GoesOnBy (charge_of n.now.kind) self.old self.new }
        ensures same { (r : Reading) → state_of r self.old ≡ state_of r self.new }
        ensures tried { IfOk result (λ o. IfSome o (IsNodeOf self.new n.now)) }
    {
        self.checked(n)
    }

    /// The id of a node, None where it may not be made; nothing else changes.
    #[tactic(auto, using(crate::proofs::RunLaws::counted_later))]
    pub(crate) fn checked(&mut self, n: &Node) -> Result<Option<Id>, Memory>
        ensures adds { AddsNodes (charge_of n.now.kind) self.old self.new }
        ensures checked { IfOk result (IsChecked self.old.arena self.new.arena n.now) }
        ensures anew { is_free n.now.kind ≡ true → IfOk result (λ r. IfSome r (MadeAnew self.old.arena self.new.arena n.now)) }
    {
        let made = self.arena.checked(*n);
        let _count = self.arena.len();
        made
    }

    /// The id of a SetConst with this set; nothing else changes.
    #[tactic(auto, using(crate::proofs::RunLaws::counted_later))]
    pub(crate) fn set_node(&mut self, set: RangeSet) -> Result<Id, Memory>
        ensures adds { AddsNodes 0 self.old self.new }
        ensures made { IfOk result (IsConst self.new.arena set) }
    {
        let made = self.arena.set_const(set);
        let _count = self.arena.len();
        made
    }
}
