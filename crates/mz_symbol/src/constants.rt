// Constants: the symbols of par values.

ghost use Rattle.std.specs.Prelude.{◌≡◌};
ghost use Rattle.mz_operations.specs.Views.{number_of_bool};
ghost use Rattle.mz_symbol.specs.StepsConstants.{set_base};

use crate::run::Run;
use crate::types::Symbol;
use mz_arena::{Id, Node, NodeKind};
use mz_base::{Memory, Stop};
use mz_core::Base;
use mz_value::RangeSet;

impl Run {
    ghost use Rattle.std.specs.Prelude.{Some};
    ghost use Rattle.mz_value.specs.Contents as values;
    ghost use Rattle.mz_arena.specs.Values as terms;
    ghost use Rattle.mz_meaning.specs.Cells.{held};
    ghost use Rattle.mz_meaning.specs.Runs.{give};
    ghost use Rattle.mz_symbol.specs.Readings.{symbol_seen};
    ghost use Rattle.mz_symbol.specs.Makes.{GoesOn, Means};

    /// A truth value.
    pub fn truth(&mut self, b: bool) -> Result<Symbol, Stop>
        ensures goes { GoesOn self.old self.new }
        ensures means { Means symbol_seen result self.old self.new (λ r. give (held r.mode (Some (values.bool b)))) }
    {
        let term = self.truth_node(b)?;
        Ok(Symbol {
            base: Base::Bool,
            occurs: None,
            term,
        })
    }

    /// An integer. Out of memory too where it lies outside the limit.
    pub fn integer(&mut self, n: i64) -> Result<Symbol, Stop>
        ensures goes { GoesOn self.old self.new }
        ensures means { Means symbol_seen result self.old self.new (λ r. give (held r.mode (Some (values.int n)))) }
    {
        let term = self.number_node(n)?;
        Ok(Symbol {
            base: Base::Int,
            occurs: None,
            term,
        })
    }

    /// A case of the enum with this number; the first case has number 1.
    pub fn case(&mut self, e: u64, n: i64) -> Result<Symbol, Stop>
        ensures goes { GoesOn self.old self.new }
        ensures means { Means symbol_seen result self.old self.new (λ r. give (held r.mode (Some (values.case e n)))) }
    {
        let term = self.number_node(n)?;
        Ok(Symbol {
            base: Base::Enum(e),
            occurs: None,
            term,
        })
    }

    /// A set of integers, or of cases of the enum with this number.
    pub fn set(&mut self, of: Option<u64>, set: RangeSet) -> Result<Symbol, Stop>
        ensures goes { GoesOn self.old self.new }
        ensures means { Means symbol_seen result self.old self.new (λ r. give (held r.mode (Some (values.set of set)))) }
    {
        let base = set_base(of);
        let term = self.set_term(set)?;
        Ok(Symbol {
            base,
            occurs: None,
            term,
        })
    }

    /// The node of a truth value.
    pub fn truth_node(&mut self, b: bool) -> Result<Id, Stop>
        ensures goes { GoesOn self.old self.new }
        ensures means { Means (λ r. r.term) result self.old self.new (λ r. give (terms.bit b)) }
    {
        let n = Node {
            kind: NodeKind::Bool,
            a: 0,
            b: 0,
            c: 0,
            number: bit(b),
        };
        let id = self.node(&n)?;
        Ok(id)
    }

    /// The node of an integer or of a case.
    fn number_node(&mut self, n: i64) -> Result<Id, Stop>
        ensures goes { GoesOn self.old self.new }
        ensures means { Means (λ r. r.term) result self.old self.new (λ r. give (Some (terms.number n))) }
    {
        let n = Node {
            kind: NodeKind::Int,
            a: 0,
            b: 0,
            c: 0,
            number: n,
        };
        self.node(&n)
    }

    /// The node of a set.
    #[tactic(auto, using(crate::proofs::RunLaws::nodes_go, crate::proofs::ConstantLaws::set_means))]
    pub fn set_term(&mut self, set: RangeSet) -> Result<Id, Stop>
        ensures goes { GoesOn self.old self.new }
        ensures means { Means (λ r. r.term) result self.old self.new (λ r. give (Some (terms.set set))) }
    {
        match self.set_node(set) {
            Ok(id) => Ok(id),
            Err(Memory) => Err(Stop::Memory),
        }
    }
}

/// A truth value as a number.
fn bit(b: bool) -> i64
    ensures { result ≡ number_of_bool b }
{
    if b { 1 } else { 0 }
}

fn set_base(of: Option<u64>) -> Base
    ensures { result ≡ set_base of }
{
    match of {
        None => Base::SetInt,
        Some(e) => Base::SetEnum(e),
    }
}
