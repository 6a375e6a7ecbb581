// Instances: what is left of a model when it has been walked.

ghost use Rattle.mz_arena.specs.FreeNodes.{TermsAreToldByFreeNodes};

use crate::arena::Arena;
use crate::node::Id;
use mz_base::Name;
use mz_value::{RangeSet, ShapeBase, Value};

/// One element of a variable.
#[derive(Drop)]
pub struct VarCell {
    /// The Boolean node that is 1 where an optional value is there. None for what is no option.
    pub occurs: Option<Id>,
    /// The node of its value.
    pub term: Id,
    /// The integers that it may be, cases by their numbers, false and true as 0 and 1; or the
    /// integers that a set may have.
    pub domain: RangeSet,
}

/// A variable of the model.
#[derive(Drop)]
pub struct ModelVar {
    /// Its name.
    pub name: Name,
    /// The least and the greatest index of each dimension, both inclusive; 1 and 0 where it has
    /// none. None for a scalar.
    pub index: Option<Vec<(i64, i64)>>,
    /// Whether its values may be absent.
    pub opt: bool,
    /// What its values are.
    pub base: ShapeBase,
    /// One element for each place of the index ranges, in row order; one for a scalar.
    pub cells: Vec<VarCell>,
}

/// The value of a par declaration.
#[derive(Drop)]
pub struct ParValue {
    /// The slot of the declared name.
    pub slot: u64,
    /// Its value.
    pub value: Value,
}

/// What is asked for.
#[derive(Clone, Copy)]
pub enum InstanceGoal {
    /// Any solution.
    Satisfy,
    /// One with the least value of this integer node.
    Minimize(Id),
    /// One with the greatest value of this integer node.
    Maximize(Id),
}

/// What is left of a model when it has been walked.
#[derive(Drop)]
pub struct Instance {
    /// The terms.
    pub arena: Arena,
    /// The variables, in the order in which their declarations are evaluated.
    pub vars: Vec<ModelVar>,
    /// The Boolean nodes that must be true.
    pub roots: Vec<Id>,
    /// What is asked for.
    pub goal: InstanceGoal,
    /// The values of the par declarations, in the order of evaluation.
    pub pars: Vec<ParValue>,
}

/// The law that two values which agree on the variables and the choices of an arena give each node
/// the same term.
pub fn terms_are_told_by_free_nodes()
    ensures { TermsAreToldByFreeNodes }
{}
