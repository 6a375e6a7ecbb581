// An instance that is being made.

use mz_arena::{Arena, Id, Instance, InstanceGoal, ModelVar, Node};
use mz_base::{Memory, Names};
use std::alloc::Global;

/// A word that stands for a node.
#[derive(Drop)]
pub struct Label {
    text: String,
    id: Id,
}

/// An instance, the names of its variables, and the words that stand for its nodes.
#[derive(Drop)]
pub struct Draft {
    /// The terms.
    pub arena: Arena,
    /// The table of names.
    pub names: Names,
    /// The variables so far.
    pub vars: Vec<ModelVar>,
    /// Their names as texts.
    pub texts: Vec<String>,
    /// The words that stand for nodes.
    pub labels: Vec<Label>,
    /// How many parts the variables have.
    pub parts: u64,
    /// How many choices there are.
    pub choices: u64,
    /// The roots.
    pub roots: Vec<Id>,
    /// What is asked for.
    pub goal: InstanceGoal,
}

impl Draft {
    /// An instance without a variable and without a root.
    pub fn new(alloc: Global) -> Draft {
        Draft {
            arena: Arena::new(alloc),
            names: Names::new(alloc),
            vars: Vec::new(alloc),
            texts: Vec::new(alloc),
            labels: Vec::new(alloc),
            parts: 0,
            choices: 0,
            roots: Vec::new(alloc),
            goal: InstanceGoal::Satisfy,
        }
    }

    /// The node that a word stands for.
    pub fn labelled(&self, word: &str) -> Option<Id> {
        for label in &self.labels {
            if label.text.as_str() == word {
                return Some(label.id);
            }
        }
        None
    }

    /// Lets a word stand for a node.
    pub fn label(&mut self, text: String, id: Id) -> Result<(), Memory> {
        self.labels.push(Label { text, id })?;
        Ok(())
    }

    /// The id of a node, where it may be made.
    pub fn node(&mut self, n: Node) -> Result<Option<Id>, Memory> {
        self.arena.checked(n)
    }

    /// The number that the next node has for its own.
    pub fn own(&self) -> i64 {
        match i64::try_from(self.arena.len()) {
            Ok(n) => n,
            Err(_) => 0,
        }
    }
}
