// The names of a program, looked up by a table, and whether one stands twice.

ghost use Rattle.std.specs.Prelude.{◌≡◌, [], map, not, position, IfOk};
ghost use Rattle.std.specs.Str.{bytes_eq};
ghost use Rattle.fz_items.specs.Gives.{Gives};
ghost use Rattle.fz_program.specs.Flat.{array_item, array_labels, labels_of, variable};
ghost use Rattle.fz_text_read.specs.Tables.{Adds, Named, is_among, named_items, named_variables, with_text};

use fz_items::Miss;
use fz_program::{FzArray, FzVar};
use indexmap::IndexSet;
use std::alloc::{AllocError, Global};
use std::marker::Model;

/// Names, each once, in the order in which they were added.
#[derive(Drop)]
pub(crate) struct NameTable<'a> {
    names: IndexSet<&'a str>,
}

impl<'a> Model for NameTable<'a> {
    ghost use Rattle.std.specs.Prelude.{List, ℕ, map};

    ghost Value = { List (List ℕ) };

    ghost view = { λ t. map (λ b. b.now) t.names.keys };
}

impl<'a> NameTable<'a> {
    fn new(alloc: Global) -> NameTable<'a>
        ensures { result ≡ [] }
    {
        NameTable {
            names: IndexSet::new(alloc),
        }
    }

    /// The place of a name, from 0.
    pub(crate) fn place(&self, name: &'a str) -> Option<usize>
        ensures { result ≡ position (bytes_eq name.now) self.now }
    {
        self.names.get_index_of(&name)
    }

    /// Puts a name last, where it doesn't stand yet, and says whether it was new.
    fn declare(&mut self, name: &'a str) -> Result<bool, AllocError>
        ensures new { IfOk result (λ new. new ≡ not (is_among self.old name.now)) }
        ensures names { IfOk result (λ new. self.new ≡ with_text self.old name.now) }
    {
        let (_, new) = self.names.insert_full(name)?;
        Ok(new)
    }

    /// Puts a name last, where it doesn't stand yet.
    #[tactic(auto, using(crate::proofs::NameLoops::put_last, crate::proofs::NameLoops::stands_there))]
    fn add(&mut self, name: &'a str) -> Result<(), Miss>
        ensures { Adds self.old self.new name.now result }
    {
        if self.declare(name)? {
            Ok(())
        } else {
            Err(Miss::Unfit)
        }
    }

    /// Puts the variables' names last, where none stands twice.
    fn add_variables(&mut self, vars: &'a [FzVar]) -> Result<(), Miss>
        ensures { Named self.old self.new (labels_of (map variable vars.now)) result }
    {
        for v in vars {
            match self.add(v.label.text.as_str()) {
                Ok(()) => {}
                Err(miss) => return Err(miss),
            }
        }
        Ok(())
    }

    /// The same of the arrays' names.
    fn add_arrays(&mut self, arrays: &'a [FzArray]) -> Result<(), Miss>
        ensures { Named self.old self.new (array_labels (map array_item arrays.now)) result }
    {
        for a in arrays {
            match self.add(a.label.text.as_str()) {
                Ok(()) => {}
                Err(miss) => return Err(miss),
            }
        }
        Ok(())
    }
}

/// The table of the variables' names, where none stands twice.
#[tactic(auto, using(crate::proofs::NameLoops::named_some, crate::proofs::NameLoops::named_none))]
pub(crate) fn table_of<'a>(alloc: Global, vars: &'a [FzVar]) -> Result<NameTable<'a>, Miss>
    ensures { Gives (λ t. t) result (named_variables (map variable vars.now)) }
{
    let mut table = NameTable::new(alloc);
    given!(table.add_variables(vars));
    Ok(table)
}

/// That no name stands twice, of a variable or an array.
#[tactic(auto, using(crate::proofs::NameLoops::once_all, crate::proofs::NameLoops::once_none))]
pub(crate) fn names_once<'a>(
    alloc: Global,
    vars: &'a [FzVar],
    arrays: &'a [FzArray],
) -> Result<(), Miss>
    ensures { Gives (λ t. t) result (named_items (map variable vars.now) (map array_item arrays.now)) }
{
    let mut table = NameTable::new(alloc);
    given!(table.add_variables(vars));
    table.add_arrays(arrays)
}
