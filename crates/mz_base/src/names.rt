// The table of names: each text of the input is kept once, and named by its number.

ghost use Rattle.std.specs.Prelude.{◌≡◌, ◌<◌, ℕ, Some, [], length, IfSome, IfOk, OnErr};
ghost use Rattle.mz_base.specs.Names.{text_of, with_text, AreDistinct, Grows};

use crate::stop::Memory;
use indexmap::IndexSet;
use std::alloc::Global;
use std::marker::Model;

/// A text of a table, by its number there, from 0 in the order in which the texts were first met.
#[derive(Clone, Copy, Debug, PartialEq, Eq, Hash)]
pub struct Name {
    index: usize,
}

impl Model for Name {
    ghost use Rattle.std.specs.Prelude.{ℕ};

    ghost Value = { ℕ };

    ghost view = { λ n. n.index };

    ghost inverse = { λ i. record { index = i } };
}

/// The texts that are named so far, each once, in the order in which they were first met.
///
/// A name keeps its text: a table only grows.
#[derive(Drop)]
pub struct Names {
    texts: IndexSet<String>,
    alloc: Global,
}

impl Model for Names {
    ghost use Rattle.std.specs.Prelude.{List, ℕ, map};
    ghost use Rattle.std.specs.String.{string_bytes};
    ghost use Rattle.mz_base.specs.Names.{AreDistinct};

    ghost Value = { List (List ℕ) };

    ghost view = { λ t. map string_bytes t.texts.keys };

    ghost invariant = { λ t. AreDistinct (map string_bytes t.texts.keys) };
}

impl Names {
    /// A table with no texts.
    pub fn new(alloc: Global) -> Names
        ensures { result ≡ [] }
    {
        Names {
            texts: IndexSet::new(alloc),
            alloc,
        }
    }

    /// The name of a text, which is put last into the table where it isn't there yet.
    ///
    /// Equal texts have equal names, and different texts have different ones. After `Memory` the
    /// table is unchanged.
    pub fn intern(&mut self, text: &str) -> Result<Name, Memory>
        ensures named { IfOk result (λ n. text_of self.new n ≡ text.now) }
        ensures within { IfOk result (λ n. n < length self.new) }
        ensures texts { IfOk result (λ _. self.new ≡ with_text self.old text.now) }
        ensures distinct { AreDistinct self.new }
        ensures grows { Grows self.old self.new }
        ensures err { OnErr result (self.new ≡ self.old) }
    {
        if let Some(index) = self.texts.get_index_of(text) {
            return Ok(Name { index });
        }
        let own = String::from_str(self.alloc, text)?;
        let (index, _) = self.texts.insert_full(own)?;
        Ok(Name { index })
    }

    /// The name of a text that the table has, and None for any other text.
    pub fn find(&self, text: &str) -> Option<Name>
        ensures named { IfSome result (λ n. (n < length self.now) × (text_of self.now n ≡ text.now)) }
        ensures every { (n : ℕ) → n < length self.now → text_of self.now n ≡ text.now → result ≡ Some n }
        ensures distinct { AreDistinct self.now }
    {
        let index = self.texts.get_index_of(text)?;
        Some(Name { index })
    }

    /// The text of a name of this table.
    pub fn text(&self, n: Name) -> &str
        requires { n < length self.now }
        ensures { result.now ≡ text_of self.now n }
    {
        match self.texts.get_index(n.index) {
            Some(text) => text.as_str(),
            None => unreachable!(),
        }
    }
}
