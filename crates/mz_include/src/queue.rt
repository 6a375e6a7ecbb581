// The files that were named so far.

ghost use Rattle.std.specs.Prelude.{◌≡◌, [], slice_get, OnOk, OnErr};
ghost use Rattle.mz_include.specs.Views.{with_code_mention};

use indexmap::IndexMap;
use mz_base::{Memory, Name, Span};
use std::alloc::Global;
use std::marker::Model;

/// That a file is named: the name under which it is fetched, where it is named, and the name of
/// the file that stands there.
#[derive(Clone, Copy, Debug)]
pub struct Mention {
    pub name: Name,
    pub span: Span,
    pub owner: Name,
}

/// Where a file was first named.
#[derive(Clone, Copy, Debug)]
struct Place {
    span: Span,
    owner: Name,
}

/// The first mention of each name, in order. A name is looked up in a hashed table.
#[derive(Drop)]
pub struct Queue {
    places: IndexMap<Name, Place>,
}

impl Model for Queue {
    ghost use Rattle.std.specs.Prelude.{List, map};
    ghost use Rattle.mz_include.specs.declared.queue.Mention.{Mention};

    ghost Value = { List Mention };

    ghost view = { λ q. map (λ e. record { name = e.0; span = e.1.span; owner = e.1.owner }) q.places.entries };
}

impl Queue {
    /// A queue in which no file is named.
    pub fn new(alloc: Global) -> Queue
        ensures { result ≡ [] }
    {
        Queue {
            places: IndexMap::new(alloc),
        }
    }

    /// Puts a mention last, where its name is new. After `Memory` the queue is unchanged.
    pub fn add(&mut self, mention: Mention) -> Result<(), Memory>
        ensures added { OnOk result (self.new ≡ with_code_mention self.old mention) }
        ensures err { OnErr result (self.new ≡ self.old) }
    {
        if self.places.contains_key(&mention.name) {
            return Ok(());
        }
        let place = Place {
            span: mention.span,
            owner: mention.owner,
        };
        self.places.insert(mention.name, place)?;
        Ok(())
    }

    /// The first mention of the name whose turn it is, from 0.
    pub fn get(&self, turn: usize) -> Option<Mention>
        ensures { result ≡ slice_get self.now turn }
    {
        let (name, place) = self.places.get_index(turn)?;
        Some(Mention {
            name: *name,
            span: place.span,
            owner: place.owner,
        })
    }
}
