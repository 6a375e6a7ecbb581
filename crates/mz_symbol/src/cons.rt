// The Cons lists of the elements of var arrays. They are made once for an array, and kept with it.

ghost use Rattle.std.specs.Prelude.{◌≡◌, IfOk};
ghost use Rattle.mz_symbol.specs.Symbols.{HaveBase};
ghost use Rattle.mz_symbol.specs.StepsCons.{all_alike, all_plain, is_alike};

use crate::run::Run;
use crate::types::{Listing, Lists, Symbol};
use mz_arena::{Id, Node, NodeKind};
use mz_base::Memory;
use mz_core::Base;

/// What a list has of each element.
#[derive(Clone, Copy)]
pub(crate) enum ListOf {
    /// The node of its value.
    Values,
    /// The Boolean node that is 1 where it is there; of what is no option the constant 1.
    Occurrences,
}

/// Whether none is an option.
fn are_plain(items: &[Symbol]) -> bool
    ensures { result ≡ all_plain items.now }
{
    items.iter().all(|s| s.occurs.is_none())
}

fn is_alike(a: Base, b: Base) -> bool
    ensures { result ≡ is_alike a b }
{
    match a {
        Base::Bool => match b {
            Base::Bool => true,
            _ => false,
        },
        Base::Int => match b {
            Base::Int => true,
            _ => false,
        },
        Base::Enum(d) => match b {
            Base::Enum(e) => d == e,
            _ => false,
        },
        Base::SetInt => match b {
            Base::SetInt => true,
            _ => false,
        },
        Base::SetEnum(d) => match b {
            Base::SetEnum(e) => d == e,
            _ => false,
        },
        _ => false,
    }
}

fn are_alike(items: &[Symbol], base: Base) -> bool
    ensures { result ≡ all_alike base items.now }
{
    items.iter().all(|s| is_alike(s.base, base))
}

/// What all elements are.
#[tactic(auto, using(crate::proofs::ConsLaws::alike_items))]
fn base_of(items: &[Symbol]) -> Result<Base, Memory>
    ensures { IfOk result (λ b. HaveBase b items.now) }
{
    let base = first_base(items);
    if are_alike(items, base) {
        Ok(base)
    } else {
        Err(Memory)
    }
}

fn first_base(items: &[Symbol]) -> Base {
    match items.first() {
        Some(s) => s.base,
        None => Base::Int,
    }
}

impl Run {
    ghost use Rattle.std.specs.Prelude.{◌≡◌, ◌<◌, ◌*◌, ℕ, true, false, Some, IfOk, MatchOption, None, length, map, slice_get};
    ghost use Rattle.mz_arena.specs.Charges.{charge_of};
    ghost use Rattle.mz_arena.specs.Entries.{entry, children, is_free};
    ghost use Rattle.mz_arena.specs.Terms.{node_term};
    ghost use Rattle.mz_arena.specs.Values.{Term, empty, bit, cons_term};
    ghost use Rattle.mz_symbol.specs.declared.types.Listing.TheVariants as listing;
    ghost use Rattle.mz_symbol.specs.Symbols.{ArePlain, HaveBase, IsListing};
    ghost use Rattle.mz_symbol.specs.Runs.{ReadsNodes};
    ghost use Rattle.mz_symbol.specs.Readings.{Reading, no_values, state_of};
    ghost use Rattle.mz_symbol.specs.Makes.{GoesOn};
    ghost use Rattle.mz_symbol.specs.Lines.{HasLists};
    ghost use Rattle.mz_symbol.specs.StepsNodes.{AddsNodes};
    ghost use Rattle.mz_symbol.specs.StepsCons.{items_at, part_of, AreListsOf, IsListOf, IsListed, IsMarked, IsOneMore};

    /// The Cons lists of an array's elements, which the first call for the array makes.
    ///
    /// What they may cost was counted where the array was kept. Out of memory too where there is no
    /// such array, where memory ran out when they were made, and where the elements aren't all of one
    /// base.
    pub fn lists(&mut self, line: u64) -> Result<Lists, Memory>
        ensures goes { GoesOn self.old self.new }
        ensures same { (r : Reading) → state_of r self.old ≡ state_of r self.new }
        ensures lists { IfOk result (HasLists self.new line) }
    {
        let Some(known) = self.listing(line) else {
            return Err(Memory);
        };
        match known {
            Listing::Made(lists) => Ok(lists),
            Listing::Begun => Err(Memory),
            Listing::Wanted => self.make_lists(line),
        }
    }

    /// How far the lists of an array are made; None where there is no such array.
    fn listing(&self, line: u64) -> Option<Listing>
        ensures { MatchOption result (slice_get self.now.lines line ≡ None) (IsListed self.now line) }
    {
        match self.line(line) {
            Some(l) => Some(l.listing),
            None => None,
        }
    }

    /// Makes the lists of an array that has none.
    fn make_lists(&mut self, line: u64) -> Result<Lists, Memory>
        requires { IsListed self.old line listing.Wanted }
        ensures goes { GoesOn self.old self.new }
        ensures same { (r : Reading) → state_of r self.old ≡ state_of r self.new }
        ensures lists { IfOk result (HasLists self.new line) }
    {
        self.mark(line, Listing::Begun);
        let lists = self.both_lists(line)?;
        self.mark(line, Listing::Made(lists));
        Ok(lists)
    }

    /// Notes how far the lists of an array are made.
    fn mark(&mut self, line: u64, listing: Listing)
        requires there { line < length self.old.lines }
        requires listed { (t : ℕ → Term) → ReadsNodes t self.old.arena → IsListing t (items_at self.old line) listing }
        ensures { IsMarked self.old self.new line listing }
    {
        self.lines[line as usize].listing = listing;
    }

    /// The lists of an array's elements; the second only where one is an option.
    fn both_lists(&mut self, line: u64) -> Result<Lists, Memory>
        ensures adds { AddsNodes (16 * length (items_at self.old line)) self.old self.new }
        ensures lists { IfOk result (AreListsOf self.new (items_at self.old line)) }
    {
        let base = self.item_base(line)?;
        let terms = self.list_of(line, ListOf::Values)?;
        if self.is_plain(line) {
            return Ok(Lists {
                base,
                terms,
                occurs: None,
            });
        }
        let there = self.list_of(line, ListOf::Occurrences)?;
        Ok(Lists {
            base,
            terms,
            occurs: Some(there),
        })
    }

    /// The list of what each element has.
    fn list_of(&mut self, line: u64, of: ListOf) -> Result<Id, Memory>
        ensures adds { AddsNodes (8 * length (items_at self.old line)) self.old self.new }
        ensures listed { IfOk result (IsListOf self.new.arena of (items_at self.old line)) }
    {
        let count = self.item_count(line);
        let mut list = self.empty_list()?;
        for i in 0..count {
            list = self.one_more(line, count - 1 - i, of, list)?;
        }
        Ok(list)
    }

    /// A list with what the element at this place has before the rest.
    fn one_more(&mut self, line: u64, place: u64, of: ListOf, rest: Id) -> Result<Id, Memory>
        ensures adds { AddsNodes 8 self.old self.new }
        ensures more { IfOk result (IsOneMore self.old self.new line place of rest) }
    {
        let item = self.item_at(line, place)?;
        let head = self.part_node(of, item)?;
        let list = self.linked(head, rest)?;
        Ok(list)
    }

    /// How many elements an array has; 0 where there is none.
    fn item_count(&self, line: u64) -> u64
        ensures { result ≡ length (items_at self.now line) }
    {
        match self.line(line) {
            Some(l) => l.items.len() as u64,
            None => 0,
        }
    }

    /// What all elements of an array are.
    fn item_base(&self, line: u64) -> Result<Base, Memory>
        ensures { IfOk result (λ b. HaveBase b (items_at self.now line)) }
    {
        match self.line(line) {
            Some(l) => base_of(&l.items),
            None => Err(Memory),
        }
    }

    /// Whether no element of an array is an option.
    fn is_plain(&self, line: u64) -> bool
        ensures { result ≡ true → ArePlain (items_at self.now line) }
    {
        match self.line(line) {
            Some(l) => are_plain(&l.items),
            None => true,
        }
    }

    fn item_at(&self, line: u64, place: u64) -> Result<Symbol, Memory>
        ensures { IfOk result (λ y. slice_get (items_at self.now line) place ≡ Some y) }
    {
        match self.element(line, place) {
            Some(s) => Ok(s),
            None => Err(Memory),
        }
    }

    fn part_node(&mut self, of: ListOf, item: Symbol) -> Result<Id, Memory>
        ensures adds { AddsNodes 0 self.old self.new }
        ensures part { IfOk result (λ id. (t : ℕ → Term) → ReadsNodes t self.new.arena → t id ≡ part_of of t item) }
    {
        let yes = self.yes()?;
        match of {
            ListOf::Values => Ok(item.term),
            ListOf::Occurrences => match item.occurs {
                Some(o) => Ok(o),
                None => Ok(yes),
            },
        }
    }

    fn yes(&mut self) -> Result<Id, Memory>
        ensures adds { AddsNodes 0 self.old self.new }
        ensures is { IfOk result (λ id. (t : ℕ → Term) → ReadsNodes t self.new.arena → t id ≡ bit true) }
    {
        let n = Node {
            kind: NodeKind::Bool,
            a: 0,
            b: 0,
            c: 0,
            number: 1,
        };
        let id = self.put(&n)?;
        Ok(id)
    }

    fn empty_list(&mut self) -> Result<Id, Memory>
        ensures adds { AddsNodes 0 self.old self.new }
        ensures is { IfOk result (λ id. (t : ℕ → Term) → ReadsNodes t self.new.arena → t id ≡ Some empty) }
    {
        let n = Node {
            kind: NodeKind::Nil,
            a: 0,
            b: 0,
            c: 0,
            number: 0,
        };
        let id = self.put(&n)?;
        Ok(id)
    }

    fn linked(&mut self, head: Id, rest: Id) -> Result<Id, Memory>
        ensures adds { AddsNodes 8 self.old self.new }
        ensures is { IfOk result (λ id. (t : ℕ → Term) → ReadsNodes t self.new.arena → t id ≡ cons_term (t head) (t rest)) }
    {
        let n = Node {
            kind: NodeKind::Cons,
            a: head,
            b: rest,
            c: 0,
            number: 0,
        };
        let id = self.put(&n)?;
        Ok(id)
    }

    /// The id of a node. Out of memory too where it may not be made.
    #[tactic(auto, using(crate::proofs::ConsLaws::put_means))]
    fn put(&mut self, n: &Node) -> Result<Id, Memory>
        requires { is_free n.now.kind ≡ false }
        ensures adds { AddsNodes (charge_of n.now.kind) self.old self.new }
        ensures means { IfOk result (λ id. (t : ℕ → Term) → ReadsNodes t self.new.arena → t id ≡ node_term no_values (entry n.now) (map t (children n.now))) }
    {
        match self.checked(n)? {
            Some(id) => Ok(id),
            None => Err(Memory),
        }
    }
}
