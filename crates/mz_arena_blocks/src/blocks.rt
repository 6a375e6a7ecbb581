// Lists that share their ends, with their first blocks.

ghost use Rattle.std.specs.Prelude.{◌≡◌, ◌<◌, [], ◌∷◌, ◌++◌, drop, take, map, length, IfOk, IfSome, MatchOption, OnErr, option_map};
ghost use Rattle.mz_arena_blocks.specs.Joins.{join_from, join_of_all};
ghost use Rattle.mz_arena_blocks.specs.Lists.{list_at};
ghost use Rattle.mz_arena_blocks.specs.Rows.{AreEqualBlocks, IsBlock, IsRow, IsStep};

use crate::join::Join;
use std::alloc::{AllocError, Global};
use std::marker::Model;

/// The first elements of a list.
#[derive(Drop)]
pub(crate) struct Block<T> {
    /// The place of the list after them.
    pub(crate) next: u64,
    /// How many they are, at least one.
    pub(crate) span: u64,
    /// What they have together.
    pub(crate) all: T,
}

/// A list with an element.
///
/// Its block is the first element alone, or, where the first two blocks of the rest are equally
/// long, the element with both. So a walk that takes the longest block that fits takes at most about
/// three times as many steps as the list's length has binary digits.
#[derive(Drop)]
pub(crate) struct Row<T> {
    pub(crate) head: T,
    /// The place of the rest.
    pub(crate) tail: u64,
    pub(crate) block: Block<T>,
}

/// Lists, each the empty one or an element before one of them, so that lists share their ends. They
/// only become more. What elements of a list have together is found without a walk over them.
///
/// Contracts see the lists by their places; the empty list is at 0.
#[derive(Drop)]
pub struct Blocks<T: Join> {
    rows: Vec<Row<T>>,
    alloc: Global,
}

impl<T: Join> Model for Blocks<T> {
    ghost use Rattle.std.specs.Prelude.{List};
    ghost use Rattle.mz_arena_blocks.specs.Lists.{lists_of};
    ghost use Rattle.mz_arena_blocks.specs.Rows.{AreRows};

    ghost Value = { List (List T) };

    ghost view = { λ s. lists_of s.rows.items };

    ghost invariant = { λ s. AreRows T.seen T.fits T.joined s.rows.items };
}

impl<T: Join> Blocks<T> {
    /// The empty list alone.
    pub fn new(alloc: Global) -> Blocks<T>
        ensures { result ≡ [] ∷ [] }
    {
        Blocks {
            rows: Vec::new(alloc),
            alloc,
        }
    }

    /// How many lists there are, the empty one among them.
    pub fn len(&self) -> u64
        ensures { result ≡ length self.now }
    {
        self.rows.len() as u64 + 1
    }

    /// A list with an element; `None` for the empty list.
    fn row(&self, list: u64) -> Option<&Row<T>>
        requires { list < length self.now }
        ensures { MatchOption result (list_at self.now list ≡ []) (λ r. IsRow T.seen T.fits T.joined self.now list (list_at self.now list) r.now) }
    {
        if list == 0 {
            None
        } else {
            Some(&self.rows[list as usize - 1])
        }
    }

    /// The first element of a list and the place of the rest; `None` for the empty list.
    pub fn split(&self, list: u64) -> Option<(&T, u64)>
        requires { list < length self.now }
        ensures parts { MatchOption result (list_at self.now list ≡ []) (λ p. list_at self.now list ≡ p.0.now ∷ list_at self.now p.1) }
        ensures smaller { IfSome result (λ p. p.1 < list) }
    {
        match self.row(list) {
            Some(row) => Some((&row.head, row.tail)),
            None => None,
        }
    }

    /// The first two blocks of a list, in their rows, where they are equally long.
    fn equal_blocks(&self, list: u64) -> Option<(&Row<T>, &Row<T>)>
        requires { list < length self.now }
        ensures { IfSome result (λ p. AreEqualBlocks T.seen T.fits T.joined self.now list p.0.now p.1.now) }
    {
        let first = self.row(list)?;
        let second = self.row(first.block.next)?;
        if first.block.span == second.block.span {
            Some((first, second))
        } else {
            None
        }
    }

    /// The first block of the list of an element before a list.
    fn first_block(&self, head: &T, tail: u64) -> Result<Block<T>, AllocError>
        requires tail { tail < length self.now }
        requires fits { T.fits (T.seen head.now) }
        ensures { IfOk result (λ b. IsBlock T.seen T.joined self.now (length self.now) (head.now ∷ list_at self.now tail) b.next b.span b.all) }
    {
        match self.equal_blocks(tail) {
            Some((first, second)) => {
                let two = head.join(self.alloc, &first.block.all)?;
                let all = two.join(self.alloc, &second.block.all)?;
                Ok(Block {
                    next: second.block.next,
                    span: 1 + (first.block.span + second.block.span),
                    all,
                })
            }
            None => {
                let all = head.copied(self.alloc)?;
                Ok(Block {
                    next: tail,
                    span: 1,
                    all,
                })
            }
        }
    }

    /// Adds the list of an element before a list, and gives its place. After an error there are the
    /// same lists.
    pub fn push(&mut self, head: T, tail: u64) -> Result<u64, AllocError>
        requires tail { tail < length self.old }
        requires fits { T.fits (T.seen head) }
        ensures place { IfOk result (λ place. place ≡ length self.old) }
        ensures pushed { IfOk result (λ place. self.new ≡ self.old ++ (head ∷ list_at self.old tail) ∷ []) }
        ensures err { OnErr result (self.new ≡ self.old) }
    {
        let block = self.first_block(&head, tail)?;
        let place = self.len();
        self.rows.push(Row { head, tail, block })?;
        Ok(place)
    }

    /// A block of at most this many elements, at least one: the list after it, how many they are, and
    /// what they have together; `None` for the empty list.
    fn step(&self, list: u64, left: u64) -> Option<(u64, u64, &T)>
        requires list { list < length self.now }
        requires some { 0 < left }
        ensures { MatchOption result (list_at self.now list ≡ []) (λ p. IsStep T.seen T.fits T.joined self.now list left p.0 p.1 p.2.now) }
    {
        let row = self.row(list)?;
        if row.block.span <= left {
            Some((row.block.next, row.block.span, &row.block.all))
        } else {
            Some((row.tail, 1, &row.head))
        }
    }

    /// The place of the list without this many of its first elements.
    pub fn skip(&self, list: u64, count: u64) -> u64
        requires { list < length self.now }
        ensures within { result < length self.now }
        ensures rest { list_at self.now result ≡ drop count (list_at self.now list) }
    {
        let mut at = list;
        let mut left = count;
        while left > 0 {
            match self.step(at, left) {
                Some((next, span, _)) => {
                    at = next;
                    left -= span;
                }
                None => return at,
            }
        }
        at
    }

    /// What this many first elements of a list have together, or all where there are fewer; `None`
    /// where there are none.
    pub fn joined_first(&self, list: u64, count: u64) -> Result<Option<T>, AllocError>
        requires { list < length self.now }
        ensures { IfOk result (λ r. option_map T.seen r ≡ join_of_all T.joined (map T.seen (take count (list_at self.now list)))) }
    {
        if count == 0 {
            return Ok(None);
        }
        let Some((next, span, all)) = self.step(list, count) else {
            return Ok(None);
        };
        let acc = all.copied(self.alloc)?;
        let joined = self.joined_from(acc, next, count - span)?;
        Ok(Some(joined))
    }

    /// What an element and this many first elements of a list have together.
    pub fn joined_from(&self, first: T, list: u64, count: u64) -> Result<T, AllocError>
        requires list { list < length self.now }
        requires fits { T.fits (T.seen first) }
        ensures fits { IfOk result (λ r. T.fits (T.seen r)) }
        ensures together { IfOk result (λ r. T.seen r ≡ join_from T.joined (T.seen first) (map T.seen (take count (list_at self.now list)))) }
    {
        let mut acc = first;
        let mut at = list;
        let mut left = count;
        while left > 0 {
            match self.step(at, left) {
                Some((next, span, all)) => {
                    acc = acc.join(self.alloc, all)?;
                    at = next;
                    left -= span;
                }
                None => return Ok(acc),
            }
        }
        Ok(acc)
    }

    /// What the elements of a part of a list have together: of this many, or of all where there are
    /// fewer, after the first that are skipped; `None` where there are none.
    pub fn joined_between(
        &self,
        list: u64,
        skipped: u64,
        count: u64,
    ) -> Result<Option<T>, AllocError>
        requires { list < length self.now }
        ensures { IfOk result (λ r. option_map T.seen r ≡ join_of_all T.joined (map T.seen (take count (drop skipped (list_at self.now list))))) }
    {
        let start = self.skip(list, skipped);
        let joined = self.joined_first(start, count)?;
        Ok(joined)
    }
}
