// The elements of var arrays, beside the nodes that they are.

ghost use Rattle.std.specs.Prelude.{◌≡◌, slice_get};

use crate::run::Run;
use crate::types::{Line, Listing, Symbol};
use mz_arena::Id;
use mz_base::{Memory, Stop};

impl Run {
    ghost use Rattle.std.specs.Prelude.{◌≡◌, ◌*◌, ◌++◌, ◌∷◌, [], ℕ, None, Some, IfOk, MatchOption, OnErr, OnOk, length, option_map, slice_get};
    ghost use Rattle.mz_arena.specs.Values.{Term};
    ghost use Rattle.mz_meaning.specs.Runs.{give};
    ghost use Rattle.mz_symbol.specs.Symbols.{AreWhole, IsLine, elements_value};
    ghost use Rattle.mz_symbol.specs.Runs.{IsRun, ReadsNodes};
    ghost use Rattle.mz_symbol.specs.Makes.{GoesOnBy, Means};
    ghost use Rattle.mz_symbol.specs.Lines.{IsElement, element_in};
    ghost use Rattle.mz_symbol.specs.StepsLines.{IsLined};

    /// Keeps the elements of a var array, and gives the array's number.
    ///
    /// `defined` is the Boolean node that is 1 where the array is defined, and there each element's
    /// nodes have values, those of an absent one too.
    #[tactic(auto, using(crate::proofs::LineLaws::lined_goes, crate::proofs::LineLaws::lined_means))]
    pub fn push_line(&mut self, defined: Id, items: Vec<Symbol>) -> Result<u64, Stop>
        requires { (t : ℕ → Term) → ReadsNodes t self.old.arena → AreWhole t defined items.items }
        ensures goes { GoesOnBy (16 * length items.items) self.old self.new }
        ensures means { Means (λ r. r.line) result self.old self.new (λ r. give (elements_value r.term defined items.items)) }
    {
        let line = Line {
            defined,
            items,
            listing: Listing::Wanted,
        };
        let number = self.keep(line)?;
        Ok(number)
    }

    /// Keeps a line, the last, and gives its number.
    fn keep(&mut self, line: Line) -> Result<u64, Memory>
        requires { (t : ℕ → Term) → ReadsNodes t self.old.arena → IsLine t line }
        ensures kept { OnOk result (IsLined self.old self.new line) }
        ensures number { IfOk result (λ k. k ≡ length self.old.lines) }
        ensures err { OnErr result (self.new ≡ self.old) }
    {
        let number = self.lines.len() as u64;
        self.lines.push(line)?;
        Ok(number)
    }

    /// A var array by its number; None where there is none.
    pub fn line(&self, line: u64) -> Option<&Line>
        ensures line { option_map (λ l. l.now) result ≡ slice_get self.now.lines line }
        ensures sound { IsRun self.now }
    {
        self.lines.get(line as usize)
    }

    /// An element of a var array, from 0; None where there is no such array or element. It has the
    /// element's value where the array is defined.
    #[tactic(auto, using(crate::proofs::LineLaws::element_read))]
    pub fn element(&self, line: u64, place: u64) -> Option<Symbol>
        ensures { MatchOption result (element_in self.now.lines line place ≡ None) (IsElement self.now line place) }
    {
        let Some(l) = self.line(line) else {
            return None;
        };
        match item(&l.items, place) {
            None => None,
            Some(s) => Some(s),
        }
    }
}

fn item(items: &[Symbol], place: u64) -> Option<Symbol>
    ensures { result ≡ slice_get items.now place }
{
    match items.get(place as usize) {
        None => None,
        Some(s) => Some(*s),
    }
}
