// Choices: the one way by which a choice node is made.

ghost use Rattle.std.specs.Prelude.{◌≡◌, ◌≢◌, ◌≤ℤ◌, [], true, false, pos, nat_abs, length};
ghost use Rattle.mz_symbol.specs.Symbols.{symbol_ids};
ghost use Rattle.mz_instance.specs.Parts.{is_subset_sort, sort_of, truths, Truth};
ghost use Rattle.mz_symbol.specs.Choices.{is_shape, IsChoosable};
ghost use Rattle.mz_symbol.specs.StepsChoices.{choice_domain, IsPartNode};

use crate::run::Run;
use crate::types::{Free, Symbol};
use mz_arena::{Id, Node, NodeKind};
use mz_base::{Memory, Stop};
use mz_core::Base;
use mz_value::RangeSet;

/// Whether a single value may be of this base.
fn is_shape(base: Base) -> bool
    ensures { result ≡ is_shape base }
{
    match base {
        Base::Bool => true,
        Base::Int => true,
        Base::Enum(_) => true,
        Base::SetInt => true,
        Base::SetEnum(_) => true,
        _ => false,
    }
}

/// Whether a set is that of false and true.
fn is_truths(set: &RangeSet) -> bool
    ensures { result ≡ true → set.now ≡ truths }
{
    let ranges = set.ranges();
    if ranges.len() == 1 {
        ranges[0].0 == 0 && ranges[0].1 == 1
    } else {
        false
    }
}

/// Whether a truth value may be false and true.
fn suits_truth(base: Base, set: &RangeSet) -> bool
    ensures { result ≡ true → sort_of base ≡ Truth → set.now ≡ truths }
{
    match base {
        Base::Bool => is_truths(set),
        _ => true,
    }
}

/// Whether there is some value, and no option is of a set.
fn suits_sort(base: Base, opt: bool, set: &RangeSet) -> bool
    ensures allowed { result ≡ true → opt ≡ true → is_subset_sort (sort_of base) ≡ false }
    ensures some { result ≡ true → is_subset_sort (sort_of base) ≡ false → set.now ≢ [] }
{
    match base {
        Base::SetInt => !opt,
        Base::SetEnum(_) => !opt,
        _ => !set.ranges().is_empty(),
    }
}

/// Whether a choice may be taken from a domain.
#[tactic(auto, using(crate::proofs::ChoiceLaws::choosable))]
fn may_be_taken(base: Base, opt: bool, set: &RangeSet) -> bool
    ensures { result ≡ true → IsChoosable (choice_domain base opt set.now) }
{
    let _canonical = set.ranges();
    if !is_shape(base) {
        return false;
    }
    if !suits_truth(base, set) {
        return false;
    }
    suits_sort(base, opt, set)
}

/// The node of a choice of this base, over a SetConst, with its number and its own id.
fn local_node(base: Base, over: Id, number: u64, own: i64) -> Node
    requires { pos 0 ≤ℤ own }
    ensures { IsPartNode true base over number (nat_abs own) result }
{
    let (kind, mark) = match base {
        Base::Bool => (NodeKind::Local, 1),
        Base::SetInt => (NodeKind::SetLocal, 0),
        Base::SetEnum(_) => (NodeKind::SetLocal, 0),
        _ => (NodeKind::Local, 0),
    };
    Node {
        kind,
        a: over,
        b: number,
        c: mark,
        number: own,
    }
}

/// The node of a variable of this base, over a SetConst, with its number and its own id.
fn var_node(base: Base, over: Id, number: u64, own: i64) -> Node
    requires { pos 0 ≤ℤ own }
    ensures { IsPartNode false base over number (nat_abs own) result }
{
    let (kind, mark) = match base {
        Base::Bool => (NodeKind::Var, 1),
        Base::SetInt => (NodeKind::SetVar, 0),
        Base::SetEnum(_) => (NodeKind::SetVar, 0),
        _ => (NodeKind::Var, 0),
    };
    Node {
        kind,
        a: over,
        b: number,
        c: mark,
        number: own,
    }
}

fn part_node(choice: bool, base: Base, over: Id, number: u64, own: i64) -> Node
    requires { pos 0 ≤ℤ own }
    ensures { IsPartNode choice base over number (nat_abs own) result }
{
    if choice {
        local_node(base, over, number, own)
    } else {
        var_node(base, over, number, own)
    }
}

/// How many choice nodes a symbol has.
fn id_count(symbol: Symbol) -> u64
    ensures { result ≡ length (symbol_ids symbol) }
{
    match symbol.occurs {
        None => 1,
        Some(_) => 2,
    }
}

impl Run {
    ghost use Rattle.std.specs.Prelude.{◌≡◌, ◌+◌, [], ◌∷◌, IfOk, OnOk, OnErr, length, true};
    ghost use Rattle.mz_meaning.specs.Cells.{held};
    ghost use Rattle.mz_meaning.specs.Lets.{choice_at};
    ghost use Rattle.mz_meaning.specs.Runs as runs;
    ghost use Rattle.mz_meaning.specs.Runs.{noted};
    ghost use Rattle.mz_instance.specs.Parts.{IsNode, AreNodes};
    ghost use Rattle.mz_symbol.specs.Choices.{domain_parts, IsChoosable};
    ghost use Rattle.mz_symbol.specs.Symbols.{domain_of, free_ids, symbol_ids, IsSymbolOf};
    ghost use Rattle.mz_arena.specs.Arenas.{Grew};
    ghost use Rattle.mz_symbol.specs.Readings.{Reading, state_of, symbol_seen};
    ghost use Rattle.mz_symbol.specs.Makes.{GoesOnBy, Means};
    ghost use Rattle.mz_symbol.specs.StepsNodes.{AddsNodes};
    ghost use Rattle.mz_symbol.specs.StepsChoices.{choice_domain, part_over, free_of, IsNoted};

    /// A choice from this domain, the next one. Its nodes are made here, and no other function
    /// makes such nodes.
    ///
    /// Out of memory too where no choice may be taken from the domain: a truth value is false or
    /// true, no option is of a set, and what is no set has some value. So also after memory ran out
    /// between a choice node and its choice.
    #[tactic(auto, using(crate::proofs::ChoiceLaws::takes, crate::proofs::ChoiceLaws::takes_nothing, crate::proofs::ChoiceLaws::take_nodes, crate::proofs::ChoiceLaws::take_domain, crate::proofs::ChoiceLaws::take_means))]
    pub fn take(&mut self, base: Base, opt: bool, set: &RangeSet) -> Result<Symbol, Stop>
        ensures goes { GoesOnBy 8 self.old self.new }
        ensures means { Means symbol_seen result self.old self.new (λ r s. runs.Out (held r.mode (choice_at r.mode (length s.taken))) (noted r.mode (choice_domain base opt set.now ∷ []) 0 s)) }
    {
        if !may_be_taken(base, opt, set) {
            return Err(Stop::Memory);
        }
        let symbol = self.made(base, opt, set)?;
        self.note(symbol, set)?;
        Ok(symbol)
    }

    /// The symbol of the next choice.
    #[tactic(auto, using(crate::proofs::ChoiceLaws::adds_most))]
    fn made(&mut self, base: Base, opt: bool, set: &RangeSet) -> Result<Symbol, Memory>
        ensures adds { AddsNodes 8 self.old self.new }
        ensures made { IfOk result (IsSymbolOf self.new.arena true (length (free_ids self.old.choices)) (choice_domain base opt set.now)) }
    {
        if opt {
            self.made_option(base, set)
        } else {
            let term = self.local(base, set, 0)?;
            Ok(Symbol {
                base,
                occurs: None,
                term,
            })
        }
    }

    #[tactic(auto, using(crate::proofs::ChoiceLaws::adds_both, crate::proofs::ChoiceLaws::adds_most))]
    fn made_option(&mut self, base: Base, set: &RangeSet) -> Result<Symbol, Memory>
        ensures adds { AddsNodes 8 self.old self.new }
        ensures made { IfOk result (IsSymbolOf self.new.arena true (length (free_ids self.old.choices)) (choice_domain base true set.now)) }
    {
        let both = RangeSet::range(self.alloc, 0, 1)?;
        let occurs = self.local(Base::Bool, &both, 0)?;
        let term = self.local(base, set, 1)?;
        Ok(Symbol {
            base,
            occurs: Some(occurs),
            term,
        })
    }

    /// The node of a choice, whose number is the next one after this many.
    fn local(&mut self, base: Base, set: &RangeSet, skipped: u64) -> Result<Id, Memory>
        ensures adds { AddsNodes 4 self.old self.new }
        ensures made { IfOk result (IsNode self.new.arena true (length (free_ids self.old.choices) + skipped) (part_over base set.now)) }
    {
        if self.parts > u64::MAX - skipped {
            return Err(Memory);
        }
        self.part(true, base, set, self.parts + skipped)
    }

    /// The node of a choice or of a variable, with this number.
    #[tactic(auto, using(crate::proofs::ChoiceLaws::adds_both, crate::proofs::ChoiceLaws::adds_most, crate::proofs::ChoiceLaws::part_made))]
    fn part(&mut self, choice: bool, base: Base, set: &RangeSet, number: u64) -> Result<Id, Memory>
        ensures adds { AddsNodes 4 self.old self.new }
        ensures made { IfOk result (IsNode self.new.arena choice number (part_over base set.now)) }
    {
        let copy = set.copy(self.alloc)?;
        let over = self.set_node(copy)?;
        let own = self.arena.len();
        if own > i64::MAX as u64 {
            return Err(Memory);
        }
        let n = part_node(choice, base, over, number, own as i64);
        match self.checked(&n)? {
            Some(id) => Ok(id),
            None => Err(Memory),
        }
    }

    /// The symbol of a variable of this domain, whose parts have the numbers from this one on. No
    /// other function makes such nodes.
    ///
    /// Out of memory too where a truth value may not be both false and true, and where what is no
    /// set has no value.
    #[tactic(auto, using(crate::proofs::RunLaws::nodes_go, crate::proofs::ChoiceLaws::adds_state))]
    pub fn variable(
        &mut self,
        number: u64,
        base: Base,
        opt: bool,
        set: &RangeSet,
    ) -> Result<Symbol, Memory>
        ensures goes { GoesOnBy 8 self.old self.new }
        ensures same { (r : Reading) → state_of r self.old ≡ state_of r self.new }
        ensures grew { Grew self.old.arena self.new.arena }
        ensures variable { IfOk result (IsSymbolOf self.new.arena false number (choice_domain base opt set.now)) }
    {
        self.var_symbol(number, base, opt, set)
    }

    #[tactic(auto, using(crate::proofs::ChoiceLaws::adds_most))]
    fn var_symbol(
        &mut self,
        number: u64,
        base: Base,
        opt: bool,
        set: &RangeSet,
    ) -> Result<Symbol, Memory>
        ensures adds { AddsNodes 8 self.old self.new }
        ensures made { IfOk result (IsSymbolOf self.new.arena false number (choice_domain base opt set.now)) }
    {
        if opt {
            self.var_option(number, base, set)
        } else {
            let term = self.part(false, base, set, number)?;
            Ok(Symbol {
                base,
                occurs: None,
                term,
            })
        }
    }

    #[tactic(auto, using(crate::proofs::ChoiceLaws::adds_both, crate::proofs::ChoiceLaws::adds_most))]
    fn var_option(&mut self, number: u64, base: Base, set: &RangeSet) -> Result<Symbol, Memory>
        ensures adds { AddsNodes 8 self.old self.new }
        ensures made { IfOk result (IsSymbolOf self.new.arena false number (choice_domain base true set.now)) }
    {
        if number == u64::MAX {
            return Err(Memory);
        }
        let both = RangeSet::range(self.alloc, 0, 1)?;
        let occurs = self.part(false, Base::Bool, &both, number)?;
        let term = self.part(false, base, set, number + 1)?;
        Ok(Symbol {
            base,
            occurs: Some(occurs),
            term,
        })
    }

    /// Notes a choice, whose nodes are the next.
    #[tactic(auto, using(crate::proofs::ChoiceLaws::counted_more))]
    fn note(&mut self, symbol: Symbol, set: &RangeSet) -> Result<(), Memory>
        requires nodes { AreNodes self.old.arena true (length (free_ids self.old.choices)) (symbol_ids symbol) (domain_parts (domain_of (free_of symbol set.now))) }
        requires domain { IsChoosable (domain_of (free_of symbol set.now)) }
        ensures ok { OnOk result (IsNoted self.old self.new (free_of symbol set.now)) }
        ensures err { OnErr result (self.new ≡ self.old) }
    {
        let count = id_count(symbol);
        if self.parts > u64::MAX - count {
            return Err(Memory);
        }
        let copy = set.copy(self.alloc)?;
        self.choices.push(Free { symbol, set: copy })?;
        self.parts += count;
        Ok(())
    }
}
