// Calls of globals with a var argument: a global and the cells of its arguments → a symbol.

ghost use Rattle.std.specs.Prelude.{◌≡◌, ◌+◌, ◌*◌, ◌∷◌, [], IfOk, true};
ghost use Rattle.mz_core.specs.declared.types.Base.TheVariants as base;
ghost use Rattle.mz_globals.specs.declared.global.Global.TheVariants as global;
ghost use Rattle.mz_meaning.specs.Cells.{held};
ghost use Rattle.mz_meaning.specs.Globals.{call_cost, global_value};
ghost use Rattle.mz_meaning.specs.Runs.{give};
ghost use Rattle.mz_symbol.specs.Makes.{GoesOnBy, Means};
ghost use Rattle.mz_symbol_rows.specs.RowValues.{argument};
ghost use Rattle.mz_eval_cells.specs.Views.{all_seen, cells_of};
ghost use Rattle.mz_eval_global_terms.specs.Calls.{IsCall, call_room, is_truth};

use crate::arrays::{of_array, of_boxes, of_three_arrays, of_two_arrays};
use crate::numbers::{
    of_count, of_counted, of_cumulative, of_member, of_number_array, of_number_array_number,
    of_packing, of_precede,
};
use crate::sets::{of_among, of_channel, of_disjoint, of_link, of_partition};
use crate::tables::{of_regular, of_table};
use crate::windows::of_sliding;
use mz_arena::Id;
use mz_base::{Memory, Stop};
use mz_core::Base;
use mz_eval_cells::Known;
use mz_globals::Global;
use mz_symbol::{Run, Symbol};
use std::alloc::Global as Heap;

/// A call of one argument.
fn of_one(alloc: Heap, g: Global, a: &Known, run: &mut Run) -> Result<Id, Memory>
    ensures goes { GoesOnBy (call_room g (a.now ∷ [])) run.old run.new }
    ensures call { IfOk result (IsCall base.Bool g (a.now ∷ []) run.old run.new) }
{
    match g {
        Global::Disjoint => of_disjoint(alloc, a, run),
        _ => of_array(alloc, g, a, run),
    }
}

/// A call of two arguments.
fn of_two(alloc: Heap, g: Global, a: &Known, b: &Known, run: &mut Run) -> Result<Id, Memory>
    ensures goes { GoesOnBy (call_room g (a.now ∷ b.now ∷ [])) run.old run.new }
    ensures call { IfOk result (IsCall base.Bool g (a.now ∷ b.now ∷ []) run.old run.new) }
{
    match g {
        Global::Extreme(_) => of_number_array(alloc, g, a, b, run),
        Global::DifferentValues => of_number_array(alloc, g, a, b, run),
        Global::Member => of_member(alloc, a, b, run),
        Global::Table => of_table(alloc, a, b, run),
        Global::Partition => of_partition(alloc, a, b, run),
        Global::Channel => of_channel(alloc, a, b, run),
        Global::Link => of_link(alloc, a, b, run),
        _ => of_two_arrays(alloc, g, a, b, run),
    }
}

/// A call of three arguments.
fn of_three(
    alloc: Heap,
    g: Global,
    a: &Known,
    b: &Known,
    c: &Known,
    run: &mut Run,
) -> Result<Id, Memory>
    ensures goes { GoesOnBy (call_room g (a.now ∷ b.now ∷ c.now ∷ [])) run.old run.new }
    ensures call { IfOk result (IsCall base.Bool g (a.now ∷ b.now ∷ c.now ∷ []) run.old run.new) }
{
    match g {
        Global::Count => of_counted(alloc, a, b, c, run),
        Global::Times(_) => of_number_array_number(alloc, g, a, b, c, run),
        Global::Element => of_number_array_number(alloc, g, a, b, c, run),
        Global::Precede => of_precede(alloc, a, b, c, run),
        Global::Packing => of_packing(alloc, a, b, c, run),
        Global::Among => of_among(alloc, a, b, c, run),
        _ => of_three_arrays(alloc, g, a, b, c, run),
    }
}

/// A call of four arguments.
fn of_four(
    alloc: Heap,
    g: Global,
    a: &Known,
    b: &Known,
    c: &Known,
    d: &Known,
    run: &mut Run,
) -> Result<Id, Memory>
    ensures goes { GoesOnBy (call_room g (a.now ∷ b.now ∷ c.now ∷ d.now ∷ [])) run.old run.new }
    ensures call { IfOk result (IsCall base.Bool g (a.now ∷ b.now ∷ c.now ∷ d.now ∷ []) run.old run.new) }
{
    match g {
        Global::Diffn => of_boxes(alloc, a, b, c, d, run),
        Global::Cumulative => of_cumulative(alloc, a, b, c, d, run),
        Global::SlidingSum => of_sliding(alloc, a, b, c, d, run),
        _ => Err(Memory),
    }
}

/// A call of six arguments.
fn of_six(
    alloc: Heap,
    g: Global,
    a: &Known,
    b: &Known,
    c: &Known,
    d: &Known,
    e: &Known,
    f: &Known,
    run: &mut Run,
) -> Result<Id, Memory>
    ensures goes { GoesOnBy (call_room g (a.now ∷ b.now ∷ c.now ∷ d.now ∷ e.now ∷ f.now ∷ [])) run.old run.new }
    ensures call { IfOk result (IsCall base.Bool g (a.now ∷ b.now ∷ c.now ∷ d.now ∷ e.now ∷ f.now ∷ []) run.old run.new) }
{
    match g {
        Global::Regular => of_regular(alloc, a, b, c, d, e, f, run),
        _ => Err(Memory),
    }
}

fn of_all(alloc: Heap, g: Global, all: &[Known], run: &mut Run) -> Result<Id, Memory>
    ensures goes { GoesOnBy (call_room g all.now) run.old run.new }
    ensures call { IfOk result (IsCall base.Bool g all.now run.old run.new) }
{
    match all {
        [a] => of_one(alloc, g, a, run),
        [a, b] => of_two(alloc, g, a, b, run),
        [a, b, c] => of_three(alloc, g, a, b, c, run),
        [a, b, c, d] => of_four(alloc, g, a, b, c, d, run),
        [a, b, c, d, e, f] => of_six(alloc, g, a, b, c, d, e, f, run),
        _ => Err(Memory),
    }
}

// ---- the symbol

const MOST: u64 = 1 << 62;

/// Whether a global gives truth values.
fn is_truth(g: Global) -> bool
    ensures { result ≡ is_truth g }
{
    match g {
        Global::CountOf => false,
        _ => true,
    }
}

/// A call of the function `count`.
fn of_counting(alloc: Heap, all: &[Known], run: &mut Run) -> Result<Id, Memory>
    ensures goes { GoesOnBy (call_room global.CountOf all.now) run.old run.new }
    ensures call { IfOk result (IsCall base.Int global.CountOf all.now run.old run.new) }
{
    match all {
        [a, b] => of_count(alloc, a, b, run),
        _ => Err(Memory),
    }
}

/// The symbol of the function `count`.
fn number_of_call(alloc: Heap, all: &[Known], run: &mut Run) -> Result<Symbol, Stop>
    ensures goes { GoesOnBy (call_room global.CountOf all.now) run.old run.new }
    ensures means { Means argument result run.old run.new (λ r. give (held r.mode (global_value global.CountOf (all_seen r all.now)))) }
{
    let term = of_counting(alloc, all, run)?;
    Ok(Symbol {
        base: Base::Int,
        occurs: None,
        term,
    })
}

/// The symbol of a truth value.
fn truth_of_call(alloc: Heap, g: Global, all: &[Known], run: &mut Run) -> Result<Symbol, Stop>
    requires { is_truth g ≡ true }
    ensures goes { GoesOnBy (call_room g all.now) run.old run.new }
    ensures means { Means argument result run.old run.new (λ r. give (held r.mode (global_value g (all_seen r all.now)))) }
{
    let term = of_all(alloc, g, all, run)?;
    Ok(Symbol {
        base: Base::Bool,
        occurs: None,
        term,
    })
}

fn symbol(alloc: Heap, g: Global, all: &[Known], run: &mut Run) -> Result<Symbol, Stop>
    ensures goes { GoesOnBy (call_room g all.now) run.old run.new }
    ensures means { Means argument result run.old run.new (λ r. give (held r.mode (global_value g (all_seen r all.now)))) }
{
    if is_truth(g) {
        return truth_of_call(alloc, g, all, run);
    }
    match g {
        Global::CountOf => number_of_call(alloc, all, run),
        _ => Err(Stop::Memory),
    }
}

/// The symbol of a call of a global that costs so much, which the call's work pays for; what lines that
/// are made may cost is drawn. Out of memory too where an argument's cell isn't of the kind that the
/// global takes: an array of one dimension (of two for `table`), with elements that are no options.
pub fn symbol_of_call(
    alloc: Heap,
    g: Global,
    cost: u64,
    all: &[Known],
    run: &mut Run,
) -> Result<Symbol, Stop>
    requires { cost ≡ call_cost g (cells_of all.now) }
    ensures goes { GoesOnBy (64 * (1 + cost)) run.old run.new }
    ensures means { Means argument result run.old run.new (λ r. give (held r.mode (global_value g (all_seen r all.now)))) }
{
    if cost >= MOST {
        return Err(Stop::Memory);
    }
    symbol(alloc, g, all, run)
}
