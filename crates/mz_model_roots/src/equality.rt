// The node that tests whether two symbols have one value.

ghost use Rattle.std.specs.Prelude.{◌≡◌, [], ◌∷◌, true, IfOk};
ghost use Rattle.mz_core.specs.declared.types.Base.TheVariants as base;
ghost use Rattle.mz_operations.specs.declared.row.ScalarRow.TheVariants as row;
ghost use Rattle.mz_meaning.specs.Cells.{held};
ghost use Rattle.mz_meaning.specs.Runs.{give};
ghost use Rattle.mz_symbol.specs.Readings.{symbol_seen};
ghost use Rattle.mz_symbol.specs.Makes.{GoesOn, GoesOnBy, Means};
ghost use Rattle.mz_symbol.specs.Arguments.{truth_of};
ghost use Rattle.mz_symbol_rows.specs.RowValues.{argument, row_value};
ghost use Rattle.mz_symbol_rows.specs.StepsNodes.{IsOf};
ghost use Rattle.mz_model_roots.specs.Rooted.{Stays, IsEqualNode};
ghost use Rattle.mz_model_roots.specs.StepsEqual.{equal_row, AreOfOneBase};

use mz_arena::Id;
use mz_base::{Memory, Stop};
use mz_core::Base;
use mz_eval_symbols::as_asked;
use mz_symbol::{Run, Symbol};
use mz_symbol_rows::options::with_whole_value;

/// The node of a truth value that is no option.
pub(crate) fn truth(s: Symbol) -> Result<Id, Memory>
    ensures { IfOk result (λ id. IsOf base.Bool id s) }
{
    match s.base {
        Base::Bool => single(s),
        _ => Err(Memory),
    }
}

/// The node of an integer that is no option.
pub(crate) fn integer(s: Symbol) -> Result<Id, Memory>
    ensures { IfOk result (λ id. IsOf base.Int id s) }
{
    match s.base {
        Base::Int => single(s),
        _ => Err(Memory),
    }
}

fn single(s: Symbol) -> Result<Id, Memory>
    ensures { IfOk result (λ id. IsOf s.base id s) }
{
    match s.occurs {
        None => Ok(s.term),
        Some(_) => Err(Memory),
    }
}

/// Whether these are two symbols of one base, of which a set is no option.
fn are_of_one_base(x: Symbol, y: Symbol) -> bool
    ensures { result ≡ true → AreOfOneBase x y }
{
    match x.base {
        Base::Bool => match y.base {
            Base::Bool => true,
            _ => false,
        },
        Base::Int => match y.base {
            Base::Int => true,
            _ => false,
        },
        Base::Enum(d) => match y.base {
            Base::Enum(e) => d == e,
            _ => false,
        },
        Base::SetInt => match y.base {
            Base::SetInt => x.occurs.is_none(),
            _ => false,
        },
        Base::SetEnum(d) => match y.base {
            Base::SetEnum(e) => d == e && x.occurs.is_none(),
            _ => false,
        },
        _ => false,
    }
}

/// What is no option as one that is there. What its node may cost is drawn.
#[tactic(auto, using(mz_symbol_rows::proofs::GoingOn::goes_drawn))]
fn made_option(run: &mut Run, y: Symbol) -> Result<Symbol, Stop>
    ensures goes { GoesOn run.old run.new }
    ensures means { Means argument result run.old run.new (λ r. give (argument r y)) }
{
    run.draw(4)?;
    let z = as_asked(run, true, y)?;
    Ok(z)
}

fn as_option(run: &mut Run, y: Symbol) -> Result<Symbol, Stop>
    ensures goes { GoesOn run.old run.new }
    ensures means { Means argument result run.old run.new (λ r. give (argument r y)) }
{
    match y.occurs {
        Some(_) => Ok(y),
        None => made_option(run, y),
    }
}

/// The row that tests an option and another symbol.
#[tactic(auto, using(mz_symbol_rows::proofs::GoingOn::goes_both))]
fn option_row(run: &mut Run, x: Symbol, y: Symbol) -> Result<Symbol, Stop>
    ensures goes { GoesOnBy 70 run.old run.new }
    ensures means { Means symbol_seen result run.old run.new (λ r. give (held r.mode (truth_of (row_value r row.Equal (x ∷ y ∷ []))))) }
{
    let z = as_option(run, y)?;
    let s = mz_symbol_rows::options::equal(run, x, z)?;
    Ok(s)
}

/// The row that tests two symbols that are no sets.
#[tactic(auto, using(mz_symbol_rows::proofs::GoingOn::goes_most))]
fn single_row(run: &mut Run, x: Symbol, y: Symbol) -> Result<Symbol, Stop>
    ensures goes { GoesOnBy 70 run.old run.new }
    ensures means { Means symbol_seen result run.old run.new (λ r. give (held r.mode (truth_of (row_value r row.Equal (x ∷ y ∷ []))))) }
{
    match x.occurs {
        None => mz_symbol_rows::equal(run, x, y),
        Some(_) => option_row(run, x, y),
    }
}

/// The row that tests two symbols.
#[tactic(auto, using(mz_symbol_rows::proofs::GoingOn::goes_most))]
fn equality(run: &mut Run, x: Symbol, y: Symbol) -> Result<Symbol, Stop>
    ensures goes { GoesOnBy 70 run.old run.new }
    ensures means { Means symbol_seen result run.old run.new (λ r. give (held r.mode (truth_of (row_value r (equal_row x.base) (x ∷ y ∷ []))))) }
{
    match x.base {
        Base::SetInt => mz_symbol_rows::sets::equal(run, x, y),
        Base::SetEnum(_) => mz_symbol_rows::sets::equal(run, x, y),
        _ => single_row(run, x, y),
    }
}

/// The same as `equal_node`, of options of truth values whose values are integer nodes.
#[tactic(auto, using(mz_symbol_rows::proofs::GoingOn::goes_most, crate::proofs::EqualNodes::none_goes))]
fn own_node(run: &mut Run, x: Symbol, y: Symbol) -> Result<Id, Stop>
    ensures goes { GoesOnBy 70 run.old run.new }
    ensures stays { Stays result run.old run.new }
    ensures equal { IfOk result (IsEqualNode run.new x y) }
{
    if !are_of_one_base(x, y) {
        return Err(Stop::Memory);
    }
    let symbol = equality(run, x, y)?;
    let id = truth(symbol)?;
    Ok(id)
}

/// The node that is 1 where a symbol, which has a value, has that of another one. A Boolean that is no
/// option is false in place of undefined. Where the first alone is an option, the second counts as one
/// that is there. What either may cost as an option is drawn from the charges that are saved.
///
/// Out of memory too where they aren't of one base, where the second alone is an option, and where
/// they are options of sets.
#[tactic(auto, using(mz_symbol_rows::proofs::GoingOn::goes_both, mz_symbol_rows::proofs::GoingOn::goes_most))]
pub(crate) fn equal_node(run: &mut Run, x: Symbol, y: Symbol) -> Result<Id, Stop>
    ensures goes { GoesOnBy 70 run.old run.new }
    ensures stays { Stays result run.old run.new }
    ensures equal { IfOk result (IsEqualNode run.new x y) }
{
    let whole = with_whole_value(run, x)?;
    let id = own_node(run, whole, y)?;
    Ok(id)
}
