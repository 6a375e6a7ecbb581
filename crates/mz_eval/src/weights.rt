// What calls weigh, the elements of the arrays among their arguments, and the work of comprehensions.

ghost use Rattle.std.specs.Prelude.{◌≡◌, ◌+◌, ◌*◌, IfOk};
ghost use Rattle.mz_meaning.specs.Calls.{all_lengths};
ghost use Rattle.mz_meaning.specs.Cells.{length_of, or_zero};
ghost use Rattle.mz_meaning.specs.Runs.{spend, weigh};
ghost use Rattle.mz_symbol.specs.Makes.{GoesOn, GoesOnBy, Means};
ghost use Rattle.mz_symbol.specs.Readings.{Reading, state_of};
ghost use Rattle.mz_symbol.specs.Runs.{IsRun};
ghost use Rattle.mz_eval_cells.specs.Views.{all_seen, seen};

use mz_base::{Memory, Span, Stop};
use mz_eval_cells::{Known, length_of};
use mz_eval_scopes::World;
use mz_symbol::Run;

// more weight than a run may have
const MOST: u64 = 1 << 57;

// how many elements an array has; 0 of what is none
#[tactic(auto, using(crate::proofs::WeightLaws::length_seen))]
fn length_in(k: &Known) -> u64
    ensures { (r : Reading) → result ≡ or_zero (length_of (seen r k.now)) }
{
    match length_of(k) {
        None => 0,
        Some(n) => n,
    }
}

/// So many elements, with those of one cell more.
pub(crate) fn more_length(n: u64, k: &Known) -> Result<u64, Memory>
    ensures { IfOk result (λ m. (r : Reading) → m ≡ n + or_zero (length_of (seen r k.now))) }
{
    let more = length_in(k);
    if more > u64::MAX - n {
        return Err(Memory);
    }
    Ok(n + more)
}

/// So many elements, with those of more cells.
#[tactic(auto, using(crate::proofs::WeightLaws::lengths_next))]
pub(crate) fn lengths_on(n: u64, cells: &[Known]) -> Result<u64, Memory>
    ensures { IfOk result (λ m. (r : Reading) → m ≡ all_lengths n (all_seen r cells.now)) }
{
    let mut sum = n;
    for k in cells {
        sum = more_length(sum, k)?;
    }
    Ok(sum)
}

/// The same of cells that are used no more.
pub(crate) fn lengths_of(n: u64, cells: Vec<Known>) -> Result<u64, Memory>
    ensures { IfOk result (λ m. (r : Reading) → m ≡ all_lengths n (all_seen r cells.items)) }
{
    let sum = lengths_on(n, &cells)?;
    Ok(sum)
}

// saves what so much weight pays for
#[tactic(auto, using(crate::proofs::WeightLaws::goes_none))]
fn saved(run: &mut Run, n: u64) -> Result<(), Memory>
    ensures goes { GoesOnBy (64 * n) run.old run.new }
    ensures same { (r : Reading) → state_of r run.old ≡ state_of r run.new }
{
    if n > MOST {
        return Err(Memory);
    }
    run.save(64 * n)
}

/// So much weight; what it pays for is saved for later nodes.
#[tactic(auto, using(crate::proofs::WeightLaws::earns_pays, crate::proofs::WeightLaws::goes_none, mz_eval_declared::proofs::Taking::none_weighed))]
pub(crate) fn weighed(run: &mut Run, n: u64) -> Result<(), Stop>
    ensures goes { GoesOn run.old run.new }
    ensures means { Means (λ _ _. tt) result run.old run.new (λ r. weigh r.mode n) }
{
    if n == 0 {
        return Ok(());
    }
    run.weigh(n)?;
    saved(run, n)?;
    Ok(())
}

/// The work of a value that is given to a generator's name; what it pays for is saved for later nodes.
pub(crate) fn spent(world: &World, at: Span, run: &mut Run) -> Result<(), Stop>
    ensures goes { GoesOn run.old run.new }
    ensures means { Means (λ _ _. tt) result run.old run.new (λ r. spend world.now.budget at 1) }
{
    run.spend(world.budget, at, 1)?;
    run.save(64)?;
    Ok(())
}

/// What holds of each run.
pub(crate) fn sound(run: &Run)
    ensures { IsRun run.now }
{
    let _nodes = run.arena();
}
