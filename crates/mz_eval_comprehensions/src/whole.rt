// The cell of a comprehension.

ghost use Rattle.std.specs.Prelude.{◌≡◌, IfOk};
ghost use Rattle.mz_core.specs.Types.{plain_type};
ghost use Rattle.mz_meaning.specs.Arrays as arrays;
ghost use Rattle.mz_meaning.specs.Cells as cells;
ghost use Rattle.mz_meaning.specs.Comprehensions as comps;
ghost use Rattle.mz_meaning.specs.Runs.{give};
ghost use Rattle.mz_symbol.specs.Makes.{GoesOn, Means};
ghost use Rattle.mz_symbol.specs.Readings.{Reading};
ghost use Rattle.mz_eval_cells.specs.Views.{seen};
ghost use Rattle.mz_eval_arrays.specs.Gathered.{gathered_by};
ghost use Rattle.mz_eval_comprehensions.specs.Views.{made_in, made_whole};

use crate::drawn::guarded;
use crate::types::Made;
use mz_base::Stop;
use mz_core::TypeInst;
use mz_eval_arrays::{Gathered, array_cell_in, set_cell};
use mz_eval_cells::{Known, sealed_by};
use mz_symbol::Run;
use std::alloc::{AllocError, Global};

fn made_set(alloc: Global, t: &TypeInst, g: &Gathered) -> Result<Known, AllocError>
    ensures { IfOk result (λ k. (r : Reading) → seen r k ≡ arrays.set_cell (plain_type t.now) (gathered_by (seen r) g.now)) }
{
    let k = set_cell(alloc, t, g)?;
    Ok(k)
}

fn made_cell(
    alloc: Global,
    run: &mut Run,
    braces: bool,
    t: &TypeInst,
    g: Gathered,
) -> Result<Known, Stop>
    ensures goes { GoesOn run.old run.new }
    ensures means { Means seen result run.old run.new (λ r. give (comps.made_cell r.mode (plain_type t.now) braces (gathered_by (seen r) g))) }
{
    if braces {
        let k = made_set(alloc, t, &g)?;
        Ok(k)
    } else {
        array_cell_in(alloc, run, t.base, t.opt, g)
    }
}

#[tactic(auto, unfolding(mz_core::specs::Types::plain_type))]
fn sealed(alloc: Global, t: &TypeInst, k: Known) -> Result<Known, AllocError>
    ensures { IfOk result (λ x. (r : Reading) → seen r x ≡ cells.sealed r.mode (plain_type t.now).var (plain_type t.now) (seen r k)) }
{
    let x = sealed_by(alloc, t, k)?;
    Ok(x)
}

/// The cell of a comprehension of this type: a set of its elements in braces, else an array that is
/// indexed from 1.
///
/// What the nodes may cost is drawn: of a var array those of its line, and of a guard that isn't sure
/// those of what it guards. Out of memory too where an element has no symbol.
#[tactic(auto, using(mz_symbol::proofs::RunLaws::goes_on))]
pub fn comprehended(
    alloc: Global,
    run: &mut Run,
    braces: bool,
    t: &TypeInst,
    made: Made,
) -> Result<Known, Stop>
    ensures goes { GoesOn run.old run.new }
    ensures means { Means seen result run.old run.new (λ r. give (made_whole r.mode (plain_type t.now) braces (made_in r made))) }
{
    let Made { cells, whole } = made;
    let k = made_cell(alloc, run, braces, t, cells)?;
    let x = sealed(alloc, t, k)?;
    let y = guarded(alloc, run, t, whole, x)?;
    Ok(y)
}
