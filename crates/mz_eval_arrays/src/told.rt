// Cells that may have a value, and those that have none wherever they are read.

ghost use Rattle.std.specs.Prelude.{◌≡◌};
ghost use Rattle.std.specs.List.{list_all};
ghost use Rattle.mz_eval_arrays.specs.Told.{has_origin, has_origins, is_told};

use mz_eval_cells::{Known, Origin, Origins};

fn has_origin(o: &Origin) -> bool
    ensures { result ≡ has_origin o.now }
{
    match o {
        Origin::Nothing => false,
        _ => true,
    }
}

fn has_origins(o: &Origins) -> bool
    ensures { result ≡ has_origins o.now }
{
    match o {
        Origins::Nothing => false,
        _ => true,
    }
}

/// Whether something tells a cell's value: where nothing does, it is undefined under each reading.
pub fn is_told(k: &Known) -> bool
    ensures { result ≡ is_told k.now }
{
    match k {
        Known::Undefined => false,
        Known::One(_) => true,
        Known::Array(_, _) => true,
        Known::Var(v) => has_origin(&v.origin),
        Known::Row(_, xs) => has_origins(&xs.origins),
        Known::Unshaped(_) => false,
    }
}

/// Whether something tells the value of each cell.
pub fn are_told(all: &[Known]) -> bool
    ensures { result ≡ list_all is_told all.now }
{
    all.iter().all(|k| is_told(k))
}
