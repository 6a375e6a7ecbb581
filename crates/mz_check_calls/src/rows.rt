// The rows of the library that accept.

ghost use Rattle.std.specs.Prelude.{◌≡◌, ◌++◌, map, filter, is_none, IfOk};
ghost use Rattle.mz_core.specs.Types.{plain_type};
ghost use Rattle.mz_builtin.specs.Signatures.{global_place};
ghost use Rattle.mz_builtin.specs.Views.{plain_numbered};
ghost use Rattle.mz_check_meaning.specs.Calls.{is_built_in, rows_for, row_candidate};

use crate::pairs::Candidates;
use mz_base::Memory;
use mz_builtin::{fitting, global};
use mz_check_meaning::Callee;
use mz_core::{Signature, TypeInst};
use std::alloc::Global;

fn is_built_in(number: u32) -> bool
    ensures { result ≡ is_none (global_place number) }
{
    match global(number) {
        None => true,
        Some(_) => false,
    }
}

/// Those of the rows that are no globals.
fn built_in_rows(
    alloc: Global,
    rows: Vec<(u32, Signature)>,
) -> Result<Vec<(u32, Signature)>, Memory>
    ensures { IfOk result (λ v. map plain_numbered v.items ≡ filter is_built_in (map plain_numbered rows.items)) }
{
    let mut all = Vec::new(alloc);
    for row in rows {
        if is_built_in(row.0) {
            all.push(row)?;
        }
    }
    Ok(all)
}

/// The rows of a name that accept arguments of these types, without the globals where a function of the model hides them.
#[tactic(auto, unfolding(mz_check_meaning::specs::Calls::rows_for))]
pub fn rows_for(
    alloc: Global,
    hidden: bool,
    name: &str,
    args: &[TypeInst],
) -> Result<Vec<(u32, Signature)>, Memory>
    ensures { IfOk result (λ v. map plain_numbered v.items ≡ rows_for hidden name.now (map plain_type args.now)) }
{
    let rows = fitting(alloc, name, args)?;
    if hidden {
        built_in_rows(alloc, rows)
    } else {
        Ok(rows)
    }
}

/// The rows as candidates, after others.
pub(crate) fn with_rows(
    before: Candidates,
    rows: Vec<(u32, Signature)>,
) -> Result<Candidates, Memory>
    ensures { IfOk result (λ all. all ≡ before ++ map row_candidate (map plain_numbered rows.items)) }
{
    let mut all = before;
    for (number, signature) in rows {
        all = all.with(Callee::Row(number), signature)?;
    }
    Ok(all)
}
