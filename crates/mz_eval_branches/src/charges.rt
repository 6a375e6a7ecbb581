// What the nodes of branches may cost, as numbers; out of memory where such a number is too great.

ghost use Rattle.std.specs.Prelude.{◌≡◌, ◌*◌, ◌+◌, IfOk};
ghost use Rattle.mz_eval_branches.specs.BranchLines.{branch_charge, fold_charge};

use mz_base::Memory;

fn branch_charge(count: u64) -> Result<u64, Memory>
    ensures { IfOk result (λ n. n ≡ branch_charge count) }
{
    let each: u64 = 108;
    let all = each.checked_mul(count).ok_or(Memory)?;
    all.checked_add(24).ok_or(Memory)
}

fn last_charge(count: u64) -> Result<u64, Memory>
    ensures { IfOk result (λ n. n ≡ 20 * count) }
{
    let each: u64 = 20;
    each.checked_mul(count).ok_or(Memory)
}

/// Of so many branches, and a last one, that are arrays with `count` elements.
pub(crate) fn fold_charge(count: u64, branches: u64) -> Result<u64, Memory>
    ensures { IfOk result (λ n. n ≡ fold_charge count branches) }
{
    let each = branch_charge(count)?;
    let last = last_charge(count)?;
    let all = branches.checked_mul(each).ok_or(Memory)?;
    all.checked_add(last).ok_or(Memory)
}

/// Of so many branches, and a last one, that are no arrays.
pub(crate) fn symbols_charge(branches: u64) -> Result<u64, Memory>
    ensures { IfOk result (λ n. n ≡ 48 * branches + 8) }
{
    let each: u64 = 48;
    let all = each.checked_mul(branches).ok_or(Memory)?;
    all.checked_add(8).ok_or(Memory)
}
