// The signatures of a name.

ghost use Rattle.std.specs.Prelude.{◌≡◌, ◌≤◌, ◌+◌, ◌++◌, length, map, IfOk};
ghost use Rattle.std.specs.List.{flat_map};
ghost use Rattle.mz_core.specs.Types.{plain_type};
ghost use Rattle.mz_builtin.specs.Entries.{plain_entry, plain_line};
ghost use Rattle.mz_builtin.specs.Table.{placed_from};
ghost use Rattle.mz_builtin.specs.Readings.{numbered, with_mark, with_meaning, of_entry};
ghost use Rattle.mz_builtin.specs.Signatures.{of_named, made, signatures, fitting};
ghost use Rattle.mz_builtin.specs.Views.{plain_choices, type_lists_of, plain_numbered, maker_of};

use crate::choices::{Choices, choices_of};
use crate::entry::{Entry, Line, Param};
use crate::fits::accepting;
use crate::names::has_name;
use crate::params::all_params;
use crate::readings::{Meaning, meanings, readings_of, result_var};
use crate::table::{built_ins, first_global, globals};
use crate::types::result_type;
use mz_base::Memory;
use mz_core::{Signature, TypeInst};
use std::alloc::Global;

/// Which signatures are wanted.
#[derive(Clone, Copy)]
pub(crate) enum Wanted {
    All,
    /// Those that accept the arguments.
    Accepting,
}

#[tactic(auto, unfolding(crate::specs::Readings::numbered, mz_core::specs::Types::plain_signature))]
fn numbered(
    alloc: Global,
    e: &Entry,
    m: Meaning,
    var: bool,
    params: Vec<TypeInst>,
) -> Result<(u32, Signature), Memory>
    ensures { IfOk result (λ s. plain_numbered s ≡ numbered (plain_entry e.now) m var (map plain_type params.items)) }
{
    let result = result_type(
        alloc,
        m,
        result_var(e.line.mark, var),
        e.line.result,
        &params,
    )?;
    Ok((e.number, Signature { params, result }))
}

#[tactic(auto, unfolding(crate::specs::Views::maker_of, crate::specs::StepsFits::accepting_params))]
fn params_of(
    alloc: Global,
    c: &Choices,
    args: &[TypeInst],
    wanted: Wanted,
    m: Meaning,
    var: bool,
    ps: &[Param],
) -> Result<Vec<Vec<TypeInst>>, Memory>
    ensures { IfOk result (λ v. type_lists_of v.items ≡ maker_of (plain_choices c.now) (map plain_type args.now) wanted m var ps.now) }
{
    match wanted {
        Wanted::All => all_params(alloc, c, m, var, ps),
        Wanted::Accepting => accepting(alloc, c, m, var, args, ps),
    }
}

// The loop over the readings with one meaning and mark.
fn add_numbered(
    alloc: Global,
    all: &mut Vec<(u32, Signature)>,
    e: &Entry,
    m: Meaning,
    var: bool,
    lists: Vec<Vec<TypeInst>>,
) -> Result<(), Memory>
    ensures { IfOk result (λ _. map plain_numbered all.new.items ≡ map plain_numbered all.old.items ++ map (numbered (plain_entry e.now) m var) (type_lists_of lists.items)) }
{
    for params in lists {
        all.push(numbered(alloc, e, m, var, params)?)?;
    }
    Ok(())
}

#[tactic(auto, unfolding(crate::specs::Readings::with_mark))]
fn add_with_mark(
    alloc: Global,
    all: &mut Vec<(u32, Signature)>,
    c: &Choices,
    args: &[TypeInst],
    wanted: Wanted,
    e: &Entry,
    m: Meaning,
    var: bool,
) -> Result<(), Memory>
    ensures { IfOk result (λ _. map plain_numbered all.new.items ≡ map plain_numbered all.old.items ++ with_mark (maker_of (plain_choices c.now) (map plain_type args.now) wanted) (plain_entry e.now) m var) }
{
    let lists = params_of(alloc, c, args, wanted, m, var, e.line.params)?;
    add_numbered(alloc, all, e, m, var, lists)
}

#[tactic(auto, unfolding(crate::specs::Readings::with_meaning))]
fn add_with_meaning(
    alloc: Global,
    all: &mut Vec<(u32, Signature)>,
    c: &Choices,
    args: &[TypeInst],
    wanted: Wanted,
    e: &Entry,
    m: Meaning,
) -> Result<(), Memory>
    ensures { IfOk result (λ _. map plain_numbered all.new.items ≡ map plain_numbered all.old.items ++ with_meaning (maker_of (plain_choices c.now) (map plain_type args.now) wanted) (plain_entry e.now) m) }
{
    for var in readings_of(e.line.mark) {
        add_with_mark(alloc, all, c, args, wanted, e, m, *var)?;
    }
    Ok(())
}

#[tactic(auto, unfolding(crate::specs::Readings::of_entry))]
fn add_of_entry(
    alloc: Global,
    all: &mut Vec<(u32, Signature)>,
    c: &Choices,
    args: &[TypeInst],
    wanted: Wanted,
    e: &Entry,
) -> Result<(), Memory>
    ensures { IfOk result (λ _. map plain_numbered all.new.items ≡ map plain_numbered all.old.items ++ of_entry (maker_of (plain_choices c.now) (map plain_type args.now) wanted) c.now.enums.items (plain_entry e.now)) }
{
    let meanings = meanings(alloc, &c.enums, e.line.letter)?;
    for m in &meanings {
        add_with_meaning(alloc, all, c, args, wanted, e, *m)?;
    }
    Ok(())
}

#[tactic(auto, unfolding(crate::specs::Signatures::of_named))]
fn add_of_named(
    alloc: Global,
    all: &mut Vec<(u32, Signature)>,
    c: &Choices,
    args: &[TypeInst],
    wanted: Wanted,
    name: &str,
    e: &Entry,
) -> Result<(), Memory>
    ensures { IfOk result (λ _. map plain_numbered all.new.items ≡ map plain_numbered all.old.items ++ of_named (maker_of (plain_choices c.now) (map plain_type args.now) wanted) c.now.enums.items name.now (plain_entry e.now)) }
{
    if has_name(name, e.line) {
        add_of_entry(alloc, all, c, args, wanted, e)
    } else {
        Ok(())
    }
}

// The loop over lines, of which the first has this number.
#[tactic(auto, unfolding(crate::specs::Table::placed_from))]
fn add_from(
    alloc: Global,
    all: &mut Vec<(u32, Signature)>,
    c: &Choices,
    args: &[TypeInst],
    wanted: Wanted,
    name: &str,
    first: u32,
    lines: &'static [Line],
) -> Result<(), Memory>
    requires { first + length lines.now ≤ 20000 }
    ensures { IfOk result (λ _. map plain_numbered all.new.items ≡ map plain_numbered all.old.items ++ flat_map (of_named (maker_of (plain_choices c.now) (map plain_type args.now) wanted) c.now.enums.items name.now) (placed_from first (map plain_line lines.entry.now))) }
{
    let mut number = first;
    for line in lines {
        add_of_named(alloc, all, c, args, wanted, name, &Entry { number, line })?;
        number += 1;
    }
    Ok(())
}

#[tactic(auto, unfolding(crate::specs::Signatures::made, crate::specs::Table::table))]
fn made(
    alloc: Global,
    c: &Choices,
    args: &[TypeInst],
    wanted: Wanted,
    name: &str,
) -> Result<Vec<(u32, Signature)>, Memory>
    ensures { IfOk result (λ v. map plain_numbered v.items ≡ made (maker_of (plain_choices c.now) (map plain_type args.now) wanted) c.now.enums.items name.now) }
{
    let mut all = Vec::new(alloc);
    add_from(alloc, &mut all, c, args, wanted, name, 0, built_ins())?;
    add_from(
        alloc,
        &mut all,
        c,
        args,
        wanted,
        name,
        first_global(),
        globals(),
    )?;
    Ok(all)
}

/// The signatures of each entry of the name, once for each reading of its letter, its arrays and
/// its index sets, with the entry's number.
///
/// The readings use bool, int, the index int and one dimension, and the enums, index types and
/// numbers of dimensions that occur in `args`. Their number grows as (enums + 1)^dimensions for a
/// name with index sets; [`fitting`] makes those that accept the arguments alone.
#[tactic(auto, unfolding(crate::specs::Signatures::signatures, crate::specs::Views::maker_of))]
pub fn signatures(
    alloc: Global,
    name: &str,
    args: &[TypeInst],
) -> Result<Vec<(u32, Signature)>, Memory>
    ensures { IfOk result (λ v. map plain_numbered v.items ≡ signatures name.now (map plain_type args.now)) }
{
    let c = choices_of(alloc, args)?;
    made(alloc, &c, args, Wanted::All, name)
}

/// Those of [`signatures`] that accept arguments of these types, in the same order, in which the
/// readings that are below others stand before them. They are made from the arguments' types, at
/// most 64 readings of each argument's indices.
pub fn fitting(
    alloc: Global,
    name: &str,
    args: &[TypeInst],
) -> Result<Vec<(u32, Signature)>, Memory>
    ensures { IfOk result (λ v. map plain_numbered v.items ≡ fitting name.now (map plain_type args.now)) }
{
    let c = choices_of(alloc, args)?;
    made(alloc, &c, args, Wanted::Accepting, name)
}
