// The lines of rows, and the solve item.

ghost use Rattle.std.specs.Prelude.{◌≡◌, find};
ghost use Rattle.std.specs.Str.{bytes_eq};
ghost use Rattle.fz_items.specs.Gives.{Gives, with_rest};
ghost use Rattle.fz_program.specs.Table.{line};
ghost use Rattle.fz_program.specs.declared.program.FzGoal.TheVariants.{Maximize, Minimize};
ghost use Rattle.fz_text_read.specs.Lines.{
  defined_at,
  definition_at,
  goal_at,
  objective_at,
  optimum_at,
  row_name_at,
  row_named,
  satisfy_at,
  undefined_at,
};

use crate::argument::{all_arguments, place};
use crate::name_table::NameTable;
use crate::parts::Part;
use crate::token::{behind, expect, name};
use fz_items::Miss;
use fz_program::{FzGoal, FzRow, RowName, name_of};
use std::alloc::Global;

/// All constraints.
const ROWS: [RowName; 48] = [
    RowName::IntEq,
    RowName::IntNe,
    RowName::IntLe,
    RowName::IntLt,
    RowName::IntEqReif,
    RowName::IntNeReif,
    RowName::IntLeReif,
    RowName::IntLtReif,
    RowName::IntLinEq,
    RowName::IntLinNe,
    RowName::IntLinLe,
    RowName::IntLinEqReif,
    RowName::IntLinNeReif,
    RowName::IntLinLeReif,
    RowName::IntTimes,
    RowName::IntDiv,
    RowName::IntMod,
    RowName::IntMin,
    RowName::IntMax,
    RowName::IntAbs,
    RowName::ArrayIntElement,
    RowName::ArrayVarIntElement,
    RowName::ArrayBoolElement,
    RowName::ArrayVarBoolElement,
    RowName::ArraySetElement,
    RowName::ArrayVarSetElement,
    RowName::BoolEq,
    RowName::BoolNot,
    RowName::BoolToInt,
    RowName::BoolXor,
    RowName::BoolEqReif,
    RowName::BoolLeReif,
    RowName::ArrayBoolAnd,
    RowName::ArrayBoolOr,
    RowName::BoolClause,
    RowName::SetIn,
    RowName::SetInReif,
    RowName::SetEq,
    RowName::SetNe,
    RowName::SetSubset,
    RowName::SetEqReif,
    RowName::SetNeReif,
    RowName::SetSubsetReif,
    RowName::SetUnion,
    RowName::SetIntersect,
    RowName::SetDiff,
    RowName::SetSymdiff,
    RowName::SetCard,
];

/// The constraint among some that has a name.
fn among(rows: &[RowName], word: &[u8]) -> Option<RowName>
    ensures { result ≡ find (λ r. bytes_eq (line r).text word.now) rows.now }
{
    rows.iter().copied().find(|r| name_of(*r) == word)
}

/// The constraint with a name.
#[tactic(auto, unfolding(crate::specs::Lines::row_named))]
fn row_named(word: &[u8]) -> Option<RowName>
    ensures { result ≡ row_named word.now }
{
    among(&ROWS, word)
}

#[tactic(auto, unfolding(crate::specs::Lines::row_name_at))]
fn row_name(bytes: &[u8]) -> Result<(RowName, &[u8]), Miss>
    ensures { Gives (with_rest (λ r. r)) result (row_name_at bytes.now) }
{
    let (w, rest) = given!(name(bytes));
    match row_named(w.as_bytes()) {
        Some(r) => Ok((r, rest)),
        None => Err(Miss::Unfit),
    }
}

/// The variable that a row defines, after ` :: defines_var(`, and the end of the line.
#[tactic(auto, unfolding(crate::specs::Lines::defined_at))]
fn defined<'a>(names: &NameTable<'a>, bytes: &'a [u8]) -> Result<(Option<u64>, &'a [u8]), Miss>
    ensures { Gives (with_rest (λ d. d)) result (defined_at names.now bytes.now) }
{
    let (k, rest) = given!(place(names, bytes));
    let rest = given!(expect(b");\n", rest));
    Ok((Some(k), rest))
}

#[tactic(auto, unfolding(crate::specs::Lines::undefined_at))]
fn undefined(bytes: &[u8]) -> Result<(Option<u64>, &[u8]), Miss>
    ensures { Gives (with_rest (λ d. d)) result (undefined_at bytes.now) }
{
    let rest = given!(expect(b";\n", bytes));
    Ok((None, rest))
}

#[tactic(auto, unfolding(crate::specs::Lines::definition_at))]
fn definition<'a>(names: &NameTable<'a>, bytes: &'a [u8]) -> Result<(Option<u64>, &'a [u8]), Miss>
    ensures { Gives (with_rest (λ d. d)) result (definition_at names.now bytes.now) }
{
    match behind(b" :: defines_var(", bytes) {
        Some(rest) => defined(names, rest),
        None => undefined(bytes),
    }
}

/// A row's line, after `constraint `.
#[derive(Drop)]
pub(crate) struct RowLine<'t, 'a> {
    pub alloc: Global,
    pub names: &'t NameTable<'a>,
}

impl<'t, 'a> Part<'a> for RowLine<'t, 'a> {
    ghost use Rattle.fz_program.specs.Flat.{Row, row};
    ghost use Rattle.fz_text_read.specs.Lines.{row_at};

    type Item = FzRow;

    ghost Seen = { Row };

    ghost seen = { row };

    ghost read_at = { λ p. row_at p.names.now };

    #[tactic(auto, unfolding(crate::specs::Lines::row_at))]
    fn read(&self, bytes: &'a [u8]) -> Result<(FzRow, &'a [u8]), Miss> {
        let (name, rest) = given!(row_name(bytes));
        let rest = given!(expect(b"(", rest));
        let (args, rest) = given!(all_arguments(self.alloc, self.names, rest));
        let (defines, rest) = given!(definition(self.names, rest));
        Ok((
            FzRow {
                name,
                args,
                defines,
            },
            rest,
        ))
    }
}

#[tactic(auto, unfolding(crate::specs::Lines::satisfy_at))]
fn satisfy(bytes: &[u8]) -> Result<(FzGoal, &[u8]), Miss>
    ensures { Gives (with_rest (λ g. g)) result (satisfy_at bytes.now) }
{
    let rest = given!(expect(b"satisfy;\n", bytes));
    Ok((FzGoal::Satisfy, rest))
}

#[tactic(auto, unfolding(crate::specs::Lines::objective_at))]
fn minimize<'a>(names: &NameTable<'a>, bytes: &'a [u8]) -> Result<(FzGoal, &'a [u8]), Miss>
    ensures { Gives (with_rest (λ g. g)) result (objective_at names.now Minimize bytes.now) }
{
    let (k, rest) = given!(place(names, bytes));
    let rest = given!(expect(b";\n", rest));
    Ok((FzGoal::Minimize(k), rest))
}

#[tactic(auto, unfolding(crate::specs::Lines::objective_at))]
fn maximize<'a>(names: &NameTable<'a>, bytes: &'a [u8]) -> Result<(FzGoal, &'a [u8]), Miss>
    ensures { Gives (with_rest (λ g. g)) result (objective_at names.now Maximize bytes.now) }
{
    let (k, rest) = given!(place(names, bytes));
    let rest = given!(expect(b";\n", rest));
    Ok((FzGoal::Maximize(k), rest))
}

#[tactic(auto, unfolding(crate::specs::Lines::optimum_at))]
fn optimum<'a>(names: &NameTable<'a>, bytes: &'a [u8]) -> Result<(FzGoal, &'a [u8]), Miss>
    ensures { Gives (with_rest (λ g. g)) result (optimum_at names.now bytes.now) }
{
    match behind(b"minimize ", bytes) {
        Some(rest) => minimize(names, rest),
        None => match behind(b"maximize ", bytes) {
            Some(rest) => maximize(names, rest),
            None => satisfy(bytes),
        },
    }
}

/// The solve item's line.
#[tactic(auto, unfolding(crate::specs::Lines::goal_at))]
pub(crate) fn goal<'a>(names: &NameTable<'a>, bytes: &'a [u8]) -> Result<(FzGoal, &'a [u8]), Miss>
    ensures { Gives (with_rest (λ g. g)) result (goal_at names.now bytes.now) }
{
    let rest = given!(expect(b"solve ", bytes));
    optimum(names, rest)
}
