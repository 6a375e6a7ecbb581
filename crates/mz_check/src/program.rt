// The typed program, from its typed sections.

ghost use Rattle.std.specs.Prelude.{◌≡◌, ◌<◌, All, length, map, IfOk};
ghost use Rattle.mz_base.specs.Names.{text_of};
ghost use Rattle.mz_value.specs.Contents.{text_bytes, case_names};
ghost use Rattle.mz_core.specs.Program.{plain_program};
ghost use Rattle.mz_scope_order.specs.Scoped.{scoped_tree, enum_tree};
ghost use Rattle.mz_check_meaning.specs.Checks.{IsProgramOf};
ghost use Rattle.mz_check_exprs.specs.NamedModels.{HasNamedCases, AreNamed};
ghost use Rattle.mz_check.specs.StepsParts.{sections_of};
ghost use Rattle.mz_check_data.specs.WithData.{AreNumbered};
ghost use Rattle.mz_check.specs.StepsProgram.{AreTexted, case_texts};

use crate::parts::TypedSections;
use crate::placing::{in_source_order, places_of};
use mz_base::{Memory, Name, Names, Span};
use mz_check_data::texts_of;
use mz_core::Program;
use mz_scope_order::{Scoped, ScopedEnum};
use mz_value::{Cases, TextValue};
use std::alloc::Global;

/// The text of a name.
fn text_value(alloc: Global, names: &Names, n: Name) -> Result<TextValue, Memory>
    requires { n < length names.now }
    ensures { IfOk result (λ t. text_bytes t ≡ text_of names.now n) }
{
    let text = String::from_str(alloc, names.text(n))?;
    Ok(TextValue { text })
}

/// The names of an enum's cases.
fn cases_of(alloc: Global, names: &Names, cases: &[(Name, Span)]) -> Result<Vec<TextValue>, Memory>
    requires { All (λ c. c.0 < length names.now) cases.now }
    ensures { IfOk result (λ v. map text_bytes v.items ≡ map (λ c. text_of names.now c.0) cases.now) }
{
    let mut all = Vec::new(alloc);
    for c in cases {
        let text = text_value(alloc, names, c.0)?;
        all.push(text)?;
    }
    Ok(all)
}

/// The names of each enum's cases.
fn all_cases(alloc: Global, names: &Names, enums: &[ScopedEnum]) -> Result<Cases, Memory>
    requires { All (HasNamedCases (length names.now)) (map enum_tree enums.now) }
    ensures { IfOk result (λ v. case_names v ≡ map (case_texts names.now) (map enum_tree enums.now)) }
{
    let mut all = Vec::new(alloc);
    for e in enums {
        let cases = cases_of(alloc, names, e.cases.as_slice())?;
        all.push(cases)?;
    }
    Ok(Cases { names: all })
}

/// The program of these sections. Its declarations stand in source order.
pub(crate) fn program_of(
    alloc: Global,
    scoped: &Scoped<'_>,
    names: &Names,
    sections: TypedSections,
) -> Result<Program, Memory>
    requires named { AreNamed (length names.now) (scoped_tree scoped.now) }
    requires texted { AreTexted (length names.now) (sections_of sections) }
    requires numbered { AreNumbered (sections_of sections).decls }
    ensures { IfOk result (λ p. IsProgramOf names.now (scoped_tree scoped.now) (sections_of sections) (plain_program p)) }
{
    let TypedSections {
        decls,
        functions,
        constraints,
        goal,
        outputs,
    } = sections;
    let decls = in_source_order(decls);
    let order = places_of(alloc, decls.as_slice())?;
    let cases = all_cases(alloc, names, scoped.enums.as_slice())?;
    let texts = texts_of(
        alloc,
        names,
        decls.as_slice(),
        functions.as_slice(),
        constraints.as_slice(),
        &goal,
        outputs.as_slice(),
    )?;
    Ok(Program {
        cases,
        texts,
        decls,
        order,
        functions,
        constraints,
        goal,
        outputs,
    })
}
