// A program that each call of the builder adds to: a variable, an array, a row, and the square of
// the variable as a defined variable, with the domain that the builder gives it.

ghost use Rattle.std.specs.Prelude.{◌≡◌, IfOk, OnOk, map, string_bytes};
ghost use Rattle.fz_program.specs.Arguments.{argument};
ghost use Rattle.fz_program.specs.Flat.{array_item, variable};
ghost use Rattle.fz_build.specs.Build.{empty};
ghost use Rattle.cases_flatten.specs.Steps.{factors, operands, with_order, with_x, with_xs, x, xs};

use cases::Page;
use fz_build::Build;
use fz_program::{Arg, Domain, FzArray, FzGoal, FzName, FzProgram, FzVar, RowName};
use mz_base::Memory;
use mz_value::RangeSet;
use std::alloc::Global;

fn label(alloc: Global, text: &str) -> Result<FzName, Memory>
    ensures { IfOk result (λ n. string_bytes n.text ≡ text.now) }
{
    Ok(FzName {
        text: String::from_str(alloc, text)?,
    })
}

// `x` of 1..3.
fn x(alloc: Global) -> Result<FzVar, Memory>
    ensures { IfOk result (λ v. variable v ≡ x) }
{
    Ok(FzVar {
        label: label(alloc, "x")?,
        domain: Domain::Ints(RangeSet::range(alloc, 1, 3)?),
        introduced: false,
        defined: false,
        output: true,
    })
}

// The array of `x` alone.
fn xs(alloc: Global) -> Result<FzArray, Memory>
    ensures { IfOk result (λ a. array_item a ≡ xs) }
{
    let index = vec![in alloc; (1, 1)]?;
    let items = vec![in alloc; 0]?;
    Ok(FzArray {
        label: label(alloc, "xs")?,
        index,
        items,
    })
}

fn operands(alloc: Global) -> Result<Vec<Arg>, Memory>
    ensures { IfOk result (λ all. map argument all.items ≡ operands) }
{
    Ok(vec![in alloc; Arg::Var(0), Arg::Int(2)]?)
}

fn factors(alloc: Global) -> Result<Vec<Arg>, Memory>
    ensures { IfOk result (λ all. map argument all.items ≡ factors) }
{
    Ok(vec![in alloc; Arg::Var(0), Arg::Var(0)]?)
}

fn declare_x(alloc: Global, build: &mut Build) -> Result<(), Memory>
    requires { build.old ≡ empty }
    ensures { OnOk result (build.new ≡ with_x) }
{
    let v = x(alloc)?;
    build.declare(v)?;
    Ok(())
}

fn add_xs(alloc: Global, build: &mut Build) -> Result<(), Memory>
    requires { build.old ≡ with_x }
    ensures { OnOk result (build.new ≡ with_xs) }
{
    let a = xs(alloc)?;
    build.array(a)?;
    Ok(())
}

fn post_order(alloc: Global, build: &mut Build) -> Result<(), Memory>
    requires { build.old ≡ with_xs }
    ensures { OnOk result (build.new ≡ with_order) }
{
    let args = operands(alloc)?;
    build.post(RowName::IntLe, &args)?;
    Ok(())
}

// The square of `x`, with its domain.
#[tactic(auto, using(crate::proofs::Allowed::may_ask, crate::proofs::Allowed::has_domain, crate::proofs::Allowed::may_define))]
fn define_square(alloc: Global, build: &mut Build) -> Result<(), Memory>
    requires { build.old ≡ with_order }
{
    let inputs = given!(factors(alloc));
    let domain = given!(build.result(RowName::IntTimes, &inputs));
    given!(build.define(RowName::IntTimes, &inputs, domain));
    Ok(())
}

/// Builds the program, with the next introduced name printed before and after a variable is defined.
pub fn built(alloc: Global, page: &mut Page) -> Result<FzProgram, Memory> {
    let mut build = Build::new(alloc);
    given!(declare_x(alloc, &mut build));
    given!(add_xs(alloc, &mut build));
    given!(post_order(alloc, &mut build));
    page.line(given!(build.next_name()).text);
    given!(define_square(alloc, &mut build));
    page.line(given!(build.next_name()).text);
    Ok(build.finish(FzGoal::Satisfy))
}
