// A FlatZinc program's text and its parts. Each function that takes `out` appends its part to it; after an `Err`
// some prefix of it may stand there.

ghost use Rattle.std.specs.Prelude.{◌≡◌, ◌++◌, ◌≤ℤ◌, ◌∷◌, codes, map, Some, IfOk, OnOk};
ghost use Rattle.std.specs.Fmt.{signed_decimal};
ghost use Rattle.std.specs.List.{flat_map};
ghost use Rattle.mz_value.specs.Ranges.{AreCanonical};
ghost use Rattle.fz_program.specs.Arguments.{argument, plain, plains};
ghost use Rattle.fz_program.specs.Flat.{array_item, labels_of, program, row, variable};
ghost use Rattle.fz_text.specs.Spelling.{
  argument_list,
  argument_text,
  array_line,
  array_text,
  braces,
  commas,
  definition,
  domain_text,
  elements,
  goal_line,
  interval,
  label_at,
  mark,
  numbers,
  plain_text,
  row_line,
  set,
  spelling,
  truth,
  variable_line,
};

use crate::array::push_array;
use fz_program::{Arg, Domain, FzArray, FzGoal, FzProgram, FzRow, FzVar, name_of};
use itoa::Buffer;
use mz_value::RangeSet;
use std::alloc::{AllocError, Global};

/// The program's one spelling: a line for each variable, each array, each constraint and the solve
/// item, in the order of the program, as the FlatZinc chapter of the MiniZinc Handbook has them.
pub fn text(alloc: Global, p: &FzProgram) -> Result<Vec<u8>, AllocError>
    ensures { IfOk result (λ t. t.items ≡ spelling (program p.now)) }
{
    let mut out = Vec::new(alloc);
    given!(push_variables(&p.vars, &mut out));
    given!(push_arrays(&p.vars, &p.arrays, &mut out));
    given!(push_rows(&p.vars, &p.rows, &mut out));
    given!(push_goal(&p.vars, p.goal, &mut out));
    Ok(out)
}

// A line for each variable.
fn push_variables(vars: &[FzVar], out: &mut Vec<u8>) -> Result<(), AllocError>
    ensures { OnOk result (out.new.items
        ≡ out.old.items ++ flat_map variable_line (map variable vars.now)) }
{
    for v in vars {
        given!(push_variable(v, out));
    }
    Ok(())
}

// A line for each row.
fn push_rows(vars: &[FzVar], rows: &[FzRow], out: &mut Vec<u8>) -> Result<(), AllocError>
    ensures { OnOk result (out.new.items
        ≡ out.old.items ++ flat_map (row_line (labels_of (map variable vars.now))) (map row rows.now)) }
{
    for r in rows {
        given!(push_row(vars, r, out));
    }
    Ok(())
}

// A line for each array.
fn push_arrays(vars: &[FzVar], arrays: &[FzArray], out: &mut Vec<u8>) -> Result<(), AllocError>
    ensures { OnOk result (out.new.items
        ≡ out.old.items ++ flat_map (array_line (map variable vars.now)) (map array_item arrays.now)) }
{
    for a in arrays {
        given!(push_array(vars, a, out));
    }
    Ok(())
}

// The solve item's line.
#[tactic(auto, unfolding(crate::specs::Spelling::goal_line))]
fn push_goal(vars: &[FzVar], goal: FzGoal, out: &mut Vec<u8>) -> Result<(), AllocError>
    ensures { OnOk result (out.new.items
        ≡ out.old.items ++ goal_line (labels_of (map variable vars.now)) goal) }
{
    match goal {
        FzGoal::Satisfy => push_text(b"solve satisfy;\n", out),
        FzGoal::Minimize(k) => push_objective(vars, b"solve minimize ", k, out),
        FzGoal::Maximize(k) => push_objective(vars, b"solve maximize ", k, out),
    }
}

fn push_objective(vars: &[FzVar], text: &[u8], k: u64, out: &mut Vec<u8>) -> Result<(), AllocError>
    ensures { OnOk result (out.new.items ≡ out.old.items
        ++ text.now ++ label_at (labels_of (map variable vars.now)) k ++ codes ";\n") }
{
    given!(push_text(text, out));
    given!(push_label(vars, k, out));
    push_text(b";\n", out)
}

fn push_variable(v: &FzVar, out: &mut Vec<u8>) -> Result<(), AllocError>
    ensures { OnOk result (out.new.items ≡ out.old.items ++ variable_line (variable v.now)) }
{
    given!(push_text(b"var ", out));
    given!(push_domain(&v.domain, out));
    given!(push_text(b": ", out));
    given!(push_text(v.label.text.as_bytes(), out));
    given!(push_mark(v.output, b"output_var", out));
    given!(push_mark(v.introduced, b"var_is_introduced", out));
    given!(push_mark(v.defined, b"is_defined_var", out));
    push_text(b";\n", out)
}

fn push_row(vars: &[FzVar], r: &FzRow, out: &mut Vec<u8>) -> Result<(), AllocError>
    ensures { OnOk result (out.new.items
        ≡ out.old.items ++ row_line (labels_of (map variable vars.now)) (row r.now)) }
{
    given!(push_text(b"constraint ", out));
    given!(push_text(name_of(r.name), out));
    given!(push_text(b"(", out));
    given!(push_arguments(vars, &r.args, out));
    given!(push_text(b")", out));
    given!(push_definition(vars, r.defines, out));
    push_text(b";\n", out)
}

#[tactic(auto, unfolding(crate::specs::Spelling::domain_text))]
fn push_domain(domain: &Domain, out: &mut Vec<u8>) -> Result<(), AllocError>
    ensures { OnOk result (out.new.items ≡ out.old.items ++ domain_text domain.now) }
{
    match domain {
        Domain::Bool => push_text(b"bool", out),
        Domain::Ints(s) => push_set(s, out),
        Domain::SetOf(s) => push_set_of(s, out),
    }
}

fn push_set_of(s: &RangeSet, out: &mut Vec<u8>) -> Result<(), AllocError>
    ensures { OnOk result (out.new.items ≡ out.old.items ++ codes "set of " ++ set s.now) }
{
    given!(push_text(b"set of ", out));
    push_set(s, out)
}

fn push_set(s: &RangeSet, out: &mut Vec<u8>) -> Result<(), AllocError>
    ensures { OnOk result (out.new.items ≡ out.old.items ++ set s.now) }
{
    match s.ranges() {
        [] => push_text(b"1..0", out),
        [first, rest @ ..] => push_ranges(*first, rest, out),
    }
}

pub(crate) fn push_ranges(
    first: (i64, i64),
    rest: &[(i64, i64)],
    out: &mut Vec<u8>,
) -> Result<(), AllocError>
    requires { AreCanonical (first ∷ rest.now) }
    ensures { OnOk result (out.new.items ≡ out.old.items ++ set (first ∷ rest.now)) }
{
    if rest.is_empty() {
        push_interval(first, out)
    } else {
        push_braces(first, rest, out)
    }
}

pub(crate) fn push_interval(range: (i64, i64), out: &mut Vec<u8>) -> Result<(), AllocError>
    ensures { OnOk result (out.new.items ≡ out.old.items ++ interval range) }
{
    given!(push_number(range.0, out));
    given!(push_text(b"..", out));
    push_number(range.1, out)
}

// The elements of several ranges, in braces.
fn push_braces(first: (i64, i64), rest: &[(i64, i64)], out: &mut Vec<u8>) -> Result<(), AllocError>
    requires { AreCanonical (first ∷ rest.now) }
    ensures { OnOk result (out.new.items ≡ out.old.items ++ braces (first ∷ rest.now)) }
{
    given!(push_text(b"{", out));
    given!(push_elements(first, rest, out));
    push_text(b"}", out)
}

fn push_elements(
    first: (i64, i64),
    rest: &[(i64, i64)],
    out: &mut Vec<u8>,
) -> Result<(), AllocError>
    requires { AreCanonical (first ∷ rest.now) }
    ensures { OnOk result (out.new.items
        ≡ out.old.items ++ numbers (flat_map elements (first ∷ rest.now))) }
{
    given!(push_numbers(first, out));
    for r in rest {
        given!(push_text(b",", out));
        given!(push_numbers(*r, out));
    }
    Ok(())
}

// The integers of a range, with commas between them.
fn push_numbers(range: (i64, i64), out: &mut Vec<u8>) -> Result<(), AllocError>
    requires { range.0 ≤ℤ range.1 }
    ensures { OnOk result (out.new.items ≡ out.old.items ++ numbers (elements range)) }
{
    let mut n = range.0;
    given!(push_number(n, out));
    while n < range.1 {
        n += 1;
        given!(push_text(b",", out));
        given!(push_number(n, out));
    }
    Ok(())
}

fn push_number(n: i64, out: &mut Vec<u8>) -> Result<(), AllocError>
    ensures { OnOk result (out.new.items ≡ out.old.items ++ signed_decimal n) }
{
    let mut buffer = Buffer::new();
    push_text(buffer.format(n).as_bytes(), out)
}

// A mark, where the variable has it.
fn push_mark(has: bool, text: &[u8], out: &mut Vec<u8>) -> Result<(), AllocError>
    ensures { OnOk result (out.new.items ≡ out.old.items ++ mark has text.now) }
{
    if !has {
        return Ok(());
    }
    given!(push_text(b" :: ", out));
    out.extend_from_slice(text)
}

// Arguments with commas between them.
fn push_arguments(vars: &[FzVar], args: &[Arg], out: &mut Vec<u8>) -> Result<(), AllocError>
    ensures { OnOk result (out.new.items ≡ out.old.items
        ++ argument_list (labels_of (map variable vars.now)) (map argument args.now)) }
{
    match args {
        [] => Ok(()),
        [first, rest @ ..] => {
            given!(push_argument(vars, first, out));
            push_more_arguments(vars, rest, out)
        }
    }
}

// Arguments, with a comma before each.
fn push_more_arguments(vars: &[FzVar], args: &[Arg], out: &mut Vec<u8>) -> Result<(), AllocError>
    ensures { OnOk result (out.new.items ≡ out.old.items
        ++ flat_map (λ a. 44 ∷ argument_text (labels_of (map variable vars.now)) (argument a)) args.now) }
{
    for a in args {
        given!(push_text(b",", out));
        given!(push_argument(vars, a, out));
    }
    Ok(())
}

#[tactic(auto, unfolding(crate::specs::Spelling::argument_text))]
fn push_argument(vars: &[FzVar], arg: &Arg, out: &mut Vec<u8>) -> Result<(), AllocError>
    ensures { OnOk result (out.new.items
        ≡ out.old.items ++ argument_text (labels_of (map variable vars.now)) (argument arg.now)) }
{
    match arg {
        Arg::Array(items) => push_array_of(vars, items, out),
        _ => push_plain(vars, arg, out),
    }
}

// Elements with commas between them, in brackets.
fn push_array_of(vars: &[FzVar], items: &[Arg], out: &mut Vec<u8>) -> Result<(), AllocError>
    ensures { OnOk result (out.new.items
        ≡ out.old.items ++ array_text (labels_of (map variable vars.now)) (plains items.now)) }
{
    given!(push_text(b"[", out));
    given!(push_plains(vars, items, out));
    push_text(b"]", out)
}

fn push_plains(vars: &[FzVar], items: &[Arg], out: &mut Vec<u8>) -> Result<(), AllocError>
    ensures { OnOk result (out.new.items ≡ out.old.items
        ++ commas (map (plain_text (labels_of (map variable vars.now))) (plains items.now))) }
{
    match items {
        [] => Ok(()),
        [first, rest @ ..] => {
            given!(push_plain(vars, first, out));
            push_more_plains(vars, rest, out)
        }
    }
}

// Elements, with a comma before each.
fn push_more_plains(vars: &[FzVar], items: &[Arg], out: &mut Vec<u8>) -> Result<(), AllocError>
    ensures { OnOk result (out.new.items ≡ out.old.items
        ++ flat_map (λ a. 44 ∷ plain_text (labels_of (map variable vars.now)) (plain a)) items.now) }
{
    for a in items {
        given!(push_text(b",", out));
        given!(push_plain(vars, a, out));
    }
    Ok(())
}

// An argument that is no array, nothing for an array.
#[tactic(auto, unfolding(crate::specs::Spelling::plain_text))]
fn push_plain(vars: &[FzVar], arg: &Arg, out: &mut Vec<u8>) -> Result<(), AllocError>
    ensures { OnOk result (out.new.items
        ≡ out.old.items ++ plain_text (labels_of (map variable vars.now)) (plain arg.now)) }
{
    match arg {
        Arg::Bool(b) => push_truth(*b, out),
        Arg::Int(n) => push_number(*n, out),
        Arg::Set(s) => push_set(s, out),
        Arg::Var(k) => push_label(vars, *k, out),
        Arg::Array(_) => Ok(()),
    }
}

fn push_truth(b: bool, out: &mut Vec<u8>) -> Result<(), AllocError>
    ensures { OnOk result (out.new.items ≡ out.old.items ++ truth b) }
{
    push_text(truth_text(b), out)
}

fn truth_text(b: bool) -> &'static [u8]
    ensures { result.now ≡ truth b }
{
    if b { b"true" } else { b"false" }
}

// The name of the variable at place `k`, nothing where there is none.
pub(crate) fn push_label(vars: &[FzVar], k: u64, out: &mut Vec<u8>) -> Result<(), AllocError>
    ensures { OnOk result (out.new.items
        ≡ out.old.items ++ label_at (labels_of (map variable vars.now)) k) }
{
    match vars.get(k as usize) {
        Some(v) => push_text(v.label.text.as_bytes(), out),
        None => Ok(()),
    }
}

// The mark of the variable that a row defines, where it defines one.
fn push_definition(
    vars: &[FzVar],
    defines: Option<u64>,
    out: &mut Vec<u8>,
) -> Result<(), AllocError>
    ensures { OnOk result (out.new.items
        ≡ out.old.items ++ definition (labels_of (map variable vars.now)) defines) }
{
    match defines {
        None => Ok(()),
        Some(k) => push_defined(vars, k, out),
    }
}

fn push_defined(vars: &[FzVar], k: u64, out: &mut Vec<u8>) -> Result<(), AllocError>
    ensures { OnOk result (out.new.items
        ≡ out.old.items ++ definition (labels_of (map variable vars.now)) (Some k)) }
{
    given!(push_text(b" :: defines_var(", out));
    given!(push_label(vars, k, out));
    push_text(b")", out)
}

pub(crate) fn push_text(text: &[u8], out: &mut Vec<u8>) -> Result<(), AllocError>
    ensures { OnOk result (out.new.items ≡ out.old.items ++ text.now) }
{
    out.extend_from_slice(text)
}
