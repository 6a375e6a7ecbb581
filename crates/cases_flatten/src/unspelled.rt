// Programs that aren't well formed, and that no text is read to.

use cases::Page;
use fz_program::{Arg, FzArray, FzGoal, FzName, FzProgram, FzRow, RowName, well_formed};
use mz_base::Memory;
use std::alloc::{AllocError, Global};

/// Whether a program without variables is well formed.
fn is_formed(alloc: Global, arrays: Vec<FzArray>, rows: Vec<FzRow>) -> bool {
    let p = FzProgram {
        vars: Vec::new(alloc),
        arrays,
        rows,
        goal: FzGoal::Satisfy,
    };
    well_formed(&p)
}

/// Whether a program of one row is.
fn of_row(alloc: Global, name: RowName, args: Vec<Arg>) -> Result<bool, AllocError> {
    let row = FzRow {
        name,
        args,
        defines: None,
    };
    let rows = vec![in alloc; row]?;
    Ok(is_formed(alloc, Vec::new(alloc), rows))
}

fn undeclared(alloc: Global) -> Result<bool, AllocError> {
    let args = vec![in alloc; Arg::Int(1), Arg::Var(9)]?;
    of_row(alloc, RowName::IntLt, args)
}

fn nested(alloc: Global) -> Result<bool, AllocError> {
    let term = vec![in alloc; Arg::Int(1)]?;
    let terms = vec![in alloc; Arg::Array(term)]?;
    let coefficients = vec![in alloc; Arg::Int(1)]?;
    let args = vec![in alloc; Arg::Array(coefficients), Arg::Array(terms), Arg::Int(0)]?;
    of_row(alloc, RowName::IntLinLe, args)
}

/// An array of no element.
fn array(alloc: Global, name: &str) -> Result<FzArray, AllocError> {
    let text = given!(String::from_str(alloc, name));
    let index = vec![in alloc; (1, 0)]?;
    Ok(FzArray {
        label: FzName { text },
        index,
        items: Vec::new(alloc),
    })
}

/// Whether a program of two arrays with these names is well formed.
fn of_arrays(alloc: Global, first: &str, second: &str) -> Result<bool, AllocError> {
    let one = given!(array(alloc, first));
    let two = given!(array(alloc, second));
    let arrays = vec![in alloc; one, two]?;
    Ok(is_formed(alloc, arrays, Vec::new(alloc)))
}

pub fn print(alloc: Global, page: &mut Page) -> Result<(), Memory> {
    page.case("a place without a variable", undeclared(alloc)?);
    page.case("an array in an array", nested(alloc)?);
    page.case("two names", of_arrays(alloc, "q", "r")?);
    page.case("a name that stands twice", of_arrays(alloc, "q", "q")?);
    Ok(())
}
