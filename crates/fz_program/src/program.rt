// The types of a FlatZinc program, as the FlatZinc chapter of the MiniZinc Handbook has its items.

use crate::row_name::RowName;
use mz_value::RangeSet;

/// A variable's or an array's name. In a well-formed program it is an identifier, and no other
/// variable or array has it.
#[derive(Drop)]
pub struct FzName {
    /// The name as it is written.
    pub text: String,
}

/// The values that a variable may take.
#[derive(Drop)]
pub enum Domain {
    /// False and true.
    Bool,
    /// The integers of a set, which isn't empty in a well-formed program.
    Ints(RangeSet),
    /// The subsets of a set, which may be empty.
    SetOf(RangeSet),
}

/// A variable item, with its marks. In a well-formed program it has no mark, `output` alone,
/// `introduced` alone, or `introduced` and `defined`.
#[derive(Drop)]
pub struct FzVar {
    /// Its name.
    pub label: FzName,
    /// The values that it may take.
    pub domain: Domain,
    /// Whether it is marked `var_is_introduced`: the compiler made it.
    pub introduced: bool,
    /// Whether it is marked `is_defined_var`: a row defines it.
    pub defined: bool,
    /// Whether it is marked `output_var`: solvers print its value.
    pub output: bool,
}

/// An array item, which is marked `output_array`: solvers print its values.
#[derive(Drop)]
pub struct FzArray {
    /// Its name.
    pub label: FzName,
    /// The least and the greatest index of each dimension, both inclusive; 1 and 0 where it has
    /// none. In a well-formed program these give as many places as there are items.
    pub index: Vec<(i64, i64)>,
    /// Its elements: variables of one kind, by their places in the program's `vars`, from 0.
    pub items: Vec<u64>,
}

/// An argument of a row.
#[derive(Drop)]
pub enum Arg {
    /// A truth value.
    Bool(bool),
    /// A number, of -2^61 to 2^61 in a well-formed program.
    Int(i64),
    /// A set of integers.
    Set(RangeSet),
    /// A variable, by its place in the program's `vars`, from 0.
    Var(u64),
    /// An array of arguments that are no arrays themselves.
    Array(Vec<Arg>),
}

/// A constraint item.
#[derive(Drop)]
pub struct FzRow {
    /// The constraint that it posts.
    pub name: RowName,
    /// Its arguments, in order, of the kinds that the constraint takes in a well-formed program.
    pub args: Vec<Arg>,
    /// The variable that it is marked to define (`defines_var`), by its place in the program's
    /// `vars`, from 0. In a well-formed program it stands among the arguments, or in one of them.
    pub defines: Option<u64>,
}

/// What the solve item asks for.
#[derive(Clone, Copy, PartialEq, Eq)]
pub enum FzGoal {
    /// `satisfy`: any solution.
    Satisfy,
    /// `minimize`: a solution with the least value of this integer variable, by its place.
    Minimize(u64),
    /// `maximize`: a solution with the greatest value of this integer variable, by its place.
    Maximize(u64),
}

/// A FlatZinc program: its items in the order in which they are written.
#[derive(Drop)]
pub struct FzProgram {
    /// The variable items.
    pub vars: Vec<FzVar>,
    /// The array items.
    pub arrays: Vec<FzArray>,
    /// The constraint items.
    pub rows: Vec<FzRow>,
    /// The solve item.
    pub goal: FzGoal,
}
