// The builder: a program, to which items are added.

ghost use Rattle.std.specs.Prelude.{◌≡◌, ◌∷◌, ◌++◌, [], IfOk, OnOk, OnErr, map, length, string_bytes, true, false, Some, IsSome as IsThere};
ghost use Rattle.fz_program.specs.Arguments.{argument, one, plain, var as variable_at};
ghost use Rattle.fz_program.specs.Flat.{IsOfSet, IsSome, IsWellFormedRow, WellFormed, array_item, is_goal, program, row, variable};
ghost use Rattle.fz_build.specs.Bounds.{AreInputs, HoldsResults, ends_of, result_domain};
ghost use Rattle.fz_build.specs.Build.{MayAdd, MayDeclare, constraint, empty, introduced_variable, with_array, with_goal, with_row, with_variable};
ghost use Rattle.fz_build.specs.Naming.{introduced_name, next_number};
ghost use Rattle.fz_build.specs.Asked.{MayDefine};
ghost use Rattle.fz_build.specs.Growth.{Declares, Defines, EndsEnclose, IsAdded, Posts};

use crate::naming::{introduced_name, number_after};
use crate::result_row::args_with;
use crate::{copied_all, ends_of, result_domain};
use fz_program::{Arg, Domain, FzArray, FzGoal, FzName, FzProgram, FzRow, FzVar, RowName};
use mz_base::Memory;
use std::alloc::Global;
use std::marker::Model;

/// A FlatZinc program that is being built. It is well formed at all times.
///
/// Contracts see it as the program so far, with the solve item `satisfy`. After `Memory` of any call
/// the program is unchanged.
#[derive(Drop)]
pub struct Build {
    vars: Vec<FzVar>,
    arrays: Vec<FzArray>,
    rows: Vec<FzRow>,
    // the number of the next introduced variable
    next: u64,
    alloc: Global,
}

impl Model for Build {
    ghost use Rattle.std.specs.Prelude.{◌≡◌, map};
    ghost use Rattle.fz_program.specs.Flat.{Program, array_item, row, variable};
    ghost use Rattle.fz_build.specs.Naming.{next_number};
    ghost use Rattle.fz_build.specs.Build.{IsBuilt, items};

    ghost Value = { Program };

    ghost view = { λ b. items b.vars.items b.arrays.items b.rows.items };

    ghost invariant = { λ b. IsBuilt (items b.vars.items b.arrays.items b.rows.items)
        × (b.next ≡ next_number (map variable b.vars.items)) };
}

impl Build {
    /// A builder of a program with no item but the solve item.
    pub fn new(alloc: Global) -> Build
        ensures { result ≡ empty }
    {
        Build {
            vars: Vec::new(alloc),
            arrays: Vec::new(alloc),
            rows: Vec::new(alloc),
            next: 0,
            alloc,
        }
    }

    /// The name of the next introduced variable: `X_INTRODUCED_k_`, where `k` is how many
    /// introduced variables there are.
    pub fn next_name(&self) -> Result<FzName, Memory>
        ensures { IfOk result (λ n. string_bytes n.text ≡ introduced_name (next_number self.now.vars)) }
    {
        introduced_name(self.alloc, self.next)
    }

    /// Adds a variable that no row defines yet, and gives it as an argument.
    ///
    /// It is well formed and has a new name: that of `next_name` where it is marked as introduced, and
    /// none of that form where it isn't.
    pub fn declare(&mut self, var: FzVar) -> Result<Arg, Memory>
        requires { MayDeclare self.old (variable var) }
        ensures added { OnOk result (self.new ≡ with_variable self.old (variable var)) }
        ensures place { IfOk result (λ out. argument out ≡ one (variable_at (length self.old.vars))) }
        ensures declares { IfOk result (λ out. Declares self.old self.new (variable var).domain (argument out)) }
        ensures err { OnErr result (self.new ≡ self.old) }
    {
        let k = self.vars.len() as u64;
        let introduced = var.introduced;
        self.vars.push(var)?;
        self.next = number_after(introduced, self.next);
        Ok(Arg::Var(k))
    }

    /// Adds an introduced variable with this domain that no row defines, and gives it as an argument.
    /// The domain has a value.
    pub fn introduce(&mut self, domain: Domain) -> Result<Arg, Memory>
        requires { IsSome domain }
        ensures added { OnOk result (self.new ≡ with_variable self.old (introduced_variable self.old domain)) }
        ensures declares { IfOk result (λ out. Declares self.old self.new domain (argument out)) }
        ensures err { OnErr result (self.new ≡ self.old) }
    {
        has_set(&domain);
        let label = given!(introduced_name(self.alloc, self.next));
        self.declare(introduced_variable(label, domain))
    }

    /// Adds an array of variables that are there. It is well formed and has a new name, which is no
    /// introduced variable's.
    pub fn array(&mut self, a: FzArray) -> Result<(), Memory>
        requires { MayAdd self.old (array_item a) }
        ensures added { OnOk result (self.new ≡ with_array self.old (array_item a)) }
        ensures err { OnErr result (self.new ≡ self.old) }
    {
        self.arrays.push(a)?;
        Ok(())
    }

    /// Adds a well-formed row that defines no variable.
    pub fn post(&mut self, name: RowName, args: &[Arg]) -> Result<(), Memory>
        requires { IsWellFormedRow self.old.vars (constraint name (map argument args.now)) }
        ensures added { OnOk result (self.new ≡ with_row self.old (constraint name (map argument args.now))) }
        ensures posts { OnOk result (Posts self.old self.new (constraint name (map argument args.now))) }
        ensures err { OnErr result (self.new ≡ self.old) }
    {
        let args = copied_all(self.alloc, args)?;
        self.rows.push(FzRow {
            name,
            args,
            defines: None,
        })?;
        Ok(())
    }

    /// Adds an introduced variable with this domain, marked as defined, and the row that defines it
    /// from these inputs, and gives the variable as an argument.
    ///
    /// The variable is the row's last argument; in `int_lin_eq`, whose inputs are the coefficients,
    /// the integers and the constant, it stands last among the integers, and -1 last among the
    /// coefficients. The row has a result, its inputs are variables that are there, and it is well
    /// formed with the new variable.
    ///
    /// Each solution of the program before, under which the inputs have a result in the domain, goes
    /// on to one solution, in which the variable is that result. The clauses would hold as well of an
    /// older variable that such a row defines already, with the program unchanged.
    pub fn define(&mut self, name: RowName, inputs: &[Arg], domain: Domain) -> Result<Arg, Memory>
        requires { MayDefine self.old name (map argument inputs.now) domain }
        ensures added { OnOk result (IsAdded self.old self.new name (map argument inputs.now) domain) }
        ensures defines { IfOk result (λ out. Defines self.old self.new name (map argument inputs.now) domain (argument out)) }
        ensures err { OnErr result (self.new ≡ self.old) }
    {
        has_set(&domain);
        let k = self.vars.len() as u64;
        let label = given!(introduced_name(self.alloc, self.next));
        let args = given!(args_with(self.alloc, name, inputs, k));
        given!(push_both(
            &mut self.vars,
            &mut self.rows,
            defined_variable(label, domain),
            defining_row(name, args, k),
        ));
        self.next = number_after(true, self.next);
        Ok(Arg::Var(k))
    }

    /// The domain of the result that a row has of these inputs. It isn't empty, and holds the result
    /// of all values in the inputs' domains: of an integer it has all from the least to the greatest
    /// that their bounds allow, and of a set it is the greatest set. It depends on the name, the
    /// inputs and their domains alone.
    ///
    /// The row has a result, the inputs are of its kinds, and the bounds of an integer lie in -2^61 to
    /// 2^61.
    pub fn result(&self, name: RowName, inputs: &[Arg]) -> Result<Domain, Memory>
        requires inputs { AreInputs self.now.vars name (map argument inputs.now) }
        requires limit { IsThere (result_domain self.now.vars name (map argument inputs.now)) }
        ensures is { IfOk result (λ d. result_domain self.now.vars name (map argument inputs.now) ≡ Some d) }
        ensures some { IfOk result IsSome }
        ensures holds { IfOk result (λ d. HoldsResults self.now.vars name (map argument inputs.now) d) }
    {
        result_domain(self.alloc, name, &self.vars, inputs)
    }

    /// The least and the greatest that an argument may be by its domain, of a truth value as 0 or 1; 0 and
    /// 0 of a set and of an array. The number that it stands for lies between them in each solution.
    pub fn ends(&self, a: &Arg) -> (i64, i64)
        ensures is { result ≡ ends_of self.now.vars (plain a.now) }
        ensures encloses { EndsEnclose self.now.vars (plain a.now) }
    {
        ends_of(&self.vars, a)
    }

    /// The program with this solve item. It takes no memory.
    pub fn finish(self, goal: FzGoal) -> FzProgram
        requires { is_goal self.vars goal ≡ true }
        ensures items { program result ≡ with_goal self goal }
        ensures well_formed { WellFormed (program result) }
    {
        FzProgram {
            vars: self.vars,
            arrays: self.arrays,
            rows: self.rows,
            goal,
        }
    }
}

// The set of a domain is canonical and in the limit.
fn has_set(domain: &Domain)
    ensures { IsOfSet domain.now }
{
    match domain {
        Domain::Bool => {}
        Domain::Ints(s) => {
            let _ranges = s.ranges();
        }
        Domain::SetOf(s) => {
            let _ranges = s.ranges();
        }
    }
}

// An introduced variable that no row defines.
fn introduced_variable(label: FzName, domain: Domain) -> FzVar
    ensures { variable result ≡ record { label = string_bytes label.text; domain = domain; introduced = true; defined = false; output = false } }
{
    FzVar {
        label,
        domain,
        introduced: true,
        defined: false,
        output: false,
    }
}

// A variable that a row defines.
fn defined_variable(label: FzName, domain: Domain) -> FzVar
    ensures { variable result ≡ record { label = string_bytes label.text; domain = domain; introduced = true; defined = true; output = false } }
{
    FzVar {
        label,
        domain,
        introduced: true,
        defined: true,
        output: false,
    }
}

// The row that defines the variable at place `k`.
fn defining_row(name: RowName, args: Vec<Arg>, k: u64) -> FzRow
    ensures { row result ≡ record { name = name; args = map argument args.items; defines = Some k } }
{
    FzRow {
        name,
        args,
        defines: Some(k),
    }
}

// Adds a variable and a row, or neither.
fn push_both(
    vars: &mut Vec<FzVar>,
    rows: &mut Vec<FzRow>,
    var: FzVar,
    row: FzRow,
) -> Result<(), Memory>
    ensures vars { OnOk result (vars.new.items ≡ vars.old.items ++ var ∷ []) }
    ensures rows { OnOk result (rows.new.items ≡ rows.old.items ++ row ∷ []) }
    ensures vars_err { OnErr result (vars.new.items ≡ vars.old.items) }
    ensures rows_err { OnErr result (rows.new.items ≡ rows.old.items) }
{
    rows.reserve(1)?;
    vars.push(var)?;
    match rows.push(row) {
        Ok(()) => Ok(()),
        Err(_) => unreachable!(),
    }
}
