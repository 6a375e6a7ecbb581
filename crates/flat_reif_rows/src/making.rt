// Variables for nodes.

ghost use Rattle.std.specs.Prelude.{◌≡◌, ◌∷◌, [], IfOk, OnErr, map, Some, true};
ghost use Rattle.mz_arena.specs.declared.node.NodeKind.TheVariants.{Add, Mul};
ghost use Rattle.fz_program.specs.Arguments.{argument, int, plain};
ghost use Rattle.fz_build.specs.Bounds.{ends_of};
ghost use Rattle.flat_reif_rows.specs.NodeRows.{HasDivisor, inputs_by, inputs_of_two, multiple_inputs, row_of_one, row_of_two, sum_inputs};
ghost use Rattle.flat_reif_rows.specs.Making.{AreOperands, Gives, Makes, MayGive};

use crate::constant::factor;
use crate::table::is_joined;
use fz_build::Build;
use fz_program::{Arg, RowName};
use mz_arena::NodeKind;
use mz_base::Memory;
use std::alloc::Global;

/// A variable for what the row gives of these inputs, in the domain of its result.
///
/// The inputs are of the row's kinds, and their result has a domain in the limit.
pub fn defined(build: &mut Build, name: RowName, inputs: &[Arg]) -> Result<Arg, Memory>
    requires { MayGive build.old name (map argument inputs.now) }
    ensures gives { IfOk result (λ out. Gives build.old build.new name (map argument inputs.now) (plain out)) }
    ensures err { OnErr result (build.new ≡ build.old) }
{
    let domain = given!(build.result(name, inputs));
    build.define(name, inputs, domain)
}

/// A variable for a node of this kind, by the row that takes its one child's argument.
///
/// The argument lies within the bounds of a child that such a node may have.
pub fn made_of_one(build: &mut Build, kind: NodeKind, name: RowName, a: Arg) -> Result<Arg, Memory>
    requires row { row_of_one kind ≡ Some name }
    requires operands { AreOperands build.old.vars kind (plain a ∷ []) }
    ensures makes { IfOk result (λ out. Makes build.old build.new kind (plain a ∷ []) (plain out)) }
    ensures err { OnErr result (build.new ≡ build.old) }
{
    let inputs = [a];
    defined(build, name, &inputs)
}

// Both in one array.
fn joined(alloc: Global, a: Arg, b: Arg) -> Result<Vec<Arg>, Memory>
    ensures { IfOk result (λ all. map argument all.items ≡ inputs_by true (argument a) (argument b)) }
{
    let both = vec![in alloc; a, b]?;
    Ok(vec![in alloc; Arg::Array(both)]?)
}

// The inputs of the row of two children.
fn inputs_of_two(alloc: Global, kind: NodeKind, a: Arg, b: Arg) -> Result<Vec<Arg>, Memory>
    ensures { IfOk result (λ all. map argument all.items ≡ inputs_of_two kind (argument a) (argument b)) }
{
    if is_joined(kind) {
        joined(alloc, a, b)
    } else {
        Ok(vec![in alloc; a, b]?)
    }
}

// Once each of two, and the constant 0.
fn sum_inputs(alloc: Global, a: Arg, b: Arg) -> Result<Vec<Arg>, Memory>
    ensures { IfOk result (λ all. map argument all.items ≡ sum_inputs (argument a) (argument b)) }
{
    let once = vec![in alloc; Arg::Int(1), Arg::Int(1)]?;
    let both = vec![in alloc; a, b]?;
    Ok(vec![in alloc; Arg::Array(once), Arg::Array(both), Arg::Int(0)]?)
}

/// A variable for the sum of two integers, by one linear row.
///
/// The arguments lie within the bounds of two children that an `Add` may have.
pub fn made_of_sum(alloc: Global, build: &mut Build, a: Arg, b: Arg) -> Result<Arg, Memory>
    requires { AreOperands build.old.vars Add (plain a ∷ plain b ∷ []) }
    ensures makes { IfOk result (λ out. Makes build.old build.new Add (plain a ∷ plain b ∷ []) (plain out)) }
    ensures err { OnErr result (build.new ≡ build.old) }
{
    let inputs = given!(sum_inputs(alloc, a, b));
    defined(build, RowName::IntLinEq, &inputs)
}

// So many times one, and the constant 0.
fn multiple_inputs(alloc: Global, n: i64, a: Arg) -> Result<Vec<Arg>, Memory>
    ensures { IfOk result (λ all. map argument all.items ≡ multiple_inputs n (argument a)) }
{
    let times = vec![in alloc; Arg::Int(n)]?;
    let of = vec![in alloc; a]?;
    Ok(vec![in alloc; Arg::Array(times), Arg::Array(of), Arg::Int(0)]?)
}

// A variable for a number times an integer, by one linear row.
fn made_of_multiple(alloc: Global, build: &mut Build, n: i64, a: Arg) -> Result<Arg, Memory>
    requires { AreOperands build.old.vars Mul (int n ∷ plain a ∷ []) }
    ensures makes { IfOk result (λ out. Makes build.old build.new Mul (int n ∷ plain a ∷ []) (plain out)) }
    ensures err { OnErr result (build.new ≡ build.old) }
{
    let inputs = given!(multiple_inputs(alloc, n, a));
    defined(build, RowName::IntLinEq, &inputs)
}

// A variable for a node of this kind, by the row that takes its two children's arguments.
fn made_by_row(
    alloc: Global,
    build: &mut Build,
    kind: NodeKind,
    name: RowName,
    a: Arg,
    b: Arg,
) -> Result<Arg, Memory>
    requires row { row_of_two kind ≡ Some name }
    requires operands { AreOperands build.old.vars kind (plain a ∷ plain b ∷ []) }
    requires divisor { HasDivisor kind (ends_of build.old.vars (plain b)) }
    ensures makes { IfOk result (λ out. Makes build.old build.new kind (plain a ∷ plain b ∷ []) (plain out)) }
    ensures err { OnErr result (build.new ≡ build.old) }
{
    let inputs = given!(inputs_of_two(alloc, kind, a, b));
    defined(build, name, &inputs)
}

// A variable for a product of which the second child's argument is a number, by one linear row.
fn made_of_factor(
    alloc: Global,
    build: &mut Build,
    kind: NodeKind,
    n: i64,
    a: Arg,
) -> Result<Arg, Memory>
    requires product { kind ≡ Mul }
    requires operands { AreOperands build.old.vars kind (plain a ∷ int n ∷ []) }
    ensures makes { IfOk result (λ out. Makes build.old build.new kind (plain a ∷ int n ∷ []) (plain out)) }
    ensures err { OnErr result (build.new ≡ build.old) }
{
    let _kind = kind;
    made_of_multiple(alloc, build, n, a)
}

// The same where it is the first child's.
fn made_of_first_factor(
    alloc: Global,
    build: &mut Build,
    kind: NodeKind,
    n: i64,
    b: Arg,
) -> Result<Arg, Memory>
    requires product { kind ≡ Mul }
    requires operands { AreOperands build.old.vars kind (int n ∷ plain b ∷ []) }
    ensures makes { IfOk result (λ out. Makes build.old build.new kind (int n ∷ plain b ∷ []) (plain out)) }
    ensures err { OnErr result (build.new ≡ build.old) }
{
    let _kind = kind;
    made_of_multiple(alloc, build, n, b)
}

// A variable for a node of this kind, where the first child's argument is no factor of a product.
fn made_of_rest(
    alloc: Global,
    build: &mut Build,
    kind: NodeKind,
    name: RowName,
    a: Arg,
    b: Arg,
) -> Result<Arg, Memory>
    requires row { row_of_two kind ≡ Some name }
    requires operands { AreOperands build.old.vars kind (plain a ∷ plain b ∷ []) }
    requires divisor { HasDivisor kind (ends_of build.old.vars (plain b)) }
    ensures makes { IfOk result (λ out. Makes build.old build.new kind (plain a ∷ plain b ∷ []) (plain out)) }
    ensures err { OnErr result (build.new ≡ build.old) }
{
    match factor(kind, &b) {
        Some(n) => made_of_factor(alloc, build, kind, n, a),
        None => made_by_row(alloc, build, kind, name, a, b),
    }
}

/// A variable for a node of this kind, by the row that takes its two children's arguments. Of a number and
/// another, in either order, a product is a linear row.
///
/// The arguments lie within the bounds of two children that such a node may have. A divisor isn't one that
/// is 0 alone.
pub fn made_of_two(
    alloc: Global,
    build: &mut Build,
    kind: NodeKind,
    name: RowName,
    a: Arg,
    b: Arg,
) -> Result<Arg, Memory>
    requires row { row_of_two kind ≡ Some name }
    requires operands { AreOperands build.old.vars kind (plain a ∷ plain b ∷ []) }
    requires divisor { HasDivisor kind (ends_of build.old.vars (plain b)) }
    ensures makes { IfOk result (λ out. Makes build.old build.new kind (plain a ∷ plain b ∷ []) (plain out)) }
    ensures err { OnErr result (build.new ≡ build.old) }
{
    match factor(kind, &a) {
        Some(n) => made_of_first_factor(alloc, build, kind, n, b),
        None => made_of_rest(alloc, build, kind, name, a, b),
    }
}
