// The state of a flattening, and arguments for its nodes.

ghost use Rattle.std.specs.Prelude.{◌≡◌, ◌≢◌, ◌<◌, ◌≤◌, [], IfOk, IfSome, IsSome, OnOk, None, Some, false, length, true};
ghost use Rattle.mz_arena.specs.declared.node.NodeKind.TheVariants.{Access, Add, Guard, If, SetConst};
ghost use Rattle.mz_arena.specs.Entries.{at, is_free, is_local};
ghost use Rattle.mz_partial.specs.Totals.{AreParts};
ghost use Rattle.fz_program.specs.Flat.{WellFormed, array_item, is_goal, program, variable};
ghost use Rattle.fz_build.specs.Build.{MayAdd, MayDeclare, with_array, with_goal};
ghost use Rattle.mz_arena.specs.Extents.{as_single, extent};
ghost use Rattle.fz_build.specs.Bounds.{ends_of};
ghost use Rattle.flat_reif_rows.specs.Branches.{branch_row};
ghost use Rattle.flat_reif_rows.specs.Elements.{Reaches, element_row};
ghost use Rattle.fz_program.specs.Arguments.{plain, plains};
ghost use Rattle.flat_reif_rows.specs.NodeRows.{HasDivisor, row_of_one, row_of_two};
ghost use Rattle.flat_reif.specs.States.{IsState, state};
ghost use Rattle.flat_reif.specs.NodeKinds.{divides, extreme_kind, is_scalar, may_lack};
ghost use Rattle.flat_reif.specs.Roots.{GrownTo, HasNoSolution, HasTest, IsDeclared, IsTrueAt, IsTruthNode, IsVariableFor, IsWholeNode, MayStand, Never, Posted, begun, with_prog};
ghost use Rattle.flat_reif.specs.Unmet.{IsAny, IsFixed, IsUnmet};
ghost use Rattle.flat_reif.specs.Lists.{Gives, HasArg, HasFront, IsListed, IsNode, IsReady, ListArgs};
ghost use Rattle.flat_reif.specs.Below.{AreNeeded, FlattenedBelow, IsDue, IsSettled};

use crate::constant::{
    alone, empty_set, falsity, least, scalar, set_argument, truth, with_nothing, zero,
};
use crate::domain::free_domain;
use crate::needed::Needed;
use crate::table::{copied, divides, is_local, place_of, put, row_of_element};
use flat_reif_rows::{
    Fold, defined, fold_of_one, fold_of_two, made_of_access, made_of_branches, made_of_extreme,
    made_of_one, made_of_sum, made_of_two, may_divide, may_reach, post_false, post_test, post_true,
    row_of_one, row_of_two,
};
use fz_build::Build;
use fz_program::{Arg, FzArray, FzGoal, FzProgram, FzVar, RowName};
use mz_arena::{Arena, Id, Node, NodeKind, Sort};
use mz_base::Memory;
use mz_operations::Side;
use mz_partial::{Memo, Pair, total};
use std::alloc::Global;

/// A FlatZinc program that is being made of an arena: by ids, the arguments that stand for the nodes.
///
/// After `Memory` of any call what it holds isn't told.
#[derive(Drop)]
pub struct Flat {
    arena: Arena,
    build: Build,
    args: Vec<Option<Arg>>,
    alloc: Global,
}

impl Flat {
    /// Begins a flattening of these terms, with no variable, no row and no argument.
    pub fn begin(alloc: Global, arena: Arena) -> Flat
        ensures begun { state result ≡ begun arena }
        ensures state { IsState (state result) }
    {
        let _count = arena.len();
        Flat {
            arena,
            build: Build::new(alloc),
            args: Vec::new(alloc),
            alloc,
        }
    }

    // The argument of an id that has one.
    fn argument(&self, id: Id) -> Result<Arg, Memory>
        requires { HasArg (state self.now) id }
        ensures { IfOk result (λ a. at (state self.now).args id ≡ Some (plain a)) }
    {
        match self.args.get(id as usize) {
            Some(Some(a)) => copied(self.alloc, a),
            _ => unreachable!(),
        }
    }

    // An argument for a node that has one child, by this row, where its argument doesn't tell the node.
    fn flatten_one(&mut self, id: Id, n: &Node, name: RowName) -> Result<(), Memory>
        requires state { IsState (state self.old) }
        requires ready { IsReady (state self.old) id n.now }
        requires row { row_of_one n.now.kind ≡ Some name }
        ensures { IfOk result (λ _. Gives (state self.old) (state self.new) id) }
    {
        let a = given!(self.argument(n.a));
        match fold_of_one(n.kind, &a) {
            Some(out) => put(&mut self.args, id, out),
            None => self.give_one(id, n, name, a),
        }
    }

    // An argument for a node that has one child, by this row over its argument.
    fn give_one(&mut self, id: Id, n: &Node, name: RowName, a: Arg) -> Result<(), Memory>
        requires state { IsState (state self.old) }
        requires ready { IsReady (state self.old) id n.now }
        requires row { row_of_one n.now.kind ≡ Some name }
        requires child { at (state self.old).args n.now.a ≡ Some (plain a) }
        ensures { IfOk result (λ _. Gives (state self.old) (state self.new) id) }
    {
        let out = given!(made_of_one(&mut self.build, n.kind, name, a));
        put(&mut self.args, id, out)
    }

    // An argument for a sum.
    fn flatten_sum(&mut self, id: Id, n: &Node) -> Result<(), Memory>
        requires state { IsState (state self.old) }
        requires ready { IsReady (state self.old) id n.now }
        requires kind { n.now.kind ≡ Add }
        ensures { IfOk result (λ _. Gives (state self.old) (state self.new) id) }
    {
        let x = given!(self.argument(n.a));
        let y = given!(self.argument(n.b));
        let out = given!(made_of_sum(self.alloc, &mut self.build, x, y));
        put(&mut self.args, id, out)
    }

    // An argument for a node that has two children, by this row over their arguments, of which a divisor
    // isn't 0 alone.
    fn give_two(&mut self, id: Id, n: &Node, name: RowName, x: Arg, y: Arg) -> Result<(), Memory>
        requires state { IsState (state self.old) }
        requires ready { IsReady (state self.old) id n.now }
        requires row { row_of_two n.now.kind ≡ Some name }
        requires first { at (state self.old).args n.now.a ≡ Some (plain x) }
        requires second { at (state self.old).args n.now.b ≡ Some (plain y) }
        requires divisor { HasDivisor n.now.kind (ends_of (state self.old).prog.vars (plain y)) }
        ensures { IfOk result (λ _. Gives (state self.old) (state self.new) id) }
    {
        let out = given!(made_of_two(self.alloc, &mut self.build, n.kind, name, x, y));
        put(&mut self.args, id, out)
    }

    // An argument for a node that has two children and doesn't divide, by this row, where their arguments
    // don't tell the node.
    fn flatten_two(&mut self, id: Id, n: &Node, name: RowName) -> Result<(), Memory>
        requires state { IsState (state self.old) }
        requires ready { IsReady (state self.old) id n.now }
        requires row { row_of_two n.now.kind ≡ Some name }
        requires whole { divides n.now.kind ≡ false }
        ensures { IfOk result (λ _. Gives (state self.old) (state self.new) id) }
    {
        let x = given!(self.argument(n.a));
        let y = given!(self.argument(n.b));
        match fold_of_two(&self.build, n.kind, &x, &y) {
            Fold::Truth(b) => put(&mut self.args, id, truth(b)),
            Fold::First => put(&mut self.args, id, x),
            Fold::Second => put(&mut self.args, id, y),
            Fold::Row => self.give_two(id, n, name, x, y),
        }
    }

    // An argument of an id's sort: the least integer of its bounds, `false`, or the empty set.
    fn any(&self, id: Id) -> Result<Arg, Memory>
        requires place { id < length (state self.now).es }
        requires single { IsSome (as_single (extent (state self.now).es id)) }
        ensures { IfOk result (λ a. IsAny (extent (state self.now).es id) (plain a)) }
    {
        match self.arena.sort(id) {
            Sort::Integer => Ok(least(self.arena.bounds(id))),
            Sort::Boolean => Ok(falsity()),
            Sort::Set => empty_set(self.alloc),
            Sort::List => unreachable!(),
        }
    }

    // The argument of a node that no solution gives a value: any of its sort.
    fn give_any(&mut self, id: Id, n: &Node) -> Result<(), Memory>
        requires state { IsState (state self.old) }
        requires ready { IsReady (state self.old) id n.now }
        requires kind { may_lack n.now.kind ≡ true }
        requires unmet { IsUnmet (state self.old) }
        ensures { IfOk result (λ _. Gives (state self.old) (state self.new) id) }
    {
        let _kind = n.kind;
        let out = given!(self.any(id));
        put(&mut self.args, id, out)
    }

    // An argument for a quotient or a remainder, by this row. Where the divisor is 0 alone, no solution gives
    // the node a value.
    fn flatten_division(&mut self, id: Id, n: &Node, name: RowName) -> Result<(), Memory>
        requires state { IsState (state self.old) }
        requires ready { IsReady (state self.old) id n.now }
        requires row { row_of_two n.now.kind ≡ Some name }
        requires kind { divides n.now.kind ≡ true }
        ensures { IfOk result (λ _. Gives (state self.old) (state self.new) id) }
    {
        let x = given!(self.argument(n.a));
        let y = given!(self.argument(n.b));
        if may_divide(&self.build, &y) {
            self.give_two(id, n, name, x, y)
        } else {
            self.give_any(id, n)
        }
    }

    // An argument for branches, by the row of an access to a list of such.
    fn flatten_branches(&mut self, id: Id, n: &Node, name: RowName) -> Result<(), Memory>
        requires state { IsState (state self.old) }
        requires ready { IsReady (state self.old) id n.now }
        requires kind { n.now.kind ≡ If }
        requires row { branch_row (extent (state self.old).es n.now.b) ≡ Some name }
        ensures { IfOk result (λ _. Gives (state self.old) (state self.new) id) }
    {
        let x = given!(self.argument(n.a));
        let y = given!(self.argument(n.b));
        let z = given!(self.argument(n.c));
        let out = given!(made_of_branches(self.alloc, &mut self.build, name, x, y, z));
        put(&mut self.args, id, out)
    }

    // An introduced variable for a choice.
    fn flatten_choice(&mut self, id: Id, n: &Node) -> Result<(), Memory>
        requires state { IsState (state self.old) }
        requires node { IsNode (state self.old).es id n.now }
        requires none { at (state self.old).args id ≡ None }
        requires choice { is_local n.now.kind ≡ true }
        ensures { IfOk result (λ _. Gives (state self.old) (state self.new) id) }
    {
        let domain = given!(free_domain(self.alloc, n, self.arena.set(n.a)));
        let out = given!(self.build.introduce(domain));
        put(&mut self.args, id, out)
    }

    // The argument of what is guarded: where the guard has a value, it is the other's.
    fn flatten_guard(&mut self, id: Id, n: &Node) -> Result<(), Memory>
        requires state { IsState (state self.old) }
        requires ready { IsReady (state self.old) id n.now }
        requires kind { n.now.kind ≡ Guard }
        ensures { IfOk result (λ _. Gives (state self.old) (state self.new) id) }
    {
        let out = given!(self.argument(n.b));
        put(&mut self.args, id, out)
    }

    // A number or a truth value, as itself.
    fn flatten_scalar(&mut self, id: Id, n: &Node) -> Result<(), Memory>
        requires state { IsState (state self.old) }
        requires ready { IsReady (state self.old) id n.now }
        requires kind { is_scalar n.now.kind ≡ true }
        ensures { IfOk result (λ _. Gives (state self.old) (state self.new) id) }
    {
        put(&mut self.args, id, scalar(n))
    }

    // A set, as itself.
    fn flatten_set(&mut self, id: Id, n: &Node) -> Result<(), Memory>
        requires state { IsState (state self.old) }
        requires ready { IsReady (state self.old) id n.now }
        requires kind { n.now.kind ≡ SetConst }
        ensures { IfOk result (λ _. Gives (state self.old) (state self.new) id) }
    {
        let out = given!(set_argument(self.alloc, self.arena.set(id)));
        put(&mut self.args, id, out)
    }

    // The arguments of a list's elements, from the first to the last.
    fn gather(&self, list: Id) -> Result<Vec<Arg>, Memory>
        requires state { IsState (state self.now) }
        requires listed { IsListed (state self.now) list }
        ensures { IfOk result (λ all. ListArgs (state self.now).es (state self.now).args list (plains all.items)) }
    {
        let mut items = Vec::new(self.alloc);
        let mut here = list;
        'down: loop {
            let n = self.arena.node(here);
            match n.kind {
                NodeKind::Cons => {
                    let a = given!(self.argument(n.a));
                    items.push(a)?;
                    here = n.b;
                }
                _ => return Ok(items),
            }
        }
    }

    // An argument for the least or the greatest of a list, from the arguments of its elements, of which
    // there is one.
    fn give_extreme(&mut self, id: Id, n: &Node, side: Side, items: Vec<Arg>) -> Result<(), Memory>
        requires state { IsState (state self.old) }
        requires ready { IsReady (state self.old) id n.now }
        requires kind { n.now.kind ≡ extreme_kind side }
        requires items { ListArgs (state self.old).es (state self.old).args n.now.a (plains items.items) }
        requires some { plains items.items ≢ [] }
        ensures { IfOk result (λ _. Gives (state self.old) (state self.new) id) }
    {
        let out = given!(made_of_extreme(&mut self.build, side, items));
        put(&mut self.args, id, out)
    }

    // An argument for the least or the greatest of a list. Of no element there is none, and any integer
    // will do where the node has a value.
    fn flatten_extreme(&mut self, id: Id, n: &Node, side: Side) -> Result<(), Memory>
        requires state { IsState (state self.old) }
        requires ready { IsReady (state self.old) id n.now }
        requires kind { n.now.kind ≡ extreme_kind side }
        ensures { IfOk result (λ _. Gives (state self.old) (state self.new) id) }
    {
        let items = given!(self.gather(n.a));
        if items.is_empty() {
            put(&mut self.args, id, zero())
        } else {
            self.give_extreme(id, n, side, items)
        }
    }

    // An argument for an access, from the arguments of its index, which may be a place, and of the
    // elements of its list.
    fn give_access(
        &mut self,
        id: Id,
        n: &Node,
        name: RowName,
        index: Arg,
        items: Vec<Arg>,
    ) -> Result<(), Memory>
        requires state { IsState (state self.old) }
        requires ready { IsReady (state self.old) id n.now }
        requires kind { n.now.kind ≡ Access }
        requires index { at (state self.old).args n.now.a ≡ Some (plain index) }
        requires items { ListArgs (state self.old).es (state self.old).args n.now.b (plains items.items) }
        requires row { element_row (extent (state self.old).es n.now.b) ≡ Some name }
        requires reaches { Reaches (ends_of (state self.old).prog.vars (plain index)) (length (plains items.items)) }
        ensures { IfOk result (λ _. Gives (state self.old) (state self.new) id) }
    {
        let out = given!(made_of_access(self.alloc, &mut self.build, name, index, items));
        put(&mut self.args, id, out)
    }

    // An argument for an access. Where no index that it may have is a place of the list, no solution gives
    // the node a value.
    fn flatten_access(&mut self, id: Id, n: &Node) -> Result<(), Memory>
        requires state { IsState (state self.old) }
        requires ready { IsReady (state self.old) id n.now }
        requires kind { n.now.kind ≡ Access }
        ensures { IfOk result (λ _. Gives (state self.old) (state self.new) id) }
    {
        let index = given!(self.argument(n.a));
        let items = given!(self.gather(n.b));
        if may_reach(&self.build, &index, items.len() as u64) {
            let name = row_of_element(self.arena.sort(id));
            self.give_access(id, n, name, index, items)
        } else {
            self.give_any(id, n)
        }
    }

    // An argument for branches, by the row of their sort.
    fn flatten_if(&mut self, id: Id, n: &Node) -> Result<(), Memory>
        requires state { IsState (state self.old) }
        requires ready { IsReady (state self.old) id n.now }
        requires kind { n.now.kind ≡ If }
        ensures { IfOk result (λ _. Gives (state self.old) (state self.new) id) }
    {
        let name = row_of_element(self.arena.sort(n.b));
        self.flatten_branches(id, n, name)
    }

    // An argument for a node of two children, by this row.
    fn flatten_operation(&mut self, id: Id, n: &Node, name: RowName) -> Result<(), Memory>
        requires state { IsState (state self.old) }
        requires ready { IsReady (state self.old) id n.now }
        requires row { row_of_two n.now.kind ≡ Some name }
        ensures { IfOk result (λ _. Gives (state self.old) (state self.new) id) }
    {
        if divides(n.kind) {
            self.flatten_division(id, n, name)
        } else {
            self.flatten_two(id, n, name)
        }
    }

    // An argument for a node that no one row gives. A list needs none.
    fn flatten_other(&mut self, id: Id, n: &Node) -> Result<(), Memory>
        requires state { IsState (state self.old) }
        requires ready { IsReady (state self.old) id n.now }
        requires inner { is_free n.now.kind ≡ false }
        requires one { row_of_one n.now.kind ≡ None }
        requires two { row_of_two n.now.kind ≡ None }
        ensures { IfOk result (λ _. Gives (state self.old) (state self.new) id) }
    {
        match n.kind {
            NodeKind::Int => self.flatten_scalar(id, n),
            NodeKind::Bool => self.flatten_scalar(id, n),
            NodeKind::SetConst => self.flatten_set(id, n),
            NodeKind::Add => self.flatten_sum(id, n),
            NodeKind::Min => self.flatten_extreme(id, n, Side::Least),
            NodeKind::Max => self.flatten_extreme(id, n, Side::Greatest),
            NodeKind::If => self.flatten_if(id, n),
            NodeKind::Access => self.flatten_access(id, n),
            NodeKind::Guard => self.flatten_guard(id, n),
            NodeKind::Nil => Ok(()),
            NodeKind::Cons => Ok(()),
            _ => unreachable!(),
        }
    }

    // The number that an integer is by its bounds, where they are one.
    fn fixed(&self, id: Id) -> Option<Arg>
        requires { id < length (state self.now).es }
        ensures { IfSome result (λ a. IsFixed (extent (state self.now).es id) (plain a)) }
    {
        match self.arena.sort(id) {
            Sort::Integer => alone(self.arena.bounds(id)),
            _ => None,
        }
    }

    // An argument for a node that is no variable and no choice: a number where its bounds are one, else
    // by rows.
    fn flatten_inner(&mut self, id: Id, n: &Node) -> Result<(), Memory>
        requires state { IsState (state self.old) }
        requires ready { IsReady (state self.old) id n.now }
        requires inner { is_free n.now.kind ≡ false }
        ensures { IfOk result (λ _. Gives (state self.old) (state self.new) id) }
    {
        match self.fixed(id) {
            Some(out) => put(&mut self.args, id, out),
            None => self.flatten_by_kind(id, n),
        }
    }

    // An argument for a node that is no variable and no choice, by its kind. A list needs none.
    fn flatten_by_kind(&mut self, id: Id, n: &Node) -> Result<(), Memory>
        requires state { IsState (state self.old) }
        requires ready { IsReady (state self.old) id n.now }
        requires inner { is_free n.now.kind ≡ false }
        ensures { IfOk result (λ _. Gives (state self.old) (state self.new) id) }
    {
        match row_of_one(n.kind) {
            Some(name) => self.flatten_one(id, n, name),
            None => match row_of_two(n.kind) {
                Some(name) => self.flatten_operation(id, n, name),
                None => self.flatten_other(id, n),
            },
        }
    }

    // Whether an id has an argument.
    fn has(&self, id: Id) -> bool
        ensures yes { result ≡ true → HasArg (state self.now) id }
        ensures no { result ≡ false → at (state self.now).args id ≡ None }
    {
        match self.args.get(id as usize) {
            Some(Some(_)) => true,
            _ => false,
        }
    }

    // An argument for an id, where it has none and is a choice or needed.
    fn settle(&mut self, id: Id, needed: bool) -> Result<(), Memory>
        requires state { IsState (state self.old) }
        requires front { HasFront (state self.old) }
        requires place { id < length (state self.old).es }
        requires due { needed ≡ true → IsDue (state self.old) id }
        ensures { IfOk result (λ _. IsSettled (state self.old) (state self.new) id needed) }
    {
        if self.has(id) {
            return Ok(());
        }
        let n = self.arena.node(id);
        if is_local(n.kind) {
            self.flatten_choice(id, &n)
        } else if needed {
            self.flatten_inner(id, &n)
        } else {
            Ok(())
        }
    }

    /// Gives arguments to the needed ids below this one, by rows, and to the choices among these ids,
    /// needed or not, each a variable that no row defines. An id that has an argument keeps it.
    ///
    /// The model's variables have their arguments. The needed ids are total nodes, and their children are
    /// needed.
    pub fn flatten_below(&mut self, upto: Id, need: &Needed) -> Result<(), Memory>
        requires state { IsState (state self.old) }
        requires front { HasFront (state self.old) }
        requires upto { upto ≤ length (state self.old).es }
        requires need { AreNeeded (state self.old).es need.now }
        ensures { IfOk result (λ _. FlattenedBelow (state self.old) (state self.new) need.now upto) }
    {
        let mut here = 0;
        'ids: while here < upto {
            given!(self.settle(here, need.has(here)));
            here += 1;
        }
        Ok(())
    }

    /// The terms.
    pub fn arena(&self) -> &Arena
        ensures { result.now ≡ (state self.now).es }
    {
        &self.arena
    }

    /// Declares the variable of the model that this node stands for: its argument.
    ///
    /// The variable has the node's domain, and a new name. The node has no argument yet.
    pub fn declare(&mut self, id: Id, var: FzVar) -> Result<(), Memory>
        requires state { IsState (state self.old) }
        requires may { MayDeclare (state self.old).prog (variable var) }
        requires stands { MayStand (state self.old) id (variable var).domain }
        ensures { IfOk result (λ _. IsDeclared (state self.old) (state self.new) id (variable var)) }
    {
        let out = given!(self.build.declare(var));
        put(&mut self.args, id, out)
    }

    /// Adds an array of variables that are declared.
    pub fn array(&mut self, a: FzArray) -> Result<(), Memory>
        requires state { IsState (state self.old) }
        requires may { MayAdd (state self.old).prog (array_item a) }
        ensures added { OnOk result (state self.new ≡ with_prog (state self.old) (with_array (state self.old).prog (array_item a))) }
        ensures state { OnOk result (IsState (state self.new)) }
    {
        self.build.array(a)
    }

    /// The total term of an id, and where the id has a value. The terms go on; the program and the arguments
    /// are unchanged.
    pub fn total(&mut self, id: Id, memo: &mut Memo) -> Result<Pair, Memory>
        requires state { IsState (state self.old) }
        requires memo { AreParts (state self.old).es memo.old }
        requires place { id < length (state self.old).es }
        ensures totaled { IfOk result (GrownTo (state self.old) (state self.new) id) }
        ensures memo { OnOk result (AreParts (state self.new).es memo.new) }
    {
        let p = given!(total(&mut self.arena, id, memo));
        let _count = self.arena.len();
        Ok(p)
    }

    /// The argument of an id that has one.
    pub fn arg(&self, id: Id) -> Result<Arg, Memory>
        requires { HasArg (state self.now) id }
        ensures { IfOk result (λ a. at (state self.now).args id ≡ Some (plain a)) }
    {
        self.argument(id)
    }

    /// Posts that a Boolean node is true, by the row that its argument is.
    pub fn post_true(&mut self, id: Id) -> Result<(), Memory>
        requires state { IsState (state self.old) }
        requires has { HasArg (state self.old) id }
        requires truth { IsTruthNode (state self.old).es id }
        ensures { IfOk result (λ _. Posted (state self.old) (state self.new) (IsTrueAt (state self.old).es id)) }
    {
        let a = given!(self.argument(id));
        post_true(&mut self.build, a)
    }

    /// Posts what is never true: no solution is left.
    pub fn post_false(&mut self) -> Result<(), Memory>
        requires { IsState (state self.old) }
        ensures posted { IfOk result (λ _. Posted (state self.old) (state self.new) Never) }
        ensures none { IfOk result (λ _. HasNoSolution (state self.new)) }
    {
        post_false(&mut self.build)
    }

    /// Posts that a node is true, by the one row that tests it over its two children's arguments.
    pub fn post_test(&mut self, id: Id, name: RowName) -> Result<(), Memory>
        requires state { IsState (state self.old) }
        requires test { HasTest (state self.old) id name }
        ensures { IfOk result (λ _. Posted (state self.old) (state self.new) (IsTrueAt (state self.old).es id)) }
    {
        let n = self.arena.node(id);
        let x = given!(self.argument(n.a));
        let y = given!(self.argument(n.b));
        post_test(self.alloc, &mut self.build, n.kind, name, x, y)
    }

    // One more variable, which is this argument of an integer node.
    fn fresh(&mut self, id: Id, a: Arg) -> Result<u64, Memory>
        requires state { IsState (state self.old) }
        requires arg { at (state self.old).args id ≡ Some (plain a) }
        requires whole { IsWholeNode (state self.old).es id }
        ensures { IfOk result (IsVariableFor (state self.old) (state self.new) id) }
    {
        let _id = id;
        let inputs = given!(with_nothing(self.alloc, a));
        let out = given!(defined(&mut self.build, RowName::IntLinEq, &inputs));
        match place_of(&out) {
            Some(k) => Ok(k),
            None => unreachable!(),
        }
    }

    /// The place of a variable that is this integer in each solution: its argument, or, where that is a
    /// number, one more variable of this value alone, which a row defines.
    pub fn variable(&mut self, id: Id) -> Result<u64, Memory>
        requires state { IsState (state self.old) }
        requires has { HasArg (state self.old) id }
        requires whole { IsWholeNode (state self.old).es id }
        ensures { IfOk result (IsVariableFor (state self.old) (state self.new) id) }
    {
        let a = given!(self.argument(id));
        match place_of(&a) {
            Some(k) => Ok(k),
            None => self.fresh(id, a),
        }
    }

    /// The program with this solve item. It takes no memory.
    pub fn finish(self, goal: FzGoal) -> FzProgram
        requires { is_goal (state self).prog.vars goal ≡ true }
        ensures items { program result ≡ with_goal (state self).prog goal }
        ensures well_formed { WellFormed (program result) }
    {
        self.build.finish(goal)
    }
}
