// The evaluation of expressions: one function for each definition.

ghost use Rattle.std.specs.Prelude.{◌≡◌, ◌∷◌, [], IfOk, MatchOption, map};
ghost use Rattle.mz_core.specs.TreeViews.{tree, form_layer};
ghost use Rattle.mz_core.specs.declared.tree.CoreForm.TheOpen as open_form;
ghost use Rattle.mz_core.specs.declared.tree.CoreForm.TheViews.{out-CoreForm};
ghost use Rattle.mz_meaning.specs.Runs.{loop};
ghost use Rattle.mz_meaning.specs.Cells.{par_value};
ghost use Rattle.mz_meaning.specs.Arrays.{line_cell, set_cell};
ghost use Rattle.mz_meaning.specs.Forms.{done, parts, text_at, text_cell, all_cases, builtin, array, row_of_parts, table, set, access};
ghost use Rattle.mz_symbol.specs.Readings.{Reading};
ghost use Rattle.mz_meaning.specs.Evaluation as meaning;
ghost use Rattle.mz_core.specs.Types.{plain_type};
ghost use Rattle.mz_symbol.specs.Makes.{GoesOn, Means};
ghost use Rattle.mz_eval_cells.specs.Views.{seen, all_seen};
ghost use Rattle.mz_eval_scopes.specs.Seen.{ctx_of};
ghost use Rattle.mz_eval_nodes.specs.Views.{gathered_seen, stamped};
ghost use Rattle.mz_eval_branches.specs.TableCells.{rows_seen};
ghost use Rattle.mz_eval.specs.Levels.{world_in, go_of, scope_of, in_scope, at_node};
ghost use Rattle.mz_eval.specs.Named.{IsNamed};
ghost use Rattle.mz_eval.specs.Nodes.{access_node, node_stamped, stamped_at, table_node, typed_by};
ghost use Rattle.mz_eval.specs.Rows.{with_row, with_row_or_global, row_trees};

use crate::calls::eval_call;
use crate::choices::eval_if;
use crate::comprehensions::eval_comprehension;
use crate::globals::eval_global;
use crate::locals::eval_let;
use crate::operators::eval_chain;
use crate::types::Level;
use mz_base::{Fault, Kind, Name, Span, Stop};
use mz_core::{Core, CoreForm};
use mz_eval_branches::table_cell_in;
use mz_eval_cells::{Item, Known, one, share, stays, undefined};
use mz_eval_chains::{finished, inner};
use mz_eval_comprehensions::gathered_with;
use mz_eval_elements::element_cell_in;
use mz_eval_nodes::{
    Gathered, argument_of, arguments_base, arguments_within, array_cell_in, nothing_gathered,
    row_at, set_cell, untyped_all, untyped_one, untyped_two, within,
};
use mz_eval_scopes::{Scope, all_cases, at_slot, done, literal_text, seek};
use mz_operations::Row;
use mz_symbol::Run;
use std::alloc::{AllocError, Global};

// An expression.
#[cycle(forms)]
pub(crate) fn eval_expression(
    level: &Level,
    e: &Core,
    scope: &Scope,
    run: &mut Run,
) -> Result<Known, Stop>
    ensures goes { GoesOn run.old run.new }
    ensures means { Means seen result run.old run.new (λ r. go_of r level.now (ctx_of level.now.ctx) (tree e.now) (scope_of r level.now scope.now)) }
{
    match named(&*level, e, &*scope) {
        None => eval_node(level, e, scope, run),
        Some(k) => name_cell(level, e, k, scope, run),
    }
}

// an expression that is no name, or whose name's cell isn't its own
#[cycle(forms)]
#[tactic(auto, using(crate::proofs::OneLevel::eval_end, crate::proofs::OneLevel::eval_more))]
fn eval_node(level: &Level, e: &Core, scope: &Scope, run: &mut Run) -> Result<Known, Stop>
    ensures goes { GoesOn run.old run.new }
    ensures means { Means seen result run.old run.new (λ r. go_of r level.now (ctx_of level.now.ctx) (tree e.now) (scope_of r level.now scope.now)) }
{
    let node = inner(e);
    if level.left == 0 {
        return Err(Stop::Refused(Fault {
            kind: Kind::Depth,
            span: node.span,
            number: 601,
        }));
    }
    let ctx = within(level.ctx, e);
    let below = Level {
        alloc: level.alloc,
        world: level.world,
        left: level.left - 1,
        ctx,
    };
    let cell = eval_form(&below, node, scope, run)?;
    finished(level.alloc, level.world, e, node, cell, run)
}

// ---- names that have their slot's cell as it stands: no coercion stands round them, and their type
// leaves it

#[inline(always)]
fn named<'a>(level: &Level<'a>, e: &Core, scope: &'a Scope<'a>) -> Option<&'a Known>
    ensures { MatchOption result (Unit {0}) (λ k. IsNamed level.now scope.now e.now k.now) }
{
    match &e.form {
        CoreForm::Slot(s) => slot_cell(level, e, *s, scope),
        _ => None,
    }
}

#[tactic(auto, using(crate::proofs::NameLaws::named))]
fn slot_cell<'a>(level: &Level<'a>, e: &Core, slot: u64, scope: &'a Scope<'a>) -> Option<&'a Known>
    requires { out-CoreForm e.now.form ≡ open_form.Slot slot }
    ensures { MatchOption result (Unit {0}) (λ k. IsNamed level.now scope.now e.now k.now) }
{
    if level.left == 0 {
        return None;
    }
    let Some(k) = seek(level.world, scope, slot) else {
        return None;
    };
    if stays(&e.ty, k) { Some(k) } else { None }
}

// the work of such a name
fn name_done(level: &Level, e: &Core, k: &Known, scope: &Scope, run: &mut Run) -> Result<(), Stop>
    requires { IsNamed level.now scope.now e.now k.now }
    ensures goes { GoesOn run.old run.new }
    ensures means { Means (λ r _. seen r k.now) result run.old run.new (λ r. go_of r level.now (ctx_of level.now.ctx) (tree e.now) (scope_of r level.now scope.now)) }
{
    let _left = scope;
    run.spend(level.world.budget, e.span, 1)?;
    run.save(64)?;
    Ok(())
}

// its cell once more
fn name_cell(
    level: &Level,
    e: &Core,
    k: &Known,
    scope: &Scope,
    run: &mut Run,
) -> Result<Known, Stop>
    requires { IsNamed level.now scope.now e.now k.now }
    ensures goes { GoesOn run.old run.new }
    ensures means { Means seen result run.old run.new (λ r. go_of r level.now (ctx_of level.now.ctx) (tree e.now) (scope_of r level.now scope.now)) }
{
    name_done(level, e, k, scope, run)?;
    let same = share(k)?;
    Ok(same)
}

// A node below its coercions, whose parts are one level deeper, as it is once its type is stamped on
// it.
#[inline(always)]
#[cycle(forms)]
fn eval_form(level: &Level, node: &Core, scope: &Scope, run: &mut Run) -> Result<Known, Stop>
    ensures goes { GoesOn run.old run.new }
    ensures means { Means (stamped_at node.now) result run.old run.new
        (λ r. at_node r level.now scope.now node.now (λ w go ctx at t env. node_stamped w go ctx (form_layer (out-CoreForm node.now.form)) at t env)) }
{
    match &node.form {
        CoreForm::Builtin(n, all) => eval_builtin(level, node, *n, all, scope, run),
        CoreForm::Access(a, all) => eval_access(level, node, a, all, scope, run),
        _ => eval_whole(level, node, scope, run),
    }
}

// A node that isn't told by its type: a row's and an access are.
#[cycle(forms)]
fn eval_whole(level: &Level, node: &Core, scope: &Scope, run: &mut Run) -> Result<Known, Stop>
    ensures goes { GoesOn run.old run.new }
    ensures means { Means seen result run.old run.new
        (λ r. at_node r level.now scope.now node.now (λ w go ctx at t env. meaning.node w go ctx (form_layer (out-CoreForm node.now.form)) at t env)) }
{
    let at = node.span;
    match &node.form {
        CoreForm::Bool(b) => done(level.world, at, one(Item::Bool(*b)), run),
        CoreForm::Int(n) => done(level.world, at, one(Item::Int(*n)), run),
        CoreForm::Enum(e, k) => done(level.world, at, one(Item::Enum(*e, *k)), run),
        CoreForm::Text(n) => eval_text(level, *n, at, run),
        CoreForm::Absent => done(level.world, at, one(Item::Absent), run),
        CoreForm::EnumSet(e) => eval_cases(level, *e, at, run),
        CoreForm::Slot(s) => eval_slot(level, *s, at, scope, run),
        CoreForm::Whole => done(level.world, at, undefined(), run),
        CoreForm::Chain(first, all) => { eval_chain(level, first, all, at, scope, run) }
        CoreForm::Builtin(_, _) => Err(Stop::Memory),
        CoreForm::Call(f, all) => eval_call(level, *f, all, at, scope, run),
        CoreForm::Access(_, _) => Err(Stop::Memory),
        CoreForm::Array(all) => eval_array(level, node, all, scope, run),
        CoreForm::Rows(rows) => eval_table(level, node, rows, scope, run),
        CoreForm::Set(all) => eval_set(level, node, all, scope, run),
        CoreForm::Comp(braces, head, gens) => {
            eval_comprehension(level, node, *braces, head, gens, scope, run)
        }
        CoreForm::If(all, last) => eval_if(level, node, all, last, scope, run),
        CoreForm::Let(items, body) => { eval_let(level, node, items, body, scope, run) }
        CoreForm::Coerce(_, _) => done(level.world, at, undefined(), run),
    }
}

fn eval_slot(
    level: &Level,
    slot: u64,
    at: Span,
    scope: &Scope,
    run: &mut Run,
) -> Result<Known, Stop>
    ensures goes { GoesOn run.old run.new }
    ensures means { Means seen result run.old run.new (λ r. in_scope r level.now scope.now (λ w go ctx env. done w at (env slot))) }
{
    let cell = at_slot(level.world, scope, slot)?;
    done(level.world, at, cell, run)
}

#[inline(never)]
fn eval_text(level: &Level, n: Name, at: Span, run: &mut Run) -> Result<Known, Stop>
    ensures goes { GoesOn run.old run.new }
    ensures means { Means seen result run.old run.new (λ r. done (world_in r level.now) at (text_cell (text_at (world_in r level.now).texts n))) }
{
    let cell = literal_text(level.alloc, level.world, n)?;
    done(level.world, at, cell, run)
}

#[inline(never)]
fn eval_cases(level: &Level, e: u64, at: Span, run: &mut Run) -> Result<Known, Stop>
    ensures goes { GoesOn run.old run.new }
    ensures means { Means seen result run.old run.new (λ r. done (world_in r level.now) at (par_value (all_cases (world_in r level.now).cases e))) }
{
    let cell = all_cases(level.alloc, level.world, e)?;
    done(level.world, at, cell, run)
}

// Several parts from left to right.
#[cycle(forms)]
pub(crate) fn eval_parts(
    level: &Level,
    all: &[Core],
    scope: &Scope,
    run: &mut Run,
) -> Result<Vec<Known>, Stop>
    ensures goes { GoesOn run.old run.new }
    ensures means { Means (λ r v. all_seen r v.items) result run.old run.new (λ r. in_scope r level.now scope.now (λ w go ctx env. parts go ctx (map tree all.now) env)) }
{
    let mut cells = Vec::new(level.alloc);
    for e in all {
        let cell = eval_expression(level, e, scope, run)?;
        cells.push(cell)?;
    }
    Ok(cells)
}

// The same, gathered as the elements of an array.
#[cycle(forms)]
fn eval_gathered(
    level: &Level,
    all: &[Core],
    scope: &Scope,
    run: &mut Run,
) -> Result<Gathered, Stop>
    ensures goes { GoesOn run.old run.new }
    ensures means { Means gathered_seen result run.old run.new (λ r. in_scope r level.now scope.now (λ w go ctx env. parts go ctx (map tree all.now) env)) }
{
    let mut cells = nothing_gathered(level.alloc);
    for e in all {
        let cell = eval_expression(level, e, scope, run)?;
        cells = gathered_with(level.alloc, cells, cell)?;
    }
    Ok(cells)
}

// A row of the table, or a global, over its arguments.
#[cycle(forms)]
fn eval_builtin(
    level: &Level,
    node: &Core,
    n: u32,
    all: &[Core],
    scope: &Scope,
    run: &mut Run,
) -> Result<Known, Stop>
    ensures goes { GoesOn run.old run.new }
    ensures means { Means (stamped (plain_type node.now.ty)) result run.old run.new
        (λ r. at_node r level.now scope.now node.now (λ w go ctx at t env. typed_by w t (builtin w go ctx n (map tree all.now) at t env))) }
{
    let base = arguments_base(all, &node.ty);
    let row = row_at(n, base);
    let ctx = arguments_within(level.ctx, n, base);
    let inside = Level {
        alloc: level.alloc,
        world: level.world,
        left: level.left,
        ctx,
    };
    eval_called(&inside, node, n, row, all, scope, run)
}

// The row of this number, or where there is none its global, over its arguments.
#[cycle(forms)]
fn eval_called(
    level: &Level,
    node: &Core,
    n: u32,
    row: Option<Row>,
    all: &[Core],
    scope: &Scope,
    run: &mut Run,
) -> Result<Known, Stop>
    ensures goes { GoesOn run.old run.new }
    ensures means { Means (stamped (plain_type node.now.ty)) result run.old run.new
        (λ r. at_node r level.now scope.now node.now (λ w go ctx at t env. typed_by w t (with_row_or_global w at t n row (parts go ctx (map tree all.now) env)))) }
{
    match row {
        None => eval_global(level, node, n, all, scope, run),
        Some(r) => eval_row(level, node, Some(r), all, scope, run),
    }
}

// A row of the table over its arguments.
#[cycle(forms)]
#[tactic(auto, using(crate::proofs::Parts::trees_one, crate::proofs::Parts::trees_two))]
fn eval_row(
    level: &Level,
    node: &Core,
    row: Option<Row>,
    all: &[Core],
    scope: &Scope,
    run: &mut Run,
) -> Result<Known, Stop>
    ensures goes { GoesOn run.old run.new }
    ensures means { Means (stamped (plain_type node.now.ty)) result run.old run.new
        (λ r. at_node r level.now scope.now node.now (λ w go ctx at t env. typed_by w t (with_row w at t row (parts go ctx (map tree all.now) env)))) }
{
    let count = all.len();
    if count == 1 {
        return eval_one(level, node, row, &all[0], scope, run);
    }
    if count == 2 {
        return eval_two(level, node, row, &all[0], &all[1], scope, run);
    }
    let cells = eval_parts(level, all, scope, run)?;
    untyped_all(
        level.alloc,
        level.world,
        node.span,
        &node.ty,
        row,
        cells,
        run,
    )
}

#[cycle(forms)]
fn eval_one(
    level: &Level,
    node: &Core,
    row: Option<Row>,
    a: &Core,
    scope: &Scope,
    run: &mut Run,
) -> Result<Known, Stop>
    ensures goes { GoesOn run.old run.new }
    ensures means { Means (stamped (plain_type node.now.ty)) result run.old run.new
        (λ r. at_node r level.now scope.now node.now (λ w go ctx at t env. typed_by w t (with_row w at t row (parts go ctx (tree a.now ∷ []) env)))) }
{
    let x = eval_expression(level, a, scope, run)?;
    let arg = argument_of(a, x);
    untyped_one(level.alloc, level.world, node.span, &node.ty, row, arg, run)
}

#[cycle(forms)]
fn eval_two(
    level: &Level,
    node: &Core,
    row: Option<Row>,
    a: &Core,
    b: &Core,
    scope: &Scope,
    run: &mut Run,
) -> Result<Known, Stop>
    ensures goes { GoesOn run.old run.new }
    ensures means { Means (stamped (plain_type node.now.ty)) result run.old run.new
        (λ r. at_node r level.now scope.now node.now (λ w go ctx at t env. typed_by w t (with_row w at t row (parts go ctx (tree a.now ∷ tree b.now ∷ []) env)))) }
{
    let x = eval_expression(level, a, scope, run)?;
    let y = eval_expression(level, b, scope, run)?;
    let args = (argument_of(a, x), argument_of(b, y));
    untyped_two(
        level.alloc,
        level.world,
        node.span,
        &node.ty,
        row,
        args,
        run,
    )
}

// the array of these cells, with the node's work
fn array_of(level: &Level, node: &Core, cells: Gathered, run: &mut Run) -> Result<Known, Stop>
    ensures goes { GoesOn run.old run.new }
    ensures means { Means seen result run.old run.new (λ r. done (world_in r level.now) node.now.span (line_cell r.mode (gathered_seen r cells))) }
{
    let cell = array_cell_in(level.alloc, run, node.ty.base, node.ty.opt, cells)?;
    done(level.world, node.span, cell, run)
}

// A list of elements.
#[cycle(forms)]
fn eval_array(
    level: &Level,
    node: &Core,
    all: &[Core],
    scope: &Scope,
    run: &mut Run,
) -> Result<Known, Stop>
    ensures goes { GoesOn run.old run.new }
    ensures means { Means seen result run.old run.new (λ r. at_node r level.now scope.now node.now (λ w go ctx at t env. array w go ctx (map tree all.now) at env)) }
{
    let cells = eval_gathered(level, all, scope, run)?;
    array_of(level, node, cells, run)
}

// the set of these cells
#[tactic(auto, using(crate::proofs::Sets::set_seen))]
fn set_of(alloc: Global, node: &Core, g: &Gathered) -> Result<Known, AllocError>
    ensures { IfOk result (λ k. (r : Reading) → seen r k ≡ set_cell (plain_type node.now.ty) (gathered_seen r g.now)) }
{
    let k = set_cell(alloc, &node.ty, g)?;
    Ok(k)
}

// A set of elements.
#[cycle(forms)]
fn eval_set(
    level: &Level,
    node: &Core,
    all: &[Core],
    scope: &Scope,
    run: &mut Run,
) -> Result<Known, Stop>
    ensures goes { GoesOn run.old run.new }
    ensures means { Means seen result run.old run.new (λ r. at_node r level.now scope.now node.now (λ w go ctx at t env. set w go ctx (map tree all.now) at t env)) }
{
    let cells = eval_gathered(level, all, scope, run)?;
    let cell = set_of(level.alloc, node, &cells)?;
    done(level.world, node.span, cell, run)
}

// the array of these rows, with the node's work
fn table_of(level: &Level, node: &Core, rows: Vec<Vec<Known>>, run: &mut Run) -> Result<Known, Stop>
    ensures goes { GoesOn run.old run.new }
    ensures means { Means seen result run.old run.new (λ r. table_node (world_in r level.now) node.now.span (rows_seen r rows.items)) }
{
    run.spend(level.world.budget, node.span, 1)?;
    table_cell_in(
        level.alloc,
        run,
        node.ty.base,
        node.ty.opt,
        node.span,
        &rows,
    )
}

// Rows of elements.
#[cycle(forms)]
fn eval_table(
    level: &Level,
    node: &Core,
    rows: &[Vec<Core>],
    scope: &Scope,
    run: &mut Run,
) -> Result<Known, Stop>
    ensures goes { GoesOn run.old run.new }
    ensures means { Means seen result run.old run.new (λ r. at_node r level.now scope.now node.now (λ w go ctx at t env. table w go ctx (row_trees rows.now) at env)) }
{
    let cells = eval_rows(level, rows, scope, run)?;
    table_of(level, node, cells, run)
}

#[cycle(forms)]
fn eval_rows(
    level: &Level,
    rows: &[Vec<Core>],
    scope: &Scope,
    run: &mut Run,
) -> Result<Vec<Vec<Known>>, Stop>
    ensures goes { GoesOn run.old run.new }
    ensures means { Means (λ r v. rows_seen r v.items) result run.old run.new (λ r. in_scope r level.now scope.now (λ w go ctx env. loop (row_of_parts go ctx env) [] (row_trees rows.now))) }
{
    let mut all = Vec::new(level.alloc);
    for row in rows {
        let cells = eval_parts(level, row, scope, run)?;
        all.push(cells)?;
    }
    Ok(all)
}

// the element of an array at these indices, with the node's work
fn element_of(
    level: &Level,
    node: &Core,
    a: &Known,
    at: &[Known],
    run: &mut Run,
) -> Result<Known, Stop>
    ensures goes { GoesOn run.old run.new }
    ensures means { Means (stamped (plain_type node.now.ty)) result run.old run.new
        (λ r. access_node (world_in r level.now) (plain_type node.now.ty) node.now.span (seen r a.now) (all_seen r at.now)) }
{
    let element = element_cell_in(level.alloc, run, &node.ty, a, at)?;
    done(level.world, node.span, element, run)
}

fn element_among(
    level: &Level,
    node: &Core,
    a: &Known,
    at: Vec<Known>,
    run: &mut Run,
) -> Result<Known, Stop>
    ensures goes { GoesOn run.old run.new }
    ensures means { Means (stamped (plain_type node.now.ty)) result run.old run.new
        (λ r. access_node (world_in r level.now) (plain_type node.now.ty) node.now.span (seen r a.now) (all_seen r at.items)) }
{
    element_of(level, node, a, &at, run)
}

// An array's element at indices.
#[cycle(forms)]
#[tactic(auto, using(crate::proofs::Parts::trees_one))]
fn eval_access(
    level: &Level,
    node: &Core,
    a: &Core,
    all: &[Core],
    scope: &Scope,
    run: &mut Run,
) -> Result<Known, Stop>
    ensures goes { GoesOn run.old run.new }
    ensures means { Means (stamped (plain_type node.now.ty)) result run.old run.new
        (λ r. at_node r level.now scope.now node.now (λ w go ctx at t env. typed_by w t (access w go ctx (tree a.now) (map tree all.now) at t env))) }
{
    let count = all.len();
    if count == 1 {
        return eval_element(level, node, a, &all[0], scope, run);
    }
    let cell = eval_expression(level, a, scope, run)?;
    let cells = eval_parts(level, all, scope, run)?;
    element_among(level, node, &cell, cells, run)
}

// An array's element at one index.
#[cycle(forms)]
fn eval_element(
    level: &Level,
    node: &Core,
    a: &Core,
    i: &Core,
    scope: &Scope,
    run: &mut Run,
) -> Result<Known, Stop>
    ensures goes { GoesOn run.old run.new }
    ensures means { Means (stamped (plain_type node.now.ty)) result run.old run.new
        (λ r. at_node r level.now scope.now node.now (λ w go ctx at t env. typed_by w t (access w go ctx (tree a.now) (tree i.now ∷ []) at t env))) }
{
    match named(&*level, a, &*scope) {
        None => eval_element_of_any(level, node, a, i, scope, run),
        Some(k) => eval_element_of_name(level, node, a, k, i, scope, run),
    }
}

#[cycle(forms)]
fn eval_element_of_name(
    level: &Level,
    node: &Core,
    a: &Core,
    k: &Known,
    i: &Core,
    scope: &Scope,
    run: &mut Run,
) -> Result<Known, Stop>
    requires { IsNamed level.now scope.now a.now k.now }
    ensures goes { GoesOn run.old run.new }
    ensures means { Means (stamped (plain_type node.now.ty)) result run.old run.new
        (λ r. at_node r level.now scope.now node.now (λ w go ctx at t env. typed_by w t (access w go ctx (tree a.now) (tree i.now ∷ []) at t env))) }
{
    name_done(level, a, k, scope, run)?;
    let index = eval_expression(level, i, scope, run)?;
    let indices = [index];
    element_of(level, node, k, &indices, run)
}

#[cycle(forms)]
fn eval_element_of_any(
    level: &Level,
    node: &Core,
    a: &Core,
    i: &Core,
    scope: &Scope,
    run: &mut Run,
) -> Result<Known, Stop>
    ensures goes { GoesOn run.old run.new }
    ensures means { Means (stamped (plain_type node.now.ty)) result run.old run.new
        (λ r. at_node r level.now scope.now node.now (λ w go ctx at t env. typed_by w t (access w go ctx (tree a.now) (tree i.now ∷ []) at t env))) }
{
    let cell = eval_expression(level, a, scope, run)?;
    let index = eval_expression(level, i, scope, run)?;
    let indices = [index];
    element_of(level, node, &cell, &indices, run)
}
