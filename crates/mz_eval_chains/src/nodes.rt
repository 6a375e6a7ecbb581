// The coercions round a node, and its cell under them.

ghost use Rattle.std.specs.Prelude.{◌≡◌, ◌++◌, IfOk, Bool, [], true};
ghost use Rattle.mz_core.specs.Types.{plain_type};
ghost use Rattle.mz_core.specs.Paths.{path_links};
ghost use Rattle.mz_core.specs.Tree.{inner_tree, place_of, root_coercions};
ghost use Rattle.mz_core.specs.TreeViews.{tree, form_layer};
ghost use Rattle.mz_core.specs.declared.tree.CoreForm.TheViews.{out-CoreForm};
ghost use Rattle.mz_meaning.specs.Cells.{Bare, typed};
ghost use Rattle.mz_meaning.specs.Forms.{coerced_once, coerced_by};
ghost use Rattle.mz_meaning.specs.Evaluation.{is_name};
ghost use Rattle.mz_eval_cells.specs.Views.{cell_of, seen};
ghost use Rattle.mz_meaning.specs.Coerced as coercions;
ghost use Rattle.mz_symbol.specs.Readings.{Reading};
ghost use Rattle.mz_symbol.specs.Makes.{GoesOn, Means, MeansBare};
ghost use Rattle.mz_eval_scopes.specs.Seen.{world_seen};
ghost use Rattle.mz_eval_chains.specs.Links.{finished_by, links_round};

use mz_base::{Span, Stop};
use mz_core::{Coercion, Core, CoreForm, TypeInst};
use mz_eval_cells::{Known, coerced_to, coercion_work, stays, typed};
use mz_eval_scopes::World;
use mz_symbol::Run;
use std::alloc::{AllocError, Global};

/// The node below the coercions of an expression. Takes no memory.
#[tactic(auto, using(mz_core::proofs::TreeLaws::inner_tree_is))]
pub fn inner(e: &Core) -> &Core
    ensures { inner_tree (tree e.now) ≡ tree result.now }
{
    match &e.form {
        CoreForm::Coerce(_, part) => inner(part),
        _ => e,
    }
}

/// The place of an expression. Takes no memory.
#[tactic(auto, using(mz_core::proofs::TreeLaws::place_of_tree))]
pub fn place_of(e: &Core) -> Span
    ensures { result ≡ place_of (tree e.now) }
{
    e.span
}

#[tactic(auto, using(crate::proofs::Seeing::work_seen))]
fn work_of(c: Coercion, k: &Known) -> u64
    ensures of { result ≡ coercions.coercion_work c (cell_of k.now) }
    ensures seen { (r : Reading) → result ≡ coercions.coercion_work c (seen r k.now) }
{
    coercion_work(c, k)
}

/// One coercion, with its work.
fn coerce_once(
    alloc: Global,
    world: &World,
    at: Span,
    c: Coercion,
    t: &TypeInst,
    k: Known,
    run: &mut Run,
) -> Result<Known, Stop>
    ensures goes { GoesOn run.old run.new }
    ensures means { Means seen result run.old run.new (λ r. coerced_once (world_seen r world.now) at (seen r k) (c, plain_type t.now)) }
    ensures bare { MeansBare seen result run.old run.new (λ r. coerced_once (world_seen r world.now) at (seen r k) (c, plain_type t.now)) }
{
    run.spend(world.budget, at, work_of(c, &k))?;
    Ok(coerced_to(alloc, c, t, k)?)
}

/// Coercions in their order.
fn coerce_all(
    alloc: Global,
    world: &World,
    at: Span,
    links: &[(Coercion, TypeInst)],
    k: Known,
    run: &mut Run,
) -> Result<Known, Stop>
    ensures goes { GoesOn run.old run.new }
    ensures means { Means seen result run.old run.new (λ r. coerced_by (world_seen r world.now) at (path_links links.now) (seen r k)) }
    ensures bare { MeansBare seen result run.old run.new (λ r. coerced_by (world_seen r world.now) at (path_links links.now) (seen r k)) }
{
    let mut cell = k;
    for link in links {
        cell = coerce_once(alloc, world, at, link.0, &link.1, cell, run)?;
    }
    Ok(cell)
}

/// The coercions round an expression's node, from the innermost on.
#[tactic(auto, using(mz_core::proofs::TreeLaws::root_coercions_is))]
fn coerce_round(
    alloc: Global,
    world: &World,
    at: Span,
    e: &Core,
    k: Known,
    run: &mut Run,
) -> Result<Known, Stop>
    ensures goes { GoesOn run.old run.new }
    ensures means { Means seen result run.old run.new (λ r. coerced_by (world_seen r world.now) at (root_coercions (tree e.now)) (seen r k)) }
    ensures bare { MeansBare seen result run.old run.new (λ r. coerced_by (world_seen r world.now) at (root_coercions (tree e.now)) (seen r k)) }
{
    match &e.form {
        CoreForm::Coerce(c, part) => {
            let cell = coerce_round(alloc, world, at, part, k, run)?;
            coerce_once(alloc, world, at, *c, &e.ty, cell, run)
        }
        _ => Ok(k),
    }
}

/// The coercions round an expression, if there is one, and then these.
#[tactic(auto, using(crate::proofs::Runs::coerced_more))]
pub fn coerce_both(
    alloc: Global,
    world: &World,
    at: Span,
    round: Option<&Core>,
    links: &[(Coercion, TypeInst)],
    k: Known,
    run: &mut Run,
) -> Result<Known, Stop>
    ensures goes { GoesOn run.old run.new }
    ensures means { Means seen result run.old run.new (λ r. coerced_by (world_seen r world.now) at (links_round round.entry ++ path_links links.now) (seen r k)) }
    ensures bare { MeansBare seen result run.old run.new (λ r. coerced_by (world_seen r world.now) at (links_round round.entry ++ path_links links.now) (seen r k)) }
{
    match round {
        None => coerce_all(alloc, world, at, links, k, run),
        Some(e) => {
            let cell = coerce_round(alloc, world, at, e, k, run)?;
            coerce_all(alloc, world, at, links, cell, run)
        }
    }
}

/// Whether no coercion stands round an expression, if there is one, and none follows. Takes no memory.
pub fn is_uncoerced(round: Option<&Core>, links: &[(Coercion, TypeInst)]) -> bool
    ensures { result ≡ true → links_round round.entry ++ path_links links.now ≡ [] }
{
    match round {
        None => links.is_empty(),
        Some(_) => false,
    }
}

fn is_name(f: &CoreForm) -> bool
    ensures { result ≡ is_name (form_layer (out-CoreForm f.now)) }
{
    match f {
        CoreForm::Slot(_) => true,
        _ => false,
    }
}

/// The cell of a node with the node's type.
fn typed_node(alloc: Global, b: &Core, k: Known) -> Result<Known, AllocError>
    ensures of { IfOk result (λ x. cell_of x ≡ typed Bare (is_name (form_layer (out-CoreForm b.now.form))) (plain_type b.now.ty) (cell_of k)) }
    ensures seen { IfOk result (λ x. (r : Reading) → seen r x ≡ typed r.mode (is_name (form_layer (out-CoreForm b.now.form))) (plain_type b.now.ty) (seen r k)) }
{
    if stays(&b.ty, &k) {
        return Ok(k);
    }
    typed(alloc, is_name(&b.form), &b.ty, k)
}

#[tactic(auto, using(mz_core::proofs::TreeLaws::root_coercions_is))]
fn is_bare(e: &Core) -> bool
    ensures { result ≡ true → root_coercions (tree e.now) ≡ [] }
{
    match &e.form {
        CoreForm::Coerce(_, _) => false,
        _ => true,
    }
}

// whether an expression surely has its node's cell as it is: no coercion stands round it, and the
// node's type leaves the cell
fn is_finished(e: &Core, b: &Core, k: &Known) -> bool
    ensures bare { result ≡ true → root_coercions (tree e.now) ≡ [] }
    ensures stays { result ≡ true → (n : Bool) → typed Bare n (plain_type b.now.ty) (cell_of k.now) ≡ cell_of k.now }
    ensures seen { result ≡ true → (r : Reading) (n : Bool) → typed r.mode n (plain_type b.now.ty) (seen r k.now) ≡ seen r k.now }
{
    if is_bare(e) { stays(&b.ty, k) } else { false }
}

/// The cell of an expression, whose node below its coercions is `b` and has the cell `k` so far: it
/// takes the node's type, and then the coercions follow.
pub fn finished(
    alloc: Global,
    world: &World,
    e: &Core,
    b: &Core,
    k: Known,
    run: &mut Run,
) -> Result<Known, Stop>
    ensures goes { GoesOn run.old run.new }
    ensures means { Means seen result run.old run.new (λ r. finished_by (world_seen r world.now) e.now b.now (seen r k)) }
    ensures bare { MeansBare seen result run.old run.new (λ r. finished_by (world_seen r world.now) e.now b.now (seen r k)) }
{
    if is_finished(e, b, &k) {
        return Ok(k);
    }
    let cell = typed_node(alloc, b, k)?;
    coerce_round(alloc, world, b.span, e, cell, run)
}
