// What declarations and functions use.

ghost use Rattle.std.specs.Prelude.{◌≡◌, map, IfOk};
ghost use Rattle.mz_scope_names.specs.Sketches.{sketch, decl_sketch, function_sketch};
ghost use Rattle.mz_scope_order.specs.Scoped.{scoped_decl, lent_function};

use crate::scoped::ScopedDecl;
use mz_base::Memory;
use mz_scope_names::{Sketch, sketch_of_decl, sketch_of_function};
use mz_tree::Function;
use std::alloc::Global;

/// What each declaration uses, its value too.
pub fn decl_sketches(alloc: Global, decls: &[ScopedDecl<'_>]) -> Result<Vec<Sketch>, Memory>
    ensures { IfOk result (λ v. map sketch v.items ≡ map decl_sketch (map scoped_decl decls.now)) }
{
    let mut all = Vec::new(alloc);
    for d in decls {
        let o = sketch_of_decl(alloc, d.decl, d.value)?;
        all.push(o)?;
    }
    Ok(all)
}

/// What each function uses.
pub fn function_sketches(alloc: Global, functions: &[&Function]) -> Result<Vec<Sketch>, Memory>
    ensures { IfOk result (λ v. map sketch v.items ≡ map function_sketch (map lent_function functions.now)) }
{
    let mut all = Vec::new(alloc);
    for f in functions {
        let o = sketch_of_function(alloc, f)?;
        all.push(o)?;
    }
    Ok(all)
}
