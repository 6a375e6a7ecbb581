// The scoped model, from its parts and the order of its declarations.

ghost use Rattle.std.specs.Prelude.{◌≡◌, ◌<◌, IfOk, All, length, map};
ghost use Rattle.mz_scope_order.specs.Parts.{decl_at};
ghost use Rattle.mz_scope_order.specs.Scoped.{scoped_decl, scoped_tree, parts_tree, in_order};

use crate::parts::ModelParts;
use crate::scoped::{Scoped, ScopedDecl};
use crate::subject::Subject;
use mz_base::Memory;
use std::alloc::Global;

/// The declarations at these places, from 0.
fn decls_at<'a>(
    alloc: Global,
    decls: &[ScopedDecl<'a>],
    order: &[usize],
) -> Result<Vec<ScopedDecl<'a>>, Memory>
    requires { All (λ k. k < length decls.now) order.now }
    ensures { IfOk result (λ out. map scoped_decl out.items ≡ map (decl_at (map scoped_decl decls.now)) order.now) }
{
    let mut out = Vec::new(alloc);
    for k in order {
        out.push(decls[*k])?;
    }
    Ok(out)
}

/// The scoped model of these parts, with the declarations in this order: their places in the text, from 0; and with this order of
/// types. It fails only where memory runs out.
pub fn arranged<'a>(
    alloc: Global,
    parts: ModelParts<'a>,
    order: &[usize],
    types: Vec<Subject>,
) -> Result<Scoped<'a>, Memory>
    requires { All (λ k. k < length parts.decls.items) order.now }
    ensures tree { IfOk result (λ s. scoped_tree s ≡ in_order (parts_tree parts.entry) order.now) }
    ensures types { IfOk result (λ s. s.types ≡ types) }
{
    let ModelParts {
        enums,
        decls,
        functions,
        constraints,
        goal,
        outputs,
        given,
    } = parts;
    let decls = decls_at(alloc, decls.as_slice(), order)?;
    Ok(Scoped {
        enums,
        decls,
        functions,
        types,
        constraints,
        goal,
        outputs,
        given,
    })
}
