// The parts of a model with its data, gathered in the order of the text.

ghost use Rattle.std.specs.Prelude.{◌≡◌, IfOk, map};
ghost use Rattle.mz_tree.specs.Data.{given};
ghost use Rattle.mz_scope_names.specs.StepsWalk.{items_of};
ghost use Rattle.mz_scope_order.specs.Scoped.{parts_tree, source_parts};

use crate::decls::decls_of;
use crate::enums::enums_of;
use crate::given::given_of;
use crate::items::{constraints_of, functions_of, goal_of, outputs_of};
use crate::scoped::{ScopedDecl, ScopedEnum};
use mz_base::Memory;
use mz_tree::{Data, DataItem, Expr, Function, Goal, Sources};
use std::alloc::Global;

/// The parts of a model with its data, each in the order of the text, the files one after the other.
#[derive(Drop)]
pub struct ModelParts<'a> {
    /// The enums, with the cases that their items or the data give.
    pub enums: Vec<ScopedEnum>,
    /// Each declaration at top level.
    pub decls: Vec<ScopedDecl<'a>>,
    pub functions: Vec<&'a Function>,
    pub constraints: Vec<&'a Expr>,
    /// What the first solve item asks for. None, where there is no solve item.
    pub goal: Option<&'a Goal>,
    pub outputs: Vec<&'a Expr>,
    /// The items of the data, but for those of enums.
    pub given: Vec<&'a DataItem>,
}

/// The parts of a model with its data. Where a name has two assignment items, or two items of the data, the first counts.
/// It fails only where memory runs out.
pub fn model_parts<'a>(
    alloc: Global,
    sources: &'a Sources,
    given_data: &'a Data,
) -> Result<ModelParts<'a>, Memory>
    ensures { IfOk result (λ p. parts_tree p ≡ source_parts (items_of sources.now.files.items) (map given given_data.now.items.items)) }
{
    let files = sources.files.as_slice();
    let items = given_data.items.as_slice();
    let decls = decls_of(alloc, files)?;
    let functions = functions_of(alloc, files)?;
    let constraints = constraints_of(alloc, files)?;
    let outputs = outputs_of(alloc, files)?;
    let enums = enums_of(alloc, files, items)?;
    let given = given_of(alloc, enums.as_slice(), items)?;
    let goal = goal_of(files);
    Ok(ModelParts {
        enums,
        decls,
        functions,
        constraints,
        goal,
        outputs,
        given,
    })
}
