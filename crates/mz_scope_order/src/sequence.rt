// The orders in which a model's declarations are evaluated and its types are typed.

ghost use Rattle.std.specs.Prelude.{map, IfOk};
ghost use Rattle.mz_scope_names.specs.Sketches.{sketch};
ghost use Rattle.mz_scope_order.specs.Answer.{IsAnswer};
ghost use Rattle.mz_scope_order.specs.Dependencies.{AreDeclarations};

use crate::graphs::graphs_of;
use crate::subject::Subject;
use crate::type_order::type_order;
use mz_base::Memory;
use mz_graph::{Evaluation, evaluation_order, first_on_cycle};
use mz_scope_names::Sketch;
use std::alloc::Global;

/// The order in which declarations are evaluated, or what has none.
#[derive(Drop)]
pub enum Sequence {
    /// The numbers of all declarations, in their order; and all declarations and functions, each once and after those that its
    /// types refer to, where a declaration has the number of its place in that order.
    Ordered(Vec<usize>, Vec<Subject>),
    /// The number of the first declaration that never has its turn.
    CyclicDecl(usize),
    /// All declarations have their turn; the number of the first function whose types lead back to its name.
    CyclicFunction(usize),
}

/// Again and again the first declaration all of whose names are evaluated; where all have their turn, the first function whose
/// types lead back to its name. With the order of declarations comes an order of types.
///
/// Both lists are in source order, and numbers count from 0. Time grows as the declarations, the functions and their uses, times
/// the logarithm of their number.
pub fn sequence_of(
    alloc: Global,
    decls: &[Sketch],
    functions: &[Sketch],
) -> Result<Sequence, Memory>
    requires { AreDeclarations (map sketch decls.now) }
    ensures { IfOk result (IsAnswer (map sketch decls.now) (map sketch functions.now)) }
{
    let graphs = graphs_of(alloc, decls, functions)?;
    let evaluation = evaluation_order(
        alloc,
        graphs.calls.as_slice(),
        graphs.mentions.as_slice(),
        graphs.decl_calls.as_slice(),
        graphs.decl_mentions.as_slice(),
    )?;
    match evaluation {
        Evaluation::Cyclic(d) => Ok(Sequence::CyclicDecl(d)),
        Evaluation::Ordered(order) => {
            let cycle = first_on_cycle(alloc, graphs.types.as_slice(), 0, functions.len())?;
            match cycle {
                None => {
                    let types = type_order(
                        alloc,
                        graphs.types.as_slice(),
                        functions.len(),
                        decls.len(),
                        order.as_slice(),
                    )?;
                    Ok(Sequence::Ordered(order, types))
                }
                Some(f) => Ok(Sequence::CyclicFunction(f)),
            }
        }
    }
}
