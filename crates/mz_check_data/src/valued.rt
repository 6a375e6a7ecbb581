// Declarations with the values that data gives them.

ghost use Rattle.std.specs.Prelude.{◌≡◌, ◌<◌, [], ◌∷◌, map, length};
ghost use Rattle.std.proofs.Common.{get_or, set};
ghost use Rattle.mz_core.specs.Tree.{Decl};
ghost use Rattle.mz_core.specs.TreeViews.{tree, decl};
ghost use Rattle.mz_check_data.specs.Views.{typed_item};
ghost use Rattle.mz_check_data.specs.WithData.{with_value, AreNumbered};
ghost use Rattle.mz_check_data.specs.StepsValued.{given_to};

use mz_core::{Core, CoreDecl};

/// Gives a declaration a value, where it has none.
fn give(d: &mut CoreDecl, value: Core)
    ensures { decl d.new ≡ given_to (decl d.old) (tree value) }
{
    if d.value.is_none() {
        d.value = Some(value);
    }
}

/// Gives the declaration at this place a value, where it has none.
fn give_at(decls: &mut Vec<CoreDecl>, place: usize, value: Core)
    requires { place < length decls.old.items }
    ensures { (d : Decl) → map decl decls.new.items ≡ set (map decl decls.old.items) place (given_to (get_or (map decl decls.old.items) place d) (tree value)) }
{
    give(&mut decls[place], value);
}

/// Gives the declaration of this slot a value, where it has none.
fn give_to(decls: &mut Vec<CoreDecl>, slot: u64, value: Core)
    requires { AreNumbered (map decl decls.old.items) }
    ensures { map decl decls.new.items ≡ map (with_value ((slot, tree value) ∷ [])) (map decl decls.old.items) }
{
    if (slot as usize) < decls.len() {
        give_at(decls, slot as usize, value);
    }
}

/// The declarations with the values that data gives them, each by its slot, which is its place. A declaration that has a value keeps it.
pub fn with_values(decls: Vec<CoreDecl>, values: Vec<(u64, Core)>) -> Vec<CoreDecl>
    requires { AreNumbered (map decl decls.items) }
    ensures { map decl result.items ≡ map (with_value (map typed_item values.items)) (map decl decls.items) }
{
    let mut all = decls;
    for v in values {
        give_to(&mut all, v.0, v.1);
    }
    all
}
