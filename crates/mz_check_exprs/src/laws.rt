// What is known of the names of an expression's parts.

ghost use Rattle.std.specs.Prelude.{◌<◌, length};
ghost use Rattle.mz_tree.specs.Views.{tree as source};
ghost use Rattle.mz_tree.specs.declared.expr.Form.TheViews.{out-Form};
ghost use Rattle.mz_check_context.specs.Known.{known};
ghost use Rattle.mz_check_exprs.specs.Naming.{IsNamed, IsNamedForm, IsNamedCallee};

use mz_check_context::Context;
use mz_tree::Expr;

/// Where all names of an expression are in the table of names, so are those of its parts.
pub(crate) fn form_is_named(context: &Context<'_>, e: &Expr)
    requires { IsNamed (length (known context.now).texts) (source e.now) }
    ensures parts { IsNamedForm (length (known context.now).texts) (out-Form e.now.form) }
    ensures callee { IsNamedCallee (length (known context.now).texts) (out-Form e.now.form) }
{}
