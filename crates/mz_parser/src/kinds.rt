// One item, by its kind.

ghost use Rattle.std.specs.Prelude.{◌<◌, length, Some, false};
ghost use Rattle.mz_tree.specs.Items.{item, goal};
ghost use Rattle.mz_tree.specs.Views.{written};
ghost use Rattle.mz_grammar.specs.Reads.{Reads};
ghost use Rattle.mz_grammar.specs.RulesReading.{on};
ghost use Rattle.mz_grammar.specs.Tokens.{behind, place};
ghost use Rattle.mz_expr_operands.specs.Views.{operand};
ghost use Rattle.mz_grammar.specs.Parts as parts;
ghost use Rattle.mz_grammar.specs.Tests.{item_of, an_include, a_constraint, a_solve, an_output, a_predicate, a_test, a_function, an_annotation, an_enum};
ghost use Rattle.mz_grammar.specs.Reading.{reads};
ghost use Rattle.mz_grammar.specs.Steps.{declared_by, by_expression_at, function_at, item_at, other_item_at};

use crate::enums::cases;
use crate::parameters::params;
use crate::token::{begins_type, text_of};
use mz_base::{Name, Span, Stop};
use mz_expr::parser::{annotations, declaration, declared, expr, level, marks, type_text};
use mz_expr_operands::Operand;
use mz_expr_operands::step::ident;
use mz_grammar::{Cursor, Level, is_sym, is_word};
use mz_lexer::{Keyword, Symbol, Tok};
use mz_tree::{Function, Goal, Item, TypeText, make_bool_base, make_scalar, make_set_base};
use std::alloc::Global;

/// An item.
#[tactic(auto, using(mz_grammar::proofs::ItemEquations::item_reads))]
pub fn item(alloc: Global, cur: &mut Cursor<'_>) -> Result<Item, Stop>
    ensures { Reads item (reads parts.item) cur.old cur.new result }
{
    match cur.tok() {
        None => other_item(alloc, cur),
        Some(tok) => token_item(alloc, cur, tok),
    }
}

/// An item that begins with this token.
fn token_item(alloc: Global, cur: &mut Cursor<'_>, tok: Tok) -> Result<Item, Stop>
    requires some { 0 < length cur.old.rest.now }
    ensures { Reads item (λ room ts. on (item_of (Some tok)) (other_item_at room ts) (λ k. item_at k (place ts) room (behind ts))) cur.old cur.new result }
{
    match tok {
        Tok::Word(k) => word_item(alloc, cur, k),
        _ => other_item(alloc, cur),
    }
}

/// An item that begins with this keyword.
fn word_item(alloc: Global, cur: &mut Cursor<'_>, k: Keyword) -> Result<Item, Stop>
    requires some { 0 < length cur.old.rest.now }
    ensures { Reads item (λ room ts. on (item_of (Some (Tok.Word k))) (other_item_at room ts) (λ k. item_at k (place ts) room (behind ts))) cur.old cur.new result }
{
    match k {
        Keyword::KInclude => include(cur),
        Keyword::KConstraint => constraint(alloc, cur),
        Keyword::KSolve => solve(alloc, cur),
        Keyword::KOutput => output(alloc, cur),
        Keyword::KPredicate => predicate(alloc, cur),
        Keyword::KTest => test(alloc, cur),
        Keyword::KFunction => function(alloc, cur),
        Keyword::KAnnotation => annotation(alloc, cur),
        Keyword::KEnum => enumeration(alloc, cur),
        _ => other_item(alloc, cur),
    }
}

/// An include item.
fn include(cur: &mut Cursor<'_>) -> Result<Item, Stop>
    requires some { 0 < length cur.old.rest.now }
    ensures { Reads item (λ room ts. item_at an_include (place ts) room (behind ts)) cur.old cur.new result }
{
    cur.skip();
    match text_of(cur) {
        None => Err(cur.unfit()),
        Some(name) => Ok(Item::Include(name, cur.pass())),
    }
}

/// A constraint item. Its marks are dropped.
fn constraint(alloc: Global, cur: &mut Cursor<'_>) -> Result<Item, Stop>
    requires some { 0 < length cur.old.rest.now }
    ensures { Reads item (λ room ts. item_at a_constraint (place ts) room (behind ts)) cur.old cur.new result }
{
    cur.skip();
    marks(alloc, cur)?;
    let e = expr(alloc, cur)?;
    Ok(Item::Constraint(e))
}

/// A solve item, with the place of its keyword. Its marks are dropped.
fn solve(alloc: Global, cur: &mut Cursor<'_>) -> Result<Item, Stop>
    requires some { 0 < length cur.old.rest.now }
    ensures { Reads item (λ room ts. item_at a_solve (place ts) room (behind ts)) cur.old cur.new result }
{
    let at = cur.pass();
    marks(alloc, cur)?;
    let asked = goal(alloc, cur)?;
    Ok(Item::Solve(at, asked))
}

/// What a solve item asks for.
#[tactic(auto, using(mz_grammar::proofs::ItemEquations::goal_reads))]
fn goal(alloc: Global, cur: &mut Cursor<'_>) -> Result<Goal, Stop>
    ensures { Reads goal (reads parts.goal) cur.old cur.new result }
{
    if is_word(Keyword::KSatisfy, cur.tok()) {
        cur.skip();
        return Ok(Goal::Satisfy);
    }
    if is_word(Keyword::KMinimize, cur.tok()) {
        cur.skip();
        let e = expr(alloc, cur)?;
        return Ok(Goal::Minimize(e));
    }
    if is_word(Keyword::KMaximize, cur.tok()) {
        cur.skip();
        let e = expr(alloc, cur)?;
        return Ok(Goal::Maximize(e));
    }
    Err(cur.unfit())
}

/// An output item. Its marks are dropped.
fn output(alloc: Global, cur: &mut Cursor<'_>) -> Result<Item, Stop>
    requires some { 0 < length cur.old.rest.now }
    ensures { Reads item (λ room ts. item_at an_output (place ts) room (behind ts)) cur.old cur.new result }
{
    cur.skip();
    marks(alloc, cur)?;
    let e = expr(alloc, cur)?;
    Ok(Item::Output(e))
}

/// A predicate: a function that gives a `var bool`, with the place of its keyword as that type's.
fn predicate(alloc: Global, cur: &mut Cursor<'_>) -> Result<Item, Stop>
    requires some { 0 < length cur.old.rest.now }
    ensures { Reads item (λ room ts. item_at a_predicate (place ts) room (behind ts)) cur.old cur.new result }
{
    let at = cur.pass();
    function_body(
        alloc,
        cur,
        make_scalar(at, true, false, false, make_bool_base()),
    )
}

/// A test: a function that gives a `bool`, with the place of its keyword as that type's.
fn test(alloc: Global, cur: &mut Cursor<'_>) -> Result<Item, Stop>
    requires some { 0 < length cur.old.rest.now }
    ensures { Reads item (λ room ts. item_at a_test (place ts) room (behind ts)) cur.old cur.new result }
{
    let at = cur.pass();
    function_body(
        alloc,
        cur,
        make_scalar(at, false, false, false, make_bool_base()),
    )
}

/// A function item.
fn function(alloc: Global, cur: &mut Cursor<'_>) -> Result<Item, Stop>
    requires some { 0 < length cur.old.rest.now }
    ensures { Reads item (λ room ts. item_at a_function (place ts) room (behind ts)) cur.old cur.new result }
{
    cur.skip();
    let result_type = type_text(alloc, cur)?;
    cur.symbol(Symbol::SColon)?;
    function_body(alloc, cur, result_type)
}

/// A function, after the type of what it gives. Its annotations are dropped.
fn function_body(alloc: Global, cur: &mut Cursor<'_>, gives: TypeText) -> Result<Item, Stop>
    ensures { Reads item (function_at (written gives)) cur.old cur.new result }
{
    let (name, span) = ident(cur)?;
    let params = params(alloc, cur)?;
    annotations(alloc, cur)?;
    cur.symbol(Symbol::SEq)?;
    let body = expr(alloc, cur)?;
    Ok(Item::Function(Function {
        name,
        span,
        result: gives,
        params,
        body,
    }))
}

/// An annotation item. Its parameters are dropped.
fn annotation(alloc: Global, cur: &mut Cursor<'_>) -> Result<Item, Stop>
    requires some { 0 < length cur.old.rest.now }
    ensures { Reads item (λ room ts. item_at an_annotation (place ts) room (behind ts)) cur.old cur.new result }
{
    cur.skip();
    let (name, _) = ident(cur)?;
    params(alloc, cur)?;
    Ok(Item::Annotation(name))
}

/// An enum item. Its annotations are dropped.
fn enumeration(alloc: Global, cur: &mut Cursor<'_>) -> Result<Item, Stop>
    requires some { 0 < length cur.old.rest.now }
    ensures { Reads item (λ room ts. item_at an_enum (place ts) room (behind ts)) cur.old cur.new result }
{
    cur.skip();
    let (name, at) = ident(cur)?;
    annotations(alloc, cur)?;
    let all = cases(alloc, cur)?;
    Ok(Item::Enum(name, at, all))
}

/// An item that no keyword of its own begins: a declaration or an assignment.
fn other_item(alloc: Global, cur: &mut Cursor<'_>) -> Result<Item, Stop>
    ensures { Reads item other_item_at cur.old cur.new result }
{
    if begins_type(cur) {
        let d = declaration(alloc, cur)?;
        return Ok(Item::Decl(d));
    }
    let x = level(alloc, cur, Level::Union)?;
    by_expression(alloc, cur, x)
}

/// An item, after the expression with which it begins.
fn by_expression(alloc: Global, cur: &mut Cursor<'_>, x: Operand) -> Result<Item, Stop>
    ensures { Reads item (by_expression_at (operand x)) cur.old cur.new result }
{
    match x {
        Operand::Name(name, at) => by_name(alloc, cur, name, at),
        other => of_type(alloc, cur, other),
    }
}

/// An item, after the name with which it begins: an assignment, or a declaration whose type the name is.
fn by_name(alloc: Global, cur: &mut Cursor<'_>, name: Name, at: Span) -> Result<Item, Stop>
    ensures { Reads item (by_expression_at (parts.name name at)) cur.old cur.new result }
{
    if is_sym(Symbol::SEq, cur.tok()) {
        cur.skip();
        let e = expr(alloc, cur)?;
        return Ok(Item::Assign(name, at, e));
    }
    of_type(alloc, cur, Operand::Name(name, at))
}

/// A declaration, after the expression that is its type.
fn of_type(alloc: Global, cur: &mut Cursor<'_>, x: Operand) -> Result<Item, Stop>
    ensures { Reads item (declared_by (operand x)) cur.old cur.new result }
{
    let at = x.at();
    let e = x.into_expr(alloc)?;
    let base = make_set_base(alloc, e)?;
    let d = declared(alloc, cur, make_scalar(at, false, false, false, base))?;
    Ok(Item::Decl(d))
}
