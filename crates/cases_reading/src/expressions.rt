// Expressions, each node in parentheses.

use crate::spellings::Spellings;
use crate::types::put_declaration;
use cases::Page;
use mz_tree::{BinOp, Expr, Form, Gen, LetItem, TextPart, UnOp};

#[cycle(trees)]
pub fn put_expression(page: &mut Page, names: &Spellings, e: &Expr) {
    match &e.form {
        Form::Int(n) => page.put(*n),
        Form::Bool(b) => page.put(*b),
        Form::Absent => page.put("<>"),
        Form::Text(n) => page.put(format_args!("\"{}\"", names.text(*n))),
        Form::Ident(n) => page.put(names.text(*n)),
        Form::Interp(parts) => {
            page.put("(text");
            for part in parts.as_slice() {
                match part {
                    TextPart::Plain(n) => page.put(format_args!(" \"{}\"", names.text(*n))),
                    TextPart::Shown(x) => {
                        page.put(" ");
                        put_expression(page, names, x);
                    }
                }
            }
            page.put(")");
        }
        Form::Unary(op, x) => {
            page.put(prefix(*op));
            put_expression(page, names, x);
            page.put(")");
        }
        Form::Chain(first, links) => {
            page.put("(");
            put_expression(page, names, first);
            for (o, x) in links.as_slice() {
                page.put(format_args!(" {} ", operator(o.op)));
                put_expression(page, names, x);
            }
            page.put(")");
        }
        Form::Call(n, args) => {
            page.put(format_args!("(call {}", names.text(*n)));
            put_all(page, names, args.as_slice());
        }
        Form::GenCall(n, gens, x) => {
            page.put(format_args!("(call {}", names.text(*n)));
            put_generators(page, names, gens.as_slice());
            put_expression(page, names, x);
            page.put(")");
        }
        Form::Access(x, indices) => {
            page.put("(at ");
            put_expression(page, names, x);
            put_all(page, names, indices.as_slice());
        }
        Form::Array(elements) => {
            page.put("(array");
            put_all(page, names, elements.as_slice());
        }
        Form::Rows(rows) => {
            page.put("(rows");
            for row in rows.as_slice() {
                page.put(" (row");
                put_all(page, names, row.as_slice());
            }
            page.put(")");
        }
        Form::Set(elements) => {
            page.put("(set");
            put_all(page, names, elements.as_slice());
        }
        Form::ArrayComp(x, gens) => {
            page.put("(array of");
            put_generators(page, names, gens.as_slice());
            put_expression(page, names, x);
            page.put(")");
        }
        Form::SetComp(x, gens) => {
            page.put("(set of");
            put_generators(page, names, gens.as_slice());
            put_expression(page, names, x);
            page.put(")");
        }
        Form::If(branches, other) => {
            page.put("(if");
            for (condition, x) in branches.as_slice() {
                page.put(" ");
                put_expression(page, names, condition);
                page.put(" then ");
                put_expression(page, names, x);
            }
            if let Some(x) = other {
                page.put(" else ");
                put_expression(page, names, x);
            }
            page.put(")");
        }
        Form::Let(lets, x) => {
            page.put("(let ");
            for item in lets.as_slice() {
                match item {
                    LetItem::Decl(d) => put_declaration(page, names, d),
                    LetItem::Constraint(c) => {
                        page.put("(constraint ");
                        put_expression(page, names, c);
                        page.put(")");
                    }
                }
                page.put(" ");
            }
            page.put("in ");
            put_expression(page, names, x);
            page.put(")");
        }
        Form::Whole => page.put(".."),
    }
}

/// Expressions, each after a space, and the closing parenthesis.
#[cycle(trees)]
fn put_all(page: &mut Page, names: &Spellings, es: &[Expr]) {
    for e in es {
        page.put(" ");
        put_expression(page, names, e);
    }
    page.put(")");
}

/// Generators, each after a space, and a space.
#[cycle(trees)]
fn put_generators(page: &mut Page, names: &Spellings, gens: &[Gen]) {
    for g in gens {
        page.put(" (");
        for (n, _) in g.names.as_slice() {
            page.put(format_args!("{} ", names.text(*n)));
        }
        page.put("in ");
        put_expression(page, names, &g.set);
        if let Some(condition) = &g.cond {
            page.put(" where ");
            put_expression(page, names, condition);
        }
        page.put(")");
    }
    page.put(" ");
}

fn prefix(op: UnOp) -> &'static str {
    match op {
        UnOp::Not => "(not ",
        UnOp::Plus => "(+ ",
        UnOp::Minus => "(- ",
    }
}

fn operator(op: BinOp) -> &'static str {
    match op {
        BinOp::Iff => "<->",
        BinOp::Imp => "->",
        BinOp::Rimp => "<-",
        BinOp::Or => "\\/",
        BinOp::Xor => "xor",
        BinOp::And => "/\\",
        BinOp::Lt => "<",
        BinOp::Gt => ">",
        BinOp::Le => "<=",
        BinOp::Ge => ">=",
        BinOp::Eq => "=",
        BinOp::Ne => "!=",
        BinOp::Member => "in",
        BinOp::Subset => "subset",
        BinOp::Superset => "superset",
        BinOp::Union => "union",
        BinOp::Diff => "diff",
        BinOp::Symdiff => "symdiff",
        BinOp::Range => "..",
        BinOp::Add => "+",
        BinOp::Sub => "-",
        BinOp::Mul => "*",
        BinOp::Div => "div",
        BinOp::Mod => "mod",
        BinOp::Intersect => "intersect",
        BinOp::Pow => "^",
        BinOp::Concat => "++",
        BinOp::Default => "default",
    }
}
