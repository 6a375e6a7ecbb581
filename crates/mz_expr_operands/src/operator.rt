// The operators.

ghost use Rattle.std.specs.Prelude.{◌≡◌, Some};
ghost use Rattle.mz_grammar.specs.Operators.{prefix_of, operator_of, level_number, binary_of, is_nonassociative, tighter_level};
ghost use Rattle.mz_expr_operands.specs.Levels.{next_level};

use mz_grammar::Level;
use mz_lexer::{Keyword, Symbol, Tok};
use mz_tree::{BinOp, UnOp};

/// The prefix operator that the token is.
pub fn prefix_of(tok: Option<Tok>) -> Option<UnOp>
    ensures { result ≡ prefix_of tok }
{
    match tok {
        Some(Tok::Word(Keyword::KNot)) => Some(UnOp::Not),
        Some(Tok::Sym(Symbol::SPlus)) => Some(UnOp::Plus),
        Some(Tok::Sym(Symbol::SMinus)) => Some(UnOp::Minus),
        _ => None,
    }
}

/// The binary operator that the token is, and its level.
fn operator_of(tok: Option<Tok>) -> Option<(Level, BinOp)>
    ensures { result ≡ operator_of tok }
{
    match tok {
        Some(Tok::Sym(s)) => operator_of_symbol(s),
        Some(Tok::Word(k)) => operator_of_word(k),
        _ => None,
    }
}

fn operator_of_symbol(s: Symbol) -> Option<(Level, BinOp)>
    ensures { result ≡ operator_of (Some (Tok.Sym s)) }
{
    match s {
        Symbol::SIff => Some((Level::Iff, BinOp::Iff)),
        Symbol::SImp => Some((Level::Imp, BinOp::Imp)),
        Symbol::SRimp => Some((Level::Imp, BinOp::Rimp)),
        Symbol::SOr => Some((Level::Or, BinOp::Or)),
        Symbol::SAnd => Some((Level::And, BinOp::And)),
        Symbol::SLt => Some((Level::Compare, BinOp::Lt)),
        Symbol::SGt => Some((Level::Compare, BinOp::Gt)),
        Symbol::SLe => Some((Level::Compare, BinOp::Le)),
        Symbol::SGe => Some((Level::Compare, BinOp::Ge)),
        Symbol::SEq => Some((Level::Compare, BinOp::Eq)),
        Symbol::SEqEq => Some((Level::Compare, BinOp::Eq)),
        Symbol::SNe => Some((Level::Compare, BinOp::Ne)),
        Symbol::SDots => Some((Level::Range, BinOp::Range)),
        Symbol::SPlus => Some((Level::Sum, BinOp::Add)),
        Symbol::SMinus => Some((Level::Sum, BinOp::Sub)),
        Symbol::SStar => Some((Level::Product, BinOp::Mul)),
        Symbol::SCaret => Some((Level::Power, BinOp::Pow)),
        Symbol::SConcat => Some((Level::Concat, BinOp::Concat)),
        _ => None,
    }
}

fn operator_of_word(k: Keyword) -> Option<(Level, BinOp)>
    ensures { result ≡ operator_of (Some (Tok.Word k)) }
{
    match k {
        Keyword::KXor => Some((Level::Or, BinOp::Xor)),
        Keyword::KIn => Some((Level::Member, BinOp::Member)),
        Keyword::KSubset => Some((Level::Member, BinOp::Subset)),
        Keyword::KSuperset => Some((Level::Member, BinOp::Superset)),
        Keyword::KUnion => Some((Level::Union, BinOp::Union)),
        Keyword::KDiff => Some((Level::Union, BinOp::Diff)),
        Keyword::KSymdiff => Some((Level::Union, BinOp::Symdiff)),
        Keyword::KDiv => Some((Level::Product, BinOp::Div)),
        Keyword::KMod => Some((Level::Product, BinOp::Mod)),
        Keyword::KIntersect => Some((Level::Product, BinOp::Intersect)),
        _ => None,
    }
}

/// The number of a level: 1 is the loosest, 12 the tightest.
pub fn level_number(l: Level) -> u8
    ensures { result ≡ level_number l }
{
    l as u8
}

/// The level of the operator that the token is, where that is `l` or tighter, with a number below `done`.
pub fn next_level(l: Level, done: u8, tok: Option<Tok>) -> Option<Level>
    ensures { result ≡ next_level l done tok }
{
    match operator_of(tok) {
        None => None,
        Some((level, _)) => {
            if level_number(l) <= level_number(level) && level_number(level) < done {
                Some(level)
            } else {
                None
            }
        }
    }
}

/// The operator of this level that the token is.
pub fn binary_of(l: Level, tok: Option<Tok>) -> Option<BinOp>
    ensures { result ≡ binary_of l tok }
{
    match operator_of(tok) {
        None => None,
        Some((level, op)) => {
            if level_number(level) == level_number(l) {
                Some(op)
            } else {
                None
            }
        }
    }
}

/// Whether operators of this level don't associate.
pub fn is_nonassociative(l: Level) -> bool
    ensures { result ≡ is_nonassociative l }
{
    matches!(l, Level::Compare | Level::Member | Level::Range)
}

/// The next tighter level, if there is one.
pub fn tighter_level(l: Level) -> Option<Level>
    ensures { result ≡ tighter_level l }
{
    match l {
        Level::Iff => Some(Level::Imp),
        Level::Imp => Some(Level::Or),
        Level::Or => Some(Level::And),
        Level::And => Some(Level::Compare),
        Level::Compare => Some(Level::Member),
        Level::Member => Some(Level::Union),
        Level::Union => Some(Level::Range),
        Level::Range => Some(Level::Sum),
        Level::Sum => Some(Level::Product),
        Level::Product => Some(Level::Power),
        Level::Power => Some(Level::Concat),
        Level::Concat => None,
    }
}
