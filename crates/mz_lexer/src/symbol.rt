// The longest symbol that comes first.

ghost use Rattle.std.specs.Prelude.{◌≡◌, ◌<◌, IfSome};
ghost use Rattle.mz_lexer.specs.StepsSymbols.{less_at, symbol_at};
ghost use Rattle.mz_lexer.specs.Views.{IsSpelled};

use crate::token::Symbol;

/// The longest symbol that begins with `<` and these two bytes, with its length.
#[tactic(auto, unfolding(crate::specs::StepsSymbols::less_at))]
fn less_at(second: u8, third: u8) -> Option<(Symbol, usize)>
    ensures value { result ≡ less_at second third }
    ensures len { IfSome result (λ s. IsSpelled second third s.1) }
{
    match (second, third) {
        (b'=', _) => Some((Symbol::SLe, 2)),
        (b'-', b'>') => Some((Symbol::SIff, 3)),
        (b'-', _) => Some((Symbol::SRimp, 2)),
        (b'>', _) => Some((Symbol::SAbsent, 2)),
        _ => Some((Symbol::SLt, 1)),
    }
}

/// The longest symbol that begins with these three bytes, 0 where there is none, with its length.
#[tactic(auto, unfolding(crate::specs::StepsSymbols::symbol_at))]
pub fn symbol_at(first: u8, second: u8, third: u8) -> Option<(Symbol, usize)>
    ensures value { result ≡ symbol_at first second third }
    ensures len { IfSome result (λ s. IsSpelled second third s.1) }
{
    match (first, second) {
        (b'(', _) => Some((Symbol::SLParen, 1)),
        (b')', _) => Some((Symbol::SRParen, 1)),
        (b'[', b'|') => Some((Symbol::SLRows, 2)),
        (b'[', _) => Some((Symbol::SLBrack, 1)),
        (b']', _) => Some((Symbol::SRBrack, 1)),
        (b'{', _) => Some((Symbol::SLBrace, 1)),
        (b'}', _) => Some((Symbol::SRBrace, 1)),
        (b'|', b']') => Some((Symbol::SRRows, 2)),
        (b'|', _) => Some((Symbol::SBar, 1)),
        (b',', _) => Some((Symbol::SComma, 1)),
        (b';', _) => Some((Symbol::SSemi, 1)),
        (b':', b':') => Some((Symbol::SColons, 2)),
        (b':', _) => Some((Symbol::SColon, 1)),
        (b'.', b'.') => Some((Symbol::SDots, 2)),
        (b'=', b'=') => Some((Symbol::SEqEq, 2)),
        (b'=', _) => Some((Symbol::SEq, 1)),
        (b'!', b'=') => Some((Symbol::SNe, 2)),
        (b'<', _) => less_at(second, third),
        (b'>', b'=') => Some((Symbol::SGe, 2)),
        (b'>', _) => Some((Symbol::SGt, 1)),
        (b'-', b'>') => Some((Symbol::SImp, 2)),
        (b'-', _) => Some((Symbol::SMinus, 1)),
        (b'\\', b'/') => Some((Symbol::SOr, 2)),
        (b'/', b'\\') => Some((Symbol::SAnd, 2)),
        (b'+', b'+') => Some((Symbol::SConcat, 2)),
        (b'+', _) => Some((Symbol::SPlus, 1)),
        (b'*', _) => Some((Symbol::SStar, 1)),
        (b'^', _) => Some((Symbol::SCaret, 1)),
        _ => None,
    }
}
