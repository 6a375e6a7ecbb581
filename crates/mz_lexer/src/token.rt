// The tokens of a file.

use mz_base::{Keyword, Name, Span};

/// A symbol, by its spelling.
#[derive(Clone, Copy, Debug, PartialEq, Eq)]
pub enum Symbol {
    /// `(`
    SLParen,
    /// `)`
    SRParen,
    /// `[`
    SLBrack,
    /// `]`
    SRBrack,
    /// `{`
    SLBrace,
    /// `}`
    SRBrace,
    /// `[|`
    SLRows,
    /// `|]`
    SRRows,
    /// `|`
    SBar,
    /// `,`
    SComma,
    /// `;`
    SSemi,
    /// `:`
    SColon,
    /// `::`
    SColons,
    /// `..`
    SDots,
    /// `=`
    SEq,
    /// `==`
    SEqEq,
    /// `!=`
    SNe,
    /// `<`
    SLt,
    /// `<=`
    SLe,
    /// `>`
    SGt,
    /// `>=`
    SGe,
    /// `<-`
    SRimp,
    /// `->`
    SImp,
    /// `<->`
    SIff,
    /// `\/`
    SOr,
    /// `/\`
    SAnd,
    /// `+`
    SPlus,
    /// `-`
    SMinus,
    /// `*`
    SStar,
    /// `^`
    SCaret,
    /// `++`
    SConcat,
    /// `<>`
    SAbsent,
}

/// What a token is.
///
/// The name of a text's token is that of the bytes that the text means, with its escapes read.
#[derive(Clone, Copy, Debug, PartialEq, Eq)]
pub enum Tok {
    Word(Keyword),
    Sym(Symbol),
    /// An identifier.
    Ident(Name),
    /// An integer literal, from 0 to 2^61.
    Int(i64),
    /// A text with nothing between its pieces: `"a"`.
    Text(Name),
    /// A text's first piece: `"a\(`.
    TextHead(Name),
    /// A piece between two others: `)a\(`.
    TextMid(Name),
    /// A text's last piece: `)a"`.
    TextTail(Name),
}

/// A token and its place: the place of its first byte, and its length in bytes.
#[derive(Clone, Copy, Debug, PartialEq, Eq)]
pub struct Token {
    pub tok: Tok,
    pub span: Span,
    pub len: u64,
}
