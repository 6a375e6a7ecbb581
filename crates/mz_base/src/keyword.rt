// The keywords of MiniZinc, and how they are spelled.

ghost use Rattle.std.specs.Prelude.{◌≡◌, find};
ghost use Rattle.std.specs.Str.{bytes_eq};
ghost use Rattle.mz_base.specs.Keywords.{keyword_text, keyword_of};
ghost use Rattle.mz_base.specs.StepsKeywords.{keywords_with};

/// A keyword, by its spelling.
#[derive(Clone, Copy, Debug, PartialEq, Eq)]
pub enum Keyword {
    /// `ann`
    KAnn,
    /// `annotation`
    KAnnotation,
    /// `any`
    KAny,
    /// `array`
    KArray,
    /// `bool`
    KBool,
    /// `case`
    KCase,
    /// `constraint`
    KConstraint,
    /// `default`
    KDefault,
    /// `diff`
    KDiff,
    /// `div`
    KDiv,
    /// `else`
    KElse,
    /// `elseif`
    KElseif,
    /// `endif`
    KEndif,
    /// `enum`
    KEnum,
    /// `false`
    KFalse,
    /// `float`
    KFloat,
    /// `function`
    KFunction,
    /// `if`
    KIf,
    /// `in`
    KIn,
    /// `include`
    KInclude,
    /// `int`
    KInt,
    /// `intersect`
    KIntersect,
    /// `let`
    KLet,
    /// `list`
    KList,
    /// `maximize`
    KMaximize,
    /// `minimize`
    KMinimize,
    /// `mod`
    KMod,
    /// `not`
    KNot,
    /// `of`
    KOf,
    /// `op`
    KOp,
    /// `opt`
    KOpt,
    /// `output`
    KOutput,
    /// `par`
    KPar,
    /// `predicate`
    KPredicate,
    /// `record`
    KRecord,
    /// `satisfy`
    KSatisfy,
    /// `set`
    KSet,
    /// `solve`
    KSolve,
    /// `string`
    KString,
    /// `subset`
    KSubset,
    /// `superset`
    KSuperset,
    /// `symdiff`
    KSymdiff,
    /// `test`
    KTest,
    /// `then`
    KThen,
    /// `true`
    KTrue,
    /// `tuple`
    KTuple,
    /// `type`
    KType,
    /// `union`
    KUnion,
    /// `var`
    KVar,
    /// `where`
    KWhere,
    /// `xor`
    KXor,
}

// The keywords by their first letters.

const A_WORDS: [Keyword; 4] = [
    Keyword::KAnn,
    Keyword::KAnnotation,
    Keyword::KAny,
    Keyword::KArray,
];

const B_WORDS: [Keyword; 1] = [Keyword::KBool];

const C_WORDS: [Keyword; 2] = [Keyword::KCase, Keyword::KConstraint];

const D_WORDS: [Keyword; 3] = [Keyword::KDefault, Keyword::KDiff, Keyword::KDiv];

const E_WORDS: [Keyword; 4] = [
    Keyword::KElse,
    Keyword::KElseif,
    Keyword::KEndif,
    Keyword::KEnum,
];

const F_WORDS: [Keyword; 3] = [Keyword::KFalse, Keyword::KFloat, Keyword::KFunction];

const I_WORDS: [Keyword; 5] = [
    Keyword::KIf,
    Keyword::KIn,
    Keyword::KInclude,
    Keyword::KInt,
    Keyword::KIntersect,
];

const L_WORDS: [Keyword; 2] = [Keyword::KLet, Keyword::KList];

const M_WORDS: [Keyword; 3] = [Keyword::KMaximize, Keyword::KMinimize, Keyword::KMod];

const N_WORDS: [Keyword; 1] = [Keyword::KNot];

const O_WORDS: [Keyword; 4] = [Keyword::KOf, Keyword::KOp, Keyword::KOpt, Keyword::KOutput];

const P_WORDS: [Keyword; 2] = [Keyword::KPar, Keyword::KPredicate];

const R_WORDS: [Keyword; 1] = [Keyword::KRecord];

const S_WORDS: [Keyword; 7] = [
    Keyword::KSatisfy,
    Keyword::KSet,
    Keyword::KSolve,
    Keyword::KString,
    Keyword::KSubset,
    Keyword::KSuperset,
    Keyword::KSymdiff,
];

const T_WORDS: [Keyword; 5] = [
    Keyword::KTest,
    Keyword::KThen,
    Keyword::KTrue,
    Keyword::KTuple,
    Keyword::KType,
];

const U_WORDS: [Keyword; 1] = [Keyword::KUnion];

const V_WORDS: [Keyword; 1] = [Keyword::KVar];

const W_WORDS: [Keyword; 1] = [Keyword::KWhere];

const X_WORDS: [Keyword; 1] = [Keyword::KXor];

/// How a keyword is spelled.
fn spelling(keyword: Keyword) -> &'static [u8]
    ensures { result.now ≡ keyword_text keyword }
{
    match keyword {
        Keyword::KAnn => b"ann",
        Keyword::KAnnotation => b"annotation",
        Keyword::KAny => b"any",
        Keyword::KArray => b"array",
        Keyword::KBool => b"bool",
        Keyword::KCase => b"case",
        Keyword::KConstraint => b"constraint",
        Keyword::KDefault => b"default",
        Keyword::KDiff => b"diff",
        Keyword::KDiv => b"div",
        Keyword::KElse => b"else",
        Keyword::KElseif => b"elseif",
        Keyword::KEndif => b"endif",
        Keyword::KEnum => b"enum",
        Keyword::KFalse => b"false",
        Keyword::KFloat => b"float",
        Keyword::KFunction => b"function",
        Keyword::KIf => b"if",
        Keyword::KIn => b"in",
        Keyword::KInclude => b"include",
        Keyword::KInt => b"int",
        Keyword::KIntersect => b"intersect",
        Keyword::KLet => b"let",
        Keyword::KList => b"list",
        Keyword::KMaximize => b"maximize",
        Keyword::KMinimize => b"minimize",
        Keyword::KMod => b"mod",
        Keyword::KNot => b"not",
        Keyword::KOf => b"of",
        Keyword::KOp => b"op",
        Keyword::KOpt => b"opt",
        Keyword::KOutput => b"output",
        Keyword::KPar => b"par",
        Keyword::KPredicate => b"predicate",
        Keyword::KRecord => b"record",
        Keyword::KSatisfy => b"satisfy",
        Keyword::KSet => b"set",
        Keyword::KSolve => b"solve",
        Keyword::KString => b"string",
        Keyword::KSubset => b"subset",
        Keyword::KSuperset => b"superset",
        Keyword::KSymdiff => b"symdiff",
        Keyword::KTest => b"test",
        Keyword::KThen => b"then",
        Keyword::KTrue => b"true",
        Keyword::KTuple => b"tuple",
        Keyword::KType => b"type",
        Keyword::KUnion => b"union",
        Keyword::KVar => b"var",
        Keyword::KWhere => b"where",
        Keyword::KXor => b"xor",
    }
}

/// The keywords that begin with a byte.
#[tactic(auto, unfolding(crate::specs::StepsKeywords::keywords_with))]
fn keywords_with(first: u8) -> &'static [Keyword]
    ensures { result.now ≡ keywords_with first }
{
    match first {
        b'a' => &A_WORDS,
        b'b' => &B_WORDS,
        b'c' => &C_WORDS,
        b'd' => &D_WORDS,
        b'e' => &E_WORDS,
        b'f' => &F_WORDS,
        b'i' => &I_WORDS,
        b'l' => &L_WORDS,
        b'm' => &M_WORDS,
        b'n' => &N_WORDS,
        b'o' => &O_WORDS,
        b'p' => &P_WORDS,
        b'r' => &R_WORDS,
        b's' => &S_WORDS,
        b't' => &T_WORDS,
        b'u' => &U_WORDS,
        b'v' => &V_WORDS,
        b'w' => &W_WORDS,
        b'x' => &X_WORDS,
        _ => &[],
    }
}

/// The keyword among some that is spelled as a word.
fn among(keywords: &[Keyword], word: &[u8]) -> Option<Keyword>
    ensures { result ≡ find (λ k. bytes_eq (keyword_text k) word.now) keywords.now }
{
    keywords.iter().copied().find(|k| spelling(*k) == word)
}

/// The keyword that a word is, if it is one.
pub fn keyword_of(word: &[u8]) -> Option<Keyword>
    ensures { result ≡ keyword_of word.now }
{
    match word {
        [] => None,
        [first, ..] => among(keywords_with(*first), word),
    }
}
