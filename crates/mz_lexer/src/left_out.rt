// The keywords of forms that are left out.

ghost use Rattle.std.specs.Prelude.{◌≡◌};
ghost use Rattle.mz_lexer.specs.LeftOut.{is_left_out_keyword};

use mz_base::Keyword;

/// Whether a keyword stands for a form that is left out.
pub fn is_left_out(keyword: Keyword) -> bool
    ensures { result ≡ is_left_out_keyword keyword }
{
    matches!(
        keyword,
        Keyword::KAnn
            | Keyword::KAny
            | Keyword::KCase
            | Keyword::KDefault
            | Keyword::KFloat
            | Keyword::KOp
            | Keyword::KRecord
            | Keyword::KString
            | Keyword::KTuple
            | Keyword::KType
    )
}
