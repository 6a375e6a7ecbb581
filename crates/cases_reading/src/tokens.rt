// The tokens of a text.

ghost use Rattle.std.specs.Prelude.{◌≤◌, length};
ghost use Rattle.mz_base.specs.declared.limit.TheConstants.{FILE_LIMIT};
ghost use Rattle.mz_lexer.specs.Views.{HasName};

use crate::file::FILE;
use crate::stopped;
use crate::stopped::put_place;
use cases::Page;
use mz_base::{Memory, Names};
use mz_lexer::{Tok, Token, tokens};
use std::alloc::Global;

/// Each token with its place, its length and what it is, or the refusal.
pub fn print(alloc: Global, bytes: &[u8], page: &mut Page) -> Result<(), Memory>
    requires { length bytes.now ≤ FILE_LIMIT }
{
    let mut names = Names::new(alloc);
    match tokens(alloc, bytes, FILE, &mut names) {
        Ok(all) => {
            for token in all.as_slice() {
                print_token(page, &names, token);
            }
            Ok(())
        }
        Err(stop) => stopped::print(page, stop),
    }
}

fn print_token(page: &mut Page, names: &Names, token: &Token)
    requires { HasName names.now token.now }
{
    page.put("  ");
    put_place(page, token.span);
    page.put(format_args!(" {} ", token.len));
    let tok = token.tok;
    match tok {
        Tok::Ident(n) => page.line(format_args!("Ident({})", names.text(n))),
        Tok::Text(n) => page.line(format_args!("Text({:?})", names.text(n))),
        Tok::TextHead(n) => page.line(format_args!("TextHead({:?})", names.text(n))),
        Tok::TextMid(n) => page.line(format_args!("TextMid({:?})", names.text(n))),
        Tok::TextTail(n) => page.line(format_args!("TextTail({:?})", names.text(n))),
        Tok::Word(k) => page.line(format_args!("Word({k:?})")),
        Tok::Sym(s) => page.line(format_args!("Sym({s:?})")),
        Tok::Int(n) => page.line(format_args!("Int({n})")),
    }
}
