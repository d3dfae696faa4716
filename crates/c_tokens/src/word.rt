//! What a word is: a keyword, or a name.

ghost use Rattle.std.specs.Prelude.{◌≡◌, IfOk};
ghost use Rattle.std.specs.Str.{IsAscii};
ghost use Rattle.c_tokens.specs.Words as words;

use crate::token::{Keyword, TokenKind};
use std::alloc::{AllocError, Global};
use tor_edge::Name;

fn keyword_of(text: &[u8]) -> Option<Keyword>
    ensures { result ≡ words.keyword_of text.now }
{
    match text {
        b"static" => Some(Keyword::Static),
        b"void" => Some(Keyword::Void),
        b"reg" => Some(Keyword::Reg),
        b"uint64_t" => Some(Keyword::Word),
        b"unsigned" => Some(Keyword::Unsigned),
        b"for" => Some(Keyword::For),
        b"D" => Some(Keyword::Shares),
        b"UINT64_C" => Some(Keyword::Constant),
        b"tornado_random" => Some(Keyword::Random),
        b"masked" => Some(Keyword::Masked),
        b"out" => Some(Keyword::Out),
        b"in" => Some(Keyword::In),
        b"v" => Some(Keyword::Slots),
        _ => None,
    }
}

fn name_of(alloc: Global, text: &[u8]) -> Result<Name, AllocError>
    requires { IsAscii text.now }
    ensures { IfOk result (λ name. name ≡ text.now) }
{
    match str::from_utf8(text) {
        Ok(text) => Name::of(alloc, text),
        Err(_) => unreachable!(),
    }
}

/// The token that a word is.
pub fn word_kind(alloc: Global, text: &[u8]) -> Result<TokenKind, AllocError>
    requires { IsAscii text.now }
    ensures { IfOk result (λ kind. kind ≡ words.word_kind text.now) }
{
    match keyword_of(text) {
        Some(keyword) => Ok(TokenKind::Keyword(keyword)),
        None => Ok(TokenKind::Name(name_of(alloc, text)?)),
    }
}
