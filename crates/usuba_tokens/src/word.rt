//! What a word is: a keyword, `in`, a type word, or a name.

ghost use Rattle.std.specs.Prelude.{◌≡◌, ◌≤◌, ◌<◌, ◌+◌, length, IfOk, IfSome, position};
ghost use Rattle.std.specs.Char.{is_ascii_digit};
ghost use Rattle.std.specs.List.{list_all};
ghost use Rattle.std.specs.Str.{IsAscii};
ghost use Rattle.usuba_tokens.specs.Words as words;

use crate::head::byte;
use crate::number::{is_digit, value_in};
use crate::token::{Base, Keyword, TokenKind, TypeWord};
use std::alloc::{AllocError, Global};
use tor_edge::Name;

fn keyword_of(text: &[u8]) -> Option<Keyword>
    ensures { result ≡ words.keyword_of text.now }
{
    match text {
        b"node" => Some(Keyword::Node),
        b"table" => Some(Keyword::Table),
        b"perm" => Some(Keyword::Perm),
        b"returns" => Some(Keyword::Returns),
        b"vars" => Some(Keyword::Vars),
        b"let" => Some(Keyword::Let),
        b"tel" => Some(Keyword::Tel),
        b"forall" => Some(Keyword::Forall),
        b"refresh" => Some(Keyword::Refresh),
        b"_inline" => Some(Keyword::Inline),
        b"_no_inline" => Some(Keyword::NoInline),
        _ => None,
    }
}

fn is_positive_digit(b: u8) -> bool
    ensures { result ≡ words.is_positive_digit b }
{
    b'1' <= b && b <= b'9'
}

fn all_digits(text: &[u8]) -> bool
    ensures { result ≡ list_all is_ascii_digit text.now }
{
    text.iter().all(|b| is_digit(*b))
}

fn is_plain(text: &[u8]) -> bool
    ensures { result ≡ words.is_plain text.now }
{
    is_positive_digit(byte(text, 0)) && all_digits(text)
}

fn below_2_32(n: u64) -> Option<u32>
    ensures { result ≡ words.below_2_32 n }
{
    u32::try_from(n).ok()
}

fn plain_number(text: &[u8]) -> Option<u32>
    ensures { result ≡ words.plain_number text.now }
{
    if is_plain(text) {
        below_2_32(value_in(10, text)?)
    } else {
        None
    }
}

fn width(text: &[u8]) -> Option<u32>
    ensures { result ≡ words.width text.now }
{
    let w = plain_number(text)?;
    if w <= 64 { Some(w) } else { None }
}

/// What a type word says: what its elements are, and how many where it has a count.
type Meaning = (Base, Option<u32>);

fn counted(base: Base, text: &[u8]) -> Option<Meaning>
    ensures { result ≡ words.counted base text.now }
{
    let n = plain_number(text)?;
    Some((base, Some(n)))
}

fn place_of_x(text: &[u8]) -> Option<usize>
    ensures value { result ≡ position words.is_x text.now }
    ensures within { IfSome result (λ x. x < length text.now) }
{
    text.iter().position(|b| *b == b'x')
}

fn words_of_bits(text: &[u8]) -> Option<Meaning>
    ensures { result ≡ words.words_of_bits (position words.is_x text.now) text.now }
{
    match place_of_x(text) {
        None => {
            let w = width(text)?;
            Some((Base::Bits(w), None))
        }
        Some(x) => {
            let w = width(&text[..x])?;
            counted(Base::Bits(w), &text[x + 1..])
        }
    }
}

fn type_word(text: &[u8]) -> Option<Meaning>
    ensures { result ≡ words.type_word text.now }
{
    match text {
        [b'u', rest @ ..] => words_of_bits(rest),
        [b'b', rest @ ..] => counted(Base::Bits(1), rest),
        [b'v', rest @ ..] => counted(Base::Poly, rest),
        _ => None,
    }
}

fn name_of(alloc: Global, text: &[u8]) -> Result<Name, AllocError>
    requires { IsAscii text.now }
    ensures { IfOk result (λ name. name ≡ text.now) }
{
    match str::from_utf8(text) {
        Ok(text) => Name::of(alloc, text),
        Err(_) => unreachable!(),
    }
}

/// The token that a word is.
pub fn word_kind(alloc: Global, text: &[u8]) -> Result<TokenKind, AllocError>
    requires { IsAscii text.now }
    ensures { IfOk result (λ kind. kind ≡ words.word_kind text.now) }
{
    if let Some(keyword) = keyword_of(text) {
        return Ok(TokenKind::Keyword(keyword));
    }
    let name = name_of(alloc, text)?;
    if text == b"in".as_slice() {
        return Ok(TokenKind::In(name));
    }
    match type_word(text) {
        Some((base, count)) => Ok(TokenKind::TypeWord(TypeWord {
            text: name,
            base,
            count,
        })),
        None => Ok(TokenKind::Word(name)),
    }
}
