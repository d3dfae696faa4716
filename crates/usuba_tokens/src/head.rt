//! What stands at the head of a text.

ghost use Rattle.std.specs.Prelude.{◌≡◌, ◌≤◌, ◌<◌, ◌+◌, length, slice_index, IfSome};
ghost use Rattle.usuba_tokens.specs.Bytes as bytes;
ghost use Rattle.usuba_tokens.specs.Heads as heads;
ghost use Rattle.usuba_tokens.specs.Numbers as numbers;

use crate::number::number_len;
use crate::token::Sign;

/// Which kind of token a text is.
#[derive(Debug, Clone, Copy, Drop)]
pub enum Form {
    Word,
    Number,
    Sign(Sign),
}

/// What begins a text, with its length in bytes.
#[derive(Debug, Clone, Copy, Drop)]
pub enum Head {
    End,
    /// A blank or a comment.
    Gap(usize),
    Found(Form, usize),
    /// No token, or a comment that is never closed.
    Broken,
}

/// The byte at a place, or 0 past the end.
pub fn byte(text: &[u8], at: usize) -> u8
    ensures value { result ≡ slice_index text.now at }
{
    if at < text.len() { text[at] } else { 0 }
}

fn is_blank(b: u8) -> bool
    ensures { result ≡ bytes.is_blank b }
{
    b == b' ' || b == b'\t' || b == b'\r' || b == b'\n'
}

fn begins_word(b: u8) -> bool
    ensures { result ≡ bytes.begins_word b }
{
    b.is_ascii_alphabetic() || b == b'_'
}

fn continues_word(b: u8) -> bool
    ensures { result ≡ bytes.continues_word b }
{
    b.is_ascii_alphabetic() || b.is_ascii_digit() || b == b'_' || b == b'\''
}

fn word_len(text: &[u8]) -> usize
    ensures { result ≡ heads.word_len text.now }
{
    text.iter().take_while(|b| continues_word(**b)).count()
}

fn line_len(text: &[u8]) -> usize
    ensures { result ≡ heads.line_len text.now }
{
    text.iter().take_while(|b| **b != b'\n').count()
}

fn closing(last: u8, text: &[u8]) -> Option<usize>
    requires { 0 < last }
    ensures value { result ≡ heads.closing last text.now }
    ensures within { IfSome result (λ n. n ≤ length text.now) }
{
    for (at, b) in text.iter().enumerate() {
        if *b == b'*' && byte(text, at + 1) == last {
            return Some(at + 2);
        }
    }
    None
}

fn commented(last: u8, text: &[u8]) -> Head
    requires { 0 < last }
    ensures { result ≡ heads.commented (heads.closing last text.now) }
{
    match closing(last, text) {
        None => Head::Broken,
        Some(n) => Head::Gap(2 + n),
    }
}

fn number(text: &[u8]) -> Head
    ensures { result ≡ heads.number text.now }
{
    let n = number_len(text);
    if begins_word(byte(text, n)) {
        Head::Broken
    } else {
        Head::Found(Form::Number, n)
    }
}

fn found_sign(sign: Sign, n: usize) -> Head
    ensures { result ≡ heads.found_sign sign n }
{
    Head::Found(Form::Sign(sign), n)
}

fn one_byte_sign(b: u8) -> Head
    ensures { result ≡ heads.one_byte_sign b }
{
    match b {
        b'(' => found_sign(Sign::OpenRound, 1),
        b')' => found_sign(Sign::CloseRound, 1),
        b'[' => found_sign(Sign::OpenSquare, 1),
        b']' => found_sign(Sign::CloseSquare, 1),
        b'{' => found_sign(Sign::OpenCurly, 1),
        b'}' => found_sign(Sign::CloseCurly, 1),
        b',' => found_sign(Sign::Comma, 1),
        b';' => found_sign(Sign::Semicolon, 1),
        b':' => found_sign(Sign::Colon, 1),
        b'=' => found_sign(Sign::Equals, 1),
        b'~' => found_sign(Sign::Tilde, 1),
        b'&' => found_sign(Sign::Ampersand, 1),
        b'^' => found_sign(Sign::Caret, 1),
        b'|' => found_sign(Sign::Bar, 1),
        b'+' => found_sign(Sign::Plus, 1),
        b'-' => found_sign(Sign::Minus, 1),
        b'*' => found_sign(Sign::Star, 1),
        b'/' => found_sign(Sign::Slash, 1),
        b'%' => found_sign(Sign::Percent, 1),
        _ => Head::Broken,
    }
}

fn longest_sign(b: u8, c: u8, d: u8) -> Head
    ensures { result ≡ heads.longest_sign b c d }
{
    match (b, c, d) {
        (b'<', b'<', b'<') => found_sign(Sign::RotateLeft, 3),
        (b'>', b'>', b'>') => found_sign(Sign::RotateRight, 3),
        (b'<', b'<', _) => found_sign(Sign::ShiftLeft, 2),
        (b'>', b'>', _) => found_sign(Sign::ShiftRight, 2),
        (b'.', b'.', _) => found_sign(Sign::Dots, 2),
        _ => one_byte_sign(b),
    }
}

pub fn head_of(text: &[u8]) -> Head
    ensures { result ≡ heads.head_of text.now }
{
    let [b, rest @ ..] = text else {
        return Head::End;
    };
    let next = byte(rest, 0);
    if is_blank(*b) {
        Head::Gap(1)
    } else if *b == b'/' && next == b'/' {
        Head::Gap(line_len(text))
    } else if *b == b'/' && next == b'*' {
        commented(b'/', &rest[1..])
    } else if *b == b'(' && next == b'*' {
        commented(b')', &rest[1..])
    } else if begins_word(*b) {
        Head::Found(Form::Word, word_len(text))
    } else if b.is_ascii_digit() {
        number(text)
    } else {
        longest_sign(*b, next, byte(rest, 1))
    }
}
