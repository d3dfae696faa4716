//! What stands at the head of a text.

ghost use Rattle.std.specs.Prelude.{◌≡◌, slice_index};
ghost use Rattle.usuba_tokens.specs.Bytes as bytes;
ghost use Rattle.c_tokens.specs.Heads as heads;

use crate::number::{digits_len, number_value};
use crate::token::Sign;

/// Which kind of token a text is.
#[derive(Debug, Clone, Copy, Drop)]
pub enum Form {
    Word,
    Number(u64),
    Sign(Sign),
}

/// What begins a text, with its length in bytes.
#[derive(Debug, Clone, Copy, Drop)]
pub enum Head {
    End,
    Blank,
    Found(Form, usize),
    Broken,
}

/// The byte at a place, or 0 past the end.
fn byte(text: &[u8], at: usize) -> u8
    ensures value { result ≡ slice_index text.now at }
{
    if at < text.len() { text[at] } else { 0 }
}

fn is_blank(b: u8) -> bool
    ensures { result ≡ bytes.is_blank b }
{
    b == b' ' || b == b'\t' || b == b'\r' || b == b'\n'
}

fn begins_word(b: u8) -> bool
    ensures { result ≡ bytes.begins_word b }
{
    b.is_ascii_alphabetic() || b == b'_'
}

fn continues_word(b: u8) -> bool
    ensures { result ≡ heads.continues_word b }
{
    b.is_ascii_alphabetic() || b.is_ascii_digit() || b == b'_'
}

fn word_len(text: &[u8]) -> usize
    ensures { result ≡ heads.word_len text.now }
{
    text.iter().take_while(|b| continues_word(**b)).count()
}

fn number(text: &[u8]) -> Head
    ensures { result ≡ heads.number text.now }
{
    let n = digits_len(text);
    if begins_word(byte(text, n)) || byte(text, 0) == b'0' && 1 < n {
        return Head::Broken;
    }
    match number_value(&text[..n]) {
        Some(value) => Head::Found(Form::Number(value), n),
        None => Head::Broken,
    }
}

fn found_sign(sign: Sign, n: usize) -> Head
    ensures { result ≡ heads.found_sign sign n }
{
    Head::Found(Form::Sign(sign), n)
}

fn one_byte_sign(b: u8) -> Head
    ensures { result ≡ heads.one_byte_sign b }
{
    match b {
        b'(' => found_sign(Sign::OpenRound, 1),
        b')' => found_sign(Sign::CloseRound, 1),
        b'[' => found_sign(Sign::OpenSquare, 1),
        b']' => found_sign(Sign::CloseSquare, 1),
        b'{' => found_sign(Sign::OpenCurly, 1),
        b'}' => found_sign(Sign::CloseCurly, 1),
        b',' => found_sign(Sign::Comma, 1),
        b';' => found_sign(Sign::Semicolon, 1),
        b'=' => found_sign(Sign::Equals, 1),
        b'<' => found_sign(Sign::Less, 1),
        b'+' => found_sign(Sign::Plus, 1),
        b'-' => found_sign(Sign::Minus, 1),
        b'^' => found_sign(Sign::Caret, 1),
        b'&' => found_sign(Sign::Ampersand, 1),
        b'|' => found_sign(Sign::Bar, 1),
        _ => Head::Broken,
    }
}

fn longest_sign(b: u8, c: u8) -> Head
    ensures { result ≡ heads.longest_sign b c }
{
    match (b, c) {
        (b'+', b'+') => found_sign(Sign::PlusPlus, 2),
        (b'<', b'<') => found_sign(Sign::ShiftLeft, 2),
        (b'>', b'>') => found_sign(Sign::ShiftRight, 2),
        _ => one_byte_sign(b),
    }
}

pub fn head_of(text: &[u8]) -> Head
    ensures { result ≡ heads.head_of text.now }
{
    let [b, rest @ ..] = text else {
        return Head::End;
    };
    if is_blank(*b) {
        Head::Blank
    } else if begins_word(*b) {
        Head::Found(Form::Word, word_len(text))
    } else if b.is_ascii_digit() {
        number(text)
    } else {
        longest_sign(*b, byte(rest, 0))
    }
}
