//! The tokens of a text, one after the other.
ghost use Rattle.std.specs.Prelude.{◌≡◌, ◌+◌, ◌<◌, ◌≤◌, ◌^◌, if◌then◌else◌, true};
ghost use Rattle.std.specs.Prelude.{[], ◌∷◌, length, position, MatchOption};
ghost use Rattle.data_text.specs.Parts as parts;
ghost use Rattle.data_text.specs.Tokens as spec;

use std::marker::Model;

/// Bytes that stand between blanks, and their line.
#[derive(Clone, Copy)]
pub(crate) struct Token<'a> {
    pub(crate) word: &'a [u8],
    pub(crate) line: u64,
}

/// The tokens of a text that were not taken yet, and the line on which the text ends.
#[derive(Drop)]
pub(crate) struct Tokens<'a> {
    rest: &'a [u8],
    line: u64,
}

impl<'a> Model for Tokens<'a> {
    ghost use Rattle.std.specs.Prelude.{◌+◌, ◌≤◌, ◌^◌, length};
    ghost use Rattle.data_text.specs.Tokens.{TokensLeft, tokens_from, line_past};

    ghost Value = { TokensLeft };

    ghost view = { λ text. record {
      tokens = tokens_from text.line text.rest.now;
      end = line_past text.line text.rest.now;
    } };

    ghost invariant = { λ text. text.line + length text.rest.now ≤ 2 ^ 63 };
}

impl<'a> Tokens<'a> {
    pub(crate) fn new(text: &'a [u8]) -> Tokens<'a>
        requires { length text.now ≤ 2 ^ 31 }
        ensures { result ≡ spec.tokens_of text.now }
    {
        Tokens {
            rest: text,
            line: 1,
        }
    }

    /// Takes the next token, if one is left.
    pub(crate) fn next_token(&mut self) -> Option<Token<'a>>
        ensures token { MatchOption result ((self.old.tokens ≡ []) × (self.new.tokens ≡ []))
            (λ token. self.old.tokens ≡ record { word = token.word.now; line = token.line } ∷ self.new.tokens) }
        ensures end { self.new.end ≡ self.old.end }
    {
        let (line, rest) = after_blanks(self.line, self.rest);
        let (word, rest) = first_word(rest);
        self.line = line;
        self.rest = rest;
        if word.is_empty() {
            return None;
        }
        Some(Token { word, line })
    }

    /// The line of the place just past the last byte.
    pub(crate) fn end(&self) -> u64
        ensures { result ≡ self.now.end }
    {
        let lines = self.rest.iter().filter(|byte| **byte == b'\n').count();
        self.line + lines as u64
    }
}

fn is_blank(byte: u8) -> bool
    ensures { result ≡ spec.is_blank byte }
{
    byte == b' ' || byte == b'\t' || byte == b'\n' || byte == b'\r'
}

// The line and the bytes at the first byte that is no blank.
fn after_blanks(line: u64, bytes: &[u8]) -> (u64, &[u8])
    requires { line + length bytes.now ≤ 2 ^ 63 }
    ensures tokens { spec.tokens_from result.0 result.1.now ≡ spec.tokens_from line bytes.now }
    ensures end { spec.line_past result.0 result.1.now ≡ spec.line_past line bytes.now }
    ensures room { result.0 + length result.1.now ≤ line + length bytes.now }
    ensures begun { parts.begins_plain result.1.now ≡ true }
{
    let mut line = line;
    let mut rest = bytes;
    while let [first, more @ ..] = rest
        && is_blank(*first)
    {
        line = line_after(line, *first);
        rest = more;
    }
    (line, rest)
}

// The line of what follows a byte.
fn line_after(line: u64, byte: u8) -> u64
    requires { line < 2 ^ 63 }
    ensures { result ≡ (if spec.ends_line byte then line + 1 else line) }
{
    if byte == b'\n' { line + 1 } else { line }
}

// What stands before the first blank, and the bytes from there on.
fn first_word(bytes: &[u8]) -> (&[u8], &[u8])
    ensures { parts.IsFirstWord bytes.now result.0.now result.1.now }
{
    match first_blank(bytes) {
        Some(place) => bytes.split_at(place),
        None => (bytes, &[]),
    }
}

fn first_blank(bytes: &[u8]) -> Option<usize>
    ensures { result ≡ position spec.is_blank bytes.now }
{
    bytes.iter().position(|byte| is_blank(*byte))
}
