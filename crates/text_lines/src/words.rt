ghost use Rattle.std.specs.Prelude.{◌≡◌, [], ◌∷◌, MatchOption};
ghost use Rattle.std.specs.List.{list_all};
ghost use Rattle.std.specs.Str.{bytes_eq};
ghost use Rattle.text_lines.specs.Numbers as numbers;
ghost use Rattle.text_lines.specs.Words.{words_of};

use crate::cutting::cut;
use crate::number::is_number;
use std::marker::Model;

/// The words of a line that were not taken yet. Contracts see the list of their bytes.
#[derive(Debug, Drop)]
pub struct Words<'a> {
    rest: Option<&'a [u8]>,
}

impl<'a> Model for Words<'a> {
    ghost use Rattle.std.specs.Prelude.{ℕ, List};
    ghost use Rattle.std.specs.Option.{option_copied};
    ghost use Rattle.text_lines.specs.Words.{words_left};

    ghost Value = { List (List ℕ) };

    ghost view = { λ words. words_left (option_copied words.rest) };
}

impl<'a> Words<'a> {
    pub fn new(line: &'a [u8]) -> Words<'a>
        ensures { result ≡ words_of line.now }
    {
        Words { rest: Some(line) }
    }

    /// The same words once more.
    pub fn copy(&self) -> Words<'a>
        ensures { result ≡ self.now }
    {
        Words { rest: self.rest }
    }

    /// Takes the next word, if one is left.
    pub fn next_word(&mut self) -> Option<&'a [u8]>
        ensures { MatchOption result ((self.old ≡ []) × (self.new ≡ [])) (λ word. self.old ≡ word.now ∷ self.new) }
    {
        let line = self.rest?;
        match cut(line, b' ') {
            Some((word, rest)) => {
                self.rest = Some(rest);
                Some(word)
            }
            None => {
                self.rest = None;
                Some(line)
            }
        }
    }
}

/// Whether a word is this one.
pub fn is_word(word: &[u8], wanted: &str) -> bool
    ensures { result ≡ bytes_eq word.now wanted.now }
{
    word == wanted.as_bytes()
}

/// Whether all the words are numbers.
pub fn are_numbers(mut words: Words<'_>) -> bool
    ensures { result ≡ list_all numbers.is_number words.entry }
{
    while let Some(word) = words.next_word() {
        if !is_number(word) {
            return false;
        }
    }
    true
}
