ghost use Rattle.std.specs.Prelude.{◌≡◌, ◌+◌, ◌≤◌, ◌^◌, ◌↔◌, [], ◌∷◌, None, Some, length, IsTrue, MatchOption};
ghost use Rattle.text_lines.specs.Lines.{lines_of, first_words};

use crate::cutting::cut;
use crate::words::Words;
use std::marker::Model;

/// The lines of a text that were not taken yet, with the number of the next one. Lines count from 1.
#[derive(Debug, Drop)]
pub struct Lines<'a> {
    rest: &'a [u8],
    number: u64,
}

impl<'a> Model for Lines<'a> {
    ghost use Rattle.std.specs.Prelude.{◌+◌, ◌≤◌, ◌^◌, length};
    ghost use Rattle.text_lines.specs.Lines.{LinesLeft, lines_of};

    ghost Value = { LinesLeft };

    ghost view = { λ text. record { lines = lines_of text.rest.now; number = text.number } };

    ghost invariant = { λ text. text.number + length text.rest.now ≤ 2 ^ 63 };
}

impl<'a> Lines<'a> {
    pub fn new(text: &'a [u8]) -> Lines<'a>
        requires { length text.now ≤ 2 ^ 31 }
        ensures { result ≡ record { lines = lines_of text.now; number = 1 } }
    {
        Lines::from_line(1, text)
    }

    /// The lines of a text of which the first has this number.
    pub fn from_line(number: u64, text: &'a [u8]) -> Lines<'a>
        requires { number + length text.now ≤ 2 ^ 63 }
        ensures { result ≡ record { lines = lines_of text.now; number = number } }
    {
        Lines { rest: text, number }
    }

    /// The same lines once more.
    pub fn copy(&self) -> Lines<'a>
        ensures { result ≡ self.now }
    {
        Lines {
            rest: self.rest,
            number: self.number,
        }
    }

    /// The text of the lines.
    pub fn text(&self) -> &'a [u8]
        ensures lines { lines_of result.now ≡ self.now.lines }
        ensures room { self.now.number + length result.now ≤ 2 ^ 63 }
    {
        self.rest
    }

    /// The number of the next line, also where there is none.
    pub fn number(&self) -> u64
        ensures { result ≡ self.now.number }
    {
        self.number
    }

    /// Whether no bytes are left.
    pub fn is_over(&self) -> bool
        ensures { IsTrue result ↔ (self.now.lines ≡ []) }
    {
        self.rest.is_empty()
    }

    /// Takes the next line. There is none at the end, and where no LF ends the bytes that are left.
    pub fn next_line(&mut self) -> Option<Words<'a>>
        ensures line { MatchOption result (first_words self.old.lines ≡ None) (λ words. self.old.lines ≡ Some words ∷ self.new.lines) }
        ensures number { MatchOption result (self.new ≡ self.old) (λ words. self.new.number ≡ self.old.number + 1) }
    {
        let (line, rest) = cut(self.rest, b'\n')?;
        self.rest = rest;
        self.number += 1;
        Some(Words::new(line))
    }
}
