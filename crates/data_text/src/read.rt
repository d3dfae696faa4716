ghost use Rattle.std.specs.Prelude.{◌≡◌, ◌<◌, ◌≤◌, ◌^◌, ℕ, None, Some, Ok, Err, length, IfOk, MatchResult};
ghost use Rattle.std.specs.Option.{SomeIff};
ghost use Rattle.data_text.specs.Numbers.{number_of};
ghost use Rattle.data_text.specs.Parts.{IsPart};
ghost use Rattle.data_text.specs.Ranges.{AreValues, IsRun};
ghost use Rattle.data_text.specs.Reading as spec;

use crate::fault::ValueFault;
use crate::number::{Digits, digits_of, value_of};
use crate::tokens::{Token, Tokens};
use std::alloc::Global;
use tor_edge::List;

/// The data of `run`.
#[derive(Debug, Drop)]
pub struct RunValues {
    /// How many shares each input has.
    pub shares: u32,
    /// The shares of input 0, then those of input 1, and so on.
    pub inputs: List<u64>,
    /// The random words.
    pub words: List<u64>,
}

/// Reads `count` values of so many bits.
pub fn read_values(
    alloc: Global,
    bytes: &[u8],
    count: u32,
    bits: u32,
) -> Result<List<u64>, ValueFault>
    requires few { length bytes.now ≤ 2 ^ 31 }
    requires bits { bits ≤ 64 }
    ensures said { spec.IsOrMemory result (spec.values_of count bits bytes.now) }
    ensures in_range { IfOk result (AreValues count bits) }
{
    let mut tokens = Tokens::new(bytes);
    let values = numbers(alloc, &mut tokens, u64::from(count), bits)?;
    match tokens.next_token() {
        Some(token) => Err(ValueFault::Syntax(token.line)),
        None => Ok(values),
    }
}

/// Reads the data of a run with `inputs` inputs, whose shares have so many bits.
pub fn read_run(
    alloc: Global,
    bytes: &[u8],
    inputs: u32,
    bits: u32,
) -> Result<RunValues, ValueFault>
    requires few { length bytes.now ≤ 2 ^ 31 }
    requires bits { bits ≤ 64 }
    ensures said { spec.IsOrMemory result (spec.run_of inputs bits bytes.now) }
    ensures in_range { IfOk result (IsRun inputs bits) }
{
    let mut tokens = Tokens::new(bytes);
    let shares = shares(&mut tokens)?;
    let count = u64::from(inputs) * u64::from(shares);
    let inputs = input_shares(alloc, &mut tokens, count, bits)?;
    let words = random_words(alloc, &mut tokens)?;
    Ok(RunValues {
        shares,
        inputs,
        words,
    })
}

// `shares` and how many shares there are.
fn shares(tokens: &mut Tokens<'_>) -> Result<u32, ValueFault>
    ensures said { MatchResult result
        (λ shares. spec.shares_first tokens.old.end tokens.old.tokens ≡ Ok (shares, tokens.new.tokens))
        (λ fault. spec.shares_first tokens.old.end tokens.old.tokens ≡ Err fault) }
    ensures few { IfOk result (λ shares. shares ≤ 64) }
    ensures end { tokens.new.end ≡ tokens.old.end }
{
    pass_word(tokens, "shares")?;
    let token = due_token(tokens)?;
    match value_at(&token)? {
        Some(shares) if 0 < shares && shares <= 64 => Ok(shares as u32),
        _ => Err(ValueFault::OutOfRange(token.line)),
    }
}

// `inputs` and so many shares.
fn input_shares(
    alloc: Global,
    tokens: &mut Tokens<'_>,
    count: u64,
    bits: u32,
) -> Result<List<u64>, ValueFault>
    requires { bits ≤ 64 }
    ensures said { IsPart result tokens.new.tokens (spec.inputs_first count bits tokens.old.end tokens.old.tokens) }
    ensures end { tokens.new.end ≡ tokens.old.end }
{
    pass_word(tokens, "inputs")?;
    numbers(alloc, tokens, count, bits)
}

// `random` and all the numbers that are left.
fn random_words(alloc: Global, tokens: &mut Tokens<'_>) -> Result<List<u64>, ValueFault>
    ensures { IsPart result tokens.new.tokens (spec.words_first tokens.old.end tokens.old.tokens) }
{
    pass_word(tokens, "random")?;
    remaining_numbers(alloc, tokens)
}

fn remaining_numbers(alloc: Global, tokens: &mut Tokens<'_>) -> Result<List<u64>, ValueFault>
    ensures { IsPart result tokens.new.tokens
        (spec.first_numbers (spec.has_bits 64) (length tokens.old.tokens) tokens.old.end tokens.old.tokens) }
{
    let mut numbers = List::new(alloc);
    while let Some(token) = tokens.next_token() {
        numbers.push(number_at(&token, 64)?)?;
    }
    Ok(numbers)
}

// So many numbers of so many bits.
fn numbers(
    alloc: Global,
    tokens: &mut Tokens<'_>,
    count: u64,
    bits: u32,
) -> Result<List<u64>, ValueFault>
    requires { bits ≤ 64 }
    ensures said { IsPart result tokens.new.tokens
        (spec.first_numbers (spec.has_bits bits) count tokens.old.end tokens.old.tokens) }
    ensures end { tokens.new.end ≡ tokens.old.end }
{
    let mut numbers = List::new(alloc);
    for _ in 0..count {
        numbers.push(number(tokens, bits)?)?;
    }
    Ok(numbers)
}

// The number that is due next.
fn number(tokens: &mut Tokens<'_>, bits: u32) -> Result<u64, ValueFault>
    requires { bits ≤ 64 }
    ensures said { let said = spec.first_number (spec.has_bits bits) tokens.old.end tokens.old.tokens in
        MatchResult result (λ number. said ≡ Ok (number, tokens.new.tokens)) (λ fault. said ≡ Err fault) }
    ensures end { tokens.new.end ≡ tokens.old.end }
{
    let token = due_token(tokens)?;
    number_at(&token, bits)
}

// Passes over a word that is due.
fn pass_word(tokens: &mut Tokens<'_>, word: &str) -> Result<(), ValueFault>
    ensures said { MatchResult result
        (λ _. spec.after_word word.now tokens.old.end tokens.old.tokens ≡ Ok tokens.new.tokens)
        (λ fault. spec.after_word word.now tokens.old.end tokens.old.tokens ≡ Err fault) }
    ensures end { tokens.new.end ≡ tokens.old.end }
{
    let token = due_token(tokens)?;
    if token.word == word.as_bytes() {
        Ok(())
    } else {
        Err(ValueFault::Syntax(token.line))
    }
}

fn due_token<'a>(tokens: &mut Tokens<'a>) -> Result<Token<'a>, ValueFault>
    ensures said { MatchResult result
        (λ token. spec.next_token tokens.old.end tokens.old.tokens
        ≡ Ok (record { word = token.word.now; line = token.line }, tokens.new.tokens))
        (λ fault. spec.next_token tokens.old.end tokens.old.tokens ≡ Err fault) }
    ensures end { tokens.new.end ≡ tokens.old.end }
{
    match tokens.next_token() {
        Some(token) => Ok(token),
        None => Err(ValueFault::Syntax(tokens.end())),
    }
}

// The number that a token says, which has to be of so many bits.
fn number_at(token: &Token<'_>, bits: u32) -> Result<u64, ValueFault>
    requires { bits ≤ 64 }
    ensures { result ≡ spec.in_range (spec.has_bits bits) token.now.line (number_of token.now.word.now) }
{
    match value_at(token)? {
        Some(value) if has_bits(bits, value) => Ok(value),
        _ => Err(ValueFault::OutOfRange(token.line)),
    }
}

fn has_bits(bits: u32, value: u64) -> bool
    requires { bits ≤ 64 }
    ensures { result ≡ spec.has_bits bits value }
{
    bits == 64 || value < 1 << bits
}

// The number that a token says, where it is below 2^64.
fn value_at(token: &Token<'_>) -> Result<Option<u64>, ValueFault>
    ensures { MatchResult result
        (λ value. (n : ℕ) × (number_of token.now.word.now ≡ Some n) × SomeIff value (n < 2 ^ 64) n)
        (λ fault. (number_of token.now.word.now ≡ None) × (fault ≡ ValueFault.Syntax token.now.line)) }
{
    match digits_of(token.word) {
        Some(Digits { base, digits }) => Ok(value_of(base, digits)),
        None => Err(ValueFault::Syntax(token.line)),
    }
}
