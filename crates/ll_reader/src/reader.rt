ghost use Rattle.std.specs.Prelude.{◌≡◌, ◌≤◌, ◌<◌, ◌+◌, ◌^◌, ℕ, List, [], ◌∷◌, ◌++◌, map, reverse, length, IfOk, IfErr, OnOk, IfSome, IfNone, IsTrue, ◌↔◌, Some, slice_get, slice_index};
ghost use Rattle.std.specs.Int.{bit_at};
ghost use Rattle.ll_reader.specs.Derivation.{IsText, places, items};
ghost use Rattle.ll_reader.specs.Depth.{items_at, KeepsDepth};
ghost use Rattle.ll_reader.specs.Predictive.{Facts, Meet};
ghost use Rattle.ll_reader.specs.Private.Choice.{IsBelow, GoesOn};
ghost use Rattle.ll_reader.specs.Answer.{IsFault};
ghost use Rattle.ll_reader.specs.Private.Memory.{IsMemory};

use crate::grammar::{Body, Frame, Item, Production, Step};
use std::alloc::{AllocError, AllocFailed, Global};
use thiserror::Error;

/// Why classes are not read. The number is the index of the token at fault.
#[derive(Debug, Drop, Error)]
pub enum ReadError {
    #[error("no text goes on with the token")]
    Syntax(usize),
    #[error("the token is nested too deep")]
    TooDeep(usize),
    #[error("out of memory")]
    Memory(AllocError),
}

impl From<AllocError> for ReadError {
    ghost from_gives = { λ _ e. IsMemory e };

    fn from(error: AllocError) -> Self {
        ReadError::Memory(error)
    }
}

impl<T: Drop> From<AllocFailed<T>> for ReadError {
    ghost from_gives = { λ _ e. IsMemory e };

    fn from(failed: AllocFailed<T>) -> Self {
        ReadError::Memory(failed.into())
    }
}

/// The steps that derive the classes, or their first fault. A fault depends on the tokens up to it alone.
///
/// Time and memory are linear in the number of steps.
pub fn read(
    alloc: Global,
    table: &[Production],
    frame: Frame,
    classes: &[u8],
) -> Result<Vec<Step>, ReadError>
    ghost facts: { List Facts }
    requires predictive { Meet facts frame.start frame.end table.now }
    requires ends { (front : List ℕ) × (classes.now ≡ front ++ frame.end ∷ []) }
    ensures text { IfOk result (λ steps. IsText table.now frame classes.now steps.items) }
    ensures shallow { IfOk result (λ steps. KeepsDepth table.now frame (length classes.now) steps.items) }
    ensures fault { IfErr result (IsFault table.now frame classes.now) }
{
    let starts = first_of_rules(table);
    let mut due = Vec::new(alloc);
    due.push((Item::Token(frame.end), 0))?;
    due.push((Item::Rule(frame.start), 0))?;
    let mut steps = Vec::new(alloc);
    for (at, class) in classes.iter().enumerate() {
        let depth = loop {
            let Some((item, depth)) = due.pop() else {
                return Err(ReadError::Syntax(at));
            };
            match item {
                Item::Token(wanted) => {
                    if wanted != *class {
                        return Err(ReadError::Syntax(at));
                    }
                    steps.push(Step::Take)?;
                    break depth;
                }
                Item::Rule(rule) => {
                    let Some(k) = chosen(table, &starts, rule, *class) else {
                        return Err(ReadError::Syntax(at));
                    };
                    steps.push(Step::Choose(k))?;
                    open(&mut due, &table[k as usize], depth)?;
                }
            }
        };
        if depth > frame.deepest {
            return Err(ReadError::TooDeep(at));
        }
    }
    Ok(steps)
}

// For each rule a number at or below those of its productions.
fn first_of_rules(table: &[Production]) -> [u16; 256]
    requires { length table.now < 65536 }
    ensures { IsBelow table.now result }
{
    let mut firsts = [table.len() as u16; 256];
    for (k, production) in table.iter().enumerate() {
        let rule = production.rule as usize;
        firsts[rule] = firsts[rule].min(k as u16);
    }
    firsts
}

fn has(set: u64, class: u8) -> bool
    ensures { IsTrue result ↔ (bit_at set class ≡ 1) }
{
    class < 64 && (set >> class) & 1 == 1
}

// The number of the production that goes on for the rule at a token of the class.
fn chosen(table: &[Production], firsts: &[u16; 256], rule: u8, class: u8) -> Option<u16>
    requires few { length table.now < 65536 }
    requires below { IsBelow table.now firsts.now }
    ensures some { IfSome result (λ k. GoesOn table.now rule class k) }
    ensures none { IfNone result ((k : ℕ) → ¬ GoesOn table.now rule class k) }
{
    for k in firsts[rule as usize]..table.len() as u16 {
        let production = &table[k as usize];
        if production.rule == rule && has(production.first, class) {
            return Some(k);
        }
    }
    None
}

// Puts the items of a production on top of what is due.
fn open(
    due: &mut Vec<(Item, usize)>,
    production: &Production,
    depth: usize,
) -> Result<(), AllocError>
    requires length { production.now.length ≤ 12 }
    requires room { depth + 1 < 2 ^ 64 }
    ensures { OnOk result (reverse due.new.items ≡ items_at depth (Some production.now) ++ reverse due.old.items) }
{
    let inside = if production.deep { depth + 1 } else { depth };
    let items = places(&production.body);
    for at in (0..production.length).rev() {
        due.push((items[at], inside))?;
    }
    Ok(())
}

fn places(body: &Body) -> [Item; 12]
    ensures { result ≡ places body.now }
{
    let Body(a, b, c, d, e, f, g, h, i, j, k, l) = *body;
    [a, b, c, d, e, f, g, h, i, j, k, l]
}
