//! The tree of a file.

ghost use Rattle.std.specs.Prelude.{◌≡◌, ℕ, IfOk};
ghost use Rattle.c_subset.specs.Files.{IsFile};
ghost use Rattle.c_tree.specs.declared.CFile.{CFile};
ghost use Rattle.c_trees.specs.State.Making as making;

use crate::calls::calls;
use crate::first::{First, first_of, number_in, skip};
use crate::gadgets::gadgets;
use c_tokens::Token;
use c_tree::CFile;
use std::alloc::{AllocError, Global};

fn narrow(n: u64) -> u32
    ensures { result ≡ making.narrow n }
{
    match u32::try_from(n) {
        Ok(n) => n,
        Err(_) => 0,
    }
}

fn rows_in(text: &[Token]) -> u32
    ensures { result ≡ making.rows_in text.now }
{
    narrow(number_in(skip(text, 1)))
}

fn slots(text: &[Token]) -> (u32, &[Token])
    ensures { (result.0, result.1.now) ≡ making.slots_of text.now }
{
    match first_of(text) {
        First::Reg => (narrow(number_in(skip(text, 3))), skip(text, 9)),
        _ => (0, text),
    }
}

// The tree of a file, where the tokens are one.
fn made_of(alloc: Global, reg_bits: u32, tokens: &[Token]) -> Result<CFile, AllocError>
    ensures { IfOk result (λ file. file ≡ making.file_of reg_bits tokens.now) }
{
    let (gadgets, head) = gadgets(alloc, tokens)?;
    let outputs = skip(head, 5);
    let inputs = skip(outputs, 9);
    let (slots, behind) = slots(skip(inputs, 8));
    let (calls, _) = calls(alloc, behind)?;
    Ok(CFile {
        reg_bits,
        gadgets,
        outputs: rows_in(outputs),
        inputs: rows_in(inputs),
        slots,
        calls,
    })
}

/// The tree of the tokens of a file behind its first six lines, with a type `reg` of so many bits.
pub fn tree_of(alloc: Global, reg_bits: u32, tokens: &[Token]) -> Result<CFile, AllocError>
    requires { (file : CFile) × IsFile reg_bits tokens.now file }
    ensures { IfOk result (IsFile reg_bits tokens.now) }
{
    made_of(alloc, reg_bits, tokens)
}
