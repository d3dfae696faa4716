//! Each gadget.
ghost use Rattle.std.specs.Prelude.{◌≡◌, IfOk};
ghost use Rattle.c_form.specs.Template as form;

use crate::parts::{
    add_to, array_parameter, assign, assign_first, assign_from, binary_parameters, cell,
    constant_parameters, draw, masked, one, pair, share_pairs, share_product, share_with_k, triple,
    two, unary_parameters, word,
};
use c_tree::{CExpr, CFun, CIndex, COp, CParam, CStmt};
use std::alloc::{AllocError, Global};
use tor_edge::{List, Name};

fn gadget(
    alloc: Global,
    name: &str,
    params: List<CParam>,
    body: List<CStmt>,
) -> Result<CFun, AllocError>
    ensures { IfOk result (λ made. made ≡ record { name = name.now; params = params; body = body }) }
{
    let name = Name::of(alloc, name)?;
    Ok(CFun { name, params, body })
}

// A gadget whose only statement assigns a value to each share of `c`.
fn sharewise(
    alloc: Global,
    name: &str,
    params: List<CParam>,
    value: CExpr,
) -> Result<CFun, AllocError>
    ensures { IfOk result (λ made. made ≡ form.sharewise name.now params value) }
{
    let body = one(alloc, assign_from(alloc, 0, value)?)?;
    gadget(alloc, name, params, body)
}

pub fn const_gadget(alloc: Global) -> Result<CFun, AllocError>
    ensures { IfOk result (λ made. made ≡ form.const_gadget) }
{
    let params = const_parameters(alloc)?;
    let body = const_body(alloc)?;
    gadget(alloc, "g_const", params, body)
}

fn const_parameters(alloc: Global) -> Result<List<CParam>, AllocError>
    ensures { IfOk result (λ made. made ≡ form.const_gadget.params) }
{
    let c = array_parameter(alloc, "c")?;
    let k = CParam::Word(Name::of(alloc, "k")?);
    pair(alloc, c, k)
}

fn const_body(alloc: Global) -> Result<List<CStmt>, AllocError>
    ensures { IfOk result (λ made. made ≡ form.const_gadget.body) }
{
    let first = assign_first(alloc, "c", word(alloc, "k")?)?;
    let others = assign_from(alloc, 1, CExpr::Number(0))?;
    pair(alloc, first, others)
}

pub fn xor_gadget(alloc: Global) -> Result<CFun, AllocError>
    ensures { IfOk result (λ made. made ≡ form.xor_gadget) }
{
    let left = cell(alloc, "a", "i")?;
    let right = cell(alloc, "b", "i")?;
    let sum = two(alloc, COp::Xor, left, right)?;
    sharewise(alloc, "g_xor", binary_parameters(alloc)?, sum)
}

pub fn not_gadget(alloc: Global, mask: u64) -> Result<CFun, AllocError>
    ensures { IfOk result (λ made. made ≡ form.not_gadget mask) }
{
    let first = complement_first(alloc, mask)?;
    let others = assign_from(alloc, 1, cell(alloc, "a", "i")?)?;
    let body = pair(alloc, first, others)?;
    gadget(alloc, "g_not", unary_parameters(alloc)?, body)
}

// `c[0] = (reg)((uint64_t)a[0] ^ UINT64_C(MASK));`
fn complement_first(alloc: Global, mask: u64) -> Result<CStmt, AllocError>
    ensures { IfOk result (λ made. made ≡ form.complement_first mask) }
{
    let array = Name::of(alloc, "a")?;
    let share = CExpr::Cell {
        array,
        index: CIndex::Number(0),
    };
    let sum = two(alloc, COp::Xor, share, CExpr::Number(mask))?;
    assign_first(alloc, "c", sum)
}

pub fn mask_gadget(alloc: Global) -> Result<CFun, AllocError>
    ensures { IfOk result (λ made. made ≡ form.mask_gadget) }
{
    let value = share_with_k(alloc, COp::And)?;
    sharewise(alloc, "g_mask", constant_parameters(alloc)?, value)
}

pub fn shl_gadget(alloc: Global, mask: u64) -> Result<CFun, AllocError>
    ensures { IfOk result (λ made. made ≡ form.shl_gadget mask) }
{
    let value = masked(alloc, mask, share_with_k(alloc, COp::Shl)?)?;
    sharewise(alloc, "g_shl", constant_parameters(alloc)?, value)
}

pub fn shr_gadget(alloc: Global) -> Result<CFun, AllocError>
    ensures { IfOk result (λ made. made ≡ form.shr_gadget) }
{
    let value = share_with_k(alloc, COp::Shr)?;
    sharewise(alloc, "g_shr", constant_parameters(alloc)?, value)
}

pub fn rotl_gadget(alloc: Global, mask: u64, bits: u64) -> Result<CFun, AllocError>
    ensures { IfOk result (λ made. made ≡ form.rotl_gadget mask bits) }
{
    let value = masked(alloc, mask, rotated_share(alloc, bits)?)?;
    sharewise(alloc, "g_rotl", constant_parameters(alloc)?, value)
}

// `(((uint64_t)a[i] << k) | ((uint64_t)a[i] >> (UINT64_C(BITS) - k)))`
fn rotated_share(alloc: Global, bits: u64) -> Result<CExpr, AllocError>
    ensures { IfOk result (λ made. made ≡ form.rotated_share bits) }
{
    let left = share_with_k(alloc, COp::Shl)?;
    let right = round_share(alloc, bits)?;
    two(alloc, COp::Or, left, right)
}

// `((uint64_t)a[i] >> (UINT64_C(BITS) - k))`
fn round_share(alloc: Global, bits: u64) -> Result<CExpr, AllocError>
    ensures { IfOk result (λ made. made ≡ form.round_share bits) }
{
    let amount = word(alloc, "k")?;
    let complement = two(alloc, COp::Sub, CExpr::Number(bits), amount)?;
    let share = cell(alloc, "a", "i")?;
    two(alloc, COp::Shr, share, complement)
}

pub fn and_gadget(alloc: Global, mask: u64) -> Result<CFun, AllocError>
    ensures { IfOk result (λ made. made ≡ form.and_gadget mask) }
{
    let own = assign_from(alloc, 0, share_product(alloc, "i", "i")?)?;
    let across = and_pairs(alloc, mask)?;
    let body = pair(alloc, own, across)?;
    and_of(alloc, body)
}

fn and_of(alloc: Global, body: List<CStmt>) -> Result<CFun, AllocError>
    ensures { IfOk result (λ made. made ≡ form.and_of body) }
{
    gadget(alloc, "g_and", binary_parameters(alloc)?, body)
}

fn and_pairs(alloc: Global, mask: u64) -> Result<CStmt, AllocError>
    ensures { IfOk result (λ made. made ≡ form.and_pairs mask) }
{
    let drawn = draw(alloc, mask, "r")?;
    let across = draw_across(alloc)?;
    let mut body = pair(alloc, drawn, across)?;
    body.append(additions(alloc, "s")?)?;
    share_pairs(alloc, body)
}

// The additions of `r` to share `i` and of a word to share `j`.
fn additions(alloc: Global, name: &str) -> Result<List<CStmt>, AllocError>
    ensures { IfOk result (λ made. made ≡ form.additions name.now) }
{
    let first = add_to(alloc, "i", "r")?;
    let second = add_to(alloc, "j", name)?;
    pair(alloc, first, second)
}

// `uint64_t s = ((r ^ ((uint64_t)a[i] & (uint64_t)b[j])) ^ ((uint64_t)a[j] & (uint64_t)b[i]));`
fn draw_across(alloc: Global) -> Result<CStmt, AllocError>
    ensures { IfOk result (λ made. made ≡ form.draw_across) }
{
    let name = Name::of(alloc, "s")?;
    let inner = first_across(alloc)?;
    let product = share_product(alloc, "j", "i")?;
    let value = two(alloc, COp::Xor, inner, product)?;
    Ok(CStmt::Let { name, value })
}

// `(r ^ ((uint64_t)a[i] & (uint64_t)b[j]))`
fn first_across(alloc: Global) -> Result<CExpr, AllocError>
    ensures { IfOk result (λ made. made ≡ form.first_across) }
{
    let drawn = word(alloc, "r")?;
    let product = share_product(alloc, "i", "j")?;
    two(alloc, COp::Xor, drawn, product)
}

pub fn refresh_gadget(alloc: Global, mask: u64) -> Result<CFun, AllocError>
    ensures { IfOk result (λ made. made ≡ form.refresh_gadget mask) }
{
    let own = assign_from(alloc, 0, cell(alloc, "a", "i")?)?;
    let added = refresh_pairs(alloc, mask)?;
    let body = pair(alloc, own, added)?;
    refresh_of(alloc, body)
}

fn refresh_of(alloc: Global, body: List<CStmt>) -> Result<CFun, AllocError>
    ensures { IfOk result (λ made. made ≡ form.refresh_of body) }
{
    gadget(alloc, "g_refresh", unary_parameters(alloc)?, body)
}

fn refresh_pairs(alloc: Global, mask: u64) -> Result<CStmt, AllocError>
    ensures { IfOk result (λ made. made ≡ form.refresh_pairs mask) }
{
    let drawn = draw(alloc, mask, "r")?;
    let mut body = one(alloc, drawn)?;
    body.append(additions(alloc, "r")?)?;
    share_pairs(alloc, body)
}

pub fn copy_gadget(alloc: Global) -> Result<CFun, AllocError>
    ensures { IfOk result (λ made. made ≡ form.copy_gadget) }
{
    let value = cell(alloc, "a", "i")?;
    sharewise(alloc, "g_copy", unary_parameters(alloc)?, value)
}
