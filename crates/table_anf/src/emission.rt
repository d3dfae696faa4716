ghost use Rattle.std.specs.Prelude.{◌≡◌, ℕ, ◌+◌, ◌*◌, ◌-◌, ◌<◌, ◌≤◌, ◌^◌, All, List, length, map, option_map, IfOk, IfSome};
ghost use Rattle.usuba0.specs.Builder.{Holds, Names, term_of};
ghost use Rattle.usuba0.specs.Term.{Const};
ghost use Rattle.std.specs.List.{range_with_len};
ghost use Rattle.std.specs.Option.{unwrap_or};
ghost use Rattle.table_anf.specs.Extends.{Extends};
ghost use Rattle.table_anf.specs.TableTerms.{monomial, is_present, complemented, table_terms};
ghost use Rattle.table_anf.specs.State.Emission.{with_factor, chosen, added_to, sum_of as sum_of_terms, StandFor};

use crate::normal_form::NormalForm;
use std::alloc::{AllocError, Global};
use tor_edge::List;
use usuba0::{CoreBuilder, MAX_TERMS, Reg};

/// The registers of a table's output elements, for these registers of its input elements.
pub fn emit(
    alloc: Global,
    anf: &NormalForm,
    args: &[Reg],
    builder: &mut CoreBuilder,
) -> Result<List<Reg>, AllocError>
    requires count { length args.now ≡ anf.now.inputs }
    requires held { All (Holds builder.old) args.now }
    requires room { length builder.old.terms + 2 ^ anf.now.inputs * (anf.now.outputs + 1) ≤ MAX_TERMS }
    ensures held { IfOk result (λ outputs. All (Holds builder.new) outputs) }
    ensures terms { IfOk result (λ outputs. map (term_of builder.new) outputs
        ≡ table_terms builder.old.width anf.now.outputs anf.now.entries (map (term_of builder.old) args.now)) }
    ensures extends { Extends (2 ^ anf.now.inputs * (anf.now.outputs + 1)) builder.old builder.new }
{
    let products = products_of(alloc, args, builder)?;
    let zero = builder.constant(0)?;
    let mut outputs = List::new(alloc);
    for output in 0..anf.outputs() {
        outputs.push(output_of(anf, output, &products, zero, builder)?)?;
    }
    Ok(outputs)
}

// The registers of the monomials from 1 upwards.
fn products_of(
    alloc: Global,
    args: &[Reg],
    builder: &mut CoreBuilder,
) -> Result<Vec<Reg>, AllocError>
    requires held { All (Holds builder.old) args.now }
    requires room { length builder.old.terms + 2 ^ length args.now ≤ MAX_TERMS }
    ensures terms { let ts = map (term_of builder.old) args.now in
        let numbers = range_with_len 1 (2 ^ length args.now - 1) in
        IfOk result (λ made. StandFor builder.new made.items (map (monomial ts) numbers)) }
    ensures extends { Extends (2 ^ length args.now - 1) builder.old builder.new }
{
    let mut products = Vec::new(alloc);
    for arg in args {
        products = with_one_more(alloc, &products, *arg, builder)?;
    }
    Ok(products)
}

// The registers of the monomials over one more argument.
fn with_one_more(
    alloc: Global,
    products: &[Reg],
    factor: Reg,
    builder: &mut CoreBuilder,
) -> Result<Vec<Reg>, AllocError>
    requires held { All (Holds builder.old) products.now }
    requires factor { Holds builder.old factor }
    requires room { length builder.old.terms + length products.now ≤ MAX_TERMS }
    ensures terms { let ts = map (term_of builder.old) products.now in
        IfOk result (λ made. StandFor builder.new made.items (with_factor (term_of builder.old factor) ts)) }
    ensures extends { Extends (length products.now) builder.old builder.new }
{
    let mut made = Vec::new(alloc);
    made.push(factor)?;
    for product in products {
        made.push(*product)?;
        made.push(builder.and(*product, factor)?)?;
    }
    Ok(made)
}

// The register of an output element; `zero` is that of the constant 0.
fn output_of(
    anf: &NormalForm,
    output: u32,
    products: &[Reg],
    zero: Reg,
    builder: &mut CoreBuilder,
) -> Result<Reg, AllocError>
    requires output { output < anf.now.outputs }
    requires count { length products.now + 1 ≡ 2 ^ anf.now.inputs }
    requires held { All (Holds builder.old) products.now }
    requires zero { Names builder.old zero (Const 0) }
    requires room { length builder.old.terms + 2 ^ anf.now.inputs ≤ MAX_TERMS }
    ensures term { let test = is_present anf.now.inputs anf.now.outputs anf.now.entries output in
        IfOk result (λ r. Names builder.new r (complemented builder.old.width (test 0)
        (unwrap_or (sum_of_terms (chosen test 1 (map (term_of builder.old) products.now))) (Const 0)))) }
    ensures extends { Extends (2 ^ anf.now.inputs) builder.old builder.new }
{
    let sum = sum_of(anf, output, products, builder)?.unwrap_or(zero);
    if anf.coefficient(output, 0) {
        builder.not(sum)
    } else {
        Ok(sum)
    }
}

// The register of the sum of the output element's monomials from 1 upwards; none where it has none.
fn sum_of(
    anf: &NormalForm,
    output: u32,
    products: &[Reg],
    builder: &mut CoreBuilder,
) -> Result<Option<Reg>, AllocError>
    requires output { output < anf.now.outputs }
    requires count { length products.now + 1 ≡ 2 ^ anf.now.inputs }
    requires held { All (Holds builder.old) products.now }
    requires room { length builder.old.terms + length products.now ≤ MAX_TERMS }
    ensures held { IfOk result (λ sum. IfSome sum (Holds builder.new)) }
    ensures terms { let test = is_present anf.now.inputs anf.now.outputs anf.now.entries output in
        IfOk result (λ sum. option_map (term_of builder.new) sum
        ≡ sum_of_terms (chosen test 1 (map (term_of builder.old) products.now))) }
    ensures extends { Extends (length products.now) builder.old builder.new }
{
    let mut sum = None;
    for (index, product) in products.iter().enumerate() {
        if anf.coefficient(output, index as u32 + 1) {
            sum = Some(added(sum, *product, builder)?);
        }
    }
    Ok(sum)
}

// A monomial added to a sum.
fn added(sum: Option<Reg>, product: Reg, builder: &mut CoreBuilder) -> Result<Reg, AllocError>
    requires sum { IfSome sum (Holds builder.old) }
    requires product { Holds builder.old product }
    requires room { length builder.old.terms < MAX_TERMS }
    ensures term { IfOk result (λ r. Names builder.new r
        (added_to (option_map (term_of builder.old) sum) (term_of builder.old product))) }
    ensures extends { Extends 1 builder.old builder.new }
{
    match sum {
        Some(sum) => builder.xor(sum, product),
        None => Ok(product),
    }
}
