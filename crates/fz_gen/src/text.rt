//! The text of a knapsack.
ghost use Rattle.std.specs.Prelude.{◌≡◌, ◌≤◌, ◌-◌, ◌++◌, IfOk, OnOk, codes, flat_map, decimal};
ghost use Rattle.std.specs.List.{range_with_len};
ghost use Rattle.fz_gen.specs.Knapsack as texts;

use itoa::Buffer;
use std::alloc::{AllocError, Global};

/// The least and the greatest number of items of a generated model.
pub const ITEMS_LEAST: u32 = 1;

pub const ITEMS_MOST: u32 = 1000;

/// What an item has.
#[derive(Clone, Copy)]
pub enum Measure {
    Weight,
    Value,
}

/// What a list has for each item.
#[derive(Clone, Copy)]
pub enum Part {
    Number(Measure),
    Name,
}

/// The FlatZinc text of a knapsack of `n` items: item i, from 1, weighs `2 + (7i mod 5)` and is worth `3 + (5i mod 7)`, and what is
/// chosen weighs at most half of all. Its goal is the value of what is chosen.
///
/// # Errors
/// `AllocError` where there is no memory.
pub fn knapsack(alloc: Global, n: u32) -> Result<Vec<u8>, AllocError>
    requires least { ITEMS_LEAST ≤ n }
    requires most { n ≤ ITEMS_MOST }
    ensures { IfOk result (λ text. text.items ≡ texts.knapsack n) }
{
    let mut text = Vec::new(alloc);
    push_choices(&mut text, n)?;
    push_goal(&mut text, n)?;
    push_weights(&mut text, n)?;
    push_values(&mut text, n)?;
    text.extend_from_slice(b"solve maximize z;\n")?;
    Ok(text)
}

fn push_choices(text: &mut Vec<u8>, n: u32) -> Result<(), AllocError>
    requires { n ≤ 1000 }
    ensures { OnOk result (text.new.items ≡ text.old.items ++ texts.choices_text n) }
{
    for i in 1..n + 1 {
        push_choice(text, i)?;
    }
    Ok(())
}

fn push_choice(text: &mut Vec<u8>, i: u32) -> Result<(), AllocError>
    ensures { OnOk result (text.new.items
        ≡ text.old.items ++ (codes "var 0..1: x" ++ decimal i ++ codes ";\n")) }
{
    text.extend_from_slice(b"var 0..1: x")?;
    push_number(text, i)?;
    text.extend_from_slice(b";\n")?;
    Ok(())
}

fn push_goal(text: &mut Vec<u8>, n: u32) -> Result<(), AllocError>
    requires { n ≤ 1000 }
    ensures { OnOk result (text.new.items ≡ text.old.items ++ texts.goal_text n) }
{
    text.extend_from_slice(b"var 0..")?;
    push_number(text, total(Measure::Value, n))?;
    text.extend_from_slice(b": z :: output_var;\n")?;
    Ok(())
}

fn push_weights(text: &mut Vec<u8>, n: u32) -> Result<(), AllocError>
    requires least { 1 ≤ n }
    requires most { n ≤ 1000 }
    ensures { OnOk result (text.new.items ≡ text.old.items ++ texts.weights_text n) }
{
    text.extend_from_slice(b"constraint int_lin_le([")?;
    push_lists(text, Measure::Weight, b"],[", n)?;
    push_limit(text, n)?;
    Ok(())
}

fn push_values(text: &mut Vec<u8>, n: u32) -> Result<(), AllocError>
    requires least { 1 ≤ n }
    requires most { n ≤ 1000 }
    ensures { OnOk result (text.new.items ≡ text.old.items ++ texts.values_text n) }
{
    text.extend_from_slice(b"constraint int_lin_eq([")?;
    push_lists(text, Measure::Value, b",-1],[", n)?;
    text.extend_from_slice(b",z],0);\n")?;
    Ok(())
}

/// The weights or the values of all items, and their names.
fn push_lists(
    text: &mut Vec<u8>,
    measure: Measure,
    between: &[u8],
    n: u32,
) -> Result<(), AllocError>
    requires least { 1 ≤ n }
    requires most { n ≤ 1000 }
    ensures { OnOk result
        (text.new.items ≡ text.old.items ++ texts.lists_text measure between.now n) }
{
    push_list(text, Part::Number(measure), n)?;
    text.extend_from_slice(between)?;
    push_list(text, Part::Name, n)?;
    Ok(())
}

fn push_limit(text: &mut Vec<u8>, n: u32) -> Result<(), AllocError>
    requires { n ≤ 1000 }
    ensures { OnOk result (text.new.items ≡ text.old.items ++ texts.limit_text n) }
{
    text.extend_from_slice(b"],")?;
    push_number(text, total(Measure::Weight, n) / 2)?;
    text.extend_from_slice(b");\n")?;
    Ok(())
}

/// A part of all items, with commas between them.
fn push_list(text: &mut Vec<u8>, part: Part, n: u32) -> Result<(), AllocError>
    requires least { 1 ≤ n }
    requires most { n ≤ 1000 }
    ensures { OnOk result (text.new.items ≡ text.old.items ++ texts.list_text part n) }
{
    push_part(text, part, 1)?;
    push_further(text, part, n)?;
    Ok(())
}

/// A part of all items from the second on, with a comma before each.
fn push_further(text: &mut Vec<u8>, part: Part, n: u32) -> Result<(), AllocError>
    requires least { 1 ≤ n }
    requires most { n ≤ 1000 }
    ensures { OnOk result (text.new.items ≡ text.old.items
        ++ flat_map (λ i. codes "," ++ texts.part_text part i) (range_with_len 2 (n - 1))) }
{
    for i in 2..n + 1 {
        push_next(text, part, i)?;
    }
    Ok(())
}

fn push_next(text: &mut Vec<u8>, part: Part, i: u32) -> Result<(), AllocError>
    requires { i ≤ 1000 }
    ensures { OnOk result
        (text.new.items ≡ text.old.items ++ (codes "," ++ texts.part_text part i)) }
{
    text.extend_from_slice(b",")?;
    push_part(text, part, i)?;
    Ok(())
}

fn push_part(text: &mut Vec<u8>, part: Part, i: u32) -> Result<(), AllocError>
    requires { i ≤ 1000 }
    ensures { OnOk result (text.new.items ≡ text.old.items ++ texts.part_text part i) }
{
    match part {
        Part::Number(measure) => push_number(text, measure_of(measure, i)),
        Part::Name => push_name(text, i),
    }
}

fn push_name(text: &mut Vec<u8>, i: u32) -> Result<(), AllocError>
    ensures { OnOk result (text.new.items ≡ text.old.items ++ (codes "x" ++ decimal i)) }
{
    text.extend_from_slice(b"x")?;
    push_number(text, i)
}

fn push_number(text: &mut Vec<u8>, number: u32) -> Result<(), AllocError>
    ensures { OnOk result (text.new.items ≡ text.old.items ++ decimal number) }
{
    text.extend_from_slice(Buffer::new().format(number).as_bytes())
}

/// The weight or the value of an item.
fn measure_of(measure: Measure, i: u32) -> u32
    requires { i ≤ 1000 }
    ensures is { result ≡ texts.measure_of measure i }
    ensures small { result ≤ 9 }
{
    match measure {
        Measure::Weight => 2 + 7 * i % 5,
        Measure::Value => 3 + 5 * i % 7,
    }
}

/// The weight or the value of all items.
fn total(measure: Measure, n: u32) -> u32
    requires { n ≤ 1000 }
    ensures { result ≡ texts.total measure n }
{
    let mut total = 0;
    for i in 1..n + 1 {
        total += measure_of(measure, i);
    }
    total
}
