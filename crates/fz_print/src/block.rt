//! The block of a solution.
ghost use Rattle.std.specs.Prelude.{◌≡◌, ◌++◌, ℤ, IfOk, OnOk, map, flat_map, length, codes};
ghost use Rattle.fz_spec.specs.Constraints.{term_value};
ghost use Rattle.fz_spec.specs.Instance.{AreDeclared};
ghost use Rattle.fz_spec.specs.Run.{block, line, output_text, values_text, shape_text, range_text, value_text, comma_separated};

use fz_model::{Assignment, Kind, Model, Output, Term, value_of};
use itoa::Buffer;
use std::alloc::{AllocError, Global};

/// The block of a declared assignment: a line for each output item, in the order of declaration, and ten dashes. The line of an
/// array is `name = array2d(1..2, 1..2, [1, 2, 3, 4]);`, with as many index ranges as it has.
pub fn block(alloc: Global, model: &Model, assignment: &Assignment) -> Result<Vec<u8>, AllocError>
    requires { AreDeclared model.now.variables assignment.now }
    ensures { IfOk result (λ text. text.items ≡ block model.now assignment.now) }
{
    let mut text = Vec::new(alloc);
    let values = assignment.values();
    for output in model.outputs() {
        push_line(&mut text, values, output)?;
    }
    text.extend_from_slice(b"----------\n")?;
    Ok(text)
}

fn push_line(text: &mut Vec<u8>, values: &[i32], output: &Output) -> Result<(), AllocError>
    ensures { OnOk result (text.new.items ≡ text.old.items ++ line values.now output.now) }
{
    text.extend_from_slice(output.name().as_str().as_bytes())?;
    text.extend_from_slice(b" = ")?;
    push_output(text, values, output)?;
    text.extend_from_slice(b";\n")?;
    Ok(())
}

fn push_output(text: &mut Vec<u8>, values: &[i32], output: &Output) -> Result<(), AllocError>
    ensures { OnOk result (text.new.items ≡ text.old.items ++ output_text values.now output.now) }
{
    if !output.is_array() {
        return push_values(text, values, output.kind(), output.terms());
    }
    push_shape(text, output.shape())?;
    push_values(text, values, output.kind(), output.terms())?;
    text.extend_from_slice(b"])")?;
    Ok(())
}

fn push_shape(text: &mut Vec<u8>, shape: &[(i32, i32)]) -> Result<(), AllocError>
    ensures { OnOk result (text.new.items ≡ text.old.items ++ shape_text shape.now) }
{
    text.extend_from_slice(b"array")?;
    text.extend_from_slice(Buffer::new().format(shape.len()).as_bytes())?;
    text.extend_from_slice(b"d(")?;
    push_ranges(text, shape)?;
    text.extend_from_slice(b"[")?;
    Ok(())
}

fn push_ranges(text: &mut Vec<u8>, ranges: &[(i32, i32)]) -> Result<(), AllocError>
    ensures { OnOk result
        (text.new.items ≡ text.old.items ++ flat_map (λ r. range_text r ++ codes ", ") ranges.now) }
{
    for range in ranges {
        push_range(text, *range)?;
    }
    Ok(())
}

fn push_range(text: &mut Vec<u8>, range: (i32, i32)) -> Result<(), AllocError>
    ensures { OnOk result (text.new.items ≡ text.old.items ++ (range_text range ++ codes ", ")) }
{
    text.extend_from_slice(Buffer::new().format(range.0).as_bytes())?;
    text.extend_from_slice(b"..")?;
    text.extend_from_slice(Buffer::new().format(range.1).as_bytes())?;
    text.extend_from_slice(b", ")?;
    Ok(())
}

/// The values of terms, with ", " between them.
fn push_values(
    text: &mut Vec<u8>,
    values: &[i32],
    kind: Kind,
    terms: &[Term],
) -> Result<(), AllocError>
    ensures { OnOk result (text.new.items ≡ text.old.items
        ++ comma_separated (map (λ t. value_text kind (term_value values.now t)) terms.now)) }
{
    if terms.is_empty() {
        return Ok(());
    }
    push_term(text, values, kind, terms[0])?;
    push_further(text, values, kind, &terms[1..])?;
    Ok(())
}

/// The values of terms, with ", " before each.
fn push_further(
    text: &mut Vec<u8>,
    values: &[i32],
    kind: Kind,
    terms: &[Term],
) -> Result<(), AllocError>
    ensures { OnOk result (text.new.items ≡ text.old.items
        ++ flat_map (λ t. codes ", " ++ value_text kind (term_value values.now t)) terms.now) }
{
    for term in terms {
        text.extend_from_slice(b", ")?;
        push_term(text, values, kind, *term)?;
    }
    Ok(())
}

fn push_term(text: &mut Vec<u8>, values: &[i32], kind: Kind, term: Term) -> Result<(), AllocError>
    ensures { OnOk result
        (text.new.items ≡ text.old.items ++ value_text kind (term_value values.now term)) }
{
    push_value(text, kind, value_of(term, values))
}

fn push_value(text: &mut Vec<u8>, kind: Kind, value: i32) -> Result<(), AllocError>
    ensures { OnOk result (text.new.items ≡ text.old.items ++ value_text kind value) }
{
    match kind {
        Kind::Bool if value == 0 => text.extend_from_slice(b"false"),
        Kind::Bool => text.extend_from_slice(b"true"),
        Kind::Int => text.extend_from_slice(Buffer::new().format(value).as_bytes()),
    }
}
