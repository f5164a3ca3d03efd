//! Annotations of output.
ghost use Rattle.std.specs.Prelude.{◌≡◌, ◌==◌, ◌&&◌, length, ◌∷◌, [], ◌-◌, ◌^◌, min, IfOk, MatchOption, bytes_eq, map, option_map, option_copied, slice_get};
ghost use Rattle.fz_spec.specs.Instance as instance;
ghost use Rattle.fz_language.specs.Annotations as said;
ghost use Rattle.fz_language.specs.Numerals.{all_of};
ghost use Rattle.fz_language.specs.Rules as rules;
ghost use Rattle.fz_language.specs.Trees as lang;
ghost use Rattle.fz_syntax.specs.Trees as trees;
ghost use Rattle.fz_language.specs.Annotations.{shape_among};

use fz_syntax::{
    Annotation, Argument, Basic, Nested, Number, SetLiteral, first_at, first_of, only_of,
};
use std::alloc::{AllocError, Global};

pub const OUTPUT_VAR: &[u8] = b"output_var";

pub const OUTPUT_ARRAY: &[u8] = b"output_array";

pub const DOMAIN: &[u8] = b"domain";

/// The first annotation of a name; a later one of the same name says nothing.
pub fn annotation_of<'i, 'a>(
    name: &[u8],
    annotations: &'i [Annotation<'a>],
) -> Option<&'i Annotation<'a>>
    ensures { option_map trees.annotation_of (option_copied result)
        ≡ said.annotation_of name.now (trees.annotations_of annotations.now) }
{
    for annotation in annotations {
        if is_named(annotation, name) {
            return Some(annotation);
        }
    }
    None
}

fn is_named(annotation: &Annotation<'_>, name: &[u8]) -> bool
    ensures { result ≡ bytes_eq name.now annotation.now.name.bytes.now }
{
    name == annotation.name.bytes
}

/// The arguments of an annotation, none where there are no parentheses.
pub fn arguments_of<'i, 'a>(annotation: &'i Annotation<'a>) -> &'i [Argument<'a>]
    ensures { trees.trees_of result.now
        ≡ said.arguments_of (trees.annotation_of annotation.now) }
{
    match &annotation.arguments {
        Some(arguments) => arguments,
        None => &[],
    }
}

/// The first annotation of a name that has no arguments.
pub fn plain_annotation_of<'i, 'a>(
    name: &[u8],
    annotations: &'i [Annotation<'a>],
) -> Option<&'i Annotation<'a>>
    ensures { option_map trees.annotation_of (option_copied result)
        ≡ said.plain_annotation_of name.now (trees.annotations_of annotations.now) }
{
    for annotation in annotations {
        if is_plain(annotation, name) {
            return Some(annotation);
        }
    }
    None
}

/// Whether an annotation is a name without arguments.
fn is_plain(annotation: &Annotation<'_>, name: &[u8]) -> bool
    ensures { let tree = trees.annotation_of annotation.now in
        result ≡ (bytes_eq name.now tree.name.bytes && (length (said.arguments_of tree) == 0)) }
{
    if is_named(annotation, name) {
        first_of(arguments_of(annotation)).is_none()
    } else {
        false
    }
}

/// Where the annotation `output_var` stands among annotations, without arguments.
pub fn output_var_at(annotations: &[Annotation<'_>]) -> Option<u32>
    ensures { result
        ≡ slice_get (rules.output_var_places (trees.annotations_of annotations.now)) 0 }
{
    match plain_annotation_of(OUTPUT_VAR, annotations) {
        Some(annotation) => Some(annotation.name.at),
        None => None,
    }
}

/// Whether the annotation `domain` stands among annotations, without arguments.
pub fn asks_whole(annotations: &[Annotation<'_>]) -> bool
    ensures { result ≡ said.asks_whole (trees.annotations_of annotations.now) }
{
    plain_annotation_of(DOMAIN, annotations).is_some()
}

/// Where the annotation `output_array` stands among annotations.
pub fn output_array_at(annotations: &[Annotation<'_>]) -> Option<u32>
    ensures { result
        ≡ slice_get (rules.output_array_places (trees.annotations_of annotations.now)) 0 }
{
    match annotation_of(OUTPUT_ARRAY, annotations) {
        Some(annotation) => Some(annotation.name.at),
        None => None,
    }
}

/// The elements of an argument, if it is a list.
fn elements_of<'i, 'a>(argument: Nested<'i, 'a>) -> Option<&'i [Argument<'a>]>
    ensures { let elements = said.bracketed (trees.nested_of argument.entry ∷ []) in
        MatchOption result (elements ≡ []) (λ list. elements ≡ trees.trees_of list.now) }
{
    match argument {
        Nested::Brackets { arguments, .. } => Some(arguments),
        _ => None,
    }
}

/// The elements of the one argument, if it is a list.
fn bracketed<'i, 'a>(arguments: &'i [Argument<'a>]) -> Option<&'i [Argument<'a>]>
    ensures { let elements = said.bracketed (trees.trees_of arguments.now) in
        MatchOption result (elements ≡ []) (λ list. elements ≡ trees.trees_of list.now) }
{
    elements_of(only_of(arguments)?)
}

/// The index range that an argument is.
fn range_of(argument: Nested<'_, '_>) -> Option<(i32, i32)>
    ensures { result ≡ said.range_of (trees.nested_of argument.entry) }
{
    match argument {
        Nested::Simple(Basic::Literal(set)) => range_in(set),
        _ => None,
    }
}

/// The ends of a set that is written as a range.
fn range_in(set: &SetLiteral) -> Option<(i32, i32)>
    ensures { result ≡ said.range_of (lang.Simple (lang.Literal (trees.set_of set.now))) }
{
    match set {
        SetLiteral::Range {
            low: Number::Whole(low),
            high: Number::Whole(high),
        } => Some((low.value, high.value)),
        _ => None,
    }
}

/// The place of an argument that is an index range.
fn range_at(argument: Nested<'_, '_>) -> Option<u32>
    ensures { let tree = trees.nested_of argument.entry in
        result ≡ option_map (λ r. said.place_of tree) (said.range_of tree) }
{
    match argument {
        Nested::Simple(Basic::Literal(set)) => range_in_at(set),
        _ => None,
    }
}

/// The place of a set that is written as a range.
fn range_in_at(set: &SetLiteral) -> Option<u32>
    ensures { let tree = lang.Simple (lang.Literal (trees.set_of set.now)) in
        result ≡ option_map (λ r. said.place_of tree) (said.range_of tree) }
{
    match set {
        SetLiteral::Range {
            low: Number::Whole(low),
            high: Number::Whole(_),
        } => Some(low.at),
        _ => None,
    }
}

/// The ranges that arguments are, or nothing where one of them is none.
fn ranges_of(
    alloc: Global,
    arguments: &[Argument<'_>],
) -> Result<Option<Vec<(i32, i32)>>, AllocError>
    ensures { IfOk result (λ found. option_map (λ ranges. ranges.items) found
        ≡ all_of (map said.range_of (trees.trees_of arguments.now))) }
{
    let mut ranges = Vec::new(alloc);
    let mut place = 0;
    'places: while let Some((argument, next)) = first_at(arguments, place) {
        match range_of(argument) {
            Some(range) => ranges.push(range)?,
            None => return Ok(None),
        }
        place = next;
    }
    Ok(Some(ranges))
}

/// The index ranges of `output_array([low..high, ..])`, at least one; nothing where it has another form.
pub fn shape_of(
    alloc: Global,
    annotation: &Annotation<'_>,
) -> Result<Option<Vec<(i32, i32)>>, AllocError>
    ensures { IfOk result (λ shape. option_map (λ ranges. ranges.items) shape
        ≡ said.shape_in (trees.annotation_of annotation.now)) }
{
    match bracketed(arguments_of(annotation)) {
        Some(elements) if first_of(elements).is_some() => ranges_of(alloc, elements),
        _ => Ok(None),
    }
}

/// The index ranges of the annotation `output_array` among annotations, if it has its form.
pub fn output_shape(
    alloc: Global,
    annotations: &[Annotation<'_>],
) -> Result<Option<Vec<(i32, i32)>>, AllocError>
    ensures { IfOk result (λ shape. option_map (λ ranges. ranges.items) shape
        ≡ shape_among (trees.annotations_of annotations.now)) }
{
    match annotation_of(OUTPUT_ARRAY, annotations) {
        Some(annotation) => shape_of(alloc, annotation),
        None => Ok(None),
    }
}

/// The argument after that many others.
fn argument_at<'i, 'a>(arguments: &'i [Argument<'a>], place: u32) -> Option<Nested<'i, 'a>>
    ensures { option_map trees.nested_of result ≡ slice_get (trees.trees_of arguments.now) place }
{
    let (first, rest) = first_of(arguments)?;
    if place == 0 {
        Some(first)
    } else {
        argument_at(rest, place - 1)
    }
}

/// The place of a seventh index range of an annotation.
fn seventh_at(annotation: &Annotation<'_>) -> Option<u32>
    ensures { result ≡ slice_get (said.seventh (trees.annotation_of annotation.now)) 0 }
{
    range_at(argument_at(bracketed(arguments_of(annotation))?, 6)?)
}

/// The place of a seventh index range of the annotation `output_array`.
pub fn seventh_range_at(annotations: &[Annotation<'_>]) -> Option<u32>
    ensures { result ≡ slice_get (rules.seventh_ranges (trees.annotations_of annotations.now)) 0 }
{
    match annotation_of(OUTPUT_ARRAY, annotations) {
        Some(annotation) => seventh_at(annotation),
        None => None,
    }
}

/// How many elements an array of these index ranges has, as far as 64 bits say it.
pub fn element_count(shape: &[(i32, i32)]) -> u64
    ensures { result ≡ min (instance.element_count shape.now) (2 ^ 64 - 1) }
{
    let mut count: u64 = 1;
    for range in shape {
        count = count.saturating_mul(index_count(*range));
    }
    count
}

/// How many indices a range has.
fn index_count(range: (i32, i32)) -> u64
    ensures { result ≡ instance.index_count range }
{
    if range.0 > range.1 {
        0
    } else {
        u64::from(range.1.abs_diff(range.0)) + 1
    }
}
