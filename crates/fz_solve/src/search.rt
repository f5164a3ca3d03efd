//! Search annotations of the solve item. One that isn't of their form is ignored.
ghost use Rattle.std.specs.Prelude.{◌≡◌, ◌↔◌, ◌≤◌, ◌++◌, ◌∷◌, [], IfOk, OnOk, IsTrue, Some, None, length, map, flat_map, find, bytes_eq, option_map, codes};
ghost use Rattle.fz_language.specs.Numerals.{all_of};
ghost use Rattle.fz_language.specs.Search as searches;
ghost use Rattle.fz_language.specs.Trees as lang;
ghost use Rattle.fz_syntax.specs.Trees as trees;
ghost use Rattle.fz_resolve.specs.Meant.{environment_of};
ghost use Rattle.fz_solve.specs.Searches.{parts_of_call, option_list, word_of, part_of_words, and_word, is_new, parts_of_new};

use fz_model::{Listed, SearchPart};
use fz_resolve::{Entry, Names};
use fz_spec::search::{PICKS, Pick, VALUES, Value};
use fz_syntax::{Annotation, Argument, Basic, Name, Nested, first_at, first_of, only_of};
use std::alloc::{AllocError, Global};

/// Which of the search words stood before.
#[derive(Clone, Copy)]
struct Words {
    int_search: bool,
    bool_search: bool,
    seq_search: bool,
}

/// The parts of the search, those of each annotation one after another. An annotation of a name that stood before says nothing.
///
/// # Errors
/// `AllocError` where there is no memory.
pub fn search<'a>(
    alloc: Global,
    names: &Names<'a>,
    annotations: &[Annotation<'a>],
) -> Result<Vec<SearchPart>, AllocError>
    ensures { IfOk result (λ parts. parts.items
        ≡ searches.search_of (environment_of names.now) (trees.annotations_of annotations.now)) }
{
    let mut parts = Vec::new(alloc);
    let mut words = Words {
        int_search: false,
        bool_search: false,
        seq_search: false,
    };
    for annotation in annotations {
        push_first(alloc, names, annotation, words, &mut parts)?;
        words = and_word(words, annotation.name.bytes);
    }
    Ok(parts)
}

/// These words, and this one, if it is one.
fn and_word(words: Words, name: &[u8]) -> Words
    ensures { result ≡ and_word words name.now }
{
    Words {
        int_search: words.int_search || name == b"int_search".as_slice(),
        bool_search: words.bool_search || name == b"bool_search".as_slice(),
        seq_search: words.seq_search || name == b"seq_search".as_slice(),
    }
}

/// Whether a name is a search word, and none of these.
fn is_new(words: Words, name: &[u8]) -> bool
    ensures { result ≡ is_new words name.now }
{
    if name == b"int_search".as_slice() {
        !words.int_search
    } else if name == b"bool_search".as_slice() {
        !words.bool_search
    } else if name == b"seq_search".as_slice() {
        !words.seq_search
    } else {
        false
    }
}

/// Adds the parts of an annotation, if its name is a search word and none of these.
fn push_first<'a>(
    alloc: Global,
    names: &Names<'a>,
    annotation: &Annotation<'a>,
    words: Words,
    parts: &mut Vec<SearchPart>,
) -> Result<(), AllocError>
    ensures { let a = trees.annotation_of annotation.now in
        OnOk result (parts.new.items ≡ parts.old.items
        ++ parts_of_new (environment_of names.now) words a) }
{
    if is_new(words, annotation.name.bytes) {
        push_annotation(alloc, names, annotation, parts)?;
    }
    Ok(())
}

/// Adds the parts of a search that an annotation asks for; one that asks for none adds nothing.
fn push_annotation<'a>(
    alloc: Global,
    names: &Names<'a>,
    annotation: &Annotation<'a>,
    parts: &mut Vec<SearchPart>,
) -> Result<(), AllocError>
    ensures { OnOk result (parts.new.items ≡ parts.old.items
        ++ flat_map (searches.parts_in (environment_of names.now)) (searches.as_argument
        (trees.annotation_of annotation.now))) }
{
    match &annotation.arguments {
        Some(arguments) => {
            push_call(alloc, names, annotation.name, arguments, parts)?;
            Ok(())
        }
        None => Ok(()),
    }
}

/// Adds the parts of a search annotation of this name: one, or those of each member of a sequence.
#[cycle(calls)]
fn push_call<'a>(
    alloc: Global,
    names: &Names<'a>,
    name: Name<'a>,
    arguments: &[Argument<'a>],
    parts: &mut Vec<SearchPart>,
) -> Result<(), AllocError>
    ensures { OnOk result (parts.new.items ≡ parts.old.items
        ++ parts_of_call (environment_of names.now) (trees.name_of name.entry) arguments.now) }
{
    if is_basic_search(name.bytes) {
        push_part(alloc, names, arguments, parts)?;
        return Ok(());
    }
    if !is_seq_search(name.bytes) {
        return Ok(());
    }
    match only_of(arguments) {
        Some(list) => push_sequence(alloc, names, list, parts),
        None => Ok(()),
    }
}

/// Adds the parts of the members of a list, where the argument of a sequence is one.
#[cycle(calls)]
fn push_sequence<'a>(
    alloc: Global,
    names: &Names<'a>,
    list: Nested<'_, 'a>,
    parts: &mut Vec<SearchPart>,
) -> Result<(), AllocError>
    ensures { let arguments = lang.More (trees.nested_of list.entry) lang.Nil in
        OnOk result (parts.new.items ≡ parts.old.items
        ++ searches.parts_of_list (environment_of names.now) arguments) }
{
    match list {
        Nested::Brackets {
            arguments: members,
            ..
        } => {
            let mut place = 0;
            'places: while let Some((member, next)) = first_at(members, place) {
                push_member_call(alloc, names, member, parts)?;
                place = next;
            }
            Ok(())
        }
        _ => Ok(()),
    }
}

/// Adds the part of a member of a sequence, where it is a basic search.
#[cycle(calls)]
fn push_member_call<'a>(
    alloc: Global,
    names: &Names<'a>,
    member: Nested<'_, 'a>,
    parts: &mut Vec<SearchPart>,
) -> Result<(), AllocError>
    ensures { OnOk result (parts.new.items ≡ parts.old.items
        ++ searches.parts_in (environment_of names.now) (trees.nested_of member.entry)) }
{
    match member {
        Nested::Call { name, arguments } => {
            push_call(alloc, names, name, arguments, parts)?;
            Ok(())
        }
        _ => Ok(()),
    }
}

fn is_basic_search(word: &[u8]) -> bool
    ensures { result ≡ searches.is_basic_search word.now }
{
    word == b"int_search".as_slice() || word == b"bool_search".as_slice()
}

fn is_seq_search(word: &[u8]) -> bool
    ensures { result ≡ bytes_eq word.now (codes "seq_search") }
{
    word == b"seq_search".as_slice()
}

/// Adds the part of `(variables, pick, value)`, with a fourth argument or without.
fn push_part<'a>(
    alloc: Global,
    names: &Names<'a>,
    arguments: &[Argument<'a>],
    parts: &mut Vec<SearchPart>,
) -> Result<(), AllocError>
    ensures { OnOk result (parts.new.items ≡ parts.old.items
        ++ searches.part_in (environment_of names.now) (trees.trees_of arguments.now)) }
{
    let Some((variables, rest)) = first_of(arguments) else {
        return Ok(());
    };
    let Some((pick, rest)) = first_of(rest) else {
        return Ok(());
    };
    let Some((value, rest)) = first_of(rest) else {
        return Ok(());
    };
    if !is_one_at_most(rest) {
        return Ok(());
    }
    push_words(alloc, names, variables, named(pick), named(value), parts)?;
    Ok(())
}

/// Whether there are no two.
fn is_one_at_most(arguments: &[Argument<'_>]) -> bool
    ensures { IsTrue result ↔ (length (trees.trees_of arguments.now) ≤ 1) }
{
    match first_of(arguments) {
        Some((_, rest)) => first_of(rest).is_none(),
        None => true,
    }
}

/// The name that an argument is.
fn named<'a>(argument: Nested<'_, 'a>) -> Option<Name<'a>>
    ensures { option_map trees.name_of result ≡ word_of (trees.nested_of argument.entry) }
{
    match argument {
        Nested::Simple(Basic::Named { at, bytes }) => Some(Name {
            bytes: *bytes,
            at: *at,
        }),
        _ => None,
    }
}

/// Adds the part of a search over these variables, where its words for variable and value are names.
fn push_words<'a>(
    alloc: Global,
    names: &Names<'a>,
    variables: Nested<'_, 'a>,
    pick: Option<Name<'a>>,
    value: Option<Name<'a>>,
    parts: &mut Vec<SearchPart>,
) -> Result<(), AllocError>
    ensures { OnOk result (parts.new.items ≡ parts.old.items
        ++ part_of_words (environment_of names.now) (trees.nested_of variables.entry)
        (option_map trees.name_of pick.entry) (option_map trees.name_of value.entry)) }
{
    match (pick, value) {
        (Some(pick), Some(value)) => push_over(alloc, names, variables, pick, value, parts),
        _ => Ok(()),
    }
}

/// Adds the part of a search over these variables by these words, where they are a list of variables and numbers, or an array.
fn push_over<'a>(
    alloc: Global,
    names: &Names<'a>,
    variables: Nested<'_, 'a>,
    pick: Name<'a>,
    value: Name<'a>,
    parts: &mut Vec<SearchPart>,
) -> Result<(), AllocError>
    ensures { OnOk result (parts.new.items ≡ parts.old.items
        ++ searches.part_of (environment_of names.now) (trees.nested_of variables.entry)
        (trees.name_of pick.entry) (trees.name_of value.entry)) }
{
    match variables_in(alloc, names, variables)? {
        Some(variables) => {
            parts.push(SearchPart::new(variables, pick_of(pick.bytes), value_of(value.bytes)))?;
            Ok(())
        }
        None => Ok(()),
    }
}

/// The variables of a list of variables and numbers, or of a declared array of them.
fn variables_in<'a>(
    alloc: Global,
    names: &Names<'a>,
    argument: Nested<'_, 'a>,
) -> Result<Option<Listed<u32>>, AllocError>
    ensures { IfOk result (λ found. found
        ≡ searches.variables_in (environment_of names.now) (trees.nested_of argument.entry)) }
{
    match argument {
        Nested::Brackets { arguments, .. } => Ok(members(alloc, names, arguments)?),
        Nested::Simple(Basic::Named { at, bytes }) => match names.entry(Name {
            bytes: *bytes,
            at: *at,
        }) {
            Some(Entry::Terms(list)) => Ok(Some(list.variables()?)),
            _ => Ok(None),
        },
        _ => Ok(None),
    }
}

/// The variables among the arguments of an annotation, or nothing where one of them is neither a variable nor a number.
fn members<'a>(
    alloc: Global,
    names: &Names<'a>,
    arguments: &[Argument<'a>],
) -> Result<Option<Listed<u32>>, AllocError>
    ensures { IfOk result (λ found. found
        ≡ option_map searches.joined (all_of (map (searches.member (environment_of names.now))
        (trees.trees_of arguments.now)))) }
{
    let mut variables = Vec::new(alloc);
    let mut place = 0;
    'places: while let Some((argument, next)) = first_at(arguments, place) {
        match member(names, argument) {
            Some(variable) => push_member(&mut variables, variable)?,
            None => return Ok(None),
        }
        place = next;
    }
    Ok(Some(Listed::own(variables)))
}

/// Adds a variable that there is.
fn push_member(variables: &mut Vec<u32>, variable: Option<u32>) -> Result<(), AllocError>
    ensures { OnOk result (variables.new.items ≡ variables.old.items ++ option_list variable) }
{
    if let Some(variable) = variable {
        variables.push(variable)?;
    }
    Ok(())
}

/// The variable that a member of a list is, if it is one; nothing where the list isn't of the form.
fn member<'a>(names: &Names<'a>, argument: Nested<'_, 'a>) -> Option<Option<u32>>
    ensures { option_map (λ v. option_list v) result
        ≡ searches.member (environment_of names.now) (trees.nested_of argument.entry) }
{
    match argument {
        Nested::Simple(Basic::Truth { .. }) | Nested::Simple(Basic::Numeral(_)) => Some(None),
        Nested::Simple(Basic::Named { at, bytes }) => match names.entry(Name {
            bytes: *bytes,
            at: *at,
        }) {
            Some(Entry::Variable { number, .. }) => Some(Some(*number)),
            _ => None,
        },
        _ => None,
    }
}

fn pick_of(word: &[u8]) -> Pick
    ensures { result ≡ searches.pick_of word.now }
{
    match pick_among(&PICKS, word) {
        Some(row) => row.1,
        None => Pick::InputOrder,
    }
}

/// The row of a word.
fn pick_among<'r>(
    rows: &'r [(&'static [u8], Pick)],
    word: &[u8],
) -> Option<&'r (&'static [u8], Pick)>
    ensures { option_map (λ row. row.now) result
        ≡ find (λ row. bytes_eq word.now row.0.now) rows.now }
{
    rows.iter().find(|row| word == row.0)
}

fn value_of(word: &[u8]) -> Value
    ensures { result ≡ searches.value_of word.now }
{
    match value_among(&VALUES, word) {
        Some(row) => row.1,
        None => Value::IndomainMin,
    }
}

/// The row of a word.
fn value_among<'r>(
    rows: &'r [(&'static [u8], Value)],
    word: &[u8],
) -> Option<&'r (&'static [u8], Value)>
    ensures { option_map (λ row. row.now) result
        ≡ find (λ row. bytes_eq word.now row.0.now) rows.now }
{
    rows.iter().find(|row| word == row.0)
}
