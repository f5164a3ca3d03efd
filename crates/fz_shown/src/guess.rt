//! The assignment that a block may be of. What is guessed is printed again and compared with the text, so nothing rests on it where
//! the answer is yes. Where it is no, this does: the block of a solution gives that solution.
ghost use Rattle.std.specs.Prelude.{◌≡◌, ℤ, List, IfOk};
ghost use Rattle.fz_spec.specs.Instance.{Satisfies};
ghost use Rattle.fz_spec.specs.Run.{block};
ghost use Rattle.fz_shown.specs.Guesses.{with_output, with_outputs, with_term, with_terms};
ghost use Rattle.fz_shown.specs.Shown.{ShowsAll};

use crate::told::tell;
use crate::word::{after, length_before, skip, value_of};
use fz_model::{Assignment, Kind, Model, Output, Term};
use std::alloc::{AllocError, Global};

/// The assignment that a text may be the block of.
pub(crate) fn guess(alloc: Global, model: &Model, text: &[u8]) -> Result<Assignment, AllocError>
    requires { ShowsAll model.now }
    ensures { IfOk result (λ guessed. (a : List ℤ) → Satisfies model.now a
        → text.now ≡ block model.now a → guessed ≡ a) }
{
    let mut values = Vec::from_elem(alloc, 0, model.variables().len())?;
    read_outputs(&mut values, model.outputs(), text);
    Assignment::new(alloc, &values)
}

/// Reads the values of output items, one line after the other.
fn read_outputs(values: &mut [i32], outputs: &[Output], text: &[u8])
    ensures { values.new
        ≡ (with_outputs outputs.now (record { values = values.old; left = text.now })).values }
{
    let mut left = text;
    for output in outputs {
        left = read_output(values, output, left);
    }
}

/// Reads the values of an output item, and answers what stands after its line.
fn read_output<'a>(values: &mut [i32], output: &Output, text: &'a [u8]) -> &'a [u8]
    ensures { record { values = values.new; left = result.now }
        ≡ with_output output.now (record { values = values.old; left = text.now }) }
{
    let named = skip(skip(text, output.name().as_str().len()), 3);
    if !output.is_array() {
        return read_terms(values, output.kind(), output.terms(), named);
    }
    let later = read_terms(values, output.kind(), output.terms(), after(b'[', named));
    after(b'\n', later)
}

/// Reads the values of terms, each with two bytes after it.
fn read_terms<'a>(values: &mut [i32], kind: Kind, terms: &[Term], text: &'a [u8]) -> &'a [u8]
    ensures { record { values = values.new; left = result.now }
        ≡ with_terms kind terms.now (record { values = values.old; left = text.now }) }
{
    let mut left = text;
    for term in terms {
        left = read_term(values, kind, *term, left);
    }
    left
}

/// Reads the value of a term, with the two bytes after it: a comma and a blank, the end of an array, or the end of the line.
fn read_term<'a>(values: &mut [i32], kind: Kind, term: Term, text: &'a [u8]) -> &'a [u8]
    ensures { record { values = values.new; left = result.now }
        ≡ with_term kind term (record { values = values.old; left = text.now }) }
{
    let (word, later) = text.split_at(length_before(text, b",;]"));
    tell(values, term, value_of(kind, word));
    skip(later, 2)
}
