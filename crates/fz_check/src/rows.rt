//! Names of constraints.
ghost use Rattle.std.specs.Prelude.{◌≡◌, true, option_map, option_copied, bytes_eq, codes, ◌||◌, find, map};
ghost use Rattle.fz_spec.specs.Signatures as signatures;
ghost use Rattle.fz_language.specs.Rules as rules;
ghost use Rattle.fz_check.specs.Rows.{row_of, are_rising};

use fz_spec::row::{ROWS, Row};

/// The row of a name.
pub(crate) fn row_named(name: &[u8]) -> Option<&'static Row>
    ensures { option_map row_of (option_copied result) ≡ signatures.row_named name.now }
{
    row_among(&ROWS, name)
}

/// The row of a name among rows that rise by their names, found by halves.
fn row_among<'r>(rows: &'r [Row], name: &[u8]) -> Option<&'r Row>
    requires { are_rising (map row_of rows.now) ≡ true }
    ensures { option_map row_of (option_copied result)
        ≡ find (λ (row : signatures.Row). bytes_eq name.now row.name) (map row_of rows.now) }
{
    match rows.binary_search_by(|row| row.0.cmp(name)) {
        Ok(place) => Some(&rows[place]),
        Err(_) => None,
    }
}

/// Whether a name that isn't in the table is one of a constraint that FlatZinc has and fzn has not: over floats, over sets that
/// vary, half reified, or a power.
pub(crate) fn is_unsupported(name: &[u8]) -> bool
    ensures { result ≡ rules.is_unsupported name.now }
{
    name == b"int_pow".as_slice() || name == b"int2float".as_slice() || is_of_floats_or_sets(name)
}

fn begins(name: &[u8], prefix: &[u8]) -> bool
    ensures { result ≡ rules.begins name.now prefix.now }
{
    name.starts_with(prefix)
}

fn ends_with(name: &[u8], suffix: &[u8]) -> bool
    ensures { result ≡ rules.ends_with name.now suffix.now }
{
    name.ends_with(suffix)
}

fn is_of_floats_or_sets(name: &[u8]) -> bool
    ensures { result ≡ rules.is_of_floats_or_sets name.now }
{
    begins(name, b"float_")
        || begins(name, b"set_")
        || begins(name, b"array_float_")
        || begins(name, b"array_var_float_")
        || begins(name, b"array_set_")
        || begins(name, b"array_var_set_")
        || ends_with(name, b"_imp")
}
