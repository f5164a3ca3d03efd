//! The rows that lie in the domains.
ghost use Rattle.std.specs.Prelude.{◌≡◌, ◌/◌, ◌<◌, ◌↔◌, length, IsTrue};
ghost use Rattle.std.specs.List.{AllByRecursion};
ghost use Rattle.fz_strength.specs.Events.{IsFixedIn};
ghost use Rattle.fz_strength.specs.Domains.{IsTermOf};
ghost use Rattle.fz_bits.specs.Members.{words_for};
ghost use Rattle.fz_column.specs.Supports.{AreColumnsOf};
ghost use Rattle.fz_table.specs.Rows.{AreLeft};

use fz_column::Column;
use fz_column::row_set::fill;
use fz_prop::Store;
use fz_prop::terms::value_of;
use fz_spec::term::Term;

/// Finds the rows that lie in the domains, by the fixed terms first, which leave the fewest rows. What the other set has is lost.
pub fn find_left(
    store: &Store,
    terms: &[Term],
    table: &[i32],
    columns: &[Column],
    left: &mut [u64],
    found: &mut [u64],
)
    requires terms { AllByRecursion (IsTermOf (length store.now.doms)) terms.now }
    requires some { 0 < length terms.now }
    requires columns { AreColumnsOf table.now (length terms.now) columns.now }
    requires size { length left.old ≡ words_for (length table.now / length terms.now) }
    requires found { length found.old ≡ length left.old }
    ensures left { AreLeft terms.now table.now store.now.doms left.new }
    ensures size { length left.new ≡ length left.old }
{
    fill(left, table.len() / terms.len());
    for (place, column) in columns.iter().enumerate() {
        if is_fixed(store, terms[place]) {
            column.keep_left(store, terms[place], left, found);
        }
    }
    for (place, column) in columns.iter().enumerate() {
        if !is_fixed(store, terms[place]) {
            column.keep_left(store, terms[place], left, found);
        }
    }
}

/// Whether one number is left of a term.
fn is_fixed(store: &Store, term: Term) -> bool
    requires { IsTermOf (length store.now.doms) term }
    ensures { IsTrue result ↔ IsFixedIn store.now.doms term }
{
    value_of(store, term).is_some()
}
