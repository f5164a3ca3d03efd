//! The indices whose number is left, and these numbers.
ghost use Rattle.std.specs.Prelude.{length, IfOk};
ghost use Rattle.fz_sets.specs.Sets.{IsInSet};
ghost use Rattle.fz_strength.specs.Domains.{term_set, IsTermOf};
ghost use Rattle.fz_prop.specs.Stores.{FitsTerm};
ghost use Rattle.fz_element.specs.Selecting.{ArePairs, Has, AreWithin};

use crate::far::far_pairs;
use crate::near::Standing;
use crate::numbers::{Numbers, Pairs};
use fz_prop::Store;
use fz_prop::matching::related;
use fz_prop::terms::window_of;
use fz_spec::term::Term;
use std::alloc::{AllocError, Global};

/// The indices that are left and whose number is left, and these numbers.
pub fn pairs_of(
    alloc: Global,
    store: &Store,
    index: Term,
    numbers: &[i32],
    value: Term,
) -> Result<Pairs, AllocError>
    requires index { IsTermOf (length store.now.doms) index }
    requires value { IsTermOf (length store.now.doms) value }
    requires fits_index { FitsTerm index }
    requires fits_value { FitsTerm value }
    ensures pairs { IfOk result (λ p. ArePairs numbers.now
        (λ k. IsInSet (term_set store.now.doms index) k)
        (λ n. IsInSet (term_set store.now.doms value) n)
        (λ k. Has p.indices k) (λ n. Has p.values n)) }
    ensures indices { IfOk result (λ p. AreWithin p.indices) }
    ensures values { IfOk result (λ p. AreWithin p.values) }
{
    let Some(indices) = window_of(store, index) else {
        return far_pairs(alloc, store, index, numbers, value);
    };
    let Some(values) = window_of(store, value) else {
        return far_pairs(alloc, store, index, numbers, value);
    };
    let pairs = related(indices, values, &Standing { numbers });
    Ok(Pairs {
        indices: Numbers::Near(pairs.firsts),
        values: Numbers::Near(pairs.seconds),
    })
}
