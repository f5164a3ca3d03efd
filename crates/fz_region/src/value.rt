//! The values of a set, one after the other.
ghost use Rattle.std.specs.Prelude.{◌≡◌, ◌<◌};
ghost use Rattle.fz_sets.specs.Sets.{set_size};
ghost use Rattle.fz_region.specs.Each.{value_at};

use fz_dom::Dom;

/// The value at a place of a set, from 0 in rising order.
pub fn value_at(values: &Dom, place: u64) -> i32
    requires { place < set_size values.now }
    ensures { result ≡ value_at values.now place }
{
    let mut left = place;
    for i in 0..values.range_count() {
        let (low, high) = values.range_at(i);
        let size = u64::from(high.abs_diff(low)) + 1;
        if left < size {
            return (i64::from(low) + left as i64) as i32;
        }
        left -= size;
    }
    unreachable!()
}
