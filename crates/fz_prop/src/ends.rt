//! Lists that are passed from both ends.
ghost use Rattle.std.specs.Prelude.{◌≤◌, length};

/// How many items there are, as far as 32 bits count them; none where there are more.
pub fn count_of<T>(items: &[T]) -> u32
    ensures { result ≤ length items.now }
{
    match u32::try_from(items.len()) {
        Ok(count) => count,
        Err(_) => 0,
    }
}
