//! Lines and columns.
ghost use Rattle.std.specs.Prelude.{◌≡◌, ◌+◌, ◌<◌, ◌≤◌, ◌^◌, length};
ghost use Rattle.fz_language.specs.Places.{IsPlaceOf};

/// The place of a byte, as line and column, counted from 1. A column is a count of bytes.
#[derive(Clone, Copy, Debug, PartialEq, Eq)]
pub struct Place {
    pub line: u32,
    pub column: u32,
}

impl Place {
    /// The place of a text's first byte.
    fn start(text: &[u8]) -> Place
        ensures { IsPlaceOf text.now 0 result.line result.column }
    {
        Place { line: 1, column: 1 }
    }

    /// The place of the byte after one, whose place this is.
    fn next(self, text: &[u8], at: usize) -> Place
        requires within { at < length text.now }
        requires near { at < 2 ^ 31 }
        requires place { IsPlaceOf text.now at self.line self.column }
        ensures { IsPlaceOf text.now (at + 1) result.line result.column }
    {
        if text[at] == b'\n' {
            Place {
                line: self.line + 1,
                column: 1,
            }
        } else {
            Place {
                line: self.line,
                column: self.column + 1,
            }
        }
    }
}

/// The place of the byte that has that many before it, or of the text's end where there are fewer. It takes the time of going there.
pub fn place_of(text: &[u8], at: usize) -> Place
    requires near { length text.now < 2 ^ 31 }
    ensures { IsPlaceOf text.now at result.line result.column }
{
    place_within(text, at.min(text.len()))
}

/// The place of a byte of the text, or of its end.
fn place_within(text: &[u8], at: usize) -> Place
    requires within { at ≤ length text.now }
    requires near { length text.now < 2 ^ 31 }
    ensures { IsPlaceOf text.now at result.line result.column }
{
    let mut place = Place::start(text);
    let mut here = 0;
    'bytes: while here < at {
        place = place.next(text, here);
        here += 1;
    }
    place
}
