//! Blanks: white space and comments.
ghost use Rattle.std.specs.Prelude.{◌≡◌, ◌≤◌, ◌<◌, length, slice_index};
ghost use Rattle.fz_language.specs.Tokens.{IsGap, IsComment};
ghost use Rattle.fz_language.specs.Tokens as spec;
ghost use Rattle.fz_lex.specs.Steps.{EndsGap};

/// After the white space and the comments that stand from a place on.
pub(crate) fn skip_blanks(text: &[u8], from: usize) -> usize
    requires within { from ≤ length text.now }
    ensures gap { IsGap text.now from result }
    ensures end { EndsGap text.now result }
{
    let mut at = from;
    'blanks: while at < text.len() {
        if is_space(text[at]) {
            at += 1;
        } else if text[at] == b'%' {
            at = comment_end(text, at);
        } else {
            return at;
        }
    }
    at
}

/// The end of the comment that begins with a percent sign.
fn comment_end(text: &[u8], from: usize) -> usize
    requires within { from < length text.now }
    requires percent { slice_index text.now from ≡ 37 }
    ensures { IsComment text.now from result }
{
    let mut at = from + 1;
    'line: while at < text.len() && text[at] != b'\n' {
        at += 1;
    }
    at
}

fn is_space(byte: u8) -> bool
    ensures { result ≡ spec.is_space byte }
{
    byte == b' ' || byte == b'\t' || byte == b'\r' || byte == b'\n'
}
