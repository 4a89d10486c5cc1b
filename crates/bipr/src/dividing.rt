//! Two texts in one: the line `---` parts them.
ghost use Rattle.std.specs.Prelude.{◌≡◌, ◌<◌, ◌≤◌, ◌+◌, true, length, IfSome};
ghost use Rattle.bipr.specs.Dividing.{after_mark, before_mark, begins_with_mark, mark_in};

use bip_model::split_line;

/// Two texts in one: what stands before the first line `---`, and what stands behind it; the second
/// is empty where there is no such line (docs/ANSWERS.md, "Two texts in one").
pub fn divide(text: &[u8]) -> (&[u8], &[u8])
    ensures before { result.0.now ≡ before_mark text.now }
    ensures after { result.1.now ≡ after_mark text.now }
{
    match mark_in(text) {
        None => (text, &[]),
        Some(at) => (&text[..at], text[at..].get(4..).unwrap_or(&[])),
    }
}

// Where the first line `---` begins.
fn mark_in(text: &[u8]) -> Option<usize>
    ensures place { result ≡ mark_in true text.now }
    ensures within { IfSome result (λ at. at < length text.now) }
{
    let mut begins = true;
    let mut at = 0;
    let mut rest = text;
    while let [byte, after @ ..] = rest {
        if begins && begins_with_mark(rest) {
            return Some(at);
        }
        begins = *byte == b'\n';
        at += 1;
        rest = after;
    }
    None
}

fn begins_with_mark(text: &[u8]) -> bool
    requires { 1 ≤ length text.now }
    ensures { result ≡ begins_with_mark text.now }
{
    split_line(text).0 == b"---".as_slice()
}
