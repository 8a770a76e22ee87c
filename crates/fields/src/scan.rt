// The bytes of a text, before any line is read.
ghost use Rattle.std.specs.Prelude.{◌≡◌, ◌+◌, count_by, nat_eq};
ghost use Rattle.fields.specs.Bytes.{allowed, wrong_line};

fn is_allowed(byte: u8) -> bool
    ensures { result ≡ allowed byte }
{
    matches!(byte, b'\n' | 32..=126)
}

// The line, from 1, in which the bytes after these stand.
fn line_after(bytes: &[u8]) -> usize
    ensures { result ≡ 1 + count_by (λ b. nat_eq b 10) bytes.now }
{
    1 + bytes.iter().filter(|b| **b == b'\n').count()
}

// The line of the first wrong byte, or of a last line that does not end.
pub fn wrong_line(text: &[u8]) -> Option<usize>
    ensures { result ≡ wrong_line text.now }
{
    // One loop over the bytes with their index, a wanted form (docs/DECISIONS.md).
    for (i, b) in text.iter().enumerate() {
        if !is_allowed(*b) {
            return Some(line_after(&text[..i]));
        }
    }
    if text.last() != Some(&b'\n') {
        return Some(line_after(text));
    }
    None
}
