// Splitting an input at its first empty line.
ghost use Rattle.std.specs.Prelude.{◌≡◌, ◌<◌, ◌≤◌, true, length};
ghost use Rattle.listing.specs.Inputs.{rules_length, rules_text, log_text};
ghost use Rattle.listing.specs.Laws.{empty_line_at};

// The two texts of an input.
#[derive(Clone, Copy)]
pub struct Texts<'a> {
    pub rules: &'a [u8],
    pub log: &'a [u8],
}

// Whether an empty line ends at a place.
fn ends_empty_line(input: &[u8], at: usize) -> bool
    requires { at < length input.now }
    ensures { result ≡ empty_line_at true input.now at }
{
    input[at] == b'\n' && (at == 0 || input[at - 1] == b'\n')
}

// How many bytes stand before the first empty line, or in all where there is none.
fn rules_length(input: &[u8]) -> usize
    ensures value { result ≡ rules_length true input.now }
    ensures within { result ≤ length input.now }
{
    (0..input.len())
        .find(|at| ends_empty_line(input, *at))
        .unwrap_or(input.len())
}

// The rules text and the log text; the empty line between them belongs to neither.
pub fn split<'a>(input: &'a [u8]) -> Texts<'a>
    ensures rules { result.rules.now ≡ rules_text input.now }
    ensures log { result.log.now ≡ log_text input.now }
{
    let end = rules_length(input);
    Texts {
        rules: &input[..end],
        log: input.get(end + 1..).unwrap_or(&[]),
    }
}
