// Numbers in a text: digits with no leading zero.
ghost use Rattle.std.specs.Prelude.{◌≡◌};
ghost use Rattle.fields.specs.Numbers.{number_to, number_at, time_at};

use mtl::row::Time;

// The number that a field writes, where it is at most `most`. A loop of its own, and not the library's `parse`: it reads the field once, and stops
// at the first digit past 64 bits. By `parse` a field is read three times and to its end: for its digits, as text, and for its number.
fn number_to(field: &[u8], most: u64) -> Option<u64>
    ensures { result ≡ number_to most field.now }
{
    if matches!(field, [] | [b'0', _, ..]) {
        return None;
    }
    let mut n = 0u64;
    for b in field {
        if !b.is_ascii_digit() {
            return None;
        }
        n = n.checked_mul(10)?.checked_add(u64::from(*b - b'0'))?;
    }
    (n <= most).then_some(n)
}

// A number of 32 bits.
pub fn number(field: &[u8]) -> Option<u32>
    ensures { result ≡ number_at field.now }
{
    number_to(field, u64::from(u32::MAX)).map(|n| n as u32)
}

// A row's time. By its own type, which need not stay that of numbers.
pub fn time(field: &[u8]) -> Option<Time>
    ensures { result ≡ time_at field.now }
{
    number_to(field, u64::from(Time::MAX)).map(|n| n as Time)
}
