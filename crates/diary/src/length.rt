// The log's length as its user gives it: a decimal number.
ghost use Rattle.std.specs.Prelude.{◌≡◌};
ghost use Rattle.diary.specs.Length.{length_of};

// One byte more than a log may have: what is more is refused as this is.
pub const PAST: usize = 65537;

// At least one digit and nothing else; a number past the limits is kept to the first such.
pub fn length_of(s: &[u8]) -> Option<usize>
    ensures { result ≡ length_of s.now }
{
    if s.is_empty() {
        return None;
    }
    let mut n = 0;
    for b in s {
        if !b.is_ascii_digit() {
            return None;
        }
        n = laws::at_most(n * 10 + usize::from(*b - b'0'), PAST);
    }
    Some(n)
}
