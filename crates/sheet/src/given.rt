// The value that a field has to write: its kind, and four bytes high first; None (17) for a kind above 3.
ghost use Rattle.std.specs.Prelude.{◌≡◌};
ghost use Rattle.std.specs.Float.{binary32};
ghost use Rattle.std.specs.Float.Ieee.{of_bits};
ghost use Rattle.sheet.specs.Given.{of_kind, given_in};

use value::value::Value;

// The float of a bit pattern. `from_bits` is not defined at the patterns of a NaN: with the sign taken off, those above infinity's.
fn float_of(n: u32) -> f32
    ensures { result ≡ of_bits binary32 n }
{
    if 0x7f80_0000 < n % 0x8000_0000 {
        f32::NAN
    } else {
        f32::from_bits(n)
    }
}

// 0 whole, 1 percent, 2 temperature, 3 missing.
#[tactic(auto, unfolding(crate::specs::Given::of_kind))]
fn of_kind(kind: u8, n: u32) -> Option<Value>
    ensures { result ≡ of_kind kind n }
{
    match kind {
        0 => Some(Value::Whole(n)),
        1 => Some(Value::Percent(float_of(n))),
        2 => Some(Value::Temperature(float_of(n))),
        3 => Some(Value::Missing),
        _ => None,
    }
}

// No field of good form has another length.
#[tactic(auto, unfolding(crate::specs::Given::given_in, crate::specs::Given::word_of))]
pub fn given_in(bytes: &[u8]) -> Option<Value>
    ensures { result ≡ given_in bytes.now }
{
    match *bytes {
        [kind, a, b, c, d] => of_kind(kind, u32::from_be_bytes([a, b, c, d])),
        _ => None,
    }
}
