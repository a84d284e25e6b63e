// The bytes of a value read as what they stand for; None (17) where no value of the type has that code.
ghost use Rattle.std.specs.Prelude.{◌≡◌, Some};
ghost use Rattle.value.specs.Read.{read_bcd, percent_of, read_share, read_signed, read_one, read_two, read_as};

use crate::steps::steps;
use crate::value::{DataType, Value};

// Both halves are digits.
#[tactic(auto, unfolding(crate::specs::Read::read_bcd))]
fn read_bcd(b: u8) -> Option<Value>
    ensures { result ≡ read_bcd b }
{
    match (b / 16, b % 16) {
        (15, 15) => Some(Value::Missing),
        (tens, ones) if tens < 10 && ones < 10 => Some(Value::Whole(u32::from(tens * 10 + ones))),
        _ => None,
    }
}

// Half percents.
pub(crate) fn percent(b: u8) -> f32
    ensures { result ≡ percent_of b }
{
    steps(u32::from(b), 2.0)
}

// DATA1c: 0 to 200.
#[tactic(auto, unfolding(crate::specs::Read::read_share))]
pub(crate) fn read_share(b: u8) -> Option<Value>
    ensures { result ≡ read_share b }
{
    if b <= 200 {
        Some(Value::Percent(percent(b)))
    } else if b == 0xff {
        Some(Value::Missing)
    } else {
        None
    }
}

// A signed number of 16 bits in steps of 1 / scale: from 8001h on it is below zero.
#[tactic(auto, unfolding(crate::specs::Read::read_signed))]
fn read_signed(low: u8, high: u8, scale: f32) -> Value
    ensures { Some result ≡ read_signed scale low high }
{
    let n = u32::from(u16::from_le_bytes([low, high]));
    match n {
        0x8000 => Value::Missing,
        0..0x8000 => Value::Temperature(steps(n, scale)),
        _ => Value::Temperature(-steps(0x1_0000 - n, scale)),
    }
}

// Too few or too many bytes are no code.
#[tactic(auto, unfolding(crate::specs::Read::read_as))]
pub fn read(t: DataType, bytes: &[u8]) -> Option<Value>
    ensures { result ≡ read_as t bytes.now }
{
    match (t, bytes) {
        (DataType::Bcd, &[b]) => read_bcd(b),
        (DataType::Data1c, &[b]) => read_share(b),
        (DataType::Data2b, &[low, high]) => Some(read_signed(low, high, 256.0)),
        (DataType::Data2c, &[low, high]) => Some(read_signed(low, high, 16.0)),
        _ => None,
    }
}
