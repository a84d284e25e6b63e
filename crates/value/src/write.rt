// A value written as the bytes of its code; None (17) where no code has exactly that value.
ghost use Rattle.std.specs.Prelude.{◌≡◌};
ghost use Rattle.value.specs.Write.{two, bcd_of, share_of, signed_of, write_bcd, write_share, write_signed, write_as};

use crate::steps;
use crate::steps::Count;
use crate::value::{DataType, Value};

#[derive(Clone, Copy)]
pub enum Code {
    One(u8),
    // Low byte first.
    Two(u8, u8),
}

// The two bytes of a number of 16 bits.
#[tactic(auto, unfolding(crate::specs::Write::two))]
fn two(n: u32) -> Code
    ensures { result ≡ two n }
{
    let [low, high, ..] = n.to_le_bytes();
    Code::Two(low, high)
}

#[tactic(auto, unfolding(crate::specs::Write::bcd_of))]
fn bcd(n: u32) -> Option<Code>
    ensures { result ≡ bcd_of n }
{
    if n < 100 {
        Some(Code::One((n / 10 * 16 + n % 10) as u8))
    } else {
        None
    }
}

// At most 200 half percents.
fn share(k: Option<Count>) -> Option<Code>
    ensures { result ≡ share_of k }
{
    match k {
        Some(Count::Up(n)) if n <= 200 => Some(Code::One(n as u8)),
        _ => None,
    }
}

// At most 32,767 steps up or down: 8000h is no number, and what is below zero stands behind it.
fn signed(k: Option<Count>) -> Option<Code>
    ensures { result ≡ signed_of k }
{
    match k {
        Some(Count::Up(n)) if n < 32768 => Some(two(n)),
        Some(Count::Down(n)) if n < 32768 => Some(two(32768 + (32768 - n))),
        _ => None,
    }
}

fn write_bcd(v: Value) -> Option<Code>
    ensures { result ≡ write_bcd v }
{
    match v {
        Value::Whole(n) => bcd(n),
        Value::Missing => Some(Code::One(0xff)),
        _ => None,
    }
}

fn write_share(v: Value) -> Option<Code>
    ensures { result ≡ write_share v }
{
    match v {
        Value::Percent(x) => share(steps::count_of(x, 2.0)),
        Value::Missing => Some(Code::One(0xff)),
        _ => None,
    }
}

fn write_signed(v: Value, scale: f32) -> Option<Code>
    ensures { result ≡ write_signed scale v }
{
    match v {
        Value::Temperature(x) => signed(steps::count_of(x, scale)),
        Value::Missing => Some(two(0x8000)),
        _ => None,
    }
}

pub fn write(t: DataType, v: Value) -> Option<Code>
    ensures { result ≡ write_as t v }
{
    match t {
        DataType::Bcd => write_bcd(v),
        DataType::Data1c => write_share(v),
        DataType::Data2b => write_signed(v, 256.0),
        DataType::Data2c => write_signed(v, 16.0),
    }
}
