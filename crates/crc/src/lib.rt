// The check symbol of a part: one symbol into the register, and the register after all symbols.
#![tactic(auto)]

ghost use Rattle.std.specs.Prelude.{◌≡◌};
ghost use Rattle.crc.specs.Crc.{times_x, crc_step, crc_of};

// The paper's polynomial (7.2), x^8 + x^7 + x^4 + x^3 + x + 1: a bit for each power of x, from x^8 down to 1.
const POLYNOMIAL: u16 = 0b1_1001_1011;

// Times x: one place up and, where a bit fell out of the eight, the polynomial taken off.
fn times_x(register: u8) -> u8
    ensures { result ≡ times_x register }
{
    let shifted = u16::from(register) << 1;
    if shifted < 256 {
        shifted as u8
    } else {
        (shifted ^ POLYNOMIAL) as u8
    }
}

// One symbol into the register: the register times x^8, bit by bit, then the symbol.
pub fn step(register: u8, symbol: u8) -> u8
    ensures { result ≡ crc_step register symbol }
{
    let mut reduced = register;
    for _ in 0..8u8 {
        reduced = times_x(reduced);
    }
    reduced ^ symbol
}

// The register after all symbols, from 0.
pub fn of(symbols: &[u8]) -> u8
    ensures { result ≡ crc_of symbols.now }
{
    symbols
        .iter()
        .fold(0, |register, &symbol| step(register, symbol))
}
