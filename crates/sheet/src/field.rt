// One field of a sheet: one-byte tag, two-byte length (high byte first), value.
ghost use Rattle.std.specs.Prelude.{◌≡◌};
ghost use Rattle.walk.specs.Field.{pair_at};
ghost use Rattle.sheet.specs.Field.{to_write, entry_of, no_field, field_at};

use value::value::DataType;

#[derive(Clone, Copy)]
pub enum Entry {
    // 01 to 04: a code to read as that type.
    Read(DataType),
    // 05: a block of shares.
    Shares,
    // 11 to 14: a value to write as that type.
    Write(DataType),
}

// A field, where its value begins, and where the next field begins. No entry: an unknown tag, a wrong length or a cut field.
#[derive(Clone, Copy)]
pub struct Placed {
    pub entry: Option<Entry>,
    pub from: usize,
    pub next: usize,
}

// Two bytes as a number, high byte first; walk's is private and 32 bits wide, and one line is no longer than a call of it.
#[tactic(auto, unfolding(walk::specs::Field::pair_at))]
fn pair(high: u8, low: u8) -> usize
    ensures { result ≡ pair_at high low }
{
    usize::from(u16::from_be_bytes([high, low]))
}

// A value to write has five bytes.
fn to_write(t: DataType, len: usize) -> Option<Entry>
    ensures { result ≡ to_write t len }
{
    (len == 5).then_some(Entry::Write(t))
}

#[tactic(auto, unfolding(crate::specs::Field::entry_of))]
fn entry_of(tag: u8, len: usize) -> Option<Entry>
    ensures { result ≡ entry_of tag len }
{
    match tag {
        0x01 => Some(Entry::Read(DataType::Bcd)),
        0x02 => Some(Entry::Read(DataType::Data1c)),
        0x03 => Some(Entry::Read(DataType::Data2b)),
        0x04 => Some(Entry::Read(DataType::Data2c)),
        0x05 => Some(Entry::Shares),
        0x11 => to_write(DataType::Bcd, len),
        0x12 => to_write(DataType::Data1c, len),
        0x13 => to_write(DataType::Data2b, len),
        0x14 => to_write(DataType::Data2c, len),
        _ => None,
    }
}

// Behind a cut field nothing is left.
fn no_field(length: usize) -> Placed
    ensures { result ≡ no_field length }
{
    Placed {
        entry: None,
        from: length,
        next: length,
    }
}

// The field that begins at a place. Beside walk's: what a tag says, where a value lies and what follows a cut field all differ.
#[tactic(auto, unfolding(crate::specs::Field::field_at))]
pub fn field_at(s: &[u8], at: usize) -> Placed
    ensures { result ≡ field_at s.now at }
{
    let n = s.len();
    if n < 3 || n - 3 < at {
        return no_field(n);
    }
    let len = pair(s[at + 1], s[at + 2]);
    let from = at + 3;
    if n - from < len {
        return no_field(n);
    }
    Placed {
        entry: entry_of(s[at], len),
        from,
        next: from + len,
    }
}
