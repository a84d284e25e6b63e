// One field of a scenario: one-byte tag, two-byte length (high byte first), value.
ghost use Rattle.std.specs.Prelude.{◌≡◌, ◌+◌, ◌<◌, ◌^◌};
ghost use Rattle.walk.specs.Field.{byte_at, pair_at, value_of, field_at};

#[derive(Clone, Copy)]
pub enum Field {
    // 01 master address; 02 slave address.
    Master(u8),
    Slave(u8),
    // 03 slave address, PB, SB, data; 04 QQ, ZZ, PB, SB, data. The data lie from `from` to the field's end.
    Reply {
        slave: u8,
        pb: u8,
        sb: u8,
        from: usize,
    },
    Queue {
        qq: u8,
        zz: u8,
        pb: u8,
        sb: u8,
        from: usize,
    },
    // 05 run undisturbed slots; 06 one slot heard as the given symbol; 07 one slot heard quiet.
    Run(u32),
    Heard(u8),
    Quiet,
}

// A field, and where the next one begins; no field where the tag is unknown, the length wrong or the field cut.
#[derive(Clone, Copy)]
pub struct Placed {
    pub field: Option<Field>,
    pub next: usize,
}

// The byte at a place, and 0 past the end.
#[tactic(auto, unfolding(crate::specs::Field::byte_at))]
fn byte_at(s: &[u8], at: usize) -> u8
    ensures { result ≡ byte_at s.now at }
{
    s.get(at).copied().unwrap_or(0)
}

// Two bytes as a number, high byte first.
#[tactic(auto, unfolding(crate::specs::Field::pair_at))]
fn pair(high: u8, low: u8) -> u32
    ensures { result ≡ pair_at high low }
{
    u32::from(u16::from_be_bytes([high, low]))
}

// The value of a tag, `len` bytes from `at` on.
#[tactic(auto, unfolding(crate::specs::Field::value_of))]
fn value(s: &[u8], tag: u8, at: usize, len: u32) -> Option<Field>
    requires { at + 4 < 2 ^ 64 }
    ensures { result ≡ value_of s.now tag at len }
{
    Some(match tag {
        0x01 if len == 1 => Field::Master(byte_at(s, at)),
        0x02 if len == 1 => Field::Slave(byte_at(s, at)),
        0x03 if 3 <= len => Field::Reply {
            slave: byte_at(s, at),
            pb: byte_at(s, at + 1),
            sb: byte_at(s, at + 2),
            from: at + 3,
        },
        0x04 if 4 <= len => Field::Queue {
            qq: byte_at(s, at),
            zz: byte_at(s, at + 1),
            pb: byte_at(s, at + 2),
            sb: byte_at(s, at + 3),
            from: at + 4,
        },
        0x05 if len == 2 => Field::Run(pair(byte_at(s, at), byte_at(s, at + 1))),
        0x06 if len == 1 => Field::Heard(byte_at(s, at)),
        0x07 if len == 0 => Field::Quiet,
        _ => return None,
    })
}

// The field that begins at a place; none where its tag and length, or its value, run past the end.
#[tactic(auto, unfolding(crate::specs::Field::field_at))]
pub fn field_at(s: &[u8], at: usize) -> Placed
    ensures { result ≡ field_at s.now at }
{
    let cut = Placed {
        field: None,
        next: at,
    };
    if s.len() < 3 || s.len() - 3 < at {
        return cut;
    }
    let len = pair(byte_at(s, at + 1), byte_at(s, at + 2));
    let from = at + 3;
    if s.len() - from < len as usize {
        return cut;
    }
    Placed {
        field: value(s, byte_at(s, at), from, len),
        next: from + len as usize,
    }
}
