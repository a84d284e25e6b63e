// What a code stands for, and the types in which the burners send it.
ghost use Rattle.std.specs.Prelude.{◌≡◌};
ghost use Rattle.value.specs.Value.{is_gone};

#[derive(Clone, Copy)]
pub enum Value {
    Whole(u32),
    Percent(f32),
    Temperature(f32),
    Missing,
}

impl Value {
    pub fn is_missing(self) -> bool
        ensures { result ≡ is_gone self }
    {
        matches!(self, Value::Missing)
    }
}

#[derive(Clone, Copy)]
pub enum DataType {
    // One byte, two decimal digits.
    Bcd,
    // One byte in half percents.
    Data1c,
    // Signed 16 bits in 1/256, low byte first.
    Data2b,
    // Signed 16 bits in 1/16, low byte first.
    Data2c,
}
