// A float as so many steps of 1 / scale, and so many steps as a float.
ghost use Rattle.std.specs.Prelude.{◌≡◌};
ghost use Rattle.value.specs.Steps.{steps_of, size_of, count_of};

// How many steps a float is, with its sign.
#[derive(Clone, Copy)]
pub enum Count {
    Up(u32),
    Down(u32),
}

#[tactic(auto, unfolding(crate::specs::Steps::steps_of))]
pub(crate) fn steps(n: u32, scale: f32) -> f32
    ensures { result ≡ steps_of scale n }
{
    std::num::nearest_u32_to_f32(n) / scale
}

// How many steps a float that is not below zero is.
// Product and cut only find a candidate; that it is right is decided by the last test, which takes it back.
fn size_of(x: f32, scale: f32) -> Option<u32>
    ensures { result ≡ size_of scale x }
{
    let y = x * scale;
    if y > -1.0 && y < 18446744073709551616.0 {
        let m = std::num::truncating_f32_to_u64(y);
        if m < 16777216 && steps(m as u32, scale) == x {
            return Some(m as u32);
        }
    }
    None
}

// None for a float between two steps. Minus zero is not below zero: it is no steps up.
pub fn count_of(x: f32, scale: f32) -> Option<Count>
    ensures { result ≡ count_of scale x }
{
    if x < 0.0 {
        Some(Count::Down(size_of(-x, scale)?))
    } else {
        Some(Count::Up(size_of(x, scale)?))
    }
}
