// The form of a whole scenario: 15 a file too long, 14 with the offset of the first field that is no field.
ghost use Rattle.std.specs.Prelude.{◌≡◌};
ghost use Rattle.walk.specs.Form.{form_of};

use crate::field;

// Why a file is no scenario.
#[derive(Clone, Copy)]
pub enum FormError {
    // 14, with the offset of its tag.
    BadField(u32),
    // 15
    TooLong,
}

// So many bytes a scenario may have.
pub const MOST: usize = 65536;

pub fn form_of(s: &[u8]) -> Result<(), FormError>
    ensures { result ≡ form_of s.now }
{
    if MOST < s.len() {
        return Err(FormError::TooLong);
    }
    let mut at = 0;
    // No `for`: each field says where the next one begins.
    while at < s.len() {
        let placed = field::field_at(s, at);
        if placed.field.is_none() {
            return Err(FormError::BadField(at as u32));
        }
        at = placed.next;
    }
    Ok(())
}
