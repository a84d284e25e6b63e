// The form of a whole sheet: 15 a file too long, 14 with the offset of the first field that is no field.
ghost use Rattle.std.specs.Prelude.{◌≡◌};
ghost use Rattle.sheet.specs.Form.{form_of};

use crate::field;
use walk::form::{FormError, MOST};

// No loop shared with `walk::form`: a trait (where a field ends, with its law), two impls and a lemma on each `form_from` are more than this.
#[tactic(auto, using(crate::proofs::Fields::past), unfolding(crate::specs::Form::form_of))]
pub fn form_of(s: &[u8]) -> Result<(), FormError>
    ensures { result ≡ form_of s.now }
{
    if MOST < s.len() {
        return Err(FormError::TooLong);
    }
    let mut at = 0;
    // Not a range: each field says where the next one begins.
    while at < s.len() {
        let field = field::field_at(s, at);
        if field.entry.is_none() {
            return Err(FormError::BadField(at as u32));
        }
        at = field.next;
    }
    Ok(())
}
