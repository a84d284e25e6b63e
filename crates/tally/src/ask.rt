// What the counts are asked, as their user says it: nothing, or a source and a destination in two hex digits each.
#![tactic(auto, using(crate::proofs::AskReads::digit_small), unfolding(crate::specs::Ask::digit_of, crate::specs::Ask::byte_of, crate::specs::Ask::question_of))]

ghost use Rattle.std.specs.Prelude.{◌≡◌, Option};
ghost use Rattle.tally.specs.Ask.{digit_of, byte_of, question_of};

#[derive(Clone, Copy)]
pub enum Question {
    All,
    // Source and destination.
    Pair(u8, u8),
}

// Capital and small letters.
fn digit(c: u8) -> Option<u8>
    ensures { result ≡ digit_of c }
{
    match c {
        b'0'..=b'9' => Some(c - b'0'),
        b'A'..=b'F' => Some(c - b'A' + 10),
        b'a'..=b'f' => Some(c - b'a' + 10),
        _ => None,
    }
}

// Exactly two digits.
fn byte_of(word: &[u8]) -> Option<u8>
    ensures { result ≡ byte_of word.now }
{
    let [high, low] = word else {
        return None;
    };
    Some(digit(*high)? * 16 + digit(*low)?)
}

// Of two words; `None` where one of them cannot be read.
pub fn question_of(first: &[u8], second: &[u8]) -> Option<Question>
    ensures { result ≡ question_of first.now second.now }
{
    Some(Question::Pair(byte_of(first)?, byte_of(second)?))
}
