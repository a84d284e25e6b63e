// Bytes written one behind the other into a buffer: words, decimal numbers, bytes in two hex digits.
#![tactic(auto, using(crate::proofs::Written::penned_both, crate::proofs::Written::penned_more, crate::proofs::Written::penned_none), unfolding(crate::specs::Pen::blank, crate::specs::Pen::hex_digit, crate::specs::Pen::hex_text, crate::specs::Pen::last_digit, crate::specs::Pen::decimal_text))]

ghost use Rattle.std.specs.Prelude.{◌≡◌, [], ◌∷◌};
ghost use Rattle.scenario.specs.Pen.{blank, rewound, pen, penned, hex_digit, byte_text, hex_text, last_digit, digits_of, decimal_text};

// A page has room for 32 lines of at most 80 bytes: the lines of any slot.
pub const PAGE: usize = 2560;

// The buffer.
pub const ROOM: usize = 65536;

// A buffer and the place behind the last byte written. No Vec: nothing here can run out of memory, and one buffer serves all fills.
#[derive(Drop)]
pub struct Pen {
    pub page: [u8; ROOM],
    pub at: usize,
}

// A byte at a place of the buffer, and the place behind it.
fn laid(page: &mut [u8; ROOM], at: usize, b: u8) -> usize
    ensures { pen page.new result ≡ penned (pen page.old at) (b ∷ []) }
{
    if at < ROOM {
        page[at] = b;
        at + 1
    } else {
        at
    }
}

impl Pen {
    // An empty buffer, to be filled from its start.
    pub fn new() -> Pen
        ensures { result ≡ blank }
    {
        Pen {
            page: [0; ROOM],
            at: 0,
        }
    }

    // Back to the start, for a new fill.
    pub fn rewind(&mut self)
        ensures { self.new ≡ rewound self.old.page }
    {
        self.at = 0;
    }

    // One byte more; a full buffer stays as it is.
    pub fn put(&mut self, b: u8)
        ensures { self.new ≡ penned self.old (b ∷ []) }
    {
        self.at = laid(&mut self.page, self.at, b);
    }

    // The place is kept in a local: in the pen it would be stored and read again for each byte.
    pub fn word(&mut self, s: &[u8])
        ensures { self.new ≡ penned self.old s.now }
    {
        let mut at = self.at;
        for b in s {
            at = laid(&mut self.page, at, *b);
        }
        self.at = at;
    }

    // A byte in two digits. By hand, as `decimal` is: definitions say each byte, and `write!` would answer a Result that cannot fail here.
    pub fn byte(&mut self, b: u8)
        ensures { self.new ≡ penned self.old (byte_text b) }
    {
        self.word(&[hex_digit(b / 16), hex_digit(b)]);
    }

    // A space and a byte.
    pub fn hex(&mut self, b: u8)
        ensures { self.new ≡ penned self.old (hex_text b) }
    {
        self.word(&[b' ', hex_digit(b / 16), hex_digit(b)]);
    }

    #[inline(always)]
    pub fn decimal(&mut self, n: u32)
        ensures { self.new ≡ penned self.old (decimal_text n) }
    {
        // One digit costs no call.
        if n < 10 {
            self.put(last_digit(n));
        } else {
            self.digits(n, 10);
        }
    }

    // The text of n/10, and behind it the last digit of n; `most` digits at most.
    fn digits(&mut self, n: u32, most: u32)
        ensures { self.new ≡ penned self.old (digits_of most n) }
    {
        if 0 < most {
            if 10 <= n {
                self.digits(n / 10, most - 1);
            }
            self.put(last_digit(n));
        }
    }
}

pub fn hex_digit(d: u8) -> u8
    ensures { result ≡ hex_digit d }
{
    let low = d % 16;
    if low < 10 { 48 + low } else { 55 + low }
}

// The last decimal digit of a number.
fn last_digit(n: u32) -> u8
    ensures { result ≡ last_digit n }
{
    48 + (n % 10) as u8
}
