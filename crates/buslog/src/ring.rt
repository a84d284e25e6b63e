// The ring: bytes one behind the other from the oldest on, past the buffer's end at its start. The readers are lent the buffer by `&` and the
// writers by `&mut`, so one struct of log and buffer would not serve both: the buffer is passed beside the log.
ghost use Rattle.std.specs.Prelude.{◌≡◌, [], ◌∷◌};
ghost use Rattle.buslog.specs.Ring.{ring, place_of, byte_at, size_of_oldest, without, is_short, room_for, pushed};

use crate::log::Log;

impl Log {
    // Where the byte lies that stands k places behind the oldest: past the buffer's end it goes on at its start.
    fn place(self, k: usize) -> usize
        ensures { result ≡ place_of self k }
    {
        let ahead = self.room.saturating_sub(self.start);
        if k < ahead { self.start + k } else { k - ahead }
    }

    pub(crate) fn byte_at(self, bytes: &[u8], k: usize) -> u8
        ensures { result ≡ byte_at (ring bytes.now self) k }
    {
        bytes.get(self.place(k)).copied().unwrap_or(0)
    }

    // Tag, two bytes of length, and as many as they say, but never more than are held.
    pub(crate) fn size_of_oldest(self, bytes: &[u8]) -> usize
        ensures { result ≡ size_of_oldest (ring bytes.now self) }
    {
        let size = u16::from_be_bytes([self.byte_at(bytes, 1), self.byte_at(bytes, 2)]);
        laws::at_most(3 + usize::from(size), self.held)
    }

    // The oldest n bytes go.
    pub(crate) fn without(self, n: usize) -> Log
        ensures { result ≡ without self n }
    {
        Log {
            start: self.place(n),
            held: self.held.saturating_sub(n),
            room: self.room,
        }
    }

    pub(crate) fn drop_oldest(&mut self, bytes: &[u8])
        ensures { self.new ≡ without self.old (size_of_oldest (ring bytes.now self.old)) }
    {
        *self = self.without(self.size_of_oldest(bytes));
    }

    // Whether n bytes more do not fit, while records are held that could go.
    fn is_short(self, n: usize) -> bool
        ensures { result ≡ is_short self n }
    {
        self.held != 0 && self.room.saturating_sub(self.held) < n
    }

    // The oldest whole records go until n bytes more fit.
    pub(crate) fn make_room(&mut self, bytes: &[u8], n: usize)
        ensures { self.new ≡ room_for n bytes.now self.old }
    {
        // No `for`: how many go is not known before.
        while self.is_short(n) {
            self.drop_oldest(bytes);
        }
    }

    // One byte more behind the newest; a full log stays as it is.
    fn put(&mut self, bytes: &mut [u8], b: u8)
        ensures { ring bytes.new self.new ≡ pushed (ring bytes.old self.old) (b ∷ []) }
    {
        let at = self.place(self.held);
        if self.held < self.room && at < bytes.len() {
            bytes[at] = b;
            self.held += 1;
        }
    }

    // Some bytes more.
    pub(crate) fn put_all(&mut self, bytes: &mut [u8], more: &[u8])
        ensures { ring bytes.new self.new ≡ pushed (ring bytes.old self.old) more.now }
    {
        for b in more {
            self.put(bytes, *b);
        }
    }
}
