// The log beside its buffer: set up, emptied, and which buffer is its own.
ghost use Rattle.std.specs.Prelude.{◌≡◌, length};
ghost use Rattle.buslog.specs.Log.{fresh_for, within_limits, set_up_for, is_of, emptied};
ghost use Rattle.buslog.specs.Ring.{ring};
ghost use Rattle.buslog.specs.Note.{kept, note_in};
ghost use Rattle.buslog.specs.Read.{copying, read_into, record_into};

use bus::bus::Bus;

#[derive(Clone, Copy)]
pub struct Log {
    // Where the oldest record begins.
    pub start: usize,
    // How many bytes are held.
    pub held: usize,
    // The length of the buffer for which it was set up.
    pub room: usize,
}

// 16: the buffer's length is outside the limits.
#[derive(Clone, Copy, PartialEq, Eq, Debug)]
pub struct BadLength;

// A later call was lent a buffer of another length than at set-up.
#[derive(Clone, Copy, PartialEq, Eq, Debug)]
pub struct OtherLength;

// Why nothing was copied.
#[derive(Clone, Copy, PartialEq, Eq, Debug)]
pub enum ReadError {
    OtherLength,
    // There is no such record.
    NoRecord,
    // The record does not fit into the buffer that it was to be copied into.
    NoRoom,
}

fn fresh(room: usize) -> Log
    ensures { result ≡ fresh_for room }
{
    Log {
        start: 0,
        held: 0,
        room,
    }
}

fn within_limits(n: usize) -> bool
    ensures { result ≡ within_limits n }
{
    Log::FEWEST <= n && n <= Log::MOST
}

impl Log {
    pub const FEWEST: usize = 64;

    pub const MOST: usize = 65536;

    pub fn set_up(bytes: &[u8]) -> Result<Log, BadLength>
        ensures { result ≡ set_up_for (length bytes.now) }
    {
        let n = bytes.len();
        if within_limits(n) {
            Ok(fresh(n))
        } else {
            Err(BadLength)
        }
    }

    // Whether it was set up for a buffer of this length; a log that no set-up made has no buffer.
    pub fn is_of(self, n: usize) -> bool
        ensures { result ≡ is_of self n }
    {
        self.room == n && within_limits(n) && self.start < n && self.held <= n
    }

    pub fn emptied(self) -> Log
        ensures { result ≡ emptied self }
    {
        fresh(self.room)
    }

    // Notes what a slot told.
    pub fn note(&mut self, bytes: &mut [u8], b: Bus) -> Result<(), OtherLength>
        ensures { kept (ring bytes.new self.new) result ≡ note_in (ring bytes.old self.old) b }
    {
        if !self.is_of(bytes.len()) {
            return Err(OtherLength);
        }
        self.note_slot(bytes, b);
        Ok(())
    }

    // Copies the records, oldest first, as far as whole ones fit, and says how many bytes they have.
    pub fn read(self, bytes: &[u8], out: &mut [u8]) -> Result<usize, ReadError>
        ensures { copying out.new result ≡ read_into (ring bytes.now self) out.old }
    {
        if !self.is_of(bytes.len()) {
            return Err(ReadError::OtherLength);
        }
        let n = self.fitting(bytes, out.len());
        self.copy(bytes, n, out);
        Ok(n)
    }

    // Copies the k-th record, counted from 0, the oldest, and says how many bytes it has.
    pub fn record(self, bytes: &[u8], k: usize, out: &mut [u8]) -> Result<usize, ReadError>
        ensures { copying out.new result ≡ record_into (ring bytes.now self) k out.old }
    {
        if !self.is_of(bytes.len()) {
            return Err(ReadError::OtherLength);
        }
        self.after(bytes, k).oldest(bytes, out)
    }
}
