// Records copied out of the ring, oldest first and whole. A walk over the records is a log of what is left to walk.
ghost use Rattle.std.specs.Prelude.{◌≡◌, set};
ghost use Rattle.std.proofs.lemmas.List.Edits.{sets};
ghost use Rattle.buslog.specs.Ring.{ring, bytes_from};
ghost use Rattle.buslog.specs.Read.{copying, fitting_in, rest_after, oldest_into};

use crate::log::{Log, ReadError};

// A byte at a place of the buffer; past its end there is none.
fn lay(out: &mut [u8], i: usize, b: u8)
    ensures { out.new ≡ set out.old i b }
{
    if i < out.len() {
        out[i] = b;
    }
}

impl Log {
    // How many bytes the records take, from the oldest on, as far as whole ones fit into n.
    pub(crate) fn fitting(self, bytes: &[u8], n: usize) -> usize
        ensures { result ≡ fitting_in bytes.now n self }
    {
        let mut rest = self;
        let mut used = 0;
        // No `for`: each record says how long it is.
        while 0 < rest.held {
            let size = rest.size_of_oldest(bytes);
            if n - used < size {
                return used;
            }
            used += size;
            rest = rest.without(size);
        }
        used
    }

    // What is left behind k records.
    pub(crate) fn after(self, bytes: &[u8], k: usize) -> Log
        ensures { result ≡ rest_after k bytes.now self }
    {
        let mut rest = self;
        for _ in 0..k {
            if rest.held == 0 {
                return rest;
            }
            rest.drop_oldest(bytes);
        }
        rest
    }

    // The first n bytes that are held, as far as there is room for them.
    pub(crate) fn copy(self, bytes: &[u8], n: usize, out: &mut [u8])
        ensures { out.new ≡ sets out.old 0 (bytes_from (ring bytes.now self) 0 n) }
    {
        // By number: it is the place in the ring and in `out`; the definition `sets` is total past `out`'s end, as `lay` is.
        for i in 0..n {
            lay(out, i, self.byte_at(bytes, i));
        }
    }

    // The oldest record, whole.
    pub(crate) fn oldest(self, bytes: &[u8], out: &mut [u8]) -> Result<usize, ReadError>
        ensures { copying out.new result ≡ oldest_into (ring bytes.now self) out.old }
    {
        if self.held == 0 {
            return Err(ReadError::NoRecord);
        }
        let n = self.size_of_oldest(bytes);
        if out.len() < n {
            return Err(ReadError::NoRoom);
        }
        self.copy(bytes, n, out);
        Ok(n)
    }
}
