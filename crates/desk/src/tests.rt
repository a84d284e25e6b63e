// A reader and a writer that give and take little at a time, or fail.
use crate::Failure;
use std::io;
use std::io::{ErrorKind, Read, Write};

// Two stations and a telegram with its answer, 22 slots.
const SCENARIO: [u8; 27] = [
    0x01, 0x00, 0x01, 0x10, 0x02, 0x00, 0x01, 0x08, 0x03, 0x00, 0x04, 0x08, 0x50, 0x02, 0x64, 0x04,
    0x00, 0x04, 0x10, 0x08, 0x50, 0x02, 0x05, 0x00, 0x02, 0x00, 0x16,
];

// Its lines, as the bench's stored run has them.
const OUTPUT: &[u8] =
    b"ebus bench\n11 10 owns\n17 10 taken\n17 08 given 10 50 02 00\n21 08 taken\n21 10 answer 08 01 64\n22 10 free 11\nend 22\n";

// Gives a byte at a time, and fails where it has none left if it is broken.
#[derive(Drop)]
struct Drops<'a> {
    left: &'a [u8],
    broken: bool,
}

impl Read for Drops<'_> {
    fn read(&mut self, buf: &mut [u8]) -> io::Result<usize> {
        if buf.is_empty() {
            return Ok(0);
        }
        match self.left.split_first() {
            Some((first, left)) => {
                buf[0] = *first;
                self.left = left;
                Ok(1)
            }
            None if self.broken => Err(io::Error::from(ErrorKind::BrokenPipe)),
            None => Ok(0),
        }
    }
}

// Takes a byte at a time, and fails when it is full.
#[derive(Drop)]
struct Narrow {
    bytes: [u8; 256],
    used: usize,
    room: usize,
}

impl Write for Narrow {
    fn write(&mut self, buf: &[u8]) -> io::Result<usize> {
        if buf.is_empty() {
            return Ok(0);
        }
        if self.used < self.room && self.used < self.bytes.len() {
            self.bytes[self.used] = buf[0];
            self.used += 1;
            Ok(1)
        } else {
            Err(io::Error::from(ErrorKind::StorageFull))
        }
    }

    fn flush(&mut self) -> io::Result<()> {
        Ok(())
    }
}

fn room_for(room: usize) -> Narrow {
    Narrow {
        bytes: [0; 256],
        used: 0,
        room,
    }
}

fn dripping(left: &[u8], broken: bool) -> Drops<'_> {
    Drops { left, broken }
}

#[test]
fn plays_byte_by_byte(rt: HostRuntime) {
    let mut to = room_for(256);
    assert!(rt; crate::play(&mut dripping(&SCENARIO, false), &mut to).is_ok());
    assert!(rt; to.used <= 256);
    assert!(rt; &to.bytes[..to.used] == OUTPUT);
}

#[test]
fn a_broken_reader_plays_nothing(rt: HostRuntime) {
    let mut to = room_for(256);
    let done = crate::play(&mut dripping(&SCENARIO, true), &mut to);
    assert!(rt;
        matches!(done, Err(Failure::Input(error)) if error.kind() == ErrorKind::BrokenPipe)
    );
    assert_eq!(rt; to.used, 0);
}

#[test]
fn a_full_writer_ends_the_run(rt: HostRuntime) {
    let mut to = room_for(12);
    let done = crate::play(&mut dripping(&SCENARIO, false), &mut to);
    assert!(rt;
        matches!(done, Err(Failure::Output(error)) if error.kind() == ErrorKind::StorageFull)
    );
    assert_eq!(rt; to.used, 12);
}
