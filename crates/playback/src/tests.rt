// What becomes of the words where a read is interrupted, which no clause says.
use crate::{Sparing, word};
use std::io;
use std::io::Read;

// The words 3 and 2, read from memory. The read of one number is interrupted, counted from 1.
#[derive(Drop)]
struct Interrupted<'a> {
    words: &'a [u8],
    reads: u8,
    number: u8,
}

impl Interrupted<'_> {
    fn at(number: u8) -> Interrupted<'static> {
        Interrupted {
            words: b"\0\0\0\0\0\0\0\x03\0\0\0\0\0\0\0\x02",
            reads: 0,
            number,
        }
    }
}

impl Read for Interrupted<'_> {
    fn read(&mut self, room: &mut [u8]) -> io::Result<usize> {
        self.reads = self.reads.saturating_add(1);
        if self.reads == self.number {
            return Err(io::Error::from(io::ErrorKind::Interrupted));
        }
        self.words.read(room)
    }
}

// The read of the word is then at its end. Behind a word that was read at once one read more is made, for no bytes, and what it says is passed over.
#[test]
fn interrupted_words(rt: HostRuntime) {
    for (number, first, second) in [(0, 3, 2), (1, 0, 3), (2, 3, 2), (3, 3, 0), (4, 3, 2)] {
        let mut file = Interrupted::at(number);
        assert_eq!(rt; word(&mut file), first, "first word, read {number}");
        assert_eq!(rt; word(&mut file), second, "second word, read {number}");
    }
}

// Behind `Sparing` no read for no bytes is made.
#[test]
fn interrupted_words_of_a_program(rt: HostRuntime) {
    for (number, first, second) in [(0, 3, 2), (1, 0, 3), (2, 3, 0), (3, 3, 2)] {
        let inner = Interrupted::at(number);
        let mut file = Sparing { inner };
        assert_eq!(rt; word(&mut file), first, "first word, read {number}");
        assert_eq!(rt; word(&mut file), second, "second word, read {number}");
        assert_eq!(rt; file.inner.reads, 2, "reads, read {number}");
    }
}
