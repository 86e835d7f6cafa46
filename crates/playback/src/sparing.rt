// A reader round another, which is not asked for nothing: the programs put it round their file.
ghost use Rattle.std.specs.Prelude.{◌≡◌, length, Ok};
ghost use Rattle.std.specs.Io.{ReadsAtMost};
ghost use Rattle.std.specs.Io.KnownBytes.{ReadConsumes};

use std::io;
use std::io::Read;

// Where there is no room, the reader behind it is left alone: behind a room that is full `fill` asks once more, which of a file would be a call of the system.
#[derive(Drop)]
pub struct Sparing<R> {
    pub inner: R,
}

impl<R: Read> Read for Sparing<R> {
    ghost remaining = { λ s. R.remaining s.inner };

    fn read(&mut self, room: &mut [u8]) -> io::Result<usize>
        ensures bound { ReadsAtMost result room.new }
        ensures bytes { ReadConsumes (R.remaining self.old.inner) (R.remaining self.new.inner) result room.new }
        ensures nothing_asked { length room.old ≡ 0 → (result ≡ Ok 0) × (self.new ≡ self.old) }
    {
        if room.is_empty() {
            return Ok(0);
        }
        self.inner.read(room)
    }
}
