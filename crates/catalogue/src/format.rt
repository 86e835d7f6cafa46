// The format of a record: words of four bytes, high byte first.
ghost use Rattle.std.specs.Prelude.{◌≡◌, ◌+◌, ◌*◌, ◌<◌, ◌≤◌, length};
ghost use Rattle.words.specs.Number.{number_at};
ghost use Rattle.catalogue.specs.Format.{record_size, signed_of, identity_of, component_of, magnitude_of};

use crate::RECORD_SIZE;

// Record i of a catalogue's bytes.
#[derive(Clone, Copy)]
pub(crate) struct Record<'a> {
    pub(crate) bytes: &'a [u8],
    pub(crate) i: usize,
    ghost whole: { record_size * i + record_size ≤ length bytes.now },
}

// The word from a place on, read as a signed number.
#[tactic(auto, unfolding(crate::specs::Format::signed_of))]
fn signed_at(bytes: &[u8], at: usize) -> i32
    requires { at + 4 ≤ length bytes.now }
    ensures { result ≡ signed_of (number_at bytes.now at 4) }
{
    words::u32_at(bytes, at).cast_signed()
}

impl Record<'_> {
    #[tactic(auto, unfolding(crate::specs::Format::identity_of))]
    pub(crate) fn identity(self) -> u32
        ensures { result ≡ identity_of self.entry.bytes.now self.entry.i }
    {
        words::u32_at(self.bytes, RECORD_SIZE * self.i)
    }

    // Component 0, 1 or 2: x, y or z.
    #[tactic(auto, unfolding(crate::specs::Format::component_of))]
    pub(crate) fn component(self, axis: usize) -> i32
        requires { axis < 3 }
        ensures { result ≡ component_of self.entry.bytes.now self.entry.i axis }
    {
        signed_at(self.bytes, RECORD_SIZE * self.i + (4 + 4 * axis))
    }

    // The magnitude, in thousandths.
    #[tactic(auto, unfolding(crate::specs::Format::magnitude_of))]
    pub(crate) fn magnitude(self) -> i32
        ensures { result ≡ magnitude_of self.entry.bytes.now self.entry.i }
    {
        signed_at(self.bytes, RECORD_SIZE * self.i + 16)
    }
}
