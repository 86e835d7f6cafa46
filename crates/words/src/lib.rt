// Unsigned numbers of 2, 4 and 8 bytes in a slice of bytes, high byte first: how they are read and written.
#![tactic(auto)]

ghost use Rattle.std.specs.Prelude.{◌≡◌, ◌+◌, ◌≤◌, length, take, drop};
ghost use Rattle.std.proofs.lemmas.List.Edits.{sets};
ghost use Rattle.words.specs.Number.{number_at};
ghost use Rattle.words.specs.Bytes.{bytes_of};

// The N bytes from a place on.
fn bytes_at<const N: usize>(bytes: &[u8], at: usize) -> [u8; N]
    requires { at + N ≤ length bytes.now }
    ensures { result ≡ take N (drop at bytes.now) }
{
    *bytes[at..at + N].first_chunk().unwrap()
}

// The number of the two bytes from a place on.
#[tactic(auto, using(crate::proofs::Whole::read_2))]
pub fn u16_at(bytes: &[u8], at: usize) -> u16
    requires { at + 2 ≤ length bytes.now }
    ensures { result ≡ number_at bytes.now at 2 }
{
    u16::from_be_bytes(bytes_at(bytes, at))
}

// The number of the four bytes from a place on.
#[tactic(auto, using(crate::proofs::Whole::read_4))]
pub fn u32_at(bytes: &[u8], at: usize) -> u32
    requires { at + 4 ≤ length bytes.now }
    ensures { result ≡ number_at bytes.now at 4 }
{
    u32::from_be_bytes(bytes_at(bytes, at))
}

// The number of the eight bytes from a place on.
#[tactic(auto, using(crate::proofs::Whole::read_8))]
pub fn u64_at(bytes: &[u8], at: usize) -> u64
    requires { at + 8 ≤ length bytes.now }
    ensures { result ≡ number_at bytes.now at 8 }
{
    u64::from_be_bytes(bytes_at(bytes, at))
}

// Writes N bytes from a place on.
#[tactic(auto, using(crate::proofs::Whole::put_sets))]
fn put<const N: usize>(room: &mut [u8], at: usize, bytes: [u8; N])
    requires { at + N ≤ length room.old }
    ensures { room.new ≡ sets room.old at bytes.entry }
{
    room[at..at + N].copy_from_slice(&bytes);
}

// Writes a number as four bytes from a place on.
#[tactic(auto, using(crate::proofs::Whole::bytes_high))]
pub fn put_u32(room: &mut [u8], at: usize, value: u32)
    requires { at + 4 ≤ length room.old }
    ensures { room.new ≡ sets room.old at (bytes_of 4 value) }
{
    put::<4>(room, at, value.to_be_bytes());
}

// Writes a number as eight bytes from a place on.
#[tactic(auto, using(crate::proofs::Whole::bytes_high))]
pub fn put_u64(room: &mut [u8], at: usize, value: u64)
    requires { at + 8 ≤ length room.old }
    ensures { room.new ≡ sets room.old at (bytes_of 8 value) }
{
    put::<8>(room, at, value.to_be_bytes());
}
