// What plays the recorded calls, which are its methods: where their lines go, the file that they stand in, and the rooms that they are lent.
use playback::Sparing;
use std::fs::File;

// A room for each of the large buffers, and `bytes` for one whose numbers are not yet taken from it.
#[derive(Drop)]
pub struct Player<'a, P> {
    pub rt: &'a P,
    pub file: Sparing<File>,
    pub bytes: &'a mut [u8],
    pub samples: &'a mut [u16],
    pub stars: &'a mut [u8],
    pub index: &'a mut [u8],
    pub ranking: &'a mut [u16],
}
