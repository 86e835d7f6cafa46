// The stars of a catalogue as numbers, decoded once and lent from there.
ghost use Rattle.std.specs.Prelude.{◌≡◌, ◌≤◌, take};
ghost use Rattle.catalogue.specs.Stars.{stars_of};

// The stars, x, y and z of each in turn, with zeros behind the last.
#[derive(Drop)]
pub struct Stars {
    numbers: [i32; 1536],
    count: usize,
    ghost inside: { count ≤ 1536 },
}

impl Stars {
    // Those of a catalogue.
    pub fn of(bytes: &[u8]) -> Stars
        ensures { take result.count result.numbers ≡ stars_of bytes.now }
    {
        // Filled where it stands: an array of its own would be copied into it.
        let mut stars = Stars {
            numbers: [0; 1536],
            count: 3 * crate::stars_in(bytes),
        };
        crate::fill(bytes, &mut stars.numbers);
        stars
    }

    // All of them, three numbers each.
    pub fn all(&self) -> &[i32]
        ensures { result.now ≡ take self.now.count self.now.numbers }
    {
        &self.numbers[..self.count]
    }
}
