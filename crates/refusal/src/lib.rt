// Number and place of a refusal: document 01's table. A later number is one constant here, one in specs/Numbers, its place in both lists, and
// a row where it is given.
#![tactic(auto)]

ghost use Rattle.std.specs.Prelude.{◌≡◌};
ghost use Rattle.refusal.specs.Numbers.{in_order};
ghost use Rattle.refusal.specs.Table.{refusal_of};
ghost use Rattle.refusal.specs.Table.{otherwise as first_refusal};

// The width or the height of the frame is out of range.
pub const SIZE: u32 = 1;
// The samples lent are not width x height.
pub const SAMPLES: u32 = 2;
// The threshold is out of range.
pub const THRESHOLD: u32 = 3;
// A sample is above 4,095; the place is the first such sample's.
pub const SAMPLE: u32 = 4;
// The centre or a position handed in is out of range.
pub const SETTINGS: u32 = 5;
// The catalogue's length is no multiple of a record's, or not that of 1 to 512 records.
pub const CATALOGUE: u32 = 6;
// A record breaks its rule; the place is the first such record's.
pub const RECORD: u32 = 7;
// The direction list is not in threes, has more than 8, or a component is out of range; or a vector's component is.
pub const DIRECTIONS: u32 = 8;
// The needed count or the tolerance is out of range.
pub const DEMAND: u32 = 9;
// The lent ranking room is too short.
pub const ROOM: u32 = 10;
// The ranking read has the wrong length, or an entry that is out of range or repeated; the place is the first such entry's.
pub const RANKING: u32 = 11;
// Fewer directions than needed.
pub const FEW: u32 = 12;
// No assignment fits.
pub const NO_FIT: u32 = 13;
// The two stars are too close, on either side.
pub const CLOSE: u32 = 14;
// The pixel asked for is outside the frame.
pub const PIXEL: u32 = 15;
// The room lent for the index is shorter than the index.
pub const INDEX_ROOM: u32 = 16;
// The index is not the one for this catalogue and floor.
pub const INDEX: u32 = 17;
// The room lent for a burst's records is shorter than the records.
pub const RECORDS_ROOM: u32 = 18;
// A number that the lens plate states is not above zero, or the focal length that they make is out of range.
pub const LENS: u32 = 19;
// The room lent for the list of changes is shorter than the list.
pub const CHANGES_ROOM: u32 = 20;
// Of the catalogue that is to be cut nothing would be kept.
pub const NOTHING_KEPT: u32 = 21;
// The guider's half-width, its guides, or a frame's list is out of range.
pub const GUIDER: u32 = 22;
// A matrix entry handed in is beyond 8 * 10^9.
pub const ENTRY: u32 = 23;

// All of them in the table's order, each the number that specs/Numbers has under its name.
pub fn numbers_in_order() -> [u32; 23]
    ensures { result ≡ in_order }
{
    [
        SIZE,
        SAMPLES,
        THRESHOLD,
        SAMPLE,
        SETTINGS,
        CATALOGUE,
        RECORD,
        DIRECTIONS,
        DEMAND,
        ROOM,
        RANKING,
        FEW,
        NO_FIT,
        CLOSE,
        PIXEL,
        INDEX_ROOM,
        INDEX,
        RECORDS_ROOM,
        LENS,
        CHANGES_ROOM,
        NOTHING_KEPT,
        GUIDER,
        ENTRY,
    ]
}

// Stays: a number and no enum. `at`, `text::refused`, `chain::refused` and `c_numbers::of_refusal` take every number, and `given-refused` is a law over
// all of them.
#[derive(Clone, Copy)]
pub struct Refusal {
    pub number: u32,
    pub place: usize,
}

// A refusal that names a place.
pub fn at(number: u32, place: usize) -> Result<(), Refusal>
    ensures { result ≡ refusal_of number place }
{
    Err(Refusal { number, place })
}

// A refusal that names none: its place is 0.
pub fn plain(number: u32) -> Result<(), Refusal>
    ensures { result ≡ refusal_of number 0 }
{
    at(number, 0)
}

// The first of two outcomes that is a refusal.
pub fn otherwise(first: Result<(), Refusal>, second: Result<(), Refusal>) -> Result<(), Refusal>
    ensures { result ≡ first_refusal first second }
{
    first.and(second)
}
