// The rule of a record: its components, its norm, its magnitude, and its identity above that of the record before.
ghost use Rattle.std.specs.Prelude.{◌≡◌, ◌<◌, MatchOption};
ghost use Rattle.catalogue.specs.Format.{records_in};
ghost use Rattle.catalogue.specs.Rule.{direction_ok, magnitude_ok, star_ok, identity_rises, record_ok};
ghost use Rattle.catalogue.specs.Check.{broken_of};

use crate::format::Record;

// How far from 0 a component may lie.
const LARGEST: u64 = 1000000000;

// What the sum of a direction's squares is to be.
const SQUARE_SUM: i64 = 1000000000000000000;

// How far from that it may lie.
const SLACK: u64 = 4000000000;

// The magnitudes, in thousandths, of the brightest and the faintest star that there may be.
const BRIGHTEST: i32 = -2000;

const FAINTEST: i32 = 12000;

// Whether three numbers are a star's direction.
fn direction_ok(x: i64, y: i64, z: i64) -> bool
    ensures { result ≡ direction_ok x y z }
{
    if !numbers::within(x, LARGEST) {
        return false;
    }
    if !numbers::within(y, LARGEST) {
        return false;
    }
    if !numbers::within(z, LARGEST) {
        return false;
    }
    let zz = z * z;
    numbers::within(x * x + y * y + zz - SQUARE_SUM, SLACK)
}

// Whether a star may have this magnitude.
#[tactic(auto, unfolding(crate::specs::Rule::magnitude_ok))]
fn magnitude_ok(m: i32) -> bool
    ensures { result ≡ magnitude_ok m }
{
    BRIGHTEST <= m && m <= FAINTEST
}

// Whether a record keeps what it has to keep by itself.
fn star_ok(star: Record) -> bool
    ensures { result ≡ star_ok star.entry.bytes.now star.entry.i }
{
    let x = i64::from(star.component(0));
    let y = i64::from(star.component(1));
    let z = i64::from(star.component(2));
    direction_ok(x, y, z) && magnitude_ok(star.magnitude())
}

// Whether a record's identity is above that of the record before it, if there is one.
#[tactic(auto, using(crate::specs::RuleSteps::rises_next))]
fn identity_rises(star: Record) -> bool
    ensures { result ≡ identity_rises star.entry.bytes.now star.entry.i }
{
    if star.i == 0 {
        return true;
    }
    let before = Record {
        bytes: star.bytes,
        i: star.i - 1,
    };
    before.identity() < star.identity()
}

// Whether a record keeps its rule.
#[tactic(auto, unfolding(crate::specs::Rule::record_ok))]
fn record_ok(star: Record) -> bool
    ensures { result ≡ record_ok star.entry.bytes.now star.entry.i }
{
    star_ok(star) && identity_rises(star)
}

// The first record that breaks its rule, if one does.
pub(crate) fn first_broken(bytes: &[u8]) -> Option<usize>
    ensures { MatchOption result (broken_of bytes.now ≡ records_in bytes.now)
        (λ p. (p ≡ broken_of bytes.now) × (p < records_in bytes.now)) }
{
    for i in 0..crate::records(bytes) {
        if !record_ok(Record { bytes, i }) {
            return Some(i);
        }
    }
    None
}
