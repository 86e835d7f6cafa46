// The guider: up to four guides, each followed from frame to frame in a box around its last position. Its start, and its frame, which sees a list and no other
// part of the frame.
#![tactic(auto)]

ghost use Rattle.std.specs.Prelude.{◌≡◌, true};
ghost use Rattle.guider_rule.specs.Rule.{guider_ok};
ghost use Rattle.guider_rule.specs.Answers.{guided_answer, start_answer, frame_answer};
ghost use Rattle.guider_rule.specs.Calls.{nobody, refused_with, started_of, followed_of, guided_of};

use frame_list::{Listing, Report};
use guider_rule::{Guided, Guider, Sighting};

mod check; // check.rt: the rule of a guider and of a list
mod fresh; // fresh.rt: a guider that has missed nothing
pub mod boxes;

// Refusal 22, with the guider that is handed back.
fn refused(guider: Guider) -> Guided
    ensures { result ≡ refused_with guider }
{
    Guided {
        outcome: refusal::plain(refusal::GUIDER),
        guider,
    }
}

// Refusal 22, and no guider made: it is zeros.
pub fn unmade() -> Guided
    ensures { result ≡ refused_with nobody }
{
    refused(fresh::nobody())
}

// A guider for the first count of these stars.
// Stays: an array with its count beside it. C may lend the numbers of more than four stars, and the rule refuses that count, which no array of four has.
#[tactic(auto, unfolding(guider_rule::specs::Calls::started_of))]
pub fn start(half: u64, stars: [Sighting; 4], count: usize) -> Guided
    ensures value { result ≡ started_of half stars count }
    ensures result_value { guided_answer result ≡ start_answer half stars count }
{
    let guider = fresh::guider_of(half, stars, count);
    if !check::guider_ok(guider) {
        return unmade();
    }
    Guided {
        outcome: Ok(()),
        guider,
    }
}

// The guider after a frame that was accepted.
fn followed(guider: Guider, report: Report) -> Guided
    requires { guider_ok guider ≡ true }
    ensures { result ≡ followed_of guider report }
{
    if !check::list_ok(report) {
        return refused(guider);
    }
    Guided {
        outcome: Ok(()),
        guider: boxes::after(guider, report),
    }
}

// The guider after a frame. Where the call is refused it stays as it was, and a refused frame counts as no frame.
#[tactic(auto, unfolding(guider_rule::specs::Calls::guided_of))]
pub fn frame(guider: Guider, listing: Listing) -> Guided
    ensures value { result ≡ guided_of guider listing }
    ensures result_value { guided_answer result ≡ frame_answer guider listing }
{
    if !check::guider_ok(guider) {
        return refused(guider);
    }
    let seen = listing.outcome;
    match seen {
        Err(_) => Guided {
            outcome: Ok(()),
            guider,
        },
        Ok(()) => followed(guider, listing.report),
    }
}
