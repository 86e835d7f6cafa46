// What each call of the frame hands over.
ghost use Rattle.std.specs.Prelude.{◌≡◌};
ghost use Rattle.frame_list.specs.Stars.{nought as nought_of};
ghost use Rattle.c_numbers.specs.Numbers.{accepted_numbers};
ghost use Rattle.c_interface.specs.frame.Frame.{centroid_in, judged_numbers, verdict_numbers, report_numbers, listing_numbers};
ghost use Rattle.c_interface.specs.frame.Reason.{reason_numbers, explanation_numbers};

use c_numbers::{of_outcome, of_refusal, put_star, put_stars};
use frame_centroid::Centroid;
use frame_list::{Listing, Report};
use frame_reason::Reason;
use frame_verdict::{Kind, Verdict};
use numbers::signed;
use refusal::Refusal;

// Where the numbers of a verdict stand, of a reason, and of a frame's list before its stars.
const ROW: usize = 2;

const COLUMN: usize = 3;

const KIND: usize = 4;

const CENTROID: usize = 5;

const REASON: usize = 2;

const FIRST: usize = 3;

const SECOND: usize = 4;

const THIRD: usize = 5;

const COUNT: usize = 2;

const MEASURED: usize = 3;

const EDGE: usize = 4;

const LONE: usize = 5;

fn nought() -> Centroid
    ensures { result ≡ nought_of }
{
    Centroid {
        x: 0,
        y: 0,
        brightness: 0,
    }
}

// The position and brightness of a measured pixel, and zeros for any other.
fn centroid_in(kind: Kind) -> Centroid
    ensures { result ≡ centroid_in kind }
{
    match kind {
        Kind::Dark | Kind::Beaten | Kind::Edge | Kind::Lone => nought(),
        Kind::Measured(centroid) => centroid,
    }
}

fn of_judged(verdict: Verdict) -> [i64; 64]
    ensures { result ≡ judged_numbers verdict }
{
    let mut flat = [0; 64];
    flat[ROW] = signed(verdict.row as u64);
    flat[COLUMN] = signed(verdict.column as u64);
    flat[KIND] = signed(u64::from(frame_verdict::kind_number(verdict.kind)));
    put_star(&mut flat, CENTROID, centroid_in(verdict.kind));
    flat
}

pub(crate) fn of_verdict(judgement: Result<Verdict, Refusal>) -> [i64; 64]
    ensures { result ≡ verdict_numbers judgement }
{
    judgement.map_or_else(of_refusal, of_judged)
}

fn of_reason(reason: Reason) -> [i64; 64]
    ensures { result ≡ reason_numbers reason }
{
    let values = frame_reason::values_of(reason);
    let mut flat = [0; 64];
    flat[REASON] = signed(u64::from(frame_reason::reason_number(reason)));
    flat[FIRST] = signed(values.first);
    flat[SECOND] = signed(values.second);
    flat[THIRD] = signed(values.third);
    flat
}

pub(crate) fn of_explanation(explanation: Result<Reason, Refusal>) -> [i64; 64]
    ensures { result ≡ explanation_numbers explanation }
{
    explanation.map_or_else(of_refusal, of_reason)
}

// A frame's list: how many stars it has, the three counts, and the stars.
pub fn of_report(report: Report) -> [i64; 64]
    ensures { result ≡ accepted_numbers (report_numbers report) }
{
    let mut flat = [0; 64];
    flat[COUNT] = signed(report.count as u64);
    flat[MEASURED] = signed(report.measured as u64);
    flat[EDGE] = signed(report.edge as u64);
    flat[LONE] = signed(report.lone as u64);
    put_stars(&mut flat, report.stars);
    flat
}

pub(crate) fn of_listing(listing: Listing) -> [i64; 64]
    ensures { result ≡ listing_numbers listing }
{
    of_outcome(listing.outcome, of_report(listing.report))
}
