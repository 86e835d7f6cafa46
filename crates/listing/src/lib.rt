// The whole answer to three files, accepted or refused, as bytes in a lent room: the listing of document 01, or the lines about rivals.
#![tactic(auto)]

pub mod lines;
pub mod rival;

ghost use Rattle.std.specs.Prelude.{◌≡◌, ◌≤◌};
ghost use Rattle.chain.specs.Chain.{listed};
ghost use Rattle.text.specs.Room.{room_with, length_in};
ghost use Rattle.text.specs.Written.{Wrote};
ghost use Rattle.listing.specs.Listing.{early, Refuses, Finds, chain_on, samples_in, refused_text, answer_text, listing_text, room_size};
ghost use Rattle.listing.specs.Asked.{most_of, lines_of, asked_text};
ghost use Rattle.listing.specs.Listing.{found as words_found};

use chain::Settings;
use frame_list::Report;
use refusal::Refusal;

// The bytes that a room for any answer has.
pub const ROOM: usize = 2048;

// What is asked: the listing, or the first rival of the names that it shows.
// Stays: an enum and no closure: the definitions `lines_of`, `most_of` and `asked_text` and the edit listing_for_the_rival speak of it.
#[derive(Clone, Copy)]
pub enum Asked {
    Listing,
    Rival,
}

// What the chain is handed: a frame's samples, a catalogue, and the settings.
#[derive(Clone, Copy)]
pub(crate) struct Input<'a> {
    pub samples: &'a [u16],
    pub catalogue: &'a [u8],
    pub settings: Settings,
}

impl Input<'_> {
    // The frame's list.
    pub(crate) fn report(self) -> Report
        ensures { let i = self.entry in result ≡ (listed (chain_on i.samples.now i.catalogue.now i.settings)).report }
    {
        let s = self.settings;
        let listing = frame_list::list(self.samples, s.width, s.height, s.threshold);
        listing.report
    }
}

// The words that the search had found when the attitude was refused.
fn found(input: Input, refusal: Refusal, ranking: &[u16], count: usize) -> [u16; 8]
    requires { Finds (chain_on input.samples.now input.catalogue.now input.settings) refusal ranking.now count }
    ensures { let i = input.entry in result ≡ words_found (chain_on i.samples.now i.catalogue.now i.settings) }
{
    let words = count * catalogue::records(input.catalogue);
    let names = chain::names(
        input.samples,
        input.catalogue,
        input.settings,
        &ranking[..words],
    );
    names.stars
}

// Whether a refusal came before the frame's list was accepted: all but 12, 13 and 14 do.
fn is_early(number: u32) -> bool
    ensures { result ≡ early number }
{
    if number < refusal::FEW {
        return true;
    }
    refusal::CLOSE < number
}

// The lines of a refused call. With 12, 13 and 14 the frame's list was accepted and stands before the refusal; 14 has names.
fn refused(input: Input, refusal: Refusal, ranking: &[u16], room: &mut [u8]) -> usize
    requires { Refuses (chain_on input.samples.now input.catalogue.now input.settings) refusal ranking.now }
    ensures wrote { let i = input.entry in
        Wrote room.old 0 (refused_text (chain_on i.samples.now i.catalogue.now i.settings) refusal) room.new result }
    ensures upper_bound { result ≤ 972 }
{
    if is_early(refusal.number) {
        return text::refused(room, 0, refusal);
    }
    let report = input.report();
    if refusal.number == refusal::CLOSE {
        let words = found(input, refusal, ranking, report.count);
        let next = lines::report(room, 0, report, Some(words), input.catalogue);
        return text::refused(room, next, refusal);
    }
    let next = lines::report(room, 0, report, None, input.catalogue);
    text::refused(room, next, refusal)
}

// The lines of the chain's answer.
fn answer(input: Input, room: &mut [u8]) -> usize
    ensures wrote { let i = input.entry in
        Wrote room.old 0 (answer_text (chain_on i.samples.now i.catalogue.now i.settings)) room.new result }
    ensures upper_bound { result ≤ 1120 }
{
    let mut ranking = [0u16; 4096];
    let tracked = chain::track(input.samples, input.catalogue, input.settings, &mut ranking);
    match tracked.outcome {
        Err(r) => refused(input, r, &ranking, room),
        Ok(()) => {
            let words = Some(tracked.stars);
            let next = lines::report(room, 0, tracked.report, words, input.catalogue);
            lines::matrix(room, next, tracked.matrix)
        }
    }
}

// The lines of what is asked about a frame.
fn lines_of(asked: Asked, input: Input, room: &mut [u8]) -> usize
    ensures wrote { let i = input.entry in
        Wrote room.old 0 (lines_of asked (chain_on i.samples.now i.catalogue.now i.settings)) room.new result }
    ensures upper_bound { result ≤ most_of asked }
{
    match asked {
        Asked::Listing => answer(input, room),
        Asked::Rival => rival::rivals(input, room),
    }
}

// The lines for settings that were read.
fn listed(
    asked: Asked,
    settings: Settings,
    frame: &[u8],
    catalogue: &[u8],
    room: &mut [u8],
) -> usize
    ensures wrote { Wrote room.old 0 (lines_of asked (chain_on (samples_in frame.now settings) catalogue.now settings))
        room.new result }
    ensures upper_bound { result ≤ most_of asked }
{
    let mut samples = [0u16; 32000];
    let count = files::read_samples(frame, settings.width, settings.height, &mut samples);
    let input = Input {
        samples: &samples[..count],
        catalogue,
        settings,
    };
    lines_of(asked, input, room)
}

// Puts what is asked at the start of the room, leaves the rest as it is, and answers how many bytes it has. A room of fewer than 2,048 bytes gets none.
// No listing has more than 1,120, and no lines about rivals more than 840.
fn write_asked(
    asked: Asked,
    settings: &[u8],
    frame: &[u8],
    catalogue: &[u8],
    room: &mut [u8],
) -> usize
    ensures value { result ≡ length_in room_size room.old (asked_text asked settings.now frame.now catalogue.now) }
    ensures room_after { room.new ≡ room_with room_size room.old
        (asked_text asked settings.now frame.now catalogue.now) }
    ensures upper_bound { result ≤ most_of asked }
{
    let is_short = room.len() < ROOM;
    if is_short {
        return 0;
    }
    match files::read_settings(settings) {
        Err(r) => text::refused(room, 0, r),
        Ok(s) => listed(asked, s, frame, catalogue, room),
    }
}

// Puts the listing at the start of the room, leaves the rest as it is, and answers how many bytes it has. A room of fewer than 2,048 bytes gets none.
// No listing has more than 1,120.
pub fn write(settings: &[u8], frame: &[u8], catalogue: &[u8], room: &mut [u8]) -> usize
    ensures value { result ≡ length_in room_size room.old (listing_text settings.now frame.now catalogue.now) }
    ensures room_after { room.new ≡ room_with room_size room.old (listing_text settings.now frame.now catalogue.now) }
    ensures upper_bound { result ≤ 1120 }
{
    write_asked(Asked::Listing, settings, frame, catalogue, room)
}
