// What the chain asks before it writes anything: the refusals 1 to 12, and 19 right before 5, the first that applies.
ghost use Rattle.std.specs.Prelude.{◌≡◌};
ghost use Rattle.refusal.specs.Table.{first_applying, otherwise};
ghost use Rattle.refusal.specs.Answer.{answer_of};
ghost use Rattle.catalogue.specs.Check.{refusals_of};
ghost use Rattle.search.specs.Refusals.{demand_ok};
ghost use Rattle.chain.specs.Chain.{settings_rows, demand_rows};
ghost use Rattle.chain.specs.Admit.{catalogue_answer, admit_answer};

use crate::Settings;
use camera_direction::settings::position_ok;
use refusal::Refusal;

// The words that the room must have, for 8 directions and 512 stars.
const ROOM: usize = 4096;

// 19, and then 5.
#[tactic(auto, unfolding(refusal::specs::Table::first_applying, crate::specs::Chain::settings_rows))]
fn settings_outcome(settings: Settings) -> Result<(), Refusal>
    ensures { result ≡ first_applying (settings_rows settings) }
{
    let lens = settings.lens;
    if !camera_lens::lens_ok(lens) {
        return refusal::plain(refusal::LENS);
    }
    if !position_ok(settings.cx, settings.cy) {
        return refusal::plain(refusal::SETTINGS);
    }
    Ok(())
}

// 6 and 7.
#[tactic(auto, using(crate::proofs::Catalogue::refused_as, crate::proofs::Catalogue::accepted_as, crate::proofs::Catalogue::told_as))]
pub fn catalogue_outcome(bytes: &[u8]) -> Result<(), Refusal>
    ensures value { result ≡ first_applying (refusals_of bytes.now) }
    ensures result_value { answer_of result ≡ catalogue_answer bytes.now }
{
    catalogue::check(bytes)?;
    Ok(())
}

// 9, 10 and 12, for a room of so many words and so many listed stars.
#[tactic(auto, unfolding(refusal::specs::Table::first_applying, crate::specs::Chain::demand_rows))]
fn demand_outcome(settings: Settings, words: usize, count: usize) -> Result<(), Refusal>
    ensures { result ≡ first_applying (demand_rows settings words count) }
{
    let needed = settings.needed;
    if !search::demand_ok(needed, settings.tolerance) {
        return refusal::plain(refusal::DEMAND);
    }
    if words < ROOM {
        return refusal::plain(refusal::ROOM);
    }
    let is_few = count < needed;
    if is_few {
        return refusal::plain(refusal::FEW);
    }
    Ok(())
}

// The frame's own outcome comes first, and that of the stars, 6 and 7, before the demand's.
pub fn outcome(
    frame: Result<(), Refusal>,
    stars: Result<(), Refusal>,
    count: usize,
    settings: Settings,
    words: usize,
) -> Result<(), Refusal>
    ensures value { result ≡ otherwise frame (otherwise (first_applying (settings_rows settings)) (otherwise stars (first_applying (demand_rows settings words count)))) }
    ensures result_value { answer_of result ≡ admit_answer frame stars settings words count }
{
    frame?;
    settings_outcome(settings)?;
    stars?;
    demand_outcome(settings, words, count)
}
