// The votes of one pair of stars: both its ends get one.
ghost use Rattle.std.specs.Prelude.{◌≡◌, ℕ, ◌+◌, ◌/◌, ◌%◌, ◌<◌, ◌≤◌, get_or, length};
ghost use Rattle.ranking_by_index.specs.votes.Span.{named};

// A vote for each of the two stars that a record's last four bytes name.
pub(crate) fn vote_both(votes: &mut [u32; 512], ends: u32)
    requires ends_in_bounds { (ends / 65536 < 512) × (ends % 65536 < 512) }
    requires by_index { (c : ℕ) → get_or votes.old c 0 ≤ 2000000000 }
    ensures { (c : ℕ) → get_or votes.new c 0 ≡ get_or votes.old c 0 + named c ends }
{
    let a = (ends / 65536) as usize;
    let b = (ends % 65536) as usize;
    votes[a] += 1;
    votes[b] += 1;
}
