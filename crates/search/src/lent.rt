// The test of a ranking that is handed in: each row names each star exactly once.
ghost use Rattle.std.specs.Prelude.{◌≡◌, ◌<◌, ◌≤◌, length, MatchOption};
ghost use Rattle.lists.specs.First.{first};
ghost use Rattle.search.specs.Once.{clash, lent_of};

// The first place of a row whose word is out of range or repeats an earlier one, if there is one. A table marks the stars seen.
fn first_clash(row: &[u16], stars: usize) -> Option<usize>
    requires { stars ≤ 512 }
    ensures { MatchOption result (first (clash row.now stars 0) (length row.now) ≡ length row.now)
        (λ k. (k ≡ first (clash row.now stars 0) (length row.now)) × (k < length row.now)) }
{
    let mut seen = [false; 512];
    for (k, word) in row.iter().enumerate() {
        let star = usize::from(*word);
        if stars <= star || seen[star] {
            return Some(k);
        }
        seen[star] = true;
    }
    None
}

// Good, or the first word of the whole ranking that is out of range or repeats an earlier one of its row.
pub(crate) fn check(ranking: &[u16], dirs: usize, stars: usize) -> Result<(), usize>
    requires { (dirs ≤ 8) × (stars ≤ 512) }
    ensures { result ≡ lent_of ranking.now dirs stars }
{
    if ranking.len() != dirs * stars {
        return Err(0);
    }
    for i in 0..dirs {
        let base = i * stars;
        let row = &ranking[base..base + stars];
        if let Some(k) = first_clash(row, stars) {
            return Err(base + k);
        }
    }
    Ok(())
}
