// Whether an assignment differs from ours, and whether it still can: a direction differs where both give it a star, and not the same.
ghost use Rattle.std.specs.Prelude.{◌≡◌, true, false, ◌≤◌, ◌<◌};
ghost use Rattle.search_theory.specs.Rival.{words_differ, differs as differs_of, NoneDiffers};
ghost use Rattle.search_fit.specs.Fit.{beforehand};
ghost use Rattle.search_backtrack.specs.difference.Other.{NoOther};

use search_ahead::forward;
use search_fit::scene::Scene;

// Whether two words are stars, and not the same.
fn words_differ(stars: usize, a: usize, b: usize) -> bool
    ensures { result ≡ words_differ stars a b }
{
    a < stars && b < stars && a != b
}

// Whether one of the first n directions differs.
fn differs(stars: usize, n: usize, ours: &[u16; 8], chosen: &[u16; 8]) -> bool
    requires { n ≤ 8 }
    ensures { result ≡ differs_of stars n ours.now chosen.now }
{
    for i in 0..n {
        if words_differ(stars, usize::from(chosen[i]), usize::from(ours[i])) {
            return true;
        }
    }
    false
}

// Whether direction j is left to differ: ours gives it the star `own`, and another may stand there beside the first i words chosen.
fn left_to_differ(scene: Scene, chosen: &[u16; 8], own: usize, i: usize, j: usize) -> bool
    requires { (i ≤ j) × (j < scene.setup.dirs) }
    ensures no_other { result ≡ false → NoOther scene.entry.setup scene.entry.directions.now scene.entry.stars.now chosen.now own i j }
    ensures fact { result ≡ true → NoOther scene.entry.setup scene.entry.directions.now scene.entry.stars.now chosen.now own i j → ⊥ }
{
    if scene.setup.stars <= own {
        return false;
    }
    match forward::candidate(scene, chosen, i, j, 0) {
        None => false,
        Some(star) => star != own || forward::candidate(scene, chosen, i, j, own + 1).is_some(),
    }
}

// Whether an assignment that begins with the first i words chosen may differ from ours: one of them does, or a later direction is left to. It says no
// exactly where none differs and none is left to.
pub fn may_differ(scene: Scene, ours: &[u16; 8], chosen: &[u16; 8], i: usize) -> bool
    requires { i ≤ scene.setup.dirs }
    ensures none_differs { result ≡ false → NoneDiffers scene.entry.setup.dirs scene.entry.setup.stars (beforehand scene.entry.setup scene.entry.directions.now scene.entry.stars.now) ours.now
        i chosen.now }
    ensures fact { result ≡ true → NoneDiffers scene.entry.setup.dirs scene.entry.setup.stars (beforehand scene.entry.setup scene.entry.directions.now scene.entry.stars.now) ours.now
        i chosen.now → ⊥ }
    ensures chosen_value { result ≡ true → i ≡ scene.entry.setup.dirs → differs_of scene.entry.setup.stars i ours.now chosen.now ≡ true }
{
    if differs(scene.setup.stars, i, ours, chosen) {
        return true;
    }
    for j in i..scene.setup.dirs {
        if left_to_differ(scene, chosen, usize::from(ours[j]), i, j) {
            return true;
        }
    }
    false
}
