// Which records go, judged before anything moves: a mark for each. Each pair of stars is looked at once.
ghost use Rattle.std.specs.Prelude.{Bool, cond, ◌≡◌, ℕ, ◌+◌, ◌<◌, ◌≤◌, length, get_or};
ghost use Rattle.std.specs.Int.Signed.{le_z};
ghost use Rattle.vectors.specs.Vectors.{Within3, dot_of};
ghost use Rattle.vectors.specs.Triples.{triples, Listed, triple_at};
ghost use Rattle.catalogue.specs.Format.{records_in};
ghost use Rattle.catalogue.specs.Valid.{Valid};
ghost use Rattle.catalogue_cut.specs.Flight.{is_bright};
ghost use Rattle.catalogue_cut.specs.marks.Number.{number_of, numbers_of};
ghost use Rattle.catalogue_cut.specs.marks.Marks.{faint_mark, meets_by, Judged, AllLooked};
ghost use Rattle.catalogue_cut.specs.marks.Judge.{Settled};

use catalogue::decoded::Stars;
use vectors::Vec3;

// What a star's mark says: it is kept as far as is known, another star is close to it, or it is fainter than the limit.
#[derive(Clone, Copy, PartialEq, Eq)]
pub enum Mark {
    Kept,
    Crowded,
    Faint,
}

// The mark of record i by its magnitude alone.
fn by_magnitude(bytes: &[u8], limit: i32, i: usize) -> Mark
    requires { i < records_in bytes.now }
    ensures { number_of result ≡ faint_mark (is_bright bytes.now limit i) }
{
    if catalogue::magnitude(bytes, i) <= limit {
        Mark::Kept
    } else {
        Mark::Faint
    }
}

// The marks of all records by their magnitudes alone.
fn magnitudes(bytes: &[u8], limit: i32) -> [Mark; 512]
    requires { records_in bytes.now ≤ 512 }
    ensures { (k : ℕ) → k < records_in bytes.now → get_or (numbers_of result) k 0 ≡ faint_mark (is_bright bytes.now limit k) }
{
    let mut marks = [Mark::Kept; 512];
    for i in 0..catalogue::records(bytes) {
        marks[i] = by_magnitude(bytes, limit, i);
    }
    marks
}

// Decoded stars, three numbers a star, and the dot product from which on two of them are close.
#[derive(Clone, Copy)]
struct Pairs<'a> {
    stars: &'a [i32],
    closeness: i64,
    ghost listed: { Listed 512 stars.now },
}

impl Pairs<'_> {
    // Whether star b, which has this mark, is within the limit and close to a star.
    fn meets(self, star: Vec3, b: usize, mark: Mark) -> bool
        requires within3 { Within3 1000000000 star }
        requires b_bound { b < triples self.stars.now }
        ensures { result ≡ meets_by self.entry.closeness (dot_of star (triple_at self.entry.stars.now b)) (number_of mark) }
    {
        mark != Mark::Faint
            && self.closeness <= vectors::dot(star, vectors::triple_at(self.stars, b))
    }

    // Looks at star a with each star before it: where two within the limit are close, both are marked.
    fn crowd(self, a: usize, marks: &mut [Mark])
        requires { (a < triples self.stars.now) × (triples self.stars.now ≤ length marks.old) }
        ensures { (bright : ℕ → Bool) → Judged bright self.entry.stars.now self.entry.closeness a (numbers_of marks.old)
            → Judged bright self.entry.stars.now self.entry.closeness (a + 1) (numbers_of marks.new) }
    {
        if marks[a] == Mark::Faint {
            return;
        }
        let star = vectors::triple_at(self.stars, a);
        let mut own = Mark::Kept;
        for b in 0..a {
            if self.meets(star, b, marks[b]) {
                marks[b] = Mark::Crowded;
                own = Mark::Crowded;
            }
        }
        marks[a] = own;
    }

    // Looks at every pair of stars.
    fn crowd_all(self, marks: &mut [Mark])
        requires { triples self.stars.now ≤ length marks.old }
        ensures { AllLooked self.entry.stars.now self.entry.closeness (numbers_of marks.old) (numbers_of marks.new) }
    {
        for a in 0..self.stars.len() / 3 {
            self.crowd(a, marks);
        }
    }
}

// Stays: the buffer, the limit and the closeness apart, as `cut` has them from C. A struct of them would be made in one place and opened in the next.
// The marks of a valid catalogue's records.
pub fn judge(bytes: &[u8], limit: i32, closeness: i64) -> [Mark; 512]
    requires { Valid bytes.now }
    ensures { Settled bytes.now limit closeness (numbers_of result) }
{
    let mut marks = magnitudes(bytes, limit);
    let stars = Stars::of(bytes);
    let pairs = Pairs {
        stars: stars.all(),
        closeness,
    };
    pairs.crowd_all(&mut marks);
    marks
}
