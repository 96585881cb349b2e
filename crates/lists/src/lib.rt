// Slices: the thin loops that every layer above uses, each place read and written once.
#![tactic(auto)]

ghost use Rattle.std.specs.Prelude.{◌≡◌, ◌++◌, ℕ, ◌+◌, ◌*◌, ◌<◌, ◌≤◌, length, take, drop, replicate, pos};
ghost use Rattle.arith.specs.Whole.{min_ℤ, max_ℤ};
ghost use Rattle.lists.specs.Line.{line, rolled};
ghost use Rattle.lists.specs.Grid.{line_of, put};
ghost use Rattle.lists.specs.Ends.{extremes_of, joined_of};

// The smallest and the largest of a group of samples.
#[derive(Clone, Copy)]
pub struct Extremes {
    pub smallest: i32,
    pub largest: i32,
}

// Every place becomes the sample of its number. The library's `copy_from_slice` calls `memmove`, which the archive for C asks of nobody.
pub fn copy(samples: &[i32], res: &mut [i32])
    requires { length samples.now ≡ length res.old }
    ensures { res.new ≡ samples.now }
{
    for (k, place) in res.iter_mut().enumerate() {
        *place = samples[k];
    }
}

// Every place becomes 0.
pub fn clear(places: &mut [i32])
    ensures { places.new ≡ replicate (length places.old) (pos 0) }
{
    places.fill(0);
}

// The line that starts at the place `at` of a picture, its places `along` apart, is read into `samples`.
pub fn load_line(picture: &[i32], at: usize, along: usize, samples: &mut [i32])
    requires { (k : ℕ) → k < length samples.old → at + k * along < length picture.now }
    ensures { samples.new ≡ line_of at along (length samples.old) picture.now }
{
    for (k, sample) in samples.iter_mut().enumerate() {
        *sample = picture[at + k * along];
    }
}

// `samples` are written to the line that starts at the place `at`, its places `along` apart.
pub fn store_part(picture: &mut [i32], at: usize, along: usize, samples: &[i32])
    requires { (k : ℕ) → k < length samples.now → at + k * along < length picture.old }
    ensures { picture.new ≡ put at along (line samples.now) (length samples.now) picture.old }
{
    for (k, sample) in samples.iter().enumerate() {
        picture[at + k * along] = *sample;
    }
}

// The first n places of a line get the samples from `turn` on: place k gets sample k + turn, taken modulo their number.
// At most two straight runs, the samples from `turn` on and then those from the first on, so that no index is reduced.
pub fn store_line(
    picture: &mut [i32],
    at: usize,
    along: usize,
    samples: &[i32],
    turn: usize,
    n: usize,
)
    requires by_index { (k : ℕ) → k < n → at + k * along < length picture.old }
    requires turn_in_bounds { (turn < length samples.now) × (n ≤ length samples.now) }
    ensures { picture.new ≡ put at along (rolled turn samples.now) n picture.old }
{
    let run = samples.len() - turn;
    if n <= run {
        store_part(picture, at, along, &samples[turn..turn + n]);
        return;
    }
    store_part(picture, at, along, &samples[turn..]);
    store_part(picture, at + run * along, along, &samples[..n - run]);
}

// The smallest and the largest of some samples.
pub fn extremes_of(samples: &[i32]) -> Extremes
    requires { 1 ≤ length samples.now }
    ensures { result ≡ extremes_of (length samples.now) samples.now }
{
    let mut smallest = samples[0];
    let mut largest = smallest;
    for v in samples {
        smallest = smallest.min(*v);
        largest = largest.max(*v);
    }
    Extremes { smallest, largest }
}

// Those of two groups of samples together.
pub fn joined(a: Extremes, b: Extremes) -> Extremes
    ensures { result ≡ joined_of a b }
{
    Extremes {
        smallest: a.smallest.min(b.smallest),
        largest: a.largest.max(b.largest),
    }
}
