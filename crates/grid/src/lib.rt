// Four neighbouring lines of a picture, carried to the work buffer and back. In the buffer they lie one after the other, in rows of n places, or
// of 3n where they stand between background samples. In the picture the first starts at `at`. Columns go place by place, so that each cache line
// of the picture serves four of them; rows go line by line, in straight runs, which takes a third off a linear pass. So there are two orders of
// the same work.
#![tactic(auto)]

ghost use Rattle.std.specs.Prelude.{◌≡◌, ℕ, ◌+◌, ◌*◌, ◌-◌, ◌%◌, ◌<◌, ◌≤◌, pos, length, get_or};
ghost use Rattle.lists.specs.Grid.{put, row_of};
ghost use Rattle.moves.specs.Row.{places, Holds, Framed};
ghost use Rattle.settings.specs.declared.Border.TheVariants.{Background};
ghost use Rattle.grid.specs.Four.{Lie, laid, FourLoaded, four_stored};

use moves::Part;
use settings::Border;

// How the lines of one direction lie in a picture: each has n places, `along` apart, and starts `across` places after the line before it.
#[derive(Clone, Copy)]
pub struct Strides {
    pub n: usize,
    pub along: usize,
    pub across: usize,
}

// Four places of `from` to four places of `to`: place p + i·step + j[i] goes to place q + i·stride, for i from 0 to 3.
fn copy_four(
    from: &[i32],
    p: usize,
    step: usize,
    j: [usize; 4],
    to: &mut [i32],
    q: usize,
    stride: usize,
)
    requires by_index { (i : ℕ) → i < 4 → p + i * step + get_or j i 0 < length from.now }
    requires stride_in_bounds { q + 3 * stride < length to.old }
    ensures { to.new ≡ put q stride (λ i. get_or from.now (p + i * step + get_or j i 0) (pos 0)) 4 to.old }
{
    for i in 0..4 {
        to[q + i * stride] = from[p + i * step + j[i]];
    }
}

// Four lines into work, place by place: line i to the places from `first` + i·m on.
fn gather(picture: &[i32], at: usize, s: Strides, work: &mut [i32], first: usize, m: usize)
    requires n_bound { (first + s.n ≤ m) × (4 * m ≤ length work.old) }
    requires lines { Lie s 4 (length picture.now - at) }
    ensures { work.new ≡ laid first 1 m s.n (λ i k. get_or picture.now (at + i * s.across + k * s.along) (pos 0)) 4 work.old }
{
    for k in 0..s.n {
        copy_four(
            picture,
            at + k * s.along,
            s.across,
            [0; 4],
            work,
            first + k,
            m,
        );
    }
}

// Background of the value b on both sides of the middle n places of four rows of 3n, as far as the part goes.
fn frame_four(work: &mut [i32], n: usize, b: i32, part: Part)
    requires { (n ≤ 1024) × (12 * n ≤ length work.old) × Holds (Background b) n part }
    ensures { (i : ℕ) → i < 4 → Framed n b part (row_of (3 * n) work.new i) }
{
    let m = 3 * n;
    for i in 0..4 {
        let row = &mut work[i * m..i * m + m];
        rows::frame(row, n, b, part);
    }
}

// Four lines into the middle of rows of 3n places, between background of the value b.
fn gather_between(b: i32, picture: &[i32], at: usize, s: Strides, work: &mut [i32], part: Part)
    requires le_n { (1 ≤ s.n) × (s.n ≤ 1024) × (12 * s.n ≤ length work.old) × Holds (Background b) s.n part }
    requires lines { Lie s 4 (length picture.now - at) }
    ensures { FourLoaded (Background b) at s part picture.now work.new }
{
    frame_four(work, s.n, b, part);
    gather(picture, at, s, work, s.n, 3 * s.n);
}

// Four lines into work, place by place, each set in as its border has it, as far as the part goes.
fn load_places(border: Border, picture: &[i32], at: usize, s: Strides, work: &mut [i32], part: Part)
    requires le_n { (1 ≤ s.n) × (s.n ≤ 1024) × (4 * places border s.n ≤ length work.old) × Holds border s.n part }
    requires lines { Lie s 4 (length picture.now - at) }
    ensures { FourLoaded border at s part picture.now work.new }
{
    match border {
        Border::Wrapped => gather(picture, at, s, work, 0, s.n),
        Border::Background(b) => gather_between(b, picture, at, s, work, part),
    }
}

// The same line by line, for rows.
fn load_lines(border: Border, picture: &[i32], at: usize, s: Strides, work: &mut [i32], part: Part)
    requires le_n { (1 ≤ s.n) × (s.n ≤ 1024) × (4 * places border s.n ≤ length work.old) × Holds border s.n part }
    requires lines { Lie s 4 (length picture.now - at) }
    requires straight { s.along ≡ 1 }
    ensures { FourLoaded border at s part picture.now work.new }
{
    let m = rows::places_of(border, s.n);
    for i in 0..4 {
        let row = &mut work[i * m..i * m + m];
        rows::set_in(border, picture, at + i * s.across, 1, row, s.n, part);
    }
}

// Four lines into work, each set in as its border has it, as far as the part of its row goes.
pub fn load_four(
    border: Border,
    picture: &[i32],
    at: usize,
    s: Strides,
    work: &mut [i32],
    part: Part,
)
    requires le_n { (1 ≤ s.n) × (s.n ≤ 1024) × (4 * places border s.n ≤ length work.old) × Holds border s.n part }
    requires lines { Lie s 4 (length picture.now - at) }
    ensures { FourLoaded border at s part picture.now work.new }
{
    if s.along == 1 {
        load_lines(border, picture, at, s, work, part);
        return;
    }
    load_places(border, picture, at, s, work, part);
}

// The place after each of four, in lines of n.
fn after_four(j: [usize; 4], n: usize) -> [usize; 4]
    requires { (i : ℕ) → i < 4 → get_or j i 0 < n }
    ensures { (i : ℕ) → i < 4 → (get_or result i 0 ≡ (get_or j i 0 + 1) % n) × (get_or result i 0 < n) }
{
    std::array::from_fn(|i| arith::after(j[i], n))
}

// Four lines of work go back to the picture, place by place: place k of line i gets place k + starts[i] of row i, modulo its m places.
fn store_places(
    picture: &mut [i32],
    at: usize,
    s: Strides,
    work: &[i32],
    m: usize,
    starts: [usize; 4],
)
    requires n_le_m { (s.n ≤ m) × (4 * m ≤ length work.now) }
    requires lines { Lie s 4 (length picture.old - at) }
    requires by_index { (i : ℕ) → i < 4 → get_or starts i 0 < m }
    ensures { picture.new ≡ four_stored at s m work.now starts picture.old }
{
    let mut j = starts;
    for k in 0..s.n {
        copy_four(work, 0, m, j, picture, at + k * s.along, s.across);
        // Two steps: a call whose array is laid in a local that is lent has no generated proof.
        let next = after_four(j, m);
        j = next;
    }
}

// The same line by line, for rows.
fn store_lines(
    picture: &mut [i32],
    at: usize,
    s: Strides,
    work: &[i32],
    m: usize,
    starts: [usize; 4],
)
    requires le_n { (1 ≤ s.n) × (s.n ≤ m) × (4 * m ≤ length work.now) }
    requires lines { Lie s 4 (length picture.old - at) }
    requires straight { s.along ≡ 1 }
    requires by_index { (i : ℕ) → i < 4 → get_or starts i 0 < m }
    ensures { picture.new ≡ four_stored at s m work.now starts picture.old }
{
    for i in 0..4 {
        let row = &work[i * m..i * m + m];
        lists::store_line(picture, at + i * s.across, 1, row, starts[i], s.n);
    }
}

// Four lines get the rows of m places in work, row i from its place starts[i] on.
pub fn store_four(
    picture: &mut [i32],
    at: usize,
    s: Strides,
    work: &[i32],
    m: usize,
    starts: [usize; 4],
)
    requires le_n { (1 ≤ s.n) × (s.n ≤ m) × (4 * m ≤ length work.now) }
    requires lines { Lie s 4 (length picture.old - at) }
    requires by_index { (i : ℕ) → i < 4 → get_or starts i 0 < m }
    ensures { picture.new ≡ four_stored at s m work.now starts picture.old }
{
    if s.along == 1 {
        store_lines(picture, at, s, work, m, starts);
        return;
    }
    store_places(picture, at, s, work, m, starts);
}
