// One pass: every line of one direction moved in place, four at a time. Line y starts at place y·across of the picture: rows have along 1 and
// across W, columns along W and across 1. Under background each line is set between n background samples on each side, and a move is held to n
// samples: then nothing but background is left.
#![tactic(auto)]

ghost use Rattle.std.specs.Prelude.{◌≡◌, ℕ, ◌+◌, ◌*◌, ◌/◌, ◌<◌, ◌≤◌, pos, nat_abs, length, get_or};
ghost use Rattle.lists.specs.Grid.{line_of, put};
ghost use Rattle.kernels.specs.declared.Kernel.TheVariants.{Spline};
ghost use Rattle.moves.specs.Border.{grey};
ghost use Rattle.moves.specs.InPlace.{weighed_size, prepared};
ghost use Rattle.moves.specs.Row.{places, start_at, held, Covers, loaded_of};
ghost use Rattle.offsets.specs.Moves.{move_of, Slight};
ghost use Rattle.grid.specs.Four.{Lie, laid, FourTreated, FourWithin, FourPartWithin};
ghost use Rattle.shears.specs.Pass.{sheared_line, sheared, weighed_at, LinesWithin, Movable};

use grid::Strides;
use kernels::Kernel;
use moves::Part;
use offsets::Moves;
use settings::Border;

// What a pass does to its lines: how far each moves, by which kernel it is weighed, and what lies beyond its ends.
#[derive(Clone, Copy)]
pub struct Shear {
    pub border: Border,
    pub kernel: Kernel,
    pub moves: Moves,
}

// The place that output 0 of each of the lines y to y + 3 is read from.
fn starts_at(border: Border, n: usize, moves: Moves, y: usize) -> [usize; 4]
    requires { (1 ≤ n) × (n ≤ 1024) × Slight moves × (y + 4 ≤ 1024) }
    ensures { (i : ℕ) → i < 4 → (get_or result i 0 ≡ start_at border n (held border n (move_of moves (y + i)))) × (get_or result i 0 < places border n) }
{
    std::array::from_fn(|i| moves.start(border, n, y + i))
}

// Four lines in work prepared: for the spline the coefficients take the samples' places.
fn prepare_four(work: &mut [i32], n: usize, kernel: Kernel)
    requires le_n { (1 ≤ n) × (n ≤ 3072) × (4 * n ≤ length work.old) }
    requires four_within { kernel ≡ Spline → FourWithin n 294912 work.old }
    ensures { FourTreated n (λ i. prepared kernel) work.old work.new }
{
    match kernel {
        Kernel::Linear | Kernel::Keys => {}
        Kernel::Spline => prefilter::coefficients_four(work, n),
    }
}

// The least part of a row that has what the outputs of four lines of n places are weighed from, with the place that output 0 of each is read from.
fn joined_windows(border: Border, n: usize, starts: [usize; 4]) -> Part
    requires le_n { (1 ≤ n) × (n ≤ 1024) }
    requires by_index { (i : ℕ) → i < 4 → get_or starts i 0 < places border n }
    ensures { (i : ℕ) → i < 4 → Covers border n (get_or starts i 0) result }
{
    let mut part = rows::window_of(border, n, starts[0]);
    for i in 1..4 {
        part = rows::joined(part, rows::window_of(border, n, starts[i]));
    }
    part
}

// The part of a row that the outputs of four lines of n places are weighed from: under wrapped edges the whole row, with nothing to work out.
fn window_at(border: Border, n: usize, starts: [usize; 4]) -> Part
    requires le_n { (1 ≤ n) × (n ≤ 1024) }
    requires by_index { (i : ℕ) → i < 4 → get_or starts i 0 < places border n }
    ensures { (i : ℕ) → i < 4 → Covers border n (get_or starts i 0) result }
{
    match border {
        Border::Wrapped => Part { lo: 0, hi: n },
        Border::Background(_) => joined_windows(border, n, starts),
    }
}

// A part of four prepared lines of n places, y to y + 3, weighed in work.
fn weigh_four(work: &mut [i32], n: usize, shear: Shear, y: usize, part: Part)
    requires movable { Movable shear n (y + 4) (length work.old) }
    requires lo_lt_hi { (part.lo < part.hi) × (part.hi ≤ places shear.border n) × FourPartWithin (places shear.border n) part (weighed_size shear.kernel) work.old }
    ensures { FourTreated (places shear.border n) (λ i. weighed_at shear n (y + i) part) work.old work.new }
{
    let m = rows::places_of(shear.border, n);
    for i in 0..4 {
        let f = shear.moves.fraction(shear.border, n, y + i);
        let row = &mut work[i * m..i * m + m];
        rows::weigh_part(row, shear.kernel, f, part);
    }
}

// Four lines of n places, y to y + 3, prepared in work, and a part of each weighed.
fn treat_four(work: &mut [i32], n: usize, shear: Shear, y: usize, part: Part)
    requires movable { Movable shear n (y + 4) (length work.old) }
    requires lo_lt_hi { (part.lo < part.hi) × (part.hi ≤ places shear.border n) × FourPartWithin (places shear.border n) (loaded_of shear.kernel (places shear.border n) part) 294912 work.old }
    ensures { FourTreated (places shear.border n) (λ i s. weighed_at shear n (y + i) part (prepared shear.kernel s)) work.old work.new }
{
    prepare_four(work, rows::places_of(shear.border, n), shear.kernel);
    weigh_four(work, n, shear, y, part);
}

// Lines y to y + 3 moved.
fn move_four(picture: &mut [i32], work: &mut [i32], s: Strides, shear: Shear, y: usize)
    requires movable { Movable shear s.n (y + 4) (length work.old) }
    requires lines { Lie s (y + 4) (length picture.old) }
    requires by_index { (i k : ℕ) → i < 4 → k < s.n → nat_abs (get_or picture.old ((y + i) * s.across + k * s.along) (pos 0)) ≤ 294912 }
    ensures { picture.new ≡ laid (y * s.across) s.along s.across s.n (λ i. sheared_line shear (y + i) (line_of (y * s.across + i * s.across) s.along s.n picture.old)) 4 picture.old }
{
    let at = y * s.across;
    let m = rows::places_of(shear.border, s.n);
    let starts = starts_at(shear.border, s.n, shear.moves, y);
    let window = window_at(shear.border, s.n, starts);
    let loaded = rows::loaded_of(shear.kernel, m, window);
    grid::load_four(shear.border, picture, at, s, work, loaded);
    treat_four(work, s.n, shear, y, window);
    grid::store_four(picture, at, s, work, m, starts);
}

// Line y moved; `row` is lent for it.
fn move_line(picture: &mut [i32], row: &mut [i32], s: Strides, shear: Shear, y: usize)
    requires le_n { (1 ≤ s.n) × (s.n ≤ 1024) × (length row.old ≡ places shear.border s.n) × Slight shear.moves × (y ≤ 1024) × (nat_abs (grey shear.border) ≤ 294912) }
    requires by_index { (k : ℕ) → k < s.n → y * s.across + k * s.along < length picture.old }
    requires by_index_2 { (k : ℕ) → k < s.n → nat_abs (get_or picture.old (y * s.across + k * s.along) (pos 0)) ≤ 294912 }
    ensures { picture.new ≡ put (y * s.across) s.along (sheared_line shear y (line_of (y * s.across) s.along s.n picture.old)) s.n picture.old }
{
    let at = y * s.across;
    let start = shear.moves.start(shear.border, s.n, y);
    let window = rows::window_of(shear.border, s.n, start);
    let loaded = rows::loaded_of(shear.kernel, row.len(), window);
    rows::set_in(shear.border, picture, at, s.along, row, s.n, loaded);
    let f = shear.moves.fraction(shear.border, s.n, y);
    rows::treat(row, shear.kernel, f, window);
    lists::store_line(picture, at, s.along, row, start, s.n);
}

// Lines moved four at a time, those that are left over not.
fn move_fours(picture: &mut [i32], work: &mut [i32], s: Strides, lines: usize, shear: Shear)
    requires movable { Movable shear s.n lines (length work.old) }
    requires lines { Lie s lines (length picture.old) }
    requires lines_within { LinesWithin s lines 294912 picture.old }
    ensures { picture.new ≡ sheared shear s (4 * (lines / 4)) picture.old }
{
    for q in 0..lines / 4 {
        move_four(picture, work, s, shear, 4 * q);
    }
}

// Every line of one direction moved, four at a time, those that are left over singly.
pub fn pass(picture: &mut [i32], work: &mut [i32], s: Strides, lines: usize, shear: Shear)
    requires movable { Movable shear s.n lines (length work.old) }
    requires lines { Lie s lines (length picture.old) }
    requires lines_within { LinesWithin s lines 294912 picture.old }
    ensures { picture.new ≡ sheared shear s lines picture.old }
{
    move_fours(picture, work, s, lines, shear);
    let row = &mut work[..rows::places_of(shear.border, s.n)];
    for y in 4 * (lines / 4)..lines {
        move_line(picture, row, s, shear, y);
    }
}
