// The row that a line is moved in: the line is set into it, prepared, weighed there, and turned by its whole samples as it is stored. Under
// background the row has n background samples on each side of the line, and only the part that the outputs are weighed from is set in and
// weighed: the cubic spline alone needs the whole row, for its coefficients.
//     held_of       the move that is made: no farther than n samples under background
//     start_of      the place of a weighed row that its first output is read from
//     window_of     the part of a row that its outputs are weighed from
//     set_in        a line read into its row
//     treat         a row prepared, and a part of it weighed where it stands
// d is a move in 4,096ths of a sample, and f the fraction of a sample in the same unit.
#![tactic(auto)]

ghost use Rattle.std.specs.Prelude.{◌≡◌, cond, ℕ, ◌+◌, ◌*◌, ◌%◌, ◌≤◌, ◌<◌, length, pos, nat_abs};
ghost use Rattle.refusals.specs.Tests.{AllWithin};
ghost use Rattle.settings.specs.declared.Border.TheVariants.{Background};
ghost use Rattle.kernels.specs.declared.Kernel.TheVariants.{Spline};
ghost use Rattle.lists.specs.Grid.{line_of};
ghost use Rattle.moves.specs.Border.{far};
ghost use Rattle.moves.specs.InPlace.{Fraction, weighed_size, prepared, turn};
ghost use Rattle.moves.specs.Row.{places, set_in, start_at, held, weighed_part, Holds, Covers, joined_of, loaded_of, Framed, Alike, PartWithin};

use kernels::Kernel;
use moves::Part;
use settings::Border;

// A line as its kernel weighs it: linear and Keys the samples, the spline their coefficients.
pub fn prepare(line: &mut [i32], kernel: Kernel)
    requires in_bounds { (1 ≤ length line.old) × (length line.old ≤ 3072) }
    requires all_within { kernel ≡ Spline → AllWithin 294912 (length line.old) line.old }
    ensures { line.new ≡ prepared kernel line.old }
{
    match kernel {
        Kernel::Linear | Kernel::Keys => {}
        Kernel::Spline => prefilter::coefficients(line),
    }
}

// A part of a prepared row weighed where it stands, as a line of its own: right at each place whose neighbours lie in the part too.
pub fn weigh_part(row: &mut [i32], kernel: Kernel, f: i32, part: Part)
    requires lo_lt_hi { (part.lo < part.hi) × (part.hi ≤ length row.old) × Fraction f }
    requires part_within { PartWithin (weighed_size kernel) part row.old }
    ensures { row.new ≡ weighed_part kernel f part row.old }
{
    weighing::weigh_line(&mut row[part.lo..part.hi], kernel, f);
}

// A row of samples prepared, and a part of it weighed: all of its move but the turn by whole samples.
pub fn treat(row: &mut [i32], kernel: Kernel, f: i32, part: Part)
    requires row_len_bound { (length row.old ≤ 3072) × (part.lo < part.hi) × (part.hi ≤ length row.old) × Fraction f }
    requires part_within { PartWithin 294912 (loaded_of kernel (length row.old) part) row.old }
    ensures { row.new ≡ weighed_part kernel f part (prepared kernel row.old) }
{
    prepare(row, kernel);
    weigh_part(row, kernel, f, part);
}

// How far a line of n places that moves by d is turned: q modulo n.
fn turn_of(d: i64, n: usize) -> usize
    requires { (1 ≤ n) × (n ≤ 1048576) × (nat_abs d ≤ 1099511627776) }
    ensures { (result ≡ turn n d) × (result < n) }
{
    arith::wrapped(arith::whole_part(d), n)
}

// The same of 3n places, from place n on.
fn turn_on(d: i64, n: usize) -> usize
    requires { (1 ≤ n) × (n ≤ 1024) × (nat_abs d ≤ 1099511627776) }
    ensures { (result ≡ (turn (3 * n) d + n) % (3 * n)) × (result < 3 * n) }
{
    (turn_of(d, 3 * n) + n) % (3 * n)
}

// Whether a move is by n samples or more, either way.
fn is_far(n: usize, d: i64) -> bool
    requires { n ≤ 1024 }
    ensures { result ≡ far n d }
{
    4096 * n as u64 <= d.unsigned_abs()
}

// A move under background, held to n samples.
fn held_to(n: usize, d: i64) -> i64
    requires { (n ≤ 1024) × (nat_abs d ≤ 4194304) }
    ensures { (result ≡ cond (far n d) (pos (4096 * n)) d) × (nat_abs result ≤ 4194304) }
{
    if is_far(n, d) { 4096 * n as i64 } else { d }
}

// How many places a line of n samples takes while it is moved: three times as many between background samples.
pub fn places_of(border: Border, n: usize) -> usize
    requires { n ≤ 1024 }
    ensures { result ≡ places border n }
{
    match border {
        Border::Wrapped => n,
        Border::Background(_) => 3 * n,
    }
}

// The place that output 0 of a line of n samples, moved by d, is read from.
pub fn start_of(border: Border, d: i64, n: usize) -> usize
    requires { (1 ≤ n) × (n ≤ 1024) × (nat_abs d ≤ 1099511627776) }
    ensures { (result ≡ start_at border n d) × (result < places border n) }
{
    match border {
        Border::Wrapped => turn_of(d, n),
        Border::Background(_) => turn_on(d, n),
    }
}

// The move that is made of a line of n samples: one by n samples or more is held to n under background, which leaves nothing of the line.
pub fn held_of(border: Border, n: usize, d: i64) -> i64
    requires { (n ≤ 1024) × (nat_abs d ≤ 4194304) }
    ensures { (result ≡ held border n d) × (nat_abs result ≤ 4194304) }
{
    match border {
        Border::Wrapped => d,
        Border::Background(_) => held_to(n, d),
    }
}

// The part of a row that the outputs from place `start` on are weighed from: one place before the n, and two after them. It is the whole row
// where those lie past its ends, as they do under wrapped edges, and it takes in the line's own samples.
pub fn window_of(border: Border, n: usize, start: usize) -> Part
    requires { (1 ≤ n) × (n ≤ 1024) × (start < places border n) }
    ensures { Covers border n start result }
{
    let m = places_of(border, n);
    if start == 0 || m < start + n + 2 {
        return Part { lo: 0, hi: m };
    }
    Part {
        lo: (start - 1).min(n),
        hi: (start + n + 2).max(2 * n),
    }
}

// The least part that has both.
pub fn joined(a: Part, b: Part) -> Part
    ensures { result ≡ joined_of a b }
{
    Part {
        lo: a.lo.min(b.lo),
        hi: a.hi.max(b.hi),
    }
}

// The part of a row of m places that has to be set in: all of it for the spline.
pub fn loaded_of(kernel: Kernel, m: usize, part: Part) -> Part
    ensures { result ≡ loaded_of kernel m part }
{
    match kernel {
        Kernel::Linear | Kernel::Keys => part,
        Kernel::Spline => Part { lo: 0, hi: m },
    }
}

// Background of the value b on both sides of the middle n of 3n places, as far as the part goes.
pub fn frame(row: &mut [i32], n: usize, b: i32, part: Part)
    requires { (length row.old ≡ 3 * n) × (n ≤ 1024) × (part.lo ≤ n) × (2 * n ≤ part.hi) × (part.hi ≤ 3 * n) }
    ensures { Framed n b part row.new }
{
    row[part.lo..n].fill(b);
    row[2 * n..part.hi].fill(b);
}

// A line of n samples set between n samples of the value b on each side.
fn set_between(
    b: i32,
    picture: &[i32],
    at: usize,
    along: usize,
    row: &mut [i32],
    n: usize,
    part: Part,
)
    requires row_len { (length row.old ≡ 3 * n) × (n ≤ 1024) × (part.lo ≤ n) × (2 * n ≤ part.hi) × (part.hi ≤ 3 * n) }
    requires by_index { (k : ℕ) → k < n → at + k * along < length picture.now }
    ensures { Alike part row.new (set_in (Background b) (line_of at along n picture.now)) }
{
    frame(row, n, b, part);
    lists::load_line(picture, at, along, &mut row[n..2 * n]);
}

// The line of n samples that starts at the place `at` of a picture, its places `along` apart, set into its row as its border has it, as far as
// the part goes.
pub fn set_in(
    border: Border,
    picture: &[i32],
    at: usize,
    along: usize,
    row: &mut [i32],
    n: usize,
    part: Part,
)
    requires n_bound { (n ≤ 1024) × (length row.old ≡ places border n) }
    requires holds { Holds border n part }
    requires by_index { (k : ℕ) → k < n → at + k * along < length picture.now }
    ensures { Alike part row.new (set_in border (line_of at along n picture.now)) }
{
    match border {
        Border::Wrapped => lists::load_line(picture, at, along, row),
        Border::Background(b) => set_between(b, picture, at, along, row, n, part),
    }
}
