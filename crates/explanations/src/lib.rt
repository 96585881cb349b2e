// The call that shows what made one sample of a moved line: the four source places with their weights and samples, or the spline's coefficients, the
// weighted sum, the divisor and the rounded quotient. A caller's number of a kernel is 0 linear, 1 Keys or 2 cubic spline; d is a move in 4,096ths of
// a sample.
#![tactic(auto)]

ghost use Rattle.std.specs.Prelude.{◌≡◌, ◌++◌, ◌*◌, ◌≤◌, ◌<◌, length, drop, replicate, pos, nat_abs};
ghost use Rattle.lists.specs.Line.{line};
ghost use Rattle.arith.specs.Move.{fraction};
ghost use Rattle.kernels.specs.Four.{four_weights};
ghost use Rattle.moves.specs.Move.{divisor};
ghost use Rattle.explanations.specs.Made.{place_of, value_of, term_by, parts_of, Weighed};
ghost use Rattle.explanations.specs.Answer.{Explainable, weighed_of, Explained};

use kernels::{FourWeights, Kernel};
use refusals::Refusal;

// One term of the weighted sum: a place of the line, its weight, the sample that stands there, in units of 1/128 grey, or the coefficient, in sixteenths
// of such a unit, and their product. C and Rust are handed it as it is, so it has C's layout.
#[repr(C)]
#[derive(Clone, Copy)]
pub struct Term {
    pub place: usize,
    pub weight: i64,
    pub value: i32,
    pub product: i64,
}

// The four terms, from place k+q-1 on, their sum, what it is divided by, and the quotient to the nearest, halves upward, which is the sample.
#[derive(Clone, Copy)]
pub struct Parts {
    pub terms: [Term; 4],
    pub sum: i64,
    pub divisor: i64,
    pub quotient: i32,
}

// D³, for the D = 4,096 parts of a sample.
const CUBE: i64 = 68_719_476_736;

// What a kernel's weighted sum is divided by: n·D³, and 16 times that for the spline, whose coefficients are in sixteenths of a unit.
fn divisor_of(kernel: Kernel) -> i64
    ensures { result ≡ pos (divisor kernel) }
{
    match kernel {
        Kernel::Linear => CUBE,
        Kernel::Keys => 2 * CUBE,
        Kernel::Spline => 96 * CUBE,
    }
}

// A kernel's four weights for a line that moves by d.
fn weights_at(kernel: Kernel, d: i32) -> FourWeights
    requires { nat_abs d ≤ 4194304 }
    ensures { result ≡ four_weights kernel (pos (fraction d)) }
{
    let f = arith::fraction_part(i64::from(d));
    kernels::four_weights(kernel, i64::from(f))
}

// Source place i of output k, of a line of n samples that moves by d.
fn place_of(n: usize, d: i32, k: usize, i: usize) -> usize
    requires { (1 ≤ n) × (n ≤ 1024) × (nat_abs d ≤ 4194304) × (k < n) × (i < 4) }
    ensures { (result ≡ place_of n d k i) × (result < n) }
{
    let place = k as i64 + arith::whole_part(i64::from(d)) - 1 + i as i64;
    arith::wrapped(place, n)
}

// Term i of output k, of a line as its kernel weighs it.
fn term_of(weighed: &[i32], d: i32, k: usize, i: usize, weight: i64) -> Term
    requires { Weighed d k weighed.now × (i < 4) × (nat_abs weight ≤ 412316860416) }
    ensures { result ≡ term_by (place_of (length weighed.now) d k i) weight (value_of (length weighed.now) d k (line weighed.now) i) }
{
    let place = place_of(weighed.len(), d, k, i);
    let value = weighed[place];
    Term {
        place,
        weight,
        value,
        product: weight * i64::from(value),
    }
}

// The parts of output k, of a line as its kernel weighs it. The four terms stand one by one, as their weights do: an array of them by a closure would
// need an array of the weights, and the sum the four products again.
fn parts_of(kernel: Kernel, d: i32, k: usize, weighed: &[i32]) -> Parts
    requires { Weighed d k weighed.now }
    ensures { result ≡ parts_of kernel (length weighed.now) d k (line weighed.now) }
{
    let w = weights_at(kernel, d);
    let a = term_of(weighed, d, k, 0, w.w0);
    let b = term_of(weighed, d, k, 1, w.w1);
    let c = term_of(weighed, d, k, 2, w.w2);
    let e = term_of(weighed, d, k, 3, w.w3);
    let sum = a.product + b.product + c.product + e.product;
    let divisor = divisor_of(kernel);
    Parts {
        terms: [a, b, c, e],
        sum,
        divisor,
        quotient: arith::rounded(sum, divisor) as i32,
    }
}

// The parts of output k of an accepted line of n samples, which is prepared in `row`.
fn parts_in(kernel: Kernel, d: i32, k: usize, line: &[i32], row: &mut [i32]) -> Parts
    requires { Explainable (length row.old) d k line.now (6 * length row.old) }
    ensures { result ≡ parts_of kernel (length row.old) d k (weighed_of kernel (length row.old) line.now) }
{
    lists::copy(&line[..row.len()], row);
    rows::prepare(row, kernel);
    parts_of(kernel, d, k, row)
}

// The same by way of the work, which is cleared.
fn parts_cleared(
    n: usize,
    kernel: Kernel,
    d: i32,
    k: usize,
    line: &[i32],
    work: &mut [i32],
) -> Parts
    requires { Explainable n d k line.now (length work.old) }
    ensures value { result ≡ parts_of kernel n d k (weighed_of kernel n line.now) }
    ensures work_after { work.new ≡ replicate (6 * n) (pos 0) ++ drop (6 * n) work.old }
{
    let parts = parts_in(kernel, d, k, line, &mut work[..n]);
    lists::clear(&mut work[..6 * n]);
    parts
}

// What made sample k of the first n samples of `line` moved by d/4,096 samples under a kernel, with wrapped edges: the sample that `lines::move_line`
// writes at k. The first 6n places of `work` are used, and hold 0 afterwards. Refuses, and then writes nothing: 1 a length n of 0 or over 1,024; 2 a
// line under n places or a work under 6n; 4 a d beyond ±4,194,304; 5 a kernel over 2; 7 a place k that is not below n; 6 a sample beyond ±294,912, the
// first by its column, in row 0.
pub fn explain(
    n: usize,
    kernel: u32,
    d: i32,
    k: usize,
    line: &[i32],
    work: &mut [i32],
) -> Result<Parts, Refusal>
    ensures { Explained n kernel d k line.now work.old work.new result }
{
    let own = if n <= k {
        Err(Refusal::Outside)
    } else {
        Ok(())
    };
    let kernel = lines::judge(n, kernel, d, own, line, line.len(), work.len())?;
    Ok(parts_cleared(n, kernel, d, k, line, work))
}
