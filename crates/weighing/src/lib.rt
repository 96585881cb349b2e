// A prepared line weighed where it stands, in one pass over it that divides by constants alone and reduces no index. f is the fraction of a
// sample that the line moves by, in 4,096ths.
//     weigh_line   by any kernel
#![tactic(auto)]

ghost use Rattle.std.specs.Prelude.{◌≡◌, ◌≤◌, length, nat_abs, ◌+ℤ◌, ◌*ℤ◌};
ghost use Rattle.arith.specs.Whole.{round};
ghost use Rattle.refusals.specs.Tests.{AllWithin};
ghost use Rattle.kernels.specs.declared.Kernel.TheVariants.{Linear};
ghost use Rattle.kernels.specs.Four.{weighted_sum, Modest, Weighable};
ghost use Rattle.moves.specs.Move.{divisor};
ghost use Rattle.moves.specs.InPlace.{Fraction, Middle, Shares, weighed_size, weighed};

use kernels::{FourWeights, Kernel};
use moves::TwoWeights;

// The two middle weights of linear's rows at f, once a line; the outer two are 0. D² cancels from the weights and the divisor, so 32 bits
// hold what is weighed.
fn two_weights(f: i32) -> TwoWeights
    requires { Fraction f }
    ensures { Middle f result × Shares result }
{
    let w = kernels::four_weights(Kernel::Linear, i64::from(f));
    TwoWeights {
        here: (w.w1 >> 24) as i32,
        next: (w.w2 >> 24) as i32,
    }
}

// Two samples weighed, and divided to the nearest, halves upward.
fn between(a: i32, b: i32, w: TwoWeights) -> i32
    requires { (nat_abs a ≤ 294912) × (nat_abs b ≤ 294912) × Shares w }
    ensures { result ≡ round (a *ℤ w.here +ℤ b *ℤ w.next) 4096 }
{
    (a * w.here + b * w.next + 2048) >> 12
}

// A line weighed by the linear kernel where it stands.
fn weigh_linear(line: &mut [i32], f: i32)
    requires in_bounds { (1 ≤ length line.old) × Fraction f }
    requires all_within { AllWithin 294912 (length line.old) line.old }
    ensures { line.new ≡ weighed Linear f line.old }
{
    let w = two_weights(f);
    let first = line[0];
    let last = line.len() - 1;
    for j in 0..last {
        line[j] = between(line[j], line[j + 1], w);
    }
    line[last] = between(line[last], first, w);
}

// A weighted sum divided by the kernel's divisor, to the nearest, halves upward: linear's is 2³⁶, Keys' 2³⁷, the spline's 3·2⁴¹. The spline's
// quotient by 3 is of a number that is not negative.
fn divided(kernel: Kernel, p: i64) -> i32
    requires { nat_abs p ≤ 5836666354022744064 }
    ensures { result ≡ round p (divisor kernel) }
{
    match kernel {
        Kernel::Linear => ((p + 34359738368) >> 36) as i32,
        Kernel::Keys => ((p + 68719476736) >> 37) as i32,
        Kernel::Spline => (((p + 3298534883328) >> 41) as i32 + 3145728) / 3 - 1048576,
    }
}

// One place from its four.
fn weighed_place(kernel: Kernel, w: FourWeights, a: i64, b: i64, c: i64, e: i64) -> i32
    requires { Modest w × Weighable a b c e }
    ensures { result ≡ round (weighted_sum w a b c e) (divisor kernel) }
{
    divided(kernel, kernels::weighted_sum(w, a, b, c, e))
}

// A line weighed by four weights where it stands. The window a, b, c goes before the stores; the last two places take the first two.
fn weigh_cubic(line: &mut [i32], kernel: Kernel, f: i32)
    requires in_bounds { (1 ≤ length line.old) × Fraction f }
    requires all_within { AllWithin 14155779 (length line.old) line.old }
    ensures { line.new ≡ weighed kernel f line.old }
{
    let w = kernels::four_weights(kernel, i64::from(f));
    let n = line.len();
    let first = i64::from(line[0]);
    if n == 1 {
        line[0] = weighed_place(kernel, w, first, first, first, first);
        return;
    }
    let second = i64::from(line[1]);
    let mut a = i64::from(line[n - 1]);
    let mut b = first;
    let mut c = second;
    let end = n - 2;
    for j in 0..end {
        let e = i64::from(line[j + 2]);
        line[j] = weighed_place(kernel, w, a, b, c, e);
        a = b;
        b = c;
        c = e;
    }
    line[end] = weighed_place(kernel, w, a, b, c, first);
    line[end + 1] = weighed_place(kernel, w, b, c, first, second);
}

// A prepared line weighed where it stands, by any kernel. Linear and Keys leave it as it is where f is 0. Keys and the spline are named to the loop
// that they share, so that the compiler makes one of each and no place asks for the kernel.
pub fn weigh_line(line: &mut [i32], kernel: Kernel, f: i32)
    requires in_bounds { (1 ≤ length line.old) × Fraction f }
    requires all_within { AllWithin (weighed_size kernel) (length line.old) line.old }
    ensures { line.new ≡ weighed kernel f line.old }
{
    match kernel {
        Kernel::Linear | Kernel::Keys if f == 0 => {}
        Kernel::Linear => weigh_linear(line, f),
        Kernel::Keys => weigh_cubic(line, Kernel::Keys, f),
        Kernel::Spline => weigh_cubic(line, Kernel::Spline, f),
    }
}
