// The kernels and their weights: f is the fraction of a sample, in parts of D = 4,096; a kernel's four weights sum to 1, 2 or 6 times D³.
#![tactic(auto)]

ghost use Rattle.std.specs.Prelude.{◌≡◌, [], ℕ, ◌≤◌, get_or, pos, nat_abs};
ghost use Rattle.kernels.specs.Kernel.{kernel_at, evaluate};
ghost use Rattle.kernels.specs.Four.{four_of, four_weights, weighted_sum, Modest, Weighable};

use refusals::Refusal;

// How a moved line is weighed: by linear interpolation, by Keys' cubic convolution, or by a cubic spline.
#[derive(Clone, Copy, PartialEq, Eq)]
pub enum Kernel {
    Linear,
    Keys,
    Spline,
}

// A caller's number for a kernel; number 5 for every other number.
impl TryFrom<u32> for Kernel {
    type Error = Refusal;

    ghost try_from_gives = { λ number result. result ≡ kernel_at number };

    fn try_from(number: u32) -> Result<Kernel, Refusal> {
        match number {
            0 => Ok(Kernel::Linear),
            1 => Ok(Kernel::Keys),
            2 => Ok(Kernel::Spline),
            _ => Err(Refusal::BadKernel),
        }
    }
}

// Each kernel's rows: for each of the four source places the numbers a, b, c, e of its weight. They stand apart so that the compiler folds
// a kernel's weights; one array of all three would be copied for every line.
const LINEAR: [[i64; 4]; 4] = [[0, 0, 0, 0], [1, -1, 0, 0], [0, 1, 0, 0], [0, 0, 0, 0]];

const KEYS: [[i64; 4]; 4] = [[0, -1, 2, -1], [2, 0, -5, 3], [0, 1, 4, -3], [0, 0, -1, 1]];

const SPLINE: [[i64; 4]; 4] = [[1, -3, 3, -1], [4, 0, -6, 3], [1, 3, 3, -3], [0, 0, 0, 1]];

// The weights of the source places k+q-1, k+q, k+q+1 and k+q+2.
#[derive(Clone, Copy)]
pub struct FourWeights {
    pub w0: i64,
    pub w1: i64,
    pub w2: i64,
    pub w3: i64,
}

// A row's weight at f: a·D³ + b·f·D² + c·f²·D + e·f³.
fn evaluated(row: [i64; 4], f: i64) -> i64
    requires by_index { (j : ℕ) → nat_abs (get_or row j (pos 0)) ≤ 6 }
    requires f_bound { nat_abs f ≤ 4096 }
    ensures { result ≡ evaluate row f }
{
    row[0] * 68719476736 + row[1] * f * 16777216 + row[2] * f * f * 4096 + row[3] * f * f * f
}

// The weights that four rows give at f.
fn weights_of(rows: [[i64; 4]; 4], f: i64) -> FourWeights
    requires by_index { (i j : ℕ) → nat_abs (get_or (get_or rows i []) j (pos 0)) ≤ 6 }
    requires f_bound { nat_abs f ≤ 4096 }
    ensures { result ≡ four_of rows f }
{
    FourWeights {
        w0: evaluated(rows[0], f),
        w1: evaluated(rows[1], f),
        w2: evaluated(rows[2], f),
        w3: evaluated(rows[3], f),
    }
}

// A kernel's four weights at f.
pub fn four_weights(kernel: Kernel, f: i64) -> FourWeights
    requires { nat_abs f ≤ 4096 }
    ensures { result ≡ four_weights kernel f }
{
    match kernel {
        Kernel::Linear => weights_of(LINEAR, f),
        Kernel::Keys => weights_of(KEYS, f),
        Kernel::Spline => weights_of(SPLINE, f),
    }
}

// The weighted sum of four samples or coefficients. It fits since the weights' sizes together are at most 6·D³; four bounds on the single
// products would not do.
pub fn weighted_sum(w: FourWeights, a: i64, b: i64, c: i64, e: i64) -> i64
    requires { Modest w × Weighable a b c e }
    ensures { (result ≡ weighted_sum w a b c e) × (nat_abs result ≤ 5836666354022744064) }
{
    w.w0 * a + w.w1 * b + w.w2 * c + w.w3 * e
}
