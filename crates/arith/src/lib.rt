// Whole numbers: remainders, rounding, the parts of a move as document 01 takes them, neighbours in a cyclic line.
#![tactic(auto)]

ghost use Rattle.std.specs.Prelude.{◌≡◌, ◌+◌, ◌-◌, ◌%◌, ◌<◌, ◌≤◌, pos, nat_abs, ◌≤ℤ◌};
ghost use Rattle.arith.specs.Whole.{remainder, round};
ghost use Rattle.arith.specs.Move.{fraction, whole};

// z modulo m, from 0 to m - 1 whatever the sign of z.
pub fn floor_remainder(z: i64, m: i64) -> i64
    requires { pos 1 ≤ℤ m }
    ensures { result ≡ pos (remainder z (nat_abs m)) }
{
    z.rem_euclid(m)
}

// p / r to the nearest, halves upward.
pub fn rounded(p: i64, r: i64) -> i64
    requires { (nat_abs p ≤ 6917529027641081856) × (pos 1 ≤ℤ r) × (r ≤ℤ pos 576460752303423488) }
    ensures { result ≡ round p (nat_abs r) }
{
    (p + r / 2).div_euclid(r)
}

// Place k of a line of n places, taken modulo n.
pub fn wrapped(k: i64, n: usize) -> usize
    requires { (1 ≤ n) × (n ≤ 1048576) }
    ensures { (result ≡ remainder k n) × (result < n) }
{
    floor_remainder(k, n as i64) as usize
}

// q of a move by d: the whole samples of -d.
pub fn whole_part(d: i64) -> i64
    requires { nat_abs d ≤ 1099511627776 }
    ensures { result ≡ whole d }
{
    -d >> 12
}

// f of a move by d: what -d has over its whole samples, in 4,096ths.
pub fn fraction_part(d: i64) -> i32
    requires { nat_abs d ≤ 1099511627776 }
    ensures { result ≡ pos (fraction d) }
{
    (-d - 4096 * whole_part(d)) as i32
}

// The place after j in a line of n.
pub fn after(j: usize, n: usize) -> usize
    requires { j < n }
    ensures { (result ≡ (j + 1) % n) × (result < n) }
{
    if j + 1 == n { 0 } else { j + 1 }
}

// The place before j in a line of n.
pub fn prior(j: usize, n: usize) -> usize
    requires { j < n }
    ensures { (result ≡ (j + (n - 1)) % n) × (result < n) }
{
    if j == 0 { n - 1 } else { j - 1 }
}
