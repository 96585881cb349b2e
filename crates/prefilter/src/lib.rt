// The spline's coefficients of a line of samples, in the places of the samples: u goes upward into the places of s, and c downward into the
// places of u. Each run begins 24 places outside the line, which it reads with its places taken modulo N.
//     coefficients        one line
//     coefficients_four   four lines that lie one after the other, side by side: each u waits for the one before it, so four such chains at
//                         once take 2.6 times less than one after the other (from 640 places on; at 64 places 1.9 times less)
#![tactic(auto)]

ghost use Rattle.std.specs.Prelude.{◌≡◌, ℕ, ◌+◌, ◌*◌, ◌<◌, ◌≤◌, ℤ, pos, nat_abs, ◌*ℤ◌, ◌-ℤ◌, length, get_or, drop};
ghost use Rattle.arith.specs.Whole.{round};
ghost use Rattle.lists.specs.Grid.{row_of};
ghost use Rattle.spline.specs.Coefficients.{P, T, scaled, coefficients};
ghost use Rattle.prefilter.specs.InPlace.{LineWithin, FourWithin, run_in_up, risen, run_in_down, fallen};

// How many places outside the line a run begins.
const RUN_IN: usize = 24;

// The filter's next value: s less [P/2³⁰ times the value x before it].
fn step(s: i64, x: i64) -> i64
    requires { (nat_abs s ≤ 6488065) × (nat_abs x ≤ 9142272) }
    ensures { result ≡ s -ℤ round (pos P *ℤ x) T }
{
    s - ((287708255 * x + 536870912) >> 30)
}

// [6·P·x/2³⁰].
fn scale(x: i64) -> i32
    requires { nat_abs x ≤ 9142272 }
    ensures { result ≡ scaled x }
{
    ((1726249530 * x + 536870912) >> 30) as i32
}

// u at a sample, from the u before it.
fn rise(sample: i32, x: i64) -> i64
    requires { (nat_abs sample ≤ 294912) × (nat_abs x ≤ 6488065) }
    ensures { result ≡ pos 16 *ℤ sample -ℤ round (pos P *ℤ x) T }
{
    step(16 * i64::from(sample), x)
}

// v at a value of u, from the v after it.
fn fall(value: i32, x: i64) -> i64
    requires { (nat_abs value ≤ 6488065) × (nat_abs x ≤ 9142272) }
    ensures { result ≡ value -ℤ round (pos P *ℤ x) T }
{
    step(i64::from(value), x)
}

// u(-1), after the 24 places of run-in.
fn run_in_up(s: &[i32]) -> i64
    requires { LineWithin 294912 s.now }
    ensures { result ≡ run_in_up s.now }
{
    let n = s.len();
    let mut j = RUN_IN * (n - 1) % n;
    let mut x: i64 = 0;
    for _ in 0..RUN_IN {
        x = rise(s[j], x);
        j = arith::after(j, n);
    }
    x
}

// v(N), after the 24 places of run-in. One function for both run-ins would take the first place, the next one and the filter, with a law of each.
fn run_in_down(u: &[i32]) -> i64
    requires { LineWithin 6488065 u.now }
    ensures { result ≡ run_in_down u.now }
{
    let n = u.len();
    let mut j = (n + RUN_IN - 1) % n;
    let mut x: i64 = 0;
    for _ in 0..RUN_IN {
        x = fall(u[j], x);
        j = arith::prior(j, n);
    }
    x
}

// u takes the samples' places.
fn upward(s: &mut [i32])
    requires { LineWithin 294912 s.old }
    ensures { s.new ≡ risen s.old }
{
    let mut x = run_in_up(s);
    for place in s.iter_mut() {
        x = rise(*place, x);
        *place = x as i32;
    }
}

// The coefficients take the places of u.
fn downward(u: &mut [i32])
    requires { LineWithin 6488065 u.old }
    ensures { u.new ≡ fallen u.old }
{
    let mut x = run_in_down(u);
    for k in (0..u.len()).rev() {
        x = fall(u[k], x);
        u[k] = scale(x);
    }
}

// The coefficients take the places of the samples.
pub fn coefficients(line: &mut [i32])
    requires in_bounds { (1 ≤ length line.old) × (length line.old ≤ 3072) }
    requires by_index { (k : ℕ) → k < length line.old → nat_abs (get_or line.old k (pos 0)) ≤ 294912 }
    ensures { line.new ≡ coefficients line.old }
{
    upward(line);
    downward(line);
}

// u takes the samples' places in four lines of one length. All four places are read before one is written: in lines of 1,024 that lie one
// after the other the next line's place is 4,096 bytes on, and a load right behind a store at such a distance waits for it.
// Four lines by name: an array of them would be read and written at 0, 1, 2 and 3 in the same lines, or in loops inside the loop.
fn upward_four(a: &mut [i32], b: &mut [i32], c: &mut [i32], d: &mut [i32])
    requires { FourWithin 294912 a.old b.old c.old d.old }
    ensures first { (a.new ≡ risen a.old) × (b.new ≡ risen b.old) }
    ensures last { (c.new ≡ risen c.old) × (d.new ≡ risen d.old) }
{
    let mut x = run_in_up(a);
    let mut y = run_in_up(b);
    let mut z = run_in_up(c);
    let mut w = run_in_up(d);
    for k in 0..a.len() {
        x = rise(a[k], x);
        y = rise(b[k], y);
        z = rise(c[k], z);
        w = rise(d[k], w);
        a[k] = x as i32;
        b[k] = y as i32;
        c[k] = z as i32;
        d[k] = w as i32;
    }
}

// The coefficients take the places of u in four lines of one length.
fn downward_four(a: &mut [i32], b: &mut [i32], c: &mut [i32], d: &mut [i32])
    requires { FourWithin 6488065 a.old b.old c.old d.old }
    ensures first { (a.new ≡ fallen a.old) × (b.new ≡ fallen b.old) }
    ensures last { (c.new ≡ fallen c.old) × (d.new ≡ fallen d.old) }
{
    let mut x = run_in_down(a);
    let mut y = run_in_down(b);
    let mut z = run_in_down(c);
    let mut w = run_in_down(d);
    for k in (0..a.len()).rev() {
        x = fall(a[k], x);
        y = fall(b[k], y);
        z = fall(c[k], z);
        w = fall(d[k], w);
        let (e, f, g, h) = (scale(x), scale(y), scale(z), scale(w));
        a[k] = e;
        b[k] = f;
        c[k] = g;
        d[k] = h;
    }
}

// The coefficients take the places of the samples in the four lines of n places that lie one after the other from the start of `work`.
pub fn coefficients_four(work: &mut [i32], n: usize)
    requires le_n { (1 ≤ n) × (n ≤ 3072) × (4 * n ≤ length work.old) }
    requires by_index { (i k : ℕ) → i < 4 → k < n → nat_abs (get_or work.old (i * n + k) (pos 0)) ≤ 294912 }
    ensures by_index_2 { (i : ℕ) → i < 4 → row_of n work.new i ≡ coefficients (row_of n work.old i) }
    ensures work_unchanged { drop (4 * n) work.new ≡ drop (4 * n) work.old }
{
    let (a, rest) = work.split_at_mut(n);
    let (b, rest) = rest.split_at_mut(n);
    let (c, rest) = rest.split_at_mut(n);
    let d = &mut rest[..n];
    upward_four(a, b, c, d);
    downward_four(a, b, c, d);
}
