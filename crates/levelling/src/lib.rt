// Levelling: the step that turns a graticule line level. Step t is 4,096 times the tangent of half the angle.
#![tactic(auto)]

ghost use Rattle.std.specs.Prelude.{◌≡◌, false, ◌+◌, ◌-◌, ◌<◌, ◌≤◌, nat_abs, ◌-ℤ◌};
ghost use Rattle.levelling.specs.Level.{step_at, levelling, largest_side, outside, any_outside, steep, direction_of, LevelAnswer};
ghost use Rattle.levelling.specs.Search.{Flat, Missed, Between};

use refusals::Refusal;

// The largest side of a picture, in samples.
const LARGEST_SIDE: usize = 1024;

// The direction of a line that is not too steep: dx columns on, dy rows down.
#[derive(Clone, Copy)]
struct Direction {
    dx: i64,
    dy: i64,
    ghost flat: { Flat dx dy },
}

// Two places of the steps between which the sign of the miss changes. Place u is step u - 1,697.
#[derive(Clone, Copy)]
struct Bracket {
    lo: usize,
    hi: usize,
}

impl Direction {
    // By how much the step at place u misses it.
    fn miss_at(self, u: usize) -> i64
        requires { u ≤ 3394 }
        ensures { Missed self.dx self.dy (step_at u) result }
    {
        let t = u as i64 - 1697;
        8192 * t * self.dx + (16777216 - t * t) * self.dy
    }

    // The half of a bracket in which the sign changes.
    fn halve(self, whole: Bracket) -> Bracket
        requires { (whole.lo + 1 < whole.hi) × Between self.dx self.dy whole.lo whole.hi }
        ensures { (result.hi - result.lo < whole.hi - whole.lo) × Between self.dx self.dy result.lo result.hi }
    {
        let mid = (whole.lo + whole.hi) / 2;
        if self.miss_at(mid) <= 0 {
            Bracket { lo: mid, ..whole }
        } else {
            Bracket { hi: mid, ..whole }
        }
    }

    // The place before the sign changes, by a dozen halvings: the miss grows with the step.
    fn sign_change(self) -> usize
        ensures { Between self.dx self.dy result (result + 1) }
    {
        let mut bracket = Bracket { lo: 0, hi: 3394 };
        while bracket.lo + 1 < bracket.hi {
            bracket = self.halve(bracket);
        }
        bracket.lo
    }

    // The place of the step with the smallest miss, of two equal the lower: one of the two beside the change of sign.
    fn smallest(self) -> usize
        ensures { (step_at result ≡ levelling self.dx self.dy) × (result ≤ 3394) }
    {
        let lo = self.sign_change();
        let below = -self.miss_at(lo);
        let above = self.miss_at(lo + 1);
        if above < below { lo + 1 } else { lo }
    }
}

// Whether no place along a side has this coordinate, number 7.
fn is_outside(side: usize, c: i32) -> bool
    requires { side ≤ largest_side }
    ensures { result ≡ outside side c }
{
    !(0..side as i32).contains(&c)
}

// Whether one of two points is outside a width and a height.
#[tactic(auto, unfolding(crate::specs::Level::any_outside))]
fn any_outside(width: usize, height: usize, x1: i32, y1: i32, x2: i32, y2: i32) -> bool
    requires { (width ≤ largest_side) × (height ≤ largest_side) }
    ensures { result ≡ any_outside width height x1 y1 x2 y2 }
{
    is_outside(width, x1)
        || is_outside(height, y1)
        || is_outside(width, x2)
        || is_outside(height, y2)
}

// Whether dx is below 1 or |dy| above dx, number 8.
#[tactic(auto, unfolding(crate::specs::Level::steep))]
fn is_steep(dx: i64, dy: i64) -> bool
    requires { nat_abs dy ≤ 1023 }
    ensures { result ≡ steep dx dy }
{
    dx < 1 || dx < dy.abs()
}

// From one coordinate to another.
fn span(from: i32, to: i32) -> i64
    requires { (outside largest_side from ≡ false) × (outside largest_side to ≡ false) }
    ensures { (result ≡ to -ℤ from) × (nat_abs result ≤ 1023) }
{
    i64::from(to) - i64::from(from)
}

// The answer from the differences of two points, both inside.
fn step_of(dx: i64, dy: i64) -> Result<i32, Refusal>
    requires { (nat_abs dx ≤ 1023) × (nat_abs dy ≤ 1023) }
    ensures { result ≡ direction_of dx dy }
{
    if is_steep(dx, dy) {
        return Err(Refusal::TooSteep);
    }
    let line = Direction { dx, dy };
    Ok(line.smallest() as i32 - 1697)
}

// The answer for two points within a width and a height: 7 for a point outside, then 8 for a line too steep, or the step.
pub fn level_within(
    width: usize,
    height: usize,
    x1: i32,
    y1: i32,
    x2: i32,
    y2: i32,
) -> Result<i32, Refusal>
    requires { (width ≤ largest_side) × (height ≤ largest_side) }
    ensures { LevelAnswer width height x1 y1 x2 y2 result }
{
    if any_outside(width, height, x1, y1, x2, y2) {
        return Err(Refusal::Outside);
    }
    step_of(span(x1, x2), span(y1, y2))
}

// The step that turns the line from (x1, y1) to (x2, y2) level, coordinates 0 to 1,023. It is refused with 7 for a point outside, then with 8 for a line
// too steep.
pub fn level(x1: i32, y1: i32, x2: i32, y2: i32) -> Result<i32, Refusal>
    ensures { LevelAnswer largest_side largest_side x1 y1 x2 y2 result }
{
    level_within(LARGEST_SIDE, LARGEST_SIDE, x1, y1, x2, y2)
}
