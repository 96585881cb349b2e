// How far each line of a pass moves, in 4,096ths of a sample: line y of n places by a·(y - c), or all lines alike; under background by no more than n
// samples.
//     at         the move of a line
//     fraction   f of a line's move
//     start      the place of its weighed row that a line's first output is read from
//     count_of   how many lines of a picture are interpolated, in all three passes
#![tactic(auto)]

ghost use Rattle.std.specs.Prelude.{◌≡◌, ◌<◌, ◌≤◌, leb, pos, nat_abs};
ghost use Rattle.arith.specs.Move.{fraction};
ghost use Rattle.moves.specs.Border.{fraction_in};
ghost use Rattle.moves.specs.Row.{places, start_at, held};
ghost use Rattle.passes.specs.Picture.{shear};
ghost use Rattle.passes.specs.Count.{interpolated, count};
ghost use Rattle.offsets.specs.Moves.{move_of, Slight};

use settings::{Border, Setting};

// How far the lines of a pass move: line y by a·(y - c), a and then c; or all alike, as the same line of many pictures does.
#[derive(Clone, Copy)]
pub enum Moves {
    Sheared(i32, usize),
    Alike(i64),
}

// a·(y - c), the move of line y in a shear.
pub fn sheared_by(a: i32, c: usize, y: usize) -> i64
    requires { (nat_abs a ≤ 4096) × (c ≤ 1024) × (y ≤ 1024) }
    ensures { (result ≡ shear a c y) × (nat_abs result ≤ 4194304) }
{
    i64::from(a) * (y as i64 - c as i64)
}

impl Moves {
    // How far line y moves.
    pub fn at(self, y: usize) -> i64
        requires { Slight self × (y ≤ 1024) }
        ensures { (result ≡ move_of self y) × (nat_abs result ≤ 4194304) }
    {
        match self {
            Moves::Sheared(a, c) => sheared_by(a, c, y),
            Moves::Alike(d) => d,
        }
    }

    // How far line y of n places is moved: no farther than n samples under background.
    fn held(self, border: Border, n: usize, y: usize) -> i64
        requires { (n ≤ 1024) × Slight self × (y ≤ 1024) }
        ensures { (result ≡ held border n (move_of self y)) × (nat_abs result ≤ 4194304) }
    {
        rows::held_of(border, n, self.at(y))
    }

    // f of line y, from 0 to 4,095.
    pub fn fraction(self, border: Border, n: usize, y: usize) -> i32
        requires { (n ≤ 1024) × Slight self × (y ≤ 1024) }
        ensures { result ≡ pos (fraction (held border n (move_of self y))) }
    {
        arith::fraction_part(self.held(border, n, y))
    }

    // The place that output 0 of line y of n places is read from.
    pub fn start(self, border: Border, n: usize, y: usize) -> usize
        requires { (1 ≤ n) × (n ≤ 1024) × Slight self × (y ≤ 1024) }
        ensures { (result ≡ start_at border n (held border n (move_of self y))) × (result < places border n) }
    {
        rows::start_of(border, self.held(border, n, y), n)
    }

    // Whether line y is interpolated.
    fn is_interpolated(self, border: Border, n: usize, y: usize) -> bool
        requires { (n ≤ 1024) × Slight self × (y ≤ 1024) }
        ensures { result ≡ leb 1 (fraction_in border n (move_of self y)) }
    {
        self.fraction(border, n, y) != 0
    }

    // How many of the first lines are interpolated.
    fn count(self, border: Border, n: usize, lines: usize) -> u32
        requires { (n ≤ 1024) × Slight self × (lines ≤ 1024) }
        ensures { (result ≡ interpolated border n (move_of self) lines) × (result ≤ 1024) }
    {
        let mut count: u32 = 0;
        for y in 0..lines {
            count += u32::from(self.is_interpolated(border, n, y));
        }
        count
    }
}

// How many lines straightening a picture of such a size interpolates: those of its rows, its columns and its rows again.
pub fn count_of(width: usize, height: usize, setting: Setting) -> u32
    requires width_bound { (width ≤ 1024) × (height ≤ 1024) × (setting.cx < width) × (setting.cy < height) }
    requires a_bound { (nat_abs setting.a ≤ 4096) × (nat_abs setting.b ≤ 4096) }
    ensures { (result ≡ count setting.border width height (shear setting.a setting.cy) (shear setting.b setting.cx)) × (result ≤ 3072) }
{
    let border = setting.border;
    let rows = Moves::Sheared(setting.a, setting.cy).count(border, width, height);
    let columns = Moves::Sheared(setting.b, setting.cx).count(border, height, width);
    rows + columns + rows
}
