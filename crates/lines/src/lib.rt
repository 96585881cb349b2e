// The call that moves one line: it judges its input, moves the line by way of a row in its work, clears its work, and looks through the result for
// its extremes. A caller's number of a kernel is 0 linear, 1 Keys or 2 cubic spline; d is a move in 4,096ths of a sample.
#![tactic(auto)]

ghost use Rattle.std.specs.Prelude.{◌≡◌, ◌++◌, ◌*◌, ◌≤◌, length, take, drop, replicate, pos};
ghost use Rattle.refusals.specs.Judging.{answer_by};
ghost use Rattle.kernels.specs.Kernel.{kernel_of};
ghost use Rattle.moves.specs.Border.{move_in};
ghost use Rattle.moves.specs.Row.{places};
ghost use Rattle.lines.specs.Answer.{work_places, too_short, judged_as, Movable, is_interpolated, LineMoved};

use kernels::Kernel;
use lists::Extremes;
use refusals::{Refusal, Refuses};
use settings::Border;

// The farthest move, in 4,096ths of a sample, and the range of samples.
const FARTHEST: i32 = 4_194_304;

const RANGE: i32 = 294_912;

// What moving a line tells: whether it was interpolated, and its smallest and largest output sample.
#[derive(Clone, Copy)]
pub struct Moved {
    pub interpolated: bool,
    pub extremes: Extremes,
}

// The work places that a line of n samples takes; 0 for a length that number 1 refuses.
pub fn work_places(n: usize) -> usize
    ensures { result ≡ work_places n }
{
    if refusals::bad_side(n) { 0 } else { 6 * n }
}

// Whether the shortest of the buffers that hold a line has under n places, or the work under 6n.
fn too_short(n: usize, held: usize, work: usize) -> bool
    requires { n ≤ 1024 }
    ensures { result ≡ too_short n held work }
{
    held < n || work < 6 * n
}

// Numbers 1, 2, 4, 5, what the call's own test says, and 6; hands back the kernel of its number. The shortest of the buffers that hold a line has
// `held` places, the work `work`.
pub fn judge<E: Refuses>(
    n: usize,
    kernel: u32,
    d: i32,
    own: Result<(), E>,
    line: &[i32],
    held: usize,
    work: usize,
) -> Result<Kernel, E>
    requires { held ≤ length line.now }
    ensures { result ≡ answer_by (judged_as E.of_refusal n kernel d own line.now held work) (kernel_of kernel) }
{
    if refusals::bad_side(n) {
        return Err(E::of(Refusal::BadSize));
    }
    if too_short(n, held, work) {
        return Err(E::of(Refusal::TooShort));
    }
    if refusals::beyond(d, FARTHEST) {
        return Err(E::of(Refusal::TooFar));
    }
    let known = match Kernel::try_from(kernel) {
        Ok(known) => known,
        Err(refusal) => return Err(E::of(refusal)),
    };
    own?;
    match refusals::scanned(line, n, 1, RANGE) {
        Ok(()) => Ok(known),
        Err(refusal) => Err(E::of(refusal)),
    }
}

// The move of an accepted line of n samples.
#[derive(Clone, Copy)]
struct Move {
    n: usize,
    kernel: Kernel,
    d: i32,
    border: Border,
}

impl Move {
    // Makes it by way of `row`; says whether the line was interpolated.
    fn make_in(self, line: &[i32], res: &mut [i32], row: &mut [i32]) -> bool
        requires movable { Movable self.n self.d self.border line.now (length res.old) (6 * self.n) }
        requires row_len { length row.old ≡ places self.border self.n }
        ensures value { result ≡ is_interpolated self.border self.n self.d }
        ensures res_after { res.new ≡ move_in self.border self.kernel self.d (take self.n line.now) ++ drop self.n res.old }
    {
        let made = rows::held_of(self.border, self.n, i64::from(self.d));
        let f = arith::fraction_part(made);
        let start = rows::start_of(self.border, made, self.n);
        let window = rows::window_of(self.border, self.n, start);
        let loaded = rows::loaded_of(self.kernel, row.len(), window);
        rows::set_in(self.border, line, 0, 1, row, self.n, loaded);
        rows::treat(row, self.kernel, f, window);
        lists::store_line(res, 0, 1, row, start, self.n);
        0 < f
    }

    // The same by way of the work, which is cleared.
    fn make(self, line: &[i32], res: &mut [i32], work: &mut [i32]) -> bool
        requires { Movable self.n self.d self.border line.now (length res.old) (length work.old) }
        ensures value { result ≡ is_interpolated self.border self.n self.d }
        ensures res_after { res.new ≡ move_in self.border self.kernel self.d (take self.n line.now) ++ drop self.n res.old }
        ensures work_after { work.new ≡ replicate (6 * self.n) (pos 0) ++ drop (6 * self.n) work.old }
    {
        let m = rows::places_of(self.border, self.n);
        let interpolated = self.make_in(line, res, &mut work[..m]);
        lists::clear(&mut work[..6 * self.n]);
        interpolated
    }
}

// The first n samples of `line` moved by d/4,096 samples under a kernel and a border, into the first n places of `result`; the first 6n places
// of `work` are used, and hold 0 afterwards. Tells whether the line was interpolated, and the smallest and the largest of those n places of the
// result, which with linear lie in the range of the n samples and the background. Refuses, and then writes nothing: 1 a length n of 0 or over
// 1,024; 2 a line or a result under n places or a work under 6n; 4 a d beyond ±4,194,304; 5 a kernel over 2; 12 a background beyond ±32,767; 6 a
// sample beyond ±294,912, the first by its column, in row 0.
pub fn move_line(
    n: usize,
    kernel: u32,
    d: i32,
    border: Border,
    line: &[i32],
    res: &mut [i32],
    work: &mut [i32],
) -> Result<Moved, Refusal>
    ensures { LineMoved n kernel d border line.now res.old work.old res.new work.new result }
{
    let own = if moves::bad_background(border) {
        Err(Refusal::BadBackground)
    } else {
        Ok(())
    };
    let held = line.len().min(res.len());
    let kernel = judge(n, kernel, d, own, line, held, work.len())?;
    let accepted = Move {
        n,
        kernel,
        d,
        border,
    };
    let interpolated = accepted.make(line, res, work);
    Ok(Moved {
        interpolated,
        extremes: lists::extremes_of(&res[..n]),
    })
}
