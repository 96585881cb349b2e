// The three-pass call: a grey picture straightened by three shears, of its rows, its columns and its rows again. Samples are in 128ths of
// a grey, stored row by row, and shears in 4,096ths.
// The tests read the picture once, but for a row with a bad sample. An accepted picture is copied into the result and straightened there, four
// lines at a time by way of `work`; then the result is looked through for its extremes. docs/PERFORMANCE.md says what that costs.
#![tactic(auto)]

ghost use Rattle.std.specs.Prelude.{◌≡◌, ◌++◌, ◌*◌, max, pos, length, take, drop, replicate};
ghost use Rattle.passes.specs.Picture.{straighten};
ghost use Rattle.passes.specs.Count.{count};
ghost use Rattle.acceptance.specs.Judge.{Fit};
ghost use Rattle.pictures.specs.Answer.{kernel_in, row_moves, column_moves, AnswerOn, Answer};

use lists::Extremes;
use planes::Slices;
use refusals::Refusal;
use settings::Setting;

// What an accepted call tells: the number of lines interpolated, and the smallest and the largest sample of the result.
#[derive(Clone, Copy)]
pub struct Straightened {
    pub lines: u32,
    pub extremes: Extremes,
}

// Rows, columns, rows, in place: a picture is one slice of its own. Answers how many lines were interpolated.
fn three_passes(
    picture: &mut [i32],
    work: &mut [i32],
    width: usize,
    height: usize,
    setting: Setting,
) -> u32
    requires fit { Fit width height setting picture.old (length picture.old) (length work.old) }
    requires picture_len { length picture.old ≡ width * height }
    ensures picture_after { picture.new ≡ straighten setting.border (kernel_in setting) width height (row_moves setting) (column_moves setting) picture.old }
    ensures value { result ≡ count setting.border width height (row_moves setting) (column_moves setting) }
{
    let own = Slices {
        columns: width,
        rows: height,
        slices: 1,
        along: 1,
        across: width,
        step: width * height,
    };
    planes::straighten_slices(picture, work, own, setting);
    offsets::count_of(width, height, setting)
}

// An accepted call: the picture is copied into the result and straightened there, and the work places are cleared. Answers how many lines were
// interpolated.
pub fn straighten_accepted(
    width: usize,
    height: usize,
    setting: Setting,
    picture: &[i32],
    res: &mut [i32],
    work: &mut [i32],
) -> u32
    requires { Fit width height setting picture.now (length res.old) (length work.old) }
    ensures res_after { res.new ≡ straighten setting.border (kernel_in setting) width height (row_moves setting) (column_moves setting) (take (width * height) picture.now) ++ drop (width * height) res.old }
    ensures work_after { work.new ≡ replicate (12 * max width height) (pos 0) ++ drop (12 * max width height) work.old }
    ensures value { result ≡ count setting.border width height (row_moves setting) (column_moves setting) }
{
    let places = width * height;
    let room = acceptance::room(width, height);
    lists::copy(&picture[..places], &mut res[..places]);
    let lines = three_passes(
        &mut res[..places],
        &mut work[..room],
        width,
        height,
        setting,
    );
    lists::clear(&mut work[..room]);
    lines
}

// The call below, made on a ticket or on none: `other` says that there is a ticket and that it is of another size, which is refused under 14, judged
// after 2 and before 3.
pub fn straighten_on(
    other: bool,
    width: usize,
    height: usize,
    setting: Setting,
    picture: &[i32],
    res: &mut [i32],
    work: &mut [i32],
) -> Result<Straightened, Refusal>
    ensures { AnswerOn other width height setting picture.now res.old work.old result res.new work.new }
{
    acceptance::judge_on(
        other,
        width,
        height,
        setting,
        picture,
        res.len(),
        work.len(),
    )?;
    let lines = straighten_accepted(width, height, setting, picture, res, work);
    let extremes = lists::extremes_of(&res[..width * height]);
    Ok(Straightened { lines, extremes })
}

// Straightens a picture of `width` by `height` samples into `result`, with the kernel, the centre, the shears and the border of `setting`. `work` lends
// 12·max(width, height) places, which hold 0 after it. It tells the lines interpolated, and the smallest and the largest sample of the result, which
// with linear lie in the range of the picture's samples and the background.
// It refuses, and writes nothing: 1 a side of 0 or over 1,024; 2 a picture or a result under width·height places, or work under its own; 3 a centre
// outside the picture; 4 a shear beyond ±4,096; 5 an unknown kernel; 12 a background beyond ±32,767, judged before 6; 6 a sample beyond ±32,767,
// with its row and column.
pub fn straighten(
    width: usize,
    height: usize,
    setting: Setting,
    picture: &[i32],
    res: &mut [i32],
    work: &mut [i32],
) -> Result<Straightened, Refusal>
    ensures { Answer width height setting picture.now res.old work.old result res.new work.new }
{
    straighten_on(false, width, height, setting, picture, res, work)
}
