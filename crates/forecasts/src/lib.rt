// What a straightening takes and can leave, told from its size, its setting and the largest sample size, before there is a picture: the work places
// that it needs, the lines that it interpolates, and a bound on the size of any sample of its result.
#![tactic(auto)]

ghost use Rattle.std.specs.Prelude.{◌≡◌, ◌≤◌, nat_abs};
ghost use Rattle.moves.specs.Border.{grey};
ghost use Rattle.acceptance.specs.Judge.{FitSetting};
ghost use Rattle.forecasts.specs.Figures.{judged_ahead, onward, bound_of, largest_in, figures_of, forecast_of};

use kernels::Kernel;
use refusals::Refusal;
use settings::{Border, Setting};

// The largest sample size of a picture that is straightened, in 128ths of a grey.
const RANGE: u32 = 32_767;

// The work places, the lines interpolated, and a bound on the size of any sample of the result, which lies from -bound to bound.
#[derive(Clone, Copy)]
pub struct Figures {
    pub work: usize,
    pub count: u32,
    pub bound: i32,
}

// What a forecast is refused under: 1, 3, 4, 5, 12 or 6, in this order. 6 is a largest sample size beyond the range, and names no place.
#[tactic(auto, unfolding(crate::specs::Figures::judged_ahead))]
fn judge(width: usize, height: usize, setting: Setting, largest: u32) -> Result<(), Refusal>
    ensures { result ≡ judged_ahead width height setting largest }
{
    if refusals::bad_size(width, height) {
        return Err(Refusal::BadSize);
    }
    acceptance::judge_setting(width, height, setting)?;
    if RANGE < largest {
        return Err(Refusal::TooLarge);
    }
    Ok(())
}

// The size of the background, 0 where there is none.
fn background_size(border: Border) -> usize
    ensures { result ≡ nat_abs (grey border) }
{
    match border {
        Border::Wrapped => 0,
        Border::Background(b) => b.unsigned_abs() as usize,
    }
}

// The largest size of any sample that goes into a line: the background's, where it is larger than the picture's.
fn largest_in(border: Border, largest: usize) -> usize
    ensures { result ≡ largest_in border largest }
{
    largest.max(background_size(border))
}

// How far one pass under Keys takes samples of at most this size.
fn keys_onward(size: usize) -> usize
    requires { size ≤ 294912 }
    ensures { result ≡ onward size }
{
    (5 * size + 2) / 4
}

// How far three passes take samples of at most this size.
fn bound_of(kernel: Kernel, size: usize) -> usize
    requires { size ≤ 32767 }
    ensures { (result ≡ bound_of kernel size) × (result ≤ 884709) }
{
    match kernel {
        Kernel::Linear => size,
        Kernel::Keys => keys_onward(keys_onward(keys_onward(size))),
        Kernel::Spline => 27 * size,
    }
}

// The figures of a forecast that is accepted.
fn figures_of(width: usize, height: usize, setting: Setting, largest: u32) -> Figures
    requires { (width ≤ 1024) × (height ≤ 1024) × (largest ≤ 32767) × FitSetting width height setting }
    ensures { result ≡ figures_of width height setting largest }
{
    let kernel = Kernel::try_from(setting.kernel).unwrap();
    let size = largest_in(setting.border, largest as usize);
    let bound = bound_of(kernel, size) as i32;
    Figures {
        work: acceptance::room(width, height),
        count: offsets::count_of(width, height, setting),
        bound,
    }
}

// Tells what straightening a picture of `width` by `height` samples with this setting needs and does, and how large a sample of its result can be, where
// every sample of the picture is from -largest to largest. It refuses: 1 a side of 0 or over 1,024; 3 a centre outside the picture; 4 a shear beyond
// ±4,096; 5 an unknown kernel; 12 a background beyond ±32,767, judged before 6; 6 a largest sample size over 32,767.
#[tactic(auto, unfolding(crate::specs::Figures::forecast_of))]
pub fn forecast(
    width: usize,
    height: usize,
    setting: Setting,
    largest: u32,
) -> Result<Figures, Refusal>
    ensures { result ≡ forecast_of width height setting largest }
{
    judge(width, height, setting, largest)?;
    Ok(figures_of(width, height, setting, largest))
}
