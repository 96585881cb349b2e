// Whether a call is straightened: the tests of numbers 1, 2, 14, 3, 4, 5, 12 and 6, in their order, and the work places that it takes. Nothing
// is written.
#![tactic(auto)]

ghost use Rattle.std.specs.Prelude.{◌≡◌, ◌*◌, ◌≤◌, max};
ghost use Rattle.acceptance.specs.Judge.{work_places, too_short, bad_centre, bad_shears, judged_setting, judged_on, judged};

use refusals::Refusal;
use settings::Setting;

// The samples of a picture that is straightened are within plus or minus this, in 128ths of a grey.
const RANGE: i32 = 32_767;

// The work places that a picture takes: 12 for each sample of its longer side.
pub fn room(width: usize, height: usize) -> usize
    requires { (width ≤ 1024) × (height ≤ 1024) }
    ensures { result ≡ 12 * max width height }
{
    12 * width.max(height)
}

// The same for a caller, who may ask about any size: 0 for one that number 1 refuses.
#[tactic(auto, using(refusals::proofs::Tests::size_good), unfolding(crate::specs::Judge::work_places))]
pub fn work_places(width: usize, height: usize) -> usize
    ensures { result ≡ work_places width height }
{
    let refused = refusals::bad_size(width, height);
    if refused {
        return 0;
    }
    room(width, height)
}

// Number 2: whether a buffer is too short, by their numbers of places.
#[tactic(auto, unfolding(crate::specs::Judge::too_short, refusals::specs::Tests::short))]
fn too_short(width: usize, height: usize, picture: usize, res: usize, work: usize) -> bool
    requires { (width ≤ 1024) × (height ≤ 1024) }
    ensures { result ≡ too_short width height picture res work }
{
    let places = width * height;
    picture < places || res < places || work < room(width, height)
}

// Number 3: whether the centre is outside the picture.
#[tactic(auto, unfolding(crate::specs::Judge::bad_centre))]
fn bad_centre(width: usize, height: usize, setting: Setting) -> bool
    ensures { result ≡ bad_centre width height setting }
{
    width <= setting.cx || height <= setting.cy
}

// Number 4: whether a shear is beyond its range.
#[tactic(auto, unfolding(crate::specs::Judge::bad_shears))]
fn bad_shears(setting: Setting) -> bool
    ensures { result ≡ bad_shears setting }
{
    refusals::beyond(setting.a, 4096) || refusals::beyond(setting.b, 4096)
}

// What a setting is refused under, on a picture of `width` by `height` samples: 3, 4, 5 or 12, in this order.
#[tactic(auto, unfolding(refusals::specs::Tests::bad_kernel))]
pub fn judge_setting(width: usize, height: usize, setting: Setting) -> Result<(), Refusal>
    ensures { result ≡ judged_setting width height setting }
{
    if bad_centre(width, height, setting) {
        return Err(Refusal::BadCentre);
    }
    if bad_shears(setting) {
        return Err(Refusal::TooFar);
    }
    if 2 < setting.kernel {
        return Err(Refusal::BadKernel);
    }
    if moves::bad_background(setting.border) {
        return Err(Refusal::BadBackground);
    }
    Ok(())
}

// What a call is refused under, of a call with a result and work of so many places. 14 is judged after 2 and before the setting, where
// `other` says that the call is made on a ticket of another size.
#[tactic(auto, using(refusals::proofs::Tests::size_good, crate::proofs::Accepted::long_enough), unfolding(crate::specs::Judge::judged_on))]
pub fn judge_on(
    other: bool,
    width: usize,
    height: usize,
    setting: Setting,
    picture: &[i32],
    res: usize,
    work: usize,
) -> Result<(), Refusal>
    ensures { result ≡ judged_on other width height setting picture.now res work }
{
    if refusals::bad_size(width, height) {
        return Err(Refusal::BadSize);
    }
    if too_short(width, height, picture.len(), res, work) {
        return Err(Refusal::TooShort);
    }
    if other {
        return Err(Refusal::OtherSize);
    }
    judge_setting(width, height, setting)?;
    refusals::scanned(picture, width, height, RANGE)
}

// The same of a call that is made on no ticket.
pub fn judge(
    width: usize,
    height: usize,
    setting: Setting,
    picture: &[i32],
    res: usize,
    work: usize,
) -> Result<(), Refusal>
    ensures { result ≡ judged width height setting picture.now res work }
{
    judge_on(false, width, height, setting, picture, res, work)
}
