// What a line of the line program says: whether it is well formed, its fields, its setting or the lowest number that applies to it, its samples.
#![tactic(auto)]

ghost use Rattle.std.specs.Prelude.{◌≡◌, true, ◌+◌, ◌*◌, ◌<◌, ◌≤◌, pos, neg_ℤ, length};
ghost use Rattle.lists.specs.Tab.{tab};
ghost use Rattle.digits.specs.Digit.{is_digit, all_digits, digit_value};
ghost use Rattle.settings.specs.Setting.{with_shears};
ghost use Rattle.steps.specs.Step.{S};
ghost use Rattle.acceptance.specs.Judge.{bad_centre};
ghost use Rattle.format.specs.Line.{field_at, step_in, well_formed, sample_at};
ghost use Rattle.format.specs.Answer.{unchanged_in};
ghost use Rattle.format.specs.Answered.{judged};

use refusals::Refusal;
use settings::{Border, Setting};

// The field of four digits at a place.
#[tactic(auto, using(digits::proofs::Test::all_part), unfolding(format::specs::Line::field_at))]
pub fn field(line: &[u8], at: usize) -> usize
    requires { (at < 100) × (at + 4 ≤ length line.now) × (all_digits line.now ≡ true) }
    ensures { (result ≡ field_at line.now at) × (result < 65536) }
{
    digits::hex_value(&line[at..at + 4]) as usize
}

// Whether number 9 does not apply.
#[tactic(auto, using(std::proofs::lemmas::Bool::Decides::nat_tests), unfolding(format::specs::Line::well_formed))]
pub fn well_formed(line: &[u8]) -> bool
    ensures { result ≡ well_formed line.now }
{
    if line.len() < 22 || !digits::all_digits(line) {
        return false;
    }
    let n = field(line, 6) * field(line, 10);
    n <= 4096 && line.len() == 22 + 2 * n
}

// A setting of the line's kernel and centre with wrapped edges, before its step.
#[tactic(auto, unfolding(format::specs::Answer::unchanged_in))]
pub fn unchanged_in(line: &[u8]) -> Setting
    requires { (22 ≤ length line.now) × (all_digits line.now ≡ true) }
    ensures { result ≡ unchanged_in line.now }
{
    let kernel = digits::hex_value(&line[..2]);
    let cx = field(line, 14);
    let cy = field(line, 18);
    Setting {
        kernel,
        cx,
        cy,
        a: 0,
        b: 0,
        border: Border::Wrapped,
    }
}

// The line's step.
pub fn step_in(line: &[u8]) -> i32
    requires { (22 ≤ length line.now) × (all_digits line.now ≡ true) }
    ensures { result ≡ step_in line.now }
{
    digits::signed_value(field(line, 2) as u32)
}

// Whether the centre is outside a picture of w by h.
#[tactic(auto, unfolding(acceptance::specs::Judge::bad_centre))]
fn bad_centre(w: usize, h: usize, setting: Setting) -> bool
    ensures { result ≡ bad_centre w h setting }
{
    w <= setting.cx || h <= setting.cy
}

// A setting changed by step t, for a picture of w by h; refused under the lowest of 1, 3, 4 and 5 that applies.
#[tactic(auto, unfolding(format::specs::Answered::judged, refusals::specs::Tests::bad_kernel, steps::specs::Step::change_of))]
pub fn judge(w: usize, h: usize, setting: Setting, t: i32) -> Result<Setting, Refusal>
    ensures { result ≡ judged w h setting t (with_shears setting (neg_ℤ t) (S t)) }
{
    if refusals::bad_size(w, h) {
        return Err(Refusal::BadSize);
    }
    if bad_centre(w, h, setting) {
        return Err(Refusal::BadCentre);
    }
    let changed = steps::with_step(setting, t)?;
    if 2 < setting.kernel {
        return Err(Refusal::BadKernel);
    }
    Ok(changed)
}

// The sample of a grey of two digits.
fn grey_sample(high: u8, low: u8) -> i32
    requires { (is_digit high ≡ true) × (is_digit low ≡ true) }
    ensures { result ≡ pos ((digit_value high * 16 + digit_value low) * 128) }
{
    ((digits::digit_value(high) * 16 + digits::digit_value(low)) * 128) as i32
}

// The samples of a line's greys, as many as picture has places.
pub fn read_greys(line: &[u8], picture: &mut [i32])
    requires { (22 + 2 * length picture.old ≤ length line.now) × (all_digits line.now ≡ true) }
    ensures { picture.new ≡ tab (sample_at line.now) (length picture.old) }
{
    for (k, sample) in picture.iter_mut().enumerate() {
        *sample = grey_sample(line[22 + 2 * k], line[23 + 2 * k]);
    }
}
