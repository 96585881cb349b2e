// Steps. Step t is 4,096 times the tangent of half the angle; it sets A = -t and B = S(t).
#![tactic(auto)]

ghost use Rattle.std.specs.Prelude.{◌≡◌, false, ◌≤◌, pos, nat_abs, ◌≤ℤ◌};
ghost use Rattle.refusals.specs.Judging.{accepted, refused_if};
ghost use Rattle.steps.specs.Step.{beyond, entry, S, SineAnswer, change_of};

use refusals::Refusal;
use settings::Setting;

mod table;

// The range of a step, either way from 0.
const RANGE: i32 = 1697;

// The table's entry of |t|. The array is named here alone, since each mention copies it.
fn listed(t: i32) -> u16
    requires { nat_abs t ≤ 1697 }
    ensures { result ≡ entry (nat_abs t) }
{
    table::SINES[t.unsigned_abs() as usize]
}

// S(t), from the entry of |t|.
fn sine_of(t: i32) -> i32
    requires { beyond t ≡ false }
    ensures { result ≡ S t }
{
    let s = i32::from(listed(t));
    if t < 0 { -s } else { s }
}

// Number 4 for a step beyond ±1,697.
fn judge(t: i32) -> Result<(), Refusal>
    ensures { result ≡ refused_if (beyond t) Refusal.TooFar accepted }
{
    if refusals::beyond(t, RANGE) {
        return Err(Refusal::TooFar);
    }
    Ok(())
}

// S of step t; beyond ±1,697 it is refused with 4.
pub fn sine(t: i32) -> Result<i32, Refusal>
    ensures { SineAnswer t result }
{
    judge(t)?;
    Ok(sine_of(t))
}

// The setting with the shears of step t, A = -t and B = S(t); beyond ±1,697 it is refused with 4.
pub fn with_step(setting: Setting, t: i32) -> Result<Setting, Refusal>
    ensures { result ≡ change_of setting t }
{
    judge(t)?;
    Ok(setting.with_shears(-t, sine_of(t)))
}
