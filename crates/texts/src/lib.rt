// The text of an answer, written to the front of a lent buffer where it fits: the places of its numbers first, which are then spelt as digits.
#![tactic(auto)]

ghost use Rattle.std.specs.Prelude.{◌≡◌, ◌+◌, ◌*◌, ◌<◌, ◌≤◌, length};
ghost use Rattle.refusals.specs.Judging.{number, place};
ghost use Rattle.digits.specs.Digit.{places_of};
ghost use Rattle.format.specs.Answer.{refusal_text, accepted_text};
ghost use Rattle.format.specs.Room.{Written, Front, piece_at, head_places, sample_places, closed};

use refusals::Refusal;

// The lowest n places of v at a place of out.
#[tactic(auto, using(format::proofs::Front::piece_places))]
fn put_at(out: &mut [u8], at: usize, n: usize, v: u64)
    requires { at + n ≤ length out.old }
    ensures { out.new ≡ piece_at at (places_of n v) out.old }
{
    digits::put_places(&mut out[at..at + n], v);
}

// The ten places that every answer begins with.
#[tactic(auto, using(format::proofs::Text::head_written))]
fn put_head(out: &mut [u8], a: u64, b: u64, c: u64)
    requires { 10 ≤ length out.old }
    ensures { Front (head_places a b c) out.old out.new }
{
    put_at(out, 0, 2, a);
    put_at(out, 2, 4, b);
    put_at(out, 6, 4, c);
}

// Fills out with the eight places of each sample.
#[tactic(auto, using(format::proofs::Text::samples_none, format::proofs::Text::samples_more))]
fn put_samples(out: &mut [u8], samples: &[i32])
    requires { length out.old ≡ 8 * length samples.now }
    ensures { out.new ≡ sample_places samples.now }
{
    for (k, v) in samples.iter().enumerate() {
        put_at(out, k * 8, 8, digits::word_of(*v));
    }
}

// Spells the first end places and puts a line feed behind them; hands back how many bytes that makes.
#[tactic(auto, using(format::proofs::Front::closed_by))]
fn close(out: &mut [u8], end: usize) -> usize
    requires { end < length out.old }
    ensures { (result ≡ end + 1) × (out.new ≡ closed end out.old) }
{
    digits::spell(&mut out[..end]);
    out[end] = b'\n';
    end + 1
}

// Writes a refusal: its number, and the row and the column that it names. An out under its places is refused with 2 and stays as it was.
// It stands in line, so that the answer to a malformed line, which is always the same, is no more than its stores.
#[inline(always)]
pub fn refuse(out: &mut [u8], refusal: Refusal) -> Result<usize, Refusal>
    ensures { Written (refusal_text (number refusal) (place refusal).row (place refusal).column) out.old out.new result }
{
    if out.len() < 11 {
        return Err(Refusal::TooShort);
    }
    let place = refusal.place();
    put_head(
        out,
        u64::from(refusal.number()),
        place.row as u64,
        place.column as u64,
    );
    Ok(close(out, 10))
}

// Writes the answer to an accepted line. An out under its places is refused with 2 and stays as it was.
pub fn accept(
    out: &mut [u8],
    count: u32,
    w: usize,
    h: usize,
    samples: &[i32],
) -> Result<usize, Refusal>
    requires { length samples.now ≤ 4096 }
    ensures { Written (accepted_text count w h samples.now) out.old out.new result }
{
    let end = 14 + 8 * samples.len();
    if out.len() <= end {
        return Err(Refusal::TooShort);
    }
    put_head(out, 0, u64::from(count), w as u64);
    put_at(out, 10, 4, h as u64);
    put_samples(&mut out[14..end], samples);
    Ok(close(out, end))
}
