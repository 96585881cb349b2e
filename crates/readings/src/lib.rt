// What the candidate reads the 3 dB widths from: greys out, floats out, a reading and the summary of a whole picture of samples within
// ±1,048,576, 128 units to one grey. Each call judges its input first (numbers 1, 2, 6, and 7 of a point) and writes nothing when it
// refuses. A call passes twice over the picture, once to judge and once to answer; a reading passes once.
#![tactic(auto)]

ghost use Rattle.std.specs.Prelude.{◌≡◌, ◌*◌, ◌≤◌, ℤ, length, nat_abs};
ghost use Rattle.lists.specs.Tab.{tab};
ghost use Rattle.lists.specs.Line.{line};
ghost use Rattle.readings.specs.Sample.{grey_of, float_of, reading_of};
ghost use Rattle.readings.specs.Answers.{range, judged_as, judged, outside, judged_point, Out, FloatsOut, ReadingAt, SummaryOf};
ghost use Rattle.refusals.specs.Tests.{AllWithin};

use refusals::{Refusal, Refuses};

// The range of samples, either way from 0.
const RANGE: i32 = 1_048_576;

// Black and white of the video range: greys 16 and 235.
const BLACK: i32 = 2_048;

const WHITE: i32 = 30_080;

// A reading: below black Under, with the greys that are missing; above white Over, with those that are too many; otherwise Level, with its greys.
#[derive(Clone, Copy)]
pub enum Reading {
    Level(f32),
    Under(f32),
    Over(f32),
}

// The darkest and the lightest grey of a picture, held to no range.
#[derive(Clone, Copy)]
pub struct Summary {
    pub darkest: f32,
    pub lightest: f32,
}

// ---- one sample

// The greys of a sample, or of the difference of two, as a float with nothing rounded: 0.0078125 is 1/128.
fn float(v: i32) -> f32
    requires { nat_abs v ≤ 2 * range }
    ensures { result ≡ float_of v }
{
    v as f32 * 0.0078125
}

// The reading of a sample.
fn read(v: i32) -> Reading
    requires { nat_abs v ≤ range }
    ensures { result ≡ reading_of v }
{
    if v < BLACK {
        return Reading::Under(float(BLACK - v));
    }
    if WHITE < v {
        return Reading::Over(float(v - WHITE));
    }
    Reading::Level(float(v))
}

// A form that samples are given in: a grey as a byte, to the nearest, halves upward, or as a float, with nothing rounded.
trait Form: Copy {
    ghost form_of: { ℤ → Self };

    fn of_sample(v: i32) -> Self
        requires { nat_abs v ≤ range }
        ensures { result ≡ form_of v };
}

impl Form for u8 {
    ghost form_of = { grey_of };

    fn of_sample(v: i32) -> u8 {
        ((v + 64) >> 7).clamp(0, 255) as u8
    }
}

impl Form for f32 {
    ghost form_of = { float_of };

    fn of_sample(v: i32) -> f32 {
        float(v)
    }
}

// ---- a picture

// Numbers 1 and 2 of a call that lends a picture, then `own`, which is the verdict under the call's own number, then 6. The shortest lent buffer has
// `places` places.
pub fn judge_by<E: Refuses>(
    width: usize,
    height: usize,
    places: usize,
    own: Result<(), E>,
    picture: &[i32],
) -> Result<(), E>
    requires { places ≤ length picture.now }
    ensures { result ≡ judged_as E.of_refusal width height places own picture.now }
{
    if refusals::bad_size(width, height) {
        return Err(E::of(Refusal::BadSize));
    }
    if places < height * width {
        return Err(E::of(Refusal::TooShort));
    }
    own?;
    match refusals::scanned(picture, width, height, RANGE) {
        Ok(()) => Ok(()),
        Err(refusal) => Err(E::of(refusal)),
    }
}

// Numbers 1, 2 and 6 of a call that has no number of its own there.
pub fn judge(width: usize, height: usize, places: usize, picture: &[i32]) -> Result<(), Refusal>
    requires { places ≤ length picture.now }
    ensures { result ≡ judged width height places picture.now }
{
    judge_by(width, height, places, Ok(()), picture)
}

// Whether a point is outside the picture.
#[tactic(auto, unfolding(crate::specs::Answers::outside))]
fn is_outside(width: usize, height: usize, column: usize, row: usize) -> bool
    ensures { result ≡ outside width height column row }
{
    width <= column || height <= row
}

// Numbers 1, 2, 6 and 7.
fn judge_point(
    width: usize,
    height: usize,
    column: usize,
    row: usize,
    picture: &[i32],
) -> Result<(), Refusal>
    ensures { result ≡ judged_point width height column row picture.now }
{
    judge(width, height, picture.len(), picture)?;
    if is_outside(width, height, column, row) {
        return Err(Refusal::Outside);
    }
    Ok(())
}

// Every place becomes the form of its sample.
fn fill<T: Form>(picture: &[i32], places: &mut [T])
    requires { (length picture.now ≡ length places.old) × AllWithin range (length picture.now) picture.now }
    ensures { places.new ≡ tab (λ k. T.form_of (line picture.now k)) (length picture.now) }
{
    for (k, place) in places.iter_mut().enumerate() {
        *place = T::of_sample(picture[k]);
    }
}

// The first W·H places become the forms of the picture's samples; later places stay. Refusals 1, 2, 6.
fn forms_out<T: Form>(
    width: usize,
    height: usize,
    picture: &[i32],
    places: &mut [T],
) -> Result<(), Refusal>
    ensures { Out T.form_of width height picture.now places.old places.new result }
{
    judge(width, height, picture.len().min(places.len()), picture)?;
    let n = height * width;
    fill(&picture[..n], &mut places[..n]);
    Ok(())
}

// ---- the calls

// Greys out: the first W·H places of `greys` become the greys of the picture. Refusals 1, 2, 6.
pub fn greys_out(
    width: usize,
    height: usize,
    picture: &[i32],
    greys: &mut [u8],
) -> Result<(), Refusal>
    ensures { Out grey_of width height picture.now greys.old greys.new result }
{
    forms_out(width, height, picture, greys)
}

// Floats out: the first W·H places of `floats` become the greys of the picture, with nothing rounded. Refusals 1, 2, 6.
pub fn floats_out(
    width: usize,
    height: usize,
    picture: &[i32],
    floats: &mut [f32],
) -> Result<(), Refusal>
    ensures { FloatsOut width height picture.now floats.old floats.new result }
{
    forms_out(width, height, picture, floats)
}

// The reading at a column and a row of the picture. Refusals 1, 2, 6, 7.
pub fn reading_at(
    width: usize,
    height: usize,
    column: usize,
    row: usize,
    picture: &[i32],
) -> Result<Reading, Refusal>
    ensures { ReadingAt width height column row picture.now result }
{
    judge_point(width, height, column, row, picture)?;
    Ok(read(picture[row * width + column]))
}

// The darkest and the lightest grey of the picture. Refusals 1, 2, 6.
pub fn summary_of(width: usize, height: usize, picture: &[i32]) -> Result<Summary, Refusal>
    ensures { SummaryOf width height picture.now result }
{
    judge(width, height, picture.len(), picture)?;
    let extremes = lists::extremes_of(&picture[..height * width]);
    Ok(Summary {
        darkest: float(extremes.smallest),
        lightest: float(extremes.largest),
    })
}
