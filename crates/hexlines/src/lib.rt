// One line of the line program answered: read, judged, straightened and written.
#![tactic(auto)]

ghost use Rattle.std.specs.Prelude.{◌≡◌, true, ◌*◌, ◌≤◌, max, length};
ghost use Rattle.format.specs.Line.{well_formed, width_in, height_in, size_in};
ghost use Rattle.format.specs.Answer.{number_of, answer_of};
ghost use Rattle.format.specs.Room.{Written};
ghost use Rattle.format.specs.Answered.{work_in, Roomy, Straightened, Answered, written_bytes, LineAnswered};

use refusals::Refusal;

// Judges a well-formed line of w by h greys and straightens its picture, in just as many places as it has greys; hands back how many lines were
// interpolated. A line that no number applies to is never refused by the straightener.
fn straighten_in(
    line: &[u8],
    w: usize,
    h: usize,
    picture: &mut [i32],
    res: &mut [i32],
    work: &mut [i32],
) -> Result<u32, Refusal>
    requires line_value { well_formed line.now ≡ true }
    requires size { (w ≡ width_in line.now) × (h ≡ height_in line.now) }
    requires picture_len { (length picture.old ≡ size_in line.now) × (length res.old ≡ size_in line.now) }
    requires work_len { number_of line.now ≡ 0 → work_in line.now ≤ length work.old }
    ensures { Straightened line.now picture.old res.old work.old picture.new res.new work.new result }
{
    let setting = fields::judge(w, h, fields::unchanged_in(line), fields::step_in(line))?;
    fields::read_greys(line, picture);
    let told = pictures::straighten(w, h, setting, picture, res, work)?;
    Ok(told.lines)
}

// Answers a well-formed line in lent places that are enough for it.
fn respond(
    line: &[u8],
    out: &mut [u8],
    picture: &mut [i32],
    res: &mut [i32],
    work: &mut [i32],
) -> Result<usize, Refusal>
    requires line_value { well_formed line.now ≡ true }
    requires roomy { Roomy line.now (length picture.old) (length res.old) (length work.old) }
    ensures text { Written (answer_of line.now) out.old out.new result }
    ensures places { Answered line.now out.old picture.old res.old work.old out.new picture.new res.new work.new (written_bytes result) }
{
    let w = fields::field(line, 6);
    let h = fields::field(line, 10);
    let n = w * h;
    let answer = straighten_in(line, w, h, &mut picture[..n], &mut res[..n], work);
    match answer {
        Ok(lines) => texts::accept(out, lines, w, h, &res[..n]),
        Err(refusal) => texts::refuse(out, refusal),
    }
}

// Answers any line, which comes without its line feed, in lent places: the answer is written to the front of out, with its line feed, and its
// length handed back; where out is too short for it, nothing is written and 0 handed back. The longest answer has 32,783 bytes. An accepted
// line leaves its samples, the picture straightened and 0 at the front of the three arrays; a refused one leaves them as they were.
// It answers a number and lends three arrays because `Answered` promises that.
pub fn answer_in(
    line: &[u8],
    out: &mut [u8],
    picture: &mut [i32; 4096],
    res: &mut [i32; 4096],
    work: &mut [i32; 12288],
) -> usize
    ensures { Answered line.now out.old picture.old res.old work.old out.new picture.new res.new work.new result }
{
    if fields::well_formed(line) {
        respond(line, out, picture, res, work).unwrap_or(0)
    } else {
        texts::refuse(out, Refusal::Malformed).unwrap_or(0)
    }
}

// Room for the samples of one line, or of its result: `stream` keeps such places over its lines.
pub fn places() -> [i32; 4096] {
    [0; 4096]
}

// Room for the work of one line: 12·max(W, H) places, and a line of the line program may name a side of 1,024.
pub fn work_places() -> [i32; 12288] {
    [0; 12288]
}

// Answers a well-formed line in places of its own, so many for its samples and for those of its result, and so many for work.
fn respond_with<const PLACES: usize, const WORK: usize>(
    line: &[u8],
    out: &mut [u8],
) -> Result<usize, Refusal>
    requires line_value { well_formed line.now ≡ true }
    requires roomy { Roomy line.now PLACES PLACES WORK }
    requires few { (PLACES ≤ 4096) × (WORK ≤ 12288) }
    ensures { Written (answer_of line.now) out.old out.new result }
{
    let mut picture = [0; PLACES];
    let mut straightened = [0; PLACES];
    let mut work = [0; WORK];
    respond(line, out, &mut picture, &mut straightened, &mut work)
}

// Answers a well-formed line in places of its own: as few as it needs, since clearing them is most of what a short line costs. There are up to 256
// greys in a line of up to 534 digits.
fn respond_own(line: &[u8], out: &mut [u8]) -> Result<usize, Refusal>
    requires { well_formed line.now ≡ true }
    ensures { Written (answer_of line.now) out.old out.new result }
{
    if line.len() <= 534 {
        return respond_with::<256, 3072>(line, out);
    }
    if fields::field(line, 6).max(fields::field(line, 10)) <= 256 {
        return respond_with::<4096, 3072>(line, out);
    }
    respond_with::<4096, 12288>(line, out)
}

// The answer to any line, which comes without its line feed, to the front of out, with its line feed. An out under the places of the answer,
// at most 32,783, is refused with 2 and stays as it was.
pub fn answer(line: &[u8], out: &mut [u8]) -> Result<usize, Refusal>
    ensures { LineAnswered line.now out.old out.new result }
{
    if fields::well_formed(line) {
        respond_own(line, out)
    } else {
        texts::refuse(out, Refusal::Malformed)
    }
}
