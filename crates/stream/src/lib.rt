// The line program as turns on slices: a block of the input goes in, the answers to the lines that end in it and what is held of an
// unfinished line come out.
//     turn   a block read
//     last   the end of the input
#![tactic(auto)]

ghost use Rattle.std.specs.Prelude.{◌≡◌, ◌++◌, ◌+◌, ◌*◌, ◌≤◌, length, take};
ghost use Rattle.format.specs.Answer.{answer_of};
ghost use Rattle.format.specs.Room.{Fitted};
ghost use Rattle.stream.specs.Steps.{cut, Stands, Finished, Read, Stepped, Turned, Last};

// The bytes of a block of the input.
pub const BLOCK_BYTES: usize = 65536;

// The bytes that are held of a line, one more than a well-formed one has.
pub const LINE_BYTES: usize = 8215;

// The bytes that the answers to the lines which end in a block may take.
pub const ANSWER_BYTES: usize = 1_048_576;

// Room for what is held of a line.
pub fn line_room() -> [u8; LINE_BYTES]
    ensures { 8215 ≡ length result }
{
    [0; LINE_BYTES]
}

// What is held of an unfinished line: the first `used` bytes.
#[derive(Clone, Copy)]
struct Unfinished {
    bytes: [u8; LINE_BYTES],
    used: usize,
    ghost within: { used ≤ 8215 },
}

impl Unfinished {
    // The first `used` bytes of carry, or all that there are.
    fn of(carry: &[u8; LINE_BYTES], used: usize) -> Self
        ensures { (result.bytes ≡ carry.now) × (take result.used carry.now ≡ take used carry.now) }
    {
        Unfinished {
            bytes: *carry,
            used: used.min(LINE_BYTES),
        }
    }

    fn held(&self) -> &[u8]
        ensures { result.now ≡ take self.now.used self.now.bytes }
    {
        &self.bytes[..self.used]
    }

    // Holds s behind the bytes held, as far as there is room.
    fn hold(&mut self, s: &[u8])
        ensures { Stands (cut (take self.old.used self.old.bytes ++ s.now)) self.old.bytes self.new.bytes self.new.used }
    {
        let n = s.len().min(LINE_BYTES - self.used);
        self.bytes[self.used..self.used + n].copy_from_slice(&s[..n]);
        self.used += n;
    }
}

// Places for the samples of a line, for its result and for the work on it.
#[derive(Drop)]
struct Places {
    picture: [i32; 4096],
    straightened: [i32; 4096],
    work: [i32; 12288],
}

impl Places {
    fn new() -> Self {
        Places {
            picture: hexlines::places(),
            straightened: hexlines::places(),
            work: hexlines::work_places(),
        }
    }

    // Answers a line at the front of out.
    fn answer(&mut self, line: &[u8], out: &mut [u8]) -> usize
        ensures { Fitted (answer_of line.now) out.old out.new result }
    {
        hexlines::answer_in(
            line,
            out,
            &mut self.picture,
            &mut self.straightened,
            &mut self.work,
        )
    }
}

// Answers the line that was held and ends with s. Where nothing was held, s is answered where it stands; else the line is put together in a
// copy, so that what is held stays.
fn finish(s: &[u8], held: &Unfinished, places: &mut Places, out: &mut [u8]) -> usize
    requires { 32783 ≤ length out.old }
    ensures { Finished s.now (take held.now.used held.now.bytes) out.old out.new result }
{
    if held.used == 0 {
        return places.answer(s, out);
    }
    let mut line = *held;
    line.hold(s);
    places.answer(line.held(), out)
}

// How much of the input was taken, and how many bytes were written.
#[derive(Clone, Copy)]
struct Advance {
    taken: usize,
    wrote: usize,
}

// Reads s to the end of its first line, and answers that line; where none ends in s, holds s.
fn step(s: &[u8], held: &mut Unfinished, places: &mut Places, out: &mut [u8]) -> Advance
    requires { 32783 ≤ length out.old }
    ensures { Stepped s.now held.old.bytes held.new.bytes held.old.used held.new.used out.old out.new result }
{
    let n = feeds::line_length(s);
    if n == s.len() {
        held.hold(s);
        return Advance { taken: n, wrote: 0 };
    }
    let wrote = finish(&s[..n], held, places, out);
    held.used = 0;
    Advance {
        taken: n + 1,
        wrote,
    }
}

// Reads the lines of s one after the other, and hands back how many bytes were written. There is room for their answers: eleven bytes for
// each byte read, and twice the longest answer.
fn lines(s: &[u8], held: &mut Unfinished, places: &mut Places, out: &mut [u8]) -> usize
    requires { 65566 + 11 * length s.now ≤ length out.old }
    ensures { Read s.now held.old.bytes held.new.bytes held.old.used held.new.used out.old out.new result }
{
    let mut rest = s;
    let mut wrote = 0;
    while !rest.is_empty() {
        let advance = step(rest, held, places, &mut out[wrote..]);
        rest = &rest[advance.taken..];
        wrote += advance.wrote;
    }
    wrote
}

// How many bytes are held of an unfinished line, and how many were written.
#[derive(Clone, Copy)]
pub struct Progress {
    pub used: usize,
    pub wrote: usize,
}

// A turn of the line program: the first n bytes of block are read, which go on from the line whose first `used` bytes are in carry. The
// answers to the lines that end in them are written to the front of out, and what is left of the last line to the front of carry; both are
// otherwise as they were. A line of more than 8,214 bytes is 9 whatever follows, so no more than 8,215 bytes of it are held.
// The counts stay beside their buffers, here and in `last`: `Turned` and `Last` promise their answers for any counts.
pub fn turn(
    block: &[u8; BLOCK_BYTES],
    n: usize,
    carry: &mut [u8; LINE_BYTES],
    used: usize,
    out: &mut [u8; ANSWER_BYTES],
) -> Progress
    ensures { Turned (take n block.now) carry.old carry.new used out.old out.new result }
{
    let mut held = Unfinished::of(carry, used);
    let read = &block[..n.min(BLOCK_BYTES)];
    let wrote = lines(read, &mut held, &mut Places::new(), out);
    *carry = held.bytes;
    Progress {
        used: held.used,
        wrote,
    }
}

// The end of the input: a last line that lacks its line feed, the first `used` bytes of carry, is answered at the front of out; no bytes are
// no line. Hands back how many bytes the answer has.
pub fn last(carry: &[u8; LINE_BYTES], used: usize, out: &mut [u8; ANSWER_BYTES]) -> usize
    ensures { Last (take used carry.now) out.old out.new result }
{
    if used == 0 {
        return 0;
    }
    finish(b"", &Unfinished::of(carry, used), &mut Places::new(), out)
}
