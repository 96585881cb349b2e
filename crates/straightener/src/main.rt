// The line program: standard input is read in blocks of up to 64 KiB, a turn of the library answers the lines that end in a block, and the
// answers are written to standard output. It holds no more than one line beside its block and its answers, however long the input and its
// lines are. A read or a write that fails ends it, and it says so on standard error.
#![tactic(auto)]

ghost use Rattle.std.specs.Prelude.{◌≡◌, ◌<◌, ◌≤◌, true, false, length, IfOk, IfErr};
ghost use Rattle.straightener.specs.Run.{IsUnread, IsUnwritten, TurnDone, TurnFailed, OnlyUnwritten, Closed, AllDone, AllFailed};

use std::io::{Read, Stdin, Stdout, Write};
use std::{fmt, io};

// Why answers are missing, with the system's reason.
#[derive(Drop)]
enum Failure {
    Unread(io::Error),
    Unwritten(io::Error),
}

impl fmt::Display for Failure {
    fn fmt<W: fmt::Write>(&self, f: &mut fmt::Formatter<W>) -> fmt::Result {
        let (what, reason) = match self {
            Failure::Unread(reason) => ("input could not be read", reason),
            Failure::Unwritten(reason) => ("output could not be written", reason),
        };
        write!(f, "{what}: {reason}")
    }
}

// How a turn went: more input may come, or the input has ended.
#[derive(Clone, Copy, PartialEq, Eq)]
enum How {
    More,
    Ended,
}

// What a turn came to: the bytes read, and the bytes handed to `write`.
#[derive(Clone, Copy)]
struct Turn {
    how: How,
    read: usize,
    handed: usize,
}

// What all turns came to: the last one, and how many blocks were read before it.
#[derive(Clone, Copy)]
struct Turns {
    last: Turn,
    blocks: u64,
}

// Reads a block; no bytes are the end of the input. `failed` keeps whether it went wrong, so that a failure cannot be passed over.
fn take_in(
    input: &mut Stdin,
    failed: &mut bool,
    block: &mut [u8; stream::BLOCK_BYTES],
) -> Result<usize, Failure>
    ensures read { IfOk result (λ n. (n ≤ 65536) × (failed.new ≡ false)) }
    ensures told { IfErr result (λ failure. IsUnread failure × (failed.new ≡ true)) }
{
    *failed = true;
    let n = input.read(block).map_err(Failure::Unread)?;
    *failed = false;
    Ok(n)
}

// Writes answers, and counts their bytes. `failed` keeps whether they were not all taken.
fn hand_over(output: &mut Stdout, failed: &mut bool, answers: &[u8]) -> Result<usize, Failure>
    ensures handed { IfOk result (λ n. (n ≡ length answers.now) × (failed.new ≡ false)) }
    ensures told { IfErr result (λ failure. IsUnwritten failure × (failed.new ≡ true)) }
{
    *failed = true;
    output.write_all(answers).map_err(Failure::Unwritten)?;
    *failed = false;
    Ok(answers.len())
}

// The program between two turns: its standard streams, a block of the input, the first `used` bytes of an unfinished line in carry, the answers
// to the lines that ended in the block, and whether the last read or the last write failed. The count stays beside carry, as `stream::turn` takes
// them.
#[derive(Drop)]
struct Program {
    input: Stdin,
    output: Stdout,
    block: [u8; stream::BLOCK_BYTES],
    carry: [u8; stream::LINE_BYTES],
    used: usize,
    answers: [u8; stream::ANSWER_BYTES],
    read_failed: bool,
    write_failed: bool,
}

impl Program {
    // A turn with n bytes read: answers the lines that end in them, and holds what is left.
    fn serve(&mut self, n: usize) -> Result<Turn, Failure>
        requires { (0 < n) × (self.old.read_failed ≡ false) }
        ensures done { IfOk result (TurnDone self.old self.new) }
        ensures told { IfErr result (OnlyUnwritten self.new) }
    {
        let progress = stream::turn(
            &self.block,
            n,
            &mut self.carry,
            self.used,
            &mut self.answers,
        );
        self.used = progress.used;
        let answers = &self.answers[..progress.wrote];
        let handed = hand_over(&mut self.output, &mut self.write_failed, answers)?;
        Ok(Turn {
            how: How::More,
            read: n,
            handed,
        })
    }

    // The turn at the end of the input: answers a last line that lacks its line feed.
    fn finish(&mut self) -> Result<Turn, Failure>
        requires { self.old.read_failed ≡ false }
        ensures closed { IfOk result (Closed self.old self.new) }
        ensures told { IfErr result (OnlyUnwritten self.new) }
    {
        let wrote = stream::last(&self.carry, self.used, &mut self.answers);
        let last = &self.answers[..wrote];
        let handed = hand_over(&mut self.output, &mut self.write_failed, last)?;
        Ok(Turn {
            how: How::Ended,
            read: 0,
            handed,
        })
    }

    // Reads a block and serves it. After a failure nothing more is written.
    fn next_turn(&mut self) -> Result<Turn, Failure>
        ensures done { IfOk result (TurnDone self.old self.new) }
        ensures failed { IfErr result (TurnFailed self.old self.new) }
    {
        match take_in(&mut self.input, &mut self.read_failed, &mut self.block)? {
            0 => self.finish(),
            n => self.serve(n),
        }
    }

    // Turn after turn from an empty carry, until one does not go on. The count of blocks bounds the loop alone.
    fn all_turns(&mut self) -> Result<Turns, Failure>
        ensures done { IfOk result (AllDone self.new) }
        ensures failed { IfErr result (AllFailed self.new) }
    {
        self.used = 0;
        self.read_failed = false;
        self.write_failed = false;
        let mut last = Turn {
            how: How::More,
            read: 0,
            handed: 0,
        };
        let mut blocks = 0;
        for before in 0..u64::MAX {
            last = self.next_turn()?;
            if last.how == How::Ended {
                return Ok(Turns { last, blocks });
            }
            blocks = before + 1;
        }
        Ok(Turns { last, blocks })
    }
}

fn main(rt: HostRuntime) {
    let mut program = Program {
        input: rt.stdin(),
        output: rt.stdout(),
        block: [0; stream::BLOCK_BYTES],
        carry: stream::line_room(),
        used: 0,
        answers: [0; stream::ANSWER_BYTES],
        read_failed: false,
        write_failed: false,
    };
    if let Err(failure) = program.all_turns() {
        let _ = writeln!(
            rt.stderr(),
            "straightener: answers are missing, standard {failure}"
        );
    }
}
