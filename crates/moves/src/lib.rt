// One line moved, by definition: document 01's move, the same under a border, the steps that the code takes, and the laws of them all. `weighing`
// and `rows` have the code of the steps, `lines` the call.
#![tactic(auto)]

ghost use Rattle.std.specs.Prelude.{◌≡◌};
ghost use Rattle.moves.specs.Border.{bad_background};

use settings::Border;

// Linear's weights of a place and of the one after it, in 4,096ths.
#[derive(Clone, Copy)]
pub struct TwoWeights {
    pub here: i32,
    pub next: i32,
}

// Places lo to hi - 1 of a row.
#[derive(Clone, Copy)]
pub struct Part {
    pub lo: usize,
    pub hi: usize,
}

// The range of a background.
const BACKGROUND: i32 = 32_767;

// Number 12: whether the background is beyond its range.
pub fn bad_background(border: Border) -> bool
    ensures { result ≡ bad_background border }
{
    match border {
        Border::Wrapped => false,
        Border::Background(b) => refusals::beyond(b, BACKGROUND),
    }
}
