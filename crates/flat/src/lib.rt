// Settings and answers as C and Rust hold them: structs of numbers with C's layout. What a call answers as an enum, or takes as one, is laid
// out flat. include/straightener.h says what each field means.
#![tactic(auto)]

ghost use Rattle.std.specs.Prelude.{◌≡◌, pos};
ghost use Rattle.refusals.specs.Judging.{number, place};
ghost use Rattle.flat.specs.Exported.{border_of, setting_of, laid_as, of_change, of_verdict, of_outcome, of_block, of_line, of_step, kind_of, greys_of, of_reading, of_summary, of_written, ticket_of, of_asked, of_forecast, of_explanation, of_checked, of_moved, of_named};

use blocks::BlockRefusal;
use explanations::{Parts, Term};
use forecasts::Figures;
use lines::Moved;
use lists::Extremes;
use pictures::Straightened;
use quarters::Size;
use readings::{Reading, Summary};
use refusals::{Place, Refusal};
use settings::{Border, Setting};
use tickets::Ticket;

// What most calls answer: 0 or the refusal number, the row and the column under 6, the number of lines interpolated, and the smallest and the
// largest sample of a moved line or a straightened picture.
#[repr(C)]
#[derive(Clone, Copy, Default)]
pub struct Answer {
    pub number: u32,
    pub row: usize,
    pub column: usize,
    pub count: u32,
    pub smallest: i32,
    pub largest: i32,
}

// What the call on a block answers: 0 or the refusal number, the depth, the row and the column under 6, the number of lines interpolated over all slices,
// and the smallest and the largest sample of the result.
#[repr(C)]
#[derive(Clone, Copy, Default)]
pub struct BlockAnswer {
    pub number: u32,
    pub depth: usize,
    pub row: usize,
    pub column: usize,
    pub count: u32,
    pub smallest: i32,
    pub largest: i32,
}

// A setting: `border` is 0 wrapped, and any other number background of the sample value `background`.
#[repr(C)]
#[derive(Clone, Copy)]
pub struct FlatSetting {
    pub kernel: u32,
    pub cx: usize,
    pub cy: usize,
    pub a: i32,
    pub b: i32,
    pub border: u32,
    pub background: i32,
}

// A changed setting under 0, or the setting as it was under the refusal number.
#[repr(C)]
#[derive(Clone, Copy)]
pub struct FlatChange {
    pub number: u32,
    pub setting: FlatSetting,
}

// A ticket: the size and the setting that were asked, and the number of lines that straightening will interpolate.
#[repr(C)]
#[derive(Clone, Copy)]
pub struct FlatTicket {
    pub width: usize,
    pub height: usize,
    pub setting: FlatSetting,
    pub count: u32,
}

// What asking answers: 0 or the refusal number, the row and the column under 6, and a ticket, of size 0 by 0 and count 0 where it was refused.
#[repr(C)]
#[derive(Clone, Copy)]
pub struct FlatAsked {
    pub number: u32,
    pub row: usize,
    pub column: usize,
    pub ticket: FlatTicket,
}

// What a forecast answers: 0 or the refusal number, a row and a column of 0, and the work places, the lines interpolated and the bound on every sample
// of a straightening, all 0 where it was refused.
#[repr(C)]
#[derive(Clone, Copy, Default)]
pub struct ForecastAnswer {
    pub number: u32,
    pub row: usize,
    pub column: usize,
    pub work: usize,
    pub count: u32,
    pub bound: i32,
}

// What an explanation answers: 0 or the refusal number, the row and the column under 6, the four terms, their sum, the divisor and the quotient, all 0
// where it was refused.
#[repr(C)]
#[derive(Clone, Copy)]
pub struct ExplanationAnswer {
    pub number: u32,
    pub row: usize,
    pub column: usize,
    pub terms: [Term; 4],
    pub sum: i64,
    pub divisor: i64,
    pub quotient: i32,
}

// 0 and a step or a shear, or the refusal number and 0.
#[repr(C)]
#[derive(Clone, Copy)]
pub struct Step {
    pub number: u32,
    pub value: i32,
}

// What levelling with a picture answers: 0 or the refusal number, the row and the column under 6 and 15, and the step, 0 where it was refused.
#[repr(C)]
#[derive(Clone, Copy)]
pub struct CheckedStep {
    pub number: u32,
    pub row: usize,
    pub column: usize,
    pub step: i32,
}

// What moving a picture answers: 0 or the refusal number, the row and the column under 6, and the moved picture's width and height, 0 by 0 where it was
// refused.
#[repr(C)]
#[derive(Clone, Copy, Default)]
pub struct QuarterAnswer {
    pub number: u32,
    pub row: usize,
    pub column: usize,
    pub width: usize,
    pub height: usize,
}

// 0 and a move of a picture, or the refusal number and 0.
#[repr(C)]
#[derive(Clone, Copy)]
pub struct Quarter {
    pub number: u32,
    pub value: u32,
}

// A reading: `kind` is 0 Level, 1 Under, 2 Over.
#[repr(C)]
#[derive(Clone, Copy)]
pub struct ReadingAnswer {
    pub number: u32,
    pub row: usize,
    pub column: usize,
    pub kind: u32,
    pub greys: f32,
}

// The darkest and the lightest grey.
#[repr(C)]
#[derive(Clone, Copy)]
pub struct SummaryAnswer {
    pub number: u32,
    pub row: usize,
    pub column: usize,
    pub darkest: f32,
    pub lightest: f32,
}

// 0 and the bytes written of an answer to a line, or 2 and none.
#[repr(C)]
#[derive(Clone, Copy)]
pub struct LineAnswer {
    pub number: u32,
    pub written: usize,
}

// ---- settings that come and go flat

pub fn border_of(border: u32, background: i32) -> Border
    ensures { result ≡ border_of border background }
{
    if border == 0 {
        return Border::Wrapped;
    }
    Border::Background(background)
}

pub fn setting_of(setting: FlatSetting) -> Setting
    ensures { result ≡ setting_of setting }
{
    let border = border_of(setting.border, setting.background);
    Setting {
        kernel: setting.kernel,
        cx: setting.cx,
        cy: setting.cy,
        a: setting.a,
        b: setting.b,
        border,
    }
}

// A changed setting laid out flat, with the border's two fields as they were handed in: no change but `with_border` touches them.
pub fn laid_as(setting: FlatSetting, changed: Setting) -> FlatSetting
    ensures { result ≡ laid_as setting changed }
{
    FlatSetting {
        kernel: changed.kernel,
        cx: changed.cx,
        cy: changed.cy,
        a: changed.a,
        b: changed.b,
        border: setting.border,
        background: setting.background,
    }
}

// What changing a setting by a step answers: the changed setting, or the setting as it was under the refusal's number.
pub fn of_change(setting: FlatSetting, changed: Result<Setting, Refusal>) -> FlatChange
    ensures { result ≡ of_change setting changed }
{
    match changed {
        Ok(changed) => FlatChange {
            number: 0,
            setting: laid_as(setting, changed),
        },
        Err(refusal) => FlatChange {
            number: refusal.number(),
            setting,
        },
    }
}

pub fn ticket_of(ticket: FlatTicket) -> Ticket
    ensures { result ≡ ticket_of ticket }
{
    Ticket {
        width: ticket.width,
        height: ticket.height,
        setting: setting_of(ticket.setting),
        count: ticket.count,
    }
}

// ---- answers laid out flat: refused, every figure but the number and the place is 0

pub fn accepted(count: u32, extremes: Extremes) -> Answer
    ensures { result ≡ record { number = 0; row = 0; column = 0; count = count; smallest = extremes.smallest; largest = extremes.largest } }
{
    Answer {
        count,
        smallest: extremes.smallest,
        largest: extremes.largest,
        ..Answer::default()
    }
}

pub fn refused(number: u32, row: usize, column: usize) -> Answer
    ensures { result ≡ record { number = number; row = row; column = column; count = 0; smallest = pos 0; largest = pos 0 } }
{
    Answer {
        number,
        row,
        column,
        ..Answer::default()
    }
}

// The answer of a call that is refused so.
fn refused_by(refusal: Refusal) -> Answer
    ensures { result ≡ record { number = number refusal; row = (place refusal).row; column = (place refusal).column; count = 0; smallest = pos 0; largest = pos 0 } }
{
    let Place { row, column } = refusal.place();
    refused(refusal.number(), row, column)
}

impl From<Result<(), Refusal>> for Answer {
    ghost from_gives = { λ verdict answer. answer ≡ of_verdict verdict };

    fn from(verdict: Result<(), Refusal>) -> Answer {
        match verdict {
            Ok(()) => Answer::default(),
            Err(refusal) => refused_by(refusal),
        }
    }
}

impl From<Result<Straightened, Refusal>> for Answer {
    ghost from_gives = { λ outcome answer. answer ≡ of_outcome outcome };

    fn from(outcome: Result<Straightened, Refusal>) -> Answer {
        match outcome {
            Ok(done) => accepted(done.lines, done.extremes),
            Err(refusal) => refused_by(refusal),
        }
    }
}

impl From<Result<Moved, Refusal>> for Answer {
    ghost from_gives = { λ outcome answer. answer ≡ of_line outcome };

    fn from(outcome: Result<Moved, Refusal>) -> Answer {
        match outcome {
            Ok(moved) => accepted(u32::from(moved.interpolated), moved.extremes),
            Err(refusal) => refused_by(refusal),
        }
    }
}

impl From<Result<Straightened, BlockRefusal>> for BlockAnswer {
    ghost from_gives = { λ outcome answer. answer ≡ of_block outcome };

    fn from(outcome: Result<Straightened, BlockRefusal>) -> BlockAnswer {
        match outcome {
            Ok(done) => BlockAnswer {
                count: done.lines,
                smallest: done.extremes.smallest,
                largest: done.extremes.largest,
                ..BlockAnswer::default()
            },
            Err(BlockRefusal { refusal, depth }) => {
                let Place { row, column } = refusal.place();
                BlockAnswer {
                    number: refusal.number(),
                    depth,
                    row,
                    column,
                    ..BlockAnswer::default()
                }
            }
        }
    }
}

// What asking answers: the ticket has the flat setting as it was asked, bit for bit.
pub fn of_asked(setting: FlatSetting, asked: Result<Ticket, Refusal>) -> FlatAsked
    ensures { result ≡ of_asked setting asked }
{
    match asked {
        Ok(given) => FlatAsked {
            number: 0,
            row: 0,
            column: 0,
            ticket: FlatTicket {
                width: given.width,
                height: given.height,
                setting,
                count: given.count,
            },
        },
        Err(refusal) => {
            let Place { row, column } = refusal.place();
            FlatAsked {
                number: refusal.number(),
                row,
                column,
                ticket: FlatTicket {
                    width: 0,
                    height: 0,
                    setting,
                    count: 0,
                },
            }
        }
    }
}

impl From<Result<Figures, Refusal>> for ForecastAnswer {
    ghost from_gives = { λ told answer. answer ≡ of_forecast told };

    fn from(told: Result<Figures, Refusal>) -> ForecastAnswer {
        match told {
            Ok(figures) => ForecastAnswer {
                work: figures.work,
                count: figures.count,
                bound: figures.bound,
                ..ForecastAnswer::default()
            },
            Err(refusal) => {
                let Place { row, column } = refusal.place();
                ForecastAnswer {
                    number: refusal.number(),
                    row,
                    column,
                    ..ForecastAnswer::default()
                }
            }
        }
    }
}

// A refused explanation's terms.
const NO_TERM: Term = Term {
    place: 0,
    weight: 0,
    value: 0,
    product: 0,
};

impl From<Result<Parts, Refusal>> for ExplanationAnswer {
    ghost from_gives = { λ told answer. answer ≡ of_explanation told };

    #[tactic(auto, unfolding(explanations::specs::Made::no_parts, lists::specs::Tab::tab))]
    fn from(told: Result<Parts, Refusal>) -> ExplanationAnswer {
        match told {
            Ok(parts) => {
                let terms = parts.terms;
                ExplanationAnswer {
                    number: 0,
                    row: 0,
                    column: 0,
                    terms,
                    sum: parts.sum,
                    divisor: parts.divisor,
                    quotient: parts.quotient,
                }
            }
            Err(refusal) => {
                let Place { row, column } = refusal.place();
                let terms = [NO_TERM; 4];
                ExplanationAnswer {
                    number: refusal.number(),
                    row,
                    column,
                    terms,
                    sum: 0,
                    divisor: 0,
                    quotient: 0,
                }
            }
        }
    }
}

// S of a step, and the step of levelling.
impl From<Result<i32, Refusal>> for Step {
    ghost from_gives = { λ told answer. answer ≡ of_step told };

    fn from(told: Result<i32, Refusal>) -> Step {
        match told {
            Ok(value) => Step { number: 0, value },
            Err(refusal) => Step {
                number: refusal.number(),
                value: 0,
            },
        }
    }
}

impl From<Result<i32, Refusal>> for CheckedStep {
    ghost from_gives = { λ told answer. answer ≡ of_checked told };

    fn from(told: Result<i32, Refusal>) -> CheckedStep {
        match told {
            Ok(step) => CheckedStep {
                number: 0,
                row: 0,
                column: 0,
                step,
            },
            Err(refusal) => {
                let Place { row, column } = refusal.place();
                CheckedStep {
                    number: refusal.number(),
                    row,
                    column,
                    step: 0,
                }
            }
        }
    }
}

impl From<Result<Size, Refusal>> for QuarterAnswer {
    ghost from_gives = { λ moved answer. answer ≡ of_moved moved };

    fn from(moved: Result<Size, Refusal>) -> QuarterAnswer {
        match moved {
            Ok(size) => QuarterAnswer {
                width: size.width,
                height: size.height,
                ..QuarterAnswer::default()
            },
            Err(refusal) => {
                let Place { row, column } = refusal.place();
                QuarterAnswer {
                    number: refusal.number(),
                    row,
                    column,
                    ..QuarterAnswer::default()
                }
            }
        }
    }
}

impl From<Result<u32, Refusal>> for Quarter {
    ghost from_gives = { λ named answer. answer ≡ of_named named };

    fn from(named: Result<u32, Refusal>) -> Quarter {
        match named {
            Ok(value) => Quarter { number: 0, value },
            Err(refusal) => Quarter {
                number: refusal.number(),
                value: 0,
            },
        }
    }
}

pub fn kind_of(reading: Reading) -> u32
    ensures { result ≡ kind_of reading }
{
    match reading {
        Reading::Level(_) => 0,
        Reading::Under(_) => 1,
        Reading::Over(_) => 2,
    }
}

pub fn greys_of(reading: Reading) -> f32
    ensures { result ≡ greys_of reading }
{
    match reading {
        Reading::Level(greys) | Reading::Under(greys) | Reading::Over(greys) => greys,
    }
}

// Refused, a reading is Level 0.
impl From<Result<Reading, Refusal>> for ReadingAnswer {
    ghost from_gives = { λ told answer. answer ≡ of_reading told };

    #[tactic(auto, using(readings::proofs::Exact::zero_bits))]
    fn from(told: Result<Reading, Refusal>) -> ReadingAnswer {
        match told {
            Ok(reading) => ReadingAnswer {
                number: 0,
                row: 0,
                column: 0,
                kind: kind_of(reading),
                greys: greys_of(reading),
            },
            Err(refusal) => {
                let Place { row, column } = refusal.place();
                ReadingAnswer {
                    number: refusal.number(),
                    row,
                    column,
                    kind: 0,
                    greys: 0.0,
                }
            }
        }
    }
}

// Refused, both greys of a summary are 0.
impl From<Result<Summary, Refusal>> for SummaryAnswer {
    ghost from_gives = { λ told answer. answer ≡ of_summary told };

    #[tactic(auto, using(readings::proofs::Exact::zero_bits))]
    fn from(told: Result<Summary, Refusal>) -> SummaryAnswer {
        match told {
            Ok(summary) => SummaryAnswer {
                number: 0,
                row: 0,
                column: 0,
                darkest: summary.darkest,
                lightest: summary.lightest,
            },
            Err(refusal) => {
                let Place { row, column } = refusal.place();
                SummaryAnswer {
                    number: refusal.number(),
                    row,
                    column,
                    darkest: 0.0,
                    lightest: 0.0,
                }
            }
        }
    }
}

// The bytes written of an answer to a line.
impl From<Result<usize, Refusal>> for LineAnswer {
    ghost from_gives = { λ written answer. answer ≡ of_written written };

    fn from(written: Result<usize, Refusal>) -> LineAnswer {
        match written {
            Ok(written) => LineAnswer { number: 0, written },
            Err(refusal) => LineAnswer {
                number: refusal.number(),
                written: 0,
            },
        }
    }
}
