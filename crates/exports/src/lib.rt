// The public calls as C and Rust link them, under their names there: a struct goes by value, and what the call beneath answers as an enum, or takes as
// one, is laid out flat. `exports_c` gives them to C. include/straightener.h says what each argument means, in which unit, and what each number says.
#![tactic(auto)]

ghost use Rattle.std.specs.Prelude.{◌≡◌};
ghost use Rattle.pictures.specs.Answer.{Answer as PictureStraightened};
ghost use Rattle.tickets.specs.Ticket.{Asking, Committed};
ghost use Rattle.forecasts.specs.Figures.{forecast_of};
ghost use Rattle.blocks.specs.Answer.{Answer as BlockStraightened};
ghost use Rattle.blocks.specs.Judge.{work_places as block_work_places};
ghost use Rattle.lines.specs.Answer.{LineMoved};
ghost use Rattle.lines.specs.Answer as line;
ghost use Rattle.explanations.specs.Answer.{Explained};
ghost use Rattle.acceptance.specs.Judge.{work_places};
ghost use Rattle.settings.specs.Setting.{with_kernel, with_centre, with_shears, with_border};
ghost use Rattle.steps.specs.Step.{SineAnswer, change_of};
ghost use Rattle.levelling.specs.Level.{largest_side, LevelAnswer};
ghost use Rattle.graticule.specs.Checked.{LevelChecked};
ghost use Rattle.readings.specs.Sample.{grey_of};
ghost use Rattle.readings.specs.Answers.{Out, FloatsOut, ReadingAt, SummaryOf};
ghost use Rattle.quarters.specs.Answer.{PictureMoved, joined_answer, inverse_answer};
ghost use Rattle.format.specs.Answered.{LineAnswered};
ghost use Rattle.flat.specs.Exported.{Exported, border_of, setting_of, laid_as, of_change, of_verdict, of_outcome, of_block, of_line, of_step, of_reading, of_summary, of_written, ticket_of, of_asked, of_forecast, of_explanation, of_checked, of_moved, of_named};

use flat::{
    Answer, BlockAnswer, CheckedStep, ExplanationAnswer, FlatAsked, FlatChange, FlatSetting,
    FlatTicket, ForecastAnswer, LineAnswer, Quarter, QuarterAnswer, ReadingAnswer, Step,
    SummaryAnswer,
};

// Straightens a picture.
pub fn straightener_straighten(
    width: usize,
    height: usize,
    setting: FlatSetting,
    picture: &[i32],
    res: &mut [i32],
    work: &mut [i32],
) -> Answer
    ensures { Exported of_outcome (λ o. PictureStraightened width height (setting_of setting) picture.now res.old work.old o res.new work.new) result }
{
    Answer::from(pictures::straighten(width, height, flat::setting_of(setting), picture, res, work))
}

// Asks what straightening a picture will do, and writes nothing.
pub fn straightener_ask(
    width: usize,
    height: usize,
    setting: FlatSetting,
    picture: &[i32],
    res: &[i32],
    work: &[i32],
) -> FlatAsked
    ensures { Exported (of_asked setting) (Asking width height (setting_of setting) picture.now res.now work.now) result }
{
    flat::of_asked(
        setting,
        tickets::ask(width, height, flat::setting_of(setting), picture, res, work),
    )
}

// Straightens a picture on a ticket.
pub fn straightener_commit(
    ticket: FlatTicket,
    width: usize,
    height: usize,
    picture: &[i32],
    res: &mut [i32],
    work: &mut [i32],
) -> Answer
    ensures { Exported of_outcome (λ o. Committed (ticket_of ticket) width height picture.now res.old work.old o res.new work.new) result }
{
    Answer::from(tickets::commit(flat::ticket_of(ticket), width, height, picture, res, work))
}

// Tells what a straightening takes and can leave, before there is a picture.
pub fn straightener_forecast(
    width: usize,
    height: usize,
    setting: FlatSetting,
    largest: u32,
) -> ForecastAnswer
    ensures { result ≡ of_forecast (forecast_of width height (setting_of setting) largest) }
{
    ForecastAnswer::from(forecasts::forecast(width, height, flat::setting_of(setting), largest))
}

// Straightens a block of pictures in one plane.
pub fn straightener_straighten_block(
    width: usize,
    height: usize,
    depth: usize,
    plane: u32,
    setting: FlatSetting,
    block: &[i32],
    res: &mut [i32],
    work: &mut [i32],
) -> BlockAnswer
    ensures { Exported of_block (λ o. BlockStraightened width height depth plane (setting_of setting) block.now res.old work.old o res.new work.new) result }
{
    BlockAnswer::from(blocks::straighten(
        width,
        height,
        depth,
        plane,
        flat::setting_of(setting),
        block,
        res,
        work,
    ))
}

// The work places that a block takes in a plane, 0 for sides or a plane that are refused.
pub fn straightener_block_work_places(
    width: usize,
    height: usize,
    depth: usize,
    plane: u32,
) -> usize
    ensures { result ≡ block_work_places width height depth plane }
{
    blocks::work_places(width, height, depth, plane)
}

// Moves one line.
pub fn straightener_move_line(
    n: usize,
    kernel: u32,
    d: i32,
    border: u32,
    background: i32,
    line: &[i32],
    res: &mut [i32],
    work: &mut [i32],
) -> Answer
    ensures { Exported of_line (LineMoved n kernel d (border_of border background) line.now res.old work.old res.new work.new) result }
{
    Answer::from(lines::move_line(
        n,
        kernel,
        d,
        flat::border_of(border, background),
        line,
        res,
        work,
    ))
}

// The work places that a picture takes.
pub fn straightener_work_places(width: usize, height: usize) -> usize
    ensures { result ≡ work_places width height }
{
    acceptance::work_places(width, height)
}

// The work places that a line takes.
pub fn straightener_line_work_places(n: usize) -> usize
    ensures { result ≡ line.work_places n }
{
    lines::work_places(n)
}

// What made sample k of a moved line.
pub fn straightener_explain(
    n: usize,
    kernel: u32,
    d: i32,
    k: usize,
    line: &[i32],
    work: &mut [i32],
) -> ExplanationAnswer
    ensures { Exported of_explanation (Explained n kernel d k line.now work.old work.new) result }
{
    ExplanationAnswer::from(explanations::explain(n, kernel, d, k, line, work))
}

// The setting with another kernel.
pub fn straightener_with_kernel(setting: FlatSetting, kernel: u32) -> FlatSetting
    ensures { result ≡ laid_as setting (with_kernel (setting_of setting) kernel) }
{
    let before = flat::setting_of(setting);
    flat::laid_as(setting, before.with_kernel(kernel))
}

// The setting with the centre at column cx and row cy.
pub fn straightener_with_centre(setting: FlatSetting, cx: usize, cy: usize) -> FlatSetting
    ensures { result ≡ laid_as setting (with_centre (setting_of setting) cx cy) }
{
    let before = flat::setting_of(setting);
    flat::laid_as(setting, before.with_centre(cx, cy))
}

// The setting with the shears a and b, in 4,096ths.
pub fn straightener_with_shears(setting: FlatSetting, a: i32, b: i32) -> FlatSetting
    ensures { result ≡ laid_as setting (with_shears (setting_of setting) a b) }
{
    let before = flat::setting_of(setting);
    flat::laid_as(setting, before.with_shears(a, b))
}

// The setting with another border.
pub fn straightener_with_border(setting: FlatSetting, border: u32, background: i32) -> FlatSetting
    ensures result_value { setting_of result ≡ with_border (setting_of setting) (border_of border background) }
    ensures border_value { (result.border ≡ border) × (result.background ≡ background) }
{
    FlatSetting {
        border,
        background,
        ..setting
    }
}

// The setting with the shears of step t.
pub fn straightener_with_step(setting: FlatSetting, t: i32) -> FlatChange
    ensures { result ≡ of_change setting (change_of (setting_of setting) t) }
{
    flat::of_change(setting, steps::with_step(flat::setting_of(setting), t))
}

// S(t).
pub fn straightener_sine(t: i32) -> Step
    ensures { Exported of_step (SineAnswer t) result }
{
    Step::from(steps::sine(t))
}

// The step that levels the line through two points.
pub fn straightener_level(x1: i32, y1: i32, x2: i32, y2: i32) -> Step
    ensures { Exported of_step (LevelAnswer largest_side largest_side x1 y1 x2 y2) result }
{
    Step::from(levelling::level(x1, y1, x2, y2))
}

// The same, where no sample on that line is below a threshold.
pub fn straightener_level_checked(
    width: usize,
    height: usize,
    x1: i32,
    y1: i32,
    x2: i32,
    y2: i32,
    threshold: i32,
    picture: &[i32],
) -> CheckedStep
    ensures { Exported of_checked (LevelChecked width height x1 y1 x2 y2 threshold picture.now) result }
{
    CheckedStep::from(graticule::level_checked(width, height, x1, y1, x2, y2, threshold, picture))
}

// Turns and mirrors a picture by one of the eight moves.
pub fn straightener_quarter_move(
    width: usize,
    height: usize,
    quarter: u32,
    picture: &[i32],
    res: &mut [i32],
) -> QuarterAnswer
    ensures { Exported of_moved (PictureMoved width height quarter picture.now res.old res.new) result }
{
    QuarterAnswer::from(quarters::move_picture(width, height, quarter, picture, res))
}

// The one move that two moves in a row are.
pub fn straightener_joined_moves(first: u32, second: u32) -> Quarter
    ensures { result ≡ of_named (joined_answer first second) }
{
    Quarter::from(quarters::joined(first, second))
}

// The move that undoes one.
pub fn straightener_inverse_move(quarter: u32) -> Quarter
    ensures { result ≡ of_named (inverse_answer quarter) }
{
    Quarter::from(quarters::inverse(quarter))
}

// Greys out.
pub fn straightener_greys_out(
    width: usize,
    height: usize,
    picture: &[i32],
    greys: &mut [u8],
) -> Answer
    ensures { Exported of_verdict (Out grey_of width height picture.now greys.old greys.new) result }
{
    Answer::from(readings::greys_out(width, height, picture, greys))
}

// Floats out.
pub fn straightener_floats_out(
    width: usize,
    height: usize,
    picture: &[i32],
    floats: &mut [f32],
) -> Answer
    ensures { Exported of_verdict (FloatsOut width height picture.now floats.old floats.new) result }
{
    Answer::from(readings::floats_out(width, height, picture, floats))
}

// The reading at a point.
pub fn straightener_reading(
    width: usize,
    height: usize,
    column: usize,
    row: usize,
    picture: &[i32],
) -> ReadingAnswer
    ensures { Exported of_reading (ReadingAt width height column row picture.now) result }
{
    ReadingAnswer::from(readings::reading_at(width, height, column, row, picture))
}

// The darkest and the lightest grey.
pub fn straightener_summary(width: usize, height: usize, picture: &[i32]) -> SummaryAnswer
    ensures { Exported of_summary (SummaryOf width height picture.now) result }
{
    SummaryAnswer::from(readings::summary_of(width, height, picture))
}

// The answer to one line of the line program, which comes without its line feed.
pub fn straightener_answer_line(line: &[u8], answer: &mut [u8]) -> LineAnswer
    ensures { Exported of_written (LineAnswered line.now answer.old answer.new) result }
{
    LineAnswer::from(hexlines::answer(line, answer))
}
