// Quarter turns and mirrors, for cameras that are mounted sideways: the eight exact moves of a picture. Moves 0 to 3 are that many clockwise quarter turns, 4
// to 7 a left-right mirror and then 0 to 3 turns. A move reads every sample twice, once to judge it, and writes it once; a picture of 1,024 by 1,024 takes
// 2 to 3 times what a copy takes where rows stay rows, and 3 to 4 times where they become columns (docs/PERFORMANCE.md).
#![tactic(auto)]

ghost use Rattle.std.specs.Prelude.{◌≡◌, ◌++◌, ◌*◌, ◌<◌, length, drop};
ghost use Rattle.arrangements.specs.Moves.{screen, stored, moved};
ghost use Rattle.arrangements.specs.Views.{swaps, from_right, from_below};
ghost use Rattle.turns.specs.Block.{Held};
ghost use Rattle.quarters.specs.Answer.{own_verdict, view_of, PictureMoved, joined_answer, inverse_answer};

use refusals::Refusal;
use turns::View;

// Two moves in a row as one: row the first move, column the second.
const TABLE: [[u32; 8]; 8] = [
    [0, 1, 2, 3, 4, 5, 6, 7],
    [1, 2, 3, 0, 7, 4, 5, 6],
    [2, 3, 0, 1, 6, 7, 4, 5],
    [3, 0, 1, 2, 5, 6, 7, 4],
    [4, 5, 6, 7, 0, 1, 2, 3],
    [5, 6, 7, 4, 3, 0, 1, 2],
    [6, 7, 4, 5, 2, 3, 0, 1],
    [7, 4, 5, 6, 1, 2, 3, 0],
];

// The move that undoes each.
const INVERSES: [u32; 8] = [0, 3, 2, 1, 4, 5, 6, 7];

// A picture's width and height, in samples.
#[derive(Clone, Copy)]
pub struct Size {
    pub width: usize,
    pub height: usize,
}

// Number 16 for a move's number above 7. A move stays a number: document 01 gives the eight as 0 to 7, and the tests below calculate with it.
#[tactic(auto, unfolding(crate::specs::Answer::bad_move))]
fn judge_move(quarter: u32) -> Result<(), Refusal>
    ensures { result ≡ own_verdict quarter }
{
    if 7 < quarter {
        return Err(Refusal::BadMove);
    }
    Ok(())
}

// ---- the picture as a move sees it

// Whether a move makes columns of the picture's rows.
#[tactic(auto, unfolding(arrangements::specs::Views::swaps))]
fn swap(quarter: u32) -> bool
    ensures { result ≡ swaps quarter }
{
    quarter % 2 == 1
}

// Whether a move counts the picture's columns from the right.
#[tactic(auto, unfolding(arrangements::specs::Views::from_right))]
fn from_right(quarter: u32) -> bool
    ensures { result ≡ from_right quarter }
{
    2 <= quarter && quarter <= 5
}

// Whether a move counts the picture's rows from below.
#[tactic(auto, unfolding(arrangements::specs::Views::from_below))]
fn from_below(quarter: u32) -> bool
    ensures { result ≡ from_below quarter }
{
    quarter % 4 == 1 || quarter % 4 == 2
}

// The view of a picture under a move.
fn view_of(width: usize, height: usize, quarter: u32) -> View
    ensures { result ≡ view_of width height quarter }
{
    View {
        width,
        height,
        right: from_right(quarter),
        below: from_below(quarter),
    }
}

// The first width·height places of `result` become the moved picture; later ones stay.
fn write_moved(picture: &[i32], width: usize, height: usize, quarter: u32, res: &mut [i32])
    requires { Held (view_of width height quarter) (length picture.now) (length res.old) × (quarter < 8) }
    ensures { res.new ≡ stored (moved quarter (screen width height picture.now)) ++ drop (width * height) res.old }
{
    let view = view_of(width, height, quarter);
    if swap(quarter) {
        turns::write_columns(picture, view, res);
        return;
    }
    turns::write_rows(picture, view, res);
}

// ---- the calls

// Moves a picture of `width` by `height` samples, stored row by row, by the move of that number: the first width·height places of `result` become the moved
// picture, whose width and height are answered. It refuses: 1 a side of 0 or over 1,024; 2 a buffer under width·height places; 16 a number above 7; 6 a
// sample beyond ±1,048,576, the first by its row and column.
pub fn move_picture(
    width: usize,
    height: usize,
    quarter: u32,
    picture: &[i32],
    res: &mut [i32],
) -> Result<Size, Refusal>
    ensures { PictureMoved width height quarter picture.now res.old res.new result }
{
    let places = picture.len().min(res.len());
    readings::judge_by(width, height, places, judge_move(quarter), picture)?;
    write_moved(picture, width, height, quarter, res);
    if swap(quarter) {
        return Ok(Size {
            width: height,
            height: width,
        });
    }
    Ok(Size { width, height })
}

// The one move that two moves in a row are. It refuses, under 16, a number above 7.
pub fn joined(first: u32, second: u32) -> Result<u32, Refusal>
    ensures { result ≡ joined_answer first second }
{
    judge_move(first)?;
    judge_move(second)?;
    Ok(TABLE[first as usize][second as usize])
}

// The move that undoes one. It refuses, under 16, a number above 7.
pub fn inverse(quarter: u32) -> Result<u32, Refusal>
    ensures { result ≡ inverse_answer quarter }
{
    judge_move(quarter)?;
    Ok(INVERSES[quarter as usize])
}
