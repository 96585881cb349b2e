// Levelling with the picture at hand: the step that levels the line through two points, where no sample on that line is below a threshold. Columns and
// rows are counted from 0; samples and the threshold are in 128ths of a grey.
#![tactic(auto)]

ghost use Rattle.std.specs.Prelude.{◌≡◌, ◌≤◌, length, pos, ◌≤ℤ◌};
ghost use Rattle.refusals.specs.Judging.{of_found};
ghost use Rattle.graticule.specs.Look.{row_at, first_below, Rightward, Lie};
ghost use Rattle.graticule.specs.Checked.{points_of, LevelChecked};

use refusals::{Place, Refusal};

// Two points inside a picture, by column and row.
#[derive(Clone, Copy)]
struct Points {
    x1: usize,
    y1: usize,
    x2: usize,
    y2: usize,
}

// The row nearest to the line in column x, of two as near the lower on the screen. It is a mean of the points' rows, so that nothing is negative.
fn row_at(points: Points, x: usize) -> usize
    requires { Rightward points × (points.x1 ≤ x) × (x ≤ points.x2) }
    ensures { pos result ≡ row_at points x }
{
    let dx = points.x2 - points.x1;
    let rows = points.y1 * (points.x2 - x) + points.y2 * (x - points.x1);
    (2 * rows + dx) / (2 * dx)
}

// The first column from x1 to x2 whose sample on the line is below the threshold, with its row.
fn first_below(picture: &[i32], width: usize, points: Points, threshold: i32) -> Option<Place>
    requires { Lie width (length picture.now) points }
    ensures { result ≡ first_below width points threshold picture.now }
{
    for column in points.x1..=points.x2 {
        let row = row_at(points, column);
        if picture[row * width + column] < threshold {
            return Some(Place { row, column });
        }
    }
    None
}

// Number 15, of points that passed the others.
fn judge_line(picture: &[i32], width: usize, points: Points, threshold: i32) -> Result<(), Refusal>
    requires { Lie width (length picture.now) points }
    ensures { result ≡ of_found Refusal.BelowThreshold (first_below width points threshold picture.now) }
{
    match first_below(picture, width, points, threshold) {
        None => Ok(()),
        Some(place) => Err(Refusal::BelowThreshold(place)),
    }
}

// Two points of which no coordinate is negative.
fn points_of(x1: i32, y1: i32, x2: i32, y2: i32) -> Points
    requires { (pos 0 ≤ℤ x1) × (pos 0 ≤ℤ y1) × (pos 0 ≤ℤ x2) × (pos 0 ≤ℤ y2) }
    ensures { result ≡ points_of x1 y1 x2 y2 }
{
    Points {
        x1: x1 as usize,
        y1: y1 as usize,
        x2: x2 as usize,
        y2: y2 as usize,
    }
}

// The step that levels the line from (x1, y1) to (x2, y2), where no sample on that line is below the threshold. It refuses: 1 a side of 0 or over 1,024;
// 2 a picture of under W·H places; 6 a sample beyond ±1,048,576, the first by its row and column; 7 a point outside the picture; 8 a line too steep; 15 a
// sample on the line below the threshold, the first by its row and column.
pub fn level_checked(
    width: usize,
    height: usize,
    x1: i32,
    y1: i32,
    x2: i32,
    y2: i32,
    threshold: i32,
    picture: &[i32],
) -> Result<i32, Refusal>
    ensures { LevelChecked width height x1 y1 x2 y2 threshold picture.now result }
{
    readings::judge(width, height, picture.len(), picture)?;
    let step = levelling::level_within(width, height, x1, y1, x2, y2)?;
    judge_line(picture, width, points_of(x1, y1, x2, y2), threshold)?;
    Ok(step)
}
