// What every public call shares when it judges its input: the refusals with document 01's numbers, the size test (number 1), the range test (numbers 4
// and 6), and the scan that names the first sample beyond its range. Sizes and places are counts of samples; a limit is in the unit of what it limits.
#![tactic(auto)]

ghost use Rattle.std.specs.Prelude.{◌≡◌, ◌*◌, ◌≤◌, true, length, nat_abs};
ghost use Rattle.refusals.specs.Tests.{side_beyond, bad_side, bad_size, beyond_of, first_bad, AllWithin, Limit};
ghost use Rattle.refusals.specs.Judging.{number, place, of_found};

// Where a sample stands in a picture.
#[derive(Clone, Copy, PartialEq, Eq)]
pub struct Place {
    pub row: usize,
    pub column: usize,
}

// Why a call is refused.
#[derive(Clone, Copy, PartialEq, Eq)]
pub enum Refusal {
    // 1: a side of 0, or over the most that the call takes.
    BadSize,
    // 2: a lent buffer that is too short.
    TooShort,
    // 3: a centre outside the picture.
    BadCentre,
    // 4: a move, a shear or a step beyond its range.
    TooFar,
    // 5: a kernel that there is not.
    BadKernel,
    // 6: a sample beyond its range, the first by its place.
    BadSample(Place),
    // 6 of a forecast: a largest sample size beyond its range.
    TooLarge,
    // 7: a point outside the picture, or a place outside the line.
    Outside,
    // 8: a line too steep to be levelled.
    TooSteep,
    // 9: a line of the line program that is not well formed.
    Malformed,
    // 12: a background beyond its range.
    BadBackground,
    // 14: a ticket of another size.
    OtherSize,
    // 15: a sample on the line below the threshold, the first by its place.
    BelowThreshold(Place),
    // 16: a move of a picture that there is not.
    BadMove,
    // 17: a plane that there is not.
    BadPlane,
}

impl Refusal {
    // Document 01's number.
    pub fn number(self) -> u32
        ensures { result ≡ number self }
    {
        match self {
            Refusal::BadSize => 1,
            Refusal::TooShort => 2,
            Refusal::BadCentre => 3,
            Refusal::TooFar => 4,
            Refusal::BadKernel => 5,
            Refusal::BadSample(_) | Refusal::TooLarge => 6,
            Refusal::Outside => 7,
            Refusal::TooSteep => 8,
            Refusal::Malformed => 9,
            Refusal::BadBackground => 12,
            Refusal::OtherSize => 14,
            Refusal::BelowThreshold(_) => 15,
            Refusal::BadMove => 16,
            Refusal::BadPlane => 17,
        }
    }

    // The place that it names, row 0 and column 0 where it names none.
    pub fn place(self) -> Place
        ensures { result ≡ place self }
    {
        match self {
            Refusal::BadSample(place) | Refusal::BelowThreshold(place) => place,
            _ => Place { row: 0, column: 0 },
        }
    }
}

// The errors of a call that has refusals of its own beside the shared ones.
pub trait Refuses: Copy {
    ghost use Rattle.refusals.specs.declared.Refusal.{Refusal};

    ghost of_refusal: { Refusal → Self };

    fn of(refusal: Refusal) -> Self
        ensures { result ≡ of_refusal refusal };
}

impl Refuses for Refusal {
    ghost of_refusal = { λ refusal. refusal };

    fn of(refusal: Refusal) -> Refusal {
        refusal
    }
}

// Whether a side is 0 or over `most` samples.
pub fn side_beyond(side: usize, most: usize) -> bool
    ensures { result ≡ side_beyond most side }
{
    side == 0 || most < side
}

// Whether a width, a height or a line length is 0 or over 1,024.
pub fn bad_side(side: usize) -> bool
    ensures { result ≡ bad_side side }
{
    side_beyond(side, 1024)
}

// Whether a side of a picture is 0 or over 1,024.
pub fn bad_size(width: usize, height: usize) -> bool
    ensures { result ≡ bad_size width height }
{
    bad_side(width) || bad_side(height)
}

// Whether v is beyond plus or minus the limit.
pub fn beyond(v: i32, limit: i32) -> bool
    requires { Limit limit }
    ensures { result ≡ beyond_of (nat_abs limit) v }
{
    limit < v || v < -limit
}

// Whether a row is seen at once to be within plus or minus the limit. A loop that never leaves early takes several samples at a time; for a row of fewer
// than 8 that would not pay, and it is not looked at.
fn seen_within(row: &[i32], limit: i32) -> bool
    requires { Limit limit }
    ensures { result ≡ true → AllWithin (nat_abs limit) (length row.now) row.now }
{
    if row.len() < 8 {
        return false;
    }
    let mut far = false;
    for v in row {
        far = far | beyond(*v, limit);
    }
    !far
}

// The first sample beyond plus or minus the limit, in row order: rows that are seen at once to be within it are passed over, the others walked. A
// line is scanned as a picture of height 1, and the pictures of a block as one, each below the one before it.
pub fn scan(picture: &[i32], width: usize, height: usize, limit: i32) -> Option<Place>
    requires { (width ≤ 1024) × (height ≤ 16384) × (height * width ≤ length picture.now) × Limit limit }
    ensures { result ≡ first_bad (nat_abs limit) width height picture.now }
{
    let mut found = None;
    'rows: for row in 0..height {
        let start = row * width;
        let samples = &picture[start..start + width];
        if seen_within(samples, limit) {
            continue;
        }
        for (column, v) in samples.iter().enumerate() {
            if beyond(*v, limit) {
                found = Some(Place { row, column });
                break 'rows;
            }
        }
    }
    found
}

// Number 6, where nothing was refused before: what the scan finds.
pub fn scanned(picture: &[i32], width: usize, height: usize, limit: i32) -> Result<(), Refusal>
    requires { (width ≤ 1024) × (height ≤ 16384) × (height * width ≤ length picture.now) × Limit limit }
    ensures { result ≡ of_found Refusal.BadSample (first_bad (nat_abs limit) width height picture.now) }
{
    match scan(picture, width, height, limit) {
        None => Ok(()),
        Some(place) => Err(Refusal::BadSample(place)),
    }
}
