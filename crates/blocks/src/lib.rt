// The block call: pictures over time, straightened in one of three planes, 0 across and down, 1 across and depth, 2 down and depth, the first named
// counted as columns. A block is stored picture after picture by depth; samples are in 128ths of a grey, and shears in 4,096ths.
// The tests read the block once, but for a row with a bad sample. An accepted block is copied into the result, and its slices are straightened where they
// lie there, in plane 0 picture by picture, else all of them together: no slice is copied out. docs/PERFORMANCE.md says what that costs.
#![tactic(auto)]

ghost use Rattle.std.specs.Prelude.{◌≡◌, ◌++◌, ◌*◌, ◌≤◌, max, pos, length, drop, replicate};
ghost use Rattle.lists.specs.Ends.{extremes_of};
ghost use Rattle.refusals.specs.Judging.{number};
ghost use Rattle.blocks.specs.Block.{slices_of, straighten_block};
ghost use Rattle.blocks.specs.Judge.{bad_sides, too_short, room_of, work_places, judged, Fit};
ghost use Rattle.blocks.specs.Answer.{refused_at, count_over, Answer};

use lists::Extremes;
use pictures::Straightened;
use planes::Slices;
use refusals::{Place, Refusal};
use settings::Setting;

// The samples of a block that is straightened are within plus or minus this, in 128ths of a grey.
const RANGE: i32 = 32_767;

// The most samples that a side of a block may have.
const SIDE: usize = 128;

// As far from 0 as a sample of a result can be, and as readings take: no extreme is farther.
const FARTHEST: i32 = 1_048_576;

// Why a block call is refused. The place of a bad sample has the row within the picture at its depth; every other refusal has the depth 0.
#[derive(Clone, Copy)]
pub struct BlockRefusal {
    pub refusal: Refusal,
    pub depth: usize,
}

// The sides of a block, in samples.
#[derive(Clone, Copy)]
struct Sides {
    width: usize,
    height: usize,
    depth: usize,
}

impl Sides {
    // Number 1: whether a side is 0 or over 128.
    #[tactic(auto, unfolding(crate::specs::Judge::bad_sides))]
    fn bad(self) -> bool
        ensures { result ≡ bad_sides self.width self.height self.depth }
    {
        refusals::side_beyond(self.width, SIDE)
            || refusals::side_beyond(self.height, SIDE)
            || refusals::side_beyond(self.depth, SIDE)
    }

    // The slices of a plane. The plane stays a number: where it is read, the tests have passed it, and an enum would have to be handed on by `judge`,
    // which answers a verdict alone.
    fn slices(self, plane: u32) -> Slices
        requires { (self.width ≤ 128) × (self.height ≤ 128) }
        ensures { result ≡ slices_of self.width self.height self.depth plane }
    {
        let places = self.width * self.height;
        match plane {
            0 => Slices {
                columns: self.width,
                rows: self.height,
                slices: self.depth,
                along: 1,
                across: self.width,
                step: places,
            },
            1 => Slices {
                columns: self.width,
                rows: self.depth,
                slices: self.height,
                along: 1,
                across: places,
                step: self.width,
            },
            _ => Slices {
                columns: self.height,
                rows: self.depth,
                slices: self.width,
                along: self.width,
                across: places,
                step: 1,
            },
        }
    }
}

// The work places that the slices take: those of one picture of their size.
fn room_of(s: Slices) -> usize
    requires { (s.columns ≤ 1024) × (s.rows ≤ 1024) }
    ensures { result ≡ room_of s }
{
    acceptance::room(s.columns, s.rows)
}

// The work places that a block takes in a plane, for a caller, who may ask about any: 0 for one that number 1 or 17 refuses.
#[tactic(auto, using(crate::proofs::Accepted::sides_good, crate::proofs::Accepted::sides_of), unfolding(crate::specs::Judge::work_places, crate::specs::Judge::bad_plane))]
pub fn work_places(width: usize, height: usize, depth: usize, plane: u32) -> usize
    ensures { result ≡ work_places width height depth plane }
{
    let sides = Sides {
        width,
        height,
        depth,
    };
    if sides.bad() || 2 < plane {
        return 0;
    }
    room_of(sides.slices(plane))
}

// Number 2: whether a buffer is too short, by their numbers of places.
#[tactic(auto, unfolding(crate::specs::Judge::too_short, refusals::specs::Tests::short))]
fn too_short(places: usize, room: usize, block: usize, res: usize, work: usize) -> bool
    ensures { result ≡ too_short places room block res work }
{
    block < places || res < places || work < room
}

// What a call is refused under, of a call with a result and work of so many places; under 6 with the row that the sample has in all pictures,
// one below the other.
#[tactic(auto, using(crate::proofs::Accepted::sides_good, crate::proofs::Accepted::sides_of, crate::proofs::Accepted::long_enough), unfolding(crate::specs::Judge::judged, crate::specs::Judge::bad_plane))]
fn judge(
    sides: Sides,
    plane: u32,
    setting: Setting,
    block: &[i32],
    res: usize,
    work: usize,
) -> Result<(), Refusal>
    ensures { result ≡ judged sides.width sides.height sides.depth plane setting block.now res work }
{
    if sides.bad() {
        return Err(Refusal::BadSize);
    }
    if 2 < plane {
        return Err(Refusal::BadPlane);
    }
    let s = sides.slices(plane);
    let places = sides.width * sides.height * sides.depth;
    if too_short(places, room_of(s), block.len(), res, work) {
        return Err(Refusal::TooShort);
    }
    acceptance::judge_setting(s.columns, s.rows, setting)?;
    refusals::scanned(block, sides.width, sides.depth * sides.height, RANGE)
}

// A refusal by depth, row and column: row `row` of all pictures, one below the other, is one of the picture at the depth row / height. No other refusal
// of a block names a place.
fn refused(height: usize, refusal: Refusal) -> BlockRefusal
    requires { number refusal ≡ 6 → 1 ≤ height }
    ensures { result ≡ refused_at height refusal }
{
    match refusal {
        Refusal::BadSample(Place { row, column }) => BlockRefusal {
            refusal: Refusal::BadSample(Place {
                row: row % height,
                column,
            }),
            depth: row / height,
        },
        Refusal::BelowThreshold(_) => BlockRefusal {
            refusal: Refusal::BelowThreshold(Place { row: 0, column: 0 }),
            depth: 0,
        },
        _ => BlockRefusal { refusal, depth: 0 },
    }
}

// The slices of plane 0, which are the pictures of the block, straightened one after the other: each is copied into the result when its turn comes, and so
// is near for all of its passes, and for its extremes. Answers those of all of them.
fn straighten_pictures(
    sides: Sides,
    setting: Setting,
    block: &[i32],
    res: &mut [i32],
    work: &mut [i32],
) -> Extremes
    requires { Fit sides.width sides.height sides.depth 0 setting block.now (length res.old) (length work.old) }
    ensures res_after { res.new ≡ straighten_block sides.width sides.height sides.depth 0 setting block.now ++ drop (sides.width * sides.height * sides.depth) res.old }
    ensures work_after { work.new ≡ replicate (12 * max sides.width sides.height) (pos 0) ++ drop (12 * max sides.width sides.height) work.old }
    ensures value { result ≡ extremes_of (sides.width * sides.height * sides.depth) res.new }
{
    let places = sides.width * sides.height;
    let mut extremes = Extremes {
        smallest: FARTHEST,
        largest: -FARTHEST,
    };
    for z in 0..sides.depth {
        let at = z * places;
        pictures::straighten_accepted(
            sides.width,
            sides.height,
            setting,
            &block[at..],
            &mut res[at..],
            work,
        );
        let own = lists::extremes_of(&res[at..at + places]);
        extremes = lists::joined(extremes, own);
    }
    extremes
}

// The slices of a plane straightened together: the block is copied into the result, its slices are straightened where they lie there, and the work places
// are cleared. Answers the extremes of the result.
fn straighten_together(
    sides: Sides,
    plane: u32,
    setting: Setting,
    block: &[i32],
    res: &mut [i32],
    work: &mut [i32],
) -> Extremes
    requires { Fit sides.width sides.height sides.depth plane setting block.now (length res.old) (length work.old) }
    ensures res_after { res.new ≡ straighten_block sides.width sides.height sides.depth plane setting block.now ++ drop (sides.width * sides.height * sides.depth) res.old }
    ensures work_after { work.new ≡ replicate (room_of (slices_of sides.width sides.height sides.depth plane)) (pos 0) ++ drop (room_of (slices_of sides.width sides.height sides.depth plane)) work.old }
    ensures value { result ≡ extremes_of (sides.width * sides.height * sides.depth) res.new }
{
    let places = sides.width * sides.height * sides.depth;
    let s = sides.slices(plane);
    let room = room_of(s);
    lists::copy(&block[..places], &mut res[..places]);
    planes::straighten_slices(&mut res[..places], &mut work[..room], s, setting);
    lists::clear(&mut work[..room]);
    lists::extremes_of(&res[..places])
}

// An accepted call: every slice is straightened into the result. Every slice has as many lines to interpolate.
fn straighten_accepted(
    sides: Sides,
    plane: u32,
    setting: Setting,
    block: &[i32],
    res: &mut [i32],
    work: &mut [i32],
) -> Straightened
    requires { Fit sides.width sides.height sides.depth plane setting block.now (length res.old) (length work.old) }
    ensures res_after { res.new ≡ straighten_block sides.width sides.height sides.depth plane setting block.now ++ drop (sides.width * sides.height * sides.depth) res.old }
    ensures work_after { work.new ≡ replicate (room_of (slices_of sides.width sides.height sides.depth plane)) (pos 0) ++ drop (room_of (slices_of sides.width sides.height sides.depth plane)) work.old }
    ensures lines { result.lines ≡ count_over (slices_of sides.width sides.height sides.depth plane) setting }
    ensures extremes { result.extremes ≡ extremes_of (sides.width * sides.height * sides.depth) res.new }
{
    let s = sides.slices(plane);
    let lines = s.slices as u32 * offsets::count_of(s.columns, s.rows, setting);
    if plane == 0 {
        let extremes = straighten_pictures(sides, setting, block, res, work);
        return Straightened { lines, extremes };
    }
    let extremes = straighten_together(sides, plane, setting, block, res, work);
    Straightened { lines, extremes }
}

// Straightens a block of `width` by `height` by `depth` samples into `result`: every slice in `plane` as a picture of its own, with the kernel, the centre,
// the shears and the border of `setting`, its rows and columns those of the plane. `work` lends the places of one picture of the plane's two sides, 12
// for each sample of the longer one, which hold 0 after it. It tells the lines interpolated over all slices, and the smallest and the largest sample of the
// result. With linear every slice stays in the range of its own samples and the background.
// It refuses, and writes nothing: 1 a side of 0 or over 128; 17 a plane other than 0, 1 and 2; 2 a block or a result under width·height·depth places, or
// work under its own; 3 a centre outside the slices; 4 a shear beyond ±4,096; 5 an unknown kernel; 12 a background beyond ±32,767, judged before 6; 6 a
// sample beyond ±32,767, the first in the order of storage, whatever the plane, with its depth, row and column.
pub fn straighten(
    width: usize,
    height: usize,
    depth: usize,
    plane: u32,
    setting: Setting,
    block: &[i32],
    res: &mut [i32],
    work: &mut [i32],
) -> Result<Straightened, BlockRefusal>
    ensures { Answer width height depth plane setting block.now res.old work.old result res.new work.new }
{
    let sides = Sides {
        width,
        height,
        depth,
    };
    let verdict = judge(sides, plane, setting, block, res.len(), work.len());
    match verdict {
        Err(refusal) => Err(refused(height, refusal)),
        Ok(()) => Ok(straighten_accepted(sides, plane, setting, block, res, work)),
    }
}
