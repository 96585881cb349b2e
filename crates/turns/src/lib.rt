// The samples of a picture written anew, so that it stands turned or mirrored.
// Rows that stay rows are copied or reversed one by one. Rows that become columns go through a block of 64 by 64 samples: in a picture 1,024 wide, samples
// below each other share one set of the processor's cache, so that reading a column of many of them straight from the picture takes several times as long.
#![tactic(auto)]

ghost use Rattle.std.specs.Prelude.{◌≡◌, ◌++◌, true, false, ◌+◌, ◌*◌, ◌≤◌, ◌<◌, length, drop, reverse, if◌then◌else◌};
ghost use Rattle.lists.specs.Line.{line};
ghost use Rattle.arrangements.specs.Moves.{screen, stored};
ghost use Rattle.arrangements.specs.Views.{facing, viewed};
ghost use Rattle.arrangements.specs.Patches.{Patch};
ghost use Rattle.turns.specs.Block.{seen, loaded, least_column, Held, Tiled};

// The most columns and rows that go through a block at once.
const BLOCK: usize = 64;

// How far the rows of a block are apart in it: more than 64, so that samples below each other lie in different sets of the cache.
const ACROSS: usize = 68;

// The places of a block.
const ROOM: usize = BLOCK * ACROSS;

// A picture of `width` by `height` samples and how it is seen: its columns counted from the right where `right` holds, its rows from below where `below` does.
#[derive(Clone, Copy)]
pub struct View {
    pub width: usize,
    pub height: usize,
    pub right: bool,
    pub below: bool,
}

// Place k of n, counted from the end where `back` holds.
fn face(back: bool, n: usize, k: usize) -> usize
    requires { k < n }
    ensures { result ≡ facing back n k }
{
    if back { n - 1 - k } else { k }
}

// ---- rows that stay rows

// The samples in reverse. The library's `reverse` after a copy goes over the result twice, and takes up to 1.8 times as long.
fn copy_reversed(samples: &[i32], res: &mut [i32])
    requires { length samples.now ≡ length res.old }
    ensures { res.new ≡ reverse samples.now }
{
    let n = samples.len();
    for (k, place) in res.iter_mut().enumerate() {
        *place = samples[n - 1 - k];
    }
}

// The samples as they are or in reverse.
fn copy_facing(back: bool, samples: &[i32], res: &mut [i32])
    requires { length samples.now ≡ length res.old }
    ensures { res.new ≡ (if back then reverse samples.now else samples.now) }
{
    if back {
        copy_reversed(samples, res);
    } else {
        lists::copy(samples, res);
    }
}

// The first width·height places of `result` become the picture so seen; later ones stay.
pub fn write_rows(picture: &[i32], view: View, res: &mut [i32])
    requires { Held view (length picture.now) (length res.old) }
    ensures { res.new ≡ stored (viewed false view.right view.below (screen view.width view.height picture.now)) ++ drop (view.width * view.height) res.old }
{
    let width = view.width;
    // By the row's number: of a result that is written by `chunks_exact_mut` a proof knows no sample.
    for y in 0..view.height {
        let from = face(view.below, view.height, y) * width;
        let at = y * width;
        let row = &picture[from..from + width];
        copy_facing(view.right, row, &mut res[at..at + width]);
    }
}

// ---- rows that become columns

// Columns x to x + columns - 1 of the result in its rows y to y + rows - 1, which go through the block at once.
#[derive(Clone, Copy)]
struct Tile {
    x: usize,
    columns: usize,
    y: usize,
    rows: usize,
}

// Row j of the block becomes, of the picture's row that is the tile's column j, the samples that are its rows.
fn load_block(picture: &[i32], view: View, tile: Tile, block: &mut [i32; ROOM])
    requires { (view.width * view.height ≤ length picture.now) × Tiled view tile }
    ensures { Patch 68 0 tile.rows 0 tile.columns (loaded view tile.x (least_column view tile) picture.now) block.old block.new }
{
    let rows = tile.rows;
    let first = face(view.right, view.width - rows + 1, tile.y);
    for j in 0..tile.columns {
        let from = face(view.below, view.height, tile.x + j) * view.width + first;
        let at = j * ACROSS;
        lists::copy(&picture[from..from + rows], &mut block[at..at + rows]);
    }
}

// The tile's row i becomes the block's column i, counted from the end where the picture's columns are.
fn store_block(block: &[i32; ROOM], view: View, tile: Tile, res: &mut [i32])
    requires { (view.width * view.height ≤ length res.old) × Tiled view tile }
    ensures { Patch view.height tile.x tile.columns tile.y tile.rows (λ i j. line block.now (facing view.right tile.rows i + j * 68)) res.old res.new }
{
    for i in 0..tile.rows {
        let from = face(view.right, tile.rows, i);
        let at = (tile.y + i) * view.height + tile.x;
        lists::load_line(block, from, ACROSS, &mut res[at..at + tile.columns]);
    }
}

// Rows y to y + rows - 1 of the result, block after block.
fn write_band(
    picture: &[i32],
    view: View,
    y: usize,
    rows: usize,
    block: &mut [i32; ROOM],
    res: &mut [i32],
)
    requires { Held view (length picture.now) (length res.old) × (1 ≤ rows) × (rows ≤ 64) × (y + rows ≤ view.width) }
    ensures { Patch view.height 0 view.height y rows (λ i k. seen view picture.now (y + i) k) res.old res.new }
{
    let height = view.height;
    for x in (0..height).step_by(BLOCK) {
        let columns = BLOCK.min(height - x);
        let tile = Tile {
            x,
            columns,
            y,
            rows,
        };
        load_block(picture, view, tile, block);
        store_block(block, view, tile, res);
    }
}

// The first width·height places of `result` become the picture so seen, with its rows as columns; later ones stay.
pub fn write_columns(picture: &[i32], view: View, res: &mut [i32])
    requires { Held view (length picture.now) (length res.old) }
    ensures { res.new ≡ stored (viewed true view.right view.below (screen view.width view.height picture.now)) ++ drop (view.width * view.height) res.old }
{
    let width = view.width;
    let mut block = [0; ROOM];
    for y in (0..width).step_by(BLOCK) {
        let rows = BLOCK.min(width - y);
        write_band(picture, view, y, rows, &mut block, res);
    }
}
