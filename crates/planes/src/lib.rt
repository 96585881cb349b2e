// Pictures that lie side by side in one list, as the slices of a block do, straightened where they lie: rows, columns and rows again are moved with the
// strides of the slices, and no slice is copied out. A picture of its own is one slice.
// A pass goes over the lines that lie nearest to each other, four at a time, so that they share cache lines: the lines of one slice, or the same line of
// all slices, which moves alike in each of them.
#![tactic(auto)]

ghost use Rattle.std.specs.Prelude.{◌≡◌, false, ℕ, ◌≤◌, length};
ghost use Rattle.offsets.specs.Moves.{Slight};
ghost use Rattle.planes.specs.Slices.{transposed, exchanged};
ghost use Rattle.planes.specs.Sweep.{SlicesWithin, moves_at, move_at, Swept, Sweepable, Straightened, Workable};

use grid::Strides;
use kernels::Kernel;
use offsets::Moves;
use settings::Setting;
use shears::Shear;

// How slices lie: how many there are, each of so many columns and rows, and how many places apart neighbours stand: columns `along`, rows `across`,
// slices `step`.
#[derive(Clone, Copy)]
pub struct Slices {
    pub columns: usize,
    pub rows: usize,
    pub slices: usize,
    pub along: usize,
    pub across: usize,
    pub step: usize,
}

impl Slices {
    // The slices with rows for columns.
    fn transposed(self) -> Slices
        ensures { result ≡ transposed self }
    {
        Slices {
            columns: self.rows,
            rows: self.columns,
            along: self.across,
            across: self.along,
            ..self
        }
    }

    // The slices with slices for rows: slice y has row y of every slice.
    fn exchanged(self) -> Slices
        ensures { result ≡ exchanged self }
    {
        Slices {
            rows: self.slices,
            slices: self.rows,
            across: self.step,
            step: self.across,
            ..self
        }
    }
}

// How far the rows of slice i move: as `moves` has it; or all alike, as line i does there, where slices stand for rows.
fn moves_at(moves: Moves, alike: bool, i: usize) -> Moves
    requires { Slight moves × (i ≤ 1024) }
    ensures { (result ≡ moves_at moves alike i) × Slight result }
{
    if alike {
        Moves::Alike(moves.at(i))
    } else {
        moves
    }
}

// The rows of every slice moved, one slice after the other.
fn sweep_slices(list: &mut [i32], work: &mut [i32], s: Slices, alike: bool, shear: Shear)
    requires sweepable { Sweepable shear s (length list.old) (length work.old) }
    requires slices_within { SlicesWithin s 294912 list.old }
    ensures { Swept shear.border shear.kernel (move_at shear.moves alike) s list.old list.new }
{
    let strides = Strides {
        n: s.columns,
        along: s.along,
        across: s.across,
    };
    for i in 0..s.slices {
        let moves = moves_at(shear.moves, alike, i);
        shears::pass(
            &mut list[i * s.step..],
            work,
            strides,
            s.rows,
            Shear { moves, ..shear },
        );
    }
}

// Row y of every slice moved, as `shear` has it.
fn sweep(list: &mut [i32], work: &mut [i32], s: Slices, shear: Shear)
    requires sweepable { Sweepable shear s (length list.old) (length work.old) }
    requires slices_within { SlicesWithin s 294912 list.old }
    ensures { Swept shear.border shear.kernel (move_at shear.moves false) s list.old list.new }
{
    if s.step < s.across {
        sweep_slices(list, work, s.exchanged(), true, shear);
        return;
    }
    sweep_slices(list, work, s, false, shear);
}

// Every slice straightened where it lies: rows, columns and rows again, each of all slices before the next.
pub fn straighten_slices(list: &mut [i32], work: &mut [i32], s: Slices, setting: Setting)
    requires workable { Workable s setting (length list.old) (length work.old) }
    requires slices_within { SlicesWithin s 32767 list.old }
    ensures { Straightened s setting list.old list.new }
{
    let border = setting.border;
    let kernel = Kernel::try_from(setting.kernel).unwrap();
    let rows = Shear {
        border,
        kernel,
        moves: Moves::Sheared(setting.a, setting.cy),
    };
    let columns = Shear {
        border,
        kernel,
        moves: Moves::Sheared(setting.b, setting.cx),
    };
    sweep(list, work, s, rows);
    sweep(list, work, s.transposed(), columns);
    sweep(list, work, s, rows);
}
