// Ask, then commit: the three-pass call in two, so that what it will do can be shown before it writes.
//     ask      every test of the single call, on the same picture and buffers; it writes nothing, and hands back a ticket
//     commit   every test again, on the picture and the buffers as they then stand; then it straightens
// A ticket is plain numbers, which a caller may keep, change or make up. A commit compares its size with the one that it is given, judges its setting,
// and never reads its count.
#![tactic(auto)]

ghost use Rattle.std.specs.Prelude.{◌≡◌};
ghost use Rattle.tickets.specs.Ticket.{other_size, Asking, Committed};

use pictures::Straightened;
use refusals::Refusal;
use settings::Setting;

// What a straightening will do: its size and setting, and how many lines it will interpolate.
#[derive(Clone, Copy)]
pub struct Ticket {
    pub width: usize,
    pub height: usize,
    pub setting: Setting,
    pub count: u32,
}

// Number 14: whether a size is another than the ticket's.
#[tactic(auto, unfolding(crate::specs::Ticket::other_size))]
fn other_size(ticket: Ticket, width: usize, height: usize) -> bool
    ensures { result ≡ other_size width height ticket }
{
    width != ticket.width || height != ticket.height
}

// Asks what `pictures::straighten` would do with the same picture and buffers, and writes nothing: all three are lent to be read. It refuses as that
// call does, under 1, 2, 3, 4, 5, 12 and 6, in this order.
pub fn ask(
    width: usize,
    height: usize,
    setting: Setting,
    picture: &[i32],
    res: &[i32],
    work: &[i32],
) -> Result<Ticket, Refusal>
    ensures { Asking width height setting picture.now res.now work.now result }
{
    acceptance::judge(width, height, setting, picture, res.len(), work.len())?;
    let count = offsets::count_of(width, height, setting);
    Ok(Ticket {
        width,
        height,
        setting,
        count,
    })
}

// Straightens a picture of `width` by `height` samples into `result` with the ticket's setting, as `pictures::straighten` does. It judges what it is
// given, and refuses, in this order: 1 and 2 by the size and the buffers of this call; 14 a size other than the ticket's; 3, 4, 5 and 12 by the
// ticket's setting; 6 by the picture as it stands.
pub fn commit(
    ticket: Ticket,
    width: usize,
    height: usize,
    picture: &[i32],
    res: &mut [i32],
    work: &mut [i32],
) -> Result<Straightened, Refusal>
    ensures { Committed ticket width height picture.now res.old work.old result res.new work.new }
{
    let setting = ticket.setting;
    let other = other_size(ticket, width, height);
    pictures::straighten_on(other, width, height, setting, picture, res, work)
}
