// From the start of the text onwards: how far it can be read.
ghost use Rattle.std.specs.Prelude.{◌≡◌, ◌≤◌};
ghost use Rattle.sets.specs.Members.{has, limit, rows};
ghost use Rattle.passes.specs.Ways.{readable};

use crate::steps::after;
use sets::set::Set;

// How many bytes of the text can be read from the positions of first, one after another.
pub fn place(text: &[u8], mask: &[Set], follow: &[Set], first: Set) -> usize
    requires { (256 ≤ rows mask.now) × (limit ≤ rows follow.now) }
    ensures { result ≡ readable mask.now follow.now (has first) text.now }
{
    let mut next = first;
    for (i, b) in text.iter().enumerate() {
        let reading = next.meet(mask[*b as usize]);
        if reading.is_empty() {
            return i;
        }
        next = after(follow, reading);
    }
    text.len()
}
