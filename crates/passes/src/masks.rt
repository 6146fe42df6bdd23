// Which positions read a byte.
ghost use Rattle.std.specs.Prelude.{◌≤◌, ◌<◌};
ghost use Rattle.sets.specs.Members.{limit, rows};
ghost use Rattle.passes.specs.Masks.{Marked, Masked};

use crate::join::join;
use sets::class::Class;
use sets::set::Set;

// Position q joins the rows of the bytes of its class: bit j of word w is byte 64 * w + j.
fn mark(class: &Class, q: usize, mask: &mut [Set])
    requires { (256 ≤ rows mask.old) × (q < limit) }
    ensures { Marked class.now q mask.old mask.new }
{
    for (w, word) in class.words.iter().enumerate() {
        join(&mut mask[64 * w..64 * w + 64], Set { bits: *word }, q);
    }
}

// Each position joins the rows of the bytes of its class.
pub fn masks(class: &[Class; 64], positions: usize, mask: &mut [Set])
    requires { (256 ≤ rows mask.old) × (positions ≤ limit) }
    ensures { Masked class.now positions mask.old mask.new }
{
    for (q, class) in class[..positions].iter().enumerate() {
        mark(class, q, mask);
    }
}
