// The scheduler's verdict.
#![tactic(auto)]

ghost use Rattle.meaning.specs.Promise.{Verdict};
ghost use Rattle.verdict.specs.Suffice.{Suffice};

use tree::outcome::{flag, number};
use tree::room::CELLS;
use tree::search::search;

// The verdict, with cells that suffice for the text.
fn judged(pattern: &[u8], text: &[u8], cells: &mut [u64]) -> u32
    requires { Suffice text.now cells.old }
    ensures { Verdict pattern.now text.now result }
{
    let mut room = [0u16; 1];
    let found = search(pattern, text, cells, &mut room);
    if flag(found) == 1 { 11 } else { number(found) }
}

// 0 for exactly one tree, 11 for more than one, else the number of the refusal. The cells are the call's own, few for a short text, since
// they are cleared first; and next to no tree is written.
pub fn verdict(pattern: &[u8], text: &[u8]) -> u32
    ensures { Verdict pattern.now text.now result }
{
    if text.len() < 256 {
        let mut few = [0u64; 256];
        return judged(pattern, text, &mut few);
    }
    let mut cells = [0u64; CELLS];
    judged(pattern, text, &mut cells)
}
