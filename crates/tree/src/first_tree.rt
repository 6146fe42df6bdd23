// The first tree of a text.
ghost use Rattle.std.specs.Prelude.{◌≡◌};
ghost use Rattle.meaning.specs.Promise.{Answered};
ghost use Rattle.tree.specs.Outcome.{number_of, value_of, flag_of};
ghost use Rattle.tree.specs.Search.{tell};

use crate::outcome::{Outcome, Refusal};
use crate::search::search;

// What the search found, told of a room of so many tokens.
pub fn told(found: Outcome, room: usize) -> Outcome
    ensures { result ≡ tell found room }
{
    let tree = found?;
    if room < tree.length {
        return Err(Refusal::SmallRoom(tree.length));
    }
    Ok(tree)
}

// Writes the row of the first tree of the text to the front of the room.
#[tactic(auto, using(crate::proofs::Answers::answered_as))]
pub fn first_tree(pattern: &[u8], text: &[u8], cells: &mut [u64], tree: &mut [u16]) -> Outcome
    ensures { Answered pattern.now text.now cells.old tree.old (number_of result) (value_of result) (flag_of result) cells.new tree.new }
{
    let room = tree.len();
    told(search(pattern, text, cells, tree), room)
}
