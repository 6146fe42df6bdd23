// Gliding: along a text by ways that are kept, with no walk from the root.
ghost use Rattle.along.specs.Glide.{Glided, Glides, Recalled, Recalls};

use crate::lay::{lay, letter};
use crate::links::{Link, Links, kept_at};
use crate::stand::Stand;
use sets::set::Set;
use walks::step::put;

// Reads a byte and goes a way that is kept.
fn recall(way: &Link, pool: &[u16; 1024], b: u8, tree: &mut [u16], s: Stand, spare: usize) -> Stand
    requires { Recalls way.now pool.now s }
    ensures { Recalled way.now pool.now b tree.old tree.new spare s result }
{
    let next = put(tree, s.at, letter(b));
    let long = usize::from(way.long);
    lay(pool, usize::from(way.from), long, tree, next, spare);
    Stand {
        read: s.read + 1,
        position: usize::from(way.position),
        at: next + long,
        other: s.other || way.other == 1,
    }
}

// Goes along the text for as long as the way on is kept. The last byte is left: the way from there leads to the end of the tree. Some position
// of the goal may follow, so an empty place is never taken for a way. Behind a row as many tokens may be spoilt as bytes are left, each of
// which writes a token at least.
pub fn glide(
    kept: &Links,
    follow: &[Set; 64],
    text: &[u8],
    cells: &[u64],
    tree: &mut [u16],
    s: Stand,
) -> Stand
    requires { Glides text.now cells.now follow.now kept.now tree.old s }
    ensures { Glided text.now cells.now follow.now kept.now tree.old tree.new s result }
{
    let end = text.len() - 1;
    let mut s = s;
    while s.read < end {
        let i = s.read;
        let q = s.position;
        let goal = Set::load(cells, i + 1);
        let near = follow[q].meet(goal);
        let p = kept_at(q, goal);
        if !kept.keys[p].same(near) {
            return s;
        }
        s = recall(&kept.links[p], &kept.pool, text[i], tree, s, end - i);
    }
    s
}
