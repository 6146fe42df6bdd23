// Laying rows: tokens that are kept in the pool are copied into the room for a tree.
ghost use Rattle.std.specs.Prelude.{◌≡◌, ◌+◌, ◌≤◌, ◌<◌, ◌^◌, length};
ghost use Rattle.meaning.specs.Tree.{letter};
ghost use Rattle.along.specs.Links.{pool_limit};
ghost use Rattle.along.specs.Rows.{Laid};

use std::simd::Simd;

// The token of a byte.
pub fn letter(b: u8) -> u16
    ensures { result ≡ letter b }
{
    256 + u16::from(b)
}

// Copies `long` tokens of the pool from `from` on to `at`, as far as they fit. Not by the library, whose copy is a call: with one in its loop,
// `glide` keeps its numbers on the stack.
pub fn copy(pool: &[u16; 1024], from: usize, long: usize, tree: &mut [u16], at: usize)
    requires { (from + long ≤ 1024) × (at + long < 2 ^ 64) }
    ensures { Laid pool.now tree.old tree.new from long at 0 }
{
    if at < tree.len() {
        let n = long.min(tree.len() - at);
        for i in 0..n {
            tree[at + i] = pool[from + i];
        }
    }
}

// Copies eight tokens of the pool from `from` on to `at`, in one word of the machine.
fn eight(pool: &[u16; 1024], from: usize, tree: &mut [u16], at: usize)
    requires { (from + 8 ≤ 1024) × (at + 8 ≤ length tree.old) }
    ensures { Laid pool.now tree.old tree.new from 8 at 0 }
{
    Simd::<u16, 8>::from_slice(&pool[from..]).copy_to_slice(&mut tree[at..]);
}

// Copies as `copy` does, and may spoil the `spare` tokens behind the row: eight tokens at once are faster than a few by one. Where there is
// no room at all, as when a row is only measured, nothing is begun.
pub fn lay(pool: &[u16; 1024], from: usize, long: usize, tree: &mut [u16], at: usize, spare: usize)
    requires { (from + long ≤ pool_limit) × (at + long + 8 < 2 ^ 64) }
    ensures { Laid pool.now tree.old tree.new from long at spare }
{
    if at + 8 <= tree.len() && long <= 8 && 8 <= spare {
        eight(pool, from, tree, at);
        return;
    }
    copy(pool, from, long, tree, at);
}
