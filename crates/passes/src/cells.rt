// The work cells.
ghost use Rattle.std.specs.Prelude.{◌≡◌, ◌++◌, ◌+◌, ◌<◌, length, drop, replicate};

// The first n + 1 cells become zero.
pub fn clear(cells: &mut [u64], n: usize)
    requires { n < length cells.old }
    ensures { cells.new ≡ replicate (n + 1) 0 ++ drop (n + 1) cells.old }
{
    cells[..=n].fill(0);
}
