// How a walk between two letters writes and ends.
ghost use Rattle.std.specs.Prelude.{◌≡◌, false, [], ◌∷◌, ◌+◌, ◌<◌, ◌^◌, set};
ghost use Rattle.positions.specs.Positions.{pass};
ghost use Rattle.positions.specs.Runs.{run};
ghost use Rattle.walks.specs.Steps.{cursor, noted, After};

// Past the part, or before a position; how many tokens are counted then; whether there was another way.
#[derive(Clone, Copy)]
pub enum Step {
    Passed(usize, bool),
    Stopped(usize, usize, bool),
}

// Stores a token where there is room for it, and counts it in any case.
pub fn put<T: Copy + Drop>(tree: &mut [T], at: usize, token: T) -> usize
    requires { at + 1 < 2 ^ 64 }
    ensures { (result ≡ at + 1) × (tree.new ≡ set tree.old at token) }
{
    if at < tree.len() {
        tree[at] = token;
    }
    at + 1
}

impl Step {
    // The step, with another way if `more`.
    pub fn also(self, more: bool) -> Step
        ensures { result ≡ noted more self }
    {
        match self {
            Step::Passed(at, other) => Step::Passed(at, other || more),
            Step::Stopped(q, at, other) => Step::Stopped(q, at, other || more),
        }
    }

    // Writes the close of a mark where the step passed.
    pub fn close(self, tree: &mut [u16], mark: u16) -> Step
        requires { (cursor self + 1 < 2 ^ 64) × (mark < 128) }
        ensures { After self tree.old tree.new result (run ((128 + mark) ∷ []) pass false) }
    {
        match self {
            Step::Passed(at, other) => Step::Passed(put(tree, at, 128 + mark), other),
            Step::Stopped(..) => self,
        }
    }
}
