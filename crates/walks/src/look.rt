// Where a walk can go on: what the tables say of a node and a goal.
ghost use Rattle.std.specs.Prelude.{◌≡◌, ◌||◌, ◌<◌, get_or};
ghost use Rattle.sets.specs.Members.{meets, row, rows};
ghost use Rattle.walks.specs.Tables.{yes};
ghost use Rattle.walks.specs.Enter.{open_to};

use crate::tables::Openings;
use sets::set::Set;

impl Openings {
    // Is node j entered on the way to the goal?
    pub fn goes(&self, j: usize, goal: Set) -> bool
        requires { j < rows self.now.first }
        ensures { result ≡ meets (row self.now.first j) goal }
    {
        self.first[j].overlaps(goal)
    }

    // Is it entered so, or may what comes after be gone to?
    pub fn goes_or(&self, j: usize, goal: Set, pass: bool) -> bool
        requires { j < rows self.now.first }
        ensures { result ≡ (meets (row self.now.first j) goal || pass) }
    {
        self.goes(j, goal) || pass
    }

    // Is it entered so, or passed where what comes after it can be gone to?
    #[tactic(auto, unfolding(crate::specs::Enter::open_to))]
    pub fn open_to(&self, j: usize, goal: Set, pass: bool) -> bool
        requires { (j < rows self.now.first) × (j < 1024) }
        ensures { result ≡ open_to (meets (row self.now.first j) goal) (yes (get_or self.now.null j 0)) pass }
    {
        self.goes(j, goal) || self.null[j] != 0 && pass
    }
}
