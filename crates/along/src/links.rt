// Links: the ways on from a position that a walk has gone are kept, so that `glide` can go them again. Their rows stand in a pool of their own,
// so what is kept serves for every text of a pattern.
ghost use Rattle.std.specs.Prelude.{◌≡◌, ℕ, ◌+◌, ◌-◌, ◌≤◌, ◌<◌, ◌^◌, length};
ghost use Rattle.kinds.specs.declared.ReadPattern.{ReadPattern};
ghost use Rattle.sets.specs.Members.{limit, rows};
ghost use Rattle.walks.specs.Steps.{cursor};
ghost use Rattle.along.specs.Links.{ChartedBy, Keeps, Linked, PlaceFor, Stock, Went, pool_limit, position_of};

use crate::chart::Chart;
use crate::lay::copy;
use crate::stand::Stand;
use sets::set::{LIMIT, Set};
use walks::step::Step;

// How many tokens of the pool may be used: from each of them eight can be read at once.
pub const POOL: usize = 1016;

// A way on that is kept: before which position it stops, where its row begins in the pool, how long that is, and whether another way was open:
// 1 where one was, 0 where none was. All have 16 bits, so the table is small. In a place that is no way of the pattern's anything may stand.
#[derive(Clone, Copy)]
pub struct Link {
    pub position: u16,
    pub from: u16,
    pub long: u16,
    pub other: u16,
}

// The ways on that are kept: for each place the goal of the way that is kept there, and the way; their rows, and how many tokens of these are used.
// The goals stand by themselves, since a glide over one array of both is slower.
#[derive(Clone, Copy)]
pub struct Links {
    pub keys: [Set; 256],
    pub links: [Link; 256],
    pub pool: [u16; 1024],
    pub used: usize,
}

// Where the way on from position q to the goal is kept: at one of four places, by the goal's least member, which is known before q is.
pub fn kept_at(q: usize, goal: Set) -> usize
    requires { q < limit }
    ensures { PlaceFor q goal result }
{
    4 * q + goal.first().unwrap_or(LIMIT) % 4
}

impl Links {
    // No way is kept.
    pub fn empty() -> Links
        ensures { (pattern : ReadPattern) (root : ℕ) → Stock pattern root result }
    {
        Links {
            keys: [Set::empty(); 256],
            links: [Link {
                position: 0,
                from: 0,
                long: 0,
                other: 0,
            }; 256],
            pool: [0; 1024],
            used: 0,
        }
    }

    // Keeps at place s where a step to the goal came to, whose row stands in the pool from `from` on, and hands it back as one whose row
    // stands from `at` on.
    fn keep(&mut self, s: usize, goal: Set, from: usize, u: Step, at: usize) -> Step
        requires place { (s < 256) × ((from ≤ cursor u) × (at + (cursor u - from) < 2 ^ 64)) }
        requires sizes { (rows self.old.keys ≡ 256) × (length self.old.links ≡ 256) }
        requires in_pool { (cursor u ≤ pool_limit) × (position_of u < limit) }
        ensures { Keeps s goal from at u result self.old self.new }
    {
        match u {
            Step::Passed(c, w) => Step::Passed(at + (c - from), w),
            Step::Stopped(q, c, w) => {
                let long = c - from;
                self.keys[s] = goal;
                self.links[s] = Link {
                    position: q as u16,
                    from: from as u16,
                    long: long as u16,
                    other: u16::from(w),
                };
                Step::Stopped(q, at + long, w)
            }
        }
    }

    // Goes on from position q to the goal or, if `last`, to the end, as `resume` does from the root. Unless `last`, keeps the way for the
    // positions of the goal that may follow q: which marks are written depends on them alone. Where the pool has no room for its row, all is
    // forgotten.
    pub fn onward(
        &mut self,
        chart: Chart,
        q: usize,
        goal: Set,
        last: bool,
        tree: &mut [u16],
        at: usize,
    ) -> Step
        requires linked { Linked chart.pattern.now chart.root q at }
        requires charted { ChartedBy chart.tables.now chart.pattern.now chart.root }
        requires stock { Stock chart.pattern.now chart.root self.old }
        ensures went { Went chart.entry.pattern.now chart.entry.root q goal last tree.old tree.new at result }
        ensures stocked { Stock chart.entry.pattern.now chart.entry.root self.new }
    {
        let guide = chart.guide();
        if last {
            return guide.resume(chart.root, q, goal, true, tree, at);
        }
        let from = self.used;
        let u = guide.resume(chart.root, q, goal, false, &mut self.pool, from);
        let end = Stand::after(u, 0).at;
        if POOL < end {
            self.keys.fill(Set::empty());
            self.used = 0;
            return guide.resume(chart.root, q, goal, false, tree, at);
        }
        copy(&self.pool, from, end - from, tree, at);
        self.used = end;
        let near = chart.tables.follow[q].meet(goal);
        self.keep(kept_at(q, goal), near, from, u, at)
    }
}
