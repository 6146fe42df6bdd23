// Where a walk along a text stands.
ghost use Rattle.along.specs.Stand.{Stands};

use walks::step::Step;

// How many bytes are read, before which position a walk stands, how many tokens are counted, whether another way was open.
#[derive(Clone, Copy)]
pub struct Stand {
    pub read: usize,
    pub position: usize,
    pub at: usize,
    pub other: bool,
}

impl Stand {
    // Where a step has come to after so many bytes. One that has passed stands nowhere, and none has while a byte is left.
    pub fn after(step: Step, read: usize) -> Stand
        ensures { Stands step read result }
    {
        let (position, at, other) = match step {
            Step::Passed(at, other) => (0, at, other),
            Step::Stopped(q, at, other) => (q, at, other),
        };
        Stand {
            read,
            position,
            at,
            other,
        }
    }
}
