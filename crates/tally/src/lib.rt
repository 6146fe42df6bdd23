// A row of tokens counted in the figures of its marks. The figures of mark m + 1 stand at place m.
#![tactic(auto)]

ghost use Rattle.std.specs.Prelude.{◌≡◌, true, ◌+◌, ◌*◌, ◌-◌, ◌≤◌, ◌<◌, length, get_or};
ghost use Rattle.tally.specs.Tally.{Holds, Tallied};
ghost use Rattle.tally.specs.Along.{plus, Fits, Takes, Opens, Opened, Closes, Underway, Moved, Ends, Ran};

use meaning::Record;

// A mark is closed by its number and this.
const CLOSING: u16 = 128;

// A place of a row, and how many byte tokens stand behind it.
#[derive(Clone, Copy)]
struct Place {
    at: usize,
    seen: u64,
}

// Of each mark that is closed behind a place: how many of the byte tokens seen stand behind its next closing.
type Closings = [u64; 64];

// Stands for a mark that is not closed there: no row has so many bytes. An Option in its place takes more time.
const NEVER: u64 = u64::MAX;

// A mark has more turns.
fn add(figures: &mut Record, more: Record)
    requires { Fits figures.old more }
    ensures { figures.new ≡ plus figures.old more }
{
    figures.turns += more.turns;
    figures.bytes += more.bytes;
    figures.longest = figures.longest.max(more.longest);
}

// Whether a closing of the mark ends a turn of one byte, if it stands before the place.
fn wraps(row: &[u16], at: usize, mark: u16) -> bool
    requires { at ≤ length row.now }
    ensures { result ≡ true → Closes row.now at mark → Ends row.now at mark }
{
    let &[.., opening, byte, _] = &row[..at] else {
        return false;
    };
    byte / 256 == 1 && opening == mark
}

// Whether such a turn ends at the place.
fn ends(row: &[u16], at: usize, mark: u16) -> bool
    requires in_row { at ≤ length row.now }
    requires from_one { 1 ≤ mark }
    requires up_to_last { mark ≤ 64 }
    ensures { result ≡ true → Ends row.now at mark }
{
    at > 0 && row[at - 1] == mark + CLOSING && wraps(row, at, mark)
}

// The place before all such turns that end there, one right behind another.
fn run(row: &[u16], from: usize, mark: u16) -> usize
    requires in_row { from ≤ length row.now }
    requires from_one { 1 ≤ mark }
    requires up_to_last { mark ≤ 64 }
    ensures { Ran row.now mark from result }
{
    let mut at = from;
    while ends(row, at, mark) {
        at -= 3;
    }
    at
}

impl Place {
    // At an opening of the mark at place m: its turn is counted, if bytes stand before its next closing.
    fn opening(self, m: usize, closed: &Closings, figures: &mut [Record; 64])
        requires { Opens m self.seen closed.now figures.old }
        ensures { Opened m self.seen closed.now figures.old figures.new }
    {
        let behind = closed[m];
        if behind < self.seen {
            let read = self.seen - behind;
            add(
                &mut figures[m],
                Record {
                    turns: 1,
                    bytes: read,
                    longest: read,
                },
            );
        }
    }

    // At a closing, which stands before the place: with it go all turns of one byte that end there.
    fn closing(
        self,
        row: &[u16],
        mark: u16,
        closed: &mut Closings,
        figures: &mut [Record; 64],
    ) -> Place
        requires underway { Underway row.now self closed.old figures.old }
        requires closes { Closes row.now self.at mark }
        ensures { Moved row.now self closed.old figures.old result closed.new figures.new }
    {
        let m = mark as usize - 1;
        if !wraps(row, self.at, mark) {
            closed[m] = self.seen;
            return Place {
                at: self.at - 1,
                ..self
            };
        }
        let at = run(row, self.at - 3, mark);
        let turns = ((self.at - at) / 3) as u64;
        let seen = self.seen + turns;
        closed[m] = seen - 1;
        add(
            &mut figures[m],
            Record {
                turns,
                bytes: turns,
                longest: 1,
            },
        );
        Place { at, seen }
    }

    // One token towards the front, or a run of turns of one byte.
    fn step(self, row: &[u16], closed: &mut Closings, figures: &mut [Record; 64]) -> Place
        requires underway { Underway row.now self closed.old figures.old }
        requires not_first { 0 < self.at }
        ensures { Moved row.now self closed.old figures.old result closed.new figures.new }
    {
        let at = self.at - 1;
        let token = row[at];
        // a byte token is 256 to 511, and most tokens are bytes
        if token >= 256 {
            let seen = if token <= 511 {
                self.seen + 1
            } else {
                self.seen
            };
            return Place { at, seen };
        }
        match token {
            1..=64 => {
                self.opening(token as usize - 1, closed, figures);
                Place { at, ..self }
            }
            129..=192 => self.closing(row, token - CLOSING, closed, figures),
            _ => Place { at, ..self },
        }
    }
}

// From the end of the row to its front, so that what an opening waits for has been seen.
pub fn tally(row: &[u16], figures: &mut [Record; 64])
    requires { Holds row.now figures.old }
    ensures { Tallied row.now figures.old figures.new }
{
    let mut closed = [NEVER; 64];
    let mut place = Place {
        at: row.len(),
        seen: 0,
    };
    while 0 < place.at {
        place = place.step(row, &mut closed, figures);
    }
}
