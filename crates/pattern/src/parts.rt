// A branch list, a branch, an item and an atom: four functions that call each other in a cycle. Each takes how many groups may still be
// opened, and answers the cursor past what it read; or nothing, since there is a mistake or more groups are opened than may be.
ghost use Rattle.std.specs.Prelude.{ℕ, ◌+◌, ◌<◌, length, MatchOption};
ghost use Rattle.grammar.specs.Contract.{ItemFails};
ghost use Rattle.pattern.specs.Letters.{KeptTo};
ghost use Rattle.pattern.specs.Stores.{stores, Within};
ghost use Rattle.pattern.specs.Parts.{ByteAt, Signed, Atomed, Itemed, Branched, Listed};

use super::letters::letter;
use super::nodes::{Cursor, keep};
use kinds::{Node, ReadPattern};
use sets::class::Class;

// The node for the sign at `at`, where one of * + ? is there; its mark is numbered later.
pub fn sign(p: &[u8], at: usize) -> Option<Node>
    ensures { Signed p.now at result }
{
    match p.get(at)? {
        b'*' => Some(Node::Star(0)),
        b'+' => Some(Node::Plus(0)),
        b'?' => Some(Node::Opt(0)),
        _ => None,
    }
}

// An atom that is no group: its class is kept, and the place past it answered. It has its own frame, so that the frames of the cycle hold no
// class, and its answer is no cursor, which would go through memory.
#[inline(never)]
fn kept(p: &[u8], class: &mut [Class; 64], c: Cursor) -> Option<usize>
    requires { Within (length p.now) c × (ByteAt p.now c.at 40 → ⊥) }
    ensures { MatchOption result ((left : ℕ) → ItemFails p.now c.at left) (λ next. KeptTo p.now c.at next c.positions class.old class.new) }
{
    let letter = letter(p, c.at as usize).ok()?;
    keep(class, c.positions, letter.class);
    Some(letter.next)
}

// An atom that is no group.
fn single(p: &[u8], read: &mut ReadPattern, c: Cursor) -> Option<Cursor>
    requires { Within (length p.now) c × (ByteAt p.now c.at 40 → ⊥) }
    ensures { (left : ℕ) → Atomed p.now left c (stores read.old) (stores read.new) result }
{
    let next = kept(p, &mut read.class, c)?;
    Some(c.position(read, next as u16))
}

#[cycle(parts)]
pub fn list(p: &[u8], read: &mut ReadPattern, c: Cursor, left: u16) -> Option<Cursor>
    requires { Within (length p.now) c }
    ensures { Listed p.now left c (stores read.old) (stores read.new) result }
{
    let first = branch(p, read, c, left)?;
    if !first.stands(p, b'|') {
        return Some(first);
    }
    let mut d = first.marked(read, first.at, Node::Branch(0));
    loop {
        let e = branch(p, read, d.past(), left)?;
        let m = e.marked(read, e.at, Node::Branch(0));
        d = m.joined(read, Node::Alt(d.used - 1));
        if !d.stands(p, b'|') {
            return Some(d);
        }
    }
}

// An item, and the rest of the branch where it goes on.
#[cycle(parts)]
fn branch(p: &[u8], read: &mut ReadPattern, c: Cursor, left: u16) -> Option<Cursor>
    requires { Within (length p.now) c }
    ensures { Branched p.now left c (stores read.old) (stores read.new) result }
{
    let first = item(p, read, c, left)?;
    if !first.goes_on(p) {
        return Some(first);
    }
    let rest = branch(p, read, first, left)?;
    Some(rest.joined(read, Node::Cat(first.used - 1)))
}

#[cycle(parts)]
fn item(p: &[u8], read: &mut ReadPattern, c: Cursor, left: u16) -> Option<Cursor>
    requires { Within (length p.now) c }
    ensures { Itemed p.now left c (stores read.old) (stores read.new) result }
{
    let d = atom(p, read, c, left)?;
    match sign(p, d.at as usize) {
        Some(node) => Some(d.marked(read, d.at + 1, node)),
        None => Some(d),
    }
}

#[cycle(parts)]
fn atom(p: &[u8], read: &mut ReadPattern, c: Cursor, left: u16) -> Option<Cursor>
    requires { Within (length p.now) c }
    ensures { Atomed p.now left c (stores read.old) (stores read.new) result }
{
    if !c.stands(p, b'(') {
        return single(p, read, c);
    }
    if left == 0 {
        return None;
    }
    let inner = c.past();
    if inner.stands(p, b')') {
        return Some(c.empty(read));
    }
    let d = list(p, read, inner, left - 1)?;
    if d.stands(p, b')') {
        Some(d.past())
    } else {
        None
    }
}
