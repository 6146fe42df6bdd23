// The atoms that read a byte: a byte, an escape, the dot, a class. Each is read into a class value.
ghost use Rattle.std.specs.Prelude.{◌≡◌, ◌≤◌, length};
ghost use Rattle.meaning.specs.Grammar.{one_of};
ghost use Rattle.pattern.specs.Parts.{ByteAt, WhetherAt};
ghost use Rattle.pattern.specs.Letters.{strays, Byted, Spanned, Classed, Lettered};

use sets::class::Class;

// The place of a mistake.
#[derive(Clone, Copy)]
pub struct Misplaced(pub usize);

// A byte of a class, and the place past it.
#[derive(Clone, Copy)]
pub struct End {
    pub byte: u8,
    pub next: usize,
}

// A class item, from its low to its high end, and the place past it.
#[derive(Clone, Copy)]
pub struct Span {
    pub low: u8,
    pub high: u8,
    pub next: usize,
}

// What was read, as a class, and the place past it.
#[derive(Clone, Copy)]
pub struct Taken {
    pub class: Class,
    pub next: usize,
}

// Whether the byte b stands at `at`.
pub fn stands(p: &[u8], at: usize, b: u8) -> bool
    ensures { WhetherAt p.now at b result }
{
    p.get(at) == Some(&b)
}

pub fn class_byte(p: &[u8], at: usize) -> Result<End, Misplaced>
    requires { at ≤ length p.now }
    ensures { Byted p.now at result }
{
    let Some(&byte) = p.get(at) else {
        return Err(Misplaced(at));
    };
    let next = at + 1;
    match byte {
        b'[' | b']' | b'-' => Err(Misplaced(at)),
        b'\\' => match p.get(next) {
            Some(&byte) => Ok(End {
                byte,
                next: next + 1,
            }),
            None => Err(Misplaced(next)),
        },
        _ => Ok(End { byte, next }),
    }
}

// One item of a class, c or c-d.
pub fn class_item(p: &[u8], at: usize) -> Result<Span, Misplaced>
    requires { at ≤ length p.now }
    ensures { Spanned p.now at result }
{
    let low = class_byte(p, at)?;
    if !stands(p, low.next, b'-') {
        return Ok(Span {
            low: low.byte,
            high: low.byte,
            next: low.next,
        });
    }
    let high = class_byte(p, low.next + 1)?;
    if high.byte < low.byte {
        return Err(Misplaced(high.next - 1));
    }
    Ok(Span {
        low: low.byte,
        high: high.byte,
        next: high.next,
    })
}

// The items of a class, from the byte past the '[' on, and its ']'. It is read where it is kept, as a letter is.
#[inline(always)]
pub fn class(p: &[u8], from: usize) -> Result<Taken, Misplaced>
    requires { from ≤ length p.now }
    ensures { Classed p.now from result }
{
    let first = class_item(p, from)?;
    let mut class = Class::none().with_range(first.low, first.high);
    let mut at = first.next;
    while at < p.len() {
        if p[at] == b']' {
            return Ok(Taken {
                class,
                next: at + 1,
            });
        }
        let item = class_item(p, at)?;
        class = class.with_range(item.low, item.high);
        at = item.next;
    }
    Err(Misplaced(at))
}

// Whether no atom begins with b.
fn stray(b: u8) -> bool
    ensures { one_of strays b ≡ result }
{
    matches!(b, b')' | b'|' | b'*' | b'+' | b'?' | b']')
}

// An atom that is no group. It is read where it is kept, and its class not handed through memory.
#[inline(always)]
pub fn letter(p: &[u8], at: usize) -> Result<Taken, Misplaced>
    requires { (at ≤ length p.now) × (ByteAt p.now at 40 → ⊥) }
    ensures { Lettered p.now at result }
{
    let Some(&b) = p.get(at) else {
        return Err(Misplaced(at));
    };
    if stray(b) {
        return Err(Misplaced(at));
    }
    let next = at + 1;
    match b {
        b'[' => class(p, next),
        b'\\' => {
            let Some(&d) = p.get(next) else {
                return Err(Misplaced(next));
            };
            Ok(Taken {
                class: Class::none().with(d),
                next: next + 1,
            })
        }
        b'.' => Ok(Taken {
            class: Class::all(),
            next,
        }),
        _ => Ok(Taken {
            class: Class::none().with(b),
            next,
        }),
    }
}
