// Words, numbers and tokens as bytes, put into a lent row as far as it goes and counted in any case.
ghost use Rattle.std.specs.Prelude.{◌≡◌, [], ◌∷◌, ◌+◌, ◌*◌, ◌≤◌, length};
ghost use Rattle.meaning.specs.Desk.{digits, spaced, token, tokens, answer_line, tree_line};
ghost use Rattle.lines.specs.Wrote.{far};
ghost use Rattle.lines.specs.Puts.{Puts};

use walks::step::put;

// Writes a row from its front on: the row, and how many bytes were put.
#[derive(Drop)]
pub struct Writer<'a> {
    out: &'a mut [u8],
    at: usize,
}

impl<'a> Writer<'a> {
    pub fn new(out: &'a mut [u8]) -> Writer<'a>
        ensures same { result.out.ghost_name ≡ out.entry.ghost_name }
        ensures row { result.out.now ≡ out.old }
        ensures front { result.at ≡ 0 }
    {
        Writer { out, at: 0 }
    }

    // Writes from a place on, as if so many bytes had been put.
    pub fn starting_at(out: &'a mut [u8], at: usize) -> Writer<'a>
        ensures same { result.out.ghost_name ≡ out.entry.ghost_name }
        ensures row { result.out.now ≡ out.old }
        ensures place { result.at ≡ at }
    {
        Writer { out, at }
    }

    // How many bytes were put.
    pub fn len(&self) -> usize
        ensures { result ≡ self.now.at }
    {
        self.at
    }

    // One byte.
    pub fn put(&mut self, b: u8)
        requires { self.old.at + 1 ≤ far }
        ensures { Puts self.old (b ∷ []) self.new }
    {
        self.at = put(self.out, self.at, b);
    }

    // A number in decimal.
    pub fn decimal(&mut self, n: usize)
        requires { self.old.at + 20 ≤ far }
        ensures { Puts self.old (digits 20 n) self.new }
    {
        if n >= 10 {
            self.decimal(n / 10);
        }
        self.put(b'0' + (n % 10) as u8);
    }

    // A row of bytes.
    pub fn word(&mut self, w: &[u8])
        requires { self.old.at + length w.now ≤ far }
        ensures { Puts self.old w.now self.new }
    {
        for b in w {
            self.put(*b);
        }
    }

    // A space and a number.
    pub fn spaced(&mut self, n: usize)
        requires { self.old.at + 21 ≤ far }
        ensures puts { Puts self.old (spaced n) self.new }
        ensures upper_bound { self.new.at ≤ self.old.at + 21 }
    {
        self.put(b' ');
        self.decimal(n);
    }

    // A space, a letter and a number.
    pub fn lettered(&mut self, letter: u8, n: usize)
        requires { self.old.at + 22 ≤ far }
        ensures { Puts self.old (32 ∷ letter ∷ digits 20 n) self.new }
    {
        self.put(b' ');
        self.put(letter);
        self.decimal(n);
    }

    // A token: o opens, c closes, b is a byte.
    pub fn token(&mut self, t: u16)
        requires { self.old.at + 22 ≤ far }
        ensures puts { Puts self.old (token t) self.new }
        ensures upper_bound { self.new.at ≤ self.old.at + 7 }
    {
        let n = t as usize;
        match n {
            0..128 => self.lettered(b'o', n),
            128..256 => self.lettered(b'c', n - 128),
            _ => self.lettered(b'b', n - 256),
        }
    }

    // The tokens of a row.
    pub fn tokens(&mut self, row: &[u16])
        requires { self.old.at + 22 * length row.now ≤ far }
        ensures puts { Puts self.old (tokens row.now) self.new }
        ensures upper_bound { self.new.at ≤ self.old.at + 7 * length row.now }
    {
        for t in row {
            self.token(*t);
        }
    }

    // Line one: number, value and flag.
    pub fn answer_line(&mut self, n: usize, v: usize, f: usize)
        requires { self.old.at + 70 ≤ far }
        ensures puts { Puts self.old (answer_line n v f) self.new }
        ensures upper_bound { self.new.at ≤ self.old.at + 70 }
    {
        self.word(b"ANSWER");
        self.spaced(n);
        self.spaced(v);
        self.spaced(f);
        self.put(b'\n');
    }

    // Line two: the tokens of a row.
    pub fn tree_line(&mut self, row: &[u16])
        requires { self.old.at + 22 * length row.now + 5 ≤ far }
        ensures puts { Puts self.old (tree_line row.now) self.new }
        ensures upper_bound { self.new.at ≤ self.old.at + 7 * length row.now + 5 }
    {
        self.word(b"TREE");
        self.tokens(row);
        self.put(b'\n');
    }
}
