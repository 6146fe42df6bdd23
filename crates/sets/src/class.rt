// A class: a set of bytes, in four words.
ghost use Rattle.std.specs.Prelude.{◌≡◌, true, false, ◌&&◌, ◌||◌, ℕ, ◌*◌, ◌/◌, ◌%◌, ◌^◌, ◌<◌, eqb, leb, get_or, set, bit_or};
ghost use Rattle.sets.specs.Classes.{among};

// Byte b is the bit b % 64 of word b / 64.
#[derive(Clone, Copy, PartialEq, Eq)]
pub struct Class {
    pub words: [u64; 4],
}

impl Class {
    // The class with no byte.
    pub fn none() -> Class
        ensures { (q : ℕ) → among result q ≡ false }
    {
        Class { words: [0; 4] }
    }

    // The class with every byte.
    pub fn all() -> Class
        ensures { (q : ℕ) → q < 256 → among result q ≡ true }
    {
        Class {
            words: [u64::MAX; 4],
        }
    }

    // Is b in the class?
    pub fn has(self, b: u8) -> bool
        ensures { result ≡ among self b }
    {
        let i = (b / 64) as usize;
        (self.words[i] >> (b % 64)) % 2 == 1
    }

    // The class and b. Each word is made anew: what is stored by an index is waited for where the class is read next.
    pub fn with(self, b: u8) -> Class
        ensures { (q : ℕ) → among result q ≡ (among self q || eqb q b) }
    {
        Class {
            words: [
                self.word_with(0, b),
                self.word_with(1, b),
                self.word_with(2, b),
                self.word_with(3, b),
            ],
        }
    }

    // Word i of the class and b.
    fn word_with(self, i: usize, b: u8) -> u64
        requires { i < 4 }
        ensures { result ≡ get_or (set self.words (b / 64) (bit_or (get_or self.words (b / 64) 0) (1 * 2 ^ (b % 64) % 2 ^ 64))) i 0 }
    {
        if (b / 64) as usize == i {
            self.words[i] | 1u64 << (b % 64)
        } else {
            self.words[i]
        }
    }

    // Adds b in place: a range would make the class anew for each byte.
    fn add(&mut self, b: u8)
        ensures { (q : ℕ) → among self.new q ≡ (among self.old q || eqb q b) }
    {
        self.words[(b / 64) as usize] |= 1u64 << (b % 64);
    }

    // The class and every byte from c to d, both included; none where d is below c. Most ranges are of one byte, which needs no store.
    pub fn with_range(self, c: u8, d: u8) -> Class
        ensures { (q : ℕ) → among result q ≡ (among self q || (leb c q && leb q d)) }
    {
        if c == d {
            return self.with(c);
        }
        let mut r = self;
        for b in c..=d {
            r.add(b);
        }
        r
    }
}
