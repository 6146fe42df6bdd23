// Where an input parts into pattern and text, and with which word a line begins.
ghost use Rattle.lines.specs.Parts.{Split, Said, Headed};

// Where the first byte 10 stands, or the length where there is none.
pub fn split(input: &[u8]) -> usize
    ensures { Split input.now result }
{
    input
        .iter()
        .position(|b| *b == b'\n')
        .unwrap_or(input.len())
}

// Does the line begin with the word?
pub fn is_word(line: &[u8], word: &[u8]) -> bool
    ensures { Said result (Headed line.now word.now) }
{
    line.starts_with(word)
}
