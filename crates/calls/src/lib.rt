// The calls with the figures of their answer told: each asks the call that it is named after, answers the number, and puts the other figures of
// the answer at the front of `out`, as far as that is long.
#![tactic(auto)]

ghost use Rattle.std.specs.Prelude.{◌≡◌, [], ◌∷◌};
ghost use Rattle.meaning.specs.Calls.{in_front, FirstTreeCall, ReadCall, TurnsCall};
ghost use Rattle.sheet.specs.Answers.{number_of, value_of};

use pattern::read;
use sheet::figures;
use sheet::figures::Answer;
use tree::first_tree::first_tree;
use tree::outcome;

// The figures that fit, at the front.
fn tell(out: &mut [u64], figures: &[u64])
    ensures { out.new ≡ in_front figures.now out.old }
{
    let n = figures.len().min(out.len());
    out[..n].copy_from_slice(&figures[..n]);
}

pub fn first_tree_call(
    pattern: &[u8],
    text: &[u8],
    cells: &mut [u64],
    tree: &mut [u16],
    out: &mut [u64],
) -> u32
    ensures { FirstTreeCall pattern.now text.now cells.old tree.old out.old result cells.new tree.new out.new }
{
    let got = first_tree(pattern, text, cells, tree);
    let value = outcome::value(got) as u64;
    let flag = outcome::flag(got) as u64;
    tell(out, &[value, flag]);
    outcome::number(got)
}

#[tactic(auto, unfolding(meaning::specs::ReadPattern::no_parts))]
pub fn read_call(pattern: &[u8], out: &mut [u64]) -> u32
    ensures { ReadCall pattern.now out.old result out.new }
{
    let got = read(pattern);
    let (positions, marks) = match &got {
        Ok(parts) => (parts.positions as u64, parts.marks as u64),
        Err(_) => (0, 0),
    };
    let value = pattern::value(&got) as u64;
    tell(out, &[value, positions, marks]);
    pattern::number(&got)
}

pub fn turns_call(row: &[u16], mark: u64, out: &mut [u64]) -> u32
    ensures { TurnsCall row.now mark out.old result out.new }
{
    let got = turns::turns(row, mark as usize);
    tell(out, &[turns::count(got) as u64]);
    turns::number(got)
}

// What the night sheet answers.
pub fn tell_value(out: &mut [u64], a: Answer) -> u32
    ensures { (result ≡ number_of a) × (out.new ≡ in_front (value_of a ∷ []) out.old) }
{
    let value = figures::value(a) as u64;
    tell(out, &[value]);
    figures::number(a)
}
