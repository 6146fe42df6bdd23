// The readings of the rules that no theorem states: each is one line below, and prints what is asked and what is answered.
#![tactic(auto)]

mod answered;
mod asked;
mod nights;

use asked::{back, desk, grown, lent, on_letters, plain, row_turned, turned};
use nights::night;
use std::io;

// With the length of the longest beginning that begins a pattern.
fn not_patterns(rt: &impl Print) -> io::Result<()> {
    plain(rt, "", "")?;
    plain(rt, "a**", "")?;
    plain(rt, "(a", "")?;
    plain(rt, ")", "")?;
    plain(rt, "[]", "")?;
    plain(rt, "[z-a]", "")?;
    plain(rt, "[a-]", "")?;
    plain(rt, "a\\", "")
}

// With the length of the longest beginning that begins a text with a tree.
fn not_trees(rt: &impl Print) -> io::Result<()> {
    plain(rt, "a.c", "axd")?;
    plain(rt, "a.c", "ax")?;
    plain(rt, "a.c", "axcc")
}

// Limits, each reached and passed: bytes of a pattern and of a text.
fn bytes(rt: &impl Print) -> io::Result<()> {
    grown(rt, "()", "", "", 256, &[b'a'; 0])?;
    grown(rt, "()", "", "", 257, &[b'a'; 0])?;
    on_letters(rt, "a*", &[b'a'; 4096])?;
    on_letters(rt, "a*", &[b'a'; 4097])
}

// Positions, nesting, and both at once, where nesting is told.
fn positions(rt: &impl Print) -> io::Result<()> {
    grown(rt, "a", "", "", 64, &[b'a'; 64])?;
    grown(rt, "a", "", "", 65, &[b'a'; 65])?;
    grown(rt, "(", "a", ")", 64, &[b'a'; 1])?;
    grown(rt, "(", "a", ")", 65, &[b'a'; 1])?;
    grown(rt, "(a", "", ")", 65, &[b'a'; 65])
}

// Marks.
fn marks(rt: &impl Print) -> io::Result<()> {
    grown(rt, "(", "a?", ")?", 63, &[b'a'; 1])?;
    grown(rt, "(", "a?", ")?", 64, &[b'a'; 1])
}

// Tree room and work cells, one too few and just enough.
fn loans(rt: &impl Print) -> io::Result<()> {
    lent(rt, "a+", "aa", &mut [0; 3], &mut [0; 5])?;
    lent(rt, "a+", "aa", &mut [0; 3], &mut [0; 6])?;
    lent(rt, "a+", "aa", &mut [0; 2], &mut [0; 6])
}

// The turn count: a turn that reads nothing is not counted, nor is an opening that never closes.
fn turn_counts(rt: &impl Print) -> io::Result<()> {
    turned(rt, "((row)*)+", "", 1)?;
    turned(rt, "((row)*)+", "rowrow", 1)?;
    turned(rt, "((row)*)+", "rowrow", 2)?;
    turned(rt, "()+", "", 1)?;
    row_turned(rt, 1)?;
    row_turned(rt, 2)
}

// The marks at both ends, and beyond them.
fn outer_marks(rt: &impl Print) -> io::Result<()> {
    row_turned(rt, 0)?;
    row_turned(rt, 64)?;
    row_turned(rt, 65)
}

// Lines of a row, and of none: a number that the printer would write otherwise, or that is past its bits; a line that breaks off or goes on.
fn lines_back(rt: &impl Print) -> io::Result<()> {
    back(rt, "TREE o1 b97 c1 o3 b98 c3\n")?;
    back(rt, "TREE\n")?;
    back(rt, "TREE b65279\n")?;
    back(rt, "TREE b65280\n")?;
    back(rt, "TREE o01\n")?;
    back(rt, "TREE o128\n")?;
    back(rt, "TREE o1")?;
    back(rt, "TREE o1\n\n")?;
    back(rt, "TREES\n")?;
    back(
        rt,
        "TREE o1 c1 o1 c1 o1 c1 o1 c1 o1 c1 o1 c1 o1 c1 o1 c1 o1 c1\n",
    )
}

// Nights: one with a report that does not fit, one of no reports, and one under a pattern without marks.
fn sheets(rt: &impl Print) -> io::Result<()> {
    night(rt, "(a|b)*", "abx", &[2, 0, 1], &[5, 1, 0], 3)?;
    night(rt, "(a|b)*", "", &[], &[0, 0, 0], 3)?;
    night(rt, "ab", "abx", &[2, 1], &[], 0)
}

// Each refusal of a night, the first that applies: lengths, last night's list, its numbers; the pattern comes before all of them.
fn no_sheets(rt: &impl Print) -> io::Result<()> {
    night(rt, "(a|b)*", "abx", &[2, 2], &[5, 1, 0], 3)?;
    night(rt, "(a|b)*", "abx", &[2, 1], &[5, 1], 3)?;
    night(rt, "(a|b)*", "abx", &[2, 1], &[5, 1, 4096001], 3)?;
    night(rt, "(a|b)*", "abx", &[2, 2], &[5, 4096001], 3)?;
    night(rt, "(a|b)*", "abx", &[2, 1], &[5, 4096001], 3)?;
    night(rt, "a**", "abx", &[2, 2], &[5, 4096001], 3)
}

fn main(rt: HostRuntime) -> io::Result<()> {
    not_patterns(&rt)?;
    not_trees(&rt)?;
    bytes(&rt)?;
    positions(&rt)?;
    marks(&rt)?;
    loans(&rt)?;
    turn_counts(&rt)?;
    outer_marks(&rt)?;
    desk(&rt, "(a|ab)b?\nab")?;
    lines_back(&rt)?;
    sheets(&rt)?;
    no_sheets(&rt)
}
