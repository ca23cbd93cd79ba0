// The line that the program prints for a truth table.

#![tactic(auto)]

ghost use Rattle.line.specs.Line.{Says, SaysRefusal, Lines, Answers};

use block::Refusal;
use text::BLOCK_LINE;

// So many bytes of the input decide its line.
pub const ENOUGH: usize = 66;

// The longest line.
pub const LONGEST: usize = BLOCK_LINE;

// The refusal that is told, if there is one, and what the writer of the line answers.
#[derive(Clone, Copy)]
pub struct Said {
    pub refusal: Option<Refusal>,
    pub line: Result<usize, Refusal>,
}

impl Said {
    // A refusal, and its line.
    pub fn refused(k: Refusal, out: &mut [u8]) -> Said
        ensures { SaysRefusal k out.old out.new result }
    {
        Said {
            refusal: Some(k),
            line: text::of_refusal(k, out),
        }
    }
}

// The line of a table of n inputs: the type and the ten bytes of the first tidy block that computes it,
// or the refusal, which is told.
pub fn say(n: u8, t: &[u8], out: &mut [u8]) -> Said
    ensures { Says n t.now out.old out.new result }
{
    let mut ten = [0u8; 10];
    match matcher::first_match(n, t, &mut ten) {
        Ok(_) => Said {
            refusal: None,
            line: text::of_block(n, &ten, out),
        },
        Err(k) => Said::refused(k, out),
    }
}

// The same line alone.
pub fn of_table(n: u8, t: &[u8], out: &mut [u8]) -> Result<usize, Refusal>
    ensures { Lines n t.now out.old out.new result }
{
    say(n, t, out).line
}

// The line of the whole input: one byte n, then the table and nothing after it.
#[tactic(auto, unfolding(crate::specs::Line::Answers))]
pub fn of_input(s: &[u8], out: &mut [u8]) -> Result<usize, Refusal>
    ensures { Answers s.now out.old out.new result }
{
    match s.split_first() {
        Some((&n, table)) => of_table(n, table, out),
        None => text::of_refusal(Refusal::WrongLength, out),
    }
}
