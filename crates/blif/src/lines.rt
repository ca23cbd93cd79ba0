// The cover lines of a part.
ghost use Rattle.std.specs.Prelude.{◌≡◌};
ghost use Rattle.words.specs.Text.{words_of};
ghost use Rattle.words.specs.Left.{lines_left};
ghost use Rattle.blif.specs.Reading.{Splits, Takes, Adds, Gathers};

use crate::bytes;
use block::Refusal;
use marks::Rows;
use words::{Lines, Words};

// What cover lines make together: whether some have output 1 and some 0, and the rows that they cover.
#[derive(Clone, Copy)]
pub struct Gathered {
    pub ones: bool,
    pub zeros: bool,
    pub rows: Rows,
}

// The marks and the output of a line, if it has as many words: with no inputs the output stands alone.
fn split(line: &[u8], inputs: usize) -> Option<(&[u8], &[u8])>
    ensures { Splits inputs line.now result }
{
    let mut words = Words::of(line);
    let first = words.next()?;
    let (marks, output) = if inputs == 0 {
        (&line[..0], first)
    } else {
        (first, words.next()?)
    };
    if words.next().is_some() {
        return None;
    }
    Some((marks, output))
}

// A line's marks and output, taken to the lines before it.
fn take(g: Gathered, inputs: usize, marks: &[u8], output: &[u8]) -> Result<Gathered, Refusal>
    ensures { Takes inputs marks.now output.now g result }
{
    let one = output == b"1".as_slice();
    let zero = output == b"0".as_slice();
    let fits = (marks.len() == inputs) & bytes::are_marks(marks);
    if !(fits & (one | zero)) {
        return Err(Refusal::NoCover);
    }
    Ok(Gathered {
        ones: g.ones | one,
        zeros: g.zeros | zero,
        rows: marks::paint(g.rows, marks),
    })
}

fn add(g: Gathered, inputs: usize, line: &[u8]) -> Result<Gathered, Refusal>
    ensures { Adds inputs (words_of line.now) g result }
{
    let (marks, output) = split(line, inputs).ok_or(Refusal::NoCover)?;
    take(g, inputs, marks, output)
}

// What these lines make together, if all are cover lines.
pub(crate) fn gather(lines: Lines, inputs: usize) -> Result<Gathered, Refusal>
    ensures { Gathers inputs (lines_left lines.entry) result }
{
    let mut g = Gathered {
        ones: false,
        zeros: false,
        rows: Rows { words: [0u64; 8] },
    };
    for line in lines {
        g = add(g, inputs, line)?;
    }
    Ok(g)
}
