// Reads one `.names` part of BLIF.

#![tactic(auto)]

ghost use Rattle.std.specs.Prelude.{◌≡◌, ◌∷◌};
ghost use Rattle.words.specs.Text.{words_of, content_of};
ghost use Rattle.words.specs.Left.{lines_left};
ghost use Rattle.blif.specs.Cover.{ReadsPart, Reads};

mod bytes;
mod lines;
mod names;

use block::Refusal;
use words::Lines;

// Room for the longest table.
pub const TABLE_ROOM: usize = 64;

// A table of n inputs, which is in the lent buffer: n and the length in use.
#[derive(Clone, Copy)]
pub struct Cover {
    pub n: u8,
    pub used: usize,
}

// The part that the line opens, with its cover lines after it. With output 0 they list where the
// function is 0.
fn read_part(line: &[u8], lines: Lines, out: &mut [u8]) -> Result<Cover, Refusal>
    ensures { ReadsPart (words_of line.now ∷ lines_left lines.entry) out.old out.new result }
{
    let names = names::open(line)?;
    let g = lines::gather(lines, names.inputs)?;
    if 9 < names.inputs {
        return Err(Refusal::TooManyInputs);
    }
    if names::repeats(names.words) {
        return Err(Refusal::NameTwice);
    }
    if g.ones & g.zeros {
        return Err(Refusal::BothOutputs);
    }
    let n = names.inputs as u8;
    let used = marks::write(n, g.rows, g.zeros, out)?;
    Ok(Cover { n, used })
}

// Reads a cover: the table of one `.names` part, at the start of the lent buffer.
pub fn read(text: &[u8], out: &mut [u8]) -> Result<Cover, Refusal>
    ensures { Reads text.now out.old out.new result }
{
    let mut lines = Lines::of(text);
    let first = lines.next().ok_or(Refusal::NoCover)?;
    read_part(first, lines, out)
}
