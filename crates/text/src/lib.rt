// Blocks, refusals and counts as the lines that the programs print.

#![tactic(auto)]

ghost use Rattle.std.specs.Prelude.{◌≡◌, ℕ, List, [], ◌∷◌, ◌++◌, ◌+◌, ◌*◌, ◌<◌, ◌≤◌, length, take};
ghost use Rattle.block.specs.Refusal.{number_of};
ghost use Rattle.codec.specs.Ten.{block_bytes};
ghost use Rattle.words.specs.Text.{blank};
ghost use Rattle.digits.specs.Digits.{decimal, hexadecimal};
ghost use Rattle.text.specs.Line.{capital_r, typed_line, refusal_line, placed_line, count_line, WritesText, LinesBlock};

use block::{Kind, Refusal};
use std::marker::Model;

// The length of a block's line.
pub const BLOCK_LINE: usize = 25;

// Room for a refusal's line with its place: a number below 100, and a place of twenty digits.
pub const PLACED_LINE: usize = 26;

// A line that is being made: the bytes that are in use. An array and no `String`, and no `Display` for a line: a line
// goes into a lent buffer, without heap, and is refused with 5 where it does not fit.
#[derive(Drop)]
struct Made {
    bytes: [u8; PLACED_LINE],
    used: usize,
}

impl Model for Made {
    ghost Value = { List ℕ };

    ghost view = { λ l. take l.used l.bytes };

    ghost invariant = { λ l. l.used ≤ 26 };
}

impl Made {
    fn new() -> Made
        ensures { result ≡ [] }
    {
        Made {
            bytes: [0; PLACED_LINE],
            used: 0,
        }
    }

    // One byte more.
    fn push(&mut self, byte: u8)
        requires { length self.old < 26 }
        ensures { self.new ≡ self.old ++ byte ∷ [] }
    {
        self.bytes[self.used] = byte;
        self.used += 1;
    }

    // The decimal digits of a number, twenty at most.
    #[tactic(auto, using(crate::proofs::NumberLaws::number_few, crate::proofs::NumberLaws::taken_length))]
    fn push_number(&mut self, x: u64)
        requires { length self.old + 20 ≤ 26 }
        ensures { self.new ≡ self.old ++ decimal x }
    {
        let end = self.used + digits::length_of(x);
        digits::align(x, &mut self.bytes[self.used..end]);
        self.used = end;
    }

    // Two hexadecimal capitals for each byte.
    fn push_bytes(&mut self, s: &[u8])
        requires { length self.old + 2 * length s.now ≤ 26 }
        ensures { self.new ≡ self.old ++ hexadecimal s.now }
    {
        for &byte in s {
            self.push(digits::digit(byte / 16));
            self.push(digits::digit(byte));
        }
    }

    // The line at the start of the lent buffer, if there is room.
    fn put(&self, out: &mut [u8]) -> Result<usize, Refusal>
        ensures { WritesText self.now out.old out.new result }
    {
        let text = &self.bytes[..self.used];
        if out.len() < text.len() {
            return Err(Refusal::NoRoom);
        }
        out[..text.len()].copy_from_slice(text);
        Ok(text.len())
    }
}

// `R`, a blank and the number of a refusal: four bytes at most.
#[tactic(auto, using(crate::proofs::NumberLaws::number_short))]
fn numbered(k: Refusal) -> Made
    ensures made { result ≡ capital_r ∷ blank ∷ decimal (number_of k) }
    ensures short { length result ≤ 4 }
{
    let mut line = Made::new();
    line.push(b'R');
    line.push(b' ');
    line.push_number(block::number(k) as u64);
    line
}

// The line of a refusal.
#[tactic(auto, unfolding(crate::specs::Line::refusal_line))]
pub fn of_refusal(k: Refusal, out: &mut [u8]) -> Result<usize, Refusal>
    ensures { WritesText (refusal_line (number_of k)) out.old out.new result }
{
    let mut line = numbered(k);
    line.push(b'\n');
    line.put(out)
}

// The line of a refusal with the place of its record.
#[tactic(auto, using(crate::proofs::NumberLaws::number_few), unfolding(crate::specs::Line::placed_line))]
pub fn of_refusal_at(k: Refusal, place: usize, out: &mut [u8]) -> Result<usize, Refusal>
    ensures { WritesText (placed_line (number_of k) place) out.old out.new result }
{
    let mut line = numbered(k);
    line.push(b' ');
    line.push_number(place as u64);
    line.push(b'\n');
    line.put(out)
}

// The line of a count.
#[tactic(auto, using(crate::proofs::NumberLaws::number_few), unfolding(crate::specs::Line::count_line))]
pub fn of_count(count: usize, out: &mut [u8]) -> Result<usize, Refusal>
    ensures { WritesText (count_line count) out.old out.new result }
{
    let mut line = Made::new();
    line.push_number(count as u64);
    line.push(b'\n');
    line.put(out)
}

// The line of a block of this type: the type, a blank and twenty hexadecimal capitals.
fn typed(kind: Kind, ten: &[u8]) -> Made
    requires { (kind.digit < 10) × (length ten.now ≡ block_bytes) }
    ensures { result ≡ typed_line kind ten.now }
{
    let mut line = Made::new();
    line.push(types::letter_code(kind.letter));
    line.push(b'-');
    line.push(digits::digit(kind.digit));
    line.push(b' ');
    line.push_bytes(ten);
    line.push(b'\n');
    line
}

// The line of the block in ten bytes, if they pass the check.
pub fn of_block(n: u8, ten: &[u8], out: &mut [u8]) -> Result<usize, Refusal>
    ensures { LinesBlock n ten.now out.old out.new result }
{
    let kind = types::type_of(n, ten)?;
    typed(kind, ten).put(out)
}
