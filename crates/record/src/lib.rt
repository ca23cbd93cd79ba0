// One record of the patch sheet: its numbers, its bytes and its faults.

#![tactic(auto)]

ghost use Rattle.std.specs.Prelude.{◌≡◌};
ghost use Rattle.bits.specs.Tests.{alike};
ghost use Rattle.block.specs.Refusal.{number_of};
ghost use Rattle.codec.specs.Answers.{unpacked_of};
ghost use Rattle.codec.specs.Order.{before};
ghost use Rattle.record.specs.Record.{pair_of, pair_in, key_before};
ghost use Rattle.record.specs.Fault.{at, fine, unassigned, ◌then◌};
ghost use Rattle.record.specs.Told.{fault_of, judged_of, refused};
ghost use Rattle.record.specs.Answers.{Numbered, Judges};

use block::{BLOCK_BYTES, Parts, Refusal};

// The length of the numbers of a record, and of the whole record.
pub const HEADER_BYTES: usize = 4;

pub const RECORD_BYTES: usize = HEADER_BYTES + BLOCK_BYTES;

// The greatest spacecraft number and block number.
const MOST_CRAFT: u32 = 65535;

const MOST_BLOCK: u32 = 4095;

// Spacecraft number, block number and n.
#[derive(Clone, Copy)]
pub struct Numbers {
    pub craft: u32,
    pub block: u32,
    pub n: u8,
}

// A number pair. The derived order is that of the sheet: the spacecraft number decides, then the
// block number.
#[derive(Clone, Copy, PartialEq, Eq, PartialOrd, Ord)]
pub struct Pair {
    pub craft: u32,
    pub block: u32,
}

impl Numbers {
    pub fn pair(self) -> Pair
        ensures { result ≡ pair_in self }
    {
        Pair {
            craft: self.craft,
            block: self.block,
        }
    }
}

// A refusal of an entry about a sheet, and the place of the record where it was found, else 0.
#[derive(Clone, Copy)]
pub struct Refused {
    pub refusal: Refusal,
    pub place: usize,
}

impl Refused {
    // A refusal found in a record at its place; 2 has place 0.
    pub fn at(refusal: Refusal, place: usize) -> Refused
        ensures { fault_of result ≡ at (number_of refusal) place }
    {
        match refusal {
            Refusal::WrongLength => Refused::from(refusal),
            _ => Refused { refusal, place },
        }
    }
}

impl From<Refusal> for Refused {
    ghost from_gives = { λ refusal r. r ≡ refused refusal 0 };

    fn from(refusal: Refusal) -> Refused {
        Refused { refusal, place: 0 }
    }
}

// The numbers of the record in the bytes; past their end a field is 0, as `Numbered`, which it promises, has it.
pub fn numbers_of(s: &[u8]) -> Numbers
    ensures { Numbered s.now result }
{
    let high = bits::join4(bits::nibble(s, 0), bits::nibble(s, 1));
    let low = bits::join4(bits::nibble(s, 2), bits::nibble(s, 3));
    let last = bits::join4(bits::nibble(s, 5), bits::nibble(s, 6));
    Numbers {
        craft: u32::from(bits::join8(high, low)),
        block: u32::from(bits::join8(bits::nibble(s, 4), last)),
        n: bits::nibble(s, 7),
    }
}

// Whether the numbers are of this number pair.
pub fn has_pair(x: Numbers, craft: u32, block: u32) -> bool
    ensures { result ≡ alike (pair_of craft block) (pair_of x.craft x.block) }
{
    x.pair() == Pair { craft, block }
}

fn is_unassigned(x: Pair) -> bool
    ensures { result ≡ unassigned x.craft x.block }
{
    (x.craft == 0) | ((MOST_CRAFT < x.craft) | (MOST_BLOCK < x.block))
}

// Whether the pair of x is above the last one, if there is one.
fn is_above(last: Option<Pair>, x: Pair) -> bool
    ensures { result ≡ before (key_before last) (pair_of x.craft x.block) }
{
    last < Some(x)
}

// What stopped the unpacking, as a record's refusal: the else case of `judge`, a form of document 01.
fn stopped(unpacked: Result<Parts, Refusal>, place: usize) -> Result<(), Refused>
    ensures { judged_of result ≡ (at (unpacked_of unpacked).number place then fine) }
{
    match unpacked {
        Err(k) => Err(Refused::at(k, place)),
        Ok(_) => Ok(()),
    }
}

// The refusal of a record at its place, after the last one's pair.
#[tactic(auto, using(crate::proofs::RecordLaws::unpacked_number), unfolding(crate::specs::Fault::record_refusal))]
pub fn judge(last: Option<Pair>, x: Numbers, ten: &[u8], place: usize) -> Result<(), Refused>
    ensures { Judges last x ten.now place result }
{
    if is_unassigned(x.pair()) {
        return Err(Refused::at(Refusal::Unassigned, place));
    }
    if !is_above(last, x.pair()) {
        return Err(Refused::at(Refusal::NotAbove, place));
    }
    // A form of document 01: the else case tells the number and the record's place.
    let unpacked = codec::unpack(x.n, ten);
    let Ok(_) = unpacked else {
        return stopped(unpacked, place);
    };
    Ok(())
}
