// The ten bytes of a block: unpacked, checked and packed.

#![tactic(auto)]

ghost use Rattle.std.specs.Prelude.{◌≡◌, ◌&&◌, ◌+◌, ◌/◌, ◌%◌, ◌^◌, ◌<◌};
ghost use Rattle.bits.specs.Bits.{nibbles, joined};
ghost use Rattle.bits.specs.Tests.{every};
ghost use Rattle.block.specs.Code.{lut_of, block_of, zero_block};
ghost use Rattle.block.specs.Tidy.{field_fits, fields_fit, follows, ordered, rows_quiet};
ghost use Rattle.block.specs.Refusal.{tidy_refusal};
ghost use Rattle.block.specs.Answer.{answered};
ghost use Rattle.codec.specs.Ten.{lut_at, unpack_of, pack_of, FieldsOfFour};
ghost use Rattle.codec.specs.Check.{last_refusal, pack_refusal};
ghost use Rattle.codec.specs.Answers.{checked_of, unpacked_of, Checks, Unpacks, Packs};

use block::{BLOCK_BYTES, FourPin, MOST_INPUTS, OPEN, Parts, Refusal};

// Sixteen rows from field i on.
fn rows_at(s: &[u8], i: usize) -> u16
    requires { i < 16 }
    ensures { result ≡ joined 0 (nibbles s.now i 4) }
{
    let high = bits::join4(bits::nibble(s, i), bits::nibble(s, i + 1));
    let low = bits::join4(bits::nibble(s, i + 2), bits::nibble(s, i + 3));
    bits::join8(high, low)
}

// Four pins from field p on, with their rows from field q on. A `FourPin` is made where its fields stand: here in
// nibbles, elsewhere in bytes, in fields lent by C, or in a key; no one maker would be plainer.
fn four_pin_at(s: &[u8], p: usize, q: usize) -> FourPin
    requires { (p < 16) × (q < 16) }
    ensures { lut_of result ≡ lut_at s.now p q }
{
    FourPin {
        a: bits::nibble(s, p),
        b: bits::nibble(s, p + 1),
        c: bits::nibble(s, p + 2),
        d: bits::nibble(s, p + 3),
        rows: rows_at(s, q),
    }
}

fn parts_at(s: &[u8]) -> Parts
    ensures { block_of result ≡ unpack_of s.now }
{
    let f = four_pin_at(s, 0, 9);
    let g = four_pin_at(s, 4, 13);
    let direct = bits::nibble(s, 8);
    let h = bits::join4(bits::nibble(s, 17), bits::nibble(s, 18));
    Parts { f, g, direct, h }
}

// Tests of a block are joined by `&` and `|`: a sheet asks them of every record, and with `all` and `&&` it took
// twice as long.
fn field_fits(n: u8, pin: u8) -> bool
    ensures { result ≡ field_fits n pin }
{
    (pin < n) | (pin == OPEN)
}

fn four_fit(n: u8, t: FourPin) -> bool
    ensures { result ≡ every (field_fits n) (lut_of t).pins }
{
    field_fits(n, t.a) & (field_fits(n, t.b) & (field_fits(n, t.c) & field_fits(n, t.d)))
}

fn fields_fit(n: u8, x: Parts) -> bool
    ensures { result ≡ fields_fit n (block_of x) }
{
    four_fit(n, x.f) & (four_fit(n, x.g) & field_fits(n, x.direct))
}

fn follow(pin: u8, next: u8) -> bool
    ensures { result ≡ follows pin next }
{
    (next == OPEN) | ((pin != OPEN) & (pin < next))
}

fn in_order(t: FourPin) -> bool
    ensures { result ≡ ordered (lut_of t).pins }
{
    follow(t.a, t.b) & (follow(t.b, t.c) & follow(t.c, t.d))
}

fn both_in_order(x: Parts) -> bool
    ensures { result ≡ ordered (lut_of x.f).pins && ordered (lut_of x.g).pins }
{
    in_order(x.f) & in_order(x.g)
}

#[tactic(auto, unfolding(block::specs::Tidy::rows_quiet))]
fn rows_quiet(x: Parts) -> bool
    ensures { result ≡ rows_quiet (block_of x) }
{
    block::four_quiet(x.f) & (block::four_quiet(x.g) & block::direct_quiet(x.direct, x.h))
}

// The first of the refusals 6, 7, 8 that applies.
#[tactic(auto, unfolding(block::specs::Refusal::tidy_refusal))]
fn fault(n: u8, x: Parts) -> Result<(), Refusal>
    ensures { checked_of result ≡ tidy_refusal n (block_of x) }
{
    if !fields_fit(n, x) {
        return Err(Refusal::StrayField);
    }
    if !both_in_order(x) {
        return Err(Refusal::OutOfOrder);
    }
    if !rows_quiet(x) {
        return Err(Refusal::OpenRowSet);
    }
    Ok(())
}

// The last four bits, after all else was found right.
#[tactic(auto, unfolding(crate::specs::Check::last_refusal))]
fn unpack_last(s: &[u8], x: Parts) -> Result<Parts, Refusal>
    ensures { unpacked_of result ≡ answered (last_refusal s.now) zero_block (block_of x) }
{
    if bits::nibble(s, 19) != 0 {
        return Err(Refusal::LastBitsSet);
    }
    Ok(x)
}

// The nine fields and three tables of ten bytes.
#[tactic(auto, unfolding(crate::specs::Answers::unpack_answer, crate::specs::Check::check_refusal, crate::specs::Check::last_refusal, block::specs::Refusal::tidy_refusal))]
pub fn unpack(n: u8, s: &[u8]) -> Result<Parts, Refusal>
    ensures { Unpacks n s.now result }
{
    if MOST_INPUTS < n {
        return Err(Refusal::TooManyInputs);
    }
    if s.len() != BLOCK_BYTES {
        return Err(Refusal::WrongLength);
    }
    let x = parts_at(s);
    fault(n, x)?;
    unpack_last(s, x)
}

// Whether ten bytes are a tidy block.
#[tactic(auto, unfolding(crate::specs::Answers::unpack_answer))]
pub fn check(n: u8, s: &[u8]) -> Result<(), Refusal>
    ensures { Checks n s.now result }
{
    unpack(n, s)?;
    Ok(())
}

// The field of four bits that stands k bits above the units bit.
fn field(x: u16, k: u16) -> u8
    requires { k < 16 }
    ensures { result ≡ x / 2 ^ k % 16 }
{
    ((x >> k) & 15) as u8
}

// The eight bits in the middle of sixteen.
fn middle(x: u16) -> u8
    ensures { result ≡ x / 16 % 256 }
{
    ((x >> 4) & 255) as u8
}

fn ten(x: Parts) -> [u8; 10]
    requires { FieldsOfFour x }
    ensures { result ≡ pack_of (block_of x) }
{
    let h = x.h as u16;
    let x4 = bits::join4(x.direct, field(x.f.rows, 12));
    let x6 = bits::join4(field(x.f.rows, 0), field(x.g.rows, 12));
    let x8 = bits::join4(field(x.g.rows, 0), field(h, 4));
    [
        bits::join4(x.f.a, x.f.b),
        bits::join4(x.f.c, x.f.d),
        bits::join4(x.g.a, x.g.b),
        bits::join4(x.g.c, x.g.d),
        x4,
        middle(x.f.rows),
        x6,
        middle(x.g.rows),
        x8,
        bits::join4(field(h, 0), 0),
    ]
}

// The refusal that nine fields and three tables get, with so much room.
#[tactic(auto, unfolding(crate::specs::Check::pack_refusal, block::specs::Refusal::tidy_refusal))]
fn packable(n: u8, x: Parts, room: usize) -> Result<(), Refusal>
    ensures { checked_of result ≡ pack_refusal n (block_of x) room }
{
    if MOST_INPUTS < n {
        return Err(Refusal::TooManyInputs);
    }
    fault(n, x)?;
    if room < BLOCK_BYTES {
        return Err(Refusal::NoRoom);
    }
    Ok(())
}

// Ten bytes at the start of the lent buffer.
pub fn pack(n: u8, x: Parts, out: &mut [u8]) -> Result<usize, Refusal>
    ensures { Packs n (block_of x) out.old out.new result }
{
    packable(n, x, out.len())?;
    out[..BLOCK_BYTES].copy_from_slice(&ten(x));
    Ok(BLOCK_BYTES)
}
