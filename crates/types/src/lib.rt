// The type of a block, from its carried pins alone.

#![tactic(auto)]

ghost use Rattle.std.specs.Prelude.{◌≡◌};
ghost use Rattle.block.specs.Code.{lut_of, block_of};
ghost use Rattle.block.specs.Kind.{carries, letter_by, is_shared, digit_of, type_of, letter_code};
ghost use Rattle.types.specs.Typing.{Types};

use block::{FourPin, Kind, Letter, MOST_INPUTS, OPEN, Parts, Refusal};

// Whether one of the four pins carries variable v.
fn carried(t: FourPin, v: u8) -> bool
    ensures { result ≡ carries (lut_of t).pins v }
{
    v != OPEN && [t.a, t.b, t.c, t.d].contains(&v)
}

// Whether F and G both carry variable v, and the direct pin does not.
fn shared(x: Parts, v: u8) -> bool
    ensures { result ≡ is_shared (block_of x) v }
{
    carried(x.f, v) & (carried(x.g, v) & (v != x.direct))
}

#[tactic(auto, unfolding(block::specs::Kind::digit_of))]
fn digit(x: Parts) -> u8
    ensures { result ≡ digit_of (block_of x) }
{
    let mut found: u8 = 0;
    for v in 0..MOST_INPUTS {
        if shared(x, v) {
            found += 1;
        }
    }
    found
}

// The letter, by whether F and whether G carry the direct pin's variable.
fn letter(in_f: bool, in_g: bool) -> Letter
    ensures { result ≡ letter_by in_f in_g }
{
    match (in_f, in_g) {
        (false, false) => Letter::A,
        (true, true) => Letter::C,
        _ => Letter::B,
    }
}

#[tactic(auto, unfolding(block::specs::Kind::type_of, block::specs::Kind::letter_of))]
fn kind(x: Parts) -> Kind
    ensures { result ≡ type_of (block_of x) }
{
    Kind {
        letter: letter(carried(x.f, x.direct), carried(x.g, x.direct)),
        digit: digit(x),
    }
}

// The type of the block in ten bytes.
pub fn type_of(n: u8, s: &[u8]) -> Result<Kind, Refusal>
    ensures { Types n s.now result }
{
    Ok(kind(codec::unpack(n, s)?))
}

// A letter in ASCII; as the number of each case in `Letter` it would need a cast beside each.
pub fn letter_code(l: Letter) -> u8
    ensures { result ≡ letter_code l }
{
    match l {
        Letter::A => b'A',
        Letter::B => b'B',
        Letter::C => b'C',
    }
}
