// Numbers and bytes as text, there and back.

#![tactic(auto)]

ghost use Rattle.std.specs.Prelude.{◌≡◌, ◌%◌, min, ◌||◌, ltb, length};
ghost use Rattle.bits.specs.Tests.{pick};
ghost use Rattle.words.specs.Text.{blank};
ghost use Rattle.digits.specs.Digits.{digit_code, decimal, Aligns};
ghost use Rattle.digits.specs.Spelled.{most_byte, spelled_number, decimal_told, value_told, is_bytes, SpellsBytes};

// The hexadecimal digit of the low four bits.
#[tactic(auto, unfolding(crate::specs::Digits::digit_code))]
pub fn digit(x: u8) -> u8
    ensures { result ≡ digit_code (x % 16) }
{
    let low = x % 16;
    if low < 10 {
        b'0' + low
    } else {
        b'A' - 10 + low
    }
}

// How many decimal digits the number has. The number itself falls by tens: there is no index to go over.
pub fn length_of(x: u64) -> usize
    ensures { result ≡ length (decimal x) }
{
    let mut rest = x;
    let mut many = 1;
    while 10 <= rest {
        rest /= 10;
        many += 1;
    }
    many
}

// The last digit of what is left of a number; a blank where nothing is left and a digit stands after it.
fn symbol(rest: u64, is_last: bool) -> u8
    ensures { result ≡ pick (is_last || ltb 0 rest) (digit_code (rest % 10)) blank }
{
    if is_last | (0 < rest) {
        return digit((rest % 10) as u8);
    }
    b' '
}

// The number in the whole of the lent buffer, blanks before it; whether it fits, as `Aligns` promises. From the last
// byte on, by its place, since the last digit is written also where it is 0.
pub fn align(x: u64, out: &mut [u8]) -> bool
    ensures { Aligns x out.old out.new result }
{
    if out.len() < length_of(x) {
        return false;
    }
    let mut rest = x;
    for at in (0..out.len()).rev() {
        out[at] = symbol(rest, at + 1 == out.len());
        rest /= 10;
    }
    true
}

// The value of a decimal digit, and none of any other byte.
fn decimal_value(c: u8) -> Option<u8>
    ensures { result ≡ decimal_told c }
{
    match c {
        b'0'..=b'9' => Some(c - b'0'),
        _ => None,
    }
}

// The number that the word spells in decimal digits; a greater one counts as the greatest u32.
pub fn number_in(word: &[u8]) -> Option<u32>
    ensures { result ≡ spelled_number word.now }
{
    if word.is_empty() {
        return None;
    }
    let mut value = 0u32;
    for &c in word {
        let digit = decimal_value(c)?;
        value = value.saturating_mul(10).saturating_add(u32::from(digit));
    }
    Some(value)
}

// The number as a byte; one above 255 counts as 255.
pub fn byte_of(x: u32) -> u8
    ensures { result ≡ min x most_byte }
{
    u8::try_from(x).unwrap_or(u8::MAX)
}

// The value of a hexadecimal digit, and none of any other byte.
#[tactic(auto, unfolding(crate::specs::Spelled::digit_value))]
fn value_of(c: u8) -> Option<u8>
    ensures { result ≡ value_told c }
{
    match c {
        b'A'..=b'F' => Some(c - b'A' + 10),
        b'a'..=b'f' => Some(c - b'a' + 10),
        _ => decimal_value(c),
    }
}

// Whether the word is whole bytes in hexadecimal digits.
fn are_bytes(word: &[u8]) -> bool
    ensures { result ≡ is_bytes word.now }
{
    word.len() % 2 == 0 && word.iter().all(|&c| value_of(c).is_some())
}

// The bytes that the word spells in hexadecimal digits, at the start of its own buffer.
pub fn bytes_in(word: &mut [u8]) -> Option<usize>
    ensures { SpellsBytes word.old word.new result }
{
    if !are_bytes(word) {
        return None;
    }
    let many = word.len() / 2;
    // no chunks: the bytes are written where the digits are read
    for i in 0..many {
        let high = value_of(word[2 * i]).unwrap();
        let low = value_of(word[2 * i + 1]).unwrap();
        word[i] = bits::join4(high, low);
    }
    Some(many)
}
