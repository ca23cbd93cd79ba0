// Words of a line, which are apart by one blank, and the numbers that they spell.
ghost use Rattle.std.specs.Prelude.{◌≤◌, length};

// The word at a place, counted from 0; empty past the end.
pub(crate) fn word(line: &[u8], i: usize) -> &[u8] {
    line.split(|&b| b == b' ').nth(i).unwrap_or(&[])
}

// What stands after so many words.
pub(crate) fn skip(line: &[u8], count: usize) -> &[u8] {
    line.splitn(count.saturating_add(1), |&b| b == b' ')
        .nth(count)
        .unwrap_or(&[])
}

// The byte at a place; 0 past the end.
pub(crate) fn at(s: &[u8], i: usize) -> u8 {
    s.get(i).copied().unwrap_or(0)
}

// Whether the word is decimal digits, one at least.
pub(crate) fn is_number(word: &[u8]) -> bool {
    digits::number_in(word).is_some()
}

// Whether the words from one place up to another are decimal numbers.
pub(crate) fn are_numbers(line: &[u8], from: usize, to: usize) -> bool {
    (from..to).all(|i| is_number(word(line, i)))
}

// Whether the word is whole bytes in hexadecimal capitals, or empty. `digits::bytes_in` takes small letters too, and
// writes over the word, so bytes are read here.
pub(crate) fn is_bytes(word: &[u8]) -> bool {
    word.len() % 2 == 0 && word.iter().all(|b| matches!(b, b'0'..=b'9' | b'A'..=b'F'))
}

// The value of a hexadecimal digit; 0 of any other byte.
fn digit(byte: u8) -> u8 {
    (byte as char).to_digit(16).unwrap_or(0) as u8
}

// The decimal number that the word spells, of any length; the greatest u32 for any that is greater.
pub(crate) fn number(word: &[u8]) -> u32 {
    digits::number_in(word).unwrap_or(0)
}

// The same as a byte; 255 for any that is greater.
pub(crate) fn byte(word: &[u8]) -> u8 {
    digits::byte_of(number(word))
}

// Puts the bytes that the word spells at the start of the buffer, as many as there is room for, and
// answers how many.
pub(crate) fn bytes(word: &[u8], out: &mut [u8]) -> usize
    ensures { result ≤ length out.new }
{
    for (byte, pair) in out.iter_mut().zip(word.chunks_exact(2)) {
        *byte = bits::join4(digit(pair[0]), digit(pair[1]));
    }
    out.len().min(word.len() / 2)
}
