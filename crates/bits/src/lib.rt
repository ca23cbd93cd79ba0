// Leaves over fields, by shifts and masks. Each accepts every input: past an end a field reads 0, and
// what is joined is cut by the mask that the promise names.

#![tactic(auto)]

ghost use Rattle.std.specs.Prelude.{◌≡◌};
ghost use Rattle.bits.specs.Bits.{nibble, byte_of, word_of};

// Field i of 4 bits.
pub fn nibble(s: &[u8], i: usize) -> u8
    ensures { result ≡ nibble s.now i }
{
    let k = i >> 1;
    if s.len() <= k {
        return 0;
    }
    let x = s[k];
    if i & 1 == 0 { (x >> 4) & 15 } else { x & 15 }
}

// A byte of two fields.
pub fn join4(high: u8, low: u8) -> u8
    ensures { result ≡ byte_of high low }
{
    ((high & 15) << 4) | (low & 15)
}

// Sixteen bits of two bytes.
pub fn join8(high: u8, low: u8) -> u16
    ensures { result ≡ word_of high low }
{
    ((high as u16) << 8) | (low as u16)
}
