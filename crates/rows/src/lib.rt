// What a truth table holds at a row, and what four pins see of a row. Four pins are one number of
// four fields, the first pin in the highest.

#![tactic(auto)]

ghost use Rattle.std.specs.Prelude.{◌≡◌, ◌<◌, ◌*◌, ◌/◌, ◌%◌, ◌^◌};
ghost use Rattle.bits.specs.Bits.{has, split, num};
ghost use Rattle.block.specs.Value.{pin_value, selected};
ghost use Rattle.subsets.specs.Masks.{key_of};
ghost use Rattle.wiring.specs.Wire.{truth, shown};

// Whether the table is 1 at a row; 0 past its end.
pub fn truth(t: &[u8], row: u16) -> bool
    ensures { result ≡ truth t.now row }
{
    // `get` in place of the test and the index makes a whole match a tenth slower (measured).
    let k = (row / 8) as usize;
    if t.len() <= k {
        return false;
    }
    (t[k] >> (7 - row % 8)) % 2 == 1
}

// The pins of a set: its first four variables, ascending, then open pins.
pub fn key_of(set: u16) -> u16
    ensures { result ≡ key_of set }
{
    let mut key: u16 = 0xFFFF;
    for v in (0u16..9).rev() {
        if (set >> v) % 2 == 1 {
            key = v * 4096 + key / 16;
        }
    }
    key
}

// What a pin reads; its field stands k bits above the units bit of the key.
fn seen(key: u16, k: u16, row: u16) -> u8
    requires { k < 16 }
    ensures { (result ≡ pin_value (key / 2 ^ k % 16) row) × (result < 2) }
{
    block::pin_value(((key >> k) % 16) as u8, row)
}

// The table row that the four pins select.
pub fn select(key: u16, row: u16) -> u8
    ensures { (result ≡ selected (split 4 key) row) × (result < 16) }
{
    let high = 8 * seen(key, 12, row) + 4 * seen(key, 8, row);
    high + 2 * seen(key, 4, row) + seen(key, 0, row)
}

// Bit k of x, moved to the pin's variable.
fn raised(x: u8, k: u8, pin: u16) -> u16
    requires { (k < 4) × (pin < 16) }
    ensures { result ≡ num (has x k) * 2 ^ pin }
{
    (((x >> k) % 2) as u16) << pin
}

// A row of nine variables that shows table row x to the four pins, every other variable 0.
pub fn place(key: u16, x: u8) -> u16
    ensures { (result ≡ shown 9 (split 4 key) x) × (result < 512) }
{
    let high = raised(x, 3, key / 4096) | raised(x, 2, key / 256 % 16);
    let low = raised(x, 1, key / 16 % 16) | raised(x, 0, key % 16);
    (high | low) % 512
}
