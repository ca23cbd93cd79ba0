// What the search for a block leaves out: sets that an earlier one serves for, and sets on whose pins
// no table of four pins can be, since the rest tells three of its rows apart.

#![tactic(auto)]

ghost use Rattle.std.specs.Prelude.{◌≡◌, ◌<◌, ◌≤◌, ◌^◌, length, take};
ghost use Rattle.std.specs.List.{list_any};
ghost use Rattle.bits.specs.Bits.{num};
ghost use Rattle.wiring.specs.Wire.{truth};
ghost use Rattle.wiring.specs.Fits.{depends_on};
ghost use Rattle.filter.specs.Support.{inputs_of, support_of, one_at_most};
ghost use Rattle.filter.specs.Choices.{contains, useful_of, filled_up};
ghost use Rattle.filter.specs.Words.{word_from, rest_of, words_of};
ghost use Rattle.filter.specs.Two.{two_of};

use rows::{key_of, place, truth};

// n, cut to nine.
fn inputs(n: u8) -> u8
    ensures { (result ≡ inputs_of n) × (result ≤ 9) }
{
    n.min(9)
}

// 2 to the power k. That n is at most 9 is asked of two functions here alone, of a number that was cut to it.
fn power(k: u8) -> u16
    requires { k ≤ 9 }
    ensures { (result ≡ 2 ^ k) × (result ≤ 512) }
{
    1u16 << k
}

// Whether some row's value changes when variable v is cleared.
fn depends(n: u8, t: &[u8], v: u8) -> bool
    requires { (n ≤ 9) × (v < 9) }
    ensures { result ≡ depends_on n t.now v }
{
    let keep = 511 - power(v);
    let end = power(n);
    // Tried with `any` over the range: no proof was found.
    for row in 0u16..end {
        if truth(t, row) != truth(t, row & keep) {
            return true;
        }
    }
    false
}

// The variables that the table of n inputs depends on.
pub fn support(n: u8, t: &[u8]) -> u16
    ensures { result ≡ support_of n t.now }
{
    let end = inputs(n);
    let mut set: u16 = 0;
    for v in 0u8..end {
        if depends(end, t, v) {
            set |= power(v);
        }
    }
    set
}

// Sets in the order of the table of 256; what is not in use is 0. A fixed array, since matching uses no heap.
#[derive(Clone, Copy)]
pub struct Choices {
    sets: [u16; 256],
    many: usize,
    ghost most: { many ≤ 256 },
}

impl Choices {
    // Those in use.
    pub fn sets(&self) -> &[u16]
        ensures { result.now ≡ take self.now.many self.now.sets }
    {
        &self.sets[..self.many]
    }
}

// Whether one of the sets contains the part.
fn dominated(sets: &[u16], part: u16) -> bool
    ensures { result ≡ list_any (λ set. contains set part) sets.now }
{
    sets.iter().any(|&set| part & set == part)
}

// The sets below 2^n whose part inside `within` no earlier one contains.
pub fn useful(n: u8, within: u16) -> Choices
    ensures sets { result.sets ≡ filled_up 256 (useful_of n within) }
    ensures many { result.many ≡ length (useful_of n within) }
{
    let end = power(inputs(n));
    let mut sets = [0u16; 256];
    let mut many = 0usize;
    // By reference: a loop over the array itself costs two copies of `sets`, and the C archive needs memcpy.
    for &set in &subsets::all() {
        if end <= set {
            continue;
        }
        if dominated(&sets[..many], set & within) {
            continue;
        }
        sets[many] = set;
        many += 1;
    }
    Choices { sets, many }
}

// The table's value at a row, as a number.
fn value(t: &[u8], row: u16) -> u32
    ensures { (result ≡ num (truth t.now row)) × (result ≤ 1) }
{
    truth(t, row) as u32
}

// The table on the rows `from | y`, y running through the subsets of `rest`, 32 at most.
fn word(t: &[u8], from: u16, rest: u16) -> u32
    requires { rest < 512 }
    ensures { result ≡ word_from t.now from rest 32 0 0 }
{
    // An iterator of the subsets would serve this one loop: no plainer.
    let fixed = 511 - rest;
    let mut w: u32 = 0;
    let mut y: u16 = 0;
    for k in 0u8..32 {
        w = (w << 1) + value(t, from | y);
        y = ((y | fixed) % 512 + 1) & rest;
        if y == 0 {
            return w;
        }
    }
    w
}

// `within` without the set, of nine variables.
pub fn rest_of(within: u16, set: u16) -> u16
    ensures { (result ≡ rest_of within set) × (result < 512) }
{
    within & (511 - set % 512)
}

// For each table row on the set's pins, what the variables of `within` outside the set make of it.
pub fn words(t: &[u8], within: u16, set: u16) -> [u32; 16]
    ensures { result ≡ words_of t.now within set }
{
    let key = key_of(set);
    let rest = rest_of(within, set);
    let mut found = [0u32; 16];
    for (a, slot) in found.iter_mut().enumerate() {
        *slot = word(t, place(key, a as u8), rest);
    }
    found
}

// Whether the indices with the same bits in the key have two different words at most.
pub fn two(words: &[u32; 16], key: u8) -> bool
    ensures { result ≡ two_of words.now key }
{
    // 0 where there is none yet: a second index is above its base, so options would be no plainer.
    let mut seconds = [0u8; 16];
    for (a, &word) in words.iter().enumerate() {
        let base = a & key as usize;
        if word == words[base] {
            continue;
        }
        let second = seconds[base];
        if second == 0 {
            seconds[base] = a as u8;
            continue;
        }
        if words[second as usize] != word {
            return false;
        }
    }
    true
}

// Whether the set has at most one variable.
pub fn one_at_most(set: u16) -> bool
    ensures { result ≡ one_at_most set }
{
    if set == 0 {
        return true;
    }
    set & (set - 1) == 0
}
