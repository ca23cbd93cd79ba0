// The first tidy block in byte order that computes a truth table, or that there is none.

#![tactic(auto)]

ghost use Rattle.std.specs.Prelude.{◌≡◌, true, ◌||◌, ◌<◌, ◌≤◌, ◌-◌, ◌%◌, ◌^◌, eqb, length, IfOk};
ghost use Rattle.std.specs.Int.Bits.{bit_and, bit_or};
ghost use Rattle.bits.specs.Bits.{has};
ghost use Rattle.block.specs.Table.{table_rows};
ghost use Rattle.block.specs.Code.{lut_of, block_of};
ghost use Rattle.subsets.specs.Masks.{pins_of_mask, Small};
ghost use Rattle.contents.specs.Contents.{no_contents, block_with, IsLeast};
ghost use Rattle.matcher.specs.Match.{match_refusal, Matched};
ghost use Rattle.matcher.specs.Search.{head_of, direct_of, direct_set, directs, lut_on};
ghost use Rattle.matcher.specs.Search.{Uncovered, Weighable, Searched};

use block::{BLOCK_BYTES, FourPin, Inputs, OPEN, Parts, Refusal};

// The sets of F and of G, the direct pin's field, and the contents.
#[derive(Clone, Copy)]
struct Place {
    f: u16,
    g: u16,
    direct: u8,
    contents: u64,
}

// The bits of a table's first byte that are no rows.
fn padding(n: u8, first: u8) -> u8
    ensures { result ≡ first % 2 ^ (8 - table_rows n) }
{
    match n {
        0 => first % 128,
        1 => first % 64,
        2 => first % 16,
        _ => 0,
    }
}

// The refusals 1, 2, 3, 5; where there is none, the number of inputs.
fn head(n: u8, t: &[u8], room: usize) -> Result<Inputs, Refusal>
    ensures refusal { head_of result ≡ match_refusal n t.now room }
    ensures number { IfOk result (λ inputs. inputs.n ≡ n) }
{
    let inputs = Inputs::new(n)?;
    if t.len() != block::table_bytes(n) {
        return Err(Refusal::WrongLength);
    }
    if padding(n, t[0]) != 0 {
        return Err(Refusal::PaddingSet);
    }
    if room < BLOCK_BYTES {
        return Err(Refusal::NoRoom);
    }
    Ok(inputs)
}

fn directs(n: u8) -> u8
    ensures { result ≡ directs n }
{
    if n == 0 {
        return 1;
    }
    n
}

fn direct_of(n: u8, k: u8) -> u8
    ensures { result ≡ direct_of n k }
{
    if n == 0 {
        return OPEN;
    }
    k
}

// The direct pin's variable as a set; none where the pin is open.
fn direct_set(n: u8, k: u8) -> u16
    requires { k < 16 }
    ensures { result ≡ direct_set n k }
{
    if n == 0 {
        return 0;
    }
    1 << k
}

// More than one variable of `within` is in neither set: no direct pin carries them all.
fn hopeless(within: u16, f: u16, g: u16) -> bool
    ensures { result ≡ true → Uncovered within f g }
{
    !filter::one_at_most(filter::rest_of(within, f | g))
}

// The first choice of the direct pin serves for each on which the table does not depend.
fn is_tried(within: u16, k: u8) -> bool
    requires { k < 16 }
    ensures { result ≡ eqb k 0 || has within k }
{
    (k == 0) | ((within >> k) % 2 == 1)
}

// Whether the pins carry every variable of `within`.
fn covers(within: u16, f: u16, g: u16, direct: u16) -> bool
    ensures { result ≡ eqb (bit_and within (bit_or (bit_or f g) direct)) within }
{
    within & (f | g | direct) == within
}

// The least contents on one wiring. The tests before the last line only reject.
fn weigh(n: u8, t: &[u8], within: u16, words: &[u32; 16], f: u16, g: u16, k: u8) -> Option<u64>
    requires { Weighable n t.now within words.now f g k }
    ensures { IsLeast n t.now f g (direct_of n k) result }
{
    let direct = direct_set(n, k);
    if !covers(within, f, g, direct) {
        return None;
    }
    if !filter::two(words, rows::select(rows::key_of(f), g | direct)) {
        return None;
    }
    let others = filter::words(t, within, g);
    if !filter::two(&others, rows::select(rows::key_of(g), f | direct)) {
        return None;
    }
    contents::least(n, t, f, g, direct_of(n, k))
}

// The first wiring that can hold the table, with its least contents. Three loops and a label, as document 01 has it. Sets that an earlier one serves
// for are not in the list; F and G exchanged fit as well, so G's set begins at F's.
fn search(inputs: Inputs, t: &[u8]) -> Option<Place>
    ensures { Searched inputs.n t.now result }
{
    let n = inputs.number();
    let within = filter::support(n, t);
    let choices = filter::useful(n, within);
    let sets = choices.sets();
    let pins = directs(n);
    let mut found = None;
    'search: for (i, &f) in sets.iter().enumerate() {
        let words = filter::words(t, within, f);
        for &g in &sets[i..] {
            if hopeless(within, f, g) {
                continue;
            }
            for k in 0u8..pins {
                if !is_tried(within, k) {
                    continue;
                }
                if let Some(contents) = weigh(n, t, within, &words, f, g, k) {
                    found = Some(Place {
                        f,
                        g,
                        direct: direct_of(n, k),
                        contents,
                    });
                    break 'search;
                }
            }
        }
    }
    found
}

// The four pins of a set, with their rows; their fields stand in a key.
fn four_pin(set: u16, rows: u16) -> FourPin
    requires { Small set }
    ensures { lut_of result ≡ lut_on (pins_of_mask set) rows }
{
    let key = rows::key_of(set);
    FourPin {
        a: (key / 4096) as u8,
        b: (key / 256 % 16) as u8,
        c: (key / 16 % 16) as u8,
        d: (key % 16) as u8,
        rows,
    }
}

fn parts_of(p: Place) -> Parts
    requires { Small p.f × Small p.g × (p.contents < no_contents) }
    ensures { block_of result ≡ block_with p.f p.g p.direct p.contents }
{
    let x = p.contents;
    Parts {
        f: four_pin(p.f, (x / 16777216 % 65536) as u16),
        g: four_pin(p.g, (x / 256 % 65536) as u16),
        direct: p.direct,
        h: (x % 256) as u8,
    }
}

// A table of n inputs: the ten bytes of the first tidy block that computes it.
pub fn first_match(n: u8, t: &[u8], out: &mut [u8]) -> Result<usize, Refusal>
    ensures { Matched n t.now out.old out.new result }
{
    let inputs = head(n, t, out.len())?;
    match search(inputs, t) {
        Some(place) => codec::pack(n, parts_of(place), out),
        None => Err(Refusal::NoMatch),
    }
}
