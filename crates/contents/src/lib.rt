// The least contents of F, G and H that compute a table on given pins: the test of one wiring.
// A component is one value of the variables that F and G share, the direct pin's left out. Within one
// the table fixes F and G up to turning their outputs over; whether they are turned is a polarity.
// For each H, the first polarities that serve each component give the least F, then the least G.

#![tactic(auto)]

ghost use Rattle.std.specs.Prelude.{◌≡◌, true, false, ◌&&◌, ℕ, ◌-◌, ◌^◌, ◌<◌, ◌≤◌, get_or, unwrap_or, None, IfSome};
ghost use Rattle.bits.specs.Bits.{has, num, of_rows};
ghost use Rattle.bits.specs.Tests.{some};
ghost use Rattle.wiring.specs.Wire.{reads};
ghost use Rattle.wiring.specs.Test.{h_row, turned};
ghost use Rattle.contents.specs.Contents.{is_choice, is_wiring, wiring_of, no_contents, Weighs};
ghost use Rattle.contents.specs.Code.{changes_by, IsSide, AreWires, component_by, changed_by, slot_by};
ghost use Rattle.contents.specs.Code.{AreAsked, flip, allowed_by, serves_by, choice_by, AreChosen};
ghost use Rattle.contents.specs.Code.{possible_by, filled_by, with_table, least_of};

use block::{Inputs, OPEN};

// The rows of H, row 0 in the highest bit, where the direct pin is 0, and where it is 1.
const DIRECT_0: u8 = 0xAA;

const DIRECT_1: u8 = 0x55;

// The set of all nine variables.
const ALL: u16 = 511;

// A tidy choice of pins: the sets of F and of G, and the direct pin's field.
#[derive(Clone, Copy)]
struct Pins {
    inputs: Inputs,
    f: u16,
    g: u16,
    direct: u8,
    ghost tidy: { is_wiring inputs.n f g direct ≡ true },
}

// F, or G: its pins, the rows where its output changes with the variables that it has for itself,
// and whether it carries the direct pin's variable.
#[derive(Clone, Copy)]
struct Side {
    key: u16,
    changes: u16,
    bridged: bool,
}

// A wiring, and the variables that F and G share.
#[derive(Clone, Copy)]
struct Wires {
    f: Side,
    g: Side,
    shared: u16,
    direct: u8,
}

// The rows of H that must be 1 for one component, and those that must be 0.
#[derive(Clone, Copy)]
struct Asked {
    ones: u8,
    zeros: u8,
}

// Whether the set has at most four variables, all below n.
fn is_choice(inputs: Inputs, set: u16) -> bool
    ensures { result ≡ is_choice inputs.n set }
{
    (set < inputs.rows()) & (set.count_ones() <= 4)
}

// The rows of F that are selected by a row whose value changes where the variables outside `keep` are
// cleared.
fn changes(inputs: Inputs, t: &[u8], key: u16, keep: u16) -> u16
    ensures { (x : ℕ) → x < 16 → has result x ≡ changes_by t.now key keep (2 ^ inputs.n) x }
{
    let mut found: u16 = 0;
    for r in 0..inputs.rows() {
        if rows::truth(t, r) == rows::truth(t, r & keep) {
            continue;
        }
        found = found | (1 << rows::select(key, r));
    }
    found
}

impl Pins {
    fn new(n: u8, f: u16, g: u16, direct: u8) -> Option<Pins>
        ensures pins { IfSome result (λ p. (p.inputs.n ≡ n) × (p.f ≡ f) × (p.g ≡ g) × (p.direct ≡ direct)) }
        ensures none { result ≡ None → is_wiring n f g direct ≡ false }
    {
        // Tried with `ok()?`: what a `None` says of n was not found.
        let Ok(inputs) = Inputs::new(n) else {
            return None;
        };
        if is_choice(inputs, f) & (is_choice(inputs, g) & ((direct < n) | (direct == OPEN))) {
            return Some(Pins {
                inputs,
                f,
                g,
                direct,
            });
        }
        None
    }

    // The same with F and G exchanged.
    fn exchanged(self) -> Pins
        ensures { (result.inputs.n ≡ self.inputs.n)
            × (result.f ≡ self.g)
            × (result.g ≡ self.f)
            × (result.direct ≡ self.direct) }
    {
        Pins {
            inputs: self.inputs,
            f: self.g,
            g: self.f,
            direct: self.direct,
        }
    }

    // The numbers of F.
    fn side(self, t: &[u8]) -> Side
        ensures { IsSide self.inputs.n t.now (wiring_of self.f self.g self.direct) result }
    {
        let key = rows::key_of(self.f);
        let keep = (ALL - self.f) | (self.g | (1 << self.direct));
        Side {
            key,
            changes: changes(self.inputs, t, key, keep),
            bridged: (self.f >> self.direct) % 2 == 1,
        }
    }

    // The numbers of the wiring.
    fn wires(self, t: &[u8]) -> Wires
        ensures { AreWires self.inputs.n t.now (wiring_of self.f self.g self.direct) result }
    {
        Wires {
            f: self.side(t),
            g: self.exchanged().side(t),
            shared: self.f & (self.g & (65535 - (1 << self.direct))),
            direct: self.direct,
        }
    }
}

impl Side {
    // Whether the row selects a row of the table where that changes, as 1 or 0.
    fn changed(self, row: u16) -> u8
        ensures { (result ≡ num (changed_by self row)) × (result < 2) }
    {
        ((self.changes >> rows::select(self.key, row)) % 2) as u8
    }
}

// Table H where F's output is turned, or G's, or both.
fn turned(h: u8, f: bool, g: bool) -> u8
    ensures { (e : ℕ) → e < 8 → has result (7 - e) ≡ has h (7 - flip f g e) }
{
    let by_f = if f { h % 16 * 16 + h / 16 } else { h };
    if g {
        by_f / 16 % 4 * 64 + by_f / 64 * 16 + by_f % 4 * 4 + by_f / 4 % 4
    } else {
        by_f
    }
}

// Table H as it is met through polarities k.
fn moved(h: u8, k: u8) -> u8
    ensures { (e : ℕ) → e < 8 → has result (7 - e) ≡ h_row h (turned k e) }
{
    let at_0 = turned(h, k / 8 % 2 == 1, k / 2 % 2 == 1);
    let at_1 = turned(h, k / 4 % 2 == 1, k % 2 == 1);
    (at_0 & DIRECT_0) | (at_1 & DIRECT_1)
}

// Whether a table that does not carry the direct pin's variable has one polarity.
fn allowed(f: bool, g: bool, k: u8) -> bool
    ensures { result ≡ allowed_by f g k }
{
    (f | (k / 4 % 2 == k / 8 % 2)) & (g | (k % 2 == k / 2 % 2))
}

impl Wires {
    // The value of the shared variables, as the row of F that they select alone.
    #[tactic(auto, unfolding(crate::specs::Code::component_by))]
    fn component(self, row: u16) -> u8
        ensures { (result ≡ component_by self row) × (result < 16) }
    {
        rows::select(self.f.key, row & self.shared)
    }

    // The row of H that a row selects where every polarity is 0.
    fn slot(self, row: u16) -> u8
        ensures { (result ≡ slot_by self row) × (result < 8) }
    {
        4 * self.f.changed(row) + 2 * self.g.changed(row) + block::pin_value(self.direct, row)
    }

    // What the rows ask of H, for each component.
    fn demands(self, inputs: Inputs, t: &[u8]) -> [Asked; 16]
        ensures { AreAsked t.now self (2 ^ inputs.n) result }
    {
        let mut asked = [Asked { ones: 0, zeros: 0 }; 16];
        for r in 0..inputs.rows() {
            let s = self.component(r) as usize;
            let mark = 128 >> self.slot(r);
            if rows::truth(t, r) {
                asked[s].ones |= mark;
                continue;
            }
            asked[s].zeros |= mark;
        }
        asked
    }

    // Whether H with polarities k gives a component what it asks.
    fn served(self, h: u8, asked: Asked, k: u8) -> bool
        ensures { result ≡ serves_by self h asked.ones asked.zeros k }
    {
        if !allowed(self.f.bridged, self.g.bridged, k) {
            return false;
        }
        let m = moved(h, k);
        (asked.ones & m == asked.ones) & (m & asked.zeros == 0)
    }

    // The first polarities that serve.
    fn choice(self, h: u8, asked: Asked) -> Option<u8>
        ensures first { unwrap_or result 16 ≡ choice_by self h asked.ones asked.zeros }
        ensures below { IfSome result (λ k. k < 16) }
    {
        for k in 0u8..16 {
            if self.served(h, asked, k) {
                return Some(k);
            }
        }
        None
    }

    // The polarities of the components, where every component has some.
    fn choices(self, asked: &[Asked; 16], h: u8) -> Option<[u8; 16]>
        ensures { AreChosen self asked.now h result }
    {
        let mut poles = [0u8; 16];
        for (s, &component) in asked.iter().enumerate() {
            poles[s] = self.choice(h, component)?;
        }
        Some(poles)
    }

    // Whether some table H serves every component, and the component of row 0 with polarities 0. If
    // any table H serves, one does so; this rejects most wirings before contents are made.
    fn possible(self, asked: &[Asked; 16]) -> bool
        ensures { result ≡ some (possible_by self asked.now) 256 }
    {
        let first = asked[self.component(0) as usize];
        // A range of u8 to 255 makes each way through the body an exit to be proved: no plainer.
        for h in 0u16..256 {
            let tried = h as u8;
            if !self.served(tried, first, 0) {
                continue;
            }
            if self.choices(asked, tried).is_some() {
                return true;
            }
        }
        false
    }

    // The direct pin's value where the table carries its variable, else 0.
    fn level(self, s: Side, row: u16) -> u8
        ensures { (result ≡ num (s.bridged && reads self.direct row)) × (result < 2) }
    {
        if s.bridged {
            block::pin_value(self.direct, row)
        } else {
            0
        }
    }

    // Row x of a table. Of a component's polarities, bit `at` is the table's where the direct pin is
    // 0, and the bit below it where the pin is 1.
    fn filled(self, s: Side, poles: [u8; 16], at: u8, x: u8) -> bool
        requires { (0 < at) × (at < 8) × (x < 16) }
        ensures { result ≡ filled_by self s (λ c. get_or poles c 0) at x }
    {
        let row = rows::place(s.key, x);
        if rows::select(s.key, row) != x {
            return false;
        }
        let k = poles[self.component(row) as usize];
        let turn = (k >> (at - self.level(s, row))) % 2;
        ((s.changes >> x) % 2) as u8 != turn
    }

    // The sixteen rows of F, or of G, row 0 in the highest bit.
    fn table(self, s: Side, poles: [u8; 16], at: u8) -> u64
        requires { (0 < at) × (at < 8) }
        ensures { (result ≡ of_rows 16 (filled_by self s (λ c. get_or poles c 0) at)) × (result < 65536) }
    {
        let mut found: u64 = 0;
        for x in 0u8..16 {
            found = found * 2 + (self.filled(s, poles, at, x) as u64);
        }
        found
    }

    // The contents with table H.
    fn with_table(self, asked: &[Asked; 16], h: u8) -> Option<u64>
        ensures contents { unwrap_or result no_contents ≡ with_table self asked.now h }
        ensures below { IfSome result (λ x. x < no_contents) }
    {
        if !block::direct_quiet(self.direct, h) {
            return None;
        }
        let poles = self.choices(asked, h)?;
        let f = self.table(self.f, poles, 3);
        let g = self.table(self.g, poles, 1);
        Some((f * 65536 + g) * 256 + (h as u64))
    }

    // The least contents over all tables H.
    fn smallest(self, asked: &[Asked; 16]) -> Option<u64>
        ensures least { unwrap_or result no_contents ≡ least_of no_contents (with_table self asked.now) 256 }
        ensures below { IfSome result (λ x. x < no_contents) }
    {
        let mut best: Option<u64> = None;
        for h in 0u16..256 {
            // A range has no clause by which `filter_map(..).min()` would prove.
            let Some(x) = self.with_table(asked, h as u8) else {
                continue;
            };
            match best {
                Some(least) if least <= x => {}
                _ => best = Some(x),
            }
        }
        best
    }
}

// The least contents that compute the table on the pins of the sets f and g and the direct pin. None
// where none do, or where these are no tidy choice of pins.
pub fn least(n: u8, t: &[u8], f: u16, g: u16, direct: u8) -> Option<u64>
    ensures { Weighs n t.now f g direct result }
{
    let pins = Pins::new(n, f, g, direct)?;
    let wires = pins.wires(t);
    let asked = wires.demands(pins.inputs, t);
    if !wires.possible(&asked) {
        return None;
    }
    wires.smallest(&asked)
}
