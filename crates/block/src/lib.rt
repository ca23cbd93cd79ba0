// What passes between the layers: a block in numbers, a type, the refusals, and the answer of a
// writer; what a pin reads, and the rows that an open pin leaves unread. Their meaning stands in
// specs/.

#![tactic(auto)]

ghost use Rattle.std.specs.Prelude.{◌≡◌, not, ◌||◌, [], ◌∷◌, ◌<◌, ◌≤◌, ◌^◌, eqb, IfOk, Err};
ghost use Rattle.block.specs.declared.Refusal.{Refusal};
ghost use Rattle.block.specs.declared.Refusal.TheVariants.{TooManyInputs};
ghost use Rattle.std.specs.Int.Bits.{bit_and};
ghost use Rattle.block.specs.Block.{is_open};
ghost use Rattle.block.specs.Code.{lut_of};
ghost use Rattle.block.specs.Table.{table_length};
ghost use Rattle.block.specs.Value.{pin_value};
ghost use Rattle.block.specs.Tidy.{quiet, lut_quiet};
ghost use Rattle.block.specs.Refusal.{number_of};

// The field of an open pin, and the level that an open pin reads.
pub const OPEN: u8 = 15;

const OPEN_LEVEL: u16 = 1;

// The rows, row 0 most significant, that need the other level on the pin of weight 8, 4, 2, 1 of a
// four-pin table, and on the direct pin of H. Moved up by the pin's weight, the rows that need a 1
// are those that need a 0.
const UNREAD_8: u16 = 0x00FF << (8 * OPEN_LEVEL);

const UNREAD_4: u16 = 0x0F0F << (4 * OPEN_LEVEL);

const UNREAD_2: u16 = 0x3333 << (2 * OPEN_LEVEL);

const UNREAD_1: u16 = 0x5555 << OPEN_LEVEL;

const H_UNREAD: u16 = 0x55 << OPEN_LEVEL;

// The greatest n, and the length of a block.
pub const MOST_INPUTS: u8 = 9;

pub const BLOCK_BYTES: usize = 10;

// A four-pin table, F or G: its pin fields from the first pin on, and its sixteen rows.
#[derive(Clone, Copy)]
pub struct FourPin {
    pub a: u8,
    pub b: u8,
    pub c: u8,
    pub d: u8,
    pub rows: u16,
}

// Nine pin fields and three tables.
#[derive(Clone, Copy)]
pub struct Parts {
    pub f: FourPin,
    pub g: FourPin,
    pub direct: u8,
    pub h: u8,
}

#[derive(Clone, Copy)]
pub enum Letter {
    A,
    B,
    C,
}

// The type of a block: `type` is no name in Rattle.
#[derive(Clone, Copy)]
pub struct Kind {
    pub letter: Letter,
    pub digit: u8,
}

// The refusals of document 01 and of the requests, by their numbers.
#[derive(Clone, Copy)]
pub enum Refusal {
    TooManyInputs = 1,
    WrongLength = 2,
    PaddingSet = 3,
    NoMatch = 4,
    NoRoom = 5,
    StrayField = 6,
    OutOfOrder = 7,
    OpenRowSet = 8,
    LastBitsSet = 9,
    Unassigned = 10,
    NotAbove = 11,
    NotThere = 12,
    NoSuchRow = 13,
    BrokenBuild = 14,
    NoCover = 15,
    NameTwice = 16,
    BothOutputs = 17,
}

// A number of inputs that a table can have: nine at most.
#[derive(Clone, Copy)]
pub struct Inputs {
    n: u8,
    ghost within: { n ≤ 9 },
}

impl Inputs {
    // 1 where n is above nine.
    pub fn new(n: u8) -> Result<Inputs, Refusal>
        ensures ok { IfOk result (λ inputs. inputs.n ≡ n) }
        ensures err { (k : Refusal) → result ≡ Err k → (k ≡ TooManyInputs) × (9 < n) }
    {
        if MOST_INPUTS < n {
            return Err(Refusal::TooManyInputs);
        }
        Ok(Inputs { n })
    }

    pub fn number(self) -> u8
        ensures { result ≡ self.n }
    {
        self.n
    }

    // How many rows a table of so many inputs has.
    pub fn rows(self) -> u16
        ensures { result ≡ 2 ^ self.n }
    {
        1 << self.n
    }
}

// How many bytes a table of n inputs has; 0 for n above nine, of which there is no table: `table_length`, which
// it promises, has 0 there.
pub fn table_bytes(n: u8) -> usize
    ensures { result ≡ table_length n }
{
    if n <= 3 {
        return 1;
    }
    if n <= MOST_INPUTS { 1 << (n - 3) } else { 0 }
}

// What a pin reads in a row. Bit 15 of the row is put at the level of an open pin, whose field is 15.
pub fn pin_value(pin: u8, row: u16) -> u8
    ensures { (result ≡ pin_value pin row) × (result < 2) }
{
    if OPEN < pin {
        return 0;
    }
    (((row % 32768 + OPEN_LEVEL * 32768) >> pin) % 2) as u8
}

// Where the pin is open, no row that the mask marks is set.
fn pin_quiet(pin: u8, rows: u16, mask: u16) -> bool
    ensures { result ≡ not (is_open pin) || eqb (bit_and rows mask) 0 }
{
    (pin != OPEN) | (rows & mask == 0)
}

// Whether every row of F, or of G, that its open pins leave unread is 0.
pub fn four_quiet(t: FourPin) -> bool
    ensures { result ≡ lut_quiet (lut_of t) }
{
    pin_quiet(t.a, t.rows, UNREAD_8)
        & (pin_quiet(t.b, t.rows, UNREAD_4)
            & (pin_quiet(t.c, t.rows, UNREAD_2) & pin_quiet(t.d, t.rows, UNREAD_1)))
}

// Whether every row of H that an open direct pin leaves unread is 0.
pub fn direct_quiet(direct: u8, h: u8) -> bool
    ensures { result ≡ quiet 8 h (direct ∷ []) }
{
    pin_quiet(direct, h as u16, H_UNREAD)
}

// A refusal's number.
pub fn number(k: Refusal) -> u8
    ensures { result ≡ number_of k }
{
    k as u8
}
