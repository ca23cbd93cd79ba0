// The entries for C. A slice is a pointer and then a length.

#![tactic(auto)]

ghost use Rattle.std.specs.Prelude.{◌≡◌, ◌≤◌, ◌+◌, ◌*◌};
ghost use Rattle.block.specs.Kind.{letter_code};
ghost use Rattle.block.specs.Code.{lut_of};
ghost use Rattle.record.specs.Record.{offered};
ghost use Rattle.record.specs.Told.{told_of};
ghost use Rattle.drawmitten_c.specs.Boundary.{long_word, MatchesC, BatchesC, ChecksC, EvaluatesC, TypesC, PacksC};
ghost use Rattle.drawmitten_c.specs.Boundary.{lut_from, block_from};
ghost use Rattle.drawmitten_c.specs.Boundary.{told_word, Of32Bits, CountsC, PlacesC, CopiesC, AppendsC};
ghost use Rattle.drawmitten_c.specs.Boundary.{CoversC};

use block::{FourPin, Kind, Parts, Refusal};
use record::{Numbers, Refused};

// An answer as a word: 56 bits of its value above the number of the refusal, or 0.
fn word(answer: Result<u64, Refusal>) -> u64
    ensures { result ≡ long_word answer }
{
    match answer {
        Ok(value) => value % (1 << 56) * 256,
        Err(k) => u64::from(block::number(k)),
    }
}

// The answer of a writer as a word.
fn answer_word(answer: Result<usize, Refusal>) -> u64
    ensures { result ≡ long_word answer }
{
    word(answer.map(|used| used as u64))
}

// The ten bytes of the first tidy block that computes a table of n inputs.
#[unsafe(no_mangle)]
pub extern "C" fn drawmitten_match(n: u8, t: &[u8], out: &mut [u8]) -> u64
    ensures { MatchesC n t.now out.old out.new result }
{
    answer_word(matcher::first_match(n, t, out))
}

// A slot for each request of a build.
#[unsafe(no_mangle)]
pub extern "C" fn drawmitten_batch(build: &[u8], out: &mut [u8]) -> u64
    ensures { BatchesC build.now out.old out.new result }
{
    answer_word(batch::answer(build, out))
}

// Whether ten bytes are a tidy block of n inputs.
#[unsafe(no_mangle)]
pub extern "C" fn drawmitten_check(n: u8, s: &[u8]) -> u64
    ensures { ChecksC n s.now result }
{
    word(codec::check(n, s).map(|()| 0))
}

// The value's bit at a row.
#[unsafe(no_mangle)]
pub extern "C" fn drawmitten_evaluate(n: u8, s: &[u8], row: u32) -> u64
    ensures { EvaluatesC n s.now row result }
{
    word(value::evaluate(n, s, row).map(u64::from))
}

// A type's letter in ASCII, and above it the digit.
fn kind_word(kind: Kind) -> u64
    ensures { result ≡ letter_code kind.letter + kind.digit * 256 }
{
    u64::from(types::letter_code(kind.letter)) + u64::from(kind.digit) * 256
}

// The type's letter in ASCII, and above it the digit.
#[unsafe(no_mangle)]
pub extern "C" fn drawmitten_type(n: u8, s: &[u8]) -> u64
    ensures { TypesC n s.now result }
{
    word(types::type_of(n, s).map(kind_word))
}

// The four fields from field `at` on, with a table's rows; they stand as C lends them.
fn four_pin(fields: &[u8; 9], at: usize, rows: u16) -> FourPin
    requires { at ≤ 4 }
    ensures { lut_of result ≡ lut_from fields.now at rows }
{
    FourPin {
        a: fields[at],
        b: fields[at + 1],
        c: fields[at + 2],
        d: fields[at + 3],
        rows,
    }
}

// The ten bytes of nine fields and three tables.
#[unsafe(no_mangle)]
pub extern "C" fn drawmitten_pack(
    n: u8,
    fields: &[u8; 9],
    f: u16,
    g: u16,
    h: u8,
    out: &mut [u8],
) -> u64
    ensures { PacksC n (block_from fields.now f g h) out.old out.new result }
{
    let parts = Parts {
        f: four_pin(fields, 0, f),
        g: four_pin(fields, 4, g),
        direct: fields[8],
        h,
    };
    answer_word(codec::pack(n, parts, out))
}

// The answer of an entry about a sheet as a number.
fn told_word(told: Result<usize, Refused>) -> u64
    requires { Of32Bits (told_of told) }
    ensures { result ≡ told_word (told_of told) }
{
    match told {
        Ok(value) => value as u64 * 256,
        Err(refused) => { u64::from(block::number(refused.refusal)) + refused.place as u64 * 256 }
    }
}

// The number of records of a sheet.
#[unsafe(no_mangle)]
pub extern "C" fn drawmitten_sheet_check(s: &[u8]) -> u64
    ensures { CountsC s.now result }
{
    told_word(records::check(s))
}

// The bytes of the record at a place, at the start of the lent buffer.
#[unsafe(no_mangle)]
pub extern "C" fn drawmitten_sheet_read(s: &[u8], place: u64, out: &mut [u8]) -> u64
    ensures { CopiesC s.now place out.old out.new result }
{
    told_word(finding::copy_out(s, place as usize, out))
}

// The place of the record with the number pair.
#[unsafe(no_mangle)]
pub extern "C" fn drawmitten_sheet_find(s: &[u8], craft: u32, block: u32) -> u64
    ensures { PlacesC s.now craft block result }
{
    told_word(finding::place_of(s, craft, block))
}

// A record is added at the end of the used part.
#[unsafe(no_mangle)]
pub extern "C" fn drawmitten_sheet_append(
    s: &mut [u8],
    used: usize,
    craft: u32,
    block: u32,
    n: u8,
    ten: &[u8],
) -> u64
    ensures { AppendsC s.old used (offered craft block n ten.now) s.new result }
{
    let x = Numbers { craft, block, n };
    told_word(append::append(s, used, x, ten))
}

// The table of one `.names` part: n, and above it the length in use.
#[unsafe(no_mangle)]
pub extern "C" fn drawmitten_cover(text: &[u8], out: &mut [u8]) -> u64
    ensures { CoversC text.now out.old out.new result }
{
    match blif::read(text, out) {
        Ok(cover) => u64::from(cover.n) * 256 + cover.used as u64 * 65536,
        Err(k) => word(Err(k)),
    }
}
