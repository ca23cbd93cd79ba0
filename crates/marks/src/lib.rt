// The rows that the marks of a cover line cover, 64 to a word, and the table that they make.

#![tactic(auto)]

ghost use Rattle.std.specs.Prelude.{◌≡◌, ◌+◌, ◌-◌, ◌*◌, ◌<◌, ◌≤◌, min, ltb, length, take, drop, get_or};
ghost use Rattle.bits.specs.Bits.{has, of_rows};
ghost use Rattle.bits.specs.Tests.{pick};
ghost use Rattle.block.specs.Table.{variable_at, table_rows, table_bytes};
ghost use Rattle.block.specs.Answer.{buffer_after};
ghost use Rattle.marks.specs.Marks.{agrees, covers};
ghost use Rattle.marks.specs.Rows.{is_set, painted, rows_table, WritesRows};

use block::Refusal;

// 512 rows, row 0 in the most significant bit of the first word.
#[derive(Clone, Copy)]
pub struct Rows {
    pub words: [u64; 8],
}

// The rows of 64, row 0 in the most significant bit, at which variable 0, 1, .. is 1.
const ONES: [u64; 6] = [
    0x5555555555555555,
    0x3333333333333333,
    0x0F0F0F0F0F0F0F0F,
    0x00FF00FF00FF00FF,
    0x0000FFFF0000FFFF,
    0x00000000FFFFFFFF,
];

// The rows of 64 at which variable i is 1.
fn ones(i: usize) -> u64
    requires { i < 6 }
    ensures { result ≡ of_rows 64 (λ e. has e i) }
{
    ONES[i]
}

// The rows if the test holds, else none.
fn kept(test: bool, rows: u64) -> u64
    ensures { result ≡ pick test rows 0 }
{
    if test { rows } else { 0 }
}

// The rows of 64 that a mark of variable i agrees with; so written that the compiler needs no branch.
fn mask(i: usize, mark: u8) -> u64
    requires { i < 6 }
    ensures { result ≡ of_rows 64 (λ e. agrees mark (variable_at e i)) }
{
    let rows = ones(i);
    let both = mark == b'-';
    kept(both | (mark == b'1'), rows) | kept(both | (mark == b'0'), !rows)
}

// The rows of 64 that the first six marks cover.
fn rows_of(marks: &[u8]) -> u64
    ensures { result ≡ of_rows 64 (covers (take 6 marks.now)) }
{
    let (first, _) = marks.split_at(marks.len().min(6));
    let mut rows = u64::MAX;
    for (i, &mark) in first.iter().enumerate() {
        rows &= mask(i, mark);
    }
    rows
}

// The words that the marks after the first six cover.
fn words_of(marks: &[u8]) -> u64
    ensures { result ≡ of_rows 64 (covers (take 6 (drop 6 marks.now))) }
{
    let (_, later) = marks.split_at(marks.len().min(6));
    rows_of(later)
}

fn is_row(rows: u64, w: usize) -> bool
    requires { w < 64 }
    ensures { result ≡ has rows (63 - w) }
{
    (rows >> (63 - w)) % 2 == 1
}

// The rows that are set, and those that the marks cover besides; one mark for each variable.
pub fn paint(rows: Rows, marks: &[u8]) -> Rows
    ensures { result.words ≡ painted marks.now 0 rows.words }
{
    let low = rows_of(marks);
    let high = words_of(marks);
    let mut words = rows.words;
    for (w, word) in words.iter_mut().enumerate() {
        *word |= kept(is_row(high, w), low);
    }
    Rows { words }
}

// The rows of the first byte of a table of n inputs; any other byte has eight.
fn rows_kept(n: u8) -> u8
    ensures { result ≡ of_rows 8 (λ k. ltb k (table_rows n)) }
{
    match n {
        0 => 128,
        1 => 192,
        2 => 240,
        _ => 255,
    }
}

// The eight rows of byte j.
fn byte(rows: Rows, j: usize) -> u8
    requires { j < 64 }
    ensures { result ≡ of_rows 8 (λ k. is_set rows.words (8 * j + k)) }
{
    let at = j / 8;
    ((rows.words[at] >> (56 - 8 * (j % 8))) % 256) as u8
}

// The byte with each row turned if `flip`.
fn turned(flip: bool, b: u8) -> u8
    ensures { result ≡ pick «flip» (255 - b) b }
{
    if flip { !b } else { b }
}

// Byte j of the table of n inputs.
fn table_byte(n: u8, rows: Rows, flip: bool, j: usize) -> u8
    requires { (n ≤ 9) × (j < table_bytes n) }
    ensures { result ≡ get_or (rows_table n rows.words «flip») j 0 }
{
    turned(flip, byte(rows, j)) & rows_kept(n)
}

// The table in the whole of the buffer, which is as long. That n is at most 9 is asked of two functions here alone.
fn fill(n: u8, rows: Rows, flip: bool, table: &mut [u8])
    requires { (n ≤ 9) × (length table.old ≡ table_bytes n) }
    ensures { table.new ≡ rows_table n rows.words «flip» }
{
    for (j, byte) in table.iter_mut().enumerate() {
        *byte = table_byte(n, rows, flip, j);
    }
}

// The rows as a table of n inputs at the start of the lent buffer, each value turned if `flip`: by what it promises,
// `WritesRows`, that is a value and no choice of steps.
pub fn write(n: u8, rows: Rows, flip: bool, out: &mut [u8]) -> Result<usize, Refusal>
    ensures { WritesRows n rows.words «flip» out.old out.new result }
{
    if 9 < n {
        return Err(Refusal::TooManyInputs);
    }
    let size = block::table_bytes(n);
    if out.len() < size {
        return Err(Refusal::NoRoom);
    }
    fill(n, rows, flip, &mut out[..size]);
    Ok(size)
}
