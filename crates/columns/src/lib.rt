// A sheet's records as lines of text, in columns.

#![tactic(auto)]

ghost use Rattle.std.specs.Prelude.{◌≡◌, ◌++◌, ◌+◌, ◌*◌, ◌<◌, ◌≤◌, length, drop};
ghost use Rattle.record.specs.Record.{record_bytes, record_of};
ghost use Rattle.records.specs.Sheet.{most_records, records_of};
ghost use Rattle.records.specs.Check.{sheet_fault};
ghost use Rattle.digits.specs.Digits.{decimal};
ghost use Rattle.columns.specs.Columns.{cell, number_cells, number_bytes, record_line, Sound, InColumns};
ghost use Rattle.columns.specs.Columns.{record_line_bytes, lines_from, PrintsRecord, PrintsSheet};

use block::Refusal;
use record::{HEADER_BYTES, Numbers, RECORD_BYTES, Refused};
use text::BLOCK_LINE;

// The widths of place, spacecraft number, block number and n, a blank after each.
const PLACE: usize = 4;

const CRAFT: usize = 5;

const BLOCK: usize = 4;

const N: usize = 1;

// Where the columns after the first begin.
const CRAFT_AT: usize = PLACE + 1;

const BLOCK_AT: usize = CRAFT_AT + CRAFT + 1;

const N_AT: usize = BLOCK_AT + BLOCK + 1;

const TYPE_AT: usize = N_AT + N + 1;

// The length of every record's line.
pub const RECORD_LINE: usize = TYPE_AT + BLOCK_LINE;

// A number in a column of so many bytes at the start of the lent buffer, and a blank.
fn put_cell(x: u64, width: usize, out: &mut [u8])
    requires { (length (decimal x) ≤ width) × (width < length out.old) }
    ensures { out.new ≡ cell width x ++ drop (width + 1) out.old }
{
    digits::align(x, &mut out[0..width]);
    out[width] = b' ';
}

// The numbers of a record at a place, at the start of the lent buffer.
fn put_numbers(place: usize, x: Numbers, out: &mut [u8])
    requires { InColumns place x × (number_bytes ≤ length out.old) }
    ensures { out.new ≡ number_cells place x ++ drop number_bytes out.old }
{
    put_cell(place as u64, PLACE, out);
    put_cell(x.craft as u64, CRAFT, &mut out[CRAFT_AT..]);
    put_cell(x.block as u64, BLOCK, &mut out[BLOCK_AT..]);
    put_cell(x.n as u64, N, &mut out[N_AT..]);
}

// The line of the record in 14 bytes, at the start of the lent buffer.
fn put_line(place: usize, s: &[u8], out: &mut [u8])
    requires s_len { (length s.now ≡ record_bytes) × Sound (record_of s.now) }
    requires place_lt_most_records { (place < most_records) × (record_line_bytes ≤ length out.old) }
    ensures { out.new ≡ record_line place (record_of s.now) ++ drop record_line_bytes out.old }
{
    let x = record::numbers_of(s);
    put_numbers(place, x, out);
    // The block passes and has room, so no refusal is dropped.
    let _ = text::of_block(x.n, &s[HEADER_BYTES..RECORD_BYTES], &mut out[TYPE_AT..]);
}

// The line of the record at a place.
pub fn of_place(s: &[u8], place: usize, out: &mut [u8]) -> Result<usize, Refused>
    ensures { PrintsRecord s.now place out.old out.new result }
{
    let bytes = finding::bytes_at(s, place)?;
    if out.len() < RECORD_LINE {
        return Err(Refusal::NoRoom.into());
    }
    put_line(place, bytes, out);
    Ok(RECORD_LINE)
}

// The lines of a sheet's records, where no record has a fault and there is room for all.
fn put_lines(s: &[u8], out: &mut [u8])
    requires none { (sheet_fault s.now).number ≡ 0 }
    requires room { length (records_of s.now) * record_line_bytes ≤ length out.old }
    ensures { out.new ≡ lines_from 0 (records_of s.now) ++ drop (length (records_of s.now) * record_line_bytes) out.old }
{
    // The buffer is cut by place: it may be longer than the lines, and keeps what is behind them.
    for (place, bytes) in s.chunks_exact(RECORD_BYTES).enumerate() {
        put_line(place, bytes, &mut out[place * RECORD_LINE..]);
    }
}

// The list of a sheet: the line of each record.
pub fn of_sheet(s: &[u8], out: &mut [u8]) -> Result<usize, Refused>
    ensures { PrintsSheet s.now out.old out.new result }
{
    let count = records::check(s)?;
    if out.len() < count * RECORD_LINE {
        return Err(Refusal::NoRoom.into());
    }
    put_lines(s, out);
    Ok(count * RECORD_LINE)
}
