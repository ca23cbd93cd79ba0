// A record added to a sheet.

#![tactic(auto)]

ghost use Rattle.std.specs.Prelude.{◌≡◌, [], ◌++◌, ◌%◌, ◌≤◌, length, drop, IfOk, IfErr};
ghost use Rattle.codec.specs.Ten.{block_bytes};
ghost use Rattle.record.specs.Record.{record_bytes, header_of, lay_out, record_with, key_before};
ghost use Rattle.record.specs.Told.{fault_of};
ghost use Rattle.records.specs.Sheet.{records_of, last_key};
ghost use Rattle.append.specs.Append.{no_room, append_fault, Appends};

use block::Refusal;
use record::{HEADER_BYTES, Numbers, Pair, RECORD_BYTES, Refused};
use records::MOST_RECORDS;

// The pair of the last record, if there is one.
fn last_of(s: &[u8]) -> Option<Pair>
    requires { length s.now % record_bytes ≡ 0 }
    ensures { key_before result ≡ last_key [] (records_of s.now) }
{
    let bytes = s.last_chunk::<RECORD_BYTES>()?;
    Some(record::numbers_of(bytes).pair())
}

fn is_full(left: usize, count: usize) -> bool
    ensures { result ≡ no_room left count }
{
    (left < RECORD_BYTES) | (MOST_RECORDS <= count)
}

// The refusal of the record, if there is one. Nothing is written.
fn decide(s: &[u8], used: usize, x: Numbers, ten: &[u8]) -> Result<(), Refused>
    ensures ok { IfOk result (λ _. (append_fault s.now used (record_with x ten.now)).number ≡ 0) }
    ensures err { IfErr result (λ r. fault_of r ≡ append_fault s.now used (record_with x ten.now)) }
{
    if s.len() < used {
        return Err(Refusal::WrongLength.into());
    }
    let (sheet, left) = s.split_at(used);
    let count = records::check(sheet)?;
    record::judge(last_of(sheet), x, ten, count)?;
    if is_full(left.len(), count) {
        return Err(Refusal::NoRoom.into());
    }
    Ok(())
}

// The bytes of the numbers, by shifts and masks, which cut a number above its field.
fn header(x: Numbers) -> [u8; 4]
    ensures { result ≡ header_of x.craft x.block x.n }
{
    [
        ((x.craft >> 8) & 255) as u8,
        (x.craft & 255) as u8,
        ((x.block >> 4) & 255) as u8,
        bits::join4((x.block & 15) as u8, x.n),
    ]
}

// A record's bytes at the start of the room.
fn write_record(room: &mut [u8], x: Numbers, ten: &[u8])
    requires { (record_bytes ≤ length room.old) × (length ten.now ≡ block_bytes) }
    ensures { room.new ≡ lay_out (record_with x ten.now) ++ drop record_bytes room.old }
{
    let header = header(x);
    room[..HEADER_BYTES].copy_from_slice(&header);
    room[HEADER_BYTES..HEADER_BYTES + ten.len()].copy_from_slice(ten);
}

// A record is added at the end of the used part. The buffer and how much of it is in use come apart, as C lends them.
pub fn append(s: &mut [u8], used: usize, x: Numbers, ten: &[u8]) -> Result<usize, Refused>
    ensures { Appends s.old used (record_with x ten.now) s.new result }
{
    decide(s, used, x, ten)?;
    write_record(&mut s[used..], x, ten);
    Ok(used + RECORD_BYTES)
}
