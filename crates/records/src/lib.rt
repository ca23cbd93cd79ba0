// The patch sheet, checked record by record.

#![tactic(auto)]

ghost use Rattle.std.specs.Prelude.{◌≡◌, length, IfOk, IfErr};
ghost use Rattle.record.specs.Record.{record_bytes, record_of, key_before};
ghost use Rattle.record.specs.Fault.{record_refusal, at};
ghost use Rattle.record.specs.Told.{fault_of};
ghost use Rattle.records.specs.Check.{wrong_length, Follows, Counts};

use block::Refusal;
use record::{HEADER_BYTES, Pair, RECORD_BYTES, Refused};

// The most records of a sheet, and their bytes.
pub const MOST_RECORDS: usize = 4681;

const SHEET_BYTES: usize = MOST_RECORDS * RECORD_BYTES;

fn is_wrong(len: usize) -> bool
    ensures { result ≡ wrong_length len }
{
    (len % RECORD_BYTES != 0) | (SHEET_BYTES < len)
}

// A record of 14 bytes at its place, judged after the last one's pair: its own pair.
fn judged(last: Option<Pair>, bytes: &[u8], place: usize) -> Result<Pair, Refused>
    requires { length bytes.now ≡ record_bytes }
    ensures ok { IfOk result (Follows (key_before last) (record_of bytes.now)) }
    ensures err { IfErr result (λ r. fault_of r ≡ at (record_refusal (key_before last) (record_of bytes.now)) place) }
{
    let x = record::numbers_of(bytes);
    let (_, ten) = bytes.split_at(HEADER_BYTES);
    record::judge(last, x, ten, place)?;
    Ok(x.pair())
}

// The number of records, or the first refusal with the place of its record.
pub fn check(s: &[u8]) -> Result<usize, Refused>
    ensures { Counts s.now result }
{
    if is_wrong(s.len()) {
        return Err(Refusal::WrongLength.into());
    }
    let mut last = None;
    for (place, bytes) in s.chunks_exact(RECORD_BYTES).enumerate() {
        last = Some(judged(last, bytes, place)?);
    }
    Ok(s.len() / RECORD_BYTES)
}
