// Records of a sheet, found by their number pair or read at their place.

#![tactic(auto)]

ghost use Rattle.std.specs.Prelude.{◌≡◌, length, IfOk, IfErr};
ghost use Rattle.block.specs.Answer.{answer};
ghost use Rattle.record.specs.Record.{record_bytes, record_of, pair_of};
ghost use Rattle.record.specs.Told.{placed, fault_of};
ghost use Rattle.finding.specs.Find.{Places, Finds};
ghost use Rattle.finding.specs.Read.{read_fault, Stands, Standing, reading_of, Reads, Copies};

use block::{BLOCK_BYTES, Refusal};
use record::{HEADER_BYTES, Numbers, RECORD_BYTES, Refused};

// A record as it is read: its numbers and its ten bytes.
#[derive(Clone, Copy)]
pub struct Reading {
    pub numbers: Numbers,
    pub ten: [u8; 10],
}

// The place of the record with the number pair.
pub fn place_of(s: &[u8], craft: u32, block: u32) -> Result<usize, Refused>
    ensures { Places s.now (pair_of craft block) result }
{
    records::check(s)?;
    for (place, bytes) in s.chunks_exact(RECORD_BYTES).enumerate() {
        if record::has_pair(record::numbers_of(bytes), craft, block) {
            return Ok(place);
        }
    }
    Err(Refusal::NotThere.into())
}

// The ten bytes of the record with the number pair, as a part of the sheet.
pub fn find<'a>(s: &'a [u8], craft: u32, block: u32) -> &'a [u8]
    ensures { Finds s.entry (pair_of craft block) result }
{
    // No refusal is handed on: for any of them the part is empty.
    let found = place_of(s, craft, block);
    let Ok(place) = found else {
        return &s[0..0];
    };
    let a = place * RECORD_BYTES + HEADER_BYTES;
    &s[a..a + BLOCK_BYTES]
}

// Whether a record stands at the place: the number of records, or a refusal.
pub fn readable(s: &[u8], place: usize) -> Result<usize, Refused>
    ensures { Stands s.now place result }
{
    let count = records::check(s)?;
    if count <= place {
        return Err(Refusal::NotThere.into());
    }
    Ok(count)
}

// The bytes of the record at a place, as a part of the sheet.
pub fn bytes_at(s: &[u8], place: usize) -> Result<&[u8], Refused>
    ensures ok { IfOk result (λ bytes. Standing s.now place bytes.now) }
    ensures err { IfErr result (λ r. fault_of r ≡ read_fault s.now place) }
{
    readable(s, place)?;
    let a = place * RECORD_BYTES;
    Ok(&s[a..a + RECORD_BYTES])
}

// The record in 14 bytes, as it is read.
fn taken(s: &[u8]) -> Reading
    requires { length s.now ≡ record_bytes }
    ensures { reading_of (Ok result) ≡ answer 0 (placed 0 (record_of s.now)) }
{
    let mut ten = [0u8; 10];
    ten.copy_from_slice(&s[HEADER_BYTES..RECORD_BYTES]);
    Reading {
        numbers: record::numbers_of(s),
        ten,
    }
}

// The record at a place.
pub fn read(s: &[u8], place: usize) -> Result<Reading, Refused>
    ensures { Reads s.now place result }
{
    let bytes = bytes_at(s, place)?;
    Ok(taken(bytes))
}

// The bytes of the record at a place, at the start of the lent buffer.
pub fn copy_out(s: &[u8], place: usize, out: &mut [u8]) -> Result<usize, Refused>
    ensures { Copies s.now place out.old out.new result }
{
    let bytes = bytes_at(s, place)?;
    if out.len() < RECORD_BYTES {
        return Err(Refusal::NoRoom.into());
    }
    out[..RECORD_BYTES].copy_from_slice(bytes);
    Ok(RECORD_BYTES)
}
