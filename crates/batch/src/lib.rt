// One call for a whole build: a slot of eleven bytes for each request.

#![tactic(auto)]

ghost use Rattle.matcher.specs.Single.{Single};
ghost use Rattle.batch.specs.Batch.{slot_bytes, slot_of, Slot, Batched};

use block::Refusal;
use requests::Pieces;

// The number of a refusal or 0, and ten bytes.
pub const SLOT_BYTES: usize = 11;

// The slot of a table of n inputs. A slot begins with a number, 0 for success, since C reads it.
fn slot_of(n: u8, table: &[u8]) -> [u8; SLOT_BYTES]
    ensures { Single n table.now slot_of result }
{
    let mut slot = [0u8; SLOT_BYTES];
    slot[0] = match matcher::first_match(n, table, &mut slot[1..]) {
        Ok(_) => 0,
        Err(k) => block::number(k),
    };
    slot
}

// What is written for a request: its slot.
struct Slots;

impl Pieces for Slots {
    ghost MOST = { slot_bytes };

    const MOST: usize = SLOT_BYTES;

    ghost Piece = { Slot };

    fn write(n: u8, table: &[u8], out: &mut [u8]) -> Result<usize, Refusal> {
        let slot = slot_of(n, table);
        if out.len() < SLOT_BYTES {
            return Err(Refusal::NoRoom);
        }
        out[..SLOT_BYTES].copy_from_slice(&slot);
        Ok(SLOT_BYTES)
    }
}

// Answers every request of a build, in its slot of the lent buffer.
pub fn answer(build: &[u8], out: &mut [u8]) -> Result<usize, Refusal>
    ensures { Batched build.now out.old out.new result }
{
    requests::fill::<Slots>(build, out)
}
