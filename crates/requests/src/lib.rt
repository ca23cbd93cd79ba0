// A build: requests back to back, one byte n and then its table.

#![tactic(auto)]

ghost use Rattle.std.specs.Prelude.{◌≡◌, ℕ, List};
ghost use Rattle.requests.specs.Requests.{Request, first_bytes, lacks_room};
ghost use Rattle.requests.specs.Each.{WritesPiece, FillsEach};
ghost use Rattle.requests.specs.Counting.{Walks, Counts};

use block::Refusal;

// The bytes of the first request; `None` if there is none, or it is broken. A length of 0 is no table's, as
// `block::table_bytes` promises.
#[tactic(auto, using(crate::proofs::FirstLaws::first_none, crate::proofs::FirstLaws::first_lost, crate::proofs::FirstLaws::first_found))]
pub fn first(build: &[u8]) -> Option<usize>
    ensures { result ≡ first_bytes build.now }
{
    let (&n, rest) = build.split_first()?;
    let table = block::table_bytes(n);
    if table == 0 || rest.len() < table {
        return None;
    }
    Some(1 + table)
}

// How many requests there are, none of them broken.
#[tactic(auto, using(crate::proofs::RequestLaws::led))]
fn walk(build: &[u8]) -> Result<usize, Refusal>
    ensures { Walks build.now result }
{
    let mut many = 0;
    let mut rest = build;
    while !rest.is_empty() {
        let size = first(rest).ok_or(Refusal::BrokenBuild)?;
        rest = &rest[size..];
        many += 1;
    }
    Ok(many)
}

// Whether so many requests of `size` bytes each do not fit.
fn lacks_room(many: usize, size: usize, room: usize) -> bool
    ensures { result ≡ lacks_room size many room }
{
    size != 0 && room / size < many
}

// Counts the requests of a build, each of which is to have `size` bytes of the room.
#[tactic(auto, using(crate::proofs::CountLaws::counts_broken, crate::proofs::CountLaws::counts_lack, crate::proofs::CountLaws::counts_many))]
pub fn count(build: &[u8], size: usize, room: usize) -> Result<usize, Refusal>
    ensures { Counts size build.now room result }
{
    let many = walk(build)?;
    if lacks_room(many, size, room) {
        return Err(Refusal::NoRoom);
    }
    Ok(many)
}

// What is written for each request of a build: its piece, of so many bytes at most.
pub trait Pieces {
    ghost MOST: { ℕ };

    const MOST: usize;

    ghost Piece: { Request → List ℕ → Type 0 };

    // The piece of a table of n inputs at the start of the lent buffer, if there is room.
    fn write(n: u8, table: &[u8], out: &mut [u8]) -> Result<usize, Refusal>
        ensures { WritesPiece Piece MOST n table.now out.old out.new result };
}

// The piece of every request of a build, one after the other from the start of the lent buffer.
#[tactic(auto, using(crate::proofs::RequestLaws::led))]
pub fn fill<P: Pieces>(build: &[u8], out: &mut [u8]) -> Result<usize, Refusal>
    ensures { FillsEach P.Piece P.MOST build.now out.old out.new result }
{
    count(build, P::MOST, out.len())?;
    let mut rest = build;
    let mut used = 0;
    while let Some(size) = first(rest) {
        let (request, others) = rest.split_at(size);
        // There is room for each longest piece, so none is refused.
        used += P::write(request[0], &request[1..], &mut out[used..]).unwrap_or(0);
        rest = others;
    }
    Ok(used)
}
