// The lines of a build, one for each request.

#![tactic(auto)]

ghost use Rattle.line.specs.Line.{longest};
ghost use Rattle.listing.specs.Listing.{RequestLine, Lists, Prints};

use block::Refusal;
use line::{LONGEST, Said};
use requests::Pieces;

// What is written for a request: its line.
struct RequestLines;

impl Pieces for RequestLines {
    ghost MOST = { longest };

    const MOST: usize = LONGEST;

    ghost Piece = { RequestLine };

    fn write(n: u8, table: &[u8], out: &mut [u8]) -> Result<usize, Refusal> {
        line::of_table(n, table, out)
    }
}

// The lines of a build, from the start of the lent buffer.
pub fn of_build(build: &[u8], out: &mut [u8]) -> Result<usize, Refusal>
    ensures { Lists build.now out.old out.new result }
{
    requests::fill::<RequestLines>(build, out)
}

// The text that a build comes to: its lines, or the line of the refusal of the whole of it.
#[tactic(auto, unfolding(crate::specs::Listing::SaysListed))]
pub fn say(build: &[u8], out: &mut [u8]) -> Said
    ensures { Prints build.now out.old out.new result }
{
    match of_build(build, out) {
        Ok(used) => Said {
            refusal: None,
            line: Ok(used),
        },
        Err(k) => Said::refused(k, out),
    }
}
