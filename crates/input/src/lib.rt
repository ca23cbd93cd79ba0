// Input, read whole or not at all, and room to read it into.

#![tactic(auto)]

ghost use Rattle.std.specs.Prelude.{◌≡◌, length};
ghost use Rattle.input.specs.Input.{ended_by, LeavesRoom, Reads, AreZeros};

use std::io;
use std::io::Read;

// The input ended after so many bytes; or it filled the buffer, and there may be more.
#[derive(Clone, Copy)]
pub enum Input {
    Whole(usize),
    Longer,
}

// How the input ended, by what the read that brought nothing answered.
#[tactic(auto, unfolding(crate::specs::Input::ended_by))]
fn ended(got: io::Result<usize>, used: usize) -> io::Result<Input>
    ensures { result ≡ ended_by got used }
{
    got?;
    Ok(Input::Whole(used))
}

// Reads into the buffer until the input ends. A failed read is no end of the input, and input that
// fills the buffer is not taken for whole.
pub fn read<R: Read>(from: &mut R, buf: &mut [u8]) -> io::Result<Input>
    ensures room { LeavesRoom result (length buf.new) }
    ensures bytes { Reads (R.remaining from.old) (R.remaining from.new) result buf.new }
{
    let mut used = 0;
    // How much is read is the answer, and each read says how much more: no loop goes over the bytes.
    while used < buf.len() {
        let got = from.read(&mut buf[used..]);
        let more = got.unwrap_or(0);
        if more == 0 {
            return ended(got, used);
        }
        used += more;
    }
    Ok(Input::Longer)
}

// Zeros to be read into. A caller's proof knows their number and does not count them.
#[tactic(auto, unfolding(crate::specs::Input::AreZeros))]
pub fn room<const N: usize>() -> [u8; N]
    ensures size { N ≡ length result }
    ensures zeros { AreZeros result }
{
    [0; N]
}
