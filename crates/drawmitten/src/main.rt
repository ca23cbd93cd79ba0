// Prints one line for the truth table on standard input: one byte n, then the table and nothing after
// it (README, "The program").

#![tactic(auto)]

ghost use Rattle.std.specs.Prelude.{◌≤◌, length};
ghost use Rattle.line.specs.Line.{enough};

use input::Input;
use line::{ENOUGH, LONGEST};

// A sentence that cannot be written is let go. This and `print` stand in each program: of what is written no contract
// speaks, so that a public function would promise nothing.
fn complain(rt: &impl Eprint, sentence: &str) {
    let _ = rt.eprint(sentence);
}

fn print(rt: &(impl Print + Eprint), text: &[u8]) {
    if rt.write_all(text).is_err() {
        complain(rt, "drawmitten: standard output could not be written\n");
    }
}

fn answer(rt: &(impl Print + Eprint), s: &[u8]) {
    let mut out = [0u8; LONGEST];
    let used = line::of_input(s, &mut out).unwrap();
    print(rt, &out[..used]);
}

// Input that filled the buffer is answered by its first bytes.
fn answer_first(rt: &(impl Print + Eprint), s: &[u8])
    requires { enough ≤ length s.now }
{
    answer(rt, s);
}

#[tactic(auto, using(input::proofs::RoomLaws::whole_within, input::proofs::RoomLaws::whole_taken))]
fn main(rt: HostRuntime) {
    let mut bytes = [0u8; ENOUGH];
    match input::read(&mut rt.stdin(), &mut bytes) {
        Ok(Input::Whole(used)) => answer(&rt, &bytes[..used]),
        Ok(Input::Longer) => answer_first(&rt, &bytes),
        Err(_) => complain(&rt, "drawmitten: standard input could not be read\n"),
    }
}
