// Prints one line for each request of the build on standard input: requests back to back, one byte n and
// then its table. For a build that is refused it says on standard error what the number means.

#![tactic(auto)]

ghost use Rattle.std.specs.Prelude.{◌≡◌, ◌≤◌, length};
ghost use Rattle.block.specs.Refusal.{number_of};
ghost use Rattle.listing.specs.Listing.{IsPrinted};

use block::Refusal;
use input::Input;

// The longest build, 65,536 bytes, and one byte more: what fills it is too long.
const ROOM: usize = 65537;

// The longest line for each of 32,768 requests: a request has two bytes or more.
const LINES_ROOM: usize = 819200;

// Room for the build, and for its lines: the numbers are promised here, so that others in the constants are refused.
fn room() -> [u8; ROOM]
    ensures { 65537 ≡ length result }
{
    input::room()
}

fn lines_room() -> [u8; LINES_ROOM]
    ensures { 819200 ≡ length result }
{
    input::room()
}

// A sentence that cannot be written is let go. This and `print` stand in each program: of what is written no contract
// speaks, so that a public function would promise nothing.
fn complain(rt: &impl Eprint, sentence: &str) {
    let _ = rt.eprint(sentence);
}

fn print(rt: &(impl Print + Eprint), text: &[u8]) {
    if rt.write_all(text).is_err() {
        complain(rt, "build: standard output could not be written\n");
    }
}

// What a refusal of the whole build means.
fn meaning(refusal: Refusal) -> &'static str
    requires { IsPrinted (number_of refusal) }
{
    match refusal {
        Refusal::BrokenBuild => {
            "build: 14 means that a request has n above 9, or that its table runs past the end\n"
        }
        _ => unreachable!(),
    }
}

// The text of the build, for which there is room.
fn answer(rt: &(impl Print + Eprint), build: &[u8])
    requires { length build.now ≤ 65536 }
{
    let mut text = lines_room();
    let said = listing::say(build, &mut text);
    let used = said.line.unwrap();
    print(rt, &text[..used]);
    if let Some(refusal) = said.refusal {
        complain(rt, meaning(refusal));
    }
}

// A build that is not read whole has no line.
#[tactic(auto, using(input::proofs::RoomLaws::whole_within, input::proofs::RoomLaws::whole_taken))]
fn main(rt: HostRuntime) {
    let mut bytes = room();
    match input::read(&mut rt.stdin(), &mut bytes) {
        Ok(Input::Whole(used)) => answer(&rt, &bytes[..used]),
        Ok(Input::Longer) => complain(&rt, "build: the build is longer than 65,536 bytes\n"),
        Err(_) => complain(&rt, "build: standard input could not be read\n"),
    }
}
