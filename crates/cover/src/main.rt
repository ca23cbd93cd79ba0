// Prints one line for a cover: the text on standard input, or in the file that is named (docs/COVERS.md).
// For a refusal it says on standard error what the number means. No name is ever printed.

#![tactic(auto)]

ghost use Rattle.std.specs.Prelude.{◌≡◌, length};
ghost use Rattle.block.specs.Refusal.{number_of};
ghost use Rattle.desk.specs.Desk.{IsTold};

use block::Refusal;
use input::Input;
use line::LONGEST;
use std::env::FillError;
use std::fs::File;
use std::io;
use std::io::Read;
use std::rt::{Env, Files};

// The longest text, 1,048,576 bytes, and one byte more: what fills it is too long.
const ROOM: usize = 1048577;

// Room for it: the number is promised here, so that another one in the constant is refused.
fn room() -> [u8; ROOM]
    ensures { 1048577 ≡ length result }
{
    input::room()
}

// A sentence that cannot be written is let go. This and `print` stand in each program: of what is written no contract
// speaks, so that a public function would promise nothing.
fn complain(rt: &impl Eprint, sentence: &str) {
    let _ = rt.eprint(sentence);
}

fn print(rt: &(impl Print + Eprint), text: &[u8]) {
    if rt.write_all(text).is_err() {
        complain(rt, "cover: standard output could not be written\n");
    }
}

// What a refusal means, of those that are told.
fn meaning(refusal: Refusal) -> &'static str
    requires { IsTold (number_of refusal) }
{
    match refusal {
        Refusal::TooManyInputs => "cover: 1 means that the part has more than nine inputs\n",
        Refusal::NoMatch => "cover: 4 means that no single block computes the function\n",
        Refusal::NoCover =>
            "cover: 15 means that the text is not one .names part (docs/COVERS.md says what is)\n",
        Refusal::NameTwice => "cover: 16 means that a name is used twice, the output's included\n",
        Refusal::BothOutputs =>
            "cover: 17 means that there are lines with output 1 and lines with output 0\n",
        _ => unreachable!(),
    }
}

fn answer(rt: &(impl Print + Eprint), text: &[u8]) {
    let mut out = [0u8; LONGEST];
    let said = desk::of_text(text, &mut out);
    let used = said.line.unwrap();
    print(rt, &out[..used]);
    if let Some(refusal) = said.refusal {
        complain(rt, meaning(refusal));
    }
}

// A text that is not read whole has no line.
#[tactic(auto, using(input::proofs::RoomLaws::whole_within, input::proofs::RoomLaws::whole_taken))]
fn answer_from<S: Read>(rt: &(impl Print + Eprint), from: &mut S) {
    let mut text = room();
    match input::read(from, &mut text) {
        Ok(Input::Whole(used)) => answer(rt, &text[..used]),
        Ok(Input::Longer) => complain(rt, "cover: the text is longer than 1,048,576 bytes\n"),
        Err(_) => complain(rt, "cover: the text could not be read\n"),
    }
}

// A name that is not UTF-8 opens nothing.
fn open<R: Files>(rt: &R, name: &[u8]) -> io::Result<R::File> {
    let path = str::from_utf8(name).map_err(|_| io::Error::from(io::ErrorKind::InvalidFilename))?;
    File::open(rt, path)
}

// A name that has no room here comes as an empty one, which opens nothing.
fn answer_file(rt: &(impl Env + Files + Print + Eprint)) {
    let mut name = [0u8; 4096];
    let length = rt.arg(1, &mut name).unwrap_or(0);
    match open(rt, &name[..length]) {
        Ok(mut file) => answer_from(rt, &mut file),
        Err(_) => complain(rt, "cover: the file could not be opened\n"),
    }
}

// Whether there is an argument with this number; the program's name has 0.
fn is_given(rt: &impl Env, i: usize) -> bool {
    !matches!(rt.arg(i, &mut []), Err(FillError::NotPresent))
}

fn main(rt: HostRuntime) {
    if is_given(&rt, 2) {
        complain(&rt, "cover: give no argument, or one, the name of a file\n");
    } else if is_given(&rt, 1) {
        answer_file(&rt);
    } else {
        answer_from(&rt, &mut rt.stdin());
    }
}
