// Answers questions about tables, blocks and a sheet: one a line on standard input, one line of answer
// each (README, "Asking").

#![tactic(auto)]

mod answer;
mod fields;
mod filed;
mod say;

use input::Input;

#[tactic(auto, using(input::proofs::RoomLaws::whole_within, input::proofs::RoomLaws::whole_taken))]
fn main(rt: HostRuntime) {
    let mut text = [0u8; 49152];
    match input::read(&mut rt.stdin(), &mut text) {
        Ok(Input::Whole(used)) => answers(&rt, &text[..used]),
        Ok(Input::Longer) => say::complain(&rt, "ask: more than 49,151 bytes of questions\n"),
        Err(_) => say::complain(&rt, "ask: standard input could not be read\n"),
    }
}

// The sheet has room for sixteen records, and none at the start; `append` takes it with its length in use.
fn answers(rt: &impl Print, text: &[u8]) {
    let mut sheet = [0u8; 224];
    let mut used = 0;
    for line in text.split_inclusive(|&b| b == b'\n') {
        let line = line.strip_suffix(b"\n").unwrap_or(line);
        used = answer::line(rt, line, &mut sheet, used);
    }
}
