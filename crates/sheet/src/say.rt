// What is printed: answers on standard output, sentences on standard error.
use block::Refusal;
use std::io;
use std::io::Write;
use text::PLACED_LINE;

const HELP: &str = "usage: sheet check FILE                  the number of records
       sheet list FILE                   the records, a line each
       sheet at FILE PLACE               the record at a place, counted from 0
       sheet find FILE CRAFT BLOCK       the record with these numbers
       sheet add FILE CRAFT BLOCK N TEN  adds a block of N inputs, in hexadecimal
       sheet add FILE CRAFT BLOCK        adds the block of a cover on standard input
A line: place, spacecraft number, block number, n, type, ten bytes. A refusal: R,
its number, the place of the record, or 0. The exit status is 0 in any case.
Numbers are decimal digits. A new sheet is an empty file.
Adding writes FILE.new, flushes it to disk and gives it the name FILE; FILE has
to be a plain file. Not kept of it: mode, owner, other names, a link in its place.
While FILE.new is there, no other add is taken. An add that was killed leaves it,
and FILE as it was: if no add is at work, remove FILE.new.
";

// A sentence that cannot be written is let go. This and `print` stand in each program: of what is written no contract
// speaks, so that a public function would promise nothing.
pub(crate) fn complain(rt: &impl Eprint, sentence: &str) {
    let _ = rt.eprint(sentence);
}

// What stands before the number of the system's error, and before the zeros after it.
fn reason(text: &str) -> &str {
    let text = text.trim_end_matches('\0');
    match text.split_once(" (os error ") {
        Some((reason, _)) => reason,
        None => text,
    }
}

// Says what failed, and what the system says of it.
pub(crate) fn fail(rt: &impl Eprint, what: &str, why: io::Error) {
    let mut text = [0u8; 256];
    let _ = write!(&mut text[..], "{why}");
    let why = reason(str::from_utf8(&text).unwrap_or(""));
    let _ = eprintln!(rt; "{what}: {why}");
}

pub(crate) fn print(rt: &(impl Print + Eprint), text: &[u8]) {
    if rt.write_all(text).is_err() {
        complain(
            rt,
            "sheet: standard output could not be written; what was added is added\n",
        );
    }
}

pub(crate) fn count(rt: &(impl Print + Eprint), count: usize) {
    let mut out = [0u8; PLACED_LINE];
    let used = text::of_count(count, &mut out).unwrap();
    print(rt, &out[..used]);
}

// The line of a refusal, and what its number means. The place comes by itself: how great it can be is known of a
// parameter, and tried with `Refused` it was not of a field.
pub(crate) fn refusal(rt: &(impl Print + Eprint), k: Refusal, place: usize) {
    let mut out = [0u8; PLACED_LINE];
    let used = text::of_refusal_at(k, place, &mut out).unwrap();
    print(rt, &out[..used]);
    complain(rt, meaning(k));
}

fn meaning(k: Refusal) -> &'static str {
    match k {
        Refusal::TooManyInputs =>
            "sheet: 1 means that n, or a cover's number of inputs, is above 9\n",
        Refusal::WrongLength => {
            "sheet: 2 means a wrong length: a sheet has up to 4,681 records of 14 bytes, a block ten bytes\n"
        }
        Refusal::PaddingSet => "sheet: 3 means that a table's padding is not zero\n",
        Refusal::NoMatch => "sheet: 4 means that no single block computes the function\n",
        Refusal::NoRoom => "sheet: 5 means that there are 4,681 records already\n",
        Refusal::StrayField => "sheet: 6 means that a pin field is neither below n nor 15\n",
        Refusal::OutOfOrder => {
            "sheet: 7 means that F or G is out of order, repeated, or open before carried\n"
        }
        Refusal::OpenRowSet => "sheet: 8 means that a row that needs a 0 on an open pin is set\n",
        Refusal::LastBitsSet => "sheet: 9 means that the last four bits are not zero\n",
        Refusal::Unassigned => {
            "sheet: 10 means a spacecraft number not from 1 to 65,535, or a block number above 4,095\n"
        }
        Refusal::NotAbove => "sheet: 11 means that the number pair is not above the one before\n",
        Refusal::NotThere => "sheet: 12 means that no record has that number pair, or place\n",
        Refusal::NoSuchRow => "sheet: 13 means a row number of 2^n or more\n",
        Refusal::BrokenBuild => "sheet: 14 means a build with a broken request\n",
        Refusal::NoCover => "sheet: 15 means that the cover is not one .names part\n",
        Refusal::NameTwice => "sheet: 16 means that a name of the cover is used twice\n",
        Refusal::BothOutputs => "sheet: 17 means that the cover has lines with both outputs\n",
    }
}

pub(crate) fn long_name(rt: &impl Eprint) {
    complain(rt, "sheet: the file's name is too long\n");
}

// `name` is the argument's name in the command.
pub(crate) fn no_number(rt: &impl Eprint, name: &str) {
    let _ = eprintln!(rt; "sheet: {name} is no number: give up to 4,096 decimal digits");
}

pub(crate) fn no_bytes(rt: &impl Eprint) {
    complain(
        rt,
        "sheet: TEN is no bytes: give twenty hexadecimal digits\n",
    );
}

// The new file of another add, or of one that was killed.
pub(crate) fn left_over(rt: &impl Eprint) {
    complain(
        rt,
        "sheet: FILE.new is there already: if no add is at work, one was killed; remove it\n",
    );
}

pub(crate) fn help(rt: &impl Eprint) {
    complain(rt, HELP);
}
