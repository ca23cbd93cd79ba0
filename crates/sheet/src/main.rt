// Keeps patch sheets as files: checks and lists them, reads, finds and adds records (README, "Sheets").

#![tactic(auto)]

mod file;
mod say;

ghost use Rattle.std.specs.Prelude.{◌≡◌, length};
ghost use Rattle.sheet.specs.Adding.{Adds};

use columns::RECORD_LINE;
use file::Names;
use input::Input;
use record::{Numbers, Refused};
use records::MOST_RECORDS;
use std::env::FillError;
use std::io;
use std::rt::{Env, Files};

// Room for a word of the command.
const WORD_ROOM: usize = 4096;

// The longest name of a file, so that `.new` has room after it.
const LONGEST_NAME: usize = WORD_ROOM - NEW.len() - 1;

const NEW: &[u8] = b".new";

// The lines of the most records.
const LIST_ROOM: usize = MOST_RECORDS * RECORD_LINE;

// The longest text of a cover, 1,048,576 bytes, and one byte more: what fills it is too long.
const TEXT_ROOM: usize = 1048577;

// Room for these: the numbers are promised here, so that others in the constants are refused.
fn list_room() -> [u8; LIST_ROOM]
    ensures { 201283 ≡ length result }
{
    input::room()
}

fn text_room() -> [u8; TEXT_ROOM]
    ensures { 1048577 ≡ length result }
{
    input::room()
}

fn word_room() -> [u8; WORD_ROOM]
    ensures { 4096 ≡ length result }
{
    input::room()
}

fn check(rt: &(impl Print + Eprint), s: &[u8]) {
    match records::check(s) {
        Ok(count) => say::count(rt, count),
        Err(refused) => say::refusal(rt, refused.refusal, refused.place),
    }
}

fn list(rt: &(impl Print + Eprint), s: &[u8]) {
    let mut out = list_room();
    match columns::of_sheet(s, &mut out) {
        Ok(used) => say::print(rt, &out[..used]),
        Err(refused) => say::refusal(rt, refused.refusal, refused.place),
    }
}

fn show(rt: &(impl Print + Eprint), s: &[u8], place: usize) {
    let mut out = [0u8; RECORD_LINE];
    match columns::of_place(s, place, &mut out) {
        Ok(used) => say::print(rt, &out[..used]),
        Err(refused) => say::refusal(rt, refused.refusal, refused.place),
    }
}

fn find(rt: &(impl Print + Eprint), s: &[u8], craft: u32, block: u32) {
    match finding::place_of(s, craft, block) {
        Ok(place) => show(rt, s, place),
        Err(refused) => say::refusal(rt, refused.refusal, refused.place),
    }
}

// Answers from the file that argument 2 names. Here and below `let .. else` says what is wrong and ends: there is no
// answer to hand an error on in.
fn look<R: Env + Files + Print + Eprint, F: FnOnce(&[u8])>(rt: &R, answer: F)
    requires { F.IsAlwaysCallable answer }
{
    let mut name = word_room();
    let Ok(length) = rt.arg(2, &mut name) else {
        say::long_name(rt);
        return;
    };
    let mut sheet = file::room();
    if let Some(used) = file::read(rt, &name[..length], &mut sheet) {
        answer(&sheet[..used]);
    }
}

// What is added under a number pair: a block of n inputs, or what a cover comes to. `Adds` speaks of it: it is what is
// filed, and no choice of steps.
#[derive(Clone, Copy)]
pub enum Offer {
    Block(u8),
    Cover,
}

#[derive(Clone, Copy)]
pub struct Order {
    pub craft: u32,
    pub block: u32,
    pub offer: Offer,
}

// Adds to the used part of the sheet what the order says: the ten bytes of a block, or a cover's text.
fn append_to(sheet: &mut [u8], used: usize, order: Order, given: &[u8]) -> Result<usize, Refused>
    ensures { Adds order given.now sheet.old used sheet.new result }
{
    let craft = order.craft;
    let block = order.block;
    match order.offer {
        Offer::Block(n) => append::append(sheet, used, Numbers { craft, block, n }, given),
        Offer::Cover => filing::of_cover(sheet, used, craft, block, given),
    }
}

// Adds the record, keeps the longer sheet and shows the record; a refusal leaves the file as it was.
fn add_record<R: Files + Print + Eprint>(
    rt: &R,
    names: Names,
    file: R::File,
    sheet: &mut [u8],
    used: usize,
    order: Order,
    given: &[u8],
) {
    match append_to(sheet, used, order, given) {
        Ok(longer) => {
            if file::keep(rt, file, names, &sheet[..longer]) {
                find(rt, &sheet[..longer], order.craft, order.block);
            }
        }
        Err(refused) => {
            file::discard(rt, file, names);
            say::refusal(rt, refused.refusal, refused.place);
        }
    }
}

// The new file is made before the old one is read, so that no other add comes between.
fn add_to(rt: &(impl Files + Print + Eprint), names: Names, order: Order, given: &[u8]) {
    let Some(file) = file::create(rt, names) else {
        return;
    };
    let mut sheet = file::room();
    match file::read(rt, names.sheet, &mut sheet) {
        Some(used) => add_record(rt, names, file, &mut sheet, used, order, given),
        None => file::discard(rt, file, names),
    }
}

// Adds to the file that argument 2 names. The new sheet is written beside it, in FILE.new.
fn add(rt: &(impl Env + Files + Print + Eprint), order: Order, given: &[u8]) {
    let mut name = word_room();
    let Ok(length) = rt.arg(2, &mut name) else {
        say::long_name(rt);
        return;
    };
    if LONGEST_NAME < length {
        say::long_name(rt);
        return;
    }
    let mut new = name;
    let end = length + NEW.len();
    new[length..end].copy_from_slice(NEW);
    let names = Names {
        sheet: &name[..length],
        new: &new[..end],
    };
    add_to(rt, names, order, given);
}

// The number that argument i, so named in the command, spells; where it spells none, that is said.
fn number(rt: &(impl Env + Eprint), i: usize, name: &str) -> Option<u32> {
    let mut word = word_room();
    let length = rt.arg(i, &mut word).unwrap_or(0);
    let number = digits::number_in(&word[..length]);
    if number.is_none() {
        say::no_number(rt, name);
    }
    number
}

#[tactic(auto, using(input::proofs::RoomLaws::whole_within, input::proofs::RoomLaws::whole_taken))]
fn add_cover(rt: &(impl Env + Files + io::Input + Print + Eprint), craft: u32, block: u32) {
    let mut text = text_room();
    let order = Order {
        craft,
        block,
        offer: Offer::Cover,
    };
    match input::read(&mut rt.reader(), &mut text) {
        Ok(Input::Whole(used)) => add(rt, order, &text[..used]),
        Ok(Input::Longer) => say::complain(rt, "sheet: the cover is longer than 1,048,576 bytes\n"),
        Err(why) => say::fail(rt, "sheet: the cover could not be read", why),
    }
}

fn add_block(rt: &(impl Env + Files + Print + Eprint), craft: u32, block: u32) {
    let Some(n) = number(rt, 5, "N") else {
        return;
    };
    let mut ten = word_room();
    let Ok(length) = rt.arg(6, &mut ten) else {
        say::no_bytes(rt);
        return;
    };
    let Some(many) = digits::bytes_in(&mut ten[..length]) else {
        say::no_bytes(rt);
        return;
    };
    let order = Order {
        craft,
        block,
        offer: Offer::Block(digits::byte_of(n)),
    };
    add(rt, order, &ten[..many]);
}

// The number pair that arguments 3 and 4 spell.
fn number_pair(rt: &(impl Env + Eprint)) -> Option<(u32, u32)> {
    let craft = number(rt, 3, "CRAFT")?;
    let block = number(rt, 4, "BLOCK")?;
    Some((craft, block))
}

fn obey_at(rt: &(impl Env + Files + Print + Eprint)) {
    if let Some(place) = number(rt, 3, "PLACE") {
        look(rt, |s| show(rt, s, place as usize));
    }
}

fn obey_find(rt: &(impl Env + Files + Print + Eprint)) {
    if let Some((craft, block)) = number_pair(rt) {
        look(rt, |s| find(rt, s, craft, block));
    }
}

fn obey_add_cover(rt: &(impl Env + Files + io::Input + Print + Eprint)) {
    if let Some((craft, block)) = number_pair(rt) {
        add_cover(rt, craft, block);
    }
}

fn obey_add_block(rt: &(impl Env + Files + Print + Eprint)) {
    if let Some((craft, block)) = number_pair(rt) {
        add_block(rt, craft, block);
    }
}

// Obeys a command that has so many words, the program's name among them.
fn obey(rt: &(impl Env + Files + io::Input + Print + Eprint), command: &[u8], words: usize) {
    match (command, words) {
        (b"check", 3) => look(rt, |s| check(rt, s)),
        (b"list", 3) => look(rt, |s| list(rt, s)),
        (b"at", 4) => obey_at(rt),
        (b"find", 5) => obey_find(rt),
        (b"add", 5) => obey_add_cover(rt),
        (b"add", 7) => obey_add_block(rt),
        _ => say::help(rt),
    }
}

// How many words there are, up to eight, the program's name among them.
fn word_count(rt: &impl Env) -> usize {
    (0..8)
        .find(|&i| matches!(rt.arg(i, &mut []), Err(FillError::NotPresent)))
        .unwrap_or(8)
}

fn main(rt: HostRuntime) {
    let mut command = word_room();
    let length = rt.arg(1, &mut command).unwrap_or(0);
    obey(&rt, &command[..length], word_count(&rt));
}
