// A question is a name, what is asked, n, and what it is asked of, with one blank between words. Those
// about the sheet are in filed.rt.
ghost use Rattle.std.specs.Prelude.{◌≤◌};

use crate::{fields, filed, say};
use block::{FourPin, Parts};

// Four fields from byte p on, with rows in the two bytes from byte q on. The fields of a `FourPin` come from other
// places in each crate that makes one: nibbles, bytes, a key.
fn four_pin(s: &[u8], p: usize, q: usize) -> FourPin
    requires { (p ≤ 16) × (q ≤ 16) }
{
    FourPin {
        a: fields::at(s, p),
        b: fields::at(s, p + 1),
        c: fields::at(s, p + 2),
        d: fields::at(s, p + 3),
        rows: bits::join8(fields::at(s, q), fields::at(s, q + 1)),
    }
}

// Nine fields, the rows of F and of G in two bytes each, and those of H in one: fourteen bytes.
fn parts(s: &[u8]) -> Parts {
    Parts {
        f: four_pin(s, 0, 9),
        g: four_pin(s, 4, 11),
        direct: fields::at(s, 8),
        h: fields::at(s, 13),
    }
}

// The lent buffer is the first part of eleven bytes A5, and all eleven are printed.
fn pack(rt: &impl Print, n: u8, s: &[u8], room: usize) {
    if s.len() != 14 || 11 < room {
        say::unknown(rt);
        return;
    }
    let mut out = [0xA5u8; 11];
    let answer = codec::pack(n, parts(s), &mut out[..room]);
    say::counted(rt, answer.map(|used| used as u64));
    say::bytes(rt, &out);
}

// The type of the first tidy block that computes the table, and its ten bytes.
fn first(rt: &impl Print, n: u8, t: &[u8]) {
    let mut out = [0u8; 10];
    match matcher::first_match(n, t, &mut out) {
        Ok(_) => {
            say::typed(rt, types::type_of(n, &out));
            say::bytes(rt, &out);
        }
        Err(k) => say::counted(rt, Err(k)),
    }
}

// The questions that end in a number.
fn ask_with(rt: &impl Print, question: &[u8], n: u8, s: &[u8], last: &[u8]) {
    match question {
        _ if !fields::is_number(last) => say::unknown(rt),
        b"evaluate" => say::counted(
            rt,
            value::evaluate(n, s, fields::number(last)).map(u64::from),
        ),
        b"pack" => pack(rt, n, s, fields::number(last) as usize),
        _ => say::unknown(rt),
    }
}

fn ask(rt: &impl Print, question: &[u8], n: u8, s: &[u8], last: &[u8]) {
    match question {
        _ if !last.is_empty() => ask_with(rt, question, n, s, last),
        b"check" => say::counted(rt, codec::check(n, s).map(|()| 0)),
        b"type" => say::typed(rt, types::type_of(n, s)),
        b"match" => first(rt, n, s),
        _ => say::unknown(rt),
    }
}

// n counts as 255 where it is greater; a word of more than 65 bytes counts as 65.
fn asked(rt: &impl Print, question: &[u8], n: &[u8], given: &[u8], last: &[u8]) {
    if fields::is_number(n) && fields::is_bytes(given) {
        let mut data = [0u8; 65];
        let len = fields::bytes(given, &mut data);
        ask(rt, question, fields::byte(n), &data[..len], last);
    } else {
        say::unknown(rt);
    }
}

// The questions that leave the sheet as it is; a line that is none of them may be one about a block.
fn look(rt: &impl Print, line: &[u8], records: &[u8]) {
    if filed::asks(line, b"count", 0) {
        say::told(rt, records::check(records));
    } else if filed::asks(line, b"find", 2) {
        filed::find(rt, line, records);
    } else if filed::asks(line, b"place", 2) {
        filed::place(rt, line, records);
    } else if filed::asks(line, b"read", 1) {
        filed::read(rt, line, records);
    } else {
        asked(
            rt,
            fields::word(line, 1),
            fields::word(line, 2),
            fields::word(line, 3),
            fields::skip(line, 4),
        );
    }
}

// Answers the length of the sheet that is in use then. An empty line asks nothing.
fn question(rt: &impl Print, line: &[u8], sheet: &mut [u8], used: usize) -> usize {
    if line.is_empty() {
        return used;
    }
    if filed::asks_append(line) {
        return filed::append(rt, line, sheet, used);
    }
    look(rt, line, filed::in_use(sheet, used));
    used
}

// Prints the name and the answer, and answers the length of the sheet that is in use then.
pub(crate) fn line(rt: &impl Print, line: &[u8], sheet: &mut [u8], used: usize) -> usize {
    say::text(rt, fields::word(line, 0));
    let now = question(rt, line, sheet, used);
    say::line_end(rt);
    now
}
