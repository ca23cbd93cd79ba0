// Questions about the one sheet that the program keeps. After the name and what is asked, a line has
// numbers: of a spacecraft or a block, or a place, which count as 4294967295 where they are greater, and
// n, which counts as 255.
ghost use Rattle.std.specs.Prelude.{◌≤◌};

use crate::{fields, say};
use record::Numbers;

// Whether the line asks this, with so many numbers and nothing after them.
pub(crate) fn asks(line: &[u8], question: &[u8], count: usize) -> bool
    requires { count ≤ 2 }
{
    let end = 2 + count;
    fields::word(line, 1) == question
        && fields::are_numbers(line, 2, end)
        && fields::skip(line, end).is_empty()
}

// Whether the line asks to append, with three numbers, bytes and nothing after them.
pub(crate) fn asks_append(line: &[u8]) -> bool {
    fields::word(line, 1) == b"append".as_slice()
        && fields::are_numbers(line, 2, 5)
        && fields::is_bytes(fields::word(line, 5))
        && fields::skip(line, 6).is_empty()
}

// The records of the sheet: the part in use, and never more than there is.
pub(crate) fn in_use(sheet: &[u8], used: usize) -> &[u8] {
    &sheet[..used.min(sheet.len())]
}

// The numbers after what is asked; n is 0 where there is none.
fn numbers(line: &[u8]) -> Numbers {
    Numbers {
        craft: fields::number(fields::word(line, 2)),
        block: fields::number(fields::word(line, 3)),
        n: fields::byte(fields::word(line, 4)),
    }
}

// Answers the length in use then; more than eleven bytes count as eleven.
pub(crate) fn append(rt: &impl Print, line: &[u8], sheet: &mut [u8], used: usize) -> usize {
    let mut data = [0u8; 11];
    let len = fields::bytes(fields::word(line, 5), &mut data);
    let answer = append::append(sheet, used, numbers(line), &data[..len]);
    say::told(rt, answer);
    answer.unwrap_or(used)
}

pub(crate) fn place(rt: &impl Print, line: &[u8], records: &[u8]) {
    let x = numbers(line);
    say::told(rt, finding::place_of(records, x.craft, x.block));
}

// The ten bytes that are found; where there are none, the refusal.
pub(crate) fn find(rt: &impl Print, line: &[u8], records: &[u8]) {
    let x = numbers(line);
    let ten = finding::find(records, x.craft, x.block);
    if ten.is_empty() {
        place(rt, line, records);
    } else {
        say::bytes(rt, ten);
    }
}

pub(crate) fn read(rt: &impl Print, line: &[u8], records: &[u8]) {
    say::reading(
        rt,
        finding::read(records, fields::number(fields::word(line, 2)) as usize),
    );
}
