// What is printed: answers, and what went wrong.
use block::{Kind, Refusal};
use finding::Reading;
use record::Refused;

// What cannot be written is let go, here and below. Each program has such a function of its own: of what is written
// no contract speaks, so that a public one would promise nothing.
pub(crate) fn complain(rt: &impl Eprint, sentence: &str) {
    let _ = rt.eprint(sentence);
}

pub(crate) fn text(rt: &impl Print, text: &[u8]) {
    let _ = rt.write_all(text);
}

pub(crate) fn line_end(rt: &impl Print) {
    text(rt, b"\n");
}

// What is answered to a line that is no question.
pub(crate) fn unknown(rt: &impl Print) {
    text(rt, b" ?");
}

fn number(rt: &impl Print, x: u64) {
    let _ = print!(rt; " {x}");
}

fn refusal(rt: &impl Print, k: Refusal) {
    let _ = print!(rt; " R {}", block::number(k));
}

fn refusal_at(rt: &impl Print, refused: Refused) {
    refusal(rt, refused.refusal);
    number(rt, refused.place as u64);
}

pub(crate) fn counted(rt: &impl Print, answer: Result<u64, Refusal>) {
    match answer {
        Ok(count) => number(rt, count),
        Err(k) => refusal(rt, k),
    }
}

pub(crate) fn told(rt: &impl Print, answer: Result<usize, Refused>) {
    match answer {
        Ok(value) => number(rt, value as u64),
        Err(refused) => refusal_at(rt, refused),
    }
}

pub(crate) fn typed(rt: &impl Print, answer: Result<Kind, Refusal>) {
    match answer {
        Ok(kind) => {
            let letter = types::letter_code(kind.letter) as char;
            let _ = print!(rt; " {letter}-{}", kind.digit);
        }
        Err(k) => refusal(rt, k),
    }
}

// Bytes in hexadecimal capitals.
pub(crate) fn bytes(rt: &impl Print, s: &[u8]) {
    text(rt, b" ");
    for byte in s {
        let _ = print!(rt; "{byte:02X}");
    }
}

// The numbers of a record and its ten bytes.
pub(crate) fn reading(rt: &impl Print, answer: Result<Reading, Refused>) {
    match answer {
        Ok(record) => {
            let x = record.numbers;
            let _ = print!(rt; " {} {} {}", x.craft, x.block, x.n);
            bytes(rt, &record.ten);
        }
        Err(refused) => refusal_at(rt, refused),
    }
}
