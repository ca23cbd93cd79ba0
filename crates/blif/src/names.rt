// The line that opens a part: the word `.names`, then names.
ghost use Rattle.std.specs.Prelude.{◌≡◌};
ghost use Rattle.words.specs.Left.{words_left};
ghost use Rattle.blif.specs.Part.{repeats};
ghost use Rattle.blif.specs.Reading.{Opens};

use crate::bytes;
use block::Refusal;
use words::Words;

// The names of a part, the output's as the last, and how many inputs they name.
#[derive(Clone, Copy)]
pub struct Names<'a> {
    pub words: Words<'a>,
    pub inputs: usize,
}

// Whether a word stands among these twice.
pub(crate) fn repeats(words: Words) -> bool
    ensures { result ≡ repeats (words_left words.entry) }
{
    let mut rest = words;
    while let Some(name) = rest.next() {
        let mut others = rest;
        if others.any(|other| words::same(name, other)) {
            return true;
        }
    }
    false
}

// The names on the line that opens a part, if it does.
pub(crate) fn open(line: &[u8]) -> Result<Names, Refusal>
    ensures { Opens line.now result }
{
    let mut words = Words::of(line);
    let first = words.next().ok_or(Refusal::NoCover)?;
    if !words::same(first, b".names") {
        return Err(Refusal::NoCover);
    }
    // Tried and counted in one walk: a second one over many names would show.
    let mut many = 0;
    for name in words {
        if !bytes::is_name(name) {
            return Err(Refusal::NoCover);
        }
        many += 1;
    }
    if many == 0 {
        return Err(Refusal::NoCover);
    }
    Ok(Names {
        words,
        inputs: many - 1,
    })
}
