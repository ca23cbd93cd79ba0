// Tests of the bytes of a word.
ghost use Rattle.std.specs.Prelude.{◌≡◌};
ghost use Rattle.bits.specs.Tests.{every};
ghost use Rattle.marks.specs.Marks.{is_mark};
ghost use Rattle.blif.specs.Part.{in_name, is_name};

fn in_name(b: u8) -> bool
    ensures { result ≡ in_name b }
{
    ((b' ' < b) & (b < 127)) & ((b != b'#') & (b != b'\\'))
}

fn is_mark(b: u8) -> bool
    ensures { result ≡ is_mark b }
{
    (b == b'0') | ((b == b'1') | (b == b'-'))
}

// Whether every byte may stand in a name.
pub(crate) fn is_name(word: &[u8]) -> bool
    ensures { result ≡ is_name word.now }
{
    word.iter().all(|&b| in_name(b))
}

// Whether every byte is a mark.
pub(crate) fn are_marks(word: &[u8]) -> bool
    ensures { result ≡ every is_mark word.now }
{
    word.iter().all(|&b| is_mark(b))
}
