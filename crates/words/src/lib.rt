// The next word of a line, the next line of a text, and words compared.

#![tactic(auto)]

ghost use Rattle.std.specs.Prelude.{◌≡◌, ℕ, ◌<◌, ◌≤◌, Bool, true, false, [], length};
ghost use Rattle.std.specs.List.{prefix_len};
ghost use Rattle.bits.specs.Tests.{alike};
ghost use Rattle.words.specs.Text.{separates};
ghost use Rattle.std.specs.Iterator.{YieldsFirstRef, YieldsFirstBy, item_count};
ghost use Rattle.words.specs.Text.{words_of, content_of};
ghost use Rattle.words.specs.Left.{words_left, lines_left, word_list};
ghost use Rattle.words.specs.Next.{in_word, in_line, past, ends_cr_lf, line_end, line_next, next_word, next_line};

// A word, from its first byte up to the byte after its last.
#[derive(Clone, Copy)]
pub struct Span {
    pub start: usize,
    pub end: usize,
}

// Where a line ends, and where the next one starts.
#[derive(Clone, Copy)]
pub struct Ends {
    pub end: usize,
    pub next: usize,
}

fn is_separator(b: u8) -> bool
    ensures { result ≡ separates b }
{
    (b == b' ') | (b == b'\t')
}

fn is_in_word(b: u8) -> bool
    ensures { result ≡ in_word b }
{
    !(is_separator(b) | (b == b'#'))
}

fn is_in_line(b: u8) -> bool
    ensures { result ≡ in_line b }
{
    b != b'\n'
}

// The first place from `at` on whose byte the test does not pass, or the end. By `take_while` over the bytes a
// cover was read a quarter slower.
fn past<F: Fn(u8) -> bool + Drop>(s: &[u8], at: usize, test: F) -> usize
    requires { F.IsAlwaysCallable test }
    ensures { (p : ℕ → Bool)
        → ((b : ℕ) (r : Bool) → F.post test b r → r ≡ p b)
        → result ≡ past p s.now at }
{
    let mut i = at;
    while i < s.len() {
        if !test(s[i]) {
            return i;
        }
        i += 1;
    }
    i
}

// Whether the LF at `feed`, which ends the line from `at` on, has a CR before it.
fn has_return(text: &[u8], at: usize, feed: usize) -> bool
    requires { feed < length text.now }
    ensures { result ≡ ends_cr_lf text.now at feed }
{
    if feed <= at {
        return false;
    }
    text[feed - 1] == b'\r'
}

// Where the bytes of the line from `at` on end; the end of the text ends a line too.
fn line_end(text: &[u8], at: usize, feed: usize) -> usize
    ensures { result ≡ line_end text.now at feed }
{
    if text.len() <= feed {
        return feed;
    }
    if has_return(text, at, feed) {
        return feed - 1;
    }
    feed
}

// Where the line after it starts.
fn line_next(text: &[u8], feed: usize) -> usize
    ensures { result ≡ line_next text.now feed }
{
    if feed < text.len() {
        return feed + 1;
    }
    feed
}

// The next word from `at` on, empty if there is none: it promises where the empty one stands too, which an `Option`
// would not say.
pub fn next_word(line: &[u8], at: usize) -> Span
    ensures { result ≡ next_word line.now at }
{
    let start = past(line, at, is_separator);
    Span {
        start,
        end: past(line, start, is_in_word),
    }
}

// The line from `at` on.
pub fn next_line(text: &[u8], at: usize) -> Ends
    ensures { result ≡ next_line text.now at }
{
    let feed = past(text, at, is_in_line);
    Ends {
        end: line_end(text, at, feed),
        next: line_next(text, feed),
    }
}

// Whether the two words are the same.
pub fn same(a: &[u8], b: &[u8]) -> bool
    ensures { result ≡ alike a.now b.now }
{
    a == b
}

// The words of a line that are left, as parts of the line.
#[derive(Clone, Copy)]
pub struct Words<'a> {
    pub rest: &'a [u8],
}

impl<'a> Words<'a> {
    pub fn of(line: &'a [u8]) -> Words<'a>
        ensures { words_left result ≡ words_of line.now }
    {
        Words { rest: line }
    }
}

impl<'a> Iterator for Words<'a> {
    type Item = &'a [u8];

    ghost next_gives = { YieldsFirstRef words_left };

    ghost remaining = { item_count words_left };

    fn next(&mut self) -> Option<&'a [u8]> {
        let line = self.rest;
        let word = next_word(line, 0);
        if word.start == word.end {
            return None;
        }
        let (_, after) = line.split_at(word.end);
        self.rest = after;
        Some(&line[word.start..word.end])
    }
}

// The text from its first byte on that is no separator: blanks and tabs in front of a line are in no word.
fn unindented(text: &[u8]) -> &[u8]
    ensures same { content_of result.now ≡ content_of text.now }
    ensures first { prefix_len separates result.now ≡ 0 }
    ensures within { length result.now ≤ length text.now }
{
    let (_, rest) = text.split_at(past(text, 0, is_separator));
    rest
}

// By its first byte: the word is looked for when it is asked for.
fn has_words(line: &[u8]) -> bool
    requires { prefix_len separates line.now ≡ 0 }
    ensures some { result ≡ true → 0 < length (words_of line.now) }
    ensures none { result ≡ false → words_of line.now ≡ [] }
{
    if line.is_empty() {
        return false;
    }
    is_in_word(line[0])
}

// The lines of a text that are left and have words, without what separates in front, as parts of the text.
#[derive(Clone, Copy)]
pub struct Lines<'a> {
    pub rest: &'a [u8],
}

impl<'a> Lines<'a> {
    pub fn of(text: &'a [u8]) -> Lines<'a>
        ensures { lines_left result ≡ content_of text.now }
    {
        Lines { rest: text }
    }
}

impl<'a> Iterator for Lines<'a> {
    type Item = &'a [u8];

    ghost next_gives = { YieldsFirstBy word_list lines_left };

    ghost remaining = { item_count lines_left };

    fn next(&mut self) -> Option<&'a [u8]> {
        let mut text = unindented(self.rest);
        while !text.is_empty() {
            let line = next_line(text, 0);
            let (_, rest) = text.split_at(line.next);
            self.rest = rest;
            let (line, _) = text.split_at(line.end);
            if has_words(line) {
                return Some(line);
            }
            text = unindented(rest);
        }
        self.rest = text;
        None
    }
}
