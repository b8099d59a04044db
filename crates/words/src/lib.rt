// The words of a text, found by place, with their kinds.
#![tactic(auto)]

ghost use Rattle.std.specs.Prelude.{◌≡◌, ◌+◌, ◌-◌, ◌≤◌, ◌<◌, length, drop, take};
ghost use Rattle.grammar.specs.Words.{white, name_char, run_length, same, begins, run_end, dollar_length, word_length};
ghost use Rattle.words.specs.Scanning.{Skipped, RunEnds, Next};

// White space.
fn is_white(b: u8) -> bool
    ensures { result ≡ white b }
{
    (b == 32) | ((b == 9) | ((b == 10) | (b == 13)))
}

// The place of the next byte that is no white space, or the end.
fn skip_white(text: &[u8], at: usize) -> usize
    requires { at ≤ length text.now }
    ensures { Skipped text.now at result }
{
    for i in at..text.len() {
        if !is_white(text[i]) {
            return i;
        }
    }
    text.len()
}

// The end of the run that stands at a place.
fn end_of_run(text: &[u8], at: usize) -> usize
    requires { at ≤ length text.now }
    ensures { RunEnds text.now at result }
{
    for i in at..text.len() {
        if !kinds::is_name_char(text[i]) {
            return i;
        }
    }
    text.len()
}

// The word stands at a place.
fn stands(word: &[u8], text: &[u8], at: usize) -> bool
    requires { at ≤ length text.now }
    ensures { result ≡ begins word.now (drop at text.now) }
{
    text[at..].starts_with(word)
}

// The end of a run, with the colon of class: state: action:
fn colon_end(text: &[u8], at: usize, end: usize) -> usize
    requires { (at ≤ end) × (end ≤ length text.now) }
    ensures { result ≡ at + run_end (drop at text.now) (end - at) }
{
    if text.len() <= end {
        return end;
    }
    if text[end] != b':' {
        return end;
    }
    let run = &text[at..end];
    if kinds::is_same(b"class", run)
        | (kinds::is_same(b"state", run) | kinds::is_same(b"action", run))
    {
        return end + 1;
    }
    end
}

// The end of the word that stands at a place.
fn word_end(text: &[u8], at: usize) -> usize
    requires { at < length text.now }
    ensures { result ≡ at + word_length (drop at text.now) }
{
    if kinds::is_name_char(text[at]) {
        let end = end_of_run(text, at);
        return colon_end(text, at, end);
    }
    if text[at] != b'$' {
        return at + 1;
    }
    if stands(b"$FWPART_$TOP$", text, at) {
        return at + 13;
    }
    if stands(b"$ANY$", text, at) | stands(b"$ALL$", text, at) {
        return at + 5;
    }
    at + 1
}

// A word: its kind, and where it starts and ends.
#[derive(Clone, Copy)]
pub struct Word {
    pub kind: u8,
    pub start: usize,
    pub end: usize,
}

// The end of the text, as a word.
fn end_word(at: usize) -> Word
    ensures { (result.kind ≡ 26) × ((result.start ≡ at) × (result.end ≡ at)) }
{
    Word {
        kind: kinds::END,
        start: at,
        end: at,
    }
}

// The next word from a place on.
pub fn next_word(text: &[u8], at: usize) -> Word
    ensures { Next text.now at result.kind result.start result.end }
{
    if text.len() <= at {
        return end_word(at);
    }
    let start = skip_white(text, at);
    if text.len() <= start {
        return end_word(start);
    }
    let end = word_end(text, start);
    let kind = kinds::kind_of(&text[start..end]);
    Word { kind, start, end }
}
