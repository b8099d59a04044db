// The fields of a file: the words of its lines, the ends of its lines, and the end of the file.
ghost use Rattle.std.specs.Prelude.{◌≡◌, ◌≤◌, ◌<◌, length};
ghost use Rattle.classfile.specs.Fields.{blank, white, Blanks, WordEnds, Next};

// What a field is.
#[derive(Clone, Copy)]
pub enum Kind {
    Word,
    LineEnd,
    FileEnd,
}

// A field: which it is, and where it starts and ends.
#[derive(Clone, Copy)]
pub struct Field {
    pub kind: Kind,
    pub start: usize,
    pub end: usize,
}

// White space within a line: blank, tab, carriage return.
#[tactic(auto, unfolding(crate::specs::Fields::blank))]
fn is_blank(b: u8) -> bool
    ensures { result ≡ blank b }
{
    b == b' ' || (b == b'\t' || b == b'\r')
}

// White space, or the end of a line.
#[tactic(auto, unfolding(crate::specs::Fields::white))]
fn is_white(b: u8) -> bool
    ensures { result ≡ white b }
{
    b == b'\n' || is_blank(b)
}

// The place of the next byte that is no white space within a line, or the end.
fn skip_blanks(file: &[u8], at: usize) -> usize
    requires { at ≤ length file.now }
    ensures { Blanks file.now at result }
{
    for i in at..file.len() {
        if !is_blank(file[i]) {
            return i;
        }
    }
    file.len()
}

// The end of the word that stands at a place.
fn word_end(file: &[u8], at: usize) -> usize
    requires { at < length file.now }
    ensures { WordEnds file.now at result }
{
    for i in at + 1..file.len() {
        if is_white(file[i]) {
            return i;
        }
    }
    file.len()
}

// The next field from a place on.
pub fn next_field(file: &[u8], at: usize) -> Field
    requires { at ≤ length file.now }
    ensures { Next file.now at result.kind result.start result.end }
{
    let start = skip_blanks(file, at);
    if file.len() <= start {
        return Field {
            kind: Kind::FileEnd,
            start,
            end: start,
        };
    }
    if file[start] == b'\n' {
        return Field {
            kind: Kind::LineEnd,
            start,
            end: start + 1,
        };
    }
    Field {
        kind: Kind::Word,
        start,
        end: word_end(file, start),
    }
}
