// The first word of a text that cannot stand.
#![tactic(auto)]

ghost use Rattle.std.specs.Prelude.{◌≡◌, length};
ghost use Rattle.recognised.specs.Watching.{seen_after, begun_at, HadElse, Watched, Noted};
ghost use Rattle.recognised.specs.Recognised.{Recognised};

use steps::{Open, Want};

// Whether the if at the watched level has had its else, behind a word of that kind, where so many ifs are open.
fn seen_after(seen: bool, level: usize, watched: usize, kind: u8) -> bool
    ensures { result ≡ seen_after seen level watched kind }
{
    if level != watched {
        return seen;
    }
    (kind != kinds::THEN) & ((kind == kinds::ELSE) | seen)
}

// Whether the innermost of the open ifs has had its else, seen from a place where none was open.
fn watch(text: &[u8], from: usize, to: usize, ifs: usize) -> bool
    ensures { Watched text.now from to ifs result }
{
    let mut at = from;
    let mut level: usize = 0;
    let mut seen = false;
    // No count: a step is a word long.
    while at < to {
        let word = words::next_word(text, at);
        let kind = word.kind;
        if kind == kinds::END {
            return false;
        }
        level = steps::count(level, kind, kinds::THEN, kinds::ENDIF);
        seen = seen_after(seen, level, ifs, kind);
        at = word.end;
    }
    seen
}

// Marks the level of the innermost open if, behind a word of that kind.
fn note(marks: &mut [bool], level: usize, kind: u8)
    ensures { Noted marks.old level kind marks.new }
{
    if level < marks.len() {
        marks[level] = seen_after(marks[level], level, level, kind);
    }
}

// Whether the innermost of the open ifs has had its else, for a word of that kind: only else needs to know it. Its mark tells, or the
// text, where there are more levels than marks.
fn had_else(text: &[u8], from: usize, to: usize, ifs: usize, kind: u8, marks: &[bool]) -> bool
    ensures { HadElse text.now from to ifs kind marks.now result }
{
    if kind != kinds::ELSE {
        return false;
    }
    if ifs == 0 {
        return false;
    }
    if ifs < marks.len() {
        return marks[ifs];
    }
    watch(text, from, to, ifs)
}

// The last place where no if was open.
fn begun(from: usize, at: usize, ifs: usize) -> usize
    ensures { result ≡ begun_at from at ifs }
{
    if ifs == 0 {
        return at;
    }
    from
}

// Whether it is a text of the grammar; if it is none, where its first word stands that cannot.
pub fn first_wrong(text: &[u8]) -> Result<(), usize>
    ensures { Recognised text.now result }
{
    // No if is open, so no level is marked.
    let mut marks = [false; 16384];
    let mut want = Want::Start;
    let mut opened = Open {
        brackets: 0,
        nested: false,
        ifs: 0,
    };
    let mut from: usize = 0;
    let mut at: usize = 0;
    // No count: a step is a word long.
    loop {
        let word = words::next_word(text, at);
        let kind = word.kind;
        let had = had_else(text, from, at, opened.ifs, kind, &marks);
        let Some(next) = steps::step(want, opened, had, kind) else {
            return Err(word.start);
        };
        if kind == kinds::END {
            return Ok(());
        }
        want = next;
        opened = steps::behind(opened, kind);
        note(&mut marks, opened.ifs, kind);
        at = word.end;
        from = begun(from, at, opened.ifs);
    }
}
