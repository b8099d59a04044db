// The judge: every byte string is accepted, with the places of its six bodies, or gets the number of the first rule that it breaks.
ghost use Rattle.std.specs.Prelude.{◌≡◌, ◌+◌, ◌*◌, ◌<◌};
ghost use Rattle.sheet.specs.Contents.{start, size, count_right, bodies_follow, counts_in_range};
ghost use Rattle.sheet.specs.Rules.{refusal_in};
ghost use Rattle.sheet.specs.Verdict.{places_of, verdict_numbers, refused_number, verdict, together, ShortBodies, Found};

use bodies::checks::{
    actions_ok, classes_ok, counts_ok, guards_ok, records_ok, statements_ok, targets_ok,
};
use model::Refusal;
use records::words::u16_at;

// Where each of the six bodies starts; each ends where the next starts, and the last ends with the sheet.
#[derive(Clone, Copy)]
pub struct Places {
    pub classes: usize,
    pub states: usize,
    pub whens: usize,
    pub guards: usize,
    pub actions: usize,
    pub statements: usize,
}

const RECORD_BYTES: [usize; 6] = [4, 4, 4, 8, 4, 8];

const FEWEST: [usize; 6] = [0, 1, 0, 0, 0, 0];

const MOST: [usize; 6] = [8, 32, 256, 1024, 256, 1024];

// Where body k starts, as the contents say.
fn start(sheet: &[u8], k: usize) -> usize
    requires { k < 6 }
    ensures { (result ≡ start sheet.now k) × (result < 65536) }
{
    u16_at(sheet, k * 4)
}

// The length of body k in bytes, as the contents say.
fn size(sheet: &[u8], k: usize) -> usize
    requires { k < 6 }
    ensures { (result ≡ size sheet.now k) × (result < 65536) }
{
    u16_at(sheet, k * 4 + 2)
}

// Body k is a whole number of records, in the table's range.
fn count_ok(sheet: &[u8], k: usize) -> bool
    requires { k < 6 }
    ensures { result ≡ count_right sheet.now k }
{
    let bytes = RECORD_BYTES[k];
    let least = FEWEST[k];
    let largest = MOST[k];
    let n = size(sheet, k);
    (n % bytes == 0) & ((least <= n / bytes) & (n / bytes <= largest))
}

// Every body is a whole number of records, in the table's range.
fn counts_in_range(sheet: &[u8]) -> bool
    ensures { result ≡ counts_in_range sheet.now }
{
    (0..6).all(|k| count_ok(sheet, k))
}

// The first body starts at byte 24, each next one where the one before ended, the last ends with the sheet.
fn bodies_follow(sheet: &[u8]) -> bool
    ensures { result ≡ bodies_follow sheet.now }
{
    let end = start(sheet, 5) + size(sheet, 5);
    start(sheet, 0) == 24
        && ((0..5).all(|k| start(sheet, k + 1) == start(sheet, k) + size(sheet, k))
            && end == sheet.len())
}

// The places that the contents name.
fn read_places(sheet: &[u8]) -> Places
    ensures { result ≡ places_of sheet.now }
{
    Places {
        classes: start(sheet, 0),
        states: start(sheet, 1),
        whens: start(sheet, 2),
        guards: start(sheet, 3),
        actions: start(sheet, 4),
        statements: start(sheet, 5),
    }
}

// The rules 3 to 9, in their order, each on the bodies that it speaks of: the first that is broken, if any.
fn judge_bodies(
    classes: &[u8],
    states: &[u8],
    whens: &[u8],
    guards: &[u8],
    actions: &[u8],
    statements: &[u8],
) -> Result<(), Refusal>
    requires { ShortBodies classes.now states.now whens.now actions.now }
    ensures { refused_number result ≡ refusal_in (together classes.now states.now whens.now guards.now actions.now statements.now) }
{
    if !classes_ok(classes) {
        return Err(Refusal::EmptyNameSet);
    }
    if !counts_ok(states, whens, actions) {
        return Err(Refusal::ClauseCounts);
    }
    if !records_ok(classes, guards) {
        return Err(Refusal::GuardLayout);
    }
    if !guards_ok(guards, whens) {
        return Err(Refusal::GuardReach);
    }
    if !targets_ok(states, whens) {
        return Err(Refusal::Target);
    }
    if !actions_ok(states, actions, statements) {
        return Err(Refusal::ActionClause);
    }
    if !statements_ok(classes, states, guards, actions, statements) {
        return Err(Refusal::Statement);
    }
    Ok(())
}

// The places of the bodies of a byte string that keeps the rules 1 and 2; they rise.
fn find_places(sheet: &[u8]) -> Result<Places, Refusal>
    ensures { Found sheet.now result }
{
    let end = sheet.len();
    if (end < 24) | (18616 < end) {
        return Err(Refusal::SheetLength);
    }
    if !(bodies_follow(sheet) & counts_in_range(sheet)) {
        return Err(Refusal::Contents);
    }
    Ok(read_places(sheet))
}

// The verdict of a byte string offered as a sheet, the places of its bodies or its refusal: each body is handed on as a part that starts
// in the sheet's middle.
pub fn judge(sheet: &[u8]) -> Result<Places, Refusal>
    ensures { verdict_numbers result ≡ verdict sheet.now }
{
    let p = find_places(sheet)?;
    judge_bodies(
        &sheet[p.classes..p.states],
        &sheet[p.states..p.whens],
        &sheet[p.whens..p.guards],
        &sheet[p.guards..p.actions],
        &sheet[p.actions..p.statements],
        &sheet[p.statements..],
    )?;
    Ok(p)
}
