// The atom that stands behind a quantifier.
#![tactic(auto)]

ghost use Rattle.std.specs.Prelude.{◌≡◌, ◌<◌, ◌≤◌};
ghost use Rattle.grammar.specs.Kinds.{token_as};
ghost use Rattle.naming.specs.NameLists.{records_in, number_in};
ghost use Rattle.words.specs.Scanning.{tokens_from};
ghost use Rattle.ordering.specs.Ordering.{pattern_in, with_name, braced, set_ahead, side_ahead, atom_ahead};

use kinds::{END, IN, LEFT, NAME, NOT_IN, RIGHT};
use lists::{Lists, number_in, record_count};
use model::ChildName;
use records::sets::has_name;
use words::next_word;

// The number of a name in a list; where it is not there, that of the list's records. It is a number in either case, since `pattern_in` and
// `with_name` of ordering/specs/Ordering go by the number that `number_in` of naming/specs/NameLists gives.
fn number(list: &[u8], size: usize, word: &[u8]) -> usize
    requires { 32 ≤ size }
    ensures { result ≡ number_in (records_in size list.now) word.now }
{
    let found = number_in(list, size, word);
    match found {
        Some(i) => i,
        None => record_count(list, size),
    }
}

// The pattern of a kin: the number of its class, or 255, as `pattern_number` of encoding/specs/Encoding has it.
fn pattern_in(classes: &[u8], kind: u8, word: &[u8]) -> u8
    ensures { result ≡ pattern_in (records_in 36 classes.now) (token_as kind word.now) }
{
    if kind != NAME {
        return 255;
    }
    let i = number(classes, 36, word);
    if 255 <= i {
        return 255;
    }
    i as u8
}

// A set with the bit of a name, once.
fn with_name(names: &[u8], set: u32, word: &[u8]) -> u32
    ensures { result ≡ with_name (records_in 32 names.now) set word.now }
{
    let i = number(names, 32, word);
    if 32 <= i {
        return set;
    }
    set | (1 << i)
}

// A set with the names up to the brace that closes.
#[tactic(auto, using(crate::proofs::AtomSteps::braced_goes))]
fn braced(text: &[u8], at: usize, names: &[u8]) -> u32
    ensures { result ≡ braced (records_in 32 names.now) (tokens_from text.now at) 0 }
{
    let mut set: u32 = 0;
    let mut i = at;
    // No count: a step is a word long.
    loop {
        let word = next_word(text, i);
        let kind = word.kind;
        let start = word.start;
        let end = word.end;
        if (kind == RIGHT) | (kind == END) {
            return set;
        }
        i = end;
        if kind == NAME {
            set = with_name(names, set, &text[start..end]);
        }
    }
}

// The set that stands at a place: one name, or names in braces.
#[tactic(auto, using(crate::proofs::AtomSteps::goes))]
fn set_ahead(text: &[u8], at: usize, names: &[u8]) -> u32
    ensures { result ≡ set_ahead (records_in 32 names.now) (tokens_from text.now at) }
{
    let word = next_word(text, at);
    let kind = word.kind;
    let start = word.start;
    let end = word.end;
    if kind == NAME {
        return with_name(names, 0, &text[start..end]);
    }
    if kind == LEFT {
        return braced(text, end, names);
    }
    0
}

// What stands behind a kin: in_state or not_in_state and a set, which make an atom of this kind and pattern, or no atom.
fn side_ahead(text: &[u8], at: usize, kind: u8, pattern: u8, names: &[u8]) -> Option<(u8, u8, u32)>
    requires { kind < 255 }
    ensures { result ≡ side_ahead (records_in 32 names.now) kind pattern (tokens_from text.now at) }
{
    let word = next_word(text, at);
    let side = word.kind;
    let end = word.end;
    if side == IN {
        return Some((kind, pattern, set_ahead(text, end, names)));
    }
    if side == NOT_IN {
        return Some((kind + 1, pattern, set_ahead(text, end, names)));
    }
    None
}

// What stands behind a quantifier: an atom's kind, pattern and name set, or no atom.
#[tactic(auto, using(crate::proofs::AtomSteps::goes))]
pub fn atom_ahead(text: &[u8], at: usize, kind: u8, lists: Lists) -> Option<(u8, u8, u32)>
    requires { kind < 255 }
    ensures { result ≡ atom_ahead (records_in 32 lists.entry.names.now) (records_in 36 lists.entry.classes.now) kind (tokens_from text.now at) }
{
    let kin = next_word(text, at);
    let of = kin.kind;
    let start = kin.start;
    let end = kin.end;
    if of == END {
        return None;
    }
    let pattern = pattern_in(lists.classes, of, &text[start..end]);
    side_ahead(text, end, kind, pattern, lists.names)
}
