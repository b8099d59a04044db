// Which word the bytes are: two strings compared, the number of a fixed word, a name.
#![tactic(auto)]

ghost use Rattle.std.specs.Prelude.{◌≡◌, ◌<◌, map, eqb, MatchOption};
ghost use Rattle.model.specs.Words.{every};
ghost use Rattle.grammar.specs.Words.{name_char, same, position, fixed_words, bare_runs, is_name};
ghost use Rattle.kinds.specs.Kind.{OfKind, Numbered};

// The kinds of words: a name, the fixed words in the order of their numbers, the end. They are numbers, since `fixed` of grammar/specs/Grammar
// and `kind_of` and `token_as` of grammar/specs/Kinds speak of a fixed word by its number.
pub const NAME: u8 = 0;

pub const CLASS: u8 = 1;

pub const STATE: u8 = 2;

pub const ACTION: u8 = 3;

pub const TOP: u8 = 4;

pub const ANY: u8 = 5;

pub const ALL: u8 = 6;

pub const WHEN: u8 = 7;

pub const MOVE_TO: u8 = 8;

pub const DO: u8 = 9;

pub const STAY: u8 = 10;

pub const IF: u8 = 11;

pub const THEN: u8 = 12;

pub const ELSE: u8 = 13;

pub const ENDIF: u8 = 14;

pub const AND: u8 = 15;

pub const OR: u8 = 16;

pub const NOT: u8 = 17;

pub const IN: u8 = 18;

pub const NOT_IN: u8 = 19;

pub const CHILDREN: u8 = 20;

pub const OPEN: u8 = 21;

pub const CLOSE: u8 = 22;

pub const LEFT: u8 = 23;

pub const RIGHT: u8 = 24;

pub const COMMA: u8 = 25;

pub const END: u8 = 26;

// No word of the grammar.
const NOWHERE: u8 = 27;

// Two strings of bytes are the same.
pub fn is_same(a: &[u8], b: &[u8]) -> bool
    ensures { result ≡ same a.now b.now }
{
    a == b
}

// The number of a word in a table, if it is there.
fn number_among(table: &[&[u8]], word: &[u8]) -> Option<usize>
    ensures { Numbered (map (λ t. t.now) table.now) word.now result }
{
    table.iter().position(|entry| is_same(entry, word))
}

// The number of the fixed word, if it is one.
pub fn fixed_number(word: &[u8]) -> Option<usize>
    ensures { MatchOption result (position fixed_words word.now ≡ 25) (λ k. (k ≡ position fixed_words word.now) × (k < 25)) }
{
    let fixed: [&[u8]; 25] = [
        b"class:",
        b"state:",
        b"action:",
        b"$FWPART_$TOP$",
        b"$ANY$",
        b"$ALL$",
        b"when",
        b"move_to",
        b"do",
        b"stay_in_state",
        b"if",
        b"then",
        b"else",
        b"endif",
        b"and",
        b"or",
        b"not",
        b"in_state",
        b"not_in_state",
        b"FwCHILDREN",
        b"(",
        b")",
        b"{",
        b"}",
        b",",
    ];
    number_among(&fixed, word)
}

// No run of which fixed words are made.
fn is_plain(word: &[u8]) -> bool
    ensures { result ≡ eqb (position bare_runs word.now) 7 }
{
    let bare: [&[u8]; 7] = [
        b"class", b"state", b"action", b"FWPART_", b"TOP", b"ANY", b"ALL",
    ];
    number_among(&bare, word).is_none()
}

// A character of names.
pub fn is_name_char(b: u8) -> bool
    ensures { result ≡ name_char b }
{
    b.is_ascii_alphanumeric() | (b == b'_')
}

// Every byte is a character of names.
fn all_name_chars(word: &[u8]) -> bool
    ensures { result ≡ every name_char word.now }
{
    word.iter().all(|b| is_name_char(*b))
}

// A name: 1 to 31 of its characters, and no word of the grammar.
pub fn is_name(word: &[u8]) -> bool
    ensures { result ≡ is_name word.now }
{
    if word.len() < 1 {
        return false;
    }
    if 31 < word.len() {
        return false;
    }
    if !all_name_chars(word) {
        return false;
    }
    if fixed_number(word).is_some() {
        return false;
    }
    is_plain(word)
}

// The kind of a word: 0 for a name, one more than its number for a fixed word, 27 for one that stands nowhere.
pub fn kind_of(word: &[u8]) -> u8
    ensures { OfKind word.now result }
{
    if let Some(number) = fixed_number(word) {
        return number as u8 + 1;
    }
    if is_name(word) { NAME } else { NOWHERE }
}
