// The text of an accepted sheet's class, written into a lent buffer from a place on, as far as it reaches; the place behind it is answered.
#![tactic(auto)]

ghost use Rattle.std.specs.Prelude.{◌<◌};
ghost use Rattle.model.specs.Answers.{referrer_as};
ghost use Rattle.records.specs.Bytes.{in_fours};
ghost use Rattle.sheet.specs.Contents.{body};
ghost use Rattle.sheet.specs.Reading.{class_of};
ghost use Rattle.pen.specs.Writing.{Puts};
ghost use Rattle.lists.specs.Lent.{lists_of};
ghost use Rattle.writings.specs.Layout.{class_text, states_text};
ghost use Rattle.writings.specs.Writings.{named};
ghost use Rattle.classtext.specs.ClassText.{WhenOf, referrer_words, when_in_text, whens_text, action_in_text, actions_text, state_in_text};

use accepted::held::{ACTIONS, GUARDS, STATEMENTS, Sheet, WHENS};
use bodies::clauses::{ACTION_CLAUSES, WHEN_CLAUSES, action_command, guard_place, referrer_at};
use bodies::statements::statements_of;
use bodytext::put_part;
use guardtext::put_guard;
use lists::{Lists, Own};
use model::{OwnState, Referrer};
use pen::put_bytes;
use spelling::{put_characters, put_indent, put_name};

// A referrer in state q, whose action clauses stand from `first` on: a stay_in_state is written with q.
fn put_referrer(
    actions: &[u8],
    first: usize,
    q: OwnState,
    referrer: Referrer,
    own: &[u8],
    commands: &[u8],
    out: &mut [u8],
    at: usize,
) -> usize
    requires { first < 4000000000 }
    ensures { Puts (referrer_words actions.now first q.0 own.now commands.now (referrer_as referrer)) out.old at out.new result }
{
    match referrer {
        Referrer::MoveTo(t) => {
            let a = put_bytes(out, at, b"move_to ");
            put_name(out, a, own, 32, t.0 as usize)
        }
        Referrer::Do(n) => {
            let a = put_bytes(out, at, b"do ");
            let command = action_command(actions, first + n as usize);
            put_name(out, a, commands, 32, command as usize)
        }
        Referrer::Stay => {
            let a = put_bytes(out, at, b"stay_in_state ");
            put_name(out, a, own, 32, q.0 as usize)
        }
    }
}

// When clause w of state q.
fn put_when(
    sheet: Sheet,
    q: OwnState,
    w: usize,
    own: &[u8],
    lists: Lists,
    out: &mut [u8],
    at: usize,
) -> usize
    requires { WhenOf sheet.bytes.now q.0 w }
    ensures { Puts (when_in_text sheet.entry.bytes.now q.0 own.now (lists_of lists.entry) w) out.old at out.new result }
{
    let whens = sheet.body(WHENS);
    let a = put_indent(out, at, 2);
    let b = put_bytes(out, a, b"when ");
    let guards = sheet.body(GUARDS);
    let c = put_guard(guards, guard_place(whens, w), lists, out, b);
    let d = put_bytes(out, c, b" ");
    let clauses = sheet.clauses_of(q, ACTION_CLAUSES);
    let first = clauses.first;
    let actions = sheet.body(ACTIONS);
    let referrer = referrer_at(whens, w);
    let e = put_referrer(actions, first, q, referrer, own, lists.commands, out, d);
    put_bytes(out, e, b"\n")
}

// The when clauses of state q, in order.
fn put_whens(
    sheet: Sheet,
    q: OwnState,
    own: &[u8],
    lists: Lists,
    out: &mut [u8],
    at: usize,
) -> usize
    requires { q.0 < in_fours (body sheet.bytes.now 1) }
    ensures { Puts (whens_text sheet.entry.bytes.now q.0 own.now (lists_of lists.entry)) out.old at out.new result }
{
    let clauses = sheet.clauses_of(q, WHEN_CLAUSES);
    let first = clauses.first;
    let n = clauses.count;
    let mut end = at;
    for i in 0..n {
        end = put_when(sheet, q, first + i, own, lists, out, end);
    }
    end
}

// Action clause a of the sheet: its command, and its statements a level deeper.
fn put_action(sheet: Sheet, a: usize, own: &[u8], lists: Lists, out: &mut [u8], at: usize) -> usize
    requires { a < in_fours (body sheet.bytes.now 4) }
    ensures { Puts (action_in_text sheet.entry.bytes.now own.now (lists_of lists.entry) a) out.old at out.new result }
{
    let actions = sheet.body(ACTIONS);
    let b = put_indent(out, at, 2);
    let c = put_bytes(out, b, b"action: ");
    let d = put_name(
        out,
        c,
        lists.commands,
        32,
        action_command(actions, a) as usize,
    );
    let e = put_bytes(out, d, b"\n");
    let guards = sheet.body(GUARDS);
    let part = statements_of(actions, sheet.body(STATEMENTS), a);
    put_part(guards, part, 3, own, lists, out, e)
}

// The action clauses of state q, in order. One walk for both kinds of clauses would take what is written of each as a closure, and say it again.
fn put_actions(
    sheet: Sheet,
    q: OwnState,
    own: &[u8],
    lists: Lists,
    out: &mut [u8],
    at: usize,
) -> usize
    requires { q.0 < in_fours (body sheet.bytes.now 1) }
    ensures { Puts (actions_text sheet.entry.bytes.now q.0 own.now (lists_of lists.entry)) out.old at out.new result }
{
    let clauses = sheet.clauses_of(q, ACTION_CLAUSES);
    let first = clauses.first;
    let n = clauses.count;
    let mut end = at;
    for i in 0..n {
        end = put_action(sheet, first + i, own, lists, out, end);
    }
    end
}

// State q: its name, its when clauses, its action clauses.
fn put_state(
    sheet: Sheet,
    q: OwnState,
    own: &[u8],
    lists: Lists,
    out: &mut [u8],
    at: usize,
) -> usize
    requires { q.0 < in_fours (body sheet.bytes.now 1) }
    ensures { Puts (state_in_text sheet.entry.bytes.now q.0 own.now (lists_of lists.entry)) out.old at out.new result }
{
    let a = put_indent(out, at, 1);
    let b = put_bytes(out, a, b"state: ");
    let c = put_name(out, b, own, 32, q.0 as usize);
    let d = put_bytes(out, c, b"\n");
    let e = put_whens(sheet, q, own, lists, out, d);
    put_actions(sheet, q, own, lists, out, e)
}

// All states, in order.
fn put_states(sheet: Sheet, own: &[u8], lists: Lists, out: &mut [u8], at: usize) -> usize
    ensures { Puts (states_text own.now (lists_of lists.entry) 0 (class_of sheet.entry.bytes.now).states) out.old at out.new result }
{
    let n = sheet.state_count();
    let mut end = at;
    for q in 0..n {
        let here = OwnState(q as u8);
        end = put_state(sheet, here, own, lists, out, end);
    }
    end
}

// The whole text.
pub fn put_text(sheet: Sheet, own: Own, lists: Lists, out: &mut [u8], at: usize) -> usize
    ensures { Puts (class_text (named own.entry.name.now own.entry.states.now lists.entry.names.now lists.entry.commands.now lists.entry.classes.now) (class_of sheet.entry.bytes.now)) out.old at out.new result }
{
    let a = put_bytes(out, at, b"class: $FWPART_$TOP$");
    let b = put_characters(out, a, own.name);
    let c = put_bytes(out, b, b"\n");
    put_states(sheet, own.states, lists, out, c)
}
