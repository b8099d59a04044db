// The sheet of a text, written body by body into a lent buffer.
#![tactic(auto)]

ghost use Rattle.std.specs.Prelude.{◌≡◌, ◌≤◌};
ghost use Rattle.sheets.specs.Sheets.{body_size, states_size, body_sizes, sheet_size, table_size, WritesSheet};

use clauses::{write_actions, write_states};
use laying::{write_classes, write_contents};
use lists::Lists;
use pen::put_bytes;
use sizes::Sizes;
use statements::write_statements;
use whens::write_whens;

// The bytes of a body of so many records of that many bytes.
fn body_size(count: usize, bytes: usize) -> u16
    requires { bytes ≤ 8 }
    ensures { result ≡ body_size count bytes }
{
    (count % 8192 * bytes) as u16
}

// The bytes of so many state records: how long one is stands here alone.
fn state_records(count: usize) -> u16
    ensures { result ≡ states_size count }
{
    body_size(count, 4)
}

// The lengths of the six bodies.
fn body_sizes(classes: usize, n: Sizes) -> [u16; 6]
    ensures { result ≡ body_sizes classes n }
{
    [
        body_size(classes, 4),
        state_records(n.states),
        body_size(n.whens, 4),
        body_size(n.guards, 8),
        body_size(n.actions, 4),
        body_size(n.statements, 8),
    ]
}

// The sheet of a text that has these sizes and guard records.
pub fn write_sheet(text: &[u8], lists: Lists, n: Sizes, guards: &[u8], out: &mut [u8]) -> usize
    ensures { WritesSheet text.now lists.entry.commands.now lists.entry.classes.now n guards.now out.old out.new result }
{
    let a = write_contents(out, body_sizes(lists.classes.len() / 36, n));
    let b = write_classes(lists.classes, out, a);
    let c = write_states(text, out, b);
    let d = write_whens(text, out, c);
    let e = put_bytes(out, d, guards);
    let f = write_actions(text, lists.commands, out, e);
    write_statements(text, lists, out, f)
}

// The length of a sheet with so many records in its bodies.
pub fn sheet_length(classes: usize, n: Sizes) -> usize
    ensures { result ≡ sheet_size classes n }
{
    let clauses = n.whens % 8192 * 4 + n.actions % 8192 * 4;
    let records = n.guards % 8192 * 8 + n.statements % 8192 * 8;
    24 + classes % 8192 * 4 + (state_records(n.states) as usize) + clauses + records
}

// The length of the table of so many own states.
pub fn table_length(n: Sizes) -> usize
    ensures { result ≡ table_size n }
{
    n.states % 8192 * 32
}
