// A sheet judged once: its bytes with the places of its bodies, read without a copy.
ghost use Rattle.std.specs.Prelude.{◌≡◌, ◌<◌, length, Err, IfOk, IfErr};
ghost use Rattle.model.specs.Words.{Bytes};
ghost use Rattle.sheet.specs.Contents.{body};
ghost use Rattle.sheet.specs.Verdict.{Stands, verdict, verdict_numbers};
ghost use Rattle.accepted.specs.Runs.{place_at};

use model::Refusal;
use sheet::judging::{Places, judge};

// Bodies by their number in the contents.
pub const CLASSES: usize = 0;

pub const STATES: usize = 1;

pub const WHENS: usize = 2;

pub const GUARDS: usize = 3;

pub const ACTIONS: usize = 4;

pub const STATEMENTS: usize = 5;

// An accepted sheet, and where each of its bodies starts. Whoever makes one shows that the sheet is accepted and that these are its places.
#[derive(Clone, Copy)]
pub struct Sheet<'a> {
    pub bytes: &'a [u8],
    pub places: Places,
    ghost stands: { Stands bytes.now places },
    ghost small: { Bytes bytes.now },
}

impl<'a> Sheet<'a> {
    // The sheet that these bytes are, or the number of the first rule that they break.
    pub fn judged(bytes: &'a [u8]) -> Result<Sheet<'a>, Refusal>
        ensures held { IfOk result (λ s. s.bytes ≡ bytes.entry) }
        ensures refused { IfErr result (λ x. verdict_numbers (Err x) ≡ verdict bytes.now) }
    {
        let places = judge(bytes)?;
        Ok(Sheet { bytes, places })
    }

    // Where body k starts; past the last, the sheet's end.
    fn place(self, k: usize) -> usize
        ensures { result ≡ place_at self.entry.places (length self.entry.bytes.now) k }
    {
        let p = self.places;
        match k {
            0 => p.classes,
            1 => p.states,
            2 => p.whens,
            3 => p.guards,
            4 => p.actions,
            5 => p.statements,
            _ => self.bytes.len(),
        }
    }

    // Body k: the bytes from its place to the next.
    pub fn body(self, k: usize) -> &'a [u8]
        requires { k < 6 }
        ensures { result.now ≡ body self.entry.bytes.now k }
    {
        &self.bytes[self.place(k)..self.place(k + 1)]
    }
}
