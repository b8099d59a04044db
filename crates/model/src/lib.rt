// The model: what a class, a child list, a probe, a when phase and a command mean. Definitions are in specs/, their theory in proofs/.
// Here stand the three kinds of number that are never taken for one another, the refusals, and what the answers to the questions give. An
// answer is a Result: what is given, or why the input is refused.
#![tactic(auto)]

// One of a node's own states, 0 to S - 1.
#[derive(Clone, Copy)]
pub struct OwnState(pub u8);

// The name of a state that a child is in, 0 to 31.
#[derive(Clone, Copy)]
pub struct ChildName(pub u8);

// One of the sheet's child classes, 0 to K - 1.
#[derive(Clone, Copy)]
pub struct ChildClass(pub u8);

// Why an input is refused: a case for each number of the paper's table, in its order. 16, which has a place, is a case of Misread.
#[derive(Clone, Copy)]
pub enum Refusal {
    SheetLength,
    Contents,
    EmptyNameSet,
    ClauseCounts,
    GuardLayout,
    GuardReach,
    Target,
    ActionClause,
    Statement,
    ChildList,
    AskedState,
    AskedCommand,
    PresentBit,
    NameCount,
    Room,
    Naming,
    Limit,
    WrittenGuards,
}

// A when clause's referrer with its target: an own state, an action clause's number within the state, none.
#[derive(Clone, Copy)]
pub enum Referrer {
    MoveTo(OwnState),
    Do(u8),
    Stay,
}

// What a probe finds: no clause, or a clause's number within the state with its referrer and target.
pub type Probed = Option<(usize, Referrer)>;

// By what a phase settles: no clause, STAY, or DO with the command of its action clause, which has run.
#[derive(Clone, Copy)]
pub enum Ending {
    ByNone,
    ByStay,
    ByDo(u8),
}

// A when phase: settled by what, in which state, after how many moves, and how many bytes of commands were written; or loop, the state
// after S moves, S, and nothing is written.
#[derive(Clone, Copy)]
pub enum Phase {
    Settled(Ending, OwnState, usize, usize),
    Loops(OwnState, usize),
}

// The handling of a command: the state that it leaves, and how many bytes of its own sends were written.
#[derive(Clone, Copy)]
pub enum Handling {
    Ignored(OwnState),
    Handled(OwnState, usize),
}

// What a class does: a loop, with its configuration and own state; or none, and the largest number of moves.
#[derive(Clone, Copy)]
pub enum Loops {
    Loop(u32, OwnState),
    Free(usize),
}

// Why a class text is not read: refused; or the start of the first word that cannot stand.
#[derive(Clone, Copy)]
pub enum Misread {
    Refused(Refusal),
    WrongWord(usize),
}

// The number of a refusal in the paper's table.
impl From<Refusal> for u64 {
    ghost use Rattle.std.specs.Prelude.{◌≡◌};
    ghost use Rattle.model.specs.Refusals.{number_of};

    ghost from_gives = { λ x n. n ≡ number_of x };

    fn from(x: Refusal) -> u64 {
        match x {
            Refusal::SheetLength => 1,
            Refusal::Contents => 2,
            Refusal::EmptyNameSet => 3,
            Refusal::ClauseCounts => 4,
            Refusal::GuardLayout => 5,
            Refusal::GuardReach => 6,
            Refusal::Target => 7,
            Refusal::ActionClause => 8,
            Refusal::Statement => 9,
            Refusal::ChildList => 10,
            Refusal::AskedState => 11,
            Refusal::AskedCommand => 12,
            Refusal::PresentBit => 13,
            Refusal::NameCount => 14,
            Refusal::Room => 15,
            Refusal::Naming => 17,
            Refusal::Limit => 18,
            Refusal::WrittenGuards => 19,
        }
    }
}
