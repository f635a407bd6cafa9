// What a command's checks, and the framing of words, come to: done, or refused with a reason and
// the index of the payload word that was first found wrong.
#![tactic(auto)]

ghost use Rattle.std.specs.Prelude.{◌≡◌};
ghost use Rattle.std.specs.Int.Bits.{bit_or};
ghost use Rattle.verdict.specs.declared.Reason.TheVariants as reason;
ghost use Rattle.verdict.specs.Verdict.{number_of, bit_for, bits_of, first_after, noted_of, refusal_ok, because};

// In the order of their numbers, 1 to 10 (rule 3.5 of docs/RULES.md).
#[derive(Clone, Copy, Debug, PartialEq, Eq)]
pub enum Reason {
    ZeroOpcode,
    CountTooLarge,
    UnknownOpcode,
    WrongLength,
    OutOfRange,
    NotFinite,
    NotHeld,
    NotInvertible,
    NoSlot,
    NoWords,
}

// The number of a reason, rule 3.5.
impl From<Reason> for u32 {
    ghost from_gives = { λ reason number. number ≡ number_of reason };

    fn from(reason: Reason) -> u32 {
        match reason {
            Reason::ZeroOpcode => 1,
            Reason::CountTooLarge => 2,
            Reason::UnknownOpcode => 3,
            Reason::WrongLength => 4,
            Reason::OutOfRange => 5,
            Reason::NotFinite => 6,
            Reason::NotHeld => 7,
            Reason::NotInvertible => 8,
            Reason::NoSlot => 9,
            Reason::NoWords => 10,
        }
    }
}

// Why a command was refused. The index is 0 if a reason has no word to point at.
#[derive(Clone, Copy, Debug, PartialEq, Eq)]
pub struct Refused {
    pub reason: Reason,
    pub index: u32,
}

// What checks come to: nothing was found wrong, or the first refusal.
pub type Verdict<T = ()> = Result<T, Refused>;

// A refusal, as a host is to be told of it (no call does so yet): the number of its reason, the
// opcode of the header, and the index. All three are 0 if nothing was refused.
// Stays: the reason is a number, since a host hands these three words in with a state, and
// `refusal_ok` says which of them a state may have; an enum would ask that of the host before.
#[derive(Clone, Copy, Debug, PartialEq, Eq)]
pub struct Refusal {
    pub reason: u32,
    pub opcode: u32,
    pub index: u32,
}

impl Refusal {
    pub const NONE: Refusal = Refusal {
        reason: 0,
        opcode: 0,
        index: 0,
    };
}

// What refusals leave behind.
#[derive(Clone, Copy, Debug, PartialEq, Eq)]
pub struct Notes {
    pub status: u32,
}

impl Notes {
    // Nothing was refused.
    pub const NONE: Notes = Notes { status: 0 };
}

// Refusals that several commands give.
pub fn unknown() -> Refused
    ensures { result ≡ because reason.UnknownOpcode 0 }
{
    Refused {
        reason: Reason::UnknownOpcode,
        index: 0,
    }
}

pub fn wrong_length() -> Refused
    ensures { result ≡ because reason.WrongLength 0 }
{
    Refused {
        reason: Reason::WrongLength,
        index: 0,
    }
}

pub fn out_of_range(index: u32) -> Refused
    ensures { result ≡ because reason.OutOfRange index }
{
    Refused {
        reason: Reason::OutOfRange,
        index,
    }
}

pub fn not_held() -> Refused
    ensures { result ≡ because reason.NotHeld 0 }
{
    Refused {
        reason: Reason::NotHeld,
        index: 0,
    }
}

pub fn not_invertible() -> Refused
    ensures { result ≡ because reason.NotInvertible 0 }
{
    Refused {
        reason: Reason::NotInvertible,
        index: 0,
    }
}

// The one place where a reason becomes a status bit: 2 for a zero opcode, 6 for no room, else 3.
fn bit_for(reason: Reason) -> u32
    ensures { result ≡ bit_for (number_of reason) }
{
    match reason {
        Reason::ZeroOpcode => 4,
        Reason::NoSlot | Reason::NoWords => 64,
        _ => 8,
    }
}

// The status after a verdict: no bit is ever cleared.
fn status_after(status: u32, verdict: Verdict) -> u32
    ensures { result ≡ bit_or status (bits_of verdict) }
{
    match verdict {
        Ok(()) => status,
        Err(refused) => status | bit_for(refused.reason),
    }
}

// The first refusal after a verdict: one that is there already stays.
fn first_after(first: Refusal, opcode: u32, verdict: Verdict) -> Refusal
    ensures { result ≡ first_after first opcode verdict }
{
    match verdict {
        Err(refused) if first.reason == 0 => Refusal {
            reason: u32::from(refused.reason),
            opcode,
            index: refused.index,
        },
        _ => first,
    }
}

// The one place where a refusal is noted: of a command, or of a header, with this opcode.
pub fn noted(notes: Notes, opcode: u32, verdict: Verdict) -> Notes
    ensures { result ≡ noted_of notes opcode verdict }
{
    Notes {
        status: status_after(notes.status, verdict),
    }
}

// Is this a refusal that a state may have?
#[tactic(auto, unfolding(crate::specs::Verdict::refusal_ok))]
pub fn refusal_ok(first: Refusal) -> bool
    ensures { result ≡ refusal_ok first }
{
    if first.reason == 0 {
        first.opcode == 0 && first.index == 0
    } else {
        first.reason <= 10 && first.index <= 28
    }
}
