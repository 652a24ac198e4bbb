// The refusals, each under the number that the rules give it.
#![tactic(auto)]

ghost use Rattle.std.specs.Prelude.{◌≡◌, ◌≤◌};
ghost use Rattle.refusal.specs.declared.Refusal.{Refusal};
ghost use Rattle.refusal.specs.Numbers.{number};

// Why a call or a file is turned away: the refusals of RULES, in the order of their numbers, so that a number is a sum.
#[derive(Clone, Copy, Debug)]
pub enum Refusal {
    // R1
    Unsound,
    // R2
    UnknownParty,
    // R3
    FieldCount,
    // R4
    BadPair,
    // R5
    BadField,
    // R6
    ShortResult,
    // R7
    NameNotHeld,
    // R8
    NoRoom,
    // R9
    BadRoster,
    // R10
    BadFile,
    // R11
    UnreadableLine,
    // R12
    OutOfRange,
    // R13
    PartitionNotHeld,
    // R14
    KeyNotHeld,
    // R15
    TooManyPairs,
    // R16
    UnknownStarter,
}

impl Refusal {
    // The number by which the rules, the console and programs in C know it; no other refusal has it.
    pub fn number(self) -> u32
        ensures value { result ≡ number self }
        ensures small { (1 ≤ result) × (result ≤ 16) }
        ensures alone { (other : Refusal) → number other ≡ result → other ≡ self }
    {
        match self {
            Refusal::Unsound => 1,
            Refusal::UnknownParty => 2,
            Refusal::FieldCount => 3,
            Refusal::BadPair => 4,
            Refusal::BadField => 5,
            Refusal::ShortResult => 6,
            Refusal::NameNotHeld => 7,
            Refusal::NoRoom => 8,
            Refusal::BadRoster => 9,
            Refusal::BadFile => 10,
            Refusal::UnreadableLine => 11,
            Refusal::OutOfRange => 12,
            Refusal::PartitionNotHeld => 13,
            Refusal::KeyNotHeld => 14,
            Refusal::TooManyPairs => 15,
            Refusal::UnknownStarter => 16,
        }
    }
}
