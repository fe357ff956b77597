// The desk's parts: keys, what the calls are asked, and what they answer or refuse.
#![tactic(auto)]

ghost use Rattle.std.specs.Prelude.{◌≡◌};
ghost use Rattle.desk.specs.Places.{state_for};
ghost use Rattle.desk.specs.Refusals.{number_of};
ghost use Rattle.desk.specs.Allowed.{answer_of};

// A page belongs to a key: a school number and a class number.
#[repr(C)]
#[derive(Clone, Copy, PartialEq, Eq, Default)]
pub struct Key {
    pub school: u64,
    pub class: u64,
}

// The direction is write or read, of a kind that has no third value.
#[derive(Clone, Copy, PartialEq, Eq)]
pub enum Direction {
    Write,
    Read,
}

// The state of a page that is open so.
impl From<Direction> for u64 {
    ghost from_gives = { λ direction state. state ≡ state_for direction };

    fn from(direction: Direction) -> u64 {
        match direction {
            Direction::Write => 1,
            Direction::Read => 2,
        }
    }
}

// What open is asked.
#[derive(Clone, Copy, PartialEq, Eq)]
pub struct Opening {
    pub key: Key,
    pub direction: Direction,
    pub width: u64,
}

// What a band call is asked, beside its bytes.
#[derive(Clone, Copy, PartialEq, Eq)]
pub struct Ask {
    pub key: Key,
    pub rows: u64,
}

// Why a call is refused, in the order of the tests.
#[derive(Clone, Copy, PartialEq, Eq)]
pub enum Refusal {
    UnlawfulDesk,
    KeyOutOfRange,
    WrongSize,
    PageOpen,
    NoPage,
    OtherDirection,
    NoTable,
    PagesFull,
    PlacesFull,
    PaddingBit,
    NoRoom,
    Marker,
    Damaged,
}

// Its number.
impl From<Refusal> for u64 {
    ghost from_gives = { λ refusal number. number ≡ number_of refusal };

    fn from(refusal: Refusal) -> u64 {
        match refusal {
            Refusal::UnlawfulDesk => 12,
            Refusal::KeyOutOfRange => 1,
            Refusal::WrongSize => 6,
            Refusal::PageOpen => 3,
            Refusal::NoPage => 2,
            Refusal::OtherDirection => 7,
            Refusal::NoTable => 11,
            Refusal::PagesFull => 4,
            Refusal::PlacesFull => 5,
            Refusal::PaddingBit => 8,
            Refusal::NoRoom => 9,
            Refusal::Marker => 15,
            Refusal::Damaged => 10,
        }
    }
}

// What an accepted call gives: a length, S and the pels revisited.
#[derive(Clone, Copy, PartialEq, Eq, Default)]
pub struct Done {
    pub length: u64,
    pub shifts: u64,
    pub revisits: u64,
}

// What every call answers in C: its number, and length, S and the pels revisited. C has no Result, so the number stands
// beside them.
#[repr(C)]
#[derive(Clone, Copy, PartialEq, Eq, Default)]
pub struct Answer {
    pub number: u64,
    pub length: u64,
    pub shifts: u64,
    pub revisits: u64,
}

// 0 and what was done, or the refusal's number alone.
impl From<Result<Done, Refusal>> for Answer {
    ghost from_gives = { λ given answer. answer ≡ answer_of given };

    fn from(given: Result<Done, Refusal>) -> Answer {
        match given {
            Ok(done) => Answer {
                number: 0,
                length: done.length,
                shifts: done.shifts,
                revisits: done.revisits,
            },
            Err(refusal) => Answer {
                number: refusal.into(),
                ..Answer::default()
            },
        }
    }
}
