// The tests behind document 01's refusal numbers 1, 2 and 6, behind 12 of change request 2026-03 and behind 17 of 2026-11; those of 10 are in crate `ranges`.
#![tactic(auto)]

ghost use Rattle.std.specs.Prelude.{◌≡◌};
ghost use Rattle.refusals.specs.Refused.{number_of, replied};

pub mod shape; // refusal 1
pub mod handed; // refusals 2 and 6
pub mod normals; // refusal 12
pub mod steered; // refusal 17
pub mod answers; // the tests of every ray answer
pub mod wheels; // the tests of every wheel

// Why a call is refused: document 01's table, 12 of change request 2026-03 and 17 of 2026-11.
#[derive(Clone, Copy)]
pub enum Refusal {
    NoVehicle,
    BadNumber,
    Full,
    NoSuchWheel,
    WrongMoment,
    BadLists,
    WildGrip,
    WildStep,
    Malformed,
    OutOfRange,
    BadNormal,
    BadTurn,
}

impl Refusal {
    // Its number.
    pub fn number(self) -> u32
        ensures { result ≡ number_of self }
    {
        match self {
            Refusal::NoVehicle => 1,
            Refusal::BadNumber => 2,
            Refusal::Full => 3,
            Refusal::NoSuchWheel => 4,
            Refusal::WrongMoment => 5,
            Refusal::BadLists => 6,
            Refusal::WildGrip => 7,
            Refusal::WildStep => 8,
            Refusal::Malformed => 9,
            Refusal::OutOfRange => 10,
            Refusal::BadNormal => 12,
            Refusal::BadTurn => 17,
        }
    }
}

// The number of a call's answer: 0 where it is accepted.
pub fn answer_number<T>(answer: &Result<T, Refusal>) -> u32
    ensures { result ≡ replied (λ done. 0) (λ n. n) answer.now }
{
    match answer {
        Ok(_) => 0,
        Err(r) => r.number(),
    }
}
