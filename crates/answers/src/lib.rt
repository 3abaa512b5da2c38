// Answers as enums: why a call or an update is refused, and what kind a group is of.
#![tactic(auto)]

ghost use Rattle.std.specs.Prelude.{◌≡◌};
ghost use Rattle.model.specs.Queries.{kind_number};
ghost use Rattle.model.specs.Refusals.{first_of, pair_reasons};
ghost use Rattle.answers.specs.Numbers.{code, kind_told, number};

// Why a call or an update is refused, each with document 01's number.
#[derive(Clone, Copy, Debug, PartialEq, Eq)]
pub enum Refusal {
    WrongSize = 11,
    NoGraph = 12,
    NoKind = 13,
    NoNode = 14,
    WrongValue = 15,
    AlreadyHolds = 16,
    ShortBuffer = 18,
    NoRelease = 19,
    OtherSize = 20,
    NotKept = 21,
    AlreadyKept = 22,
    StoreFull = 23,
    Frozen = 24,
}

impl From<Refusal> for u16 {
    ghost from_gives = { λ refusal result. result ≡ number refusal };

    fn from(refusal: Refusal) -> u16 {
        refusal as u16
    }
}

// A call's number: 0 where it was done.
pub fn code<T>(answer: &Result<T, Refusal>) -> u16
    ensures { result ≡ code answer.now }
{
    match answer {
        Ok(_) => 0,
        Err(refusal) => u16::from(*refusal),
    }
}

// Whether u and v are two of the n nodes.
pub fn check_pair(n: usize, u: usize, v: usize) -> Result<(), Refusal>
    ensures { code result ≡ first_of (pair_reasons n u v) }
{
    if u >= n {
        return Err(Refusal::NoNode);
    }
    if v >= n {
        return Err(Refusal::NoNode);
    }
    if u == v {
        return Err(Refusal::WrongValue);
    }
    Ok(())
}

// What kind a group is of.
#[derive(Clone, Copy, Debug, Default, PartialEq, Eq)]
pub enum Kind {
    #[default]
    Singleton,
    Independent,
    Clique,
}

impl From<Kind> for u16 {
    ghost from_gives = { λ kind result. result ≡ kind_number (kind_told kind) };

    fn from(kind: Kind) -> u16 {
        kind as u16
    }
}
