// Why a DROM, one of its entries or a call on it is refused: document 01's numbers, each with a name.
ghost use Rattle.std.specs.Prelude.{◌≡◌};
ghost use Rattle.entry.specs.Refusals.{refusal_number, answer_number};

#[derive(Clone, Copy, Debug, PartialEq, Eq, Hash)]
pub enum Refusal {
    TooFew,
    WrongLength,
    ShortTbt3,
    SmallBuffer,
    OddList,
    ZeroLength,
    PastEnd,
    TooShort,
    NoZero,
    NotUtf8,
    OddUtf16,
    Beyond,
    Missing,
    Outside,
}

impl From<Refusal> for u8 {
    ghost from_gives = { λ r n. n ≡ refusal_number r };

    fn from(r: Refusal) -> u8 {
        match r {
            Refusal::TooFew => 1,
            Refusal::WrongLength => 2,
            Refusal::ShortTbt3 => 3,
            Refusal::SmallBuffer => 4,
            Refusal::OddList => 5,
            Refusal::ZeroLength => 6,
            Refusal::PastEnd => 7,
            Refusal::TooShort => 8,
            Refusal::NoZero => 9,
            Refusal::NotUtf8 => 10,
            Refusal::OddUtf16 => 11,
            Refusal::Beyond => 12,
            Refusal::Missing => 13,
            Refusal::Outside => 18,
        }
    }
}

// The number of an answer: 0, or its refusal's.
pub fn answer_number(answer: Result<(), Refusal>) -> u8
    ensures { result ≡ answer_number answer }
{
    match answer {
        Ok(()) => 0,
        Err(refusal) => refusal.into(),
    }
}
