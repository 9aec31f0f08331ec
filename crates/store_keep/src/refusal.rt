// Why a call on a store is refused.
#![tactic(auto)]

ghost use Rattle.std.specs.Prelude.{◌≡◌};
ghost use Rattle.store_keep.specs.Refusals.{number_shown};

// The refusals, in the order in which they are asked, each with its number in an answer.
#[derive(Clone, Copy)]
pub enum StoreRefusal {
    ShortTable = 21,
    ManyEntries = 22,
    TagsFall = 23,
    NotLaid = 24,
    HighTag = 25,
    Lacking = 26,
    NotSingle = 27,
    NotAllowed = 28,
    NoRoom = 29,
    NoSuchTag = 30,
}

// What a call with nothing to tell answers: 0, or the refusal's number.
pub fn number(outcome: Result<(), StoreRefusal>) -> u64
    ensures answer { result ≡ number_shown outcome }
{
    match outcome {
        Ok(()) => 0,
        Err(refusal) => refusal as u64,
    }
}
