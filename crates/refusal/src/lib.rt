// The refusals of document 01, "Numbers of refusal": which there are, each with its number, and what a refused call hands back.
//
// A call that judges answers a `Result`: `Err` is a refusal, and what `Ok` holds there is on acceptance alone.

#![tactic(auto)]

ghost use Rattle.std.specs.Prelude.{◌≡◌};
ghost use Rattle.refusal.specs.Numbers.{refusal_number};

// One table for all calls, in the order of the numbers; 0 is acceptance, and the numbers between that aren't here are never given.
#[derive(Clone, Copy, Debug, PartialEq, Eq)]
pub enum Refusal {
    Below = 1,
    Above = 2,
    Zeros = 3,
    NoHost = 4,
    Vector = 5,
    NotOpen = 6,
    RoomShort = 7,
    TagWrong = 8,
    ClientDiffers = 9,
    InnerZeros = 10,
    LengthField = 11,
    NotFresh = 12,
    Group = 13,
    NoInterface = 14,
    NoEntry = 15,
    EntryGroup = 16,
    NoCommand = 17,
    NotPermitted = 18,
    SecretWrong = 19,
    RequestLength = 20,
    Version = 21,
    NameLength = 22,
    NoName = 23,
    ProofLength = 25,
    NotWaiting = 26,
    ChallengeDiffers = 27,
    LengthWrong = 28,
    NotOwed = 29,
    PayloadAbove = 30,
    NoPlaceLeft = 31,
    AllOnes = 32,
    Unsound = 39,
    Size = 40,
    Format = 41,
    Rows = 42,
    KindOrId = 43,
    StartOrLength = 44,
    Counts = 45,
    Permitted = 46,
    Letter = 47,
    NameUsed = 48,
}

impl Refusal {
    // Its number in document 01, never 0.
    pub fn number(self) -> u8
        ensures { result ≡ refusal_number self }
    {
        self as u8
    }
}

// A refused call: why, and how many AES blocks document 01 counts for it.
#[derive(Clone, Copy, Debug, PartialEq, Eq)]
pub struct Refused {
    pub why: Refusal,
    pub blocks: usize,
}

// What is refused before any block is enciphered.
impl From<Refusal> for Refused {
    ghost from_gives = { λ why r. r ≡ record { why = why; blocks = 0 } };

    fn from(why: Refusal) -> Refused {
        Refused { why, blocks: 0 }
    }
}
