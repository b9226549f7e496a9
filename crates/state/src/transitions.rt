// One host's record and its five transitions (document 01, "Handshake", and "Forms": methods that take self and hand the next
// record back). The phase is an enum; the byte arrays stand beside it.
ghost use Rattle.std.specs.Prelude.{◌≡◌};
ghost use Rattle.state.specs.Records.{closed, requested, proved, accepted, replied, phase_of, tag_of, last_of};

#[derive(Clone, Copy, Debug, PartialEq, Eq)]
pub enum Phase {
    Idle,
    Waiting,
    Open { last: u16, owed: bool },
}

impl Phase {
    // A phase stands in the state as two numbers, its tag and its last accepted number, since the state's arrays are C's too.
    pub(crate) fn from_numbers(tag: u8, last: u16) -> Phase
        ensures { result ≡ phase_of tag last }
    {
        match tag {
            1 => Phase::Waiting,
            2 => Phase::Open { last, owed: false },
            3 => Phase::Open { last, owed: true },
            _ => Phase::Idle,
        }
    }

    pub(crate) fn tag(self) -> u8
        ensures { result ≡ tag_of self }
    {
        match self {
            Phase::Idle => 0,
            Phase::Waiting => 1,
            Phase::Open { owed: false, .. } => 2,
            Phase::Open { owed: true, .. } => 3,
        }
    }

    pub(crate) fn last(self) -> u16
        ensures { result ≡ last_of self }
    {
        match self {
            Phase::Idle | Phase::Waiting => 0,
            Phase::Open { last, .. } => last,
        }
    }
}

#[derive(Clone, Copy, Debug, PartialEq, Eq)]
pub struct Record {
    pub phase: Phase,
    pub challenge: [u8; 16],
    pub key: [u8; 16],
}

impl Record {
    // Idle, with challenge and key wiped.
    pub(crate) const IDLE: Record = Record {
        phase: Phase::Idle,
        challenge: [0; 16],
        key: [0; 16],
    };

    pub fn close(self) -> Record
        ensures { result ≡ closed }
    {
        Record::IDLE
    }

    // Waiting for the proof of challenge 2; an earlier connection ends here.
    pub fn request(self, challenge: [u8; 16]) -> Record
        ensures { result ≡ requested challenge }
    {
        Record {
            phase: Phase::Waiting,
            challenge,
            ..Record::IDLE
        }
    }

    // Open under a key, with last number 0 and no reply owed.
    pub fn proof(self, key: [u8; 16]) -> Record
        ensures { result ≡ proved key }
    {
        let phase = Phase::Open {
            last: 0,
            owed: false,
        };
        Record {
            phase,
            key,
            ..Record::IDLE
        }
    }

    // A command with that number was accepted: a reply is owed for it. A record that isn't open stays.
    pub fn accept(self, number: u16) -> Record
        ensures { result ≡ accepted self number }
    {
        let Phase::Open { .. } = self.phase else {
            return self;
        };
        let phase = Phase::Open {
            last: number,
            owed: true,
        };
        Record { phase, ..self }
    }

    // The reply that was owed is claimed. A record that isn't open stays.
    pub fn reply(self) -> Record
        ensures { result ≡ replied self }
    {
        let Phase::Open { last, .. } = self.phase else {
            return self;
        };
        let phase = Phase::Open { last, owed: false };
        Record { phase, ..self }
    }
}
