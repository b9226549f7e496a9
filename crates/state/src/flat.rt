// The arrays go into locals before they are used: document 01's form, here, in soundness.rt and in `view`.
//
// Records out of the flat arrays and into them, an entry's word replaced, and the parts of a state that holds nothing.
ghost use Rattle.std.specs.Prelude.{◌≡◌};
ghost use Rattle.state.specs.Flat.{record_of, with_record, with_word, no_rights, idle_records};

use crate::transitions::{Phase, Record};
use crate::{Records, Rights};

// The record of host i; the idle record where there is no such place.
#[tactic(auto, unfolding(crate::specs::Flat::record_of))]
pub fn record_at(records: Records, i: usize) -> Record
    ensures { result ≡ record_of records i }
{
    if 32 <= i {
        return Record::IDLE;
    }
    let Records {
        tags,
        lasts,
        challenges,
        keys,
    } = records;
    Record {
        phase: Phase::from_numbers(tags[i], lasts[i]),
        challenge: octets::bytes_at(&challenges, i * 16),
        key: octets::bytes_at(&keys, i * 16),
    }
}

// The records with that of host i replaced; as they were where there is no such place.
#[tactic(auto, unfolding(crate::specs::Flat::with_record))]
pub fn with_record(records: Records, i: usize, new: Record) -> Records
    ensures { result ≡ with_record records i new }
{
    if 32 <= i {
        return records;
    }
    let mut next = records;
    next.tags[i] = new.phase.tag();
    next.lasts[i] = new.phase.last();
    octets::put(&mut next.challenges, i * 16, &new.challenge);
    octets::put(&mut next.keys, i * 16, &new.key);
    next
}

// The rights with the word of entry j of interface i replaced; as they were where there is no such place.
#[tactic(auto, unfolding(crate::specs::Flat::with_word))]
pub fn with_word(rights: Rights, i: usize, j: usize, word: u64) -> Rights
    ensures { result ≡ with_word rights i j word }
{
    if 8 <= i || 16 <= j {
        return rights;
    }
    let mut next = rights;
    next.words[i * 16 + j] = word;
    next
}

// No hosts and no interfaces.
#[tactic(auto, unfolding(crate::specs::Flat::no_rights))]
pub fn no_rights() -> Rights
    ensures { result ≡ no_rights }
{
    Rights {
        words: [0; 128],
        hosts: 0,
        interfaces: 0,
        groups: [0; 32],
        sizes: [0; 32],
        spans: [0; 8],
        commands: [0; 8],
        entries: [0; 8],
        owners: [0; 128],
        secrets: [0; 128],
    }
}

// All records idle.
#[tactic(auto, unfolding(crate::specs::Flat::idle_records))]
pub fn idle_records() -> Records
    ensures { result ≡ idle_records }
{
    Records {
        tags: [0; 32],
        lasts: [0; 32],
        challenges: [0; 512],
        keys: [0; 512],
    }
}
