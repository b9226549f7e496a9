// The gateway's state: what the book says and one record per host, in fixed flat arrays (document 01, "The book" and "Handshake").
//
// The whole state is some 13 KB: no call but a load hands it over whole; every other takes the parts that it reads and hands back
// the part that changed. Hosts, interfaces and entries are counted from 0 here. Every public function takes all inputs, a state that
// nobody loaded too.

#![tactic(auto)]

mod flat;
mod soundness;
mod transitions;

pub use flat::{idle_records, no_rights, record_at, with_record, with_word};
pub use soundness::sound;
pub use transitions::{Phase, Record};

// What the book says of hosts and interfaces, but their names. Arrays stand beside one another, and not structs in one array: document 01
// asks for flat arrays, and C reads them so. Entry j of interface i stands at 16 i + j, and the master secret
// of interface i at 16 i.
#[repr(C)]
#[derive(Clone, Copy)]
pub struct Rights {
    pub words: [u64; 128],
    pub hosts: u16,
    pub interfaces: u16,
    // of each host: its group, and the length of its name
    pub groups: [u16; 32],
    pub sizes: [u16; 32],
    // of each interface: the length of its name, its command count and its entry count
    pub spans: [u16; 8],
    pub commands: [u16; 8],
    pub entries: [u16; 8],
    // of each entry: its group (words: its present permitted word)
    pub owners: [u16; 128],
    pub secrets: [u8; 128],
}

// The records of all hosts. A record's phase is a tag (1 waiting, 2 open, 3 open with a reply owed, any other idle) and the last
// accepted number; its challenge and its key stand at 16 i.
#[repr(C)]
#[derive(Clone, Copy)]
pub struct Records {
    pub tags: [u8; 32],
    pub lasts: [u16; 32],
    pub challenges: [u8; 512],
    pub keys: [u8; 512],
}

// The name of host i stands at 256 i of `names`, and that of interface i at 256 i of `labels`.
#[repr(C)]
#[derive(Clone, Copy)]
pub struct State {
    pub rights: Rights,
    pub records: Records,
    pub names: [u8; 8192],
    pub labels: [u8; 2048],
}
