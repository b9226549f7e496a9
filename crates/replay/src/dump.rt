// The selected state as a line: counts, one record for each host, one word for each entry.
use crate::Player;
use crate::output::Hex;
use state::{Phase, State};
use std::io::Read;
use std::{fmt, io};

#[derive(Clone, Copy)]
struct Record(state::Record);

impl fmt::Display for Record {
    fn fmt<W: fmt::Write>(&self, f: &mut fmt::Formatter<W>) -> fmt::Result {
        let r = &self.0;
        match r.phase {
            Phase::Idle => write!(f, "idle"),
            Phase::Waiting => write!(f, "waiting:{}", Hex(&r.challenge)),
            Phase::Open { last, owed } => {
                write!(f, "open:{}:{last}:{}", Hex(&r.key), u8::from(owed))
            }
        }
    }
}

impl<R: Read + Drop, P: Print + Drop> Player<R, P> {
    pub(crate) fn dump(&self, s: &State) -> io::Result<()> {
        let rights = &s.rights;
        print!(self.to; "dump {} {}", rights.hosts, rights.interfaces)?;
        for i in 0..rights.hosts {
            let r = state::record_at(s.records, usize::from(i));
            print!(self.to; " {}", Record(r))?;
        }
        for i in 0..rights.interfaces {
            for j in 0..view::right_at(*rights, i + 1, 1).entries {
                print!(self.to; " {}", view::right_at(*rights, i + 1, j + 1).word)?;
            }
        }
        println!(self.to)
    }
}
