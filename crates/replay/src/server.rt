// Calls on a connection, and revocation.
use crate::Player;
use crate::input::MOST;
use crate::keeper::store;
use crate::output::{Hex, Room, Said};
use state::State;
use std::io::Read;
use std::{fmt, io};

// A command's inner fields.
#[derive(Clone, Copy)]
struct Order(fields::Order);

impl fmt::Display for Order {
    fn fmt<W: fmt::Write>(&self, f: &mut fmt::Formatter<W>) -> fmt::Result {
        let o = &self.0;
        write!(
            f,
            "{} {} {} {} ",
            o.client, o.sequence, o.group, o.interface
        )?;
        write!(f, "{} {} {}", o.capability, o.length, o.command)?;
        for word in o.words {
            write!(f, " {word}")?;
        }
        write!(f, " {}", Hex(&o.secret))
    }
}

impl<R: Read + Drop, P: Print + Drop> Player<R, P> {
    pub(crate) fn command(&mut self, s: &mut State) -> io::Result<()> {
        let mut buffer = [0; MOST];
        let packet = self.string(&mut buffer);
        let mut buffer = [0; MOST];
        let room = self.room(&mut buffer);
        let (said, order) = match gateway::command(s.rights, s.records, packet, room) {
            Ok(done) => {
                s.records = done.records;
                (Ok(done.heard.blocks), done.heard.order)
            }
            Err(refused) => (Err(refused), fields::Order::default()),
        };
        println!(self.to;
            "command {} {} {}",
            Said(said),
            Order(order),
            Room {
                bytes: room,
                written: usize::from(order.length)
            }
        )
    }

    pub(crate) fn reply(&mut self, s: &mut State) -> io::Result<()> {
        let host = self.half();
        let sequence = self.half();
        let mut buffer = [0; MOST];
        let payload = self.string(&mut buffer);
        let mut buffer = [0; MOST];
        let room = self.room(&mut buffer);
        let done = gateway::reply(s.rights, s.records, host, sequence, payload, room);
        let said = store(done, &mut s.records);
        self.answer("reply", said, room, payload.len() % 65536 + 32)
    }

    pub(crate) fn close(&mut self, s: &mut State) -> io::Result<()> {
        let host = self.half();
        let done = gateway::close(s.rights, s.records, host);
        println!(self.to; "close {}", Said(store(done, &mut s.records)))
    }

    pub(crate) fn revoke(&mut self, s: &mut State) -> io::Result<()> {
        let interface = self.half();
        let entry = self.half();
        let word = self.word();
        let done = gateway::revoke(s.rights, interface, entry, word);
        println!(self.to; "revoke {}", Said(store(done, &mut s.rights)))
    }
}
