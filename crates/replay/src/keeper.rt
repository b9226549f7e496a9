// Load, and the two steps of the handshake.
use crate::Player;
use crate::input::MOST;
use crate::output::{Room, Said};
use gateway::Done;
use refusal::Refused;
use state::State;
use std::io;
use std::io::Read;

// What a call is answered, once the part of the state that it changed is stored.
pub(crate) fn store<T: Copy>(
    done: Result<Done<T>, Refused>,
    part: &mut T,
) -> Result<usize, Refused> {
    let Done { blocks, after } = done?;
    *part = after;
    Ok(blocks)
}

impl<R: Read + Drop, P: Print + Drop> Player<R, P> {
    pub(crate) fn load(&mut self, s: &mut State) -> io::Result<()> {
        let mut buffer = [0; MOST];
        let book::Loaded {
            verdict,
            blocks,
            state,
        } = book::load(self.string(&mut buffer));
        *s = state;
        let (number, offset) = match verdict {
            Ok(()) => (0, 0),
            Err(fault) => (fault.why.number(), fault.offset),
        };
        println!(self.to;
            "load {number} {blocks} {offset} {} {}",
            s.rights.hosts, s.rights.interfaces
        )
    }

    pub(crate) fn request(&mut self, s: &mut State) -> io::Result<()> {
        let mut buffer = [0; MOST];
        let packet = self.string(&mut buffer);
        let mut buffer = [0; 64];
        let fresh = self.string(&mut buffer);
        let mut buffer = [0; MOST];
        let room = self.room(&mut buffer);
        let (said, host, written) = match gateway::request(
            s.rights, s.records, &s.names, packet, fresh, room,
        ) {
            Ok(done) => {
                s.records = done.records;
                (Ok(done.blocks), done.host, 32)
            }
            Err(refused) => (Err(refused), 0, 0),
        };
        println!(self.to;
            "request {} {host} {}",
            Said(said),
            Room {
                bytes: room,
                written
            }
        )
    }

    pub(crate) fn proof(&mut self, s: &mut State) -> io::Result<()> {
        let host = self.half();
        let mut buffer = [0; MOST];
        let packet = self.string(&mut buffer);
        let mut buffer = [0; MOST];
        let room = self.room(&mut buffer);
        let done = gateway::proof(s.rights, s.records, host, packet, room);
        self.answer("proof", store(done, &mut s.records), room, 20)
    }
}
