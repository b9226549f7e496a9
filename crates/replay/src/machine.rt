// The client's calls.
use crate::Player;
use crate::input::MOST;
use crate::output::{Room, Said};
use std::io;
use std::io::Read;

impl<R: Read + Drop, P: Print + Drop> Player<R, P> {
    // `issue` and `narrow` are alike but for the middle field and the call: one function would take a closure for each, and be no shorter.
    pub(crate) fn issue(&mut self) -> io::Result<()> {
        let mut buffer = [0; 64];
        let master = self.string(&mut buffer);
        let id = self.half();
        let mut buffer = [0; MOST];
        let room = self.room(&mut buffer);
        let said = capability::issue(master, id, room);
        self.answer("issue", said, room, 50)
    }

    pub(crate) fn narrow(&mut self) -> io::Result<()> {
        let mut buffer = [0; 64];
        let held = self.string(&mut buffer);
        let word = self.word();
        let mut buffer = [0; MOST];
        let room = self.room(&mut buffer);
        let said = capability::narrow(held, word, room);
        self.answer("narrow", said, room, 50)
    }

    // What a command asks for, read in the trace's order.
    fn ask(&mut self) -> client::Ask {
        client::Ask {
            client: self.half(),
            sequence: self.half(),
            group: self.half(),
            interface: self.half(),
            command: self.byte(),
        }
    }

    pub(crate) fn seal(&mut self) -> io::Result<()> {
        let mut buffer = [0; 64];
        let key = self.string(&mut buffer);
        let mut buffer = [0; 64];
        let vector = self.string(&mut buffer);
        let mut buffer = [0; 64];
        let held = self.string(&mut buffer);
        let asked = self.ask();
        let mut buffer = [0; MOST];
        let payload = self.string(&mut buffer);
        let mut buffer = [0; MOST];
        let room = self.room(&mut buffer);
        let said = client::seal_command(key, vector, held, asked, payload, room);
        self.answer("seal", said, room, payload.len() % 65536 + 96)
    }

    pub(crate) fn open(&mut self) -> io::Result<()> {
        let mut buffer = [0; 64];
        let key = self.string(&mut buffer);
        let expected = self.half();
        let mut buffer = [0; MOST];
        let packet = self.string(&mut buffer);
        let mut buffer = [0; MOST];
        let room = self.room(&mut buffer);
        let opened = client::open_reply(key, expected, packet, room);
        let length = opened.map_or(0, |payload| payload.length);
        println!(self.to;
            "open {} {length} {}",
            Said(opened.map(|payload| payload.blocks)),
            Room {
                bytes: room,
                written: length
            }
        )
    }
}
