// Fields of a call, read from the input one after the other. Past the end of the input, and where a read fails, they are 0 and empty.
use crate::Player;
use crate::op::Op;
use std::io::Read;

// No byte string and no room is longer. Fixed buffers and no heap: so no read can run out of memory, and main needs no answer for that.
pub(crate) const MOST: usize = 20000;

impl<R: Read + Drop, P: Print + Drop> Player<R, P> {
    fn bytes<const N: usize>(&mut self) -> [u8; N] {
        let mut out = [0; N];
        reading::read_full(&mut self.from, &mut out);
        out
    }

    pub(crate) fn op(&mut self) -> Op {
        Op::from(self.byte())
    }

    pub(crate) fn byte(&mut self) -> u8 {
        u8::from_le_bytes(self.bytes())
    }

    pub(crate) fn half(&mut self) -> u16 {
        u16::from_le_bytes(self.bytes())
    }

    pub(crate) fn word(&mut self) -> u64 {
        u64::from_le_bytes(self.bytes())
    }

    // The length of a byte string or a room. `as`: std has no From<u32> for usize.
    fn size(&mut self) -> usize {
        u32::from_le_bytes(self.bytes()) as usize
    }

    // A byte string, at the start of the buffer; the empty one where it is longer.
    pub(crate) fn string<'b>(&mut self, buffer: &'b mut [u8]) -> &'b [u8] {
        let mut size = self.size();
        if buffer.len() < size {
            size = 0;
        }
        let n = reading::read_full(&mut self.from, &mut buffer[..size]);
        &buffer[..n]
    }

    // A room that is lent, at the start of the buffer: at most what there is.
    pub(crate) fn room<'b>(&mut self, buffer: &'b mut [u8]) -> &'b mut [u8] {
        let size = self.size().min(buffer.len());
        let room = &mut buffer[..size];
        room.fill(0xa5);
        room
    }
}
