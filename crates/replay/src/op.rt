// The calls of a trace by their opcodes.

pub(crate) enum Op {
    End,
    Load,
    Request,
    Proof,
    Command,
    Reply,
    Close,
    Revoke,
    Issue,
    Narrow,
    Seal,
    Open,
    Dump,
    Poke,
    Select,
    Note,
}

impl From<u8> for Op {
    // Past the end of the input a byte is 0. What is no opcode is read as a note.
    fn from(opcode: u8) -> Op {
        match opcode {
            0 => Op::End,
            1 => Op::Load,
            2 => Op::Request,
            3 => Op::Proof,
            4 => Op::Command,
            5 => Op::Reply,
            6 => Op::Close,
            7 => Op::Revoke,
            8 => Op::Issue,
            9 => Op::Narrow,
            10 => Op::Seal,
            11 => Op::Open,
            16 => Op::Dump,
            17 => Op::Poke,
            18 => Op::Select,
            _ => Op::Note,
        }
    }
}
