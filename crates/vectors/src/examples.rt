// What is printed of one example. gcm's `seal` and `open` fill the room's start, as many bytes as the text has, and answer no slice.
use crate::published::{Encryption, Sealing};
use gcm::Unopened;
use hex::{FromHex, FromHexError};
use std::io;
use std::io::{ErrorKind, Result};

type Block = [u8; 16];

// What is wrong with digits that are none; the published ones are.
fn no_digits(_: FromHexError) -> io::Error {
    io::Error::from(ErrorKind::InvalidData)
}

fn block(digits: &str) -> Result<Block> {
    Block::from_hex(digits).map_err(no_digits)
}

// What digits stand for, in a buffer's start. Buffers and no heap: so this program can't run out of memory.
fn decoded<'b>(digits: &str, buffer: &'b mut [u8; 64]) -> Result<&'b [u8]> {
    let bytes = &mut buffer[..(digits.len() / 2).min(64)];
    hex::decode_to_slice(digits, bytes).map_err(no_digits)?;
    Ok(bytes)
}

impl Encryption {
    pub fn run(&self, rt: &HostRuntime) -> Result<()> {
        let c = aes::encrypt(block(self.key)?, block(self.input)?);
        print(rt, self.name, &c)
    }

    pub fn run_prepared(&self, rt: &HostRuntime) -> Result<()> {
        let p = aes::prepare(block(self.key)?);
        let c = aes::encrypt_prepared(&p, block(self.input)?);
        print!(rt; "{}_prepared", self.name)?;
        print(rt, "", &c)
    }
}

impl Sealing {
    // Seals the text, then opens it under its tag, and under that tag with its last bit flipped.
    pub fn run(&self, rt: &HostRuntime) -> Result<()> {
        let key = block(self.key)?;
        let iv = <[u8; 12]>::from_hex(self.iv).map_err(no_digits)?;
        let mut buffer = [0; 64];
        let data = decoded(self.data, &mut buffer)?;
        let mut buffer = [0; 64];
        let text = decoded(self.text, &mut buffer)?;
        let mut room = [0; 64];
        println!(rt; "{}", self.name)?;
        let Some(sealed) = gcm::seal(key, iv, data, text, &mut room) else {
            return println!(rt; "short");
        };
        let c = octets::part(&room, 0, text.len());
        let mut tag = sealed.tag;
        print(rt, "ciphertext", c)?;
        print(rt, "tag", &tag)?;
        println!(rt; "blocks = {}", sealed.blocks)?;
        open(rt, key, iv, data, c, tag)?;
        tag[15] ^= 1;
        open(rt, key, iv, data, c, tag)
    }
}

// Opens a text into a room that holds a5 everywhere.
fn open(
    rt: &HostRuntime,
    key: Block,
    iv: [u8; 12],
    data: &[u8],
    text: &[u8],
    tag: Block,
) -> Result<()> {
    let mut room = [0xa5; 64];
    match gcm::open(key, iv, data, text, tag, &mut room) {
        Err(Unopened::Short) => println!(rt; "short")?,
        Err(Unopened::TagWrong { blocks }) => {
            println!(rt; "refused\nblocks = {blocks}")?;
            print(rt, "room", &room)?;
        }
        Ok(blocks) => {
            println!(rt; "opened\nblocks = {blocks}")?;
            print(rt, "text", octets::part(&room, 0, text.len()))?;
        }
    }
    Ok(())
}

// A line with a label and at most 64 bytes, two digits each. Where there are none it ends at the sign.
fn print(rt: &HostRuntime, label: &str, bytes: &[u8]) -> Result<()> {
    print!(rt; "{label} =")?;
    if !bytes.is_empty() {
        let mut buffer = [0; 128];
        let digits = &mut buffer[..2 * bytes.len().min(64)];
        hex::encode_to_slice(bytes, digits).map_err(no_digits)?;
        print!(rt; " ")?;
        rt.write_all(digits)?;
    }
    println!(rt)
}
