// Runs published examples of AES-128 and of GCM over it, and prints what comes out. It must equal the file `stdout`: the
// encryptions, ciphertexts and tags there are the published ones; the other lines follow from them. A write that fails ends it with an
// error.
//
// The examples are of FIPS 197, appendices B and C.1; of McGrew and Viega, "The Galois/Counter Mode of Operation (GCM)",
// appendix B, test cases 1 to 4; and of NIST's validation set CAVP, gcmEncryptExtIV128.rsp.

#![tactic(auto)]

mod examples;
mod published;

use crate::published::{ENCRYPTIONS, SEALINGS};
use std::io;

fn main(rt: HostRuntime) -> io::Result<()> {
    for example in &ENCRYPTIONS {
        example.run(&rt)?;
    }
    for example in &ENCRYPTIONS {
        example.run_prepared(&rt)?;
    }
    for example in &SEALINGS {
        example.run(&rt)?;
    }
    Ok(())
}
