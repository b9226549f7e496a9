// The chain of secrets: "each secret in the chain is the key for the next", by recursion over the words left.
ghost use Rattle.std.specs.Prelude.{◌≡◌, ◌≤◌, ◌+◌, length, replicate};
ghost use Rattle.octets.specs.Little.{octets};
ghost use Rattle.octets.specs.Room.{placed};
ghost use Rattle.aes.specs.Cipher.{cipher};
ghost use Rattle.capability.specs.Chain.{chain, chain_blocks, right_secret, right_blocks};

use octets::Little;

// A secret, and how many blocks were enciphered on the way to it.
#[derive(Clone, Copy, Debug, PartialEq, Eq)]
pub struct Chained {
    pub secret: [u8; 16],
    pub blocks: usize,
}

// The next secret in the chain: the encryption, under the one before, of a block with a number's bytes first and zeros after. The number is the
// ID under the master secret, and a word under any other.
pub(crate) fn next_secret<N: Little>(secret: [u8; 16], number: N) -> [u8; 16]
    ensures { result ≡ cipher secret (placed (replicate 16 0) 0 (octets N.size (N.value number))) }
{
    let mut block = [0; 16];
    number.put_at(&mut block, 0);
    aes::encrypt(secret, block)
}

// The chain from a secret on, over the words left: at most four, and it stops at an all-ones word.
#[tactic(auto, using(octets::proofs::CheckLaws::tests, crate::proofs::ChainLaws::step_made), unfolding(crate::specs::Chain::chain, crate::specs::Chain::chain_blocks))]
fn chain_from(so_far: Chained, words: &[u64]) -> Chained
    requires { so_far.blocks + length words.now ≤ 5 }
    ensures { (result.secret ≡ chain so_far.secret words.now) × (result.blocks ≡ so_far.blocks + length (chain_blocks so_far.secret words.now)) }
{
    let Some((&word, rest)) = words.split_first() else {
        return so_far;
    };
    if word == u64::MAX {
        return so_far;
    }
    let next = Chained {
        secret: next_secret(so_far.secret, word),
        blocks: so_far.blocks + 1,
    };
    chain_from(next, rest)
}

// The right secret of a capability with that ID and those words, under a master secret.
#[tactic(auto, using(crate::proofs::ChainLaws::first_made), unfolding(crate::specs::Chain::right_secret, crate::specs::Chain::right_blocks))]
pub fn right_secret(master: [u8; 16], id: u16, words: [u64; 4]) -> Chained
    ensures { (result.secret ≡ right_secret master id words) × (result.blocks ≡ length (right_blocks master id words)) }
{
    let first = Chained {
        secret: next_secret(master, id),
        blocks: 1,
    };
    chain_from(first, &words)
}
