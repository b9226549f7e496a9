// A capability's bytes and words.
ghost use Rattle.std.specs.Prelude.{◌≡◌, ◌≤◌, length, true, false, MatchOption};
ghost use Rattle.octets.specs.Room.{placed};
ghost use Rattle.capability.specs.Rights.{allows, permitted};
ghost use Rattle.capability.specs.Bytes as B;

use octets::Little;

// Four words, one after the other: written out, which shows where each stands.
#[tactic(auto, unfolding(crate::specs::Bytes::word_at))]
pub fn four_at(s: &[u8], start: u16) -> [u64; 4]
    ensures { result ≡ B.four_at s.now start }
{
    let at = usize::from(start);
    [
        u64::at(s, at),
        u64::at(s, at + 8),
        u64::at(s, at + 16),
        u64::at(s, at + 24),
    ]
}

// The words with one more in the first all-ones place, if there is one.
pub(crate) fn narrow_words(mut words: [u64; 4], word: u64) -> Option<[u64; 4]>
    ensures { MatchOption result (B.open? words ≡ false) (λ ws. (B.open? words ≡ true) × (ws ≡ B.narrowed word words)) }
{
    let place = words.iter().position(|&held| held == u64::MAX)?;
    words[place] = word;
    Some(words)
}

// A capability at the start of a room that holds it.
#[tactic(auto, using(crate::proofs::BytesLaws::capability_placed))]
pub(crate) fn put_capability(room: &mut [u8], id: u16, words: [u64; 4], secret: [u8; 16])
    requires { 50 ≤ length room.old }
    ensures { room.new ≡ placed room.old 0 (B.capability id words secret) }
{
    id.put_at(room, 0);
    put_words(room, words);
    octets::put(room, 34, &secret);
}

// Four words from byte 2 on.
#[tactic(auto, using(crate::proofs::BytesLaws::none_placed, crate::proofs::BytesLaws::word_placed), unfolding(crate::specs::Bytes::word_bytes))]
fn put_words(room: &mut [u8], words: [u64; 4])
    requires { 50 ≤ length room.old }
    ensures { room.new ≡ placed room.old 2 (B.word_bytes words) }
{
    for (i, &word) in words.iter().enumerate() {
        word.put_at(room, 2 + 8 * i);
    }
}

// Whether a word allows command c: over 64 bits, so that command 33 isn't command 1.
#[tactic(auto, using(crate::proofs::RightsLaws::allows_past), unfolding(crate::specs::Rights::allows))]
fn allows_command(word: u64, c: u8) -> bool
    ensures { result ≡ allows c word }
{
    c < 64 && (word >> c) % 2 == 1
}

// Whether command c is permitted by an entry's present word and all four words, those after the chain's stop too.
#[tactic(auto, unfolding(crate::specs::Rights::permitted))]
pub fn permits(c: u8, present: u64, words: [u64; 4]) -> bool
    ensures { result ≡ permitted c present words }
{
    allows_command(present, c) && words.iter().all(|&word| allows_command(word, c))
}
