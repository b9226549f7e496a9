// Whether a state is sound (document 01, "The book"): its counts are in range and so is every length and count it uses, and no entry's
// word has a bit at or above its command count. What lies beyond a count isn't judged.
ghost use Rattle.std.specs.Prelude.{◌≡◌, ◌*◌, ◌<◌, get_or};
ghost use Rattle.state.specs.Sound.{interface_sound, sound_rights};

use crate::Rights;

// Interface i, counted from 0: the length of its name, its two counts, and its words.
#[tactic(auto, unfolding(crate::specs::Sound::interface_sound))]
fn interface_sound(rights: &Rights, i: usize) -> bool
    requires { i < 8 }
    ensures { result ≡ interface_sound rights.now.words (i * 16) (get_or rights.now.spans i 0) (get_or rights.now.commands i 0) (get_or rights.now.entries i 0) }
{
    let commands = rights.commands[i];
    let entries = usize::from(rights.entries[i]);
    octets::between(1, 256, usize::from(rights.spans[i]))
        && octets::between(1, 64, usize::from(commands))
        && octets::between(1, 16, entries)
        && (0..entries).all(|j| octets::word_fits(rights.words[i * 16 + j], commands))
}

#[tactic(auto, unfolding(crate::specs::Sound::sound_rights))]
pub fn sound(rights: Rights) -> bool
    ensures { result ≡ sound_rights rights }
{
    let Rights {
        hosts,
        interfaces,
        sizes,
        ..
    } = rights;
    if 32 < hosts || 8 < interfaces {
        return false;
    }
    // By places, as `all_within` counts them: over the first places of the array itself, as a slice, the goal `returns-then-all` stayed open.
    (0..usize::from(hosts)).all(|i| octets::between(1, 256, usize::from(sizes[i])))
        && (0..usize::from(interfaces)).all(|i| interface_sound(&rights, i))
}
