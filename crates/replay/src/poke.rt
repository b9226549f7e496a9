// Stores into the selected state without any check: this makes the states that nobody loaded. Places past the arrays are let be.
use crate::Player;
use state::State;
use std::io::Read;

enum What {
    Hosts,
    Interfaces,
    Size,
    Span,
    Commands,
    Entries,
    Word,
    Name,
}

impl TryFrom<u8> for What {
    type Error = ();

    fn try_from(what: u8) -> Result<What, ()> {
        match what {
            1 => Ok(What::Hosts),
            2 => Ok(What::Interfaces),
            3 => Ok(What::Size),
            4 => Ok(What::Span),
            5 => Ok(What::Commands),
            6 => Ok(What::Entries),
            7 => Ok(What::Word),
            8 => Ok(What::Name),
            _ => Err(()),
        }
    }
}

fn set(values: &mut [u16], i: Option<usize>, x: u16) {
    let Some(i) = i else { return };
    if let Some(v) = values.get_mut(i) {
        *v = x;
    }
}

// Host, interface and entry numbers count from 1; 0 is no place.
fn place(n: u16) -> Option<usize> {
    usize::from(n).checked_sub(1)
}

// The name of host i is made that of host k.
fn rename(s: &mut State, i: Option<usize>, k: Option<usize>) {
    let (Some(i), Some(k)) = (i, k) else { return };
    if i < 32 && k < 32 {
        s.rights.sizes[i] = s.rights.sizes[k];
        s.names.copy_within(k * 256..k * 256 + 256, i * 256);
    }
}

impl<R: Read + Drop, P: Print + Drop> Player<R, P> {
    pub(crate) fn poke(&mut self, s: &mut State) {
        let what = What::try_from(self.byte());
        let i = place(self.half());
        let k = place(self.half());
        let value = self.word();
        // `as`, meant to cut off: a value for a u16 is its low sixteen bits.
        let x = (value & 0xffff) as u16;
        let r = &mut s.rights;
        match what {
            Ok(What::Hosts) => r.hosts = x,
            Ok(What::Interfaces) => r.interfaces = x,
            Ok(What::Size) => set(&mut r.sizes, i, x),
            Ok(What::Span) => set(&mut r.spans, i, x),
            Ok(What::Commands) => set(&mut r.commands, i, x),
            Ok(What::Entries) => set(&mut r.entries, i, x),
            Ok(What::Word) => {
                if let (Some(i), Some(k)) = (i, k) {
                    *r = state::with_word(*r, i, k, value);
                }
            }
            Ok(What::Name) => rename(s, i, k),
            Err(()) => {}
        }
    }
}
