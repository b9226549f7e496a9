// A state, or a refused book, as text that a person can read (document 01, "Samples", the listing).

#![tactic(auto)]

mod lines;
mod text;

ghost use Rattle.std.specs.Prelude.{◌≡◌};
ghost use Rattle.std.specs.Result.{result_unwrap_or};
ghost use Rattle.refusal.specs.Numbers.{number_of};
ghost use Rattle.listing.specs.Lines.{render_refusal, render_length, render_room, refused_length, refused_room};

use crate::text::Page;
use refusal::Refusal;

const LONGEST: usize = 11264;

// Writes the listing of a state at the start of the room, and answers how many bytes that is. Refused for a state that isn't sound (39), and for a
// room below 11,264 bytes, which hold every listing (7); then nothing is written.
pub fn render(
    rights: state::Rights,
    names: &[u8],
    labels: &[u8],
    room: &mut [u8],
) -> Result<usize, Refusal>
    ensures { (number_of result ≡ render_refusal rights room.old)
        × (result_unwrap_or result 0 ≡ render_length rights names.now labels.now room.old)
        × (room.new ≡ render_room rights names.now labels.now room.old) }
{
    if !state::sound(rights) {
        return Err(Refusal::Unsound);
    }
    if room.len() < LONGEST {
        return Err(Refusal::RoomShort);
    }
    let mut page = Page { room, at: 0 };
    lines::counts_line(&mut page, &rights);
    lines::host_lines(&mut page, &rights, names);
    lines::interface_lines(&mut page, &rights, labels);
    Ok(page.at)
}

// Writes `refused N at M` at the start of the room, where it fits (24 bytes are enough), and answers how many bytes that is; 0 where
// it may not fit, and then nothing is written (clause `value`). It takes every number: a `Refusal` would ask more of callers.
pub fn render_refused(number: u8, offset: usize, room: &mut [u8]) -> usize
    ensures value { result ≡ refused_length number offset room.old }
    ensures room_after { room.new ≡ refused_room number offset room.old }
{
    let Ok(offset) = u16::try_from(offset) else {
        return 0;
    };
    if room.len() < 24 {
        return 0;
    }
    let mut page = Page { room, at: 0 };
    page.put_labelled(b"refused ", u16::from(number));
    page.put_labelled(b" at ", offset);
    page.put(b"\n");
    page.at
}
