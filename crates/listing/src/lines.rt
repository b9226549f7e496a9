// The lines of a listing. The page is written and the rights are read: as fields of one struct each contract would say old and new of
// what doesn't change.
ghost use Rattle.std.specs.Prelude.{◌≡◌, true, ◌+◌, ◌*◌, ◌≤◌, ◌<◌, length, get_or};
ghost use Rattle.state.specs.Sound.{sound_rights};
ghost use Rattle.listing.specs.Lines.{ending, counts_line, host_line, interface_line, lines_from};
ghost use Rattle.listing.specs.Page.{HasRoom, Adds};

use crate::text::Page;

pub(crate) fn counts_line(page: &mut Page<'_>, rights: &state::Rights)
    requires { HasRoom page.old 32 }
    ensures { Adds page.old (counts_line rights.now) page.new }
{
    page.put_labelled(b"hosts ", rights.hosts);
    page.put_labelled(b" interfaces ", rights.interfaces);
    page.put(b"\n");
}

// A name at the end of a line.
fn put_ending(page: &mut Page<'_>, name: &[u8])
    requires { HasRoom page.old (length name.now + 2) }
    ensures { Adds page.old (ending name.now) page.new }
{
    page.put(b" ");
    page.put(name);
    page.put(b"\n");
}

fn host_line(page: &mut Page<'_>, rights: &state::Rights, names: &[u8], i: u16)
    requires { (i < 32) × (get_or rights.now.sizes i 0 ≤ 256) × HasRoom page.old 280 }
    ensures { Adds page.old (host_line rights.now names.now i) page.new }
{
    let k = usize::from(i);
    page.put_labelled(b"host ", i + 1);
    page.put_labelled(b" group ", rights.groups[k]);
    put_ending(
        page,
        octets::part(names, 256 * k, usize::from(rights.sizes[k])),
    );
}

fn interface_line(page: &mut Page<'_>, rights: &state::Rights, labels: &[u8], i: u16)
    requires { (i < 8) × (get_or rights.now.spans i 0 ≤ 256) × HasRoom page.old 302 }
    ensures { Adds page.old (interface_line rights.now labels.now i) page.new }
{
    let k = usize::from(i);
    page.put_labelled(b"interface ", i + 1);
    page.put_labelled(b" commands ", rights.commands[k]);
    page.put_labelled(b" entries ", rights.entries[k]);
    put_ending(
        page,
        octets::part(labels, 256 * k, usize::from(rights.spans[k])),
    );
}

// The hosts' lines, of at most 277 bytes each. Two loops, here and below, and not one that takes the line as a closure: what the line
// requires and `Adds` would have to be said of a closure that writes the page, and each loop is three lines.
pub(crate) fn host_lines(page: &mut Page<'_>, rights: &state::Rights, names: &[u8])
    requires { (sound_rights rights.now ≡ true) × HasRoom page.old (rights.now.hosts * 277 + 3) }
    ensures { Adds page.old (lines_from (host_line rights.now names.now) 0 rights.now.hosts) page.new }
{
    for i in 0..rights.hosts {
        host_line(page, rights, names, i);
    }
}

// The interfaces' lines, of at most 292 bytes each.
pub(crate) fn interface_lines(page: &mut Page<'_>, rights: &state::Rights, labels: &[u8])
    requires { (sound_rights rights.now ≡ true) × HasRoom page.old (rights.now.interfaces * 292 + 10) }
    ensures { Adds page.old (lines_from (interface_line rights.now labels.now) 0 rights.now.interfaces) page.new }
{
    for i in 0..rights.interfaces {
        interface_line(page, rights, labels, i);
    }
}
