// The checks of a command, each against its table.
ghost use Rattle.std.specs.Prelude.{◌≡◌, ◌||◌, ◌-◌, ◌≤◌, eqb, length};
ghost use Rattle.octets.specs.Checks.{is_zero, ◌then◌};
ghost use Rattle.refusal.specs.Numbers.{number_of};
ghost use Rattle.fields.specs.Command.{client_of};
ghost use Rattle.command.specs.Command.{outer, inner, rightful};

use octets::Little;
use refusal::Refusal;

// The packet's open part, the connection and the room: 39, then 1 to 7.
#[tactic(auto, unfolding(crate::specs::Command::outer))]
pub(crate) fn outer(v: view::View, packet: &[u8], room: usize) -> Result<(), Refusal>
    ensures { number_of result ≡ outer v packet.now room }
{
    if !v.good {
        return Err(Refusal::Unsound);
    }
    let n = packet.len();
    if n < 96 {
        return Err(Refusal::Below);
    }
    if 16480 < n {
        return Err(Refusal::Above);
    }
    if u16::at(packet, 2) != 0 {
        return Err(Refusal::Zeros);
    }
    if view::no_such(u16::at(packet, 0), v.hosts) {
        return Err(Refusal::NoHost);
    }
    if 128 <= u8::at(packet, 4) {
        return Err(Refusal::Vector);
    }
    let state::Phase::Open { .. } = v.held.phase else {
        return Err(Refusal::NotOpen);
    };
    if room < n - 96 {
        return Err(Refusal::RoomShort);
    }
    Ok(())
}

// Whether a group is 0 or the one that is asked for.
fn of_group(group: u16, asked: u16) -> bool
    ensures { result ≡ (is_zero group || eqb group asked) }
{
    group == 0 || group == asked
}

// What the text says against the packet and the connection: 9 to 14.
#[tactic(auto, unfolding(crate::specs::Command::inner))]
fn inner(v: view::View, client: u16, n: usize, o: fields::Order) -> Result<(), Refusal>
    ensures { number_of result ≡ inner v client n o }
{
    if o.client != client {
        return Err(Refusal::ClientDiffers);
    }
    if o.zeros != 0 {
        return Err(Refusal::InnerZeros);
    }
    if usize::from(o.length) != n {
        return Err(Refusal::LengthField);
    }
    let state::Phase::Open { last, .. } = v.held.phase else {
        return Err(Refusal::NotFresh);
    };
    if o.sequence <= last {
        return Err(Refusal::NotFresh);
    }
    if !of_group(o.group, v.group) {
        return Err(Refusal::Group);
    }
    if view::no_such(o.interface, v.interfaces) {
        return Err(Refusal::NoInterface);
    }
    Ok(())
}

// What the text says against the right that it names: 15 to 18. Right and order stay two parameters: a pair of them would be made in one
// function only to be taken apart in the others.
#[tactic(auto, unfolding(crate::specs::Command::rightful))]
fn rightful(f: view::Right, o: fields::Order) -> Result<(), Refusal>
    ensures { number_of result ≡ rightful f o }
{
    if view::no_such(o.capability, f.entries) {
        return Err(Refusal::NoEntry);
    }
    if !of_group(f.owner, o.group) {
        return Err(Refusal::EntryGroup);
    }
    if f.commands <= u16::from(o.command) {
        return Err(Refusal::NoCommand);
    }
    if !capability::permits(o.command, f.word, o.words) {
        return Err(Refusal::NotPermitted);
    }
    Ok(())
}

// The text's checks but the last: 9 to 18. f is the right that the order names.
pub(crate) fn judged(
    v: view::View,
    f: view::Right,
    client: u16,
    n: usize,
    o: fields::Order,
) -> Result<(), Refusal>
    ensures { number_of result ≡ (inner v client n o then rightful f o) }
{
    inner(v, client, n, o)?;
    rightful(f, o)
}
