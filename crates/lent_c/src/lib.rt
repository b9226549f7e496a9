// What firmware links, under C's names: the static library that `gateway archive` writes as libdeebqoshaan.a (include/deebqoshaan.h). Each function is
// `lent`'s of the same name, with the same contract.

#![tactic(auto)]

mod machine;

ghost use Rattle.std.specs.Prelude.{◌≡◌};
ghost use Rattle.book.specs.States.{loaded};
ghost use Rattle.promises.specs.Step as Step;

// Loads a book into the lent state, which is the empty one if the book is refused; offset := the place of the fault, 0 if accepted.
#[unsafe(no_mangle)]
pub extern "C" fn dq_load(
    state: &mut state::State,
    book: &[u8],
    offset: &mut usize,
    blocks: &mut usize,
) -> u8
    ensures { let l = loaded book.now in
        (result ≡ l.number)
        × (state.new ≡ l.state)
        × (offset.new ≡ l.offset)
        × (blocks.new ≡ l.blocks) }
{
    lent::dq_load(state, book, offset, blocks)
}

// A host asks for a connection: the two challenges of an accepted request at the start of the room.
#[unsafe(no_mangle)]
pub extern "C" fn dq_request(
    state: &mut state::State,
    request: &[u8],
    fresh: &[u8],
    room: &mut [u8],
    host: &mut u16,
    blocks: &mut usize,
) -> u8
    ensures { let s = state.old in
        let c = Step.request request.now fresh.now room.old in
        (result ≡ (Step.answer s c).number)
        × (state.new ≡ Step.next s c)
        × (room.new ≡ (Step.answer s c).room)
        × (host.new ≡ (Step.answer s c).host)
        × (blocks.new ≡ (Step.answer s c).blocks) }
{
    lent::dq_request(state, request, fresh, room, host, blocks)
}

// Answers a proof: the 20 bytes of an accepted one at the start of the room.
#[unsafe(no_mangle)]
pub extern "C" fn dq_proof(
    state: &mut state::State,
    host: u16,
    proof: &[u8],
    room: &mut [u8],
    blocks: &mut usize,
) -> u8
    ensures { let s = state.old in
        let c = Step.proof host proof.now room.old in
        (result ≡ (Step.answer s c).number)
        × (state.new ≡ Step.next s c)
        × (room.new ≡ (Step.answer s c).room)
        × (blocks.new ≡ (Step.answer s c).blocks) }
{
    lent::dq_proof(state, host, proof, room, blocks)
}

// Judges a command packet; where it is accepted its payload is written to the start of the room. order := its inner fields, all 0 on a refusal.
#[unsafe(no_mangle)]
pub extern "C" fn dq_command(
    state: &mut state::State,
    packet: &[u8],
    room: &mut [u8],
    order: &mut fields::Order,
    blocks: &mut usize,
) -> u8
    ensures { let s = state.old in
        let c = Step.command packet.now room.old in
        (result ≡ (Step.answer s c).number)
        × (state.new ≡ Step.next s c)
        × (room.new ≡ (Step.answer s c).room)
        × (order.new ≡ (Step.answer s c).order)
        × (blocks.new ≡ (Step.answer s c).blocks) }
{
    lent::dq_command(state, packet, room, order, blocks)
}

// Seals the reply for a host's last accepted command into the start of the room.
#[unsafe(no_mangle)]
pub extern "C" fn dq_reply(
    state: &mut state::State,
    host: u16,
    sequence: u16,
    payload: &[u8],
    room: &mut [u8],
    blocks: &mut usize,
) -> u8
    ensures { let s = state.old in
        let c = Step.reply host sequence payload.now room.old in
        (result ≡ (Step.answer s c).number)
        × (state.new ≡ Step.next s c)
        × (room.new ≡ (Step.answer s c).room)
        × (blocks.new ≡ (Step.answer s c).blocks) }
{
    lent::dq_reply(state, host, sequence, payload, room, blocks)
}

// Closes a host's connection.
#[unsafe(no_mangle)]
pub extern "C" fn dq_close(state: &mut state::State, host: u16, blocks: &mut usize) -> u8
    ensures { let s = state.old in
        let c = Step.close host in
        (result ≡ (Step.answer s c).number)
        × (state.new ≡ Step.next s c)
        × (blocks.new ≡ (Step.answer s c).blocks) }
{
    lent::dq_close(state, host, blocks)
}

// Takes permitted bits away from an entry, at once.
#[unsafe(no_mangle)]
pub extern "C" fn dq_revoke(
    state: &mut state::State,
    interface: u16,
    entry: u16,
    word: u64,
    blocks: &mut usize,
) -> u8
    ensures { let s = state.old in
        let c = Step.revoke interface entry word in
        (result ≡ (Step.answer s c).number)
        × (state.new ≡ Step.next s c)
        × (blocks.new ≡ (Step.answer s c).blocks) }
{
    lent::dq_revoke(state, interface, entry, word, blocks)
}
