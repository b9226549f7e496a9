// The client's calls, for a machine's firmware: `lent::machine`'s under C's names.
ghost use Rattle.std.specs.Prelude.{◌≡◌};
ghost use Rattle.aes.specs.Cipher.{cipher};
ghost use Rattle.capability.specs.Calls.{issue_refusal, issued, issue_blocks, narrow_refusal, narrowing, narrow_blocks, answer, written};
ghost use Rattle.client.specs.declared.seal.Ask.{Ask};
ghost use Rattle.client.specs.Seal.{sealing, seal_room};
ghost use Rattle.client.specs.OpenReply.{opened, open_room};

// key := the key of the connection that a proof opens, at both ends: "the AES-128 encryption of block challenge 3 under key challenge 2".
#[unsafe(no_mangle)]
pub extern "C" fn dq_connection_key(
    challenge2: &[u8; 16],
    challenge3: &[u8; 16],
    key: &mut [u8; 16],
)
    ensures { key.new ≡ cipher challenge2.now challenge3.now }
{
    lent::machine::dq_connection_key(challenge2, challenge3, key)
}

// Issues the capability of an ID under an interface's master secret: 50 bytes at the start of the room.
#[unsafe(no_mangle)]
pub extern "C" fn dq_issue(master: &[u8], id: u16, room: &mut [u8], blocks: &mut usize) -> u8
    ensures { let n = issue_refusal master.now id room.old in
        (result ≡ n)
        × (room.new ≡ written n (issued master.now id) room.old)
        × (blocks.new ≡ (answer n (issue_blocks master.now id)).blocks) }
{
    lent::machine::dq_issue(master, id, room, blocks)
}

// Narrows a capability by a word: the narrowed one, 50 bytes, at the start of the room.
#[unsafe(no_mangle)]
pub extern "C" fn dq_narrow(capability: &[u8], word: u64, room: &mut [u8], blocks: &mut usize) -> u8
    ensures { let n = narrow_refusal capability.now word room.old in
        (result ≡ n)
        × (room.new ≡ written n (narrowing capability.now word) room.old)
        × (blocks.new ≡ (answer n (narrow_blocks capability.now word)).blocks) }
{
    lent::machine::dq_narrow(capability, word, room, blocks)
}

// Seals a command: the packet at the start of the room.
#[unsafe(no_mangle)]
pub extern "C" fn dq_seal_command(
    key: &[u8],
    vector: &[u8],
    capability: &[u8],
    client: u16,
    sequence: u16,
    group: u16,
    interface: u16,
    command: u8,
    payload: &[u8],
    room: &mut [u8],
    blocks: &mut usize,
) -> u8
    ensures { (
        let ask : Ask = record { client = client; sequence = sequence; group = group; interface = interface; command = command } in
        let said = sealing key.now vector.now capability.now ask payload.now room.old in
        (result ≡ said.number)
        × (room.new ≡ seal_room key.now vector.now capability.now ask payload.now room.old)
        × (blocks.new ≡ said.blocks)
        ) }
{
    lent::machine::dq_seal_command(
        key, vector, capability, client, sequence, group, interface, command, payload, room, blocks,
    )
}

// Opens the reply for the expected number: its payload at the start of the room; length := how long that is, 0 on a refusal.
#[unsafe(no_mangle)]
pub extern "C" fn dq_open_reply(
    key: &[u8],
    expected: u16,
    reply: &[u8],
    room: &mut [u8],
    length: &mut usize,
    blocks: &mut usize,
) -> u8
    ensures { let said = opened key.now expected reply.now room.old in
        (result ≡ said.number)
        × (room.new ≡ open_room key.now expected reply.now room.old)
        × (length.new ≡ said.length)
        × (blocks.new ≡ said.blocks) }
{
    lent::machine::dq_open_reply(key, expected, reply, room, length, blocks)
}
