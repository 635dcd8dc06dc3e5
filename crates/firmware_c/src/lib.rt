// The exports of the static library, for firmware in C: each calls crates/firmware's function of its name, with that one's contract.
// include/nakshvilor.h describes them, their arguments too; C links each by its own name, so receive and quiet have one for each dialect.
#![tactic(auto)]

mod lecom_entries;
mod love_entries;
mod lucid_entries;

ghost use Rattle.std.specs.Prelude.{length};
ghost use Rattle.card.specs.Layout.{card_of};
ghost use Rattle.card.specs.Reply.{Gave, Did};
ghost use Rattle.card.specs.Entries.{set_code, restart};
ghost use Rattle.datalink.specs.Answer.{datalink_reply};
ghost use Rattle.lecom.specs.Answer.{lecom_reply};
ghost use Rattle.love.specs.Answer.{love_reply};
ghost use Rattle.lucid.specs.Answer.{lucid_reply};
ghost use Rattle.receive.specs.Receive.{receive_reply, quiet_reply, Took};
ghost use Rattle.receive.specs.declared.Dialect.TheVariants.{Datalink, Lecom, Love, Lucid};
ghost use Rattle.image.specs.Entries.{write_image, read_image};
ghost use Rattle.master.specs.Step.{Stepped};
ghost use Rattle.firmware.specs.Lent.{HandedReading};
ghost use Rattle.firmware.specs.Phases.{request_in_c, step_in_c};

#[unsafe(no_mangle)]
pub extern "C" fn nk_set_code(
    words: &[u32],
    memory: &mut [u8],
    ports: &[u8],
    channel: u32,
    code: u8,
) -> u8
    ensures { let before = card_of words.now memory.old ports.now in
        let after = card_of words.now memory.new ports.now in
        Did (set_code before channel code) result after }
{
    firmware::nk_set_code(words, memory, ports, channel, code)
}

#[unsafe(no_mangle)]
pub extern "C" fn nk_restart(words: &mut [u32], memory: &mut [u8], ports: &mut [u8]) -> u8
    ensures { let before = card_of words.old memory.old ports.old in
        let after = card_of words.new memory.new ports.new in
        Did (restart before) result after }
{
    firmware::nk_restart(words, memory, ports)
}

#[unsafe(no_mangle)]
pub extern "C" fn nk_governor(
    words: &[u32],
    memory: &[u8],
    ports: &[u8],
    channel: u32,
    degrees: &mut f32,
) -> u8
    ensures { let before = card_of words.now memory.now ports.now in
        let after = card_of words.now memory.now ports.now in
        HandedReading before channel degrees.old result after degrees.new }
{
    firmware::nk_governor(words, memory, ports, channel, degrees)
}

#[unsafe(no_mangle)]
pub extern "C" fn nk_datalink(
    words: &[u32],
    memory: &mut [u8],
    ports: &mut [u8],
    frame: &[u8],
    answer: &mut [u8],
    len: &mut usize,
) -> u8
    ensures { let before = card_of words.now memory.old ports.old in
        let after = card_of words.now memory.new ports.new in
        Gave (datalink_reply before (length answer.old) frame.now) answer.old (record { number = result; len = len.new }) after answer.new }
{
    firmware::nk_datalink(words, memory, ports, frame, answer, len)
}

#[unsafe(no_mangle)]
pub extern "C" fn nk_lecom(
    words: &mut [u32],
    memory: &[u8],
    ports: &[u8],
    frame: &[u8],
    answer: &mut [u8],
    len: &mut usize,
) -> u8
    ensures { let before = card_of words.old memory.now ports.now in
        let after = card_of words.new memory.now ports.now in
        Gave (lecom_reply before (length answer.old) frame.now) answer.old (record { number = result; len = len.new }) after answer.new }
{
    firmware::nk_lecom(words, memory, ports, frame, answer, len)
}

#[unsafe(no_mangle)]
pub extern "C" fn nk_love(
    words: &mut [u32],
    memory: &[u8],
    ports: &[u8],
    frame: &[u8],
    answer: &mut [u8],
    len: &mut usize,
) -> u8
    ensures { let before = card_of words.old memory.now ports.now in
        let after = card_of words.new memory.now ports.now in
        Gave (love_reply before (length answer.old) frame.now) answer.old (record { number = result; len = len.new }) after answer.new }
{
    firmware::nk_love(words, memory, ports, frame, answer, len)
}

#[unsafe(no_mangle)]
pub extern "C" fn nk_lucid(
    words: &mut [u32],
    memory: &[u8],
    ports: &[u8],
    frame: &[u8],
    answer: &mut [u8],
    len: &mut usize,
) -> u8
    ensures { let before = card_of words.old memory.now ports.now in
        let after = card_of words.new memory.now ports.now in
        Gave (lucid_reply before (length answer.old) frame.now) answer.old (record { number = result; len = len.new }) after answer.new }
{
    firmware::nk_lucid(words, memory, ports, frame, answer, len)
}

#[unsafe(no_mangle)]
pub extern "C" fn nk_receive_datalink(
    words: &[u32],
    memory: &[u8],
    ports: &mut [u8],
    bytes: &[u8],
    frame: &mut [u8],
    taken: &mut usize,
    len: &mut usize,
) -> u8
    ensures { let before = card_of words.now memory.now ports.old in
        let after = card_of words.now memory.now ports.new in
        Took (receive_reply Datalink before (length frame.old) bytes.now) frame.old (record { number = result; taken = taken.new; len = len.new }) after frame.new }
{
    firmware::nk_receive_datalink(words, memory, ports, bytes, frame, taken, len)
}

#[unsafe(no_mangle)]
pub extern "C" fn nk_receive_lecom(
    words: &[u32],
    memory: &[u8],
    ports: &mut [u8],
    bytes: &[u8],
    frame: &mut [u8],
    taken: &mut usize,
    len: &mut usize,
) -> u8
    ensures { let before = card_of words.now memory.now ports.old in
        let after = card_of words.now memory.now ports.new in
        Took (receive_reply Lecom before (length frame.old) bytes.now) frame.old (record { number = result; taken = taken.new; len = len.new }) after frame.new }
{
    firmware::nk_receive_lecom(words, memory, ports, bytes, frame, taken, len)
}

#[unsafe(no_mangle)]
pub extern "C" fn nk_receive_love(
    words: &[u32],
    memory: &[u8],
    ports: &mut [u8],
    bytes: &[u8],
    frame: &mut [u8],
    taken: &mut usize,
    len: &mut usize,
) -> u8
    ensures { let before = card_of words.now memory.now ports.old in
        let after = card_of words.now memory.now ports.new in
        Took (receive_reply Love before (length frame.old) bytes.now) frame.old (record { number = result; taken = taken.new; len = len.new }) after frame.new }
{
    firmware::nk_receive_love(words, memory, ports, bytes, frame, taken, len)
}

#[unsafe(no_mangle)]
pub extern "C" fn nk_receive_lucid(
    words: &[u32],
    memory: &[u8],
    ports: &mut [u8],
    bytes: &[u8],
    frame: &mut [u8],
    taken: &mut usize,
    len: &mut usize,
) -> u8
    ensures { let before = card_of words.now memory.now ports.old in
        let after = card_of words.now memory.now ports.new in
        Took (receive_reply Lucid before (length frame.old) bytes.now) frame.old (record { number = result; taken = taken.new; len = len.new }) after frame.new }
{
    firmware::nk_receive_lucid(words, memory, ports, bytes, frame, taken, len)
}

#[unsafe(no_mangle)]
pub extern "C" fn nk_quiet_datalink(words: &[u32], memory: &[u8], ports: &mut [u8]) -> u8
    ensures { let before = card_of words.now memory.now ports.old in
        let after = card_of words.now memory.now ports.new in
        Did (quiet_reply Datalink before) result after }
{
    firmware::nk_quiet_datalink(words, memory, ports)
}

#[unsafe(no_mangle)]
pub extern "C" fn nk_quiet_lecom(words: &[u32], memory: &[u8], ports: &mut [u8]) -> u8
    ensures { let before = card_of words.now memory.now ports.old in
        let after = card_of words.now memory.now ports.new in
        Did (quiet_reply Lecom before) result after }
{
    firmware::nk_quiet_lecom(words, memory, ports)
}

#[unsafe(no_mangle)]
pub extern "C" fn nk_quiet_love(words: &[u32], memory: &[u8], ports: &mut [u8]) -> u8
    ensures { let before = card_of words.now memory.now ports.old in
        let after = card_of words.now memory.now ports.new in
        Did (quiet_reply Love before) result after }
{
    firmware::nk_quiet_love(words, memory, ports)
}

#[unsafe(no_mangle)]
pub extern "C" fn nk_quiet_lucid(words: &[u32], memory: &[u8], ports: &mut [u8]) -> u8
    ensures { let before = card_of words.now memory.now ports.old in
        let after = card_of words.now memory.now ports.new in
        Did (quiet_reply Lucid before) result after }
{
    firmware::nk_quiet_lucid(words, memory, ports)
}

#[unsafe(no_mangle)]
pub extern "C" fn nk_write_image(
    words: &[u32],
    memory: &[u8],
    ports: &[u8],
    image: &mut [u8],
    len: &mut usize,
) -> u8
    ensures { let before = card_of words.now memory.now ports.now in
        let after = card_of words.now memory.now ports.now in
        Gave (write_image before (length image.old)) image.old (record { number = result; len = len.new }) after image.new }
{
    firmware::nk_write_image(words, memory, ports, image, len)
}

#[unsafe(no_mangle)]
pub extern "C" fn nk_read_image(words: &mut [u32], memory: &[u8], ports: &[u8], image: &[u8]) -> u8
    ensures { let before = card_of words.old memory.now ports.now in
        let after = card_of words.new memory.now ports.now in
        Did (read_image before image.now) result after }
{
    firmware::nk_read_image(words, memory, ports, image)
}

#[unsafe(no_mangle)]
pub extern "C" fn nk_step(
    phase: &mut u8,
    kind: u8,
    ia: u32,
    address: u32,
    sent: &[u8],
    states: &[u8],
    answer: &[u8],
    frame: &mut [u8],
    len: &mut usize,
) -> u8
    ensures { let q = request_in_c kind ia address sent.now states.now in
        let before = frame.old in
        Stepped (step_in_c q phase.old answer.now (length before)) before result len.new phase.new frame.new }
{
    firmware::nk_step(phase, kind, ia, address, sent, states, answer, frame, len)
}
