// The entries that set a probe code and restart.
ghost use Rattle.std.specs.Prelude.{◌≡◌, length};
ghost use Rattle.card.specs.Layout.{card_of, word_count, memory_size};
ghost use Rattle.card.specs.Entries.{set_code, restart, full_demands, restored_parameters, restored_registers, faulted};
ghost use Rattle.card.specs.Reply.{Did};

use crate::change::NO_CHANGE;
use crate::fitness::{DEMAND_MOST, is_fit};
use crate::layout::{
    BUFFER, CHANNELS, DEMANDS, KIND, OPERATIONAL, PARAMETER_COUNT, PARAMETERS, REGISTERS,
    SAVED_PARAMETERS, SAVED_REGISTERS,
};
use crate::numbers::{CARD_UNFIT, DONE, RANGE_UNKNOWN};
use crate::probe::FAULT_CODE;
use crate::row::drop_parts;

// Sets the code of a probe. Words and the port's row are lent for the test of fitness only.
pub fn set_code(words: &[u32], memory: &mut [u8], ports: &[u8], channel: u32, code: u8) -> u8
    ensures { let before = card_of words.now memory.old ports.now in
        let after = card_of words.now memory.new ports.now in
        Did (set_code before channel code) result after }
{
    if !is_fit(words, memory, ports) {
        return CARD_UNFIT;
    }
    if CHANNELS as u32 <= channel {
        return RANGE_UNKNOWN;
    }
    memory[channel as usize] = code;
    DONE
}

// Buffer and operational become saved, both in one loop: each word is read once. With two moves in its place a restart took 1360
// instructions, with the loop 421.
// A slice here and below, and no array: a conversion behind the test of fitness would have an arm that is never taken.
fn restore_registers(words: &mut [u32])
    requires { length words.old ≡ word_count }
    ensures { words.new ≡ restored_registers words.old }
{
    for i in 0..REGISTERS {
        let x = words[SAVED_REGISTERS + i];
        words[BUFFER + i] = x;
        words[OPERATIONAL + i] = x;
    }
}

// Buffer and operational become saved, and parameters their saved copy.
fn restore(words: &mut [u32])
    requires { length words.old ≡ word_count }
    ensures { words.new ≡ restored_parameters (restored_registers words.old) }
{
    restore_registers(words);
    wire::move_words(words, SAVED_PARAMETERS, PARAMETERS, PARAMETER_COUNT);
}

// Every demand becomes full.
fn fill_demands(words: &mut [u32])
    requires { length words.old ≡ word_count }
    ensures { words.new ≡ full_demands words.old }
{
    words[DEMANDS..PARAMETERS].fill(DEMAND_MOST);
}

// Every probe code becomes a fault.
fn fault_probes(memory: &mut [u8])
    requires { length memory.old ≡ memory_size }
    ensures { memory.new ≡ faulted memory.old }
{
    memory[..CHANNELS].fill(FAULT_CODE);
}

// Restart, as the card does it when its supply comes back.
pub fn restart_card(words: &mut [u32], memory: &mut [u8], ports: &mut [u8]) -> u8
    ensures { let before = card_of words.old memory.old ports.old in
        let after = card_of words.new memory.new ports.new in
        Did (restart before) result after }
{
    if !is_fit(words, memory, ports) {
        return CARD_UNFIT;
    }
    restore(words);
    fill_demands(words);
    fault_probes(memory);
    drop_parts(ports);
    ports[KIND] = NO_CHANGE;
    DONE
}
