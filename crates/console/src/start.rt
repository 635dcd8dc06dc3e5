// The card that the console starts with.
ghost use Rattle.std.specs.Prelude.{◌≡◌, replicate};
ghost use Rattle.card.specs.Layout.{card_of, word_count, memory_size};
ghost use Rattle.card.specs.Start.{start_words, start_memory, start_card};

use card::fitness::{CYCLE_DEFAULT, DEMAND_MOST, FLOOR_DEFAULT};
use card::layout::{BUFFER, CHANNELS, MEMORY, ROW, WORDS};
use card::probe::FAULT_CODE;
use tables::Tables;

// The addresses.
const START_IA: u32 = 3;

const START_LECOM: u32 = 11;

const START_LOVE: u32 = 0x32;

// The words before the registers, in the order of the layout.
const START_WORDS: [u32; BUFFER] = [
    START_IA,
    START_LECOM,
    START_LOVE,
    0,
    0,
    0,
    0,
    DEMAND_MOST,
    DEMAND_MOST,
    DEMAND_MOST,
    DEMAND_MOST,
    CYCLE_DEFAULT,
    FLOOR_DEFAULT,
    CYCLE_DEFAULT,
    FLOOR_DEFAULT,
    CYCLE_DEFAULT,
    FLOOR_DEFAULT,
    CYCLE_DEFAULT,
    FLOOR_DEFAULT,
    CYCLE_DEFAULT,
    FLOOR_DEFAULT,
    CYCLE_DEFAULT,
    FLOOR_DEFAULT,
    CYCLE_DEFAULT,
    FLOOR_DEFAULT,
    CYCLE_DEFAULT,
    FLOOR_DEFAULT,
];

// The words, from zeros.
fn start_words(words: &mut [u32])
    requires { words.old ≡ replicate word_count 0 }
    ensures { words.new ≡ start_words }
{
    words[..BUFFER].copy_from_slice(&START_WORDS);
}

// Memory, from zeros: no probe read yet.
fn start_memory(memory: &mut [u8])
    requires { memory.old ≡ replicate memory_size 0 }
    ensures { memory.new ≡ start_memory }
{
    memory[..CHANNELS].fill(FAULT_CODE);
}

// The tables, where they stand: tables that are built apart are copied, and take more stack.
pub fn start_tables(tables: &mut Tables)
    ensures { card_of tables.new.words tables.new.memory tables.new.row ≡ start_card }
{
    tables.words = [0; WORDS];
    tables.memory = [0; MEMORY];
    tables.row = [0; ROW];
    start_words(&mut tables.words);
    start_memory(&mut tables.memory);
}
