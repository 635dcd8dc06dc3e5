// The console: reads calls from standard input, a line each, and writes an answer line for each. docs/CONSOLE.md.
#![tactic(auto)]

mod arguments;
mod ask_lecom;
mod ask_love;
mod ask_lucid;
mod call;
mod card_calls;
mod exchange;
mod image_calls;
mod input;
mod master_calls;
mod output;
mod question;
mod receiver_calls;
mod reply;
mod start;
mod table_calls;

use reply::{Console, End};
use std::io::Stderr;

// Says on standard error what went wrong: the console script ends with another status than 0 just where something is said there.
// Where that too cannot be written, nothing is left to say.
fn report(stderr: Stderr, end: End) {
    let words: &[u8] = match end {
        End::Over => return,
        End::NotRead => b"console: the input could not be read\n",
        End::NotWritten => b"console: an answer could not be written\n",
    };
    let _ = stderr.write_all(words);
}

// Goes on while there is input and answers can be written. Nothing says that the input ends, so the loop counts its turns, to a number
// that no run comes to.
fn main(rt: HostRuntime) {
    let stdin = rt.stdin();
    let stdout = rt.stdout();
    let mut console = Console::new();
    console.start();
    for _ in 0..u64::MAX {
        if let Err(end) = console.go_on(stdin, stdout) {
            report(rt.stderr(), end);
            return;
        }
    }
}
