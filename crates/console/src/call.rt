// The calls: the lines that ask for them, and the call that a line's first word names. docs/CONSOLE.md.
use receive::Dialect;
use tables::dialect;

// The lines of the calls, as `help` writes them. A line that cannot be read is answered with those of its first word.
// One text: `help` writes it as it is, and an array of lines would have to be put together again.
pub const CALLS: [u8; 857] =
    *b"probe CHANNEL CODE; restart; governor CHANNEL; datalink ROOM BYTES; lecom ROOM BYTES; love ROOM BYTES; lucid ROOM BYTES; receive DIALECT ROOM BYTES; quiet DIALECT; save ROOM; load BYTES; request change IA ADDRESS BYTES; request bits IA ADDRESS MASKS / STATES; step ROOM BYTES; ask lecom ROOM ADDRESS read CODE; ask lecom ROOM ADDRESS write CODE VALUE; ask love ROOM ADDRESS status; ask love ROOM ADDRESS read PLACE; ask love ROOM ADDRESS write PLACE VALUE; ask lucid ROOM getio CHANNEL TYPE; ask lucid ROOM getiogroup MASK TYPE; ask lucid ROOM setio CHANNEL TYPE VALUE; ask lucid ROOM setiogroup MASK TYPE VALUES; ask lucid ROOM getparam CHANNEL OPTION ADDRESS; ask lucid ROOM setparam CHANNEL OPTION ADDRESS VALUE; ask lucid ROOM reset CHANNEL OPTION ADDRESS; reply lecom BYTES; reply love BYTES; reply lucid BYTES; poke TABLE PLACE VALUE; peek TABLE; help";

// A call of an entry of the card: card_calls.rt.
#[derive(Clone, Copy)]
pub enum CardCall {
    Probe,
    Restart,
    Governor,
    Frame(Dialect),
}

// A call of the receivers' entries: receiver_calls.rt.
#[derive(Clone, Copy)]
pub enum ReceiverCall {
    Receive,
    Quiet,
}

// A call of the image's entries: image_calls.rt.
#[derive(Clone, Copy)]
pub enum ImageCall {
    Save,
    Load,
}

// A call of the line master: exchange.rt.
#[derive(Clone, Copy)]
pub enum ExchangeCall {
    Request,
    Step,
}

// A call of the masters of LECOM, Love and LucidControl: master_calls.rt.
#[derive(Clone, Copy)]
pub enum MasterCall {
    Ask,
    Reply,
}

// A call on the tables: table_calls.rt.
#[derive(Clone, Copy)]
pub enum TableCall {
    Poke,
    Peek,
}

// A call, by what it touches. An enum of its own: none of its cases is one of an Option or a Result.
#[derive(Clone, Copy)]
pub enum Call {
    Card(CardCall),
    Receiver(ReceiverCall),
    Image(ImageCall),
    Exchange(ExchangeCall),
    Master(MasterCall),
    Tables(TableCall),
    Help,
}

// The call of a name. Of a frame in a dialect it is the dialect's.
pub fn call_of(name: &[u8]) -> Option<Call> {
    match name {
        b"probe" => Some(Call::Card(CardCall::Probe)),
        b"restart" => Some(Call::Card(CardCall::Restart)),
        b"governor" => Some(Call::Card(CardCall::Governor)),
        b"receive" => Some(Call::Receiver(ReceiverCall::Receive)),
        b"quiet" => Some(Call::Receiver(ReceiverCall::Quiet)),
        b"save" => Some(Call::Image(ImageCall::Save)),
        b"load" => Some(Call::Image(ImageCall::Load)),
        b"request" => Some(Call::Exchange(ExchangeCall::Request)),
        b"step" => Some(Call::Exchange(ExchangeCall::Step)),
        b"ask" => Some(Call::Master(MasterCall::Ask)),
        b"reply" => Some(Call::Master(MasterCall::Reply)),
        b"poke" => Some(Call::Tables(TableCall::Poke)),
        b"peek" => Some(Call::Tables(TableCall::Peek)),
        b"help" => Some(Call::Help),
        _ => Some(Call::Card(CardCall::Frame(dialect::dialect_of(name)?))),
    }
}
