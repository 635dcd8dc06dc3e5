// Which requests the master accepts, and what a byte is as asked.
ghost use Rattle.std.specs.Prelude.{◌≡◌, true, ◌<◌, length};
ghost use Rattle.master.specs.Request.{ask_in, request_in, named_most, paired, askable, as_asked};

use crate::request::{Ask, Kind};
use card::fitness::IA_MOST;
use card::layout::DATA_MOST;

// Document 01, "Datalink": the largest address, and the largest sum of address and bytes.
const ADDRESS_MOST: u32 = 65_535;

const ADDRESS_END: u32 = ADDRESS_MOST + 1;

impl Ask<'_> {
    // How many bytes a request may name.
    fn named_most(self) -> usize
        ensures { result ≡ named_most (ask_in self.entry) }
    {
        match self.kind {
            Kind::Bytes => DATA_MOST,
            Kind::Bits => DATA_MOST / 2,
        }
    }

    // Whether masks and states are equal in number.
    fn is_paired(self) -> bool
        ensures { result ≡ paired (ask_in self.entry) }
    {
        match self.kind {
            Kind::Bytes => true,
            Kind::Bits => self.sent.len() == self.states.len(),
        }
    }

    // Whether number 7 does not refuse a request to this unit and address.
    pub fn is_askable(self, ia: u32, address: u32) -> bool
        ensures { result ≡ askable (request_in ia address self.entry) }
    {
        if IA_MOST < ia {
            return false;
        }
        if self.named_most() < self.sent.len() {
            return false;
        }
        if !self.is_paired() {
            return false;
        }
        if ADDRESS_MOST < address {
            return false;
        }
        address + self.sent.len() as u32 <= ADDRESS_END
    }

    // Byte i as asked, where old was there.
    pub fn as_asked(self, old: u8, i: usize) -> u8
        requires { (i < length self.sent.now) × (paired (ask_in self) ≡ true) }
        ensures { result ≡ as_asked (ask_in self.entry) old i }
    {
        let Ask { kind, sent, states } = self;
        match kind {
            Kind::Bytes => sent[i],
            Kind::Bits => (old & sent[i]) | states[i],
        }
    }
}
