// What a request asks for.
ghost use Rattle.master.specs.Request.{request_in};
ghost use Rattle.master.specs.Accepted.{Accepted};

// Bytes to be written, or masks and states: two kinds of request, and none is a case of an Option or a Result.
#[derive(Clone, Copy)]
pub enum Kind {
    Bytes,
    Bits,
}

// A request to a unit. The bytes, or the masks, are lent beside it as sent, then the states, which are looked at for Bits alone.
#[derive(Clone, Copy)]
pub struct Request {
    pub kind: Kind,
    pub ia: u32,
    pub address: u32,
}

// What is asked: the kind, and the slices that are lent beside the request.
#[derive(Clone, Copy)]
pub struct Ask<'a> {
    pub kind: Kind,
    pub sent: &'a [u8],
    pub states: &'a [u8],
}

// A request that number 7 does not refuse.
#[derive(Clone, Copy)]
pub struct Askable<'a> {
    pub ia: u32,
    pub address: u32,
    pub ask: Ask<'a>,
    ghost accepted: { Accepted (request_in ia address ask) },
}
