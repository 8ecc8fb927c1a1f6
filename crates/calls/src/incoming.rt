/// An INVITE that came: its transaction, the dialogue that its 200 would open, and the digits of the called number as a `D`.
#[derive(Clone, Copy, PartialEq, Eq, Debug)]
pub struct Invite<D> {
    pub transaction: u64,
    pub dialogue: u64,
    pub digits: D,
}

/// A response to the INVITE of the gateway's own with this number: its status, the dialogue that a 200 opens, and whether media come
/// with it.
#[derive(Clone, Copy, PartialEq, Eq, Debug)]
pub struct Response {
    pub number: u64,
    pub status: u16,
    pub dialogue: u64,
    pub media: bool,
}
