use fab_model::{Lid, TerminalId};

/// A packet under way from a terminal to a LID, at a position from 0 on its route.
#[derive(Clone, Copy, PartialEq, Eq, Debug, Drop)]
pub struct Packet {
    pub terminal: TerminalId,
    pub lid: Lid,
    pub position: u32,
}

/// A packet with its remaining hops: those from its position to the last of its route.
#[derive(Clone, Copy, Drop)]
pub(crate) struct Loaded {
    pub(crate) packet: Packet,
    pub(crate) remaining: u32,
}

/// What a put answers.
#[derive(Clone, Copy, PartialEq, Eq, Debug, Drop)]
pub enum Put {
    Placed,
    /// Another packet stands there.
    Taken,
}

/// What became of the packet on a virtual channel.
#[derive(Clone, Copy, PartialEq, Eq, Debug, Drop)]
pub enum Moved {
    /// It went to its next virtual channel.
    Went,
    /// It was at its last position and left.
    Left,
    /// Its next virtual channel isn't empty.
    Waits,
    /// No packet stands there.
    Nothing,
}
