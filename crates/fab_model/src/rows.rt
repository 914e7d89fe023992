//! The rows of a fabric and the numbers that name them. The words are InfiniBand's: a switch and a channel adapter
//! are nodes with a GUID, a LID is an address in the subnet. A channel is one way of a cable between switches, as
//! in the networks of Dally and Seitz; a terminal is an adapter's port that has a LID.
use crate::Desc;

/// A switch by its number: switches are numbered from 0 by ascending GUID.
#[derive(Clone, Copy, Debug, PartialEq, Eq, PartialOrd, Ord, Hash)]
pub struct SwitchId(pub u32);

/// A channel by its number: channels are numbered from 0 by the number of the switch that they leave, and
/// then by the port there.
#[derive(Clone, Copy, Debug, PartialEq, Eq, PartialOrd, Ord, Hash)]
pub struct ChannelId(pub u32);

/// A terminal by its number: terminals are numbered from 0 by ascending LID.
#[derive(Clone, Copy, Debug, PartialEq, Eq, PartialOrd, Ord, Hash)]
pub struct TerminalId(pub u32);

/// A local identifier: the address of a switch or a terminal in its subnet, as InfiniBand has it. The
/// unicast ones are 0x0001 to 0xBFFF.
#[derive(Clone, Copy, Debug, PartialEq, Eq, PartialOrd, Ord, Hash)]
pub struct Lid(pub u16);

/// A switch: its node GUID, its LID, how many external ports it has, and its description. A fabric lists
/// its switches by `SwitchId`.
#[derive(Drop)]
pub struct SwitchRow {
    pub guid: u64,
    pub lid: Lid,
    pub ports: u8,
    pub desc: Desc,
}

/// A channel adapter, that of a host, say: its node GUID, how many ports it has, and its description. A
/// fabric lists its adapters by ascending GUID.
#[derive(Drop)]
pub struct AdapterRow {
    pub guid: u64,
    pub ports: u8,
    pub desc: Desc,
}

/// An adapter's port with a LID that is cabled to a switch's port: the switch and its port, the adapter by
/// its place in the fabric's list and the port there, and the port's GUID, 0 where none is known.
#[derive(Clone, Copy, Debug, PartialEq, Eq)]
pub struct TerminalRow {
    pub lid: Lid,
    pub switch: SwitchId,
    pub port: u8,
    pub adapter: u32,
    pub adapter_port: u8,
    pub port_guid: u64,
}

/// One way of a cable between two switches: it leaves the tail by a port, and comes to the tip by one. Ports
/// are counted from 1.
#[derive(Clone, Copy, Debug, PartialEq, Eq)]
pub struct ChannelRow {
    pub tail: SwitchId,
    pub port: u8,
    pub tip: SwitchId,
    pub tip_port: u8,
}

/// Where a LID lies: its switch and the port there that leads to it, 0 for the switch's own.
#[derive(Clone, Copy, Debug, PartialEq, Eq)]
pub struct Place {
    pub switch: SwitchId,
    pub port: u8,
}

/// A cable between switches, named by one of its ends: a switch's GUID and a port there.
#[derive(Clone, Copy, Debug, PartialEq, Eq)]
pub struct Cable {
    pub guid: u64,
    pub port: u32,
}
