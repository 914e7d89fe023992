//! The text of a subnet in the shape that `ibnetdiscover` prints, read and written.
//!
//! The text has a block for each node: a head, which names the node by its GUID, and a line for each port that
//! a cable joins to another node's port. In the terms of InfiniBand a switch (`Switch`) has a LID for its port 0
//! in its head, an adapter (`Ca`, a host channel adapter) a LID for each port, in the port's line. A line under
//! a switch is
//!
//! ```text
//! [21]\t"S-0c42a10300aa0012"[1]\t\t# "core-1" lid 3 4xHDR
//! ```
//!
//! which is its port, the far node and the far port; the rest is a remark. The grammar is in `specs/Lines.antt`
//! and what each part is in `specs/Fronts.antt`. Its source is the output of `ibnetdiscover` of the package
//! infiniband-diags, whose other lines (`vendid=`, `devid=`, `Chassis`) say nothing about cables and are passed
//! over.
//!
//! [`read`] gives raw records in the order of the text, and [`write`] the text of a fabric; read and built, that
//! text gives the fabric. Both take time in the bytes of the text. Reading takes memory for the records alone,
//! writing for the text and for one entry a terminal.
#![tactic(auto)]

mod adapter_ports;
mod fault;
mod fronts;
mod laws;
mod lines;
mod reading;
mod words;
mod writing;

pub use fault::{BadKind, ReadFault};
pub use laws::{texts_have_no_own_cable, written_is_built, written_is_read};
pub use reading::read;
pub use writing::write;
