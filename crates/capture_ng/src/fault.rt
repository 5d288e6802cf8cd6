// Why a pcapng capture can't be read on.
ghost use Rattle.std.specs.Prelude.{◌≡◌};
ghost use Rattle.capture_ng.specs.declared.fault.NgFault.TheVariants.{Memory};

use desk::DeskFault;
use octets::NoMemory;

/// The first fault of a pcapng capture. A place is an offset in octets from the start of the file;
/// that of a block is where its Block Type begins. Frames are numbered from 1.
#[derive(Clone, Copy, Debug, PartialEq, Eq)]
pub enum NgFault {
    /// A packet block begins after 1,000,000,000 frames, or an octet follows block 4,000,000,000.
    TooManyRecords,
    /// The file ends within the block at this place. The empty file is cut at 0.
    CutBlock(u64),
    /// The file doesn't begin with a section header, or the Byte-Order Magic of one is wrong.
    BadMagic,
    /// The total length of the block at this place isn't one that its kind may have, the second
    /// total length differs, or the packet's kept octets don't fit in the block.
    BadLength(u64),
    /// The section header, interface or packet block at this place has so many octets, more than
    /// 1,048,576, or it keeps so many of its packet, more than 262,144.
    TooLong(u64, u32),
    /// The block at this place is an obsolete packet block.
    OldPacket(u64),
    /// The Major Version of the section header at this place isn't 1.
    BadVersion(u64),
    /// An option of the interface at this place doesn't fit, an if_tsresol isn't one octet or names
    /// a unit finer than 10^-19 or 2^-63 seconds, or an if_tsoffset isn't eight octets.
    BadOption(u64),
    /// The interface at this place is the 4,096th of its section, or a later one.
    TooManyInterfaces(u64),
    /// The packet block at this place is of an interface that its section doesn't have.
    BadInterface(u64),
    /// The LinkType of the packet block at this place, by its interface, is neither Ethernet (1)
    /// nor raw IP (101).
    BadLinkType(u64),
    /// The moment of the packet block at this place is before 1970, or of 2^32 seconds or more.
    BadMoment(u64),
    /// The moment of the frame of this number is more than 1,000,000 seconds past all before it.
    SpanTooLong(u32),
    /// The desk failed.
    Host,
    /// An allocation was refused.
    Memory,
}

impl From<NoMemory> for NgFault {
    ghost from_gives = { λ _ fault. fault ≡ Memory };

    fn from(_: NoMemory) -> Self {
        NgFault::Memory
    }
}

impl From<DeskFault> for NgFault {
    ghost use Rattle.capture_ng.specs.Answers.{fault_of};

    ghost from_gives = { λ fault gives. gives ≡ fault_of fault };

    fn from(fault: DeskFault) -> Self {
        match fault {
            DeskFault::Failed => NgFault::Host,
            DeskFault::Memory => NgFault::Memory,
        }
    }
}
