ghost use Rattle.std.specs.Prelude.{◌≡◌, IfOk};

use crate::block::Block;
use crate::octets::Octets;
use std::alloc::{AllocError, Allocator, Global};

/// A packet between a DTE and the exchange (X.25 clause 5), without its logical channel identifier.
pub enum Packet<A: Allocator = Global> {
    /// Call request and incoming call (clause 5.2.2).
    Call {
        /// The D bit.
        d: bool,
        block: Block<A>,
    },
    /// Call accepted and call connected (clause 5.2.3).
    Accepted {
        /// The D bit.
        d: bool,
        block: Option<Block<A>>,
    },
    /// Clear request and clear indication (clause 5.2.4). Only a packet with a diagnostic has a block.
    Clear {
        /// The clearing cause (clause 5.2.4).
        cause: u8,
        /// The diagnostic code (Annex E).
        diagnostic: Option<u8>,
        block: Option<Block<A>>,
    },
    /// Clear confirmation (clause 5.2.5). Its block has no user data.
    ClearConfirm {
        block: Option<Block<A>>,
    },
    /// Data, with the Q, D and M bits and the numbers P(S) and P(R) (clause 5.3.1).
    DataPacket {
        /// The Q bit.
        q: bool,
        /// The D bit.
        d: bool,
        /// The M bit.
        more: bool,
        /// P(S), 0 to 127.
        ps: u8,
        /// P(R), 0 to 127.
        pr: u8,
        /// 0 to 1,024 octets of user data.
        octets: Octets<A>,
    },
    /// Receive ready (clause 5.4.1).
    Ready {
        /// P(R), 0 to 127.
        pr: u8,
    },
    /// Receive not ready (clause 5.4.2).
    NotReady {
        /// P(R), 0 to 127.
        pr: u8,
    },
    /// Reject (clause 5.7.1).
    Reject {
        /// P(R), 0 to 127.
        pr: u8,
    },
    /// Interrupt (clause 5.3.2).
    Interrupt {
        /// 1 to 32 octets of user data.
        octets: Octets<A>,
    },
    /// Interrupt confirmation (clause 5.3.3).
    InterruptConfirm,
    /// Reset request and reset indication (clause 5.4.3).
    Reset {
        /// The resetting cause (clause 5.4.3).
        cause: u8,
        /// The diagnostic code (Annex E).
        diagnostic: Option<u8>,
    },
    /// Reset confirmation (clause 5.4.4).
    ResetConfirm,
}

impl<A: Allocator> Drop for Packet<A> {
    fn drop(self) {
        match self {
            Packet::Call { d: _, block: _ } => {}
            Packet::Accepted { d: _, block: _ } => {}
            Packet::Clear {
                cause: _,
                diagnostic: _,
                block: _,
            } => {}
            Packet::ClearConfirm { block: _ } => {}
            Packet::DataPacket {
                q: _,
                d: _,
                more: _,
                ps: _,
                pr: _,
                octets: _,
            } => {}
            Packet::Ready { pr: _ } => {}
            Packet::NotReady { pr: _ } => {}
            Packet::Reject { pr: _ } => {}
            Packet::Interrupt { octets: _ } => {}
            Packet::InterruptConfirm => {}
            Packet::Reset {
                cause: _,
                diagnostic: _,
            } => {}
            Packet::ResetConfirm => {}
        }
    }
}

impl<A: Allocator + Copy> Packet<A> {
    /// An equal copy, by the same allocator.
    ///
    /// # Errors
    ///
    /// As for [`Octets::copy`].
    pub fn copy(&self) -> Result<Packet<A>, AllocError>
        ensures { IfOk result (λ copied. copied ≡ self.now) }
    {
        match self {
            Packet::Call { d, block } => Ok(Packet::Call {
                d: *d,
                block: block.clone()?,
            }),
            Packet::Accepted { d, block } => Ok(Packet::Accepted {
                d: *d,
                block: block.clone()?,
            }),
            Packet::Clear {
                cause,
                diagnostic,
                block,
            } => Ok(Packet::Clear {
                cause: *cause,
                diagnostic: *diagnostic,
                block: block.clone()?,
            }),
            Packet::ClearConfirm { block } => Ok(Packet::ClearConfirm {
                block: block.clone()?,
            }),
            Packet::DataPacket {
                q,
                d,
                more,
                ps,
                pr,
                octets,
            } => Ok(Packet::DataPacket {
                q: *q,
                d: *d,
                more: *more,
                ps: *ps,
                pr: *pr,
                octets: octets.copy()?,
            }),
            Packet::Ready { pr } => Ok(Packet::Ready { pr: *pr }),
            Packet::NotReady { pr } => Ok(Packet::NotReady { pr: *pr }),
            Packet::Reject { pr } => Ok(Packet::Reject { pr: *pr }),
            Packet::Interrupt { octets } => Ok(Packet::Interrupt {
                octets: octets.copy()?,
            }),
            Packet::InterruptConfirm => Ok(Packet::InterruptConfirm),
            Packet::Reset { cause, diagnostic } => Ok(Packet::Reset {
                cause: *cause,
                diagnostic: *diagnostic,
            }),
            Packet::ResetConfirm => Ok(Packet::ResetConfirm),
        }
    }
}
