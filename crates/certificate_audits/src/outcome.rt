//! The outcome of an audit: how many blocks are confirmed, how it ends, and the circuit that the
//! blocks end in.
ghost use Rattle.std.specs.Prelude.{◌≡◌};
ghost use Rattle.certificate_audits.specs.Ends.{block_objection_name};
ghost use Rattle.certificate_audits.specs.Replays as replays;

use crate::moving::Stage;
use certificates::Objection;

/// Why a block isn't confirmed.
#[derive(Clone, Copy, Debug, PartialEq, Eq)]
pub enum BlockObjection {
    /// The certificate fails a test.
    Fails(Objection),
    /// The set is least and saves latches, but the move over it makes a path longer than the bound.
    TooLong,
}

impl BlockObjection {
    /// Returns the name of the objection, as reports print it.
    pub fn name(self) -> &'static str
        ensures { result.now ≡ block_objection_name self }
    {
        match self {
            BlockObjection::Fails(objection) => objection.name(),
            BlockObjection::TooLong => "TooLong",
        }
    }
}

/// How an audit ended.
#[derive(Clone, Copy, PartialEq, Eq)]
pub enum End {
    /// There was no block.
    NoBlocks,
    /// The last block is confirmed, and no closed set of its circuit needs fewer latches than there
    /// are.
    Certified,
    /// The last block is confirmed, and fewer latches are needed after the move over its set.
    Open,
    /// A block is confirmed and no closed set of its circuit needs fewer latches, but another block
    /// follows.
    BlocksFollow,
    /// A block isn't confirmed.
    Objected(BlockObjection),
    /// The latch with this variable can't read as what the file says. No block is judged then.
    Misread(u32),
    /// The latch with this variable isn't shown to agree with what the file says. No block is
    /// judged then.
    NotShown(u32),
}

impl End {
    ghost use Rattle.certificate_audits.specs.Ends.{is_accepted, refused_latch};

    /// Returns true if each merged latch is shown, each block is confirmed, and none follows the
    /// end.
    pub fn is_accepted(self) -> bool
        ensures { result ≡ is_accepted self }
    {
        match self {
            End::NoBlocks | End::Certified | End::Open => true,
            End::BlocksFollow | End::Objected(_) | End::Misread(_) | End::NotShown(_) => false,
        }
    }

    /// Returns the variable of the merged latch that is refused, if one is.
    pub fn refused_latch(self) -> Option<u32>
        ensures { result ≡ refused_latch self }
    {
        match self {
            End::Misread(latch) | End::NotShown(latch) => Some(latch),
            _ => None,
        }
    }
}

/// The outcome of an audit.
#[derive(Clone, Copy, PartialEq, Eq)]
pub struct Audit {
    /// The number of confirmed blocks: those before the block that ended the audit, and that block
    /// if its certificate passes.
    pub confirmed: usize,
    /// The end of the audit.
    pub end: End,
}

/// The outcome of an audit, and the circuit that its blocks end in.
#[derive(Drop)]
pub struct Replay {
    /// The outcome of the audit.
    pub audit: Audit,
    /// The circuit after latches moved over the set of each block that saves latches, cleaned after
    /// each move, and its held latches. `None` if something speaks against a block or a merged
    /// latch.
    pub last: Option<Stage>,
}

/// Returns the replay of certificates that merge a latch as they may not, by this end. None of
/// their blocks is judged.
pub(crate) fn refused_by(end: End) -> Replay
    ensures { result ≡ replays.refused_by end }
{
    Replay {
        audit: Audit { confirmed: 0, end },
        last: None,
    }
}

/// Returns the outcome of an audit, and drops the circuit.
pub(crate) fn audit_of(replay: Replay) -> Audit
    ensures { result ≡ replay.audit }
{
    let Replay { audit, last } = replay;
    drop(last);
    audit
}
