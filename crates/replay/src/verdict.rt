//! The result of a check.

use trace_model::Place;

/// A test that fails at a place. The first eight are made at each place of the list, in this order.
/// Then the first and the last two are made at each place of the instance.
#[derive(Clone, Copy, Debug, PartialEq, Eq)]
pub enum Fault {
    /// The place is not in the trace.
    OutOfTrace,
    /// The place occurs earlier in the list.
    Repeated,
    /// An earlier place of its thread is not before it in the list.
    ThreadOrder,
    /// Its thread is not 0, and that thread's fork is not before it.
    ForkOrder,
    /// It is a join, and the fork or a place of the joined thread is not before it.
    JoinOrder,
    /// It is a read, and the last write to its variable before it in the list is not its writer; or
    /// there is such a write, and the read has no writer.
    WrongWriter,
    /// It is an outermost acquire, and an outermost acquire of the same lock is before it in the
    /// list without its release.
    Overlap,
    /// It is an outermost acquire, and an outermost acquire of the same lock that is later in the
    /// trace is before it in the list.
    LockOrder,
    /// The place of the instance is in the list.
    TooFar,
    /// An earlier place of its thread is not in the list.
    NotReached,
}

impl Fault {
    ghost use Rattle.std.specs.Prelude.{◌≡◌};
    ghost use Rattle.replay.specs.Tests.{test_name};

    /// Returns the name of the test, as it is printed.
    pub fn name(self) -> &'static str
        ensures { result.now ≡ test_name self }
    {
        match self {
            Fault::OutOfTrace => "OutOfTrace",
            Fault::Repeated => "Repeated",
            Fault::ThreadOrder => "ThreadOrder",
            Fault::ForkOrder => "ForkOrder",
            Fault::JoinOrder => "JoinOrder",
            Fault::WrongWriter => "WrongWriter",
            Fault::Overlap => "Overlap",
            Fault::LockOrder => "LockOrder",
            Fault::TooFar => "TooFar",
            Fault::NotReached => "NotReached",
        }
    }
}

/// The result of a check.
#[derive(Clone, Copy, Debug, PartialEq, Eq)]
pub enum Verdict {
    /// The list is a sync-preserving reordering of the trace that reaches the instance.
    Reaches,
    /// The first test that fails, and the place at which it fails.
    Fails(Fault, Place),
}
