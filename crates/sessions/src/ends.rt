//! The two ends of a session: a source of bytes and a sink.
ghost use Rattle.std.specs.Prelude.{◌≡◌, ◌≤◌, ◌<◌, ℕ, List, [], length, take, Option, IfOk, OnOk, OnErr};
ghost use Rattle.std.specs.Io.KnownBytes.{Consumes, Appends, Keeps, IsAtEnd};
ghost use Rattle.sessions.specs.Serving.{IsKnownPrefix};

use std::sync::Wait;
use thiserror::Error;

/// A read or a write failed.
#[derive(Clone, Copy, Debug, PartialEq, Eq, Error)]
#[error("a read or a write failed")]
pub struct TransferFailed;

/// A source of bytes, which counts its failures.
pub trait Source {
    /// The bytes left to read, if they are known.
    ghost left: { Self → Option (List ℕ) };

    /// The number of failures.
    ghost failures: { Self → ℕ };

    /// Reads some bytes into the buffer, which must not be empty, and returns their number. It is 0
    /// only at the end of the input. May wait for bytes.
    ///
    /// # Errors
    ///
    /// `TransferFailed` if the read fails. The failure is counted, and no byte is consumed.
    fn read<R: Wait>(&mut self, rt: &R, buffer: &mut [u8]) -> Result<usize, TransferFailed>
        requires { 0 < length buffer.old }
        ensures count { IfOk result (λ n. n ≤ length buffer.new) }
        ensures bytes { IfOk result
            (λ n. Consumes (left self.old) (left self.new) (take n buffer.new)) }
        ensures end { IfOk result (λ n. n ≡ 0 → IsAtEnd (left self.new)) }
        ensures ok { OnOk result (failures self.new ≡ failures self.old) }
        ensures failed { OnErr result (failures self.old < failures self.new) }
        ensures err { OnErr result (Keeps (left self.old) (left self.new)) };
}

/// A sink of bytes, which may buffer them until `send`, and counts its failures.
pub trait Sink {
    /// The bytes that it took, if they are known.
    ghost written: { Self → Option (List ℕ) };

    /// The bytes that it sent, if they are known.
    ghost sent: { Self → Option (List ℕ) };

    /// The number of failures.
    ghost failures: { Self → ℕ };

    /// Takes some of the bytes, at least one, and returns their number. `bytes` must not be empty.
    /// May wait.
    ///
    /// # Errors
    ///
    /// `TransferFailed` if the write fails. The failure is counted, and no byte is taken.
    fn write<R: Wait>(&mut self, rt: &R, bytes: &[u8]) -> Result<usize, TransferFailed>
        requires { 0 < length bytes.now }
        ensures count { IfOk result (λ n. n ≤ length bytes.now) }
        ensures some { IfOk result (λ n. 0 < n) }
        ensures bytes { IfOk result
            (λ n. Appends (written self.old) (written self.new) (take n bytes.now)) }
        ensures ok { OnOk result (failures self.new ≡ failures self.old) }
        ensures failed { OnErr result (failures self.old < failures self.new) }
        ensures err { OnErr result (Keeps (written self.old) (written self.new)) };

    /// Sends all bytes that it took. May wait.
    ///
    /// # Errors
    ///
    /// `TransferFailed` if that fails. The failure is counted, and a prefix of the bytes was sent.
    fn send<R: Wait>(&mut self, rt: &R) -> Result<(), TransferFailed>
        ensures all { OnOk result (sent self.new ≡ written self.new) }
        ensures kept { Keeps (written self.old) (written self.new) }
        ensures ok { OnOk result (failures self.new ≡ failures self.old) }
        ensures failed { OnErr result (failures self.old < failures self.new) };

    /// The sent bytes are a prefix of the bytes that it took.
    ghost begins: { (sink : Self) → IsKnownPrefix (sent sink) (written sink) };
}
