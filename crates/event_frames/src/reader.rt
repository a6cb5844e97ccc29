//! The reader of a session: requests from bytes that arrive in pieces.
ghost use Rattle.std.specs.Prelude.{◌≡◌, ℕ, ◌<◌, ◌+◌, List, ◌∷◌, ◌++◌, [], length, true, false, None, Some, Ok, OnOk, OnErr, IfNone, IfSome, IsSome, is_some, ◌||◌};
ghost use Rattle.event_frames.specs.Leading.{BeginsNoOffer};
ghost use Rattle.event_frames.specs.Reader.{IsFed, Answers, HasRead, TakesRequest, Tells};
ghost use Rattle.trace_model.specs.declared.messages.session.Request.{Request};
ghost use Rattle.trace_model.specs.declared.messages.session.Request.TheVariants.{Offer};

use crate::leading::{leading, leading_offer};
use std::alloc::Global;
use std::marker::Model;
use trace_model::{Event, Fault, NoMemory, Request};

/// The bytes of a session that have arrived and are not yet returned as requests.
///
/// Contracts see the unread bytes, whether the input has ended, the fault that was returned, and
/// the length and capacity of the buffer.
#[derive(Drop)]
pub struct FrameReader {
    bytes: Vec<u8>,
    start: usize,
    ended: bool,
    returned: Option<Fault>,
}

impl Model for FrameReader {
    ghost use Rattle.std.specs.Prelude.{◌≡◌, ◌≤◌, drop, vec_capacity, vec_len, IsSome};
    ghost use Rattle.event_frames.specs.Reader.{FrameReaderView};

    ghost Value = { FrameReaderView };

    ghost view = { λ r. record {
      rest = drop r.start r.bytes.items;
      ended = r.ended;
      returned = r.returned;
      buffered = vec_len r.bytes;
      capacity = vec_capacity r.bytes;
    } };

    ghost invariant = { λ r. (r.start ≤ vec_len r.bytes)
        × (IsSome r.returned → vec_len r.bytes ≡ 0) };
}

impl FrameReader {
    /// Returns a reader without input. Does not allocate.
    pub fn new(alloc: Global) -> FrameReader
        ensures made { result ≡ record {
          rest = [];
          ended = false;
          returned = None;
          buffered = 0;
          capacity = 0;
        } }
        ensures grammar { HasRead [] [] result }
    {
        FrameReader {
            bytes: Vec::new(alloc),
            start: 0,
            ended: false,
            returned: None,
        }
    }

    /// Adds the next piece of the input. The caller must not have called `finish`. After a fault
    /// the piece is dropped, and the call does not allocate.
    ///
    /// # Errors
    ///
    /// `NoMemory` if an allocation fails. The reader is unchanged.
    pub fn feed(&mut self, piece: &[u8]) -> Result<(), NoMemory>
        requires { self.old.ended ≡ false }
        ensures fed { OnOk result (IsFed self.old piece.now self.new) }
        ensures grammar { OnOk result ((text : List ℕ) (given : List Request) →
            HasRead text given self.old
            → HasRead (text ++ piece.now) given self.new) }
        ensures returned { IsSome self.old.returned → (result ≡ Ok record {})
            × (self.new ≡ self.old)
            × (self.new.buffered ≡ 0) }
        ensures err { OnErr result (self.new ≡ self.old) }
        ensures full { OnErr result (self.old.capacity < self.old.buffered + length piece.now) }
    {
        self.put(piece)
    }

    /// Adds a piece to the buffer, or drops it after a fault.
    fn put(&mut self, piece: &[u8]) -> Result<(), NoMemory>
        ensures fed { OnOk result (IsFed self.old piece.now self.new) }
        ensures returned { IsSome self.old.returned → (result ≡ Ok record {})
            × (self.new ≡ self.old)
            × (self.new.buffered ≡ 0) }
        ensures err { OnErr result (self.new ≡ self.old) }
        ensures full { OnErr result (self.old.capacity < self.old.buffered + length piece.now) }
    {
        if self.returned.is_some() {
            return Ok(());
        }
        self.bytes.reserve(piece.len())?;
        self.bytes.extend_from_slice(piece)?;
        Ok(())
    }

    /// Returns whether the input has ended or a fault was returned.
    pub fn is_closed(&self) -> bool
        ensures { result ≡ is_some self.now.returned || self.now.ended }
    {
        self.returned.is_some() || self.ended
    }

    /// Records that the input has ended.
    pub fn finish(&mut self)
        ensures ended { self.new ≡ record self.old { ended = true } }
        ensures grammar { (text : List ℕ) (given : List Request) → HasRead text given self.old →
            HasRead text given self.new }
    {
        self.ended = true;
    }

    /// Returns the next request, or `None` if the input so far has no further request. Does not
    /// allocate.
    ///
    /// # Errors
    ///
    /// The fault of the input, as soon as the bytes that show it have arrived. Each later call
    /// returns the same fault.
    pub fn next(&mut self) -> Result<Option<Request>, Fault>
        ensures answers { Answers self.old result self.new }
        // The requests and the fault are those of the whole text, however it was cut into pieces.
        ensures grammar { (text : List ℕ) (given : List Request) → HasRead text given self.old
            → Tells text given self.old.ended result self.new }
    {
        self.read_frame()
    }

    /// Returns the event of the next request if it is an offer and its whole frame has arrived.
    /// Otherwise returns `None`, and the reader is unchanged. Does not allocate. This is faster
    /// than `next`, since an event is smaller than a request.
    pub fn next_offer(&mut self) -> Option<Event>
        ensures taken { IfSome result (λ event. TakesRequest self.old (Offer event) self.new) }
        ensures none { IfNone result (BeginsNoOffer self.old.rest × (self.new ≡ self.old)) }
        ensures grammar { (text : List ℕ) (given : List Request) → HasRead text given self.old
            → IfSome result (λ event. HasRead text (given ++ Offer event ∷ []) self.new) }
    {
        let (event, len) = leading_offer(&self.bytes[self.start..])?;
        self.start += len;
        Some(event)
    }

    /// Returns the next request, the fault, or `None`.
    fn read_frame(&mut self) -> Result<Option<Request>, Fault>
        ensures { Answers self.old result self.new }
    {
        if let Some(fault) = self.returned {
            return Err(fault);
        }
        match leading(&self.bytes[self.start..]) {
            Err(fault) => {
                self.fail(fault);
                Err(fault)
            }
            Ok(Some((request, len))) => {
                self.start += len;
                Ok(Some(request))
            }
            Ok(None) => {
                if self.ended && self.start < self.bytes.len() {
                    self.fail(Fault::Truncated);
                    return Err(Fault::Truncated);
                }
                self.compact();
                Ok(None)
            }
        }
    }

    /// Records the fault, which each later call returns, and drops all bytes.
    fn fail(&mut self, fault: Fault)
        ensures { self.new ≡ record {
          rest = [];
          ended = self.old.ended;
          returned = Some fault;
          buffered = 0;
          capacity = self.old.capacity;
        } }
    {
        self.bytes.clear();
        self.start = 0;
        self.returned = Some(fault);
    }

    /// Drops the bytes that were returned as requests.
    fn compact(&mut self)
        requires { self.old.returned ≡ None }
        ensures { self.new ≡ record self.old { buffered = length self.old.rest } }
    {
        let end = self.bytes.len();
        let start = self.start;
        if start > 0 {
            self.bytes.copy_within(start..end, 0);
            self.bytes.truncate(end - start);
            self.start = 0;
        }
    }
}
