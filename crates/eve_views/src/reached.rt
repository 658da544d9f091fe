//! How far the frames of a trace have come, and which kind of frame may stand there.

ghost use Rattle.std.specs.Prelude.{◌≡◌, IsTrue};
ghost use Rattle.eve_grammar.specs.Kinds.{kind_byte};
ghost use Rattle.eve_grammar.specs.Frames.{start_place, is_allowed, is_allowed_in_sections, is_allowed_behind_sections};
ghost use Rattle.eve_views.specs.inner.Places.{place_after};

use eve_grammar::{FrameKind, Head, Place};

/// How far the frames of a trace with this head have come.
#[derive(Clone, Copy)]
pub struct Reached {
    /// The limits.
    pub head: Head,
    /// How many frames of each kind have come.
    pub place: Place,
}

impl Reached {
    /// Before the first frame.
    pub fn start(head: Head) -> Reached
        ensures head { result.head ≡ head }
        ensures place { result.place ≡ start_place }
    {
        Reached {
            head,
            place: Place {
                customers: 0,
                batches: 0,
                replicas: 0,
                accesses: 0,
                verifiers: 0,
                sending: false,
                ended: false,
            },
        }
    }

    /// Whether a frame of the kind may stand here, after customers and batches, and before the first verifier.
    fn allows_in_sections(&self, kind: FrameKind) -> bool
        ensures { result ≡ is_allowed_in_sections self.now.head self.now.place (kind_byte kind) }
    {
        match kind {
            FrameKind::Replica => self.place.replicas < self.head.replicas,
            FrameKind::Attempt | FrameKind::Commit | FrameKind::Rollback => 0 < self.place.replicas,
            FrameKind::Transfer => 0 < self.place.replicas && self.head.version == 2,
            FrameKind::Verifier => self.place.replicas == self.head.replicas,
            _ => false,
        }
    }

    /// Whether a frame of the kind may stand here, after the first verifier.
    /// Decides F4 Frame.
    fn allows_behind_sections(&self, kind: FrameKind) -> bool
        ensures { result ≡ is_allowed_behind_sections self.now.head self.now.place (kind_byte kind) }
    {
        match kind {
            FrameKind::Verifier => !self.place.sending
                && self.place.verifiers < self.head.verifiers,
            FrameKind::Vote => !self.place.sending,
            FrameKind::Sent | FrameKind::End => self.place.verifiers == self.head.verifiers,
            _ => false,
        }
    }

    /// Whether a frame of the kind may stand here.
    ///
    /// docs/TRACE.md, "Order of frames".
    #[inline(always)]
    pub fn allows(&self, kind: FrameKind) -> bool
        ensures { result ≡ is_allowed self.now.head self.now.place (kind_byte kind) }
    {
        if self.place.ended {
            false
        } else if self.place.customers < self.head.customers {
            kind == FrameKind::Customer
        } else if self.place.batches < self.head.batches {
            kind == FrameKind::Batch
        } else if 0 < self.place.accesses {
            kind == FrameKind::Access
        } else if self.place.verifiers == 0 {
            self.allows_in_sections(kind)
        } else {
            self.allows_behind_sections(kind)
        }
    }

    /// Goes on after a frame of a kind that may stand here; an attempt has to have that many access frames.
    #[inline(always)]
    pub fn pass(&mut self, kind: FrameKind, accesses: usize)
        requires { IsTrue (is_allowed self.old.head self.old.place (kind_byte kind)) }
        ensures head { self.new.head ≡ self.old.head }
        ensures place { self.new.place ≡ place_after self.old.place (kind_byte kind) accesses }
    {
        match kind {
            FrameKind::Customer => {
                prove!(self.place.customers < self.head.customers);
                self.place.customers += 1;
            }
            FrameKind::Batch => {
                prove!(self.place.batches < self.head.batches);
                self.place.batches += 1;
            }
            FrameKind::Replica => {
                prove!(self.place.replicas < self.head.replicas);
                self.place.replicas += 1;
            }
            FrameKind::Attempt => self.place.accesses = accesses,
            FrameKind::Access => self.place.accesses -= 1,
            FrameKind::Commit | FrameKind::Rollback | FrameKind::Transfer | FrameKind::Vote => {}
            FrameKind::Verifier => {
                prove!(self.place.verifiers == 0 || self.place.verifiers < self.head.verifiers);
                self.place.verifiers += 1;
            }
            FrameKind::Sent => self.place.sending = true,
            FrameKind::End => self.place.ended = true,
        }
    }
}
