//! Which frames begin the parts of a trace.

ghost use Rattle.std.specs.Prelude.{◌≡◌, ◌<◌};
ghost use Rattle.eve_grammar.specs.Kinds.{kind_byte};
ghost use Rattle.eve_grammar.specs.declared.frame_kind.FrameKind.TheVariants.{Replica, Verifier};
ghost use Rattle.eve_views.specs.inner.PartStarts.{no_starts, noted};

use eve_grammar::{FrameKind, MOST_REPLICAS, MOST_VERIFIERS, Place};

const SECTIONS: usize = MOST_REPLICAS as usize;

const VERIFIERS: usize = MOST_VERIFIERS as usize;

/// The frames that begin the sections, the verifiers' parts and what comes after them, by number from 0.
#[derive(Clone, Copy)]
pub struct Starts {
    /// The frame of each replica.
    pub sections: [u32; SECTIONS],
    /// The frame of each verifier.
    pub verifiers: [u32; VERIFIERS],
    /// The first reply sent, or the end.
    pub sent: u32,
}

impl Starts {
    /// Before any frame.
    pub fn new() -> Starts
        ensures { result ≡ no_starts }
    {
        Starts {
            sections: [0; SECTIONS],
            verifiers: [0; VERIFIERS],
            sent: 0,
        }
    }

    /// Notes a frame of the kind at the place, which is the frame of that number.
    #[inline(always)]
    pub fn note(&mut self, at: &Place, kind: FrameKind, frame: u32)
        requires replica { kind ≡ Replica → at.now.replicas < MOST_REPLICAS }
        requires verifier { kind ≡ Verifier → at.now.verifiers < MOST_VERIFIERS }
        ensures { self.new ≡ noted self.old at.now (kind_byte kind) frame }
    {
        match kind {
            FrameKind::Replica => self.sections[at.replicas as usize] = frame,
            FrameKind::Verifier => self.verifiers[at.verifiers as usize] = frame,
            FrameKind::Sent | FrameKind::End => {
                if !at.sending {
                    self.sent = frame;
                }
            }
            _ => {}
        }
    }
}
