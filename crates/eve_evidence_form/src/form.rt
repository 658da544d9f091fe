//! The evidence of a fault of form.

ghost use Rattle.eve_views.specs.Form.{IsLeast, StandsInForm, IsFaultOutside};
ghost use Rattle.eve_evidence_form.specs.Form.{TellsForm};

use crate::body::wrong_body_at;
use crate::frame::no_frame_at;
use crate::head::{first_six, head_fault, length_fault, other_magic};
use eve_evidence::Evidence;
use eve_views::{Code, Fault};

/// The evidence of a fault of form, which is the first of these bytes, as `Trace::read` finds it.
///
/// docs/MODEL.md, "Evidence". One pass over the frames before it.
pub fn form_evidence<'a>(bytes: &'a [u8], fault: &Fault) -> Evidence<'a>
    requires { IsLeast (IsFaultOutside StandsInForm bytes.now) fault.now }
    ensures told { TellsForm bytes.now fault.now result }
{
    match fault.code {
        Code::Length => Evidence::Length {
            found: bytes.len() as u64,
            wrong: length_fault(bytes),
            magic: other_magic(bytes),
        },
        Code::Magic => Evidence::Magic {
            found: first_six(bytes),
        },
        Code::Head => {
            let number = head_fault(bytes);
            Evidence::Head {
                field: number.field,
                at: number.at,
                found: number.found,
                least: number.least,
                most: number.most,
            }
        }
        Code::Frame => {
            let found = no_frame_at(bytes, fault.offset);
            let due = found.due;
            Evidence::Frame {
                wrong: found.wrong,
                due,
                records: found.records,
            }
        }
        Code::Body => {
            let wrong = wrong_body_at(bytes, fault.offset);
            Evidence::Body {
                frame: wrong.frame,
                at: fault.offset,
                field: wrong.field,
                field_at: wrong.at,
            }
        }
        _ => unreachable!(),
    }
}
