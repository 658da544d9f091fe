//! Objects in lines.

ghost use Rattle.std.specs.Prelude.{◌≡◌, ◌++◌, List, [], ◌∷◌, IfOk};
ghost use Rattle.json.specs.Token.{Token, begin_object};
ghost use Rattle.eve_objects.specs.Members.{object_line};

use json::Writer;
use std::alloc::AllocError;

/// Begins an object behind what the line has. It is let go where memory is refused.
pub fn begin_line(line: Vec<u8>) -> Result<Writer, AllocError>
    ensures tokens { IfOk result (λ writer. writer.tokens ≡ begin_object ∷ []) }
    ensures before { IfOk result (λ writer. writer.before ≡ line.items) }
{
    let mut writer = Writer::new(line);
    writer.begin_object()?;
    Ok(writer)
}

/// Ends the object that `begin_line` began, and the line.
#[tactic(auto, unfolding(crate::specs::Members::object, crate::specs::Members::object_line))]
pub fn end_line(mut writer: Writer) -> Result<Vec<u8>, AllocError>
    ensures { (members : List Token) → writer.tokens ≡ begin_object ∷ members
        → IfOk result (λ line. line.items ≡ writer.before ++ object_line members) }
{
    writer.end_object()?;
    let mut line = writer.into_inner();
    line.push(b'\n')?;
    Ok(line)
}
