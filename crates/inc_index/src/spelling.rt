// Ids as texts.
ghost use Rattle.std.specs.Prelude.{◌≡◌, IfOk};
ghost use Rattle.hex.specs.Hex.{encode_lower};
ghost use Rattle.uuid.specs.Text.{parsed};

use crate::OutOfMemory;
use inc_bytes::Id;
use inc_io::Bytes;
use std::alloc::Global;
use uuid::Uuid;

/// An id as 32 small hexadecimal digits.
pub fn id_text(alloc: Global, id: &Id) -> Result<Bytes, OutOfMemory>
    ensures value { IfOk result (λ text. text ≡ encode_lower id.now) }
{
    let text = hex::encode(alloc, id.as_slice())?;
    Ok(Bytes::from_vec(text.into_bytes()))
}

/// The id that a text spells, in any of the forms of a UUID. It takes no memory.
pub fn read_id(t: &str) -> Option<Id>
    ensures value { result ≡ parsed t.now }
{
    match Uuid::parse_str(t) {
        Ok(id) => Some(id.into_bytes()),
        Err(_) => None,
    }
}
