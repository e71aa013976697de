//! Message ids (WS-Addressing 1.0 Core, section 3.1).

ghost use Rattle.std.specs.Prelude.{◌≡◌, IfOk};
ghost use Rattle.at_base.specs.MessageId.{message_id_of};

use crate::text::Text;
use std::alloc::{AllocError, Global};
use uuid::Uuid;

/// The message id of a name: `urn:uuid:` and the hyphenated lower case text of the name's version 5 identifier in the
/// namespace of URLs (RFC 9562, section 5.5). One name has one id, so a message that is sent again keeps its id.
pub fn message_id(alloc: Global, name: &[u8]) -> Result<Text, AllocError>
    ensures { IfOk result (λ text. text ≡ message_id_of name.now) }
{
    let id = Uuid::new_v5(&Uuid::NAMESPACE_URL, name);
    let mut buffer = Uuid::encode_buffer();
    Text::copied(alloc, id.urn().encode_lower(&mut buffer))
}
