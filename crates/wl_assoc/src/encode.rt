//! Writing the bodies.

ghost use Rattle.std.specs.Prelude.{IfOk};
ghost use Rattle.wl_assoc.specs.Association.{AskOf, ReplyOf, IsAskWritable, IsReplyWritable};

use crate::association::{AssocAsk, AssocReply};
use std::alloc::Global;
use wl_elem::{Bytes, Memory, encode_elements, spelled_once};

/// The one body of a request that is well formed: `AssocAsk::well_formed` says true of it. `Memory`
/// where there was none for the body.
pub fn encode_ask(alloc: Global, value: &AssocAsk) -> Result<Bytes, Memory>
    requires { IsAskWritable value.now }
    ensures { IfOk result (λ body. AskOf value.now body) }
{
    spelled_once();
    let elements = encode_elements(alloc, &value.elements)?;
    let mut out = Bytes::new(alloc);
    out.extend(&value.capability.to_le_bytes())?;
    out.extend(&value.listen.to_le_bytes())?;
    out.extend(elements.as_slice())?;
    Ok(out)
}

/// The one body of a response that is well formed: `AssocReply::well_formed` says true of it.
/// `Memory` where there was none for the body.
pub fn encode_reply(alloc: Global, value: &AssocReply) -> Result<Bytes, Memory>
    requires { IsReplyWritable value.now }
    ensures { IfOk result (λ body. ReplyOf value.now body) }
{
    spelled_once();
    let elements = encode_elements(alloc, &value.elements)?;
    let mut out = Bytes::new(alloc);
    out.extend(&value.capability.to_le_bytes())?;
    out.extend(&value.status.to_le_bytes())?;
    out.extend(&value.aid.to_le_bytes())?;
    out.extend(elements.as_slice())?;
    Ok(out)
}
