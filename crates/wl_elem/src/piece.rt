//! Pieces: an ID, a Length and as many octets (IEEE Std 802.11, 9.4.2.1).

ghost use Rattle.std.specs.Prelude.{◌≡◌, ◌<◌, ◌++◌, Some, IfOk, IfErr, length};
ghost use Rattle.wl_elem.specs.Cutting.{piece};
ghost use Rattle.wl_elem.specs.Row.{IsPiece, fault_at};

use crate::kind::ListKind;
use crate::why::Why;

/// A whole piece at the front of some octets, and what follows it.
#[derive(Clone, Copy)]
pub struct Piece<'a> {
    pub id: u8,
    pub octets: &'a [u8],
    pub rest: &'a [u8],
}

/// The first piece. `full` says whether the piece directly before it has Length 255.
#[tactic(auto, unfolding(crate::specs::Row::fault_at))]
pub fn first_piece(kind: ListKind, full: bool, input: &[u8]) -> Result<Piece<'_>, Why>
    requires { 0 < length input.now }
    ensures split { IfOk result (λ p. input.now ≡ piece p.id p.octets.now ++ p.rest.now) }
    ensures whole { IfOk result (λ p. IsPiece kind full (record { id = p.id; octets = p.octets.now })) }
    ensures refused { IfErr result (λ why. fault_at kind full input.now ≡ Some why) }
{
    let [id, len, after @ ..] = input else {
        return Err(kind.truncated());
    };
    let is_fragment = *id == kind.fragment_id();
    if is_fragment && !full {
        return Err(Why::StrayFragment);
    }
    if is_fragment && *len == 0 {
        return Err(Why::EmptyFragment);
    }
    if kind.is_extended(*id) && *len == 0 {
        return Err(Why::NoExtension);
    }
    let len = *len as usize;
    if after.len() < len {
        return Err(kind.truncated());
    }
    let (octets, rest) = after.split_at(len);
    Ok(Piece {
        id: *id,
        octets,
        rest,
    })
}
