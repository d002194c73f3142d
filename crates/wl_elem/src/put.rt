//! Writing items: the first piece, and Fragments for what one piece doesn't hold.

ghost use Rattle.std.specs.Prelude.{◌≡◌, ◌≢◌, ◌<◌, ◌≤◌, ◌+◌, ◌++◌, List, ℕ, true, length, OnOk, OnErr};
ghost use Rattle.wl_elem.specs.Cutting.{fragment_id, piece};
ghost use Rattle.wl_elem.specs.Element.{information_of};
ghost use Rattle.wl_elem.specs.Encoding.{AddsFragments, AddsPieces, Extends};
ghost use Rattle.wl_elem.specs.Items.{AddsItem};
ghost use Rattle.wl_elem.specs.Row.{is_extended};

use crate::bytes::Bytes;
use crate::fault::Memory;
use crate::kind::ListKind;

/// Adds octets as one piece, with the extension before them where there is one.
fn put_piece(out: &mut Bytes, id: u8, ext: Option<u8>, octets: &[u8]) -> Result<(), Memory>
    requires { length (information_of ext octets.now) ≤ 255 }
    ensures ok { OnOk result (out.new ≡ out.old ++ piece id (information_of ext octets.now)) }
    ensures err { OnErr result (Extends out.old out.new) }
{
    out.push(id)?;
    match ext {
        Some(ext) => {
            out.push(octets.len() as u8 + 1)?;
            out.push(ext)?;
        }
        None => out.push(octets.len() as u8)?,
    }
    out.extend(octets)?;
    Ok(())
}

/// Adds what a first piece left, as Fragments of at most 255 octets.
fn put_fragments(out: &mut Bytes, kind: ListKind, octets: &[u8]) -> Result<(), Memory>
    ensures ok { OnOk result (AddsFragments kind octets.now out.old out.new) }
    ensures err { OnErr result (Extends out.old out.new) }
{
    let mut rest = octets;
    'fragments: while !rest.is_empty() {
        let (part, after) = rest.split_at(rest.len().min(255));
        put_piece(out, kind.fragment_id(), None, part)?;
        rest = after;
    }
    Ok(())
}

/// How many octets the first piece has room for behind the extension, which takes one.
fn first_room(ext: Option<u8>) -> usize
    ensures { (octets : List ℕ) → length (information_of ext octets) + result ≡ length octets + 255 }
{
    match ext {
        Some(_) => 254,
        None => 255,
    }
}

/// Adds the pieces of these octets, with the extension before them where there is one. After `Memory`
/// `out` is as it was.
pub fn put_pieces(
    out: &mut Bytes,
    kind: ListKind,
    id: u8,
    ext: Option<u8>,
    octets: &[u8],
) -> Result<(), Memory>
    ensures ok { OnOk result (AddsPieces kind id (information_of ext octets.now) out.old out.new) }
    ensures err { OnErr result (out.new ≡ out.old) }
{
    let len = out.as_slice().len();
    match put_first_and_fragments(out, kind, id, ext, octets) {
        Ok(()) => Ok(()),
        Err(Memory) => {
            out.truncate(len);
            Err(Memory)
        }
    }
}

/// The same; after `Memory` some of the pieces may stand in `out`.
fn put_first_and_fragments(
    out: &mut Bytes,
    kind: ListKind,
    id: u8,
    ext: Option<u8>,
    octets: &[u8],
) -> Result<(), Memory>
    ensures ok { OnOk result (AddsPieces kind id (information_of ext octets.now) out.old out.new) }
    ensures err { OnErr result (Extends out.old out.new) }
{
    let (first, rest) = octets.split_at(octets.len().min(first_room(ext)));
    put_piece(out, id, ext, first)?;
    put_fragments(out, kind, rest)?;
    Ok(())
}

/// Adds an item, whose ID isn't a Fragment's: its first piece, and Fragments of at most 255 octets for
/// what one piece doesn't hold. The octets of an element of ID 255 begin with the extension. After
/// `Memory` `out` is as it was.
pub fn put_item(out: &mut Bytes, kind: ListKind, id: u8, octets: &[u8]) -> Result<(), Memory>
    requires fresh { id ≢ fragment_id kind }
    requires extended { is_extended kind id ≡ true → 0 < length octets.now }
    ensures ok { OnOk result (AddsItem kind (record { id = id; octets = octets.now }) out.old out.new) }
    ensures err { OnErr result (out.new ≡ out.old) }
{
    put_pieces(out, kind, id, None, octets)
}
