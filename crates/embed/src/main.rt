//! An example of building on these libraries: of each line of hex, an element list, it prints the MLD
//! address of the first Multi-Link element.
//!
//! Its own contract cites the library's definitions: an address is told only where the octets are an
//! element list by the grammar, with a Basic Multi-Link element of that address in it.
#![tactic(auto)]

ghost use Rattle.std.specs.Prelude.{◌≡◌, ◌≤◌, List, Ok, Contains, length, IfSome};
ghost use Rattle.wl_elem.specs.Element.{ElementValue, body_limit};
ghost use Rattle.wl_elem.specs.ElementList.{Elems};
ghost use Rattle.wl_mle.specs.declared.basic.Basic.{Basic};
ghost use Rattle.wl_mle.specs.declared.multi_link.MultiLink.TheVariants.{Basic as IsBasic};
ghost use Rattle.wl_mle.specs.MultiLink.{ReadAs};

use std::alloc::Global;
use std::io;
use std::io::{BufRead, BufReader};
use wl_elem::{MacAddr, decode_elements, find};
use wl_mle::{MultiLink, decode_ml};

/// The MLD address of the first Multi-Link element of a list, where that is a Basic one.
///
/// None where the octets are no list, where the first Multi-Link element isn't read or isn't Basic,
/// where there is none, and where memory runs out.
fn mld_of(alloc: Global, octets: &[u8]) -> Option<MacAddr>
    requires { length octets.now ≤ body_limit }
    ensures { IfSome result (λ mld. (list : List ElementValue) × (e : ElementValue) × (basic : Basic) × Elems list octets.now × Contains list e × ReadAs e.body (Ok (IsBasic basic)) × (basic.common.mld ≡ mld)) }
{
    let Ok(list) = decode_elements(alloc, octets) else {
        return None;
    };
    let at = find(&list, 255, Some(107), 0)?;
    let element = list.get(at)?;
    let Ok(value) = decode_ml(alloc, element) else {
        return None;
    };
    basic_mld(&value)
}

/// The MLD address of a Basic value.
fn basic_mld(value: &MultiLink) -> Option<MacAddr>
    ensures { IfSome result (λ mld. (basic : Basic) × (value.now ≡ IsBasic basic) × (basic.common.mld ≡ mld)) }
{
    match value {
        MultiLink::Basic(basic) => Some(basic.common.mld),
        _ => None,
    }
}

fn main(rt: HostRuntime) -> io::Result<()> {
    let alloc = rt.alloc();
    for line in BufReader::new(alloc, rt.reader())?.lines(alloc) {
        let line = line?;
        let octets = hex::decode(alloc, line.as_str()).ok();
        let mld = match &octets {
            Some(octets) if octets.len() <= 65_536 => mld_of(alloc, octets.as_slice()),
            _ => None,
        };
        match mld {
            Some(mld) => println!(rt; "{:?}", mld.octets())?,
            None => println!(rt; "none")?,
        }
    }
    Ok(())
}
