//! The elements that are decoded where they stand in a list.

ghost use Rattle.std.specs.Prelude.{Result};
ghost use Rattle.wl_elem.specs.declared.fault.Refusal.{Refusal};
ghost use Rattle.wl_elem.specs.Answers.{Answers, AnswersOnly};
ghost use Rattle.wl_elem.specs.Identity.{HasExtension, extension_of};
ghost use Rattle.wl_action.specs.declared.known.KnownValue.{KnownValue};
ghost use Rattle.wl_action.specs.Known.{ReadAs};

use std::alloc::Global;
use wl_elem::{Element, Fault, Known};
use wl_mle::{MultiLink, decode_ml};
use wl_ttlm::{Ttlm, decode_ttlm};

/// The value of an element that is decoded where it stands in a list.
#[derive(Debug, Drop)]
pub enum KnownValue {
    /// Of a TID-To-Link Mapping element.
    Mapping(Ttlm),
    /// Of a Multi-Link element.
    MultiLink(MultiLink),
}

/// Reads an element of this identity, as [`decode_ttlm`] and [`decode_ml`] do.
pub fn decode_known(alloc: Global, known: Known, element: &Element) -> Result<KnownValue, Fault>
    requires { HasExtension element.now (extension_of known) }
    ensures read { Answers result (ReadAs known element.now.body) }
    ensures only { (reading : Result KnownValue Refusal) → ReadAs known element.now.body reading → AnswersOnly result reading }
{
    match known {
        Known::TidToLinkMapping => match decode_ttlm(alloc, element) {
            Ok(value) => Ok(KnownValue::Mapping(value)),
            Err(fault) => Err(fault),
        },
        Known::MultiLink => match decode_ml(alloc, element) {
            Ok(value) => Ok(KnownValue::MultiLink(value)),
            Err(fault) => Err(fault),
        },
    }
}
