//! What the types of requests and replies give.

ghost use Rattle.std.specs.Prelude.{◌≡◌, ◌<◌, ℕ, length, IsTrue, IfSome};
ghost use Rattle.wl_elem.specs.Links.{link_limit};
ghost use Rattle.wl_mle.specs.MultiLink.{IsAddress};
ghost use Rattle.wl_setup.specs.Table.{entry_for, is_named};
ghost use Rattle.wl_joining.specs.Written.{AreAddresses, IsAsk, IsReply};

use wl_elem::MacAddr;
use wl_setup::{SetupAsk, SetupReply};

/// An address has six octets.
fn address_facts(address: &Option<MacAddr>)
    ensures { IfSome address.now IsAddress }
{
    if let Some(mac) = address {
        mac.octets();
    }
}

/// A table of addresses has one entry for each link.
fn table_facts(macs: &[Option<MacAddr>; 15])
    ensures whole { length macs.now ≡ link_limit }
    ensures addresses { AreAddresses macs.now }
{
    'links: for id in 0..15_u8 {
        address_facts(&macs[usize::from(id)]);
    }
}

/// A status has 16 bits.
fn status_facts(status: Option<u16>)
    ensures { IfSome status (λ n. n < 65536) }
{}

/// A table of statuses has one entry for each link.
fn statuses_facts(status: &[Option<u16>; 15])
    ensures whole { length status.now ≡ link_limit }
    ensures bound { (link : ℕ) → IfSome (entry_for status.now link) (λ n. n < 65536) }
{
    'links: for id in 0..15_u8 {
        status_facts(status[usize::from(id)]);
    }
}

/// What is true of every request that names the link that carries it. It does nothing else.
pub fn ask_facts(ask: &SetupAsk)
    requires { IsTrue (is_named ask.now.macs ask.now.on) }
    ensures { IsAsk ask.now }
{
    ask.on.get();
    ask.mld.octets();
    table_facts(&ask.macs);
}

/// What is true of every response that has a status for the link that carries it, of an AP with these
/// addresses. It does nothing else.
pub fn reply_facts(mld: MacAddr, macs: &[Option<MacAddr>; 15], reply: &SetupReply)
    requires { IsTrue (is_named reply.now.status reply.now.on) }
    ensures { IsReply mld macs.now reply.now }
{
    reply.on.get();
    mld.octets();
    table_facts(macs);
    statuses_facts(&reply.status);
}
