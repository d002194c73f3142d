//! Laws of the definitions, each the contract of a function that does nothing of its own.

ghost use Rattle.std.specs.Prelude.{◌≡◌, ℕ, ◌+◌, ◌<◌, ◌≤◌, true, List, Option, Some, length};
ghost use Rattle.wl_elem.specs.Element.{ElementValue};
ghost use Rattle.wl_elem.specs.ElementList.{Elems};
ghost use Rattle.wl_elem.specs.Links.{link_limit};
ghost use Rattle.wl_mle.specs.declared.multi_link.MultiLink.TheVariants as elements;
ghost use Rattle.wl_mle.specs.MultiLink.{MlOf};
ghost use Rattle.wl_assoc.specs.Association.{AskOf, ReplyOf};
ghost use Rattle.wl_setup.specs.declared.message.SetupAsk.{SetupAsk};
ghost use Rattle.wl_setup.specs.declared.message.SetupReply.{SetupReply};
ghost use Rattle.wl_setup.specs.Table.{entry_for, is_named};
ghost use Rattle.wl_joining.specs.Joining.{ask_basic, reply_basic, ask_body, reply_body, AskIn, ReplyIn, AskReadAs, ReplyReadAs};
ghost use Rattle.wl_joining.specs.Written.{IsAsk, IsReply, HaveNoMultiLink, ask_multi_link, reply_multi_link, ask_value, reply_value};

/// Of a body one request is taken at most, for a link and an address.
pub fn asks_read_once()
    ensures { (on : ℕ) (mac body : List ℕ) (a b : SetupAsk) → AskIn on mac body a → AskIn on mac body b → a ≡ b }
{
    wl_assoc::ask_read_once();
    wl_assoc::asks_once();
    wl_mle::read_once();
}

/// Of a body one reply is taken at most, for a link.
pub fn replies_read_once()
    ensures { (on : ℕ) (body : List ℕ) (a b : SetupReply) → ReplyIn on body a → ReplyIn on body b → a ≡ b }
{
    wl_assoc::reply_read_once();
    wl_assoc::states_once();
}

/// The body of a request with further elements is what the codecs write of its value, and so is the body
/// of its Multi-Link element.
pub fn an_ask_is_encoded()
    ensures body { (ask : SetupAsk) (list : List ElementValue) (octets : List ℕ) → IsAsk ask → Elems list octets → AskOf (ask_value list ask) (ask_body ask octets) }
    ensures element { (ask : SetupAsk) → IsAsk ask → MlOf (elements.Basic (ask_multi_link ask)) (ask_basic ask) }
{}

/// The body of a response is what the codecs write of its value, and so is the body of its Multi-Link
/// element.
pub fn a_reply_is_encoded()
    ensures body { (mld : List ℕ) (macs : List (Option (List ℕ))) (reply : SetupReply) → IsReply mld macs reply → ReplyOf (reply_value mld macs reply) (reply_body mld macs reply) }
    ensures element { (mld : List ℕ) (macs : List (Option (List ℕ))) (reply : SetupReply) → IsReply mld macs reply → MlOf (elements.Basic (reply_multi_link mld macs reply)) (reply_basic mld macs reply) }
{}

/// Of a written request, with further elements that have no Multi-Link element among them, the AP takes
/// this request, where it came over its link and from its address there.
pub fn an_ask_is_read()
    ensures { (ask : SetupAsk) (list : List ElementValue) (octets mac : List ℕ) → IsAsk ask → Elems list octets → HaveNoMultiLink list → entry_for ask.macs ask.on ≡ Some mac → AskIn ask.on mac (ask_body ask octets) ask }
{}

/// Of a written response the station takes this one, where it came over its link.
pub fn a_reply_is_read()
    ensures { (mld : List ℕ) (macs : List (Option (List ℕ))) (reply : SetupReply) → IsReply mld macs reply → ReplyIn reply.on (reply_body mld macs reply) reply }
{}

/// Bodies are short: beside further elements a request has at most 261 octets, and a response at most
/// 263.
pub fn bodies_are_short()
    ensures ask { (ask : SetupAsk) (octets : List ℕ) → IsAsk ask → length (ask_body ask octets) ≤ length octets + 261 }
    ensures reply { (mld : List ℕ) (macs : List (Option (List ℕ))) (reply : SetupReply) → IsReply mld macs reply → length (reply_body mld macs reply) ≤ 263 }
{}

/// Whatever a written request is read as, over its link and from its address there, is this request.
pub fn a_written_ask_is_taken()
    ensures { (ask : SetupAsk) (list : List ElementValue) (octets mac : List ℕ) (taken : Option SetupAsk) → IsAsk ask → Elems list octets → HaveNoMultiLink list → entry_for ask.macs ask.on ≡ Some mac
        → AskReadAs ask.on mac (ask_body ask octets) taken → taken ≡ Some ask }
{
    an_ask_is_read();
    asks_read_once();
}

/// Whatever a written response is read as, over its link, is this response.
pub fn a_written_reply_is_taken()
    ensures { (mld : List ℕ) (macs : List (Option (List ℕ))) (reply : SetupReply) (taken : Option SetupReply) → IsReply mld macs reply
        → ReplyReadAs reply.on (reply_body mld macs reply) taken → taken ≡ Some reply }
{
    a_reply_is_read();
    replies_read_once();
}

/// A request that is taken is for the link that carries it too, with the address that it came from. A
/// response that is taken has a status for the link that carries it.
pub fn the_carrying_link_is_named()
    ensures address { (on : ℕ) (mac body : List ℕ) (ask : SetupAsk) → on < link_limit → AskIn on mac body ask → entry_for ask.macs ask.on ≡ Some mac }
    ensures asked { (on : ℕ) (mac body : List ℕ) (ask : SetupAsk) → on < link_limit → AskIn on mac body ask → is_named ask.macs ask.on ≡ true }
    ensures answered { (on : ℕ) (body : List ℕ) (reply : SetupReply) → on < link_limit → ReplyIn on body reply → is_named reply.status reply.on ≡ true }
{
    wl_setup::entry_of_each_link();
}
