//! Laws of multi-link setup, each the contract of a function that does nothing.

ghost use Rattle.std.specs.Prelude.{◌≡◌, ◌↔◌, ◌<◌, ℕ, Bool, true, false, List, Option, Some};
ghost use Rattle.wl_elem.specs.Links.{link_limit, has_link};
ghost use Rattle.wl_setup.specs.declared.message.SetupAsk.{SetupAsk};
ghost use Rattle.wl_setup.specs.declared.message.SetupReply.{SetupReply};
ghost use Rattle.wl_setup.specs.Ap.{ApState, IsGrantable, IsRemembered, IsRepeated, ask_answer, is_joining, after_ask};
ghost use Rattle.wl_setup.specs.Messages.{IsAnswer, same_ask};
ghost use Rattle.wl_setup.specs.Station.{StationState, IsChoice, IsConfirmed, is_choice, after_reply};
ghost use Rattle.wl_setup.specs.Table.{each_link, entry_for, is_named, links_that};

/// Every link that the AP sets up by a request was asked with the station's address there, is one that
/// the AP accepts, and one where its radio is on.
pub fn set_up_by_ask()
    ensures { (ap : ApState) (ask : SetupAsk) (powered link : ℕ) → link < link_limit → has_link ap.links link ≡ false → has_link (after_ask ap ask powered).links link ≡ true → IsGrantable ap ask powered link }
{}

/// Every link that the station sets up by a reply was in the request that it awaits the reply to, and
/// has status 0 in the reply.
pub fn set_up_by_reply()
    ensures { (station : StationState) (reply : SetupReply) (link : ℕ) → link < link_limit → has_link station.links link ≡ false → has_link (after_reply station reply).links link ≡ true → IsConfirmed station reply link }
{}

/// A reply goes over the link of the request, and has a status for exactly the asked links. That needs
/// that what the AP remembers is such a pair, which stays so whatever is asked.
pub fn reply_names_asked()
    ensures named { (ap : ApState) (ask : SetupAsk) (reply : SetupReply) (powered : ℕ) → IsRemembered ap.joined → ask_answer ap ask powered ≡ Some reply → IsAnswer ask reply }
    ensures kept { (ap : ApState) (ask : SetupAsk) (powered : ℕ) → IsRemembered ap.joined → IsRemembered (after_ask ap ask powered).joined }
{}

/// Where an AP with no link set up sets links up by a request, the same request over the same link gets
/// the same reply again, and changes nothing, whatever radios are on by then.
pub fn repeated()
    ensures { (ap : ApState) (ask : SetupAsk) (reply : SetupReply) (powered later : ℕ) → ap.links ≡ 0 → ask_answer ap ask powered ≡ Some reply → ¬ ((after_ask ap ask powered).links ≡ 0) → IsRepeated (after_ask ap ask powered) ask reply later }
{}

/// Where the AP becomes associated by a request, it sets up the link that carries it. So an AP that
/// remembers a request has a link set up.
pub fn carrying_set_up()
    ensures { (ap : ApState) (ask : SetupAsk) (powered : ℕ) → ask.on < link_limit → is_named ask.macs ask.on ≡ true → is_joining ap ask powered ≡ true → has_link (after_ask ap ask powered).links ask.on ≡ true }
{}

/// Requests that the AP takes for the same are equal, and equal ones it takes for the same.
pub fn same_if_equal()
    ensures { (a b : SetupAsk) → (same_ask a b ≡ true) ↔ (a ≡ b) }
{}

/// The station may ask for links exactly where the carrying link is among them, and it has an address for
/// each.
pub fn choice_of_known_links()
    ensures { (station : StationState) (on links : ℕ) → (is_choice station on links ≡ true) ↔ IsChoice station on links }
{}

/// A table by a definition has the entry of each link.
pub fn entry_of_each_link()
    ensures addresses { (entry : ℕ → Option (List ℕ)) (link : ℕ) → link < link_limit → entry_for (each_link entry) link ≡ entry link }
    ensures statuses { (entry : ℕ → Option ℕ) (link : ℕ) → link < link_limit → entry_for (each_link entry) link ≡ entry link }
{}

/// A set by a test has exactly the links that pass.
pub fn links_that_pass()
    ensures { (passes : ℕ → Bool) (link : ℕ) → link < link_limit → has_link (links_that passes) link ≡ passes link }
{}
