//! One end of the negotiation.

ghost use Rattle.std.specs.Prelude.{◌≡◌, ◌≢◌};
ghost use Rattle.wl_ttlm.specs.Mapping.{IsMapping};
ghost use Rattle.wl_map.specs.Ends.{IsMapState, opened, is_valid_ask, ask_answer, after_ask, status_of, after_on_ask, takes_reply, after_reply, adopted, closed, torn_down, after_teardown, standing_token, with_links, agreed_sets, of_direction};

use crate::agreed::{Agreed, becomes, cut_to, is_valid_if, mapping_of};
use crate::change::{Change, MapAsk, MapRefusal};
use std::marker::Model;
use wl_elem::{Direction, LinkSet};
use wl_ttlm::{Mapping, a_mapping_passes};

/// The status of a reply to an ask that was taken.
const SUCCESS: u16 = 0;

/// The status of a reply that denies a mapping.
const DENIED: u16 = 133;

/// One end of the negotiation of TID-to-link mappings (IEEE Std 802.11be, 35.3.7): the mapping agreed
/// on in each direction, the links set up, and the own ask while no reply to it was taken.
///
/// At any time each TID of a direction that isn't the default has a link, and only links set up. An ask
/// changes no mapping at the asker: it adopts what it asked for when it takes the reply. It takes no
/// memory.
#[derive(Clone, Copy, Debug, PartialEq, Eq)]
pub struct MapEnd {
    deny: bool,
    links: LinkSet,
    down: Agreed,
    up: Agreed,
    asked: Option<MapAsk>,
}

impl Model for MapEnd {
    ghost use Rattle.wl_map.specs.Ends.{MapState, IsMapState, made};

    ghost Value = { MapState };

    ghost view = { λ e. made e.deny e.links e.down e.up e.asked };

    ghost invariant = { λ e. IsMapState (made e.deny e.links e.down e.up e.asked) };

    ghost inverse = { λ s. record { deny = s.deny; links = s.links; down = s.down; up = s.up; asked = s.asked } };
}

impl MapEnd {
    /// An end over these links, with the default mapping in both directions and no ask. With `deny` it
    /// denies each ask of its peer.
    pub fn new(deny: bool, links: LinkSet) -> MapEnd
        ensures { result ≡ opened deny links }
    {
        let links_bound = links.bits();
        MapEnd {
            deny,
            links,
            down: Agreed::Default,
            up: Agreed::Default,
            asked: None,
        }
    }

    /// Whether an ask names a direction, and each change that it names is valid here.
    fn is_valid_ask(&self, ask: &MapAsk) -> bool
        ensures { result ≡ is_valid_ask self.now ask.now }
    {
        (ask.down.is_some() || ask.up.is_some())
            && is_valid_if(&self.down, &ask.down, self.links)
            && is_valid_if(&self.up, &ask.up, self.links)
    }

    /// Each direction that an ask names becomes what it says, cut to the links set up. No ask stands
    /// afterwards.
    fn adopt(&mut self, ask: &MapAsk)
        ensures { self.new ≡ adopted self.old ask.now }
    {
        self.down = becomes(&self.down, &ask.down, self.links);
        self.up = becomes(&self.up, &ask.up, self.links);
        self.asked = None;
    }

    /// Asks the peer for new mappings. Ok exactly where no own ask stands, a direction is named, and
    /// each change named is valid: with it each TID of the direction has a link, and only links set up.
    /// The ask stands then, and is what is sent; no mapping changes until a reply to it is taken.
    /// Otherwise, in this order: `Busy` with the token of the ask that stands, `NotValid`. Nothing
    /// changes then.
    pub fn ask(
        &mut self,
        token: u8,
        down: Option<Change>,
        up: Option<Change>,
    ) -> Result<MapAsk, MapRefusal>
        ensures answer { result ≡ ask_answer self.old (record { token = token; down = down; up = up }) }
        ensures after { self.new ≡ after_ask self.old (record { token = token; down = down; up = up }) }
    {
        if let Some(own) = &self.asked {
            return Err(MapRefusal::Busy(own.token));
        }
        let ask = MapAsk { token, down, up };
        if !self.is_valid_ask(&ask) {
            return Err(MapRefusal::NotValid);
        }
        self.asked = Some(ask);
        Ok(ask)
    }

    /// Answers an ask of the peer, by the status of the reply. 133 where an own ask stands, where this
    /// end denies each, where no direction is named, or where a change named isn't valid here; nothing
    /// changes then. Otherwise 0, and the directions named become what was asked.
    pub fn on_ask(&mut self, ask: &MapAsk) -> u16
        ensures status { result ≡ status_of self.old ask.now }
        ensures after { self.new ≡ after_on_ask self.old ask.now }
    {
        if self.asked.is_some() || self.deny || !self.is_valid_ask(ask) {
            return DENIED;
        }
        self.adopt(ask);
        SUCCESS
    }

    /// Takes a reply. True exactly where an ask with this token stands, which is closed then. With
    /// status 0 each direction that it named becomes what it says, each set cut to the links set up now,
    /// or the default where a set is empty then. With another status the mappings stay. A reply that
    /// isn't taken changes nothing.
    pub fn on_reply(&mut self, token: u8, status: u16) -> bool
        ensures taken { result ≡ takes_reply self.old token }
        ensures after { self.new ≡ after_reply self.old token status }
    {
        match self.asked {
            Some(own) if own.token == token => {
                if status == SUCCESS {
                    self.adopt(&own);
                } else {
                    self.asked = None;
                }
                true
            }
            _ => false,
        }
    }

    /// Tears the mappings down: both directions become the default, and the own ask is closed. What is
    /// sent has no content.
    pub fn teardown(&mut self)
        ensures { self.new ≡ torn_down self.old }
    {
        self.on_teardown();
        self.asked = None;
    }

    /// Takes a teardown of the peer: both directions become the default. An own ask stays.
    pub fn on_teardown(&mut self)
        ensures { self.new ≡ after_teardown self.old }
    {
        self.down = Agreed::Default;
        self.up = Agreed::Default;
    }

    /// Gives the own ask up, and answers its token. None exactly where none stands. No mapping changes.
    pub fn give_up(&mut self) -> Option<u8>
        ensures token { result ≡ standing_token self.old }
        ensures after { self.new ≡ closed self.old }
    {
        let own = self.asked?;
        self.asked = None;
        Some(own.token)
    }

    /// The links set up have become these. A link that is set up no more leaves each set, and a
    /// direction in which a set is empty then becomes the default. Only the default gains a link.
    pub fn links_now(&mut self, links: LinkSet)
        ensures { self.new ≡ with_links self.old links }
    {
        self.down = cut_to(&self.down, links);
        self.up = cut_to(&self.up, links);
        self.links = links;
    }

    /// What a direction has agreed on.
    fn of_direction(&self, d: Direction) -> &Agreed
        ensures { result.now ≡ of_direction d self.now }
    {
        match d {
            Direction::Down => &self.down,
            Direction::Up => &self.up,
        }
    }

    /// The mapping of a direction: the default over the links set up, or the sets agreed on. Where a
    /// link is set up each TID has at least one link in it, and only links set up.
    pub fn agreed(&self, d: Direction) -> Mapping
        ensures value { result.sets ≡ agreed_sets d self.now }
        ensures valid { self.now.links ≢ 0 → IsMapping self.now.links result.sets }
        ensures is_state { IsMapState self.now }
    {
        a_mapping_passes();
        mapping_of(self.of_direction(d), self.links)
    }
}
