//! The frames that an end aired.

ghost use Rattle.std.specs.Prelude.{◌≡◌, ◌+◌, ◌^◌, ◌<◌, ◌++◌, ◌∷◌, [], length, slice_index_or, slice_set, option_copied, OnOk, OnErr};
ghost use Rattle.wl_history.specs.Words.{at, last_of};

use crate::bodies::Bodies;
use std::alloc::Global;
use std::marker::Model;
use wl_elem::{Bytes, LinkId, Memory};

/// The frames aired on each link, in order.
#[derive(Debug, Drop)]
pub(crate) struct Frames {
    links: [Bodies; 15],
}

impl Model for Frames {
    ghost use Rattle.std.specs.Prelude.{◌≡◌, ℕ, List, length};

    ghost Value = { List (List (List ℕ)) };

    ghost view = { λ f. f.links };

    ghost invariant = { λ f. length f.links ≡ 15 };
}

impl Frames {
    ghost use Rattle.wl_history.specs.EndState.{no_frames};
    ghost use Rattle.wl_end.specs.Parts.{frames_of, frame_count};

    /// Nothing was aired. It takes no memory.
    pub fn new(alloc: Global) -> Frames
        ensures { result ≡ no_frames }
    {
        Frames {
            links: [
                Bodies::new(alloc),
                Bodies::new(alloc),
                Bodies::new(alloc),
                Bodies::new(alloc),
                Bodies::new(alloc),
                Bodies::new(alloc),
                Bodies::new(alloc),
                Bodies::new(alloc),
                Bodies::new(alloc),
                Bodies::new(alloc),
                Bodies::new(alloc),
                Bodies::new(alloc),
                Bodies::new(alloc),
                Bodies::new(alloc),
                Bodies::new(alloc),
            ],
        }
    }

    /// Airs a frame on a link. After `Memory` nothing has changed.
    pub fn push(&mut self, link: LinkId, octets: Bytes) -> Result<(), Memory>
        ensures ok { OnOk result (self.new ≡ slice_set self.old link (frames_of self.old link ++ octets ∷ [])) }
        ensures err { OnErr result (self.new ≡ self.old) }
    {
        self.links[usize::from(link.get())].push(octets)
    }

    /// The frame of this number on a link, from 0. None exactly where fewer were aired there.
    pub fn nth(&self, link: LinkId, nth: u32) -> Option<&[u8]>
        ensures value { option_copied result ≡ at (frames_of self.now link) nth }
        ensures fifteen { length self.now ≡ 15 }
    {
        self.links[usize::from(link.get())].get(nth as usize)
    }

    /// The last frame on a link. None exactly where none was aired there.
    pub fn latest(&self, link: LinkId) -> Option<&[u8]>
        ensures { option_copied result ≡ last_of (frames_of self.now link) }
    {
        self.links[usize::from(link.get())].last()
    }

    /// How many frames were aired, on all links.
    pub fn count(&self) -> u32
        requires { frame_count self.now < 2 ^ 32 }
        ensures { result ≡ frame_count self.now }
    {
        let links = &self.links;
        let mut count = 0;
        'links: for place in 0..links.len() {
            count += links[place].len() as u32;
        }
        count
    }
}
