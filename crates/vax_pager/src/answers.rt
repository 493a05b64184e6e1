//! What a pager answers of itself.
ghost use Rattle.std.specs.Prelude.{◌≡◌, length};

use crate::Counts;
use crate::store::Store;
use vax_lists::Placed;
use vax_space::Space;

impl Store {
    ghost use Rattle.vax_pager.specs.Listing.{first, is_listed};
    ghost use Rattle.vax_pager.specs.Store.{IsSound, paging};

    #[tactic(auto, unfolding(crate::specs::Store::paging))]
    pub(crate) fn space(&self) -> &Space
        ensures { result.now ≡ (paging self.now).areas }
    {
        &self.space
    }

    #[tactic(auto, using(crate::proofs::Told::frames_few), unfolding(crate::specs::Store::paging))]
    pub(crate) fn frames(&self) -> u32
        requires sound { IsSound 0 self.now }
        ensures { result ≡ (paging self.now).frames }
    {
        self.frames.len() as u32
    }

    #[tactic(auto, using(crate::proofs::Told::pinned_are))]
    pub(crate) fn pins(&self) -> u32
        requires sound { IsSound 0 self.now }
        ensures { result ≡ length (paging self.now).pinned }
    {
        self.pinned
    }

    pub(crate) fn is_pinned(&self, page: u32) -> bool
        requires sound { IsSound 0 self.now }
        ensures { result ≡ is_listed page (paging self.now).pinned }
    {
        if !self.is_resident(page) {
            return false;
        }
        let frame = self.resident_frame(page);
        self.lists
            .is_among_last(Placed { page, frame }, self.pinned)
    }

    #[tactic(auto, using(crate::proofs::Told::kept_are))]
    pub(crate) fn kept(&self) -> u32
        ensures { result ≡ length (paging self.now).kept }
    {
        self.lists.kept()
    }

    #[tactic(auto, using(crate::proofs::Told::next_is))]
    pub(crate) fn next_flush(&self) -> Option<u32>
        ensures { result ≡ first (paging self.now).modified }
    {
        self.lists.next_modified()
    }

    #[tactic(auto, unfolding(crate::specs::Store::paging))]
    pub(crate) fn counts(&self) -> Counts
        ensures served { result.served ≡ (paging self.now).numbers.served }
        ensures evicted { result.evicted ≡ (paging self.now).numbers.evicted }
        ensures written { result.written ≡ (paging self.now).numbers.written }
    {
        Counts {
            served: self.served,
            evicted: self.evicted,
            written: self.written,
        }
    }

    #[tactic(auto, unfolding(crate::specs::Store::paging))]
    pub(crate) fn spoiled(&self) -> u64
        ensures { result ≡ (paging self.now).numbers.spoiled }
    {
        self.spoiled
    }

    pub(crate) fn hits(&self) -> u64
        ensures { result ≡ self.now.buffer.hits }
    {
        self.buffer.hits()
    }
}
