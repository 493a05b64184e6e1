//! Frames in two lists, doubly linked.
ghost use Rattle.std.specs.Prelude.{◌≡◌, ◌+◌, ◌-◌, ◌<◌, ◌≤◌, ◌∷◌, ◌++◌, true, [], length, drop, map, take, slice_get, slice_index, IfOk, IfSome};
ghost use Rattle.vax_lists.specs.Links.{Away, before_appended, before_without, is_in, next_appended, next_without, omit, with_first, with_second};

use std::alloc::Global;
use std::marker::Model;
use vax_space::NoMemory;

/// For each frame and for the end of each list, the one after it and the one before it.
#[derive(Drop)]
struct Links {
    next: Vec<u16>,
    before: Vec<u16>,
}

impl Links {
    /// Puts a frame before an end.
    #[inline]
    fn append(&mut self, end: u32, frame: u32)
        requires end { end < length self.old.next.items }
        requires frame { frame < length self.old.next.items }
        requires last { slice_index self.old.before.items end < length self.old.next.items }
        requires size { length self.old.before.items ≡ length self.old.next.items }
        requires small { length self.old.next.items ≤ 65536 }
        ensures next { self.new.next.items
            ≡ next_appended self.old.next.items (slice_index self.old.before.items end) end frame }
        ensures before { self.new.before.items ≡ before_appended self.old.before.items
            (slice_index self.old.before.items end) end frame }
    {
        let last = self.before[end as usize];
        self.next[last as usize] = frame as u16;
        self.next[frame as usize] = end as u16;
        self.before[frame as usize] = last;
        self.before[end as usize] = frame as u16;
    }

    /// Takes a frame out of its circle.
    #[inline]
    fn remove(&mut self, frame: u32)
        requires frame { frame < length self.old.next.items }
        requires next { slice_index self.old.next.items frame < length self.old.next.items }
        requires before { slice_index self.old.before.items frame < length self.old.next.items }
        requires size { length self.old.before.items ≡ length self.old.next.items }
        ensures next { self.new.next.items
            ≡ next_without self.old.next.items self.old.before.items frame }
        ensures before { self.new.before.items
            ≡ before_without self.old.next.items self.old.before.items frame }
    {
        let next = self.next[frame as usize];
        let before = self.before[frame as usize];
        self.next[before as usize] = next;
        self.before[next as usize] = before;
    }
}

/// Frames below a limit in two lists, each frame once and in one of them. Only `new` takes memory, 4 bytes a frame, and
/// only `is_among_last` and `read` look at more than two of them.
#[derive(Drop)]
pub(crate) struct Circles {
    /// Two circles, through `limit` and through `limit + 1`.
    links: Links,
    limit: u32,
    /// So many frames are in each.
    first: u32,
    second: u32,
}

impl Model for Circles {
    ghost use Rattle.vax_lists.specs.Links.{AreLinked, FrameLists, lists_of};

    ghost Value = { FrameLists };

    ghost view = { λ c. lists_of c.links.next.items c.limit c.first c.second };

    ghost invariant = { λ c. AreLinked c.links.next.items c.links.before.items c.limit c.first c.second };
}

impl Circles {
    /// No frame, and room for those below a limit, at most 32,768.
    pub(crate) fn new(alloc: Global, limit: u32) -> Result<Circles, NoMemory>
        requires few { limit ≤ 32768 }
        ensures { IfOk result (λ lists. lists ≡ record { first = []; second = []; limit = limit }) }
    {
        let count = limit as usize + 2;
        let mut next = vec![in alloc; limit as u16; count]?;
        let mut before = vec![in alloc; limit as u16; count]?;
        next[limit as usize + 1] = limit as u16 + 1;
        before[limit as usize + 1] = limit as u16 + 1;
        Ok(Circles {
            links: Links { next, before },
            limit,
            first: 0,
            second: 0,
        })
    }

    /// How many frames are in the second list.
    #[inline]
    pub(crate) fn second_len(&self) -> u32
        ensures { result ≡ length self.now.second }
    {
        self.second
    }

    /// The frame that came first of the first list.
    #[inline]
    pub(crate) fn first(&self) -> Option<u32>
        ensures first { result ≡ slice_get self.now.first 0 }
        ensures below { IfSome result (λ frame. frame < self.now.limit) }
    {
        if self.first == 0 {
            return None;
        }
        Some(u32::from(self.links.next[self.limit as usize]))
    }

    /// The frame that came first of the second list.
    #[inline]
    pub(crate) fn second(&self) -> Option<u32>
        ensures first { result ≡ slice_get self.now.second 0 }
        ensures below { IfSome result (λ frame. frame < self.now.limit) }
    {
        if self.second == 0 {
            return None;
        }
        Some(u32::from(self.links.next[self.limit as usize + 1]))
    }

    /// Appends a frame that is in neither list to the first.
    #[inline]
    pub(crate) fn push_first(&mut self, frame: u32)
        requires below { frame < self.old.limit }
        requires first { Away frame self.old.first }
        requires second { Away frame self.old.second }
        ensures { self.new ≡ with_first self.old (self.old.first ++ frame ∷ []) }
    {
        self.links.append(self.limit, frame);
        self.first += 1;
    }

    /// Appends a frame that is in neither list to the second.
    #[inline]
    pub(crate) fn push_second(&mut self, frame: u32)
        requires below { frame < self.old.limit }
        requires first { Away frame self.old.first }
        requires second { Away frame self.old.second }
        ensures { self.new ≡ with_second self.old (self.old.second ++ frame ∷ []) }
    {
        self.links.append(self.limit + 1, frame);
        self.second += 1;
    }

    /// Removes a frame of the first list.
    #[inline]
    pub(crate) fn remove_first(&mut self, frame: u32)
        requires there { is_in frame self.old.first ≡ true }
        ensures { self.new ≡ with_first self.old (omit frame self.old.first) }
    {
        self.links.remove(frame);
        self.first -= 1;
    }

    /// Removes a frame of the second list.
    #[inline]
    pub(crate) fn remove_second(&mut self, frame: u32)
        requires there { is_in frame self.old.second ≡ true }
        ensures { self.new ≡ with_second self.old (omit frame self.old.second) }
    {
        self.links.remove(frame);
        self.second -= 1;
    }

    /// Writes what a table has at the frames of the first list, in order, and answers how many these are.
    pub(crate) fn read(&self, table: &[u32], cells: &mut [u32]) -> usize
        requires table { length table.now ≡ self.now.limit }
        requires room { length self.now.first ≤ length cells.old }
        ensures count { result ≡ length self.now.first }
        ensures cells { take result cells.new ≡ map (slice_index table.now) self.now.first }
    {
        let count = self.first as usize;
        let mut at = self.limit as usize;
        for i in 0..count {
            at = usize::from(self.links.next[at]);
            cells[i] = table[at];
        }
        count
    }

    /// Whether a frame is among so many that came last of the first list.
    pub(crate) fn is_among_last(&self, frame: u32, count: u32) -> bool
        requires few { count ≤ length self.now.first }
        ensures { result ≡ is_in frame (drop (length self.now.first - count) self.now.first) }
    {
        let mut at = self.limit;
        for _ in 0..count {
            at = u32::from(self.links.before[at as usize]);
            if at == frame {
                return true;
            }
        }
        false
    }
}
