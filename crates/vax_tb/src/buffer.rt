//! The buffer.
ghost use Rattle.std.specs.Prelude.{◌≡◌, ◌≤◌, ◌%◌, IfSome, Some, None, is_some, true};
ghost use Rattle.vax_tb.specs.Buffer.{Agrees, at_once, dropped, empty, filled, filled_if, raised_if};
ghost use Rattle.vax_tb.specs.Entries.{AreRights, AreSound, HaveRights, told};
ghost use Rattle.vax_space.specs.Protection.{permits};
ghost use Rattle.vax_table.specs.Mapping.{prot_said};

use vax_space::{Access, Right};
use vax_table::{Tables, Walk};

/// How many entries a buffer has.
const ENTRIES: usize = 128;

/// What an entry says of its page beside the frame.
#[derive(Clone, Copy, PartialEq, Eq)]
pub(crate) enum Said {
    /// The entry is of no page.
    Nothing,
    Resident { prot: u8, modified: bool },
    Absent { prot: u8 },
    Outside { length: bool },
}

/// An entry. It has 16 bytes.
#[derive(Clone, Copy)]
pub(crate) struct Entry {
    pub(crate) page: u32,
    pub(crate) frame: u32,
    /// What each mode may do at once: what the protection allows, but no write to a page that isn't modified.
    pub(crate) rights: [Right; 4],
    pub(crate) said: Said,
}

/// Page table entries by the low seven bits of their pages, at most 128.
#[derive(Drop)]
pub struct Buffer {
    entries: [Entry; 128],
    hits: u64,
    ghost sound: { AreSound entries },
}

use Right::{Nothing, ReadOnly, ReadWrite};

/// What the modes may do at once to a modified page, by protection code.
static MODIFIED: [[Right; 4]; 16] = [
    [Nothing, Nothing, Nothing, Nothing],
    [Nothing, Nothing, Nothing, Nothing],
    [ReadWrite, Nothing, Nothing, Nothing],
    [ReadOnly, Nothing, Nothing, Nothing],
    [ReadWrite, ReadWrite, ReadWrite, ReadWrite],
    [ReadWrite, ReadWrite, Nothing, Nothing],
    [ReadWrite, ReadOnly, Nothing, Nothing],
    [ReadOnly, ReadOnly, Nothing, Nothing],
    [ReadWrite, ReadWrite, ReadWrite, Nothing],
    [ReadWrite, ReadWrite, ReadOnly, Nothing],
    [ReadWrite, ReadOnly, ReadOnly, Nothing],
    [ReadOnly, ReadOnly, ReadOnly, Nothing],
    [ReadWrite, ReadWrite, ReadWrite, ReadOnly],
    [ReadWrite, ReadWrite, ReadOnly, ReadOnly],
    [ReadWrite, ReadOnly, ReadOnly, ReadOnly],
    [ReadOnly, ReadOnly, ReadOnly, ReadOnly],
];

/// The same to a page that isn't modified, which no mode may write at once.
static UNMODIFIED: [[Right; 4]; 16] = [
    [Nothing, Nothing, Nothing, Nothing],
    [Nothing, Nothing, Nothing, Nothing],
    [ReadOnly, Nothing, Nothing, Nothing],
    [ReadOnly, Nothing, Nothing, Nothing],
    [ReadOnly, ReadOnly, ReadOnly, ReadOnly],
    [ReadOnly, ReadOnly, Nothing, Nothing],
    [ReadOnly, ReadOnly, Nothing, Nothing],
    [ReadOnly, ReadOnly, Nothing, Nothing],
    [ReadOnly, ReadOnly, ReadOnly, Nothing],
    [ReadOnly, ReadOnly, ReadOnly, Nothing],
    [ReadOnly, ReadOnly, ReadOnly, Nothing],
    [ReadOnly, ReadOnly, ReadOnly, Nothing],
    [ReadOnly, ReadOnly, ReadOnly, ReadOnly],
    [ReadOnly, ReadOnly, ReadOnly, ReadOnly],
    [ReadOnly, ReadOnly, ReadOnly, ReadOnly],
    [ReadOnly, ReadOnly, ReadOnly, ReadOnly],
];

/// What each mode may do at once to a page with this protection code.
#[inline]
fn rights_at_once(prot: u8, modified: bool) -> [Right; 4]
    requires { prot ≤ 15 }
    ensures { HaveRights prot modified result }
{
    if modified {
        MODIFIED[prot as usize]
    } else {
        UNMODIFIED[prot as usize]
    }
}

/// The entry of a page of which the tables say this.
#[cold]
#[tactic(auto, using(crate::proofs::Places::rights_resident, crate::proofs::Places::rights_absent, crate::proofs::Places::rights_outside))]
fn entry_of(page: u32, walk: Walk) -> Entry
    requires small { IfSome (prot_said walk) (λ prot. prot ≤ 15) }
    ensures page { result.page ≡ page }
    ensures told { told result ≡ Some walk }
    ensures rights { AreRights result }
{
    let none = [Right::Nothing; 4];
    match walk {
        Walk::Resident {
            frame,
            prot,
            modified,
        } => Entry {
            page,
            frame,
            rights: rights_at_once(prot, modified),
            said: Said::Resident { prot, modified },
        },
        Walk::Absent { prot } => Entry {
            page,
            frame: 0,
            rights: none,
            said: Said::Absent { prot },
        },
        Walk::Outside { length } => Entry {
            page,
            frame: 0,
            rights: none,
            said: Said::Outside { length },
        },
    }
}

impl Entry {
    /// What the entry says of its page, none where it is of no page.
    #[inline]
    fn walk(&self) -> Option<Walk>
        ensures { result ≡ told self.now }
    {
        match self.said {
            Said::Nothing => None,
            Said::Resident { prot, modified } => Some(Walk::Resident {
                frame: self.frame,
                prot,
                modified,
            }),
            Said::Absent { prot } => Some(Walk::Absent { prot }),
            Said::Outside { length } => Some(Walk::Outside { length }),
        }
    }

    /// An entry of no page.
    #[tactic(auto, using(crate::proofs::Places::rights_nothing))]
    fn none() -> Entry
        ensures said { told result ≡ None }
        ensures rights { AreRights result }
    {
        Entry {
            page: 0,
            frame: 0,
            rights: [Right::Nothing; 4],
            said: Said::Nothing,
        }
    }
}

/// Whether a right permits an access.
#[inline]
fn permits(right: Right, access: Access) -> bool
    ensures { result ≡ permits right access }
{
    match access {
        Access::Read => right != Right::Nothing,
        Access::Write => right == Right::ReadWrite,
    }
}

/// The place of a page's entry.
#[inline]
fn place_of(page: u32) -> usize
    ensures { result ≡ page % 128 }
{
    page as usize % ENTRIES
}

impl Default for Buffer {
    ghost use Rattle.vax_tb.specs.Meaning.{buffered};

    fn default() -> Buffer
        ensures entries { buffered result ≡ empty }
        ensures hits { result.hits ≡ 0 }
    {
        Buffer::new()
    }
}

impl Buffer {
    ghost use Rattle.vax_table.specs.Tables.{walked};
    ghost use Rattle.vax_tb.specs.Meaning.{buffered};

    /// A buffer with no entry.
    pub fn new() -> Buffer
        ensures entries { buffered result ≡ empty }
        ensures hits { result.hits ≡ 0 }
    {
        Buffer {
            entries: [Entry::none(); 128],
            hits: 0,
        }
    }

    /// How often an entry was there for the page that was asked for. It stands still at its last value.
    #[inline]
    pub fn hits(&self) -> u64
        ensures { result ≡ self.now.hits }
    {
        self.hits
    }

    /// What the tables say of a page. Afterwards its entry is there, in the place of any other page's with the same
    /// low seven bits.
    pub fn walk(&mut self, page: u32, tables: &Tables) -> Walk
        requires agrees { Agrees (buffered self.old) (walked tables.now) }
        ensures value { result ≡ walked tables.now page }
        ensures agrees { Agrees (buffered self.new) (walked tables.now) }
        ensures entries { buffered self.new ≡ filled (buffered self.old) page result }
        ensures hits { self.new.hits ≡ raised_if (is_some (buffered self.old page)) self.old.hits }
    {
        if let Some(walk) = self.find(page) {
            self.hits = self.hits.saturating_add(1);
            return walk;
        }
        let walk = tables.walk(page);
        self.entries[place_of(page)] = entry_of(page, walk);
        walk
    }

    /// What the entry of a page says, none where it has no entry.
    #[inline]
    fn find(&self, page: u32) -> Option<Walk>
        ensures { result ≡ buffered self.now page }
    {
        let entry = &self.entries[place_of(page)];
        if entry.page != page {
            return None;
        }
        entry.walk()
    }

    /// The frame of a page where a mode may make an access at once: the page's entry is there, the page is resident,
    /// its protection allows the access, and for a write it is modified. None says nothing of the page.
    #[inline]
    pub fn frame_at_once(&mut self, page: u32, mode: u8, access: Access) -> Option<u32>
        requires of_mode { mode ≤ 3 }
        ensures frame { result ≡ at_once (buffered self.old page) mode access }
        ensures entries { buffered self.new ≡ buffered self.old }
        ensures hits { self.new.hits ≡ raised_if (is_some result) self.old.hits }
    {
        let frame = self.seen_at_once(page, mode, access)?;
        self.hits = self.hits.saturating_add(1);
        Some(frame)
    }

    /// The same frame, but it counts as no hit.
    #[inline(always)]
    pub fn seen_at_once(&self, page: u32, mode: u8, access: Access) -> Option<u32>
        requires of_mode { mode ≤ 3 }
        ensures frame { result ≡ at_once (buffered self.now page) mode access }
    {
        let entry = &self.entries[place_of(page)];
        if entry.page != page {
            return None;
        }
        if !permits(entry.rights[mode as usize], access) {
            return None;
        }
        Some(entry.frame)
    }

    /// The frame of a page that has no entry, where the tables say that a mode may make an access at once. Then its
    /// entry is there afterwards. None says nothing of the page.
    #[inline]
    pub fn frame_by_walk(
        &mut self,
        page: u32,
        mode: u8,
        access: Access,
        tables: &Tables,
    ) -> Option<u32>
        requires of_mode { mode ≤ 3 }
        requires agrees { Agrees (buffered self.old) (walked tables.now) }
        ensures frame { IfSome result
            (λ frame. at_once (Some (walked tables.now page)) mode access ≡ Some frame) }
        ensures missed { is_some result ≡ true → buffered self.old page ≡ None }
        ensures agrees { Agrees (buffered self.new) (walked tables.now) }
        ensures entries { buffered self.new
            ≡ filled_if (is_some result) (buffered self.old) page (walked tables.now page) }
        ensures hits { self.new.hits ≡ self.old.hits }
    {
        let place = place_of(page);
        if self.entries[place].page == page {
            return None;
        }
        let Walk::Resident {
            frame,
            prot,
            modified,
        } = tables.walk(page)
        else {
            return None;
        };
        let rights = rights_at_once(prot, modified);
        if !permits(rights[mode as usize], access) {
            return None;
        }
        self.entries[place] = Entry {
            page,
            frame,
            rights,
            said: Said::Resident { prot, modified },
        };
        Some(frame)
    }

    /// Drops the entry of a page, if there is one, and no other.
    #[inline]
    pub fn forget(&mut self, page: u32)
        ensures entries { buffered self.new ≡ dropped (buffered self.old) page }
        ensures hits { self.new.hits ≡ self.old.hits }
    {
        let place = place_of(page);
        if self.entries[place].page == page {
            self.entries[place] = Entry::none();
        }
    }
}
