//! What a traced run watches, and where it is to stop.
ghost use Rattle.std.specs.Prelude.{◌≡◌, ◌≤◌, length};

/// Bytes that are watched: so many from an address on, which may go on at address 0.
#[derive(Clone, Copy, PartialEq, Eq)]
pub struct Watch {
    pub address: u32,
    pub count: u32,
}

/// A watch with its bytes as they were seen last, and the time before; None where no area has one.
#[derive(Drop)]
pub(crate) struct Seen {
    pub watch: Watch,
    pub earlier: Vec<Option<u8>>,
    pub latest: Vec<Option<u8>>,
    ghost few: { watch.count ≤ 4096 },
    ghost earlier_room: { length earlier.items ≡ watch.count },
    ghost latest_room: { length latest.items ≡ watch.count },
}

/// Where a traced run is to stop, what it watches, with room for the watched bytes, and whether it lists the text of each instruction.
#[derive(Drop)]
pub struct Plan {
    pub(crate) breaks: Vec<u32>,
    pub(crate) seen: Vec<Seen>,
    pub(crate) texts: bool,
    ghost few_breaks: { length breaks.items ≤ 16 },
    ghost few_watches: { length seen.items ≤ 16 },
}
