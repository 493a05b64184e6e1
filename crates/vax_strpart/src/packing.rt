//! How far a string instruction has come, in registers R0 to R5.
ghost use Rattle.std.specs.Prelude.{◌≡◌};
ghost use Rattle.vax_strpart.specs.Packing.{IsProper, layout_of, packed, unpacked};

/// How far a string instruction has come. A field that the instruction doesn't need is 0.
#[derive(Clone, Copy, PartialEq, Eq)]
pub struct Progress {
    /// The opcode.
    pub op: u8,
    /// The length in bytes of the source, of the first string or of the object; for LOCC, SKPC, SCANC and SPANC what is left of it.
    pub len1: u16,
    /// The address of the same.
    pub addr1: u32,
    /// The fill, the escape, the character or the mask.
    pub byte: u8,
    /// The length of the destination or of the second string; for MATCHC what is left of the source.
    pub len2: u16,
    /// The address of the same.
    pub addr2: u32,
    /// The address of the table.
    pub table: u32,
    /// The units done; for MATCHC the bytes of the object that agree at the present place.
    pub done: u16,
    /// The length of the instruction in bytes.
    pub delta: u8,
}

/// Which registers hold what.
#[derive(Clone, Copy, PartialEq, Eq)]
pub enum Layout {
    /// MOVC3 and MOVC5.
    Moves,
    /// CMPC3, CMPC5 and MATCHC.
    Compares,
    /// LOCC and SKPC.
    Searches,
    /// SCANC and SPANC.
    Scans,
    /// MOVTC and MOVTUC.
    Translates,
}

#[tactic(auto, unfolding(crate::specs::Packing::layout_of))]
fn layout_of(op: u8) -> Layout
    ensures { result ≡ layout_of op }
{
    match op {
        0x28 | 0x2C => Layout::Moves,
        0x2E | 0x2F => Layout::Translates,
        0x3A | 0x3B => Layout::Searches,
        0x2A | 0x2B => Layout::Scans,
        _ => Layout::Compares,
    }
}

/// Registers R0 to R5 that hold a progress, where they held `old` before.
#[tactic(auto, using(crate::proofs::PackingLaws::packing_laws), unfolding(crate::specs::Packing::packed))]
pub fn pack(p: &Progress, old: &[u32; 6]) -> [u32; 6]
    ensures exact { result ≡ packed p.now old.now }
    ensures back { IsProper p.now → unpacked p.now.op (packed p.now old.now) ≡ p.now }
{
    let first = u32::from(p.len1) + 0x1_0000 * u32::from(p.byte) + 0x100_0000 * u32::from(p.delta);
    let third = u32::from(p.len2) + 0x1_0000 * u32::from(p.done);
    match layout_of(p.op) {
        Layout::Moves => [first, p.addr1, third, p.addr2, 0, 0],
        Layout::Compares => [first, p.addr1, third, p.addr2, old[4], old[5]],
        Layout::Searches => [first, p.addr1, old[2], old[3], old[4], old[5]],
        Layout::Scans => [first, p.addr1, 0, p.table, old[4], old[5]],
        Layout::Translates => [first, p.addr1, third, p.table, 0, p.addr2],
    }
}

/// The progress of an instruction with this opcode that registers R0 to R5 hold.
#[tactic(auto, unfolding(crate::specs::Packing::unpacked))]
pub fn unpack(op: u8, regs: &[u32; 6]) -> Progress
    ensures { result ≡ unpacked op regs.now }
{
    let (counts, addr2, table) = match layout_of(op) {
        Layout::Moves | Layout::Compares => (regs[2], regs[3], 0),
        Layout::Searches => (0, 0, 0),
        Layout::Scans => (0, 0, regs[3]),
        Layout::Translates => (regs[2], regs[5], regs[3]),
    };
    Progress {
        op,
        len1: (regs[0] % 0x1_0000) as u16,
        addr1: regs[1],
        byte: (regs[0] / 0x1_0000 % 0x100) as u8,
        len2: (counts % 0x1_0000) as u16,
        addr2,
        table,
        done: (counts / 0x1_0000) as u16,
        delta: (regs[0] / 0x100_0000) as u8,
    }
}
