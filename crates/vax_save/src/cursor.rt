//! Where the reading of a saved state is.
ghost use Rattle.std.specs.Prelude.{◌+◌, ◌≤◌, length};

/// What is left of a file, and the offset at which that begins. The file has at most 67,108,864 bytes.
#[derive(Clone, Copy)]
pub(crate) struct Cursor<'a> {
    pub(crate) rest: &'a [u8],
    pub(crate) place: u32,
    pub(crate) ghost within: { place + length rest.now ≤ 67108864 },
}

/// Which registers stand in a file: those that the processor has, or those at the start of the string instruction that is open.
#[derive(Clone, Copy, PartialEq, Eq)]
pub(crate) enum Role {
    Now,
    Start,
}
