//! The console.
ghost use Rattle.std.specs.Prelude.{◌≡◌, ◌<◌, ◌≤◌, ◌^◌, None, vec_len};

/// The console's state: its input of fewer than 2^32 bytes, how many bytes of it are taken, and the byte that was sent and not yet handed out.
#[derive(Drop)]
pub struct Term {
    pub input: Vec<u8>,
    pub place: u32,
    pub out: Option<u8>,
    pub ghost short: { vec_len input < 2 ^ 32 },
    pub ghost within: { place ≤ vec_len input },
}

impl Term {
    /// A console of which no byte is taken, and to which none was sent.
    pub fn new(input: Vec<u8>) -> Term
        requires { vec_len input < 2 ^ 32 }
        ensures input { result.input ≡ input }
        ensures place { result.place ≡ 0 }
        ensures out { result.out ≡ None }
    {
        Term {
            input,
            place: 0,
            out: None,
        }
    }
}
