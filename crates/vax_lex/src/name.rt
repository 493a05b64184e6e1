// Names as they are kept.

ghost use Rattle.std.specs.Prelude.{◌≡◌, ◌≤◌, length, take, map};
ghost use Rattle.std.specs.Char.{to_ascii_uppercase};
ghost use Rattle.std.specs.List.{prefix_len};
ghost use Rattle.vax_lex.specs.Characters.{canonical_name, is_zero};

/// A name as it is kept: in capitals, and a local label without zeros before its number.
#[derive(Drop)]
pub struct CanonicalName {
    bytes: [u8; 31],
    length: usize,
    ghost in_range: { length ≤ 31 },
}

/// How many zeros stand before.
#[tactic(auto, using(crate::proofs::Runs::runs))]
fn zeros_before(text: &[u8]) -> usize
    ensures value { result ≡ prefix_len is_zero text.now }
    ensures bound { result ≤ length text.now }
{
    let mut count = 0;
    while count < text.len() && text[count] == b'0' {
        count += 1;
    }
    count
}

impl CanonicalName {
    ghost use Rattle.vax_lex.specs.KeptNames.{kept_name};

    /// These characters in capitals.
    #[tactic(auto, using(crate::proofs::Canonical::capital_more, crate::proofs::Canonical::capital_all))]
    fn capitals(text: &[u8]) -> CanonicalName
        requires { length text.now ≤ 31 }
        ensures { take result.length result.bytes ≡ map to_ascii_uppercase text.now }
    {
        let mut bytes = [0; 31];
        for i in 0..text.len() {
            bytes[i] = text[i].to_ascii_uppercase();
        }
        CanonicalName {
            bytes,
            length: text.len(),
        }
    }

    /// How the name of this text is kept.
    pub fn of(text: &[u8]) -> CanonicalName
        requires { length (canonical_name text.now) ≤ 31 }
        ensures { kept_name result ≡ canonical_name text.now }
    {
        CanonicalName::capitals(&text[zeros_before(text)..])
    }

    /// Its characters.
    pub fn as_bytes(&self) -> &[u8]
        ensures { result.now ≡ kept_name self.now }
    {
        &self.bytes[..self.length]
    }
}
