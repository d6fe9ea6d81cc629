// Numbers, decimal or after 0x.
#![tactic(auto, unfolding(crate::specs::Numbers::digit_of, crate::specs::Numbers::behind, crate::specs::Numbers::grown_of, crate::specs::Numbers::whole_of, crate::specs::Numbers::number_of))]

ghost use Rattle.std.specs.Prelude.{◌≡◌, ◌+◌, ◌*◌, ◌^◌, ◌≤◌, fold};
ghost use Rattle.asking.specs.Numbers.{digit_of, behind, grown_of, more_of, whole_of, number_of};

#[derive(Clone, Copy, Debug, PartialEq, Eq)]
pub enum NumberError {
    NotNumber,
    TooLarge,
}

// A digit's value; decimal ones are the first ten.
fn digit(b: u8) -> Option<u8>
    ensures { result ≡ digit_of b }
{
    match b {
        b'0'..=b'9' => Some(b - b'0'),
        b'A'..=b'F' => Some(b - b'A' + 10),
        b'a'..=b'f' => Some(b - b'a' + 10),
        _ => None,
    }
}

// A number below `most` with the digit d of the base behind it.
fn behind(base: u64, most: u64, v: u64, d: u8) -> Result<u64, NumberError>
    requires { most * base + base ≤ 2 ^ 64 }
    ensures { result ≡ behind base most v d }
{
    if base <= u64::from(d) {
        Err(NumberError::NotNumber)
    } else if v < most {
        Ok(v * base + u64::from(d))
    } else {
        Err(NumberError::TooLarge)
    }
}

fn grown(hex: bool, v: u64, d: u8) -> Result<u64, NumberError>
    ensures { result ≡ grown_of hex v d }
{
    if hex {
        behind(16, 0x100000000000000, v, d)
    } else {
        behind(10, 100000000000000000, v, d)
    }
}

// One byte more; what is no number stays none, and what has become too large stays so while digits follow.
fn more(hex: bool, n: Result<u64, NumberError>, b: u8) -> Result<u64, NumberError>
    ensures { result ≡ more_of hex n b }
{
    match (n, digit(b)) {
        (Ok(v), Some(d)) => grown(hex, v, d),
        (Err(NumberError::TooLarge), Some(_)) => Err(NumberError::TooLarge),
        _ => Err(NumberError::NotNumber),
    }
}

fn whole(hex: bool, s: &[u8]) -> Result<u64, NumberError>
    ensures { result ≡ whole_of hex s.now }
{
    if s.is_empty() {
        return Err(NumberError::NotNumber);
    }
    s.iter().fold(Ok(0), |n, b| more(hex, n, *b))
}

pub fn number_in(s: &[u8]) -> Result<u64, NumberError>
    ensures { result ≡ number_of s.now }
{
    match s {
        [b'0', b'x' | b'X', rest @ ..] => whole(true, rest),
        _ => whole(false, s),
    }
}
