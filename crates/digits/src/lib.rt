// The number that a word says, as its digits say it, and whether anything but digits stands in it.
#![tactic(auto)]

ghost use Rattle.std.specs.Prelude.{◌≡◌, ◌+◌, ◌-◌, ◌*◌};
ghost use Rattle.digits.specs.Digits.{others_stand, up_to65535, number_said};

// Whether any byte of a word is no digit.
pub fn others_stand(word: &[u8]) -> bool
    ensures { result ≡ others_stand word.now }
{
    word.iter().any(|byte| !byte.is_ascii_digit())
}

// The number that a byte makes behind the number before it, and 65,535 for all above; a byte below the digits counts 0.
fn with_digit(before: u16, byte: u8) -> u16
    ensures { result ≡ up_to65535 (10 * before + (byte - 48)) }
{
    before
        .saturating_mul(10)
        .saturating_add(u16::from(byte.saturating_sub(b'0')))
}

// The number that a word says, and 65,535 for all above.
pub fn number_said(word: &[u8]) -> u16
    ensures { result ≡ number_said word.now }
{
    word.iter()
        .fold(0, |before, byte| with_digit(before, *byte))
}
