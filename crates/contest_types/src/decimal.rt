//! Plain numbers: decimal digits and nothing else.
ghost use Rattle.std.specs.Prelude.{◌<◌, ◌≤◌, SomeIff};
ghost use Rattle.std.specs.Str.Parse.{IsNumeral, digits_value};

/// The number that one or more decimal digits write, up to `most`. Leading zeros are taken, a sign
/// isn't. It takes no memory.
pub fn decimal_number(text: &[u8], most: u64) -> Option<u64>
    requires { most < 1_000_000_000_000 }
    ensures { SomeIff result (IsNumeral 10 text.now × (digits_value 10 text.now ≤ most)) (digits_value 10 text.now) }
{
    if text.is_empty() {
        return None;
    }
    let mut value: u64 = 0;
    for byte in text {
        if !byte.is_ascii_digit() {
            return None;
        }
        value = value * 10 + (*byte - b'0') as u64;
        if value > most {
            return None;
        }
    }
    Some(value)
}
