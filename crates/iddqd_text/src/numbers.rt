//! Reads decimal numbers.
ghost use Rattle.std.specs.Prelude.{◌≡◌, ◌==◌, IfSome, drop};
ghost use Rattle.std.specs.List.{before_first, position_or_len};
ghost use Rattle.std.specs.Option.{option_map};
ghost use Rattle.iddqd_text.specs.Numbers.{number_of, pushed};

/// Reads the number that the first field spells, and returns it with the bytes after the field. It returns `None` if
/// the field spells no number of 64 bits.
pub fn first_number(fields: &[u8]) -> Option<(u64, &[u8])>
    ensures number { option_map (λ found. found.0) result ≡ number_of (before_first (λ b. b == 32) fields.now) }
    ensures behind { IfSome result (λ found. found.1.now ≡ drop (position_or_len (λ b. b == 32) fields.now) fields.now) }
{
    let mut value = 0;
    let mut rest = fields;
    while let [b, after @ ..] = rest {
        if *b == b' ' {
            break;
        }
        value = push_digit(value, *b)?;
        rest = after;
    }
    if rest.len() == fields.len() {
        return None;
    }
    Some((value, rest))
}

/// Returns the number with one more digit, or `None` if the byte is no digit or the number gets too large.
fn push_digit(value: u64, b: u8) -> Option<u64>
    ensures { result ≡ pushed value b }
{
    if b < b'0' || b > b'9' {
        return None;
    }
    value.checked_mul(10)?.checked_add(u64::from(b - b'0'))
}
