// Reads the number that a field writes.
ghost use Rattle.std.specs.Prelude.{◌≡◌, ◌≤◌, length, ℤ, Some, MatchOption};
ghost use Rattle.std.specs.Str.Parse.{digits_value, AllDigits};
ghost use Rattle.cards.specs.Numbers.{IsText, number_in};
ghost use Rattle.cards.specs.Texts.{ReadsPlain, ReadsSigned};

const MOST_DIGITS: usize = 10;

// The value of at most ten digits; None where a byte is no digit, or there are more than ten.
// By hand and not by `str::parse`, which takes a plus sign and any number of digits, and wants text.
fn digits(field: &[u8]) -> Option<u64>
    ensures { MatchOption result (AllDigits 10 field.now → length field.now ≤ 10 → ⊥) (λ v. (length field.now ≤ 10) × AllDigits 10 field.now × (v ≡ digits_value 10 field.now)) }
{
    if field.len() > MOST_DIGITS {
        return None;
    }
    let mut n = 0u64;
    for b in field {
        match *b {
            b'0'..=b'9' => n = n * 10 + u64::from(*b - b'0'),
            _ => return None,
        }
    }
    Some(n)
}

// A number without a sign. Its shapes, and below those with a sign, are told by slice patterns, by a rule of the project.
fn plain_number(field: &[u8]) -> Option<u64>
    ensures { ReadsPlain field.now result }
{
    match field {
        [] => None,
        [b'0'] => Some(0),
        [b'0', ..] => None,
        _ => digits(field),
    }
}

fn signed_number(field: &[u8]) -> Option<i64>
    ensures { ReadsSigned field.now result }
{
    match field {
        [b'-', b'0', ..] => None,
        [b'-', rest @ ..] => Some(-(plain_number(rest)? as i64)),
        _ => Some(plain_number(field)? as i64),
    }
}

// The number of a field, exactly where the field is its decimal text and has at most ten digits.
// It only hands on: `signed_number` makes one promise, and these three are drawn from it here.
pub fn number(field: &[u8]) -> Option<i64>
    ensures is { result ≡ number_in field.now }
    ensures written { (z : ℤ) → result ≡ Some z → IsText z field.now }
    ensures read { (z : ℤ) → IsText z field.now → result ≡ Some z }
{
    signed_number(field)
}
