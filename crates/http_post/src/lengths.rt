//! Lengths in decimal, of any number of digits (RFC 9110, section 8.6).

ghost use Rattle.std.specs.Prelude.{◌≡◌, ◌≤◌, min, nat_eq, true, length};
ghost use Rattle.std.specs.List.{list_all};
ghost use Rattle.std.specs.Char.{is_ascii_digit};
ghost use Rattle.std.specs.Str.Parse.{digits_value};
ghost use Rattle.http_post.specs.Heads.{agrees, is_decimal};

/// One more than the most bytes of content: greater numbers count as this one.
const TOO_MUCH: usize = 65537;

/// Whether the value is a number: one digit or more.
pub fn is_decimal(value: &[u8]) -> bool
    ensures { result ≡ is_decimal value.now }
{
    !value.is_empty() && all_digits(value)
}

/// Whether a value is a number, and that of the first.
pub fn agrees(first: &[u8], value: &[u8]) -> bool
    requires { is_decimal first.now ≡ true }
    ensures { result ≡ agrees first.now value.now }
{
    is_decimal(value) && is_same_number(first, value)
}

/// The number that the digits write, or 65,537 where it is greater.
pub fn number(digits: &[u8]) -> usize
    requires { is_decimal digits.now ≡ true }
    ensures { result ≡ min (digits_value 10 digits.now) 65537 }
{
    let mut value = 0;
    for digit in digits {
        value = (10 * value + (*digit - b'0') as usize).min(TOO_MUCH);
    }
    value
}

fn all_digits(value: &[u8]) -> bool
    ensures { result ≡ list_all is_ascii_digit value.now }
{
    for digit in value {
        if !digit.is_ascii_digit() {
            return false;
        }
    }
    true
}

fn is_same_number(a: &[u8], b: &[u8]) -> bool
    requires a { is_decimal a.now ≡ true }
    requires b { is_decimal b.now ≡ true }
    ensures { result ≡ nat_eq (digits_value 10 a.now) (digits_value 10 b.now) }
{
    if a.len() >= b.len() {
        return is_longer_same(a, b);
    }
    is_longer_same(b, a)
}

/// Of the longer one all that stands before as many digits as the other has are zeros, and these digits are the other.
fn is_longer_same(long: &[u8], short: &[u8]) -> bool
    requires long { is_decimal long.now ≡ true }
    requires short { is_decimal short.now ≡ true }
    requires order { length short.now ≤ length long.now }
    ensures { result ≡ nat_eq (digits_value 10 long.now) (digits_value 10 short.now) }
{
    let (leading, rest) = long.split_at(long.len() - short.len());
    rest == short && all_zeros(leading)
}

fn all_zeros(digits: &[u8]) -> bool
    ensures { result ≡ list_all (nat_eq 48) digits.now }
{
    for digit in digits {
        if *digit != b'0' {
            return false;
        }
    }
    true
}
