// Numbers in decimal digits.
ghost use Rattle.std.specs.Prelude.{◌≡◌, ◌<◌, ◌≤◌, ◌^◌, IfSome, IsTrue};
ghost use Rattle.std.specs.Char.{is_ascii_digit};
ghost use Rattle.std.specs.List.{list_all};
ghost use Rattle.std.specs.Option.{SomeIff, option_copied};
ghost use Rattle.std.specs.Str.Parse.{digits_value};
ghost use Rattle.bl_feed.specs.Parameters.{is_number, number_in, number_or};

/// The most digits of a number.
const MOST_DIGITS: usize = 20;

fn are_digits(text: &[u8]) -> bool
    ensures { result ≡ list_all is_ascii_digit text.now }
{
    text.iter().all(|byte| byte.is_ascii_digit())
}

fn is_number(text: &[u8]) -> bool
    ensures { result ≡ is_number text.now }
{
    !text.is_empty() && text.len() <= MOST_DIGITS && are_digits(text)
}

// The number that digits write, where it has no more than 64 bits.
fn number_of(digits: &[u8]) -> Option<u64>
    ensures { IsTrue (is_number digits.now)
        → SomeIff result (digits_value 10 digits.now < 2 ^ 64) (digits_value 10 digits.now) }
{
    let Ok(text) = str::from_utf8(digits) else {
        return None;
    };
    match text.parse() {
        Ok(number) => Some(number),
        Err(_) => None,
    }
}

/// The number in this range that a text of 1 to 20 digits writes.
pub fn read_number(text: &[u8], least: u64, most: u64) -> Option<u64>
    ensures value { result ≡ number_in least most text.now }
    ensures range { IfSome result (λ number. (least ≤ number) × (number ≤ most)) }
{
    if !is_number(text) {
        return None;
    }
    let number = number_of(text)?;
    if least <= number && number <= most {
        Some(number)
    } else {
        None
    }
}

/// The same of a parameter, or the default where it isn't given.
pub fn read_number_or(default: u64, least: u64, most: u64, text: Option<&[u8]>) -> Option<u64>
    requires { (least ≤ default) × (default ≤ most) }
    ensures value { result ≡ number_or default least most (option_copied text.entry) }
    ensures range { IfSome result (λ number. (least ≤ number) × (number ≤ most)) }
{
    match text {
        None => Some(default),
        Some(text) => read_number(text, least, most),
    }
}
