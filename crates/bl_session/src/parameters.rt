// Values of parameters.
ghost use Rattle.std.specs.Prelude.{◌≡◌};
ghost use Rattle.std.specs.Option.{option_copied};
ghost use Rattle.bl_session.specs.Parameters.{truth_or, value_of};

use bl_feed::read_truth;
use bl_outside::Text;

/// The first value of this name.
pub fn value_of<'a>(name: &[u8], query: &'a [(Text, Text)]) -> Option<&'a [u8]>
    ensures { option_copied result ≡ value_of name.now query.now }
{
    for (key, value) in query {
        if key.as_slice() == name {
            return Some(value.as_slice());
        }
    }
    None
}

/// The truth value that is given, or the default.
pub fn truth_or(default: bool, text: Option<&[u8]>) -> Option<bool>
    ensures { result ≡ truth_or default (option_copied text.entry) }
{
    match text {
        None => Some(default),
        Some(text) => read_truth(text),
    }
}
