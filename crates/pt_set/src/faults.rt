//! What is at fault in a text.

ghost use Rattle.std.specs.Prelude.{◌≡◌, ◌<◌, ◌^◌};
ghost use Rattle.pt_set.specs.Faults.{at as at_spec, of as of_spec};

use pt_drafts::{Key, TextFault};

/// What the table itself says.
pub(crate) fn of(key: Key) -> TextFault
    ensures { result ≡ of_spec key }
{
    TextFault { key, part: None }
}

/// What a partition says, which has this place in the list, from 0 on.
pub(crate) fn at(place: usize, key: Key) -> TextFault
    requires { place < 2 ^ 63 }
    ensures { result ≡ at_spec place key }
{
    TextFault {
        key,
        part: Some(place as u64 + 1),
    }
}
