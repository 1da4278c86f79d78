//! Values of JSON by what they stand for.

ghost use Rattle.std.specs.Prelude.{◌≡◌, ◌^◌, Option};
ghost use Rattle.serde_json.specs.Data.{Data};
ghost use Rattle.serde_json.specs.Find.{as_bool};
ghost use Rattle.serde_json.specs.View.{view};
ghost use Rattle.pt_drafts.specs.Values.{hex_bytes, if_not_null, whole, whole_below};

use hex::FromHex;
use serde_json::Value;

/// A kind of value that a member may have.
pub(crate) trait Stands {
    type Out;

    // What a value stands for, where it is one of this kind.
    ghost stands_for: { Data → Option Self.Out };

    fn read(value: &Value) -> Option<Self::Out>
        ensures { result ≡ stands_for (view value.now) };
}

impl Stands for u64 {
    type Out = u64;

    ghost stands_for = { whole };

    fn read(value: &Value) -> Option<u64> {
        value.as_u64()
    }
}

impl Stands for u32 {
    type Out = u32;

    ghost stands_for = { whole_below (2 ^ 32) };

    fn read(value: &Value) -> Option<u32> {
        u32::try_from(value.as_u64()?).ok()
    }
}

impl Stands for u16 {
    type Out = u16;

    ghost stands_for = { whole_below (2 ^ 16) };

    fn read(value: &Value) -> Option<u16> {
        u16::try_from(value.as_u64()?).ok()
    }
}

impl Stands for u8 {
    type Out = u8;

    ghost stands_for = { whole_below (2 ^ 8) };

    fn read(value: &Value) -> Option<u8> {
        u8::try_from(value.as_u64()?).ok()
    }
}

impl Stands for bool {
    type Out = bool;

    ghost stands_for = { as_bool };

    fn read(value: &Value) -> Option<bool> {
        value.as_bool()
    }
}

// Bytes in hexadecimal digits.
impl<const N: usize> Stands for [u8; N] {
    type Out = [u8; N];

    ghost stands_for = { hex_bytes N };

    fn read(value: &Value) -> Option<[u8; N]> {
        <[u8; N] as FromHex>::from_hex(value.as_str()?).ok()
    }
}

impl<T: Stands> Stands for Option<T> {
    type Out = Option<T::Out>;

    ghost stands_for = { if_not_null T.stands_for };

    fn read(value: &Value) -> Option<Option<T::Out>> {
        if value.is_null() {
            return Some(None);
        }
        Some(Some(T::read(value)?))
    }
}
