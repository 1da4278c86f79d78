//! The names of entries, as they are printed.

ghost use Rattle.std.specs.Prelude.{◌≡◌, ◌<◌, ◌∷◌, ◌↔◌, length, IfSome, IsTrue, OnOk};
ghost use Rattle.std.specs.Char.Utf16.{utf16_chars};
ghost use Rattle.std.specs.Io.KnownBytes.{Appends};
ghost use Rattle.pt_report.specs.Shown.{rest_of, char_bytes, name_fields, name_text, units_of};
ghost use Rattle.pt_report.specs.inner.Shown.{IsPair};

use arrayvec::ArrayVec;
use std::io;
use std::io::Write;

/// Prints a name behind a space where it isn't empty, and the line's end.
pub fn print_name<O: Write>(out: &mut O, name: &[u16; 36]) -> io::Result<()>
    ensures { OnOk result (Appends (O.contents out.old) (O.contents out.new) (rest_of (name_fields (units_of name.now)))) }
{
    print_end(out, units(name))
}

/// The units of a name up to its first zero.
pub fn units(name: &[u16; 36]) -> &[u16]
    ensures { result.now ≡ units_of name.now }
{
    for k in 0..36 {
        if name[k] == 0 {
            return &name[..k];
        }
    }
    name.as_slice()
}

// Prints these units behind a space where there are any, and the line's end.
fn print_end<O: Write>(out: &mut O, units: &[u16]) -> io::Result<()>
    ensures { OnOk result (Appends (O.contents out.old) (O.contents out.new) (rest_of (name_fields units.now))) }
{
    if !units.is_empty() {
        out.write_all(b" ")?;
        print_units(out, units)?;
    }
    out.write_all(b"\n")
}

fn print_units<O: Write>(out: &mut O, units: &[u16]) -> io::Result<()>
    ensures { OnOk result (Appends (O.contents out.old) (O.contents out.new) (name_text units.now)) }
{
    match plain_text(units) {
        Some(text) => out.write_all(text.as_slice()),
        None => print_decoded(out, units),
    }
}

// A name of 36 units at most, where each is a printed character of ASCII. Most names are, and decoding UTF-16 takes far longer.
fn plain_text(units: &[u16]) -> Option<ArrayVec<u8, 36>>
    ensures { IfSome result (λ text. text.items ≡ name_text units.now) }
{
    let mut text = ArrayVec::new();
    for unit in units {
        match u8::try_from(*unit) {
            Ok(byte @ b' '..=b'~') if text.try_push(byte).is_ok() => {}
            _ => return None,
        }
    }
    Some(text)
}

// Prints a name, with `?` for what has no printed form.
fn print_decoded<O: Write>(out: &mut O, units: &[u16]) -> io::Result<()>
    ensures { OnOk result (Appends (O.contents out.old) (O.contents out.new) (name_text units.now)) }
{
    let mut left = units;
    while !left.is_empty() {
        let (found, behind) = first_char(left);
        print_char(out, found)?;
        left = behind;
    }
    Ok(())
}

/// The first character of some units, none for a surrogate without a partner, and the units behind it.
pub fn first_char(units: &[u16]) -> (Option<char>, &[u16])
    requires { 0 < length units.now }
    ensures first { utf16_chars units.now ≡ result.0 ∷ utf16_chars result.1.now }
    ensures fewer { length result.1.now < length units.now }
{
    let unit = units[0];
    if units.len() > 1 && is_pair(unit, units[1]) {
        let code = (u32::from(unit) - 0xD800) * 0x400 + (u32::from(units[1]) - 0xDC00);
        return (char::from_u32(0x1_0000 + code), &units[2..]);
    }
    (char::from_u32(u32::from(unit)), &units[1..])
}

// Whether both are the halves of a surrogate pair.
fn is_pair(high: u16, low: u16) -> bool
    ensures { IsTrue result ↔ IsPair high low }
{
    (0xD800..=0xDBFF).contains(&high) && (0xDC00..=0xDFFF).contains(&low)
}

fn print_char<O: Write>(out: &mut O, found: Option<char>) -> io::Result<()>
    ensures { OnOk result (Appends (O.contents out.old) (O.contents out.new) (char_bytes found)) }
{
    let shown = match found {
        Some(c) if c >= ' ' && c != '\u{7F}' => c,
        _ => '?',
    };
    out.write_all(shown.encode_utf8(&mut [0; 4]).as_bytes())
}
