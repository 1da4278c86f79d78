//! Attributes of entries as JSON.

ghost use Rattle.std.specs.Prelude.{◌≡◌, ◌<◌, [], IfOk, OnOk, fold, string_bytes};
ghost use Rattle.pt_tables.specs.Fields.{with_fields};
ghost use Rattle.pt_tables.specs.Entries.{attribute_fields, attributes_text, has_bit, named_bits, own_text, text_fields};
ghost use Rattle.pt_tables.specs.Entries.{with_named, with_own, with_own_text, with_word};
ghost use Rattle.pt_tables.specs.inner.Objects.{members_in};

use crate::object::Object;
use std::alloc::{AllocError, Global};

fn is_set(number: u64, bit: u32) -> bool
    requires { bit < 64 }
    ensures { result ≡ has_bit number bit }
{
    (number >> bit) % 2 == 1
}

// Adds a word, and a gap before it where the text isn't empty.
fn add(text: &mut String, gap: &str, word: &str) -> Result<(), AllocError>
    ensures { OnOk result (string_bytes text.new ≡ with_word gap.now (string_bytes text.old) word.now) }
{
    if !text.is_empty() {
        text.push_str(gap)?;
    }
    text.push_str(word)
}

// Adds the name of a bit that is set.
fn add_named(text: &mut String, attributes: u64, bit: u32, name: &str) -> Result<(), AllocError>
    requires { bit < 64 }
    ensures { OnOk result (string_bytes text.new ≡ with_named attributes (string_bytes text.old) (bit, name.now)) }
{
    if is_set(attributes, bit) {
        return add(text, " ", name);
    }
    Ok(())
}

// The words of the bits that have names (UEFI 2.10, 5.3.3), as sfdisk has them.
fn named(alloc: Global, attributes: u64) -> Result<String, AllocError>
    ensures { IfOk result (λ s. string_bytes s ≡ fold (with_named attributes) [] named_bits) }
{
    let mut text = String::new(alloc);
    add_named(&mut text, attributes, 0, "RequiredPartition")?;
    add_named(&mut text, attributes, 1, "NoBlockIOProtocol")?;
    add_named(&mut text, attributes, 2, "LegacyBIOSBootable")?;
    Ok(text)
}

// Adds the number of a bit that is set.
fn add_own(alloc: Global, text: &mut String, attributes: u64, bit: u32) -> Result<(), AllocError>
    requires { bit < 64 }
    ensures { OnOk result (string_bytes text.new ≡ with_own attributes (string_bytes text.old) bit) }
{
    if is_set(attributes, bit) {
        let number = format!(in alloc; "{bit}")?;
        return add(text, ",", number.as_str());
    }
    Ok(())
}

// The numbers of the bits that are the type's own.
fn own(alloc: Global, attributes: u64) -> Result<String, AllocError>
    ensures { IfOk result (λ s. string_bytes s ≡ own_text attributes) }
{
    let mut text = String::new(alloc);
    for bit in 48..64u32 {
        add_own(alloc, &mut text, attributes, bit)?;
    }
    Ok(text)
}

/// The attributes in the words of UEFI's three bits and of the type's own, as sfdisk has them. Bits 3 to 47 have no words.
pub fn attribute_words(alloc: Global, attributes: u64) -> Result<String, AllocError>
    ensures { IfOk result (λ s. string_bytes s ≡ attributes_text attributes) }
{
    let mut text = named(alloc, attributes)?;
    let own = own(alloc, attributes)?;
    if !own.is_empty() {
        let word = format!(in alloc; "GUID:{own}")?;
        add(&mut text, " ", word.as_str())?;
    }
    Ok(text)
}

/// Puts the attributes of an entry, where there are some.
pub(crate) fn put_attributes(
    alloc: Global,
    object: &mut Object,
    attributes: u64,
) -> Result<(), AllocError>
    ensures { OnOk result (members_in object.new ≡ with_fields (attribute_fields attributes) (members_in object.old)) }
{
    if attributes == 0 {
        return Ok(());
    }
    object.put_number(alloc, "attributes", attributes)?;
    let text = attribute_words(alloc, attributes)?;
    if text.is_empty() {
        return Ok(());
    }
    object.put_text(alloc, "attrs", text.as_str())
}
