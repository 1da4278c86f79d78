//! What holds of the table, and of all texts and types.

ghost use Rattle.std.specs.Prelude.{◌≡◌, ◌≢◌, ◌<◌, ℕ, List, All, Some, None, map, length, replicate, bytes_eq};
ghost use Rattle.std.specs.List.{IsDistinct};
ghost use Rattle.std.specs.Option.{option_map};
ghost use Rattle.pt_guid.specs.Codes.{type_of};
ghost use Rattle.pt_guid.specs.Guids.{stored_of, text_of};
ghost use Rattle.pt_types.specs.Tables.{entry_table, record_table};
ghost use Rattle.pt_types.specs.Types.{code_of, number_of, entry_type_of, entry_name_of, record_type_of, record_name_of};

/// The name that is printed for a type of a GPT names it.
pub fn entry_names_read_back()
    ensures { (stored name : List ℕ) → length stored ≡ 16 → All (λ byte. byte < 256) stored → entry_name_of stored ≡ Some name
        → entry_type_of name ≡ Some stored }
{}

/// The name that is printed for a type of an MBR names it.
pub fn record_names_read_back()
    ensures { (kind : ℕ) (name : List ℕ) → record_name_of kind ≡ Some name → record_type_of name ≡ Some kind }
{}

/// No two types of a GPT have one name.
pub fn entry_names_differ()
    ensures { IsDistinct bytes_eq (map (λ r. r.name) entry_table) }
{}

/// No two types of an MBR have one name.
pub fn record_names_differ()
    ensures { IsDistinct bytes_eq (map (λ r. r.name) record_table) }
{}

/// No name is a GUID's text, four hexadecimal digits, or one or two.
pub fn names_are_names()
    ensures entries { All (λ r. stored_of r.name ≡ None) entry_table }
    ensures codes { All (λ r. code_of r.name ≡ None) entry_table }
    ensures numbers { All (λ r. number_of r.name ≡ None) record_table }
{}

/// The GUID of each row is a GUID's text, as it is printed.
pub fn guids_are_guids()
    ensures { All (λ r. option_map text_of (stored_of r.guid) ≡ Some r.guid) entry_table }
{}

/// Each code of `pt_guid::type_of_code` names that type.
pub fn codes_agree()
    ensures { (text : List ℕ) (code : ℕ) (stored : List ℕ) → code_of text ≡ Some code → type_of code ≡ Some stored
        → entry_type_of text ≡ Some stored }
{}

/// A name or a code never stands for the type of an unused entry, which is zero: only its GUID's text does.
pub fn entry_types_are_used()
    ensures { (text : List ℕ) → stored_of text ≡ None → entry_type_of text ≢ Some (replicate 16 0) }
{}

/// No text stands for the type of an unused record, or for that of a protective one.
pub fn record_types_are_used()
    ensures unused { (text : List ℕ) → record_type_of text ≢ Some 0 }
    ensures protective { (text : List ℕ) → record_type_of text ≢ Some 0xEE }
{}
