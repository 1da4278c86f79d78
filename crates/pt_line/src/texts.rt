//! Many texts in little memory.

ghost use Rattle.std.specs.Prelude.{◌≡◌, ◌<◌, ◌≤◌, ◌++◌, ◌∷◌, [], ℕ, List, IsUtf8, OnOk, length, slice_index, slice_index_or};
ghost use Rattle.std.specs.List.{slice_range};
ghost use Rattle.pt_line.specs.inner.Texts.{HasTexts, pieces};

use std::alloc::{AllocError, Global};
use std::marker::Model;
use std::str;

// Where the text in this place begins: where the one before it ends.
fn start_of(ends: &[usize], index: usize) -> usize
    requires { index < length ends.now }
    ensures { result ≡ slice_index (0 ∷ ends.now) index }
{
    if index == 0 { 0 } else { ends[index - 1] }
}

// The text that these bytes are.
fn text_in(bytes: &[u8], start: usize, end: usize) -> &str
    requires order { start ≤ end }
    requires within { end ≤ length bytes.now }
    requires text { IsUtf8 (slice_range bytes.now start end) }
    ensures { result.now ≡ slice_range bytes.now start end }
{
    str::from_utf8(&bytes[start..end]).unwrap()
}

/// Texts in order. A clause sees them as a list.
#[derive(Drop)]
pub struct Texts {
    // All of them, one behind the other.
    bytes: Vec<u8>,
    // Where each ends in these.
    ends: Vec<usize>,
}

impl Model for Texts {
    ghost Value = { List (List ℕ) };

    ghost view = { λ t. pieces 0 t.ends.items t.bytes.items };

    ghost invariant = { λ t. HasTexts 0 t.ends.items t.bytes.items };
}

impl Texts {
    /// No texts.
    pub fn new(alloc: Global) -> Texts
        ensures { result ≡ [] }
    {
        Texts {
            bytes: Vec::new(alloc),
            ends: Vec::new(alloc),
        }
    }

    /// How many there are.
    pub fn len(&self) -> usize
        ensures { result ≡ length self.now }
    {
        self.ends.len()
    }

    /// The text in a place, counted from 0.
    pub fn get(&self, index: usize) -> &str
        requires { index < length self.now }
        ensures { result.now ≡ slice_index_or self.now index [] }
    {
        text_in(&self.bytes, start_of(&self.ends, index), self.ends[index])
    }

    /// Adds a text behind them.
    pub fn push(&mut self, text: &str) -> Result<(), AllocError>
        ensures ok { OnOk result (self.new ≡ self.old ++ text.now ∷ []) }
    {
        self.ends.reserve(1)?;
        self.bytes.extend_from_slice(text.as_bytes())?;
        self.ends.push(self.bytes.len())?;
        Ok(())
    }
}
