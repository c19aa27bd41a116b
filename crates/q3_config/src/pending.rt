//! A big text of which pieces came, and the index that it is for. It takes no memory after `new`.

ghost use Rattle.std.specs.Prelude.{◌≡◌, ◌+◌, ◌≤◌, ◌++◌, length, None, Some, IfOk, IfSome, option_map, vec_capacity};
ghost use Rattle.q3_config.specs.Strings.{longest_string};

use crate::limits::LONGEST_STRING;
use q3_bits::NoMemory;
use std::alloc::Global;
use std::marker::Model;

/// The text that is pending, if one is.
#[derive(Drop)]
pub(crate) struct Pending {
    index: Option<u32>,
    bytes: Vec<u8>,
}

impl Model for Pending {
    ghost use Rattle.std.specs.Prelude.{◌≤◌, Option, option_map, vec_capacity};
    ghost use Rattle.q3_config.specs.Strings as strings_spec;

    ghost Value = { Option strings_spec.Pending };

    ghost view = { λ p. option_map (λ index. record { index = index; text = p.bytes.items }) p.index };

    ghost invariant = { λ p. strings_spec.longest_string ≤ vec_capacity p.bytes };
}

impl Pending {
    /// Nothing is pending. `Err` is want of memory.
    pub fn new(alloc: Global) -> Result<Pending, NoMemory>
        ensures { IfOk result (λ made. made ≡ None) }
    {
        Ok(Pending {
            index: None,
            bytes: Vec::with_capacity(alloc, LONGEST_STRING)?,
        })
    }

    /// The index and the text.
    pub fn get(&self) -> Option<(u32, &[u8])>
        ensures { option_map (λ pending. record { index = pending.0; text = pending.1.now }) result ≡ self.now }
    {
        Some((self.index?, &self.bytes))
    }

    /// This text is pending, and no other.
    pub fn begin(&mut self, index: u32, text: &[u8])
        requires { length text.now ≤ longest_string }
        ensures { self.new ≡ Some (record { index = index; text = text.now }) }
    {
        self.index = Some(index);
        self.bytes.clear();
        extend(&mut self.bytes, text);
    }

    /// Puts a piece after the text that is pending.
    pub fn push(&mut self, text: &[u8])
        requires { IfSome self.old (λ pending. length pending.text + length text.now ≤ longest_string) }
        ensures { self.new ≡ option_map (λ pending. record { index = pending.index; text = pending.text ++ text.now })
            self.old }
    {
        if self.index.is_some() {
            extend(&mut self.bytes, text);
        }
    }

    /// Nothing is pending.
    pub fn end(&mut self)
        ensures { self.new ≡ None }
    {
        self.index = None;
    }
}

/// Puts a text after bytes.
fn extend(bytes: &mut Vec<u8>, text: &[u8])
    requires { length bytes.old.items + length text.now ≤ vec_capacity bytes.old }
    ensures items { bytes.new.items ≡ bytes.old.items ++ text.now }
    ensures room { vec_capacity bytes.old ≤ vec_capacity bytes.new }
{
    let _ = bytes.extend_from_slice(text);
}
