// The page: a text that grows behind the bytes that are held already.
ghost use Rattle.std.specs.Prelude.{◌++◌, ◌+◌, ◌^◌, ◌≤◌, ◌<◌, length};
ghost use Rattle.pages.specs.Text.{numeral, decimal, hexadecimal};
ghost use Rattle.pages.specs.Page.{Grew, room};

use crate::numeral::{DIGITS, spell};

// Lent bytes, the first `held` of which are a text.
#[derive(Drop)]
pub struct Page<'a> {
    pub bytes: &'a mut [u8],
    pub held: usize,
}

impl<'a> Page<'a> {
    // Bytes as they are.
    pub fn put(&mut self, bytes: &[u8])
        requires { self.old.held + length bytes.now ≤ room self.old }
        ensures { Grew self.old bytes.now self.new }
    {
        let end = self.held + bytes.len();
        self.bytes[self.held..end].copy_from_slice(bytes);
        self.held = end;
    }

    // A label, and a number in the digits of a base.
    fn put_number(&mut self, label: &[u8], value: u64, base: u64)
        requires label_in_bounds { self.old.held + length label.now + 20 ≤ room self.old }
        requires lt_base { 1 < base }
        requires base_bound { base ≤ 16 }
        requires value_bound { value < base ^ 20 }
        ensures wrote { Grew self.old (label.now ++ numeral base 20 value) self.new }
        ensures upper_bound { self.new.held ≤ self.old.held + length label.now + 20 }
    {
        self.put(label);
        let mut text = [0u8; DIGITS];
        let first = spell(value, base, &mut text);
        self.put(&text[first..]);
    }

    // A label, and a number in decimal digits.
    pub fn put_decimal(&mut self, label: &[u8], value: u64)
        requires { self.old.held + length label.now + 20 ≤ room self.old }
        ensures wrote { Grew self.old (label.now ++ decimal value) self.new }
        ensures upper_bound { self.new.held ≤ self.old.held + length label.now + 20 }
    {
        self.put_number(label, value, 10);
    }

    // A label, and a number in hexadecimal digits.
    pub fn put_hexadecimal(&mut self, label: &[u8], value: u64)
        requires { self.old.held + length label.now + 20 ≤ room self.old }
        ensures wrote { Grew self.old (label.now ++ hexadecimal value) self.new }
        ensures upper_bound { self.new.held ≤ self.old.held + length label.now + 20 }
    {
        self.put_number(label, value, 16);
    }
}
