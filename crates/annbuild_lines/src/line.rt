//! Printed lines, made without memory: texts and numbers are added to them.
ghost use Rattle.std.specs.Prelude.{◌≡◌, ◌+◌, ◌<◌, ◌≤◌, ◌++◌, length, codes, decimal};
ghost use Rattle.arrayvec.specs.ArrayVec.{array_vec_len};

use arrayvec::ArrayVec;

/// One printed line, in at most 256 bytes.
pub type Line = ArrayVec<u8, 256>;

/// Adds a text.
pub fn push_text(line: &mut Line, text: &str)
    requires { array_vec_len line.old + length text.now ≤ 256 }
    ensures items { line.new.items ≡ line.old.items ++ text.now }
    ensures len { array_vec_len line.new ≡ array_vec_len line.old + length text.now }
{
    for byte in text.as_bytes() {
        line.push(*byte);
    }
}

/// Adds the digits of a number, the greatest first.
pub fn push_digits(line: &mut Line, n: u64)
    requires { array_vec_len line.old + length (decimal n) ≤ 256 }
    ensures items { line.new.items ≡ line.old.items ++ decimal n }
    ensures len { array_vec_len line.new ≡ array_vec_len line.old + length (decimal n) }
{
    if n < 10 {
        line.push(b'0' + n as u8);
        return;
    }
    push_digits(line, n / 10);
    line.push(b'0' + (n % 10) as u8);
}

/// Adds a number in decimal.
pub fn push_number(line: &mut Line, n: u64)
    requires { array_vec_len line.old + 20 ≤ 256 }
    ensures items { line.new.items ≡ line.old.items ++ decimal n }
    ensures len { array_vec_len line.new ≤ array_vec_len line.old + 20 }
{
    push_digits(line, n);
}

/// Adds a number of 32 bits in decimal.
pub fn push_small(line: &mut Line, n: u32)
    requires { array_vec_len line.old + 10 ≤ 256 }
    ensures items { line.new.items ≡ line.old.items ++ decimal n }
    ensures len { array_vec_len line.new ≤ array_vec_len line.old + 10 }
{
    push_digits(line, u64::from(n));
}

/// Adds a name and a number.
pub fn push_field(line: &mut Line, name: &str, n: u64)
    requires room { array_vec_len line.old + 29 ≤ 256 }
    requires name { length name.now ≤ 9 }
    ensures items { line.new.items ≡ line.old.items ++ (name.now ++ decimal n) }
    ensures len { array_vec_len line.new ≤ array_vec_len line.old + 29 }
{
    push_text(line, name);
    push_number(line, n);
}
