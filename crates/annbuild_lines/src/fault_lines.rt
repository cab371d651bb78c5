//! The line that tells of a fault.
ghost use Rattle.std.specs.Prelude.{◌≡◌, ◌+◌, ◌≤◌, ◌++◌, length, decimal};
ghost use Rattle.annbuild_lines.specs.Lines.{told, fault_text};
ghost use Rattle.command_options.specs.Names.{role_name};
ghost use Rattle.arrayvec.specs.ArrayVec.{array_vec_len};

use crate::line::{push_number, push_text};
use crate::names::{quantity_text, rule_text, setting_text, wanted_text, what_text};
use crate::{Fault, Line, Rule, What};
use ann_shelf::Quantity;
use arrayvec::ArrayVec;
use command_options::{Role, SettingName, role_text};

/// Adds a number between two texts.
fn push_between(line: &mut Line, before: &str, n: u64, after: &str)
    requires room { array_vec_len line.old + 70 ≤ 256 }
    requires before { length before.now ≤ 25 }
    requires after { length after.now ≤ 25 }
    ensures items { line.new.items ≡ line.old.items ++ (before.now ++ decimal n ++ after.now) }
    ensures len { array_vec_len line.new ≤ array_vec_len line.old + length before.now + 20 + length after.now }
{
    push_text(line, before);
    push_number(line, n);
    push_text(line, after);
}

/// Adds what a setting out of its range tells.
fn push_setting(line: &mut Line, name: SettingName, value: u64, least: u64, greatest: u64)
    requires { array_vec_len line.old ≤ 10 }
    ensures items { line.new.items ≡ line.old.items ++ told (Fault.Setting name value least greatest) }
    ensures len { array_vec_len line.new ≤ 200 }
{
    push_text(line, "setting ");
    push_text(line, setting_text(name));
    push_between(line, " is ", value, ", allowed ");
    push_between(line, "", least, " to ");
    push_number(line, greatest);
}

/// Adds what a broken rule of a file tells.
fn push_malformed(line: &mut Line, file: Role, place: u64, rule: Rule)
    requires { array_vec_len line.old ≤ 10 }
    ensures items { line.new.items ≡ line.old.items ++ told (Fault.Malformed file place rule) }
    ensures len { array_vec_len line.new ≤ 200 }
{
    push_text(line, role_text(file));
    push_between(line, " is malformed at byte ", place, ": ");
    push_text(line, rule_text(rule));
}

/// Adds what two files that do not fit together tell.
fn push_unfit(line: &mut Line, file: Role, what: What, found: u64, wanted: u64)
    requires { array_vec_len line.old ≤ 10 }
    ensures items { line.new.items ≡ line.old.items ++ told (Fault.Unfit file what found wanted) }
    ensures len { array_vec_len line.new ≤ 200 }
{
    push_text(line, what_text(what));
    push_between(line, " differs: ", found, " in ");
    push_text(line, role_text(file));
    push_between(line, ", ", wanted, wanted_text(what));
}

/// Adds what a quantity over its limit tells.
fn push_too_large(line: &mut Line, name: Quantity, value: u64, limit: u64)
    requires { array_vec_len line.old ≤ 10 }
    ensures items { line.new.items ≡ line.old.items ++ told (Fault.TooLarge name value limit) }
    ensures len { array_vec_len line.new ≤ 200 }
{
    push_text(line, quantity_text(name));
    push_between(line, " is ", value, ", limit ");
    push_number(line, limit);
}

/// Adds what a file that cannot be read or written tells.
fn push_file(line: &mut Line, before: &str, file: Role)
    requires room { array_vec_len line.old ≤ 10 }
    requires before { length before.now ≤ 20 }
    ensures items { line.new.items ≡ line.old.items ++ (before.now ++ role_name file) }
    ensures len { array_vec_len line.new ≤ 200 }
{
    push_text(line, before);
    push_text(line, role_text(file));
}

/// Adds what a fault tells.
fn push_told(line: &mut Line, fault: Fault)
    requires { array_vec_len line.old ≤ 10 }
    ensures items { line.new.items ≡ line.old.items ++ told fault }
    ensures len { array_vec_len line.new ≤ 200 }
{
    match fault {
        Fault::Usage => push_text(line, "the words name no request"),
        Fault::Setting {
            name,
            value,
            least,
            greatest,
        } => push_setting(line, name, value, least, greatest),
        Fault::Read { file } => push_file(line, "cannot read ", file),
        Fault::Malformed { file, place, rule } => push_malformed(line, file, place, rule),
        Fault::Unfit {
            file,
            what,
            found,
            wanted,
        } => push_unfit(line, file, what, found, wanted),
        Fault::Write { file } => push_file(line, "cannot write ", file),
        Fault::NoMemory => push_text(line, "out of memory"),
        Fault::TooLarge { name, value, limit } => push_too_large(line, name, value, limit),
    }
}

/// The line of a fault: `annbuild: `, and what the fault tells.
pub fn fault_line(fault: Fault) -> Line
    ensures { result.items ≡ fault_text fault }
{
    let mut line = ArrayVec::new();
    push_text(&mut line, "annbuild: ");
    push_told(&mut line, fault);
    push_text(&mut line, "\n");
    line
}
