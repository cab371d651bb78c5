//! The lines that tell of an index: that of a build, and that of a check.
ghost use Rattle.std.specs.Prelude.{◌≡◌, ◌+◌, ◌≤◌, ◌++◌};
ghost use Rattle.annbuild_lines.specs.Lines.{index_told, built_text, checked_text};
ghost use Rattle.arrayvec.specs.ArrayVec.{array_vec_len};

use crate::Line;
use crate::line::{push_field, push_text};
use ann_defs::Kind;
use arrayvec::ArrayVec;
use command_options::kind_text;

/// What the line of a build tells of its index.
#[derive(Clone, Copy, Debug)]
pub struct BuiltLine {
    pub kind: Kind,
    pub count: u32,
    pub dim: u32,
    pub degree: u32,
    pub start: u32,
    pub layers: u32,
    pub edges: u64,
}

/// Adds `KIND count N dim D degree R start S layers L edges E`.
fn push_index(line: &mut Line, told: BuiltLine)
    requires { array_vec_len line.old ≤ 10 }
    ensures items { line.new.items ≡ line.old.items ++ index_told told }
    ensures len { array_vec_len line.new ≤ 200 }
{
    push_text(line, kind_text(told.kind));
    push_field(line, " count ", u64::from(told.count));
    push_field(line, " dim ", u64::from(told.dim));
    push_field(line, " degree ", u64::from(told.degree));
    push_field(line, " start ", u64::from(told.start));
    push_field(line, " layers ", u64::from(told.layers));
    push_field(line, " edges ", told.edges);
}

/// The line of a build: `built KIND count N dim D degree R start S layers L edges E`.
pub fn built_line(told: BuiltLine) -> Line
    ensures { result.items ≡ built_text told }
{
    let mut line = ArrayVec::new();
    push_text(&mut line, "built ");
    push_index(&mut line, told);
    push_text(&mut line, "\n");
    line
}

/// The line of an index that was checked: `ok KIND count N dim D degree R start S layers L edges E longest X`.
pub fn checked_line(told: BuiltLine, longest: u32) -> Line
    ensures { result.items ≡ checked_text told longest }
{
    let mut line = ArrayVec::new();
    push_text(&mut line, "ok ");
    push_index(&mut line, told);
    push_field(&mut line, " longest ", u64::from(longest));
    push_text(&mut line, "\n");
    line
}
