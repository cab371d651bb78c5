//! The lines that tell of an index.
ghost use Rattle.std.specs.Prelude.{◌≡◌};
ghost use Rattle.graph_rows.specs.View.{contents};
ghost use Rattle.graph_rows.specs.WellFormed.{IsWellFormed};
ghost use Rattle.annbuild_commands.specs.IndexTexts.{told_of, line_of};
ghost use Rattle.annbuild_commands.specs.Checking.{checked_of};

use annbuild_lines::{BuiltLine, Line, built_line, checked_line};
use graph_rows::Index;

/// What a line tells of an index.
fn told_by(index: &Index) -> BuiltLine
    requires { IsWellFormed (contents index.now) }
    ensures { result ≡ told_of (contents index.now) }
{
    BuiltLine {
        kind: index.kind,
        count: index.count,
        dim: index.dim,
        degree: index.degree,
        start: index.start,
        layers: 1 + index.upper.len() as u32,
        edges: index.edges(),
    }
}

/// The line of an index that was built.
pub(crate) fn line_of_built(index: &Index) -> Line
    requires { IsWellFormed (contents index.now) }
    ensures { result.items ≡ line_of (contents index.now) }
{
    built_line(told_by(index))
}

/// The line of an index that was checked.
pub(crate) fn line_of_checked(index: &Index) -> Line
    requires { IsWellFormed (contents index.now) }
    ensures { result.items ≡ checked_of (contents index.now) }
{
    checked_line(told_by(index), index.longest())
}
