//! The files of requests.
ghost use Rattle.std.specs.Prelude.{◌≡◌, ◌≤◌, length};
ghost use Rattle.command_options.specs.Names.{role_name};

/// A file of a request, or the output.
#[derive(Clone, Copy, Debug, PartialEq, Eq)]
pub enum Role {
    /// The file of points that an index is of.
    Base,
    Index,
    Queries,
    /// The output.
    Output,
    /// The file of ids that are to be taken out of an index.
    Gone,
    /// The index file that is written without them.
    Fresh,
    /// The file of the points' labels.
    Labels,
}

/// What lines call a file.
pub fn role_text(file: Role) -> &'static str
    ensures name { result.now ≡ role_name file }
    ensures short { length result.now ≤ 11 }
{
    match file {
        Role::Base => "data",
        Role::Index => "index",
        Role::Queries => "queries",
        Role::Output => "output",
        Role::Gone => "gone",
        Role::Fresh => "fresh index",
        Role::Labels => "labels",
    }
}
