//! What the words ask for.

use command_options::{SettingName, Settings, Verb};

/// The file names of a command, in the order of the words. One that the command doesn't have is empty.
#[derive(Clone, Copy)]
pub struct Names<'w> {
    pub first: &'w str,
    pub second: &'w str,
    pub third: &'w str,
    pub fourth: &'w str,
}

/// A command with its file names and settings.
#[derive(Clone, Copy)]
pub struct Request<'w> {
    pub verb: Verb,
    pub names: Names<'w>,
    pub settings: Settings,
}

/// What words ask for.
#[derive(Clone, Copy)]
pub enum Asked<'w> {
    /// The words mean no request.
    Nothing,
    /// They mean a request, but this is the first setting that is out of its range.
    Outside {
        name: SettingName,
        value: u64,
        least: u64,
        greatest: u64,
    },
    /// They ask for this.
    For(Request<'w>),
}
