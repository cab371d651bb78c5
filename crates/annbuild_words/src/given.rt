//! What parts give: the values of options, and file names.
ghost use Rattle.std.specs.Prelude.{◌≡◌, ◌&&◌, slice_get, length};
ghost use Rattle.std.specs.List.{list_all, list_any};
ghost use Rattle.std.specs.Option.{option_copied};
ghost use Rattle.std.specs.Str.{bytes_eq};
ghost use Rattle.annbuild_words.specs.Words.{value_for, file_of, values_for, files_of};
ghost use Rattle.command_options.specs.Options.{option_name, is_named, every_option};
ghost use Rattle.annbuild_words.specs.Rules.{is_known};
ghost use Rattle.annbuild_words.specs.Parts.{item_of, items_of};

use crate::item::Part;
use ann_defs::Kind;
use command_options::{OPTIONS, OptionName, name_of};

/// The value that a part sets for an option.
fn value_set<'w>(part: Part<'w>, name: &str) -> Option<&'w str>
    ensures { option_copied result ≡ value_for name.now (item_of part.entry) }
{
    match part {
        Part::Sets {
            name: option,
            value,
        } => { if option == name { Some(value) } else { None } }
        _ => None,
    }
}

/// The file name that a part is.
fn file_named(part: Part<'_>) -> Option<&str>
    ensures { option_copied result ≡ file_of (item_of part.entry) }
{
    match part {
        Part::Names(file) => Some(file),
        _ => None,
    }
}

/// The value of a number, counted from 0, that parts set for an option.
pub fn given_at<'w>(parts: &[Part<'w>], name: &str, number: usize) -> Option<&'w str>
    ensures { option_copied result ≡ slice_get (values_for name.now (items_of parts.entry.now)) number }
{
    let mut left = number;
    for part in parts {
        let Some(value) = value_set(*part, name) else {
            continue;
        };
        if left == 0 {
            return Some(value);
        }
        left -= 1;
    }
    None
}

/// The file name of a number, counted from 0.
pub fn file_at<'w>(parts: &[Part<'w>], number: usize) -> Option<&'w str>
    ensures { option_copied result ≡ slice_get (files_of (items_of parts.entry.now)) number }
{
    let mut left = number;
    for part in parts {
        let Some(file) = file_named(*part) else {
            continue;
        };
        if left == 0 {
            return Some(file);
        }
        left -= 1;
    }
    None
}

/// How many file names there are.
pub fn count_files(parts: &[Part<'_>]) -> usize
    ensures { result ≡ length (files_of (items_of parts.now)) }
{
    let mut count = 0;
    for part in parts {
        if file_named(*part).is_some() {
            count += 1;
        }
    }
    count
}

/// Whether an option of the table has this name.
fn is_of_table(name: &str) -> bool
    ensures { result ≡ is_named name.now every_option }
{
    OPTIONS.iter().any(|option| name == name_of(*option))
}

/// Whether words may have a part: an option of the table with its value, or a file name that isn't empty.
fn is_part_known(part: Part<'_>) -> bool
    ensures { result ≡ is_known (item_of part.entry) }
{
    match part {
        Part::Sets { name, .. } => is_of_table(name),
        Part::IsValue => true,
        Part::Names(file) => !file.is_empty(),
        Part::Wrong => false,
    }
}

/// Whether words may have each part.
pub fn are_known(parts: &[Part<'_>]) -> bool
    ensures { result ≡ list_all is_known (items_of parts.now) }
{
    for part in parts {
        if !is_part_known(*part) {
            return false;
        }
    }
    true
}
