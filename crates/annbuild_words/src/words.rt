//! Reading the words.
ghost use Rattle.std.specs.Prelude.{◌≡◌, ◌&&◌, map, slice_get, string_bytes};
ghost use Rattle.std.specs.List.{list_all, filter_map};
ghost use Rattle.annbuild_words.specs.Asked.{seen, request_of, file_at, checked, named, meaning_by, meaning_of, kind_said, OnMeaning, IsAllowed};
ghost use Rattle.command_options.specs.Forms.{option_form};
ghost use Rattle.command_options.specs.Options.{option_name, every_option};
ghost use Rattle.annbuild_words.specs.Parts.{items_of, texts};
ghost use Rattle.annbuild_words.specs.Rules.{is_set_well, keeps_rules, outside_option, first_outside};
ghost use Rattle.command_options.specs.Settings.{settings_of};
ghost use Rattle.command_options.specs.Shapes.{has_option};
ghost use Rattle.annbuild_words.specs.Rules as rules;
ghost use Rattle.annbuild_words.specs.Words.{items, values_for, files_of};

use crate::given::{are_known, count_files, file_at, given_at};
use crate::item::{Part, cut};
use crate::range::{OutOfRange, value_outside};
use crate::value::{or_default, read_value};
use crate::{Asked, Names, Request};
use ann_defs::Kind;
use command_options::{
    OPTIONS, OptionName, Value, Values, Verb, form_of, has_option, is_built, kind_in_value,
    name_of, number_of, read_verb, roles_of, settings_of,
};

/// The parts of the words after a command, which has options of a kind.
#[derive(Clone, Copy)]
struct Given<'b, 'w> {
    parts: &'b [Part<'w>],
    verb: Verb,
    kind: Kind,
}

impl<'b, 'w> Values for Given<'b, 'w> {
    ghost values = { λ g. rules.setting g.verb g.kind (items_of g.parts.now) };

    #[tactic(auto, unfolding(crate::specs::Rules::setting))]
    fn value(&self, option: OptionName) -> Value {
        let form = form_of(self.verb, self.kind, option);
        if has_option(self.verb, self.kind, option) {
            return or_default(form, given_at(self.parts, name_of(option), 0));
        }
        or_default(form, None)
    }
}

impl<'b, 'w> Given<'b, 'w> {
    /// Whether an option is set at most once, and then is one that the command has, with a value of its kind.
    fn is_set_well(&self, option: OptionName) -> bool
        ensures { result ≡ is_set_well (has_option self.now.verb self.now.kind option) (option_form self.now.verb self.now.kind option) (values_for (option_name option) (items_of self.now.parts.now)) }
    {
        let name = name_of(option);
        let Some(text) = given_at(self.parts, name, 0) else {
            return true;
        };
        if given_at(self.parts, name, 1).is_some() {
            return false;
        }
        has_option(self.verb, self.kind, option)
            && read_value(form_of(self.verb, self.kind, option), text).is_some()
    }

    /// Whether each of these options is.
    fn are_set_well(&self, options: &[OptionName]) -> bool
        ensures { result ≡ list_all (λ o. is_set_well (has_option self.now.verb self.now.kind o) (option_form self.now.verb self.now.kind o) (values_for (option_name o) (items_of self.now.parts.now))) options.now }
    {
        for option in options {
            if !self.is_set_well(*option) {
                return false;
            }
        }
        true
    }

    /// Whether the words keep the rules.
    #[tactic(auto, unfolding(crate::specs::Rules::keeps_rules))]
    fn keep_rules(&self) -> bool
        ensures { result ≡ keeps_rules self.now.verb self.now.kind (items_of self.now.parts.now) }
    {
        are_known(self.parts)
            && self.are_set_well(&OPTIONS)
            && count_files(self.parts) == roles_of(self.verb).len()
    }

    /// The value of an option, if it is out of its range.
    fn outside(&self, option: OptionName) -> Option<OutOfRange>
        ensures { result ≡ outside_option self.now.verb self.now.kind (items_of self.now.parts.now) option }
    {
        let search = number_of(self.value(OptionName::Search), 0);
        value_outside(
            form_of(self.verb, self.kind, option),
            self.value(option),
            search,
        )
    }

    /// The first of these options whose value is.
    fn outside_among(&self, options: &[OptionName]) -> Option<OutOfRange>
        ensures { result ≡ slice_get (filter_map (outside_option self.now.verb self.now.kind (items_of self.now.parts.now)) options.now) 0 }
    {
        for option in options {
            if let Some(outside) = self.outside(*option) {
                return Some(outside);
            }
        }
        None
    }

    /// The first setting that is out of its range.
    #[tactic(auto, unfolding(crate::specs::Rules::first_outside))]
    fn first_outside(&self) -> Option<OutOfRange>
        ensures { result ≡ first_outside self.now.verb self.now.kind (items_of self.now.parts.now) }
    {
        self.outside_among(&OPTIONS)
    }

    /// A file name, or the empty one where there are fewer.
    fn file(&self, number: usize) -> &'w str
        ensures { result.now ≡ file_at (files_of (items_of self.now.parts.now)) number }
    {
        file_at(self.parts, number).unwrap_or("")
    }
}

/// What the words after a command ask for, where its options are those of a kind.
#[tactic(auto, unfolding(crate::specs::Asked::meaning_by))]
fn asked_by<'w>(parts: &[Part<'w>], verb: Verb, kind: Kind) -> Asked<'w>
    requires { kind ≡ kind_said verb (items_of parts.now) }
    ensures meaning { seen result ≡ meaning_by verb kind (items_of parts.entry.now) }
    ensures allowed { OnMeaning (seen result) IsAllowed }
{
    let given = Given { parts, verb, kind };
    if !is_built(verb, kind) || !given.keep_rules() {
        return Asked::Nothing;
    }
    match given.first_outside() {
        Some(outside) => Asked::Outside {
            name: outside.name,
            value: outside.value,
            least: outside.least,
            greatest: outside.greatest,
        },
        None => Asked::For(Request {
            verb,
            names: Names {
                first: given.file(0),
                second: given.file(1),
                third: given.file(2),
                fourth: given.file(3),
            },
            settings: settings_of(verb, &given),
        }),
    }
}

/// The kind of index that words say, or the default.
#[tactic(auto, unfolding(crate::specs::Asked::kind_said))]
fn read_kind(parts: &[Part<'_>], verb: Verb) -> Kind
    ensures { result ≡ kind_said verb (items_of parts.now) }
{
    let given = Given {
        parts,
        verb,
        kind: Kind::Vamana,
    };
    kind_in_value(given.value(OptionName::Kind))
}

/// What the words after a command ask for.
fn asked_of(words: &[String], verb: Verb) -> Asked<'_>
    ensures meaning { seen result ≡ meaning_of (Some verb) (items (texts words.entry.now)) }
    ensures allowed { OnMeaning (seen result) IsAllowed }
{
    let Some(parts) = cut(words) else {
        return Asked::Nothing;
    };
    let kind = read_kind(&parts, verb);
    asked_by(&parts, verb, kind)
}

/// What the words after the program's name ask for.
///
/// The first word is a command. A later word that begins with `--` and has a further character is an option: with a `=`
/// in it, its name is what stands before the first and its value what stands after; without one, its value is the next
/// word, which must not begin with `-`. The other words are file names, and none of them begins with `-` or is empty:
/// as many as the command has. Options and file names stand in any order. An option must be one of the command's, stand
/// at most once and have a value of its kind. Words that break a rule mean no request, and so do commands and options
/// that the program doesn't have yet. Of settings out of their range the first in the order of the option table is
/// answered.
pub fn read_words(words: &[String]) -> Asked<'_>
    ensures meaning { seen result ≡ request_of (map (λ w. string_bytes w) words.now) }
    ensures allowed { OnMeaning (seen result) IsAllowed }
{
    match words {
        [] => Asked::Nothing,
        [command, rest @ ..] => match read_verb(command.as_str()) {
            Some(verb) => asked_of(rest, verb),
            None => Asked::Nothing,
        },
    }
}
