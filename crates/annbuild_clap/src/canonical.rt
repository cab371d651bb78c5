//! The canonical words of a request: the command, its options in the order of the table, each as `--name=VALUE` with its
//! value spelled out, `--`, and its file names. Only `--cap` is left out where none is set.
ghost use Rattle.std.specs.Prelude.{◌≡◌, ◌<◌, ◌≤◌, ◌++◌, ◌∷◌, [], get_or, length, take, IfOk, OnOk, option_map, string_bytes};
ghost use Rattle.annbuild_words.specs.Asked.{command_of, names_of};
ghost use Rattle.annbuild_words.specs.Parts.{texts};
ghost use Rattle.annbuild_clap.specs.Canonical.{word_of, set_words, canonical_words};

use ann_shelf::NoMemory;
use annbuild_words::Request;
use command_options::{
    Named, OPTIONS, OptionName, Value, Values, has_option, name_of, roles_of, verb_text,
};
use std::alloc::Global;

/// The word that sets an option to a value, where the value has a text.
fn setting_word(alloc: Global, option: OptionName, value: Value) -> Result<Option<String>, NoMemory>
    ensures { IfOk result (λ word. option_map (λ w. string_bytes w) word ≡ word_of option value) }
{
    let name = name_of(option);
    let word = match value {
        Value::ByRule => return Ok(None),
        Value::Number(n) => format!(in alloc; "{name}={n}")?,
        Value::Fraction { num, den } => format!(in alloc; "{name}={num}/{den}")?,
        Value::KindIs(kind) => format!(in alloc; "{name}={}", kind.text())?,
        Value::PoolIs(way) => format!(in alloc; "{name}={}", way.text())?,
        Value::OrderIs(kind) => format!(in alloc; "{name}={}", kind.text())?,
        Value::StartIs(kind) => format!(in alloc; "{name}={}", kind.text())?,
        Value::ElementIs(element) => format!(in alloc; "{name}={}", element.text())?,
    };
    Ok(Some(word))
}

/// Adds a word.
fn push_text(alloc: Global, words: &mut Vec<String>, text: &str) -> Result<(), NoMemory>
    ensures { OnOk result (texts words.new.items ≡ texts words.old.items ++ text.now ∷ []) }
{
    words.push(String::from_str(alloc, text)?)?;
    Ok(())
}

/// Adds the word that sets an option, where the command has it and its value has a text.
fn push_setting(
    alloc: Global,
    words: &mut Vec<String>,
    request: &Request<'_>,
    option: OptionName,
) -> Result<(), NoMemory>
    ensures { OnOk result (texts words.new.items ≡ texts words.old.items ++ set_words (command_of request.now) (option ∷ [])) }
{
    if !has_option(request.verb, request.settings.kind, option) {
        return Ok(());
    }
    match setting_word(alloc, option, request.settings.value(option))? {
        Some(word) => {
            words.push(word)?;
            Ok(())
        }
        None => Ok(()),
    }
}

/// Adds the words that set those of these options that the command has.
fn push_settings(
    alloc: Global,
    words: &mut Vec<String>,
    request: &Request<'_>,
    options: &[OptionName],
) -> Result<(), NoMemory>
    ensures { OnOk result (texts words.new.items ≡ texts words.old.items ++ set_words (command_of request.now) options.now) }
{
    for option in options {
        push_setting(alloc, words, request, *option)?;
    }
    Ok(())
}

/// A file name of a request.
fn name_at<'w>(request: &Request<'w>, i: usize) -> &'w str
    requires { i < 4 }
    ensures { result.now ≡ get_or (names_of (command_of request.entry.now)) i [] }
{
    match i {
        0 => request.names.first,
        1 => request.names.second,
        2 => request.names.third,
        _ => request.names.fourth,
    }
}

/// Adds the first file names.
fn push_names(
    alloc: Global,
    words: &mut Vec<String>,
    request: &Request<'_>,
    count: usize,
) -> Result<(), NoMemory>
    requires { count ≤ 4 }
    ensures { OnOk result (texts words.new.items ≡ texts words.old.items ++ take count (names_of (command_of request.now))) }
{
    for i in 0..count {
        push_text(alloc, words, name_at(request, i))?;
    }
    Ok(())
}

/// The canonical words of a request.
#[tactic(auto, unfolding(crate::specs::Canonical::canonical_words))]
pub fn words_of(alloc: Global, request: &Request<'_>) -> Result<Vec<String>, NoMemory>
    ensures { IfOk result (λ words. texts words.items ≡ canonical_words (command_of request.now)) }
{
    let verb = request.verb;
    let mut words = Vec::new(alloc);
    push_text(alloc, &mut words, verb_text(verb))?;
    push_settings(alloc, &mut words, request, &OPTIONS)?;
    push_text(alloc, &mut words, "--")?;
    push_names(alloc, &mut words, request, roles_of(verb).len())?;
    Ok(words)
}
