//! The command line that clap is told of.
ghost use Rattle.std.specs.Prelude.{◌≡◌, IfOk, IfErr, true};
ghost use Rattle.clap.specs.Words.{app_of, kind_of, new_rule, subcommand_of, subcommand_rows_of, takes, with_rule, with_subcommand};
ghost use Rattle.annbuild_words.specs.Parts.{texts};
ghost use Rattle.annbuild_clap.specs.Program.{option_rule, file_id, with_option, with_options, with_files, command_app, bare_program, with_commands, program};

use clap::error::ErrorKind;
use clap::{Arg, ArgMatches, Command, Error};
use command_options::{
    OPTIONS, OptionName, Role, VERBS, Verb, has_option_of_any, long_of, roles_of, verb_text,
};
use std::alloc::{AllocError, Global};

/// What clap calls a file. No option is called so.
pub fn file_id(role: Role) -> &'static str
    ensures { result.now ≡ file_id role }
{
    match role {
        Role::Base => "DATA",
        Role::Index => "INDEX",
        Role::Queries => "QUERIES",
        Role::Output => "OUT",
        Role::Gone => "GONE",
        Role::Fresh => "OUTPUT",
        Role::Labels => "LABELS",
    }
}

/// Adds an option, if a command has it for some kind of index.
#[tactic(auto, unfolding(crate::specs::Program::with_option))]
fn add_option<'m>(
    alloc: Global,
    command: Command<'m>,
    verb: Verb,
    option: OptionName,
) -> Result<Command<'m>, AllocError>
    ensures { IfOk result (λ c. app_of c ≡ with_option verb (app_of command.entry) option) }
{
    if !has_option_of_any(verb, option) {
        return Ok(command);
    }
    let name: &'m str = long_of(option);
    command.arg(Arg::new(alloc, name).long(name))
}

/// Adds a file name.
fn add_file<'m>(alloc: Global, command: Command<'m>, role: Role) -> Result<Command<'m>, AllocError>
    ensures { IfOk result (λ c. app_of c ≡ with_rule (app_of command.entry) (new_rule (file_id role))) }
{
    let name: &'m str = file_id(role);
    command.arg(Arg::new(alloc, name))
}

/// Adds those of these options that a command has for some kind of index.
fn add_options<'m>(
    alloc: Global,
    command: Command<'m>,
    verb: Verb,
    options: &[OptionName],
) -> Result<Command<'m>, AllocError>
    ensures { IfOk result (λ c. app_of c ≡ with_options verb (app_of command.entry) options.now) }
{
    let mut command = command;
    for option in options {
        command = add_option(alloc, command, verb, *option)?;
    }
    Ok(command)
}

/// Adds file names.
fn add_files<'m>(
    alloc: Global,
    command: Command<'m>,
    roles: &[Role],
) -> Result<Command<'m>, AllocError>
    ensures { IfOk result (λ c. app_of c ≡ with_files (app_of command.entry) roles.now) }
{
    let mut command = command;
    for role in roles {
        command = add_file(alloc, command, *role)?;
    }
    Ok(command)
}

/// A command of the program.
#[tactic(auto, unfolding(crate::specs::Program::command_app))]
fn subcommand<'m>(alloc: Global, verb: Verb) -> Result<Command<'m>, AllocError>
    ensures { IfOk result (λ c. app_of c ≡ command_app verb) }
{
    let name: &'m str = verb_text(verb);
    let command = add_options(alloc, Command::new(alloc, name), verb, &OPTIONS)?;
    add_files(alloc, command, roles_of(verb))
}

/// Adds a command.
fn add_command<'m>(
    alloc: Global,
    program: Command<'m>,
    verb: Verb,
) -> Result<Command<'m>, AllocError>
    ensures { IfOk result (λ c. app_of c ≡ with_subcommand (app_of program.entry) (command_app verb).top) }
{
    let command = subcommand(alloc, verb)?;
    program.subcommand(command)
}

/// Adds commands.
fn add_commands<'m>(
    alloc: Global,
    program: Command<'m>,
    verbs: &[Verb],
) -> Result<Command<'m>, AllocError>
    ensures { IfOk result (λ c. app_of c ≡ with_commands (app_of program.entry) verbs.now) }
{
    let mut program = program;
    for verb in verbs {
        program = add_command(alloc, program, *verb)?;
    }
    Ok(program)
}

/// The program without commands.
fn bare_program<'m>(alloc: Global) -> Command<'m>
    ensures { app_of result ≡ bare_program }
{
    Command::new(alloc, "annbuild")
        .no_binary_name(true)
        .disable_help_flag(true)
        .disable_help_subcommand(true)
        .disable_version_flag(true)
}

/// The program.
#[tactic(auto, unfolding(crate::specs::Program::program))]
fn whole_program<'m>(alloc: Global) -> Result<Command<'m>, AllocError>
    ensures { IfOk result (λ c. app_of c ≡ program) }
{
    add_commands(alloc, bare_program(alloc), &VERBS)
}

/// What clap makes of words that it takes. It fails only with `NoMemory`.
pub fn matches_of<'w>(alloc: Global, words: &'w [String]) -> Result<ArgMatches<'w>, Error>
    requires { takes program (texts words.now) ≡ true }
    ensures rows { IfOk result (λ m. subcommand_rows_of m ≡ subcommand_of program (texts words.entry.now)) }
    ensures memory { IfErr result (λ e. kind_of e ≡ ErrorKind.OutOfMemory) }
{
    whole_program(alloc)?.try_get_matches_from(words)
}
