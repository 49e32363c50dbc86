//! The parser of the command line.

ghost use Rattle.std.specs.Prelude.{◌≡◌, ◌≢◌, false, map, string_bytes, IfOk, IsErrOf};
ghost use Rattle.clap.specs.Words.{app_of, kind_of, rule_of};
ghost use Rattle.clap.specs.declared.error.kind.ErrorKind.TheVariants.{OutOfMemory};
ghost use Rattle.mk_words.specs.Given.{option_rule, project_rule, command_app, given, plains_given, AreGiven, AreNotGiven};
ghost use Rattle.mk_words.specs.Found.{listed};

use crate::options::{Setting, name};
use crate::request::UsageFault;
use clap::error::ErrorKind;
use clap::{Arg, ArgMatches, Command, Error};
use std::alloc::{AllocError, Global};

/// The option of this name as an argument that sets a text.
fn option<'a>(alloc: Global, name: &'a str) -> Arg<'a>
    ensures rule { rule_of result ≡ option_rule name.entry.now }
    ensures local { result.global ≡ false }
{
    Arg::new(alloc, name).long(name)
}

/// The plain word as an argument that sets a text.
fn positional<'a>(alloc: Global) -> Arg<'a>
    ensures rule { rule_of result ≡ project_rule }
    ensures local { result.global ≡ false }
{
    Arg::new(alloc, "project")
}

/// Four options that set a text, one plain word that may be left out, and no flag of the parser's own.
fn command<'a>(alloc: Global) -> Result<Command<'a>, AllocError>
    ensures { IfOk result (λ c. app_of c ≡ command_app) }
{
    Command::new(alloc, "markov")
        .no_binary_name(true)
        .disable_help_flag(true)
        .disable_version_flag(true)
        .arg(option(alloc, name(Setting::Workers)))?
        .arg(option(alloc, name(Setting::Budget)))?
        .arg(option(alloc, name(Setting::Upto)))?
        .arg(option(alloc, name(Setting::Model)))?
        .arg(positional(alloc))
}

/// Memory ran out where the parser says so, and else the words are at fault.
fn fault_by(error: &Error) -> UsageFault
    ensures memory { result ≡ UsageFault.Memory → kind_of error.now ≡ OutOfMemory }
    ensures words { result ≡ UsageFault.Words → kind_of error.now ≢ OutOfMemory }
{
    match error.kind() {
        ErrorKind::OutOfMemory => UsageFault::Memory,
        _ => UsageFault::Words,
    }
}

/// The texts of the options and the plain word, where the words give each of them at most once.
pub(crate) fn parse<'a>(alloc: Global, words: &'a [String]) -> Result<ArgMatches<'a>, UsageFault>
    ensures ok { IfOk result (AreGiven (map string_bytes words.now)) }
    ensures words { IsErrOf result UsageFault.Words → AreNotGiven (map string_bytes words.now) }
{
    match command(alloc)?.try_get_matches_from(words) {
        Ok(matches) => Ok(matches),
        Err(error) => Err(fault_by(&error)),
    }
}

/// The value of the option, where it is given.
pub(crate) fn value_given<'a>(matches: &ArgMatches<'a>, setting: Setting) -> Option<&'a str>
    ensures { listed result ≡ given setting matches.now }
{
    matches.get_str(name(setting))
}

/// The plain word, where there is one.
pub(crate) fn plain_given<'a>(matches: &ArgMatches<'a>) -> Option<&'a str>
    ensures { listed result ≡ plains_given matches.now }
{
    matches.get_str("project")
}
