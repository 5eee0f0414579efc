//! The command line.

ghost use Rattle.std.specs.Prelude.{◌≡◌, [], IfOk, false};
ghost use Rattle.clap.specs.Simple.{app_of, new_shape, shape_of, with_subcommand};
ghost use Rattle.clap.specs.declared.builder.command.Command.TheViews.{out-Command as fields_of};
ghost use Rattle.cf_cli.specs.Accounts.{account, gen_shape, of_reports, of_scripts, top};

use clap::{Arg, Command};
use std::alloc::{AllocError, Global};

// The program itself, with no subcommand yet.
fn top<'a>(alloc: Global) -> Command<'a>
    ensures { app_of result ≡ record { top = top; subs = [] } }
{
    Command::new(alloc, "cloudfiles")
        .no_binary_name(true)
        .disable_help_flag(true)
        .disable_help_subcommand(true)
        .disable_version_flag(true)
        .subcommand_required(true)
}

// The command line with one more subcommand, which is a word alone.
fn with_word<'a>(line: Command<'a>, alloc: Global, word: &'a str) -> Result<Command<'a>, AllocError>
    ensures { IfOk result (λ c. app_of c ≡ with_subcommand (app_of line.entry) (new_shape word.entry.now)) }
{
    line.subcommand(Command::new(alloc, word))
}

// The command line with the subcommands that write a report.
fn of_reports<'a>(alloc: Global) -> Result<Command<'a>, AllocError>
    ensures { IfOk result (λ c. app_of c ≡ of_reports) }
{
    let line = with_word(top(alloc), alloc, "replay")?;
    with_word(line, alloc, "filter")
}

// The subcommand that is followed by a number.
fn generator<'a>(alloc: Global) -> Result<Command<'a>, AllocError>
    ensures shape { IfOk result (λ c. shape_of c ≡ gen_shape) }
    ensures local { IfOk result (λ c. (fields_of c).has_globals ≡ false) }
{
    let number = Arg::new(alloc, "number").required(true);
    Command::new(alloc, "gen").arg(number)
}

// The command line with the subcommand that is followed by a number.
fn with_generator<'a>(line: Command<'a>, alloc: Global) -> Result<Command<'a>, AllocError>
    ensures { IfOk result (λ c. app_of c ≡ with_subcommand (app_of line.entry) gen_shape) }
{
    match generator(alloc) {
        Ok(generator) => line.subcommand(generator),
        Err(refused) => {
            drop(line);
            Err(refused)
        }
    }
}

// The command line with the subcommands that do a script.
fn of_scripts<'a>(alloc: Global) -> Result<Command<'a>, AllocError>
    ensures { IfOk result (λ c. app_of c ≡ of_scripts) }
{
    let line = of_reports(alloc)?;
    let line = with_word(line, alloc, "state")?;
    let line = with_word(line, alloc, "image")?;
    with_generator(line, alloc)
}

/// The command line, to be handed the words after the program's name.
pub(crate) fn account<'a>(alloc: Global) -> Result<Command<'a>, AllocError>
    ensures { IfOk result (λ c. app_of c ≡ account) }
{
    let line = of_scripts(alloc)?;
    let line = with_word(line, alloc, "scrub")?;
    let line = with_word(line, alloc, "migrate")?;
    with_word(line, alloc, "check")
}
