//! The six lines as `clap` sees them: a subcommand each, whose words are all required.
ghost use Rattle.std.specs.Prelude.{◌≡◌, false, IfOk};
ghost use Rattle.clap.specs.Words.{app_of, with_rule};
ghost use Rattle.clap.specs.declared.builder.command.Command.TheViews.{out-Command};
ghost use Rattle.al_words.specs.Apps.{bare_app, one_word, three_words, two_words, wanted, whole_app, with_line};

use clap::{Arg, Command};
use std::alloc::{AllocError, Global};

// One more word behind the name.
fn with_word<'a>(
    command: Command<'a>,
    alloc: Global,
    id: &'a str,
) -> Result<Command<'a>, AllocError>
    requires { (out-Command command).has_globals ≡ false }
    ensures app { IfOk result (λ c. app_of c ≡ with_rule (app_of command.entry) (wanted id.now)) }
    ensures local { IfOk result (λ c. (out-Command c).has_globals ≡ false) }
{
    let arg = Arg::new(alloc, id).required(true);
    command.arg(arg)
}

fn one_word<'a>(alloc: Global, name: &'a str) -> Result<Command<'a>, AllocError>
    ensures app { IfOk result (λ c. app_of c ≡ one_word name.now) }
    ensures local { IfOk result (λ c. (out-Command c).has_globals ≡ false) }
{
    with_word(Command::new(alloc, name), alloc, "first")
}

fn two_words<'a>(alloc: Global, name: &'a str) -> Result<Command<'a>, AllocError>
    ensures app { IfOk result (λ c. app_of c ≡ two_words name.now) }
    ensures local { IfOk result (λ c. (out-Command c).has_globals ≡ false) }
{
    with_word(one_word(alloc, name)?, alloc, "second")
}

fn three_words<'a>(alloc: Global, name: &'a str) -> Result<Command<'a>, AllocError>
    ensures app { IfOk result (λ c. app_of c ≡ three_words name.now) }
    ensures local { IfOk result (λ c. (out-Command c).has_globals ≡ false) }
{
    with_word(two_words(alloc, name)?, alloc, "third")
}

fn top<'a>(alloc: Global) -> Command<'a>
    ensures { app_of result ≡ bare_app }
{
    Command::new(alloc, "al_node")
        .no_binary_name(true)
        .subcommand_required(true)
}

fn with_line<'a>(command: Command<'a>, line: Command<'a>) -> Result<Command<'a>, AllocError>
    requires { (out-Command line).has_globals ≡ false }
    ensures { IfOk result (λ c. app_of c ≡ with_line (app_of command.entry) (app_of line.entry)) }
{
    command.subcommand(line)
}

/// The command with its six lines.
///
/// # Errors
///
/// Only where memory is short.
pub fn whole_app<'a>(alloc: Global) -> Result<Command<'a>, AllocError>
    ensures { IfOk result (λ c. app_of c ≡ whole_app) }
{
    let command = top(alloc);
    let command = with_line(command, one_word(alloc, "session")?)?;
    let command = with_line(command, two_words(alloc, "serve")?)?;
    let command = with_line(command, two_words(alloc, "generate")?)?;
    let command = with_line(command, three_words(alloc, "catchpoint")?)?;
    let command = with_line(command, two_words(alloc, "catchup")?)?;
    with_line(command, one_word(alloc, "label")?)
}
