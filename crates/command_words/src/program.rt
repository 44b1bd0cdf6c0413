//! The command line of the program, as `clap` is told of it.
ghost use Rattle.std.specs.Prelude.{◌≡◌, false, IfOk};
ghost use Rattle.clap.specs.Words.{app_of, rule_of};
ghost use Rattle.clap.specs.declared.builder.command.Command.TheViews.{out-Command};
ghost use Rattle.command_words.specs.Matched.{audit_command, batch_command, dossier_command};
ghost use Rattle.command_words.specs.Matched.{file_command, flag_rule, migrate_command};
ghost use Rattle.command_words.specs.Matched.{needed_rule, optional_rule, program, serve_command};
ghost use Rattle.command_words.specs.Matched.{standby_command, three_command, with_last};

use clap::builder::ValueParser;
use clap::{Arg, ArgAction, Command};
use std::alloc::{AllocError, Global};

/// One level of commands, with no help. The values of options are texts, which aren't empty.
pub(crate) fn program<'a>(alloc: Global) -> Result<Command<'a>, AllocError>
    ensures { IfOk result (λ command. app_of command ≡ program) }
{
    let case = Command::new(alloc, "case");
    let init = with_files(alloc, "init")?;
    let batch = batch(alloc)?;
    let audit = audit(alloc)?;
    let selfrun = with_three(alloc, "selfrun", "seed", "users", "asks")?;
    let serve = serve(alloc)?;
    let migrate = migrate(alloc)?;
    let program = Command::new(alloc, "cqe")
        .no_binary_name(true)
        .disable_help_flag(true)
        .disable_help_subcommand(true)
        .subcommand_required(true);
    let first = program
        .subcommand(case)?
        .subcommand(init)?
        .subcommand(batch)?
        .subcommand(audit)?
        .subcommand(selfrun)?
        .subcommand(serve)?
        .subcommand(migrate)?;
    let all = with_last(alloc, first)?;
    Ok(all)
}

// What each of these returns has a name first: its goals are then plain equations, and no
// implications under `IfOk`.

// The command line with its last three commands too.
fn with_last<'a>(alloc: Global, first: Command<'a>) -> Result<Command<'a>, AllocError>
    ensures { IfOk result (λ command. app_of command ≡ with_last (app_of first.entry)) }
{
    let dossier = dossier(alloc)?;
    let check = with_three(alloc, "check", "policy", "facts", "user")?;
    let standby = standby(alloc)?;
    let all = first
        .subcommand(dossier)?
        .subcommand(check)?
        .subcommand(standby)?;
    Ok(all)
}

// The batch.
fn batch<'a>(alloc: Global) -> Result<Command<'a>, AllocError>
    ensures shape { IfOk result (λ command. app_of command ≡ batch_command) }
    ensures plain { IfOk result (λ command. (out-Command command).has_globals ≡ false) }
{
    let workers = optional(alloc, "workers");
    let standby = optional(alloc, "standby");
    let files = with_files(alloc, "batch")?;
    let command = files.arg(workers)?.arg(standby)?;
    Ok(command)
}

// The audit of a user.
fn audit<'a>(alloc: Global) -> Result<Command<'a>, AllocError>
    ensures shape { IfOk result (λ command. app_of command ≡ audit_command) }
    ensures plain { IfOk result (λ command. (out-Command command).has_globals ≡ false) }
{
    let user = needed(alloc, "user");
    let json = flag(alloc, "json");
    let files = with_files(alloc, "audit")?;
    let command = files.arg(user)?.arg(json)?;
    Ok(command)
}

// The server.
fn serve<'a>(alloc: Global) -> Result<Command<'a>, AllocError>
    ensures shape { IfOk result (λ command. app_of command ≡ serve_command) }
    ensures plain { IfOk result (λ command. (out-Command command).has_globals ≡ false) }
{
    let listen = needed(alloc, "listen");
    let workers = optional(alloc, "workers");
    let sessions = optional(alloc, "sessions");
    let standby = optional(alloc, "standby");
    let files = with_files(alloc, "serve")?;
    let command = files
        .arg(listen)?
        .arg(workers)?
        .arg(sessions)?
        .arg(standby)?;
    Ok(command)
}

// The standby.
fn standby<'a>(alloc: Global) -> Result<Command<'a>, AllocError>
    ensures shape { IfOk result (λ command. app_of command ≡ standby_command) }
    ensures plain { IfOk result (λ command. (out-Command command).has_globals ≡ false) }
{
    let listen = needed(alloc, "listen");
    let sessions = optional(alloc, "sessions");
    let files = with_files(alloc, "standby")?;
    let command = files.arg(listen)?.arg(sessions)?;
    Ok(command)
}

// The moving of journals.
fn migrate<'a>(alloc: Global) -> Result<Command<'a>, AllocError>
    ensures shape { IfOk result (λ command. app_of command ≡ migrate_command) }
    ensures plain { IfOk result (λ command. (out-Command command).has_globals ≡ false) }
{
    let to = needed(alloc, "to");
    let files = with_files(alloc, "migrate")?;
    let command = files.arg(to)?;
    Ok(command)
}

// The dossier of a user.
fn dossier<'a>(alloc: Global) -> Result<Command<'a>, AllocError>
    ensures shape { IfOk result (λ command. app_of command ≡ dossier_command) }
    ensures plain { IfOk result (λ command. (out-Command command).has_globals ≡ false) }
{
    let user = needed(alloc, "user");
    let files = with_files(alloc, "dossier")?;
    let command = files.arg(user)?;
    Ok(command)
}

// A command with the options that name its files.
fn with_files<'a>(alloc: Global, name: &'a str) -> Result<Command<'a>, AllocError>
    ensures shape { IfOk result (λ command. app_of command ≡ file_command name.now) }
    ensures plain { IfOk result (λ command. (out-Command command).has_globals ≡ false) }
{
    let command = with_three(alloc, name, "policy", "facts", "journals")?;
    Ok(command)
}

// A command with three options that must be there.
fn with_three<'a>(
    alloc: Global,
    name: &'a str,
    one: &'a str,
    two: &'a str,
    three: &'a str,
) -> Result<Command<'a>, AllocError>
    ensures shape { IfOk result (λ command. app_of command
        ≡ three_command name.now one.now two.now three.now) }
    ensures plain { IfOk result (λ command. (out-Command command).has_globals ≡ false) }
{
    let one = needed(alloc, one);
    let two = needed(alloc, two);
    let three = needed(alloc, three);
    let command = Command::new(alloc, name).arg(one)?.arg(two)?.arg(three)?;
    Ok(command)
}

// An option that must be there, with a value.
fn needed<'a>(alloc: Global, name: &'a str) -> Arg<'a>
    ensures rule { rule_of result ≡ needed_rule name.now }
    ensures plain { result.global ≡ false }
{
    optional(alloc, name).required(true)
}

// An option that may be there, with a value.
fn optional<'a>(alloc: Global, name: &'a str) -> Arg<'a>
    ensures rule { rule_of result ≡ optional_rule name.now }
    ensures plain { result.global ≡ false }
{
    Arg::new(alloc, name)
        .long(name)
        .action(ArgAction::Set)
        .value_parser(ValueParser::NonEmptyString)
}

// An option without a value, which may be there.
fn flag<'a>(alloc: Global, name: &'a str) -> Arg<'a>
    ensures rule { rule_of result ≡ flag_rule name.now }
    ensures plain { result.global ≡ false }
{
    Arg::new(alloc, name).long(name).action(ArgAction::SetTrue)
}
