//! Parses the arguments of the program.

ghost use Rattle.std.specs.Prelude.{◌≡◌, ◌≤◌, IfOk, IfSome};
ghost use Rattle.std.specs.Char.{is_ascii_digit};
ghost use Rattle.std.specs.List.{list_all};
ghost use Rattle.command_line.specs.Numbers.{number_in, number_within, moment_in};
ghost use Rattle.command_line.specs.Ranges.{AreInRange, IsInRange, HasItsServer, NeedsNoServer};
ghost use Rattle.command_line.specs.Words.{IsCommand, IsHold, IsMoment};

use crate::commands::program;
use crate::faults::ArgsFault;
use crate::parameters::{PUSH, UPLOAD, Usage};
use crate::policy_args::{PolicyArgs, policy_args};
use clap::ArgMatches;
use clap::error::ErrorKind;
use names::{Moment, Oid, Operation, RefName, RepoName, UserName};
use policy::Access;
use std::alloc::Global;

/// The largest number of connections that an argument can give.
const MOST_REQUESTS: u64 = 1_000_000;

/// The longest time that a client may idle, in seconds: a day.
const LONGEST_IDLE: u64 = 86_400;

/// How long a client may idle if no argument says so, in seconds.
const IDLE: u64 = 10;

/// The longest time for which a server may be held, in seconds.
pub(crate) const LONGEST_HOLD: u64 = 600;

/// How long a server is held if no argument says so, in seconds.
const HOLD: u64 = 60;

/// What the arguments ask for.
#[derive(Debug, Drop)]
pub enum Command<'a> {
    /// Print the help or the version on standard output.
    Text(clap::Error),
    /// The command `session`.
    Session(SessionArgs<'a>),
    /// The command `serve`.
    Serve(ServeArgs<'a>),
    /// The command `policy`.
    Policy(PolicyArgs<'a>),
    /// The command `migrate`.
    Migrate(MigrateArgs<'a>),
    /// A command of an operator, over these files.
    Local(Files<'a>, OperatorCommand<'a>),
    /// A command of an operator, which the server at this socket runs.
    Remote(&'a str, OperatorCommand<'a>),
}

/// A command of an operator.
#[derive(Debug, Drop)]
pub enum OperatorCommand<'a> {
    /// The command `authenticate`.
    Authenticate(TokenArgs<'a>),
    /// The command `tokens`.
    Tokens(TokensArgs),
    /// The command `prune`, with the moment that was given.
    Prune(Option<Moment>),
    /// The command `may`.
    May(MayArgs),
    /// The command `pushcheck`.
    PushCheck(PushArgs),
    /// The command `foresee`.
    Foresee(ForeseeArgs),
    /// The command `locks`, with its repository.
    Locks(RepoName),
    /// The command `objects`, with its repository.
    Objects(RepoName),
    /// The command `usage`, with the moment that was given.
    Usage(Option<Moment>),
    /// The command `check`.
    Check,
    /// The command `repair`.
    Repair,
    /// The command `sweep`.
    Sweep,
    /// The command `retire`.
    Retire(RetireArgs),
    /// The command `status`. It is for a server, as those below.
    Status,
    /// The command `hold`, with its time in seconds: 1 to 600.
    Hold(u64),
    /// The command `reload`.
    Reload,
    /// The command `stop`.
    Stop,
}

/// The files of a command. A file that the command does not read has an empty name.
#[derive(Clone, Copy, Debug)]
pub struct Files<'a> {
    /// The database file.
    pub db: &'a str,
    /// The policy file.
    pub policy: &'a str,
    /// The file whose first 32 bytes a token is made of.
    pub random: &'a str,
}

/// The arguments of `session`.
#[derive(Clone, Copy, Debug)]
pub struct SessionArgs<'a> {
    /// The database file.
    pub db: &'a str,
    /// The policy file.
    pub policy: &'a str,
    /// The moment at which the connection comes; `None` for the clock's.
    pub now: Option<Moment>,
}

/// The arguments of `serve`.
#[derive(Clone, Copy, Debug)]
pub struct ServeArgs<'a> {
    /// The database file.
    pub db: &'a str,
    /// The policy file.
    pub policy: &'a str,
    /// The address, as it is written.
    pub listen: &'a str,
    /// The number of connections after which the command ends; `None` if it does not end.
    pub requests: Option<u64>,
    /// How long a client may idle between two messages, in seconds.
    pub idle: u64,
    /// The path of the control socket; `None` for a server without one.
    pub control: Option<&'a str>,
    /// Whether a new database has contents in a file beside it.
    pub contents: bool,
}

/// Where a database has the contents of objects once it is migrated.
#[derive(Clone, Copy, Debug, PartialEq, Eq)]
pub enum Target {
    /// Where it has them.
    AsItIs,
    /// In a file.
    File,
    /// In rows.
    Rows,
}

/// The arguments of `migrate`.
#[derive(Clone, Copy, Debug)]
pub struct MigrateArgs<'a> {
    /// The database file.
    pub db: &'a str,
    /// Where it has the contents of objects afterwards.
    pub target: Target,
}

/// The arguments of `authenticate`.
#[derive(Debug, Drop)]
pub struct TokenArgs<'a> {
    /// Who gets the token.
    pub user: UserName,
    /// The moment; `None` for the clock's.
    pub now: Option<Moment>,
    /// The path of the Git remote, which names a repository.
    pub path: &'a str,
    /// What the token is for.
    pub operation: Operation,
}

/// The arguments of `tokens`.
#[derive(Debug, Drop)]
pub struct TokensArgs {
    /// The repository whose tokens are listed.
    pub repo: RepoName,
    /// The moment at which the tokens are valid; `None` for the clock's.
    pub now: Option<Moment>,
}

/// The arguments of `may`.
#[derive(Debug, Drop)]
pub struct MayArgs {
    /// The user who runs Git.
    pub user: UserName,
    /// The repository that Git asks about.
    pub repo: RepoName,
    /// What Git asks for.
    pub access: Access,
}

/// The arguments of `pushcheck`.
#[derive(Debug, Drop)]
pub struct PushArgs {
    /// The user who pushes.
    pub user: UserName,
    /// The repository that is pushed to.
    pub repo: RepoName,
    /// The ref that is pushed to.
    pub ref_name: RefName,
}

/// The arguments of `foresee`.
#[derive(Debug, Drop)]
pub struct ForeseeArgs {
    /// The user whose request it is.
    pub user: UserName,
    /// The repository that it asks about.
    pub repo: RepoName,
    /// The moment at which it would be answered; `None` for the clock's.
    pub now: Option<Moment>,
}

/// The arguments of `retire`.
#[derive(Debug, Drop)]
pub struct RetireArgs {
    /// The repository that the object is removed from.
    pub repo: RepoName,
    /// The name of the object.
    pub oid: Oid,
}

/// Whether each byte is a digit.
fn are_digits(text: &[u8]) -> bool
    ensures { result ≡ list_all is_ascii_digit text.now }
{
    text.iter().all(u8::is_ascii_digit)
}

/// The number that 1 to 18 decimal digits write; `None` for any other text.
pub(crate) fn number_in(text: &str) -> Option<u64>
    ensures { result ≡ number_in text.now }
{
    if text.is_empty() || text.len() > 18 || !are_digits(text.as_bytes()) {
        return None;
    }
    text.parse().ok()
}

/// The number that 1 to 18 decimal digits write, if it is in this range; `None` for any other text.
fn number_within(text: &str, least: u64, most: u64) -> Option<u64>
    ensures value { result ≡ number_within least most text.now }
    ensures range { IfSome result (λ number. (least ≤ number) × (number ≤ most)) }
{
    let number = number_in(text)?;
    if least <= number && number <= most {
        Some(number)
    } else {
        None
    }
}

/// The moment that 1 to 18 decimal digits write; `None` for any other text.
fn moment_in(text: &str) -> Option<Moment>
    ensures { result ≡ moment_in text.now }
{
    Moment::read(number_in(text)?)
}

/// The value of an option that `clap` has required.
pub(crate) fn value_of<'a>(matches: &ArgMatches<'a>, name: &str) -> &'a str {
    matches.get_str(name).unwrap_or("")
}

/// The user given with `--user`.
pub(crate) fn user_of(alloc: Global, matches: &ArgMatches<'_>) -> Result<UserName, ArgsFault> {
    let text = value_of(matches, "user").to_owned(alloc)?;
    UserName::read(text).ok_or(ArgsFault::Value("--user"))
}

/// The repository given with `--repo`.
pub(crate) fn repo_of(alloc: Global, matches: &ArgMatches<'_>) -> Result<RepoName, ArgsFault> {
    let text = value_of(matches, "repo").to_owned(alloc)?;
    RepoName::read(text).ok_or(ArgsFault::Value("--repo"))
}

/// The ref given with `--ref`.
pub(crate) fn ref_of(alloc: Global, matches: &ArgMatches<'_>) -> Result<RefName, ArgsFault> {
    let text = value_of(matches, "ref").to_owned(alloc)?;
    RefName::read(text).ok_or(ArgsFault::Value("--ref"))
}

/// The moment given with `--now`; `None` if the option is absent.
fn now_of(matches: &ArgMatches<'_>) -> Result<Option<Moment>, ArgsFault>
    ensures { IfOk result IsMoment }
{
    match matches.get_str("now") {
        None => Ok(None),
        Some(text) => moment_in(text).map(Some).ok_or(ArgsFault::Value("--now")),
    }
}

fn session_args<'a>(matches: &ArgMatches<'a>) -> Result<SessionArgs<'a>, ArgsFault> {
    Ok(SessionArgs {
        db: value_of(matches, "db"),
        policy: value_of(matches, "policy"),
        now: now_of(matches)?,
    })
}

/// The number that an option gives, 1 to `most`; `None` if the option is absent.
fn count_of(
    matches: &ArgMatches<'_>,
    name: &'static str,
    option: &'static str,
    most: u64,
) -> Result<Option<u64>, ArgsFault>
    ensures { IfOk result (λ count. IfSome count (λ number. (1 ≤ number) × (number ≤ most))) }
{
    match matches.get_str(name) {
        None => Ok(None),
        Some(text) => match number_within(text, 1, most) {
            Some(number) => Ok(Some(number)),
            None => Err(ArgsFault::Value(option)),
        },
    }
}

fn serve_args<'a>(matches: &ArgMatches<'a>) -> Result<ServeArgs<'a>, ArgsFault>
    ensures { IfOk result AreInRange }
{
    Ok(ServeArgs {
        db: value_of(matches, "db"),
        policy: value_of(matches, "policy"),
        listen: value_of(matches, "listen"),
        requests: count_of(matches, "requests", "--requests", MOST_REQUESTS)?,
        idle: count_of(matches, "idle", "--idle", LONGEST_IDLE)?.unwrap_or(IDLE),
        control: matches.get_str("control"),
        contents: matches.get_flag("contents"),
    })
}

/// The operation of an argument that `clap` accepted.
fn operation_of(matches: &ArgMatches<'_>) -> Operation {
    if value_of(matches, "operation") == UPLOAD {
        Operation::Upload
    } else {
        Operation::Download
    }
}

fn token_args<'a>(alloc: Global, matches: &ArgMatches<'a>) -> Result<TokenArgs<'a>, ArgsFault>
    ensures { IfOk result (λ args. IsMoment args.now) }
{
    Ok(TokenArgs {
        user: user_of(alloc, matches)?,
        now: now_of(matches)?,
        path: value_of(matches, "path"),
        operation: operation_of(matches),
    })
}

fn tokens_args(alloc: Global, matches: &ArgMatches<'_>) -> Result<TokensArgs, ArgsFault>
    ensures { IfOk result (λ args. IsMoment args.now) }
{
    Ok(TokensArgs {
        repo: repo_of(alloc, matches)?,
        now: now_of(matches)?,
    })
}

/// What Git asks for, as an argument that `clap` accepted says.
fn access_of(matches: &ArgMatches<'_>) -> Access {
    if value_of(matches, "access") == PUSH {
        Access::Push
    } else {
        Access::Pull
    }
}

fn may_args(alloc: Global, matches: &ArgMatches<'_>) -> Result<MayArgs, ArgsFault> {
    Ok(MayArgs {
        user: user_of(alloc, matches)?,
        repo: repo_of(alloc, matches)?,
        access: access_of(matches),
    })
}

fn push_args(alloc: Global, matches: &ArgMatches<'_>) -> Result<PushArgs, ArgsFault> {
    Ok(PushArgs {
        user: user_of(alloc, matches)?,
        repo: repo_of(alloc, matches)?,
        ref_name: ref_of(alloc, matches)?,
    })
}

fn foresee_args(alloc: Global, matches: &ArgMatches<'_>) -> Result<ForeseeArgs, ArgsFault>
    ensures { IfOk result (λ args. IsMoment args.now) }
{
    Ok(ForeseeArgs {
        user: user_of(alloc, matches)?,
        repo: repo_of(alloc, matches)?,
        now: now_of(matches)?,
    })
}

/// The object's name given as an argument.
fn oid_of(matches: &ArgMatches<'_>) -> Result<Oid, ArgsFault> {
    let text = value_of(matches, "oid");
    Oid::read(text.as_bytes()).ok_or(ArgsFault::Value("OID"))
}

fn retire_args(alloc: Global, matches: &ArgMatches<'_>) -> Result<RetireArgs, ArgsFault> {
    Ok(RetireArgs {
        repo: repo_of(alloc, matches)?,
        oid: oid_of(matches)?,
    })
}

/// The time that `hold` was given with `--seconds`, or its default.
fn hold_seconds(matches: &ArgMatches<'_>) -> Result<u64, ArgsFault>
    ensures { IfOk result IsHold }
{
    Ok(count_of(matches, "seconds", "--seconds", LONGEST_HOLD)?.unwrap_or(HOLD))
}

/// Parses the arguments of a command that only a server carries out; `None` if the name is of another command.
fn server_command_of<'a>(
    name: &str,
    matches: &ArgMatches<'_>,
) -> Result<Option<OperatorCommand<'a>>, ArgsFault>
    ensures { IfOk result (λ command. IfSome command IsCommand) }
{
    Ok(match name {
        "status" => Some(OperatorCommand::Status),
        "hold" => Some(OperatorCommand::Hold(hold_seconds(matches)?)),
        "reload" => Some(OperatorCommand::Reload),
        "stop" => Some(OperatorCommand::Stop),
        _ => None,
    })
}

/// Parses the arguments of a command that needs no server; `None` if the name is of another command.
fn operator_command_of<'a>(
    alloc: Global,
    name: &str,
    matches: &ArgMatches<'a>,
) -> Result<Option<OperatorCommand<'a>>, ArgsFault>
    ensures range { IfOk result (λ command. IfSome command IsCommand) }
    ensures local { IfOk result (λ command. IfSome command NeedsNoServer) }
{
    Ok(match name {
        "authenticate" => Some(OperatorCommand::Authenticate(token_args(alloc, matches)?)),
        "tokens" => Some(OperatorCommand::Tokens(tokens_args(alloc, matches)?)),
        "prune" => Some(OperatorCommand::Prune(now_of(matches)?)),
        "may" => Some(OperatorCommand::May(may_args(alloc, matches)?)),
        "pushcheck" => Some(OperatorCommand::PushCheck(push_args(alloc, matches)?)),
        "foresee" => Some(OperatorCommand::Foresee(foresee_args(alloc, matches)?)),
        "locks" => Some(OperatorCommand::Locks(repo_of(alloc, matches)?)),
        "objects" => Some(OperatorCommand::Objects(repo_of(alloc, matches)?)),
        "usage" => Some(OperatorCommand::Usage(now_of(matches)?)),
        "check" => Some(OperatorCommand::Check),
        "repair" => Some(OperatorCommand::Repair),
        "sweep" => Some(OperatorCommand::Sweep),
        "retire" => Some(OperatorCommand::Retire(retire_args(alloc, matches)?)),
        _ => None,
    })
}

fn migrate_args<'a>(matches: &ArgMatches<'a>) -> Result<MigrateArgs<'a>, ArgsFault> {
    let target = match (matches.get_flag("contents"), matches.get_flag("chunks")) {
        (false, false) => Target::AsItIs,
        (true, false) => Target::File,
        (false, true) => Target::Rows,
        (true, true) => return Err(ArgsFault::Value("--chunks")),
    };
    Ok(MigrateArgs {
        db: value_of(matches, "db"),
        target,
    })
}

/// The files of a command.
fn files_of<'a>(matches: &ArgMatches<'a>) -> Files<'a> {
    Files {
        db: value_of(matches, "db"),
        policy: value_of(matches, "policy"),
        random: value_of(matches, "random"),
    }
}

/// Parses the arguments of a command; `None` if `clap` knows a command that this function does not.
fn command_of<'a>(
    alloc: Global,
    name: &str,
    matches: &ArgMatches<'a>,
) -> Result<Option<Command<'a>>, ArgsFault>
    ensures range { IfOk result (λ command. IfSome command IsInRange) }
    ensures local { IfOk result (λ command. IfSome command HasItsServer) }
{
    match name {
        "session" => return Ok(Some(Command::Session(session_args(matches)?))),
        "serve" => return Ok(Some(Command::Serve(serve_args(matches)?))),
        "policy" => return Ok(Some(Command::Policy(policy_args(alloc, matches)?))),
        "migrate" => return Ok(Some(Command::Migrate(migrate_args(matches)?))),
        _ => {}
    }
    if let Some(command) = server_command_of(name, matches)? {
        return Ok(Some(Command::Remote(value_of(matches, "via"), command)));
    }
    let Some(command) = operator_command_of(alloc, name, matches)? else {
        return Ok(None);
    };
    Ok(Some(match matches.get_str("via") {
        None => Command::Local(files_of(matches), command),
        Some(socket) => Command::Remote(socket, command),
    }))
}

/// Whether `clap` reports a request for `--help` or `--version` with this kind of error.
fn is_text_asked_for(kind: ErrorKind) -> bool {
    matches!(kind, ErrorKind::DisplayHelp | ErrorKind::DisplayVersion)
}

/// The help or the version that the arguments ask for.
///
/// # Errors
///
/// `Rejected` if they ask for neither, and `Memory`.
fn text_of<'a>(alloc: Global, args: &'a [String]) -> Result<Command<'a>, ArgsFault>
    ensures range { IfOk result IsInRange }
    ensures local { IfOk result HasItsServer }
{
    let program = program(alloc, Usage::Whole)?;
    let Err(error) = program.try_get_matches_from(args) else {
        return Err(ArgsFault::NoCommand);
    };
    if is_text_asked_for(error.kind()) {
        Ok(Command::Text(error))
    } else {
        Err(ArgsFault::from(error))
    }
}

/// Parses the arguments. The first is the program's name.
///
/// # Errors
///
/// `Rejected` if `clap` rejects them, `Value` if a value is out of range, `Memory`.
pub fn read_args<'a>(alloc: Global, args: &'a [String]) -> Result<Command<'a>, ArgsFault>
    ensures range { IfOk result IsInRange }
    ensures local { IfOk result HasItsServer }
{
    let mut program = program(alloc, Usage::Required)?;
    let matches = match program.try_get_matches_from_mut(args) {
        Ok(matches) => matches,
        Err(error) if is_text_asked_for(error.kind()) => return text_of(alloc, args),
        Err(error) => return Err(ArgsFault::from(error)),
    };
    let asked = match matches.subcommand() {
        Some((name, matches)) => command_of(alloc, name, matches)?,
        None => None,
    };
    match asked {
        Some(asked) => Ok(asked),
        None => Err(ArgsFault::from(program.error(
            ErrorKind::MissingSubcommand,
            "a command is needed",
        )?)),
    }
}
