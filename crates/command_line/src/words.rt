//! The words of an operator's command, as a request to a running server has them.
//!
//! A command has one list of words: its name, and then its arguments in a fixed order.

ghost use Rattle.std.specs.Prelude.{◌≡◌, ◌≢◌, ◌<◌, ◌≤◌, ◌^◌, ◌↔◌, ℕ, Option, [], ◌∷◌, ◌++◌, length, map, slice_index, codes, decimal, string_bytes, IsTrue, IfOk, IfErr, IfSome, IfNone};
ghost use Rattle.command_line.specs.Words.{access_word, operation_word, moment_words, command_words, IsMoment, IsHold, IsCommand, AreNoCommand};
ghost use Rattle.command_line.specs.declared.args.TokenArgs.{TokenArgs};
ghost use Rattle.command_line.specs.declared.args.TokensArgs.{TokensArgs};
ghost use Rattle.command_line.specs.declared.args.MayArgs.{MayArgs};
ghost use Rattle.command_line.specs.declared.args.PushArgs.{PushArgs};
ghost use Rattle.command_line.specs.declared.args.ForeseeArgs.{ForeseeArgs};
ghost use Rattle.command_line.specs.declared.args.RetireArgs.{RetireArgs};
ghost use Rattle.names.specs.declared.texts.UserName.{UserName};
ghost use Rattle.names.specs.declared.texts.RepoName.{RepoName};
ghost use Rattle.names.specs.declared.texts.RefName.{RefName};
ghost use Rattle.names.specs.declared.operations.Operation.{Operation};
ghost use Rattle.policy.specs.declared.access.Access.{Access};
ghost use Rattle.names.specs.Texts.{is_hex_64, last_moment};
ghost use Rattle.names.specs.Names.{user_text, repo_text, ref_text};

use crate::args::{
    ForeseeArgs, LONGEST_HOLD, MayArgs, OperatorCommand, PushArgs, RetireArgs, TokenArgs,
    TokensArgs, number_in,
};
use crate::faults::ArgsFault;
use crate::parameters::{DOWNLOAD, PULL, PUSH, UPLOAD};
use names::{Moment, Oid, Operation, RefName, RepoName, UserName};
use policy::Access;
use std::alloc::{AllocError, Global};

/// Copies of these texts, and then the word of the moment, if there is one.
fn words_with(alloc: Global, texts: &[&str], now: Option<Moment>) -> Result<Vec<String>, AllocError>
    ensures { IfOk result (λ words.
        map string_bytes words.items ≡ map (λ text. text.now) texts.now ++ moment_words now) }
{
    let mut words = Vec::new(alloc);
    for text in texts {
        words.push(String::from_str(alloc, text)?)?;
    }
    if let Some(moment) = now {
        let second = moment.get();
        words.push(format!(in alloc; "{second}")?)?;
    }
    Ok(words)
}

/// The user with this text.
fn user_in(alloc: Global, word: &str) -> Result<UserName, ArgsFault>
    ensures ok { IfOk result (λ user. word.now ≡ user_text user) }
    ensures none { IfErr result (λ fault. fault ≡ ArgsFault.NoCommand →
        (user : UserName) → word.now ≢ user_text user) }
{
    UserName::read(word.to_owned(alloc)?).ok_or(ArgsFault::NoCommand)
}

/// The repository with this text.
fn repo_in(alloc: Global, word: &str) -> Result<RepoName, ArgsFault>
    ensures ok { IfOk result (λ repo. word.now ≡ repo_text repo) }
    ensures none { IfErr result (λ fault. fault ≡ ArgsFault.NoCommand →
        (repo : RepoName) → word.now ≢ repo_text repo) }
{
    RepoName::read(word.to_owned(alloc)?).ok_or(ArgsFault::NoCommand)
}

/// The ref with this text.
fn ref_in(alloc: Global, word: &str) -> Result<RefName, ArgsFault>
    ensures ok { IfOk result (λ ref_name. word.now ≡ ref_text ref_name) }
    ensures none { IfErr result (λ fault. fault ≡ ArgsFault.NoCommand →
        (ref_name : RefName) → word.now ≢ ref_text ref_name) }
{
    RefName::read(word.to_owned(alloc)?).ok_or(ArgsFault::NoCommand)
}

/// The object's name with this text.
fn oid_in(word: &str) -> Result<Oid, ArgsFault>
    ensures ok { IfOk result (λ oid. word.now ≡ oid) }
    ensures none { IfErr result (λ fault.
        fault ≡ ArgsFault.NoCommand → ¬ IsTrue (is_hex_64 word.now)) }
{
    Oid::read(word.as_bytes()).ok_or(ArgsFault::NoCommand)
}

/// The operation with this word.
fn operation_in(word: &str) -> Result<Operation, ArgsFault>
    ensures ok { IfOk result (λ operation. word.now ≡ operation_word operation) }
    ensures none { IfErr result (λ fault. fault ≡ ArgsFault.NoCommand →
        (operation : Operation) → word.now ≢ operation_word operation) }
{
    match word {
        "download" => Ok(Operation::Download),
        "upload" => Ok(Operation::Upload),
        _ => Err(ArgsFault::NoCommand),
    }
}

/// What Git asks for with this word.
fn access_in(word: &str) -> Result<Access, ArgsFault>
    ensures ok { IfOk result (λ access. word.now ≡ access_word access) }
    ensures none { IfErr result (λ fault. fault ≡ ArgsFault.NoCommand →
        (access : Access) → word.now ≢ access_word access) }
{
    match word {
        "pull" => Ok(Access::Pull),
        "push" => Ok(Access::Push),
        _ => Err(ArgsFault::NoCommand),
    }
}

/// Whether the text has a zero before another byte.
fn has_leading_zero(text: &str) -> bool
    ensures { IsTrue result ↔ ((1 < length text.now) × (slice_index text.now 0 ≡ 48)) }
{
    text.len() > 1 && text.starts_with('0')
}

/// The number with this decimal of at most 18 digits; `None` for any other text, as one with a leading zero.
fn decimal_in(text: &str) -> Option<u64>
    ensures some { IfSome result (λ number. text.now ≡ decimal number) }
    ensures none { IfNone result ((number : ℕ) → number < 10 ^ 18 → text.now ≢ decimal number) }
{
    if has_leading_zero(text) {
        return None;
    }
    number_in(text)
}

/// The moment with this decimal; `None` for any other text.
fn decimal_moment(text: &str) -> Option<Moment>
    ensures some { IfSome result (λ moment. text.now ≡ decimal moment) }
    ensures none { IfNone result
        ((moment : ℕ) → moment ≤ last_moment → text.now ≢ decimal moment) }
{
    Moment::read(decimal_in(text)?)
}

/// The time of `hold` with this decimal, in seconds; `None` for any other text.
fn decimal_hold(text: &str) -> Option<u64>
    ensures some { IfSome result (λ seconds. text.now ≡ decimal seconds) }
    ensures range { IfSome result IsHold }
    ensures none { IfNone result ((seconds : ℕ) → IsHold seconds → text.now ≢ decimal seconds) }
{
    let seconds = decimal_in(text)?;
    if 1 <= seconds && seconds <= LONGEST_HOLD {
        Some(seconds)
    } else {
        None
    }
}

/// The moment that these words name; `None` if there are no words.
fn now_in(words: &[String]) -> Result<Option<Moment>, ArgsFault>
    ensures ok { IfOk result (λ now. map string_bytes words.now ≡ moment_words now) }
    ensures range { IfOk result IsMoment }
    ensures none { IfErr result (λ fault. fault ≡ ArgsFault.NoCommand →
        (now : Option ℕ) → IsMoment now → map string_bytes words.now ≢ moment_words now) }
{
    match words {
        [] => Ok(None),
        [word] => match decimal_moment(word) {
            Some(moment) => Ok(Some(moment)),
            None => Err(ArgsFault::NoCommand),
        },
        _ => Err(ArgsFault::NoCommand),
    }
}

/// The arguments of `authenticate` with these words.
fn read_token_args<'a>(alloc: Global, words: &'a [String]) -> Result<TokenArgs<'a>, ArgsFault>
    ensures ok { IfOk result (λ args. codes "authenticate" ∷ map string_bytes words.now
        ≡ command_words (OperatorCommand.Authenticate args)) }
    ensures range { IfOk result (λ args. IsMoment args.now) }
    ensures none { IfErr result (λ fault. fault ≡ ArgsFault.NoCommand →
        (args : TokenArgs) → IsMoment args.now → codes "authenticate" ∷ map string_bytes words.now
        ≢ command_words (OperatorCommand.Authenticate args)) }
{
    let [user, path, operation, now @ ..] = words else {
        return Err(ArgsFault::NoCommand);
    };
    Ok(TokenArgs {
        user: user_in(alloc, user)?,
        now: now_in(now)?,
        path: path.as_str(),
        operation: operation_in(operation)?,
    })
}

/// The arguments of `tokens` with these words.
fn read_tokens_args(alloc: Global, words: &[String]) -> Result<TokensArgs, ArgsFault>
    ensures ok { IfOk result (λ args. codes "tokens" ∷ map string_bytes words.now
        ≡ command_words (OperatorCommand.Tokens args)) }
    ensures range { IfOk result (λ args. IsMoment args.now) }
    ensures none { IfErr result (λ fault. fault ≡ ArgsFault.NoCommand →
        (args : TokensArgs) → IsMoment args.now → codes "tokens" ∷ map string_bytes words.now
        ≢ command_words (OperatorCommand.Tokens args)) }
{
    let [repo, now @ ..] = words else {
        return Err(ArgsFault::NoCommand);
    };
    Ok(TokensArgs {
        repo: repo_in(alloc, repo)?,
        now: now_in(now)?,
    })
}

/// The arguments of `may` with these words.
fn read_may_args(alloc: Global, words: &[String]) -> Result<MayArgs, ArgsFault>
    ensures ok { IfOk result (λ args. codes "may" ∷ map string_bytes words.now
        ≡ command_words (OperatorCommand.May args)) }
    ensures none { IfErr result (λ fault. fault ≡ ArgsFault.NoCommand →
        (args : MayArgs) → codes "may" ∷ map string_bytes words.now
        ≢ command_words (OperatorCommand.May args)) }
{
    let [user, repo, access] = words else {
        return Err(ArgsFault::NoCommand);
    };
    Ok(MayArgs {
        user: user_in(alloc, user)?,
        repo: repo_in(alloc, repo)?,
        access: access_in(access)?,
    })
}

/// The arguments of `pushcheck` with these words.
fn read_push_args(alloc: Global, words: &[String]) -> Result<PushArgs, ArgsFault>
    ensures ok { IfOk result (λ args. codes "pushcheck" ∷ map string_bytes words.now
        ≡ command_words (OperatorCommand.PushCheck args)) }
    ensures none { IfErr result (λ fault. fault ≡ ArgsFault.NoCommand →
        (args : PushArgs) → codes "pushcheck" ∷ map string_bytes words.now
        ≢ command_words (OperatorCommand.PushCheck args)) }
{
    let [user, repo, ref_name] = words else {
        return Err(ArgsFault::NoCommand);
    };
    Ok(PushArgs {
        user: user_in(alloc, user)?,
        repo: repo_in(alloc, repo)?,
        ref_name: ref_in(alloc, ref_name)?,
    })
}

/// The arguments of `foresee` with these words.
fn read_foresee_args(alloc: Global, words: &[String]) -> Result<ForeseeArgs, ArgsFault>
    ensures ok { IfOk result (λ args. codes "foresee" ∷ map string_bytes words.now
        ≡ command_words (OperatorCommand.Foresee args)) }
    ensures range { IfOk result (λ args. IsMoment args.now) }
    ensures none { IfErr result (λ fault. fault ≡ ArgsFault.NoCommand →
        (args : ForeseeArgs) → IsMoment args.now → codes "foresee" ∷ map string_bytes words.now
        ≢ command_words (OperatorCommand.Foresee args)) }
{
    let [user, repo, now @ ..] = words else {
        return Err(ArgsFault::NoCommand);
    };
    Ok(ForeseeArgs {
        user: user_in(alloc, user)?,
        repo: repo_in(alloc, repo)?,
        now: now_in(now)?,
    })
}

/// The repository with this one word.
fn read_repo(alloc: Global, words: &[String]) -> Result<RepoName, ArgsFault>
    ensures ok { IfOk result (λ repo. map string_bytes words.now ≡ repo_text repo ∷ []) }
    ensures none { IfErr result (λ fault. fault ≡ ArgsFault.NoCommand →
        (repo : RepoName) → map string_bytes words.now ≢ repo_text repo ∷ []) }
{
    let [repo] = words else {
        return Err(ArgsFault::NoCommand);
    };
    repo_in(alloc, repo)
}

/// The arguments of `retire` with these words.
fn read_retire_args(alloc: Global, words: &[String]) -> Result<RetireArgs, ArgsFault>
    ensures ok { IfOk result (λ args. codes "retire" ∷ map string_bytes words.now
        ≡ command_words (OperatorCommand.Retire args)) }
    ensures range { IfOk result (λ args. IsTrue (is_hex_64 args.oid)) }
    ensures none { IfErr result (λ fault. fault ≡ ArgsFault.NoCommand →
        (args : RetireArgs) → IsTrue (is_hex_64 args.oid) → codes "retire" ∷ map string_bytes words.now
        ≢ command_words (OperatorCommand.Retire args)) }
{
    let [repo, oid] = words else {
        return Err(ArgsFault::NoCommand);
    };
    Ok(RetireArgs {
        repo: repo_in(alloc, repo)?,
        oid: oid_in(oid)?,
    })
}

/// The time of `hold` with this one word, in seconds.
fn read_hold(words: &[String]) -> Result<u64, ArgsFault>
    ensures ok { IfOk result (λ seconds. map string_bytes words.now ≡ decimal seconds ∷ []) }
    ensures range { IfOk result IsHold }
    ensures none { IfErr result (λ fault. fault ≡ ArgsFault.NoCommand →
        (seconds : ℕ) → IsHold seconds → map string_bytes words.now ≢ decimal seconds ∷ []) }
{
    match words {
        [word] => match decimal_hold(word) {
            Some(seconds) => Ok(seconds),
            None => Err(ArgsFault::NoCommand),
        },
        _ => Err(ArgsFault::NoCommand),
    }
}

impl TokenArgs<'_> {
    /// The path, borrowed from the arguments.
    fn path(&self) -> &str
        ensures { result.now ≡ self.entry.now.path.now }
    {
        self.path
    }

    /// The word of the operation.
    fn operation_word(&self) -> &str
        ensures { result.now ≡ operation_word self.entry.now.operation }
    {
        match self.operation {
            Operation::Download => DOWNLOAD,
            Operation::Upload => UPLOAD,
        }
    }

    /// The words of `authenticate` with these arguments.
    fn words(&self, alloc: Global) -> Result<Vec<String>, AllocError>
        ensures { IfOk result (λ words. map string_bytes words.items
            ≡ command_words (OperatorCommand.Authenticate self.entry.now)) }
    {
        let texts = [
            "authenticate",
            self.user.as_str(),
            self.path(),
            self.operation_word(),
        ];
        words_with(alloc, &texts, self.now)
    }
}

impl MayArgs {
    /// The word of what Git asks for.
    fn access_word(&self) -> &str
        ensures { result.now ≡ access_word self.now.access }
    {
        match self.access {
            Access::Pull => PULL,
            Access::Push => PUSH,
        }
    }

    /// The words of `may` with these arguments.
    fn words(&self, alloc: Global) -> Result<Vec<String>, AllocError>
        ensures { IfOk result (λ words. map string_bytes words.items
            ≡ command_words (OperatorCommand.May self.now)) }
    {
        let texts = [
            "may",
            self.user.as_str(),
            self.repo.as_str(),
            self.access_word(),
        ];
        words_with(alloc, &texts, None)
    }
}

impl PushArgs {
    /// The words of `pushcheck` with these arguments.
    fn words(&self, alloc: Global) -> Result<Vec<String>, AllocError>
        ensures { IfOk result (λ words. map string_bytes words.items
            ≡ command_words (OperatorCommand.PushCheck self.now)) }
    {
        let texts = [
            "pushcheck",
            self.user.as_str(),
            self.repo.as_str(),
            self.ref_name.as_str(),
        ];
        words_with(alloc, &texts, None)
    }
}

/// The words of `hold` with this time in seconds.
fn hold_words(alloc: Global, seconds: u64) -> Result<Vec<String>, AllocError>
    ensures { IfOk result (λ words. map string_bytes words.items
        ≡ command_words (OperatorCommand.Hold seconds)) }
{
    let seconds = format!(in alloc; "{seconds}")?;
    words_with(alloc, &["hold", seconds.as_str()], None)
}

impl<'a> OperatorCommand<'a> {
    /// Returns the words of the command: its name, and then its arguments in a fixed order.
    ///
    /// # Errors
    ///
    /// Memory ran out.
    pub fn words(&self, alloc: Global) -> Result<Vec<String>, AllocError>
        ensures { IfOk result (λ words. map string_bytes words.items ≡ command_words self.now) }
    {
        match self {
            OperatorCommand::Authenticate(args) => args.words(alloc),
            OperatorCommand::Tokens(args) => {
                words_with(alloc, &["tokens", args.repo.as_str()], args.now)
            }
            OperatorCommand::Prune(now) => words_with(alloc, &["prune"], *now),
            OperatorCommand::May(args) => args.words(alloc),
            OperatorCommand::PushCheck(args) => args.words(alloc),
            OperatorCommand::Foresee(args) => {
                let texts = ["foresee", args.user.as_str(), args.repo.as_str()];
                words_with(alloc, &texts, args.now)
            }
            OperatorCommand::Locks(repo) => words_with(alloc, &["locks", repo.as_str()], None),
            OperatorCommand::Objects(repo) => words_with(alloc, &["objects", repo.as_str()], None),
            OperatorCommand::Usage(now) => words_with(alloc, &["usage"], *now),
            OperatorCommand::Check => words_with(alloc, &["check"], None),
            OperatorCommand::Repair => words_with(alloc, &["repair"], None),
            OperatorCommand::Sweep => words_with(alloc, &["sweep"], None),
            OperatorCommand::Retire(args) => {
                let texts = ["retire", args.repo.as_str(), args.oid.text()];
                words_with(alloc, &texts, None)
            }
            OperatorCommand::Status => words_with(alloc, &["status"], None),
            OperatorCommand::Hold(seconds) => hold_words(alloc, *seconds),
            OperatorCommand::Reload => words_with(alloc, &["reload"], None),
            OperatorCommand::Stop => words_with(alloc, &["stop"], None),
        }
    }

    /// Returns the command with these words.
    ///
    /// # Errors
    ///
    /// `NoCommand` if the words are those of no command, `Memory`.
    pub fn read(alloc: Global, words: &'a [String]) -> Result<OperatorCommand<'a>, ArgsFault>
        ensures ok { IfOk result (λ command. map string_bytes words.now ≡ command_words command) }
        ensures range { IfOk result IsCommand }
        ensures none { IfErr result (λ fault.
            fault ≡ ArgsFault.NoCommand → AreNoCommand (map string_bytes words.now)) }
    {
        let [name, rest @ ..] = words else {
            return Err(ArgsFault::NoCommand);
        };
        match name.as_str() {
            "authenticate" => Ok(OperatorCommand::Authenticate(read_token_args(alloc, rest)?)),
            "tokens" => Ok(OperatorCommand::Tokens(read_tokens_args(alloc, rest)?)),
            "prune" => Ok(OperatorCommand::Prune(now_in(rest)?)),
            "may" => Ok(OperatorCommand::May(read_may_args(alloc, rest)?)),
            "pushcheck" => Ok(OperatorCommand::PushCheck(read_push_args(alloc, rest)?)),
            "foresee" => Ok(OperatorCommand::Foresee(read_foresee_args(alloc, rest)?)),
            "locks" => Ok(OperatorCommand::Locks(read_repo(alloc, rest)?)),
            "objects" => Ok(OperatorCommand::Objects(read_repo(alloc, rest)?)),
            "usage" => Ok(OperatorCommand::Usage(now_in(rest)?)),
            "check" if rest.is_empty() => Ok(OperatorCommand::Check),
            "repair" if rest.is_empty() => Ok(OperatorCommand::Repair),
            "sweep" if rest.is_empty() => Ok(OperatorCommand::Sweep),
            "retire" => Ok(OperatorCommand::Retire(read_retire_args(alloc, rest)?)),
            "status" if rest.is_empty() => Ok(OperatorCommand::Status),
            "hold" => Ok(OperatorCommand::Hold(read_hold(rest)?)),
            "reload" if rest.is_empty() => Ok(OperatorCommand::Reload),
            "stop" if rest.is_empty() => Ok(OperatorCommand::Stop),
            _ => Err(ArgsFault::NoCommand),
        }
    }
}
