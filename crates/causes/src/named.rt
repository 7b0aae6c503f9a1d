//! What the arguments of a command name.

use command_line::{Command, OperatorCommand};
use names::RepoName;

/// What the arguments of a command name, and may have caused its failure. `None` for what it does not name.
#[derive(Clone, Copy, Debug)]
pub struct Named<'a> {
    /// The database file.
    pub db: Option<&'a str>,
    /// The policy file.
    pub policy: Option<&'a str>,
    /// The file of random bytes.
    pub random: Option<&'a str>,
    /// The address of a server.
    pub listen: Option<&'a str>,
    /// The control socket that a server makes.
    pub control: Option<&'a str>,
    /// The control socket of the server that is asked.
    pub via: Option<&'a str>,
    /// The repository, or the path of a Git remote that names one.
    pub repo: Option<&'a str>,
}

/// The name of a file; `None` for an empty one, which a command has that takes no such file.
fn file_in(name: &str) -> Option<&str> {
    if name.is_empty() { None } else { Some(name) }
}

/// The repository that a command names by its name.
fn repo_name_in<'a>(command: &'a OperatorCommand<'_>) -> Option<&'a RepoName> {
    match command {
        OperatorCommand::Tokens(args) => Some(&args.repo),
        OperatorCommand::PushCheck(args) => Some(&args.repo),
        OperatorCommand::Foresee(args) => Some(&args.repo),
        OperatorCommand::Locks(repo) => Some(repo),
        OperatorCommand::Objects(repo) => Some(repo),
        OperatorCommand::Retire(args) => Some(&args.repo),
        _ => None,
    }
}

/// The repository that a command names, by its name or by the path of a Git remote.
fn repo_in<'a>(command: &'a OperatorCommand<'_>) -> Option<&'a str> {
    if let OperatorCommand::Authenticate(args) = command {
        return Some(args.path);
    }
    repo_name_in(command).map(|repo| repo.as_str())
}

impl<'a> Named<'a> {
    /// No name at all.
    pub const NOTHING: Named<'static> = Named {
        db: None,
        policy: None,
        random: None,
        listen: None,
        control: None,
        via: None,
        repo: None,
    };

    /// What the arguments of the command name.
    pub fn of(command: &'a Command<'_>) -> Named<'a> {
        match command {
            Command::Text(_) => Named::NOTHING,
            Command::Session(args) => Named {
                db: Some(args.db),
                policy: Some(args.policy),
                ..Named::NOTHING
            },
            Command::Serve(args) => Named {
                db: Some(args.db),
                policy: Some(args.policy),
                listen: Some(args.listen),
                control: args.control,
                ..Named::NOTHING
            },
            Command::Policy(args) => Named {
                policy: Some(args.policy),
                ..Named::NOTHING
            },
            Command::Migrate(args) => Named {
                db: Some(args.db),
                ..Named::NOTHING
            },
            Command::Local(files, command) => Named {
                db: Some(files.db),
                policy: file_in(files.policy),
                random: file_in(files.random),
                repo: repo_in(command),
                ..Named::NOTHING
            },
            Command::Remote(socket, command) => Named {
                via: Some(*socket),
                repo: repo_in(command),
                ..Named::NOTHING
            },
        }
    }
}
