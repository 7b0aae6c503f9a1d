//! The keys of a policy file.

ghost use Rattle.std.specs.Prelude.{◌≡◌};
ghost use Rattle.policy.specs.Language.{key_name};

/// A key of one of the tables.
#[derive(Clone, Copy, Debug, PartialEq, Eq)]
pub enum Key {
    /// At the top: the address of the server.
    Base,
    /// At the top: the lifetime of a token.
    TokenSeconds,
    /// At the top: the repositories.
    Repo,
    /// At the top: the rows.
    Row,
    /// Of a repository: its name.
    Name,
    /// Of a repository: the ref for a request that names no ref.
    DefaultRef,
    /// Of a repository: how many bytes it may store.
    Quota,
    /// Of a row: whether it allows or denies.
    Effect,
    /// Of a row: the users.
    Users,
    /// Of a row: the repositories.
    Repos,
    /// Of a row: the refs.
    Refs,
    /// Of a row: the paths.
    Paths,
    /// Of a row: the rights.
    Rights,
}

/// The keys at the top of the file.
pub const TOP_KEYS: [Key; 4] = [Key::Base, Key::TokenSeconds, Key::Repo, Key::Row];

/// The keys of a repository.
pub const REPO_KEYS: [Key; 3] = [Key::Name, Key::DefaultRef, Key::Quota];

/// The keys of a row.
pub const ROW_KEYS: [Key; 6] = [
    Key::Effect,
    Key::Users,
    Key::Repos,
    Key::Refs,
    Key::Paths,
    Key::Rights,
];

impl Key {
    /// The name of the key, as written in the file.
    pub fn name(self) -> &'static str
        ensures { result.now ≡ key_name self }
    {
        match self {
            Key::Base => "base",
            Key::TokenSeconds => "token_seconds",
            Key::Repo => "repo",
            Key::Row => "row",
            Key::Name => "name",
            Key::DefaultRef => "default_ref",
            Key::Quota => "quota",
            Key::Effect => "effect",
            Key::Users => "users",
            Key::Repos => "repos",
            Key::Refs => "refs",
            Key::Paths => "paths",
            Key::Rights => "rights",
        }
    }
}
