//! Where a database has the contents of objects.

ghost use Rattle.std.specs.Prelude.{◌≡◌};
ghost use Rattle.tables.specs.Layout.{number_of, version_of, meta_text};
ghost use Rattle.tables.specs.Making.{insert_meta_text};

/// Where a database has the contents of objects. Each layout is a version of the database, with a number of its own.
#[derive(Clone, Copy, Debug, PartialEq, Eq)]
pub enum Layout {
    /// In rows of `chunks`: version 2.
    Rows,
    /// The larger ones are in a file, and a row of `chunks` says where: version 3.
    Places,
}

impl Layout {
    /// The number of the version, which the row of `meta` has.
    pub fn number(self) -> u32
        ensures { result ≡ number_of (version_of self) }
    {
        match self {
            Layout::Rows => 2,
            Layout::Places => 3,
        }
    }

    /// The statement that creates `meta`.
    pub(crate) fn meta_text(self) -> &'static str
        ensures { result.now ≡ meta_text (version_of self) }
    {
        match self {
            Layout::Rows => {
                "CREATE TABLE meta (one INTEGER PRIMARY KEY CHECK (one = 1), version INTEGER NOT NULL CHECK (version = 2)) STRICT"
            }
            Layout::Places => {
                "CREATE TABLE meta (one INTEGER PRIMARY KEY CHECK (one = 1), version INTEGER NOT NULL CHECK (version = 3)) STRICT"
            }
        }
    }

    /// The statement that adds the row of `meta`.
    pub(crate) fn insert_meta_text(self) -> &'static str
        ensures { result.now ≡ insert_meta_text (version_of self) }
    {
        match self {
            Layout::Rows => "INSERT INTO meta (one, version) VALUES (1, 2)",
            Layout::Places => "INSERT INTO meta (one, version) VALUES (1, 3)",
        }
    }
}
