//! Messages that differ in one place, and the rule that refuses each.

use crate::connections::{expect_end, expect_text, sent_by};
use crate::databases::{Database, InMemory};
use crate::running::{Located, Setting, World, located, world_after};
use crate::script::Step;
use crate::texts::Names;
use calls::{Fault, repo};
use service::{End, Served};

/// What a server has to do with a message: the names of its replies, whether it then closes, and the number of locks
/// made.
#[derive(Clone, Copy)]
struct Wanted<'w> {
    replies: &'w [&'w str],
    closes: bool,
    locks: u32,
}

impl<'w> Wanted<'w> {
    /// The connection ends with the client's input.
    fn open(replies: &'w [&'w str], locks: u32) -> Wanted<'w> {
        Wanted {
            replies,
            closes: false,
            locks,
        }
    }

    /// The server closes it, and has made no lock.
    fn closed(replies: &'w [&'w str]) -> Wanted<'w> {
        Wanted {
            replies,
            closes: true,
            locks: 0,
        }
    }
}

/// Serves the message, and compares.
fn expect<S: Database + InMemory>(
    setting: Setting<'_>,
    names: &Names,
    world: World<S>,
    message: &[u8],
    wanted: Wanted<'_>,
) -> Result<(), Fault> {
    let World {
        mut store,
        mut scene,
    } = world;
    scene.asked.extend_from_slice(message)?;
    for name in wanted.replies {
        scene.wanted.extend_from_slice(names.text(name)?)?;
    }
    let sent = sent_by(setting.alloc, &mut store, &scene)?;
    expect_text(setting.alloc, scene.wanted.as_slice(), sent.text.as_slice())?;
    let end = if wanted.closes {
        End::Closed
    } else {
        End::InputEnded
    };
    let served = Served {
        answered: wanted.replies.len(),
        end,
    };
    expect_end(setting.alloc, served, &sent)?;
    let made = store.made(&repo(setting.alloc, "studio/film")?)?;
    if made == wanted.locks {
        return Ok(());
    }
    Err(Fault::Differs(format!(in setting.alloc; "{made} locks were made")?))
}

/// The rows of a step, over the steps before it.
#[derive(Clone, Copy)]
struct Table<'s> {
    setting: Setting<'s>,
    before: &'s [Step],
    step: &'s Step,
}

impl Table<'_> {
    /// Serves the message to a new server, and compares.
    fn expect<S: Database + InMemory>(
        &self,
        names: &mut Names,
        message: &[u8],
        wanted: Wanted<'_>,
    ) -> Result<(), Located> {
        let world = world_after::<S>(self.setting, names, self.before)?;
        located(
            self.step.line,
            expect(self.setting, names, world, message, wanted),
        )
    }

    /// The message of a row, and the same with the worked lock after it.
    fn messages(&self, names: &mut Names, text: &str) -> Result<(Vec<u8>, Vec<u8>), Fault> {
        let text = names.written(text)?;
        names.define("@", text)?;
        let message = names.of(self.step, "")?;
        let both = [message.as_slice(), names.text("lock")?].concat(names.alloc)?;
        Ok((message, both))
    }

    /// Judges the message of a row, alone and with the worked lock after it. That lock is ignored after a head that is
    /// refused, which closes; it is answered after any other message, as the first lock if that message was refused.
    fn judge<S: Database + InMemory>(&self, names: &mut Names, row: &str) -> Result<(), Located> {
        let (code, text) = row.split_once(' ').unwrap_or((row, ""));
        let (message, both) = located(self.step.line, self.messages(names, text))?;
        if code == "201" {
            let replies = &["created", "held"];
            return self.expect::<S>(names, both.as_slice(), Wanted::open(replies, 1));
        }
        if code.starts_with('H') {
            let replies = &[code];
            self.expect::<S>(names, message.as_slice(), Wanted::closed(replies))?;
            return self.expect::<S>(names, both.as_slice(), Wanted::closed(replies));
        }
        self.expect::<S>(names, message.as_slice(), Wanted::open(&[code], 0))?;
        self.expect::<S>(names, both.as_slice(), Wanted::open(&[code, "created"], 1))
    }
}

/// Judges the messages of the step's rows, each by a server on which the steps before were taken. Returns their number.
pub(crate) fn judge<S: Database + InMemory>(
    setting: Setting<'_>,
    names: &mut Names,
    before: &[Step],
    step: &Step,
) -> Result<u64, Located> {
    let table = Table {
        setting,
        before,
        step,
    };
    // The names that the steps before define.
    world_after::<S>(setting, names, before)?;
    for row in step.rows.iter() {
        table.judge::<S>(names, row.as_str())?;
    }
    Ok(step.rows.len() as u64)
}
