//! Tests of the crates that need no database: `names`, `policy`, `policy_review`, `forms`, `wire`, `routes`, `control` and
//! `contents`, through their public items. In a crate of their own the tests are proved without the code of those
//! crates, which is proved already.
#![tactic(auto)]

#[cfg(test)]
mod answers;
#[cfg(test)]
mod batches;
#[cfg(test)]
mod connections;
#[cfg(test)]
mod content_files;
#[cfg(test)]
mod harness;
#[cfg(test)]
mod heads;
#[cfg(test)]
mod messages;
#[cfg(test)]
mod policies;
#[cfg(test)]
mod policy_reviews;
#[cfg(test)]
mod replies;
#[cfg(test)]
mod requests;
#[cfg(test)]
mod streams;
#[cfg(test)]
mod targets;
#[cfg(test)]
mod texts;
