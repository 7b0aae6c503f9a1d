//! Routing: which repository and resource a request's target names (Git LFS API, Server Discovery).
//!
//! A client requests `/studio/film.git/info/lfs/locks`, perhaps followed by a question mark and a
//! query. [`Routes::find`] returns the repository `film` of `studio`, the resource
//! [`Resource::Locks`] in it, and the route's parameter, such as the 7 in `/locks/7/unlock`; or `None`
//! if no route has that path, which is H6. Targets are compared byte by byte: nothing is decoded or
//! normalized, so no two of them name the same repository. The resource gives what each method asks
//! for.
//!
//! This crate does not test whether the repository exists, nor whether the caller may know of it.
#![tactic(auto)]

mod table;
mod target;

pub use table::{Resource, Route, Routes};
pub use target::{path_of, query_of};
