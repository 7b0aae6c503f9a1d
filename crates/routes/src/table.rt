//! The table of routes, and the router over it.

ghost use Rattle.std.specs.Prelude.{◌≡◌, ◌∷◌, [], None, OnOk, option_map};
ghost use Rattle.matchit.specs.Order.{placed};
ghost use Rattle.matchit.specs.Router.{nearest};
ghost use Rattle.model.specs.Heads.{form_of, post};
ghost use Rattle.routes.specs.Patterns.{patterns};
ghost use Rattle.routes.specs.Table.{pattern_of, rows_in, table_routed};

use crate::target::{part_at, path_of, without_git};
use matchit::{InsertError, Router};
use model::Form;
use names::ALLOW_LIMIT;
use std::alloc::{AllocError, Global};

/// A resource in a repository: a row of the table of routes.
#[derive(Clone, Copy, Debug, PartialEq, Eq, Hash)]
pub enum Resource {
    /// The batches of objects: `/objects/batch` after the repository's address.
    Batch,
    /// The locks: `/locks`.
    Locks,
    /// The locks that a push is checked against: `/locks/verify`.
    VerifyLocks,
    /// The release of a lock: `/locks/{id}/unlock`.
    Unlock,
    /// The content of an object: `/content/{oid}`.
    Content,
    /// The verification of an upload: `/verify`.
    Verify,
}

/// Where the parameter is in a path: `/OWNER/NAME.git/info/lfs/locks/ID/unlock` or
/// `/OWNER/NAME.git/info/lfs/content/OID`, counted from the empty part before the first slash.
const PARAMETER_PLACE: usize = 6;

/// The router over the table.
#[derive(Drop)]
pub struct Routes {
    router: Router<Resource>,
    ghost rows: { rows_in router ≡ patterns table_routed },
}

/// The route of a target.
#[derive(Clone, Copy, Debug, PartialEq, Eq)]
pub struct Route<'t> {
    /// The repository's owner. It is not empty, and may not be a valid name.
    pub owner: &'t str,
    /// The repository's name in the owner's folder, without `.git`. It may not be a valid name.
    pub name: &'t str,
    /// The resource in the repository.
    pub resource: Resource,
    /// The route's parameter in the path; empty if the route has none.
    pub parameter: &'t str,
}

impl Resource {
    ghost use Rattle.std.specs.Prelude.{◌≡◌, ◌≤◌, IsOkAnd, drop, length, map, option_map};
    ghost use Rattle.matchit.specs.Route.{parse_route};
    ghost use Rattle.names.specs.Texts.{parts};
    ghost use Rattle.model.specs.Heads.{form_of, comma_list, parameter_in, under_lfs};
    ghost use Rattle.routes.specs.Table.{row_of, pattern_of};

    /// The request that the method makes here; `None` if the method is not served (H7).
    ///
    /// Methods are compared byte by byte (RFC 9110, Methods).
    pub fn form_of(self, method: &[u8]) -> Option<Form>
        ensures { result ≡ form_of method.now (row_of self).requests }
    {
        match self {
            Resource::Batch => posted(method, Form::Batch),
            Resource::Locks => {
                if method == b"GET".as_slice() {
                    Some(Form::List)
                } else {
                    posted(method, Form::Lock)
                }
            }
            Resource::VerifyLocks => posted(method, Form::VerifyLocks),
            Resource::Unlock => posted(method, Form::Unlock),
            Resource::Content => {
                if method == b"GET".as_slice() {
                    Some(Form::Get)
                } else if method == b"PUT".as_slice() {
                    Some(Form::Put)
                } else {
                    None
                }
            }
            Resource::Verify => posted(method, Form::Verify),
        }
    }

    /// The methods that are served here, separated by a comma and a space: the value of `Allow` in the
    /// reply to any other method (RFC 9110, Allow).
    pub fn allow(self) -> &'static str
        ensures methods { result.now ≡ comma_list (map (λ r. r.0) (row_of self).requests) }
        ensures short { length result.now ≤ ALLOW_LIMIT }
    {
        match self {
            Resource::Locks => "GET, POST",
            Resource::Batch | Resource::VerifyLocks | Resource::Unlock | Resource::Verify => "POST",
            Resource::Content => "GET, PUT",
        }
    }

    /// Whether each reply from here is JSON, so the client has to accept it (H8).
    pub fn is_json(self) -> bool
        ensures { result ≡ (row_of self).is_json }
    {
        match self {
            Resource::Batch | Resource::Locks | Resource::VerifyLocks => true,
            Resource::Unlock | Resource::Verify => true,
            Resource::Content => false,
        }
    }

    /// The pattern of the whole path, in the syntax of the router.
    fn pattern(self) -> &'static str
        ensures { IsOkAnd (parse_route result.now) (λ scan. scan.pattern ≡ pattern_of self) }
    {
        match self {
            Resource::Batch => "/{owner}/{name}/info/lfs/objects/batch",
            Resource::Locks => "/{owner}/{name}/info/lfs/locks",
            Resource::VerifyLocks => "/{owner}/{name}/info/lfs/locks/verify",
            Resource::Unlock => "/{owner}/{name}/info/lfs/locks/{id}/unlock",
            Resource::Content => "/{owner}/{name}/info/lfs/content/{oid}",
            Resource::Verify => "/{owner}/{name}/info/lfs/verify",
        }
    }

    /// The resource's parameter in a path; empty if it has none.
    fn parameter_in(self, path: &str) -> &str
        ensures { result.now
            ≡ parameter_in (under_lfs (row_of self).rest) (drop 3 (parts path.now)) }
    {
        match self {
            Resource::Batch | Resource::Locks | Resource::VerifyLocks | Resource::Verify => "",
            Resource::Unlock | Resource::Content => part_at(path, PARAMETER_PLACE).unwrap_or(""),
        }
    }
}

/// The request that POST makes; `None` for any other method.
fn posted(method: &[u8], form: Form) -> Option<Form>
    ensures { result ≡ form_of method.now (post form ∷ []) }
{
    if method == b"POST".as_slice() {
        Some(form)
    } else {
        None
    }
}

impl Route<'_> {
    ghost use Rattle.std.specs.Prelude.{◌≡◌, IfOk, string_bytes};
    ghost use Rattle.routes.specs.Routes.{route_seen};

    /// Returns the text OWNER/NAME, which may not be a valid repository name.
    ///
    /// # Errors
    ///
    /// Fails only if memory runs out.
    pub fn repo_text(&self, alloc: Global) -> Result<String, AllocError>
        ensures { IfOk result (λ text. string_bytes text ≡ (route_seen self.now).repo) }
    {
        let mut text = String::from_str(alloc, self.owner)?;
        text.push_str("/")?;
        text.push_str(self.name)?;
        Ok(text)
    }
}

/// Adds the resource's pattern, which conflicts with none in the router.
///
/// # Errors
///
/// Fails only if memory runs out.
fn add(router: &mut Router<Resource>, resource: Resource) -> Result<(), AllocError>
    requires { nearest (pattern_of resource) (rows_in router.old) ≡ None }
    ensures { OnOk result
        (rows_in router.new ≡ placed (pattern_of resource, resource) (rows_in router.old)) }
{
    match router.insert(resource.pattern(), resource) {
        Ok(()) => Ok(()),
        Err(error) => match error {
            InsertError::OutOfMemory => Err(AllocError),
            _ => unreachable!(),
        },
    }
}

impl Routes {
    ghost use Rattle.std.specs.Prelude.{◌≡◌, MatchOption, Ok, Err};
    ghost use Rattle.names.specs.declared.rules.Rule.TheVariants.{H6};
    ghost use Rattle.model.specs.Heads.{route_at};
    ghost use Rattle.routes.specs.Table.{resource_at};
    ghost use Rattle.routes.specs.Routes.{route_seen};

    /// Builds the router over the table.
    ///
    /// # Errors
    ///
    /// Fails only if memory runs out: no two rows of the table conflict.
    pub fn new(alloc: Global) -> Result<Self, AllocError> {
        let mut router = Router::new(alloc);
        add(&mut router, Resource::Batch)?;
        add(&mut router, Resource::Locks)?;
        add(&mut router, Resource::VerifyLocks)?;
        add(&mut router, Resource::Unlock)?;
        add(&mut router, Resource::Content)?;
        add(&mut router, Resource::Verify)?;
        Ok(Routes { router })
    }

    /// Returns the route of a target; `None` if no route has its path (H6).
    ///
    /// The path is the target up to its first question mark: `/OWNER/NAME.git/info/lfs/..`. None of its
    /// parts is empty, nor does it end in a slash.
    pub fn find<'t>(&self, target: &'t str) -> Option<Route<'t>>
        ensures { MatchOption result (route_at target.now ≡ Err H6)
            (λ route. route_at target.now ≡ Ok (route_seen route)) }
    {
        let path = path_of(target);
        let Some(resource) = self.resource_at(path) else {
            return None;
        };
        let Some(owner) = part_at(path, 1) else {
            return None;
        };
        let Some(part) = part_at(path, 2) else {
            return None;
        };
        match without_git(part) {
            Some(name) => Some(Route {
                owner,
                name,
                resource,
                parameter: resource.parameter_in(path),
            }),
            None => None,
        }
    }

    /// The resource whose row in the table the path fits.
    fn resource_at(&self, path: &str) -> Option<Resource>
        ensures { result ≡ resource_at path.now }
    {
        match self.router.at(path) {
            Ok(found) => Some(*found.value),
            Err(_) => None,
        }
    }
}
