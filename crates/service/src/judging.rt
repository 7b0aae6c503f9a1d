//! Which heads are refused, and what the others ask for (RFC 9110, Methods, Accept).

ghost use Rattle.std.specs.Prelude.{◌≡◌, ◌≤◌, ◌||◌, [], not, codes, length, map, MatchOption, Ok, Err};
ghost use Rattle.httparse.specs.Grammar.{RequestHead};
ghost use Rattle.names.specs.declared.rules.Rule.TheVariants.{H6};
ghost use Rattle.wire.specs.declared.rules.HeadRule.TheVariants.{H7};
ghost use Rattle.model.specs.Heads.{route_at, query_of, comma_list, accepts, values};
ghost use Rattle.routes.specs.Routes.{route_seen};
ghost use Rattle.routes.specs.Table.{row_of};
ghost use Rattle.wire.specs.Fields.{Shows};
ghost use Rattle.service.specs.Judging.{IsJudged};

use model::Form;
use names::ALLOW_LIMIT;
use routes::{Resource, Route, Routes, query_of};
use thiserror::Error;
use wire::{Head, HeadRule};

/// What an accepted head asks for.
#[derive(Clone, Copy, Debug, PartialEq, Eq)]
pub struct Target<'t> {
    /// The repository, the resource in it, and the route's parameter.
    pub route: Route<'t>,
    /// What the method asks of the resource.
    pub form: Form,
    /// The part of the target after its first question mark.
    pub query: &'t str,
    /// The size of the body that follows the head, in bytes.
    pub size: u64,
}

/// A refused head.
#[derive(Clone, Copy, Debug, PartialEq, Eq, Error)]
#[error("{rule}")]
pub struct Denied {
    /// The first rule that refuses it: H2 to H8.
    pub rule: HeadRule,
    /// If the rule is H7, the methods that the route serves; else empty.
    pub allow: &'static str,
}

/// Returns the route of the head, and what its method asks for there.
///
/// # Errors
///
/// The first of these rules that applies.
///
/// - H2 to H5: [`Head::body_length`] refuses it, which a connection has tried for its own heads.
/// - H6: no route matches its target, or the target is not UTF-8.
/// - H7: the route does not serve its method.
/// - H8: the route replies in JSON, and the head does not accept JSON.
pub fn route_of<'t>(routes: &Routes, head: &Head<'t>) -> Result<Target<'t>, Denied>
    ensures { (h : RequestHead) → Shows head.now h → IsJudged h result }
{
    let size = match head.body_length() {
        Ok(size) => size,
        Err(rule) => return Err(refused_by(rule)),
    };
    let Some((route, query)) = place_of(routes, head) else {
        return Err(refused_by(HeadRule::H6));
    };
    let Some(form) = route.resource.form_of(head.method()) else {
        return Err(not_served(route.resource));
    };
    if !accepts(head, route.resource) {
        return Err(refused_by(HeadRule::H8));
    }
    Ok(Target {
        route,
        form,
        query,
        size,
    })
}

/// The route of the head's target, and the target's query; `None` if no route matches (H6).
fn place_of<'t>(routes: &Routes, head: &Head<'t>) -> Option<(Route<'t>, &'t str)>
    ensures { (h : RequestHead) → Shows head.now h → MatchOption result (route_at h.target ≡ Err H6)
        (λ place. (route_at h.target ≡ Ok (route_seen place.0))
        × (place.1.now ≡ query_of h.target)) }
{
    let Ok(target) = str::from_utf8(head.target()) else {
        return None;
    };
    match routes.find(target) {
        Some(route) => Some((route, query_of(target))),
        None => None,
    }
}

/// Whether the client accepts the content type of the resource's replies.
fn accepts(head: &Head<'_>, resource: Resource) -> bool
    ensures { (h : RequestHead) → Shows head.now h → result
        ≡ (not (row_of resource).is_json || accepts (values (codes "accept") h)) }
{
    !resource.is_json() || head.accepts_json()
}

/// A refusal by a rule that names no methods.
fn refused_by(rule: HeadRule) -> Denied
    ensures rule { result.rule ≡ rule }
    ensures allow { result.allow.now ≡ [] }
{
    Denied { rule, allow: "" }
}

/// The refusal by H7, with the methods that the resource serves.
fn not_served(resource: Resource) -> Denied
    ensures rule { result.rule ≡ H7 }
    ensures allow { result.allow.now ≡ comma_list (map (λ r. r.0) (row_of resource).requests) }
    ensures short { length result.allow.now ≤ ALLOW_LIMIT }
{
    Denied {
        rule: HeadRule::H7,
        allow: resource.allow(),
    }
}
