//! The response to the next message of a connection.

ghost use Rattle.std.specs.Prelude.{option_map, ◌≡◌, ◌≢◌, ◌≤◌, ◌<◌, [], ◌++◌, ℕ, List, true, false, length, IfOk, IfErr, OnOk, Err};
ghost use Rattle.std.specs.Io.KnownBytes.{Consumes, IsAtEnd};
ghost use Rattle.httparse.specs.Grammar.{RequestHead};
ghost use Rattle.names.specs.Streams.{HasGrown};
ghost use Rattle.model.specs.Heads.{content_length};
ghost use Rattle.model.specs.Answers.{by_rule, store_refusal};
ghost use Rattle.model.specs.Policy.{repo_named};
ghost use Rattle.model.specs.Stream.{BeginsWithHead};
ghost use Rattle.refinement.specs.Left.{From};
ghost use Rattle.desk.specs.Asking.{setting_of};
ghost use Rattle.desk.specs.Replies.{IsReplyOf};
ghost use Rattle.wire.specs.Connections.{waiting, weight, IsAt};
ghost use Rattle.wire.specs.States.{source_of, body_left, IsOpen, HandsOut};
ghost use Rattle.wire.specs.HeadRules.{rule_seen};
ghost use Rattle.names.specs.Names.{repo_text};
ghost use Rattle.policy.specs.Values.{policy_view};
ghost use Rattle.service.specs.Judging.{is_put};
ghost use Rattle.service.specs.Messages.{Asks};
ghost use Rattle.service.specs.Responding.{IsEarly, RespondsWith, leaves_body};
ghost use Rattle.service.specs.Turns.{Responds};

use crate::ends::End;
use crate::judging::Denied;
use crate::message::{Asked, HeadFault, read_head, read_request};
use crate::refusals::head_refused;
use crate::turn::Setting;
use desk::{Reply, answer};
use forms::Request;
use model::Form;
use names::{ALLOW_LIMIT, BodyFault, RepoName, Rule, Source};
use policy::Policy;
use std::alloc::Global;
use store::Store;
use wire::{Conn, Inflow, Stop, WholeFault};

/// A reply, and how it is sent.
#[derive(Debug, Drop)]
pub(crate) struct Response<'a> {
    /// The status and the body.
    pub reply: Reply,
    /// The repository whose object the reply sends, if it sends one.
    pub repo: Option<&'a RepoName>,
    /// The methods that the reply lists; empty except for H7.
    pub allow: &'static str,
    /// Whether the server closes the connection after the reply.
    pub close: bool,
}

impl<'a> Response<'a> {
    ghost use Rattle.std.specs.Prelude.{◌≡◌, true};

    /// A reply without the content of an object, after which the connection closes.
    fn last(reply: Reply, allow: &'static str) -> Response<'a>
        ensures reply { result.reply ≡ reply }
        ensures allow { result.allow.now ≡ allow.now }
        ensures close { result.close ≡ true }
    {
        Response {
            reply,
            repo: None,
            allow,
            close: true,
        }
    }
}

/// The refusal of a head.
fn refusal<'a>(denied: Denied) -> Response<'a>
    ensures reply { IsReplyOf result.reply (Err (by_rule (rule_seen denied.rule))) }
    ensures allow { result.allow.now ≡ denied.allow.now }
    ensures close { result.close ≡ true }
{
    Response::last(head_refused(denied.rule), denied.allow)
}

/// The store refusal.
fn store_refused<'a>() -> Response<'a>
    ensures reply { IsReplyOf result.reply store_refusal }
    ensures allow { result.allow.now ≡ [] }
    ensures close { result.close ≡ true }
{
    Response::last(Reply::store_refused(), "")
}

/// Reads the body before the request is answered, unless it is the content of an upload.
///
/// # Errors
///
/// The errors of [`Inflow::body_whole`].
fn body_before<R: Source + Drop>(
    alloc: Global,
    form: Form,
    inflow: &mut Inflow<'_, R>,
) -> Result<Vec<u8>, WholeFault>
    ensures same_reference { inflow.new.conn.ghost_name ≡ inflow.old.conn.ghost_name }
    ensures part { (part : List ℕ) × HandsOut inflow.old.conn.now inflow.new.conn.now part
        × IfOk result (λ body. part ≡ body.items) }
    ensures upload { is_put form ≡ true → IfOk result (λ body. (body.items ≡ [])
        × (inflow.new.conn.now ≡ inflow.old.conn.now)) }
    ensures whole { is_put form ≡ false → OnOk result (body_left inflow.new.conn.now ≡ 0) }
    ensures cut { IfErr result (λ fault. (is_put form ≡ false) × (fault ≢ WholeFault.Memory
        → (0 < body_left inflow.new.conn.now) × (waiting inflow.new.conn.now ≡ []))) }
    ensures ended { result ≡ Err (WholeFault.Body BodyFault.Ended)
        → IsAtEnd (R.left (source_of inflow.new.conn.now)) }
    ensures good { result ≢ Err (WholeFault.Body BodyFault.Device)
        → R.failed (source_of inflow.new.conn.now) ≡ R.failed (source_of inflow.old.conn.now) }
    ensures fault { result ≡ Err (WholeFault.Body BodyFault.Device)
        → HasGrown (R.failed (source_of inflow.old.conn.now))
        (R.failed (source_of inflow.new.conn.now)) }
{
    match form {
        Form::Put => Ok(Vec::new(alloc)),
        _ => inflow.body_whole(alloc),
    }
}

/// Whether an upload's content is unread after the reply.
fn leaves_body(form: Form, request: &Result<Request, Rule>, reply: &Reply) -> bool
    ensures { result ≡ leaves_body form request.now reply.now }
{
    matches!(form, Form::Put) && (request.is_err() || !reply.body_read)
}

/// The response with the desk's reply.
pub(crate) fn response_with<'a>(
    asked: &Asked,
    request: &Result<Request, Rule>,
    repo: Option<&'a RepoName>,
    reply: Reply,
) -> Response<'a>
    ensures { RespondsWith asked.now request.now repo.entry reply result }
{
    let close = asked.is_last
        || leaves_body(asked.form, request, &reply)
        || reply.is_store_refusal();
    Response {
        reply,
        repo,
        allow: "",
        close,
    }
}

/// The repository's name, as the policy has it.
pub(crate) fn named<'a>(policy: &'a Policy, repo: &str) -> Option<&'a RepoName>
    ensures { option_map (λ name. repo_text name.now) result
        ≡ option_map (λ r. r.name) (repo_named repo.now (policy_view policy.entry.now)) }
{
    match policy.repo(repo) {
        Some(found) => Some(found.name()),
        None => None,
    }
}

/// Answers a message whose head was read. The reply is the store refusal if the store fails or memory runs out.
///
/// # Errors
///
/// The body's fault, if the input ended or failed within it. Nothing is answered then, and nothing changes.
fn answer_asked<'a, S: Store, R: Source + Drop>(
    alloc: Global,
    store: &mut S,
    setting: &Setting<'a>,
    asked: &Asked,
    inflow: &mut Inflow<'_, R>,
) -> Result<Response<'a>, BodyFault>
    ensures same_reference { inflow.new.conn.ghost_name ≡ inflow.old.conn.ghost_name }
    ensures handed { (given : List ℕ) × HandsOut inflow.old.conn.now inflow.new.conn.now given }
    ensures open { IfOk result (λ r. r.close ≡ false → body_left inflow.new.conn.now ≡ 0) }
    ensures allow { IfOk result (λ r. r.allow.now ≡ []) }
    ensures ended { result ≡ Err BodyFault.Ended
        → IsAtEnd (R.left (source_of inflow.new.conn.now)) }
    ensures good { result ≢ Err BodyFault.Device
        → R.failed (source_of inflow.new.conn.now) ≡ R.failed (source_of inflow.old.conn.now) }
    ensures fault { result ≡ Err BodyFault.Device
        → HasGrown (R.failed (source_of inflow.old.conn.now))
        (R.failed (source_of inflow.new.conn.now)) }
    ensures turn { From S.State store.old store.new (λ world. (bytes : List ℕ) (h : RequestHead)
        → BeginsWithHead bytes h (waiting inflow.old.conn.now)
        → body_left inflow.old.conn.now ≡ content_length h → Asks h asked.entry.now
        → (read : List ℕ)
        × Consumes (R.left (source_of inflow.old.conn.now)) (R.left (source_of inflow.new.conn.now)) read
        × Responds S.State (setting_of setting.entry.now.policy.now setting.entry.now.now)
        (bytes ++ read) (waiting inflow.new.conn.now) world store.old store.new result) }
{
    let body = match body_before(alloc, asked.form, inflow) {
        Ok(body) => body,
        Err(WholeFault::Memory) => return Ok(store_refused()),
        Err(WholeFault::Body(fault)) => return Err(fault),
    };
    let Ok(request) = read_request(alloc, asked, &body) else {
        return Ok(store_refused());
    };
    let wanted = asked.to_desk(&request);
    let reply = answer(alloc, store, setting.policy, setting.now, &wanted, inflow)?;
    let repo = named(setting.policy, asked.repo.as_str());
    Ok(response_with(asked, &request, repo, reply))
}

/// Reads the rest of the message whose head was read, and answers it.
///
/// # Errors
///
/// The body's fault, if the input ended or failed within it. Nothing is answered then, and nothing
/// changes.
fn respond<'a, S: Store, R: Source + Drop>(
    alloc: Global,
    store: &mut S,
    setting: &Setting<'a>,
    inflow: &mut Inflow<'_, R>,
) -> Result<Response<'a>, BodyFault>
    ensures same_reference { inflow.new.conn.ghost_name ≡ inflow.old.conn.ghost_name }
    ensures handed { (given : List ℕ) × HandsOut inflow.old.conn.now inflow.new.conn.now given }
    ensures open { IfOk result (λ r. r.close ≡ false → body_left inflow.new.conn.now ≡ 0) }
    ensures short { (h : RequestHead) → IsAt inflow.old.conn.now h
        → IfOk result (λ r. length r.allow.now ≤ ALLOW_LIMIT) }
    ensures ended { result ≡ Err BodyFault.Ended
        → IsAtEnd (R.left (source_of inflow.new.conn.now)) }
    ensures good { result ≢ Err BodyFault.Device
        → R.failed (source_of inflow.new.conn.now) ≡ R.failed (source_of inflow.old.conn.now) }
    ensures fault { result ≡ Err BodyFault.Device
        → HasGrown (R.failed (source_of inflow.old.conn.now))
        (R.failed (source_of inflow.new.conn.now)) }
    ensures turn { From S.State store.old store.new (λ world. (bytes : List ℕ) (h : RequestHead)
        → IsAt inflow.old.conn.now h → BeginsWithHead bytes h (waiting inflow.old.conn.now)
        → body_left inflow.old.conn.now ≡ content_length h
        → (read : List ℕ)
        × Consumes (R.left (source_of inflow.old.conn.now)) (R.left (source_of inflow.new.conn.now)) read
        × Responds S.State (setting_of setting.entry.now.policy.now setting.entry.now.now)
        (bytes ++ read) (waiting inflow.new.conn.now) world store.old store.new result) }
{
    match read_head(alloc, setting.routes, &inflow.head()) {
        Ok(asked) => answer_asked(alloc, store, setting, &asked, inflow),
        Err(HeadFault::Denied(denied)) => Ok(refusal(denied)),
        Err(HeadFault::Memory) => Ok(store_refused()),
    }
}

/// Reads the next message of the connection, and answers it.
///
/// # Errors
///
/// `InputEnded` or `ReadFailed`, if no whole message is left. Nothing is answered then, and nothing
/// changes.
pub(crate) fn next_response<'a, S: Store, R: Source + Drop>(
    alloc: Global,
    store: &mut S,
    setting: &Setting<'a>,
    conn: &mut Conn<R>,
) -> Result<Response<'a>, End>
    requires { IsOpen conn.old }
    ensures early { IfErr result IsEarly }
    ensures open { IfOk result (λ r. r.close ≡ false
        → IsOpen conn.new × (weight conn.new < weight conn.old)) }
    ensures short { IfOk result (λ r. length r.allow.now ≤ ALLOW_LIMIT) }
    ensures same_reference { R.reference (source_of conn.new) ≡ R.reference (source_of conn.old) }
    ensures input_ended { result ≡ Err End.InputEnded → IsAtEnd (R.left (source_of conn.new)) }
    ensures read_failed { result ≡ Err End.ReadFailed
        → HasGrown (R.failed (source_of conn.old)) (R.failed (source_of conn.new)) }
    ensures no_fault { result ≢ Err End.ReadFailed
        → R.failed (source_of conn.new) ≡ R.failed (source_of conn.old) }
    ensures turn { From S.State store.old store.new (λ world. (read : List ℕ)
        × Consumes (R.left (source_of conn.old)) (R.left (source_of conn.new)) read
        × Responds S.State (setting_of setting.entry.now.policy.now setting.entry.now.now)
        (waiting conn.old ++ read) (waiting conn.new) world store.old store.new result) }
{
    match conn.next_head() {
        Ok(mut inflow) => match respond(alloc, store, setting, &mut inflow) {
            Ok(response) => Ok(response),
            Err(BodyFault::Ended) => Err(End::InputEnded),
            Err(BodyFault::Device) => Err(End::ReadFailed),
        },
        Err(Stop::Rule(rule)) => Ok(refusal(Denied { rule, allow: "" })),
        Err(Stop::End) => Err(End::InputEnded),
        Err(Stop::Device) => Err(End::ReadFailed),
        Err(Stop::Unread) => unreachable!(),
    }
}
