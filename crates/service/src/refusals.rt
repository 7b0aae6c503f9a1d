//! The replies to refused heads.

ghost use Rattle.std.specs.Prelude.{◌≡◌, Err};
ghost use Rattle.serde_json.specs.Written.{compact_text};
ghost use Rattle.model.specs.Answers.{by_rule};
ghost use Rattle.model.specs.Replies.{message_json, rule_message};
ghost use Rattle.wire.specs.HeadRules.{rule_seen};
ghost use Rattle.desk.specs.Replies.{IsReplyOf};

use desk::{Reply, ReplyBody};
use forms::Answer;
use wire::HeadRule;

/// The body of the reply to a head that the rule refuses: a constant, so that the reply takes no memory.
fn text_of(rule: HeadRule) -> &'static str
    ensures { result.now ≡ compact_text (message_json (rule_message (rule_seen rule))) }
{
    match rule {
        HeadRule::H1 => r#"{"message":"H1: bad request head"}"#,
        HeadRule::H2 => r#"{"message":"H2: transfer codings are not served"}"#,
        HeadRule::H3 => r#"{"message":"H3: a length is needed"}"#,
        HeadRule::H4 => r#"{"message":"H4: a field or body is not allowed here"}"#,
        HeadRule::H5 => r#"{"message":"H5: the body is too large"}"#,
        HeadRule::H6 => r#"{"message":"H6: no such route"}"#,
        HeadRule::H7 => r#"{"message":"H7: the method is not served here"}"#,
        HeadRule::H8 => r#"{"message":"H8: the reply type is not accepted"}"#,
    }
}

/// The reply to a head that the rule refuses. It takes no memory.
pub(crate) fn head_refused(rule: HeadRule) -> Reply
    ensures { IsReplyOf result (Err (by_rule (rule_seen rule))) }
{
    Reply {
        status: Answer::Denied(rule.rule()).status(),
        rule: Some(rule.rule()),
        body: ReplyBody::Refused(text_of(rule)),
        body_read: false,
    }
}
