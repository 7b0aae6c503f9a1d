//! What the bytes of a message determine.

ghost use Rattle.control.specs.Requests.{RequestsDiffer};
ghost use Rattle.control.specs.Replies.{FramesDiffer, RefusalDiffers, RepliesDiffer};

/// The bytes of a request in range are those of no other request in range, and likewise for replies. So
/// what is read from the bytes of a message is the message. No frame in range is the beginning of another
/// one, so a reply is read frame by frame. The refusal of another version is no reply.
pub fn message_law()
    ensures requests { RequestsDiffer }
    ensures replies { RepliesDiffer }
    ensures frames { FramesDiffer }
    ensures refusal { RefusalDiffers }
{}
