//! Worked examples of the definitions: the answers and the texts of small cases, byte for byte.
//! Each function does nothing, and its contract is the example.

ghost use Rattle.model.specs.Examples.{FirstIsFirst, FirstIsLocked, SecondIsRefused, OtherRefIsLocked, TwoAreServed, BodyIsNoMessage};
ghost use Rattle.model.specs.Examples.{CrowdedIsRefused, HeadsAreRefused, MethodIsRefused, RoutesLead, NamelessIsRefused, TokenExpires};
ghost use Rattle.model.specs.Examples.{RepositoryIsUnknown, DownloadLocksNothing, CutIsUnanswered, FolderIsFrozen, PushIsDenied};
ghost use Rattle.model.specs.Examples.{ContentHasItsName, ContentIsServed, QuotaIsKept, UploadIsRefusedEarly, StoredIsConfirmed};
ghost use Rattle.model.specs.Examples.{UploadIsOffered, DownloadIsOffered, ObjectsAreInvalid, ObjectsAreRefused, RetiredIsGone, HashIsRefused, BatchIsRefused};
ghost use Rattle.model.specs.Examples.{HiddenIsLeftOut, PagesAreCut, PagesAreRefused, LocksAreSplit, LockIsReleased, LocksAreServed};
ghost use Rattle.model.specs.Examples.{RefusalCloses, TokenIsIssued, TokenIsPruned, ObjectIsRemoved, MomentsArePrinted};
ghost use Rattle.model.specs.PushExamples.{LockBlocksOthers, DenialComesFirst};

/// The first message of a stream makes the first lock. The same message again finds it (L1). The path is
/// free on another ref, and if no id is left the answer is L5.
pub fn locks()
    ensures first_is_first { FirstIsFirst }
    ensures first_is_locked { FirstIsLocked }
    ensures second_is_refused { SecondIsRefused }
    ensures other_ref_is_locked { OtherRefIsLocked }
{}

/// A session of two messages is a run. If an upload is refused from its head, its body is not read as a message.
pub fn sessions()
    ensures two_are_served { TwoAreServed }
    ensures body_is_no_message { BodyIsNoMessage }
{}

/// Heads that are refused, each by its rule, and the routes of the table.
pub fn heads()
    ensures crowded_is_refused { CrowdedIsRefused }
    ensures heads_are_refused { HeadsAreRefused }
    ensures method_is_refused { MethodIsRefused }
    ensures routes_lead { RoutesLead }
{}

/// No token, an unknown one, an expired one, a download token, another repository; a message that is cut
/// off.
pub fn callers()
    ensures nameless_is_refused { NamelessIsRefused }
    ensures token_expires { TokenExpires }
    ensures repository_is_unknown { RepositoryIsUnknown }
    ensures download_locks_nothing { DownloadLocksNothing }
    ensures cut_is_unanswered { CutIsUnanswered }
{}

/// The first policy row that matches decides. A denied push hides the repository from those who may not
/// pull.
pub fn policies()
    ensures folder_is_frozen { FolderIsFrozen }
    ensures push_is_denied { PushIsDenied }
{}

/// An object is stored under the name of its bytes, and served; the quota holds it or not; an upload is
/// denied before its body; an object is confirmed.
pub fn objects()
    ensures content_has_its_name { ContentHasItsName }
    ensures content_is_served { ContentIsServed }
    ensures quota_is_kept { QuotaIsKept }
    ensures upload_is_refused_early { UploadIsRefusedEarly }
    ensures stored_is_confirmed { StoredIsConfirmed }
{}

/// What a batch returns for its objects, and each rule that refuses an object of it or the whole batch.
pub fn batches()
    ensures upload_is_offered { UploadIsOffered }
    ensures download_is_offered { DownloadIsOffered }
    ensures objects_are_invalid { ObjectsAreInvalid }
    ensures objects_are_refused { ObjectsAreRefused }
    ensures retired_is_gone { RetiredIsGone }
    ensures hash_is_refused { HashIsRefused }
    ensures batch_is_refused { BatchIsRefused }
{}

/// Pages of locks: who sees what, where they begin and end, and one's own apart. Locks are released by
/// their owner, or by force. The same requests over a connection.
pub fn pages()
    ensures hidden_is_left_out { HiddenIsLeftOut }
    ensures pages_are_cut { PagesAreCut }
    ensures pages_are_refused { PagesAreRefused }
    ensures locks_are_split { LocksAreSplit }
    ensures lock_is_released { LockIsReleased }
    ensures locks_are_served { LocksAreServed }
{}

/// The store refusal; tokens that are issued and removed; an object that is removed for good; the first and the last moment.
pub fn operator()
    ensures refusal_closes { RefusalCloses }
    ensures token_is_issued { TokenIsIssued }
    ensures token_is_pruned { TokenIsPruned }
    ensures object_is_removed { ObjectIsRemoved }
    ensures moments_are_printed { MomentsArePrinted }
{}

/// Push checks: a lock is in the way of every user but its owner, and only on its ref. A denial by the policy
/// comes before a lock.
pub fn push_checks()
    ensures lock_blocks_others { LockBlocksOthers }
    ensures denial_comes_first { DenialComesFirst }
{}
