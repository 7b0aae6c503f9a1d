//! Laws of the definitions. Each function does nothing, and its contract is the law.

ghost use Rattle.model.specs.Laws.{HasOneFirst, BeginsWithMessage, CutIsLast, ChoosesOnlyThere, MessageIsFinished, HeadDecides, TargetDecides};
ghost use Rattle.model.specs.Laws.{StepsKeepWorlds, RunsKeepWorlds, RunsMakeWorlds, ServesWhatIsAsked, ServesWhatIsKept, ServedHasItsName, ServedWasPut};
ghost use Rattle.model.specs.Laws.{DenialsChangeNothing, SilenceChangesNothing, OnlyReportedChanges, OnlyCutIsSilent, NeverLocksTwice, CountsOn, NewIdIsNext, NoIdComesAgain};
ghost use Rattle.model.specs.Laws.{OnlyTheseChangeObjects, RetiredForGood, RemovedIsRetired, TotalsFollowObjects, TotalsGrowByUploads};
ghost use Rattle.model.specs.Laws.{RoomIsQuota, StaysInQuota, PageIsLeast, LocksRise, LocksAreThose, LocksIgnoreOrder, WalksAreWhole, ViewsForetell, OnlyCallersAreForeseen, ViewsServeOneDigest, ViewsShowWhatIsSeen, OthersLeaveViews, SessionsLeaveViews};
ghost use Rattle.model.specs.Laws.{ReportsAreTrue, LeavesOneChange, MomentIsText, MomentHasText};

/// A list of bytes has at most one first message and one rest after it. The body is as long as the head
/// says, or it is cut off and nothing follows it.
pub fn message_law()
    ensures one { HasOneFirst }
    ensures is { BeginsWithMessage }
    ensures cut { CutIsLast }
{}

/// At the end of a stream, H1 and no reply are both allowed only for an incomplete head that no further
/// bytes could complete. Bytes that begin with a message are more than that.
pub fn choice_law()
    ensures there { ChoosesOnlyThere }
    ensures finished { MessageIsFinished }
{}

/// What denies a message before its body is read denies it with any body, for every form of request.
pub fn head_law()
    ensures head { HeadDecides }
    ensures target { TargetDecides }
{}

/// Each step keeps the laws of worlds: everything is in range, objects have the names of their bytes, no
/// place and no id is used twice, ids are at most the number of locks made, digests differ.
pub fn step_law()
    ensures { StepsKeepWorlds }
{}

/// A run keeps the laws of worlds, and one from the empty world has them. A download is answered with the
/// object that it asks for, which is stored and has its name, and in such a run just these bytes were uploaded
/// before, under this name in this repository, and not removed since.
pub fn run_law()
    ensures keeps { RunsKeepWorlds }
    ensures makes { RunsMakeWorlds }
    ensures asked { ServesWhatIsAsked }
    ensures kept { ServesWhatIsKept }
    ensures named { ServedHasItsName }
    ensures put { ServedWasPut }
{}

/// A denial leaves the world unchanged, and so does a message without an answer, and each step of the
/// operator that reports no change. Only a message that is cut off has no answer, if nothing denies it before
/// its body is read.
pub fn denial_law()
    ensures denial { DenialsChangeNothing }
    ensures silence { SilenceChangesNothing }
    ensures reported { OnlyReportedChanges }
    ensures cut { OnlyCutIsSilent }
{}

/// No step changes the objects, but an upload that is answered as stored, which adds its object if the
/// repository has none of that name, and a removal that is reported, which takes the object away. So a
/// repository's total changes by no other step: it grows by the size of a new object, and falls by that of a
/// removed one.
pub fn upload_law()
    ensures objects { OnlyTheseChangeObjects }
    ensures totals { TotalsFollowObjects }
    ensures uploads { TotalsGrowByUploads }
{}

/// A removal that is reported retires the name. A name that was retired stays so, and no object ever has it.
pub fn retire_law()
    ensures retires { RemovedIsRetired }
    ensures stays { RetiredForGood }
{}

/// No path of a repository's ref is ever locked twice.
pub fn place_law()
    ensures { NeverLocksTwice }
{}

/// The number of locks made never falls, and a new lock has the next id. So no id is given twice, even if
/// locks are released meanwhile.
pub fn id_law()
    ensures counts { CountsOn }
    ensures next { NewIdIsNext }
    ensures again { NoIdComesAgain }
{}

/// An object fits exactly if the stored total and its size are within the quota. A stored total within a
/// bound stays within it in each run whose quotas are within it.
pub fn quota_law()
    ensures room { RoomIsQuota }
    ensures stays { StaysInQuota }
{}

/// A page of rising locks has those of least id from the cursor on. The locks of a repository, as its pages
/// are cut from them, rise, are those of the world, and do not depend on the world's order.
pub fn page_law()
    ensures least { PageIsLeast }
    ensures rise { LocksRise }
    ensures those { LocksAreThose }
    ensures order { LocksIgnoreOrder }
{}

/// The joined pages of a walk rise, have no lock twice, and have each lock that was shown at every page.
pub fn walk_law()
    ensures { WalksAreWhole }
{}

/// The reply to a user is the one that the user's view predicts, in every world with that view, and the
/// view predicts no reply to anyone else. The contents that such worlds serve have one SHA-256. A view
/// shows only what the user sees. A message does not change a view of a repository that it does not ask
/// about, and neither do the messages of a session.
pub fn view_law()
    ensures foretell { ViewsForetell }
    ensures callers { OnlyCallersAreForeseen }
    ensures digest { ViewsServeOneDigest }
    ensures seen { ViewsShowWhatIsSeen }
    ensures apart { OthersLeaveViews }
    ensures session { SessionsLeaveViews }
{}

/// Each step leads to the world that its report says. A stop leaves the last world of a run, or that world
/// with one change that the store refused after the last change.
pub fn stop_law()
    ensures reports { ReportsAreTrue }
    ensures leaves { LeavesOneChange }
{}

/// Each moment in range has exactly one text, the computed one.
pub fn moment_law()
    ensures is { MomentIsText }
    ensures has { MomentHasText }
{}
