// What holds of every legal history and of every run with crashes, as contracts of functions that do nothing.
ghost use Rattle.inc_model.specs.laws.StageLaws.{AdvancesByStages, LeavesFlightOnly, SettlesAll, MapStays, AcknowledgesOnlySynced, OpensOnlyByGate, BeginsOnlyByGate, GateBegins, FaultsAreSeen, FaultsStay, FailsForGood, ReadsStay};
ghost use Rattle.inc_model.specs.laws.FaultLaws.{FailedIsFirst, FirstIsFailed, NoneHasFailed, PollLeavesFailed, FaultsAreCounted};
ghost use Rattle.inc_model.specs.laws.OthersLaws.{OthersKeepReads, OthersKeepPlaces, OthersKeepRows, OwnPutIsPlaced};
ghost use Rattle.inc_model.specs.relation.Openings.{OpenedListsMakeOpenings, AcknowledgedAreLookedUp, OpenedAreAcknowledged, SameIndicesAreEqual, SameRowsAreEqual, ReopensByLists};
ghost use Rattle.inc_model.specs.histories.Worlds.{HistoryIsWorld, WorldIsHistory, WorldEndsAsHistory};
ghost use Rattle.inc_model.specs.laws.ReadLaws.{ReadsComeFrom, ReadsWereAsked};
ghost use Rattle.inc_model.specs.laws.HistoryLaws.{OpeningHasFacts, StepKeepsFacts, StepKeepsMore, LegalHasFacts, FrontIsLegal, RestIsLegal, BothAreLegal, StateAfterBoth, StateAfterOneMore, EntryAtPosition, StaysWithinLimit, ClaimedHasRoom, ClaimsAreCounted, ClaimsOfOthersStay, WindowsAreOwn, OwnEntriesJoin, OthersKeepOwn};
ghost use Rattle.inc_model.specs.laws.CoreLaws.{OpeningIsStart, StartIsHeld, StepStaysHeld, LegalStaysHeld, HeldIsWorkable, HeldSerialsFit, EntriesTakePlaces, GatesBeginAlone};
ghost use Rattle.inc_model.specs.laws.WorldLaws.{TimesOutWhereAbsent, WaitsWhereAbsent, WaitsBeforeFloor, NamesLowestAbsent, HandsOutPresent, LacksNoPathWithoutTree, KeepsAcknowledged, AcknowledgedIsThere, TimesOutAbsent, HandsOutThere, NamesAbsent, GateCompletes, DigestsComeFrom, PresenceIsWhole, PresenceIsOfMap};

/// An opening has the facts, and each step keeps them. So each state that a legal history reaches has them.
pub fn facts_stay()
    ensures opening { OpeningHasFacts }
    ensures step { StepKeepsFacts }
    ensures more { StepKeepsMore }
    ensures legal { LegalHasFacts }
{}

/// A history in two parts, and one entry longer.
pub fn histories_join()
    ensures front { FrontIsLegal }
    ensures rest { RestIsLegal }
    ensures both { BothAreLegal }
    ensures state { StateAfterBoth }
    ensures one_more { StateAfterOneMore }
    ensures position { EntryAtPosition }
{}

/// Entries and claimed places stay within the limit, and a claimed place is there when its window needs it.
pub fn histories_stay_small()
    ensures limit { StaysWithinLimit }
    ensures room { ClaimedHasRoom }
    ensures counted { ClaimsAreCounted }
    ensures others { ClaimsOfOthersStay }
{}

/// A window's events are its own seat's, and entries of others leave a seat's entries as they are.
pub fn entries_are_owned()
    ensures windows { WindowsAreOwn }
    ensures joined { OwnEntriesJoin }
    ensures kept { OthersKeepOwn }
{}

/// Each read that waits was asked by an entry of the history, and got its floor and deadline by its user's times then.
pub fn reads_were_asked()
    ensures asked { ReadsWereAsked }
{}

/// What the entries of other seats leave of a seat's own.
pub fn others_keep_own()
    ensures reads { OthersKeepReads }
    ensures places { OthersKeepPlaces }
    ensures rows { OthersKeepRows }
    ensures placed { OwnPutIsPlaced }
{}

/// A history is a run without a crash, both ways: so what holds of runs holds of what a legal history reaches from an opening.
pub fn histories_are_worlds()
    ensures world { HistoryIsWorld }
    ensures history { WorldIsHistory }
    ensures end { WorldEndsAsHistory }
{}

/// Openings and reopenings, told by the lists that a device holds.
pub fn openings_are_lists()
    ensures made { OpenedListsMakeOpenings }
    ensures found { AcknowledgedAreLookedUp }
    ensures opened { OpenedAreAcknowledged }
    ensures indices { SameIndicesAreEqual }
    ensures rows { SameRowsAreEqual }
    ensures reopened { ReopensByLists }
{}

/// What a poll answers, by what is in the map.
pub fn polls_go_by_the_map()
    ensures late { TimesOutWhereAbsent }
    ensures early { WaitsWhereAbsent }
    ensures floor { WaitsBeforeFloor }
    ensures path { NamesLowestAbsent }
    ensures handed { HandsOutPresent }
    ensures no_tree { LacksNoPathWithoutTree }
{}

/// What every run with crashes keeps, and what its entries say of the state that they met.
pub fn worlds_keep()
    ensures acknowledged { KeepsAcknowledged }
    ensures there { AcknowledgedIsThere }
    ensures timed_out { TimesOutAbsent }
    ensures handed { HandsOutThere }
    ensures path { NamesAbsent }
    ensures gate { GateCompletes }
    ensures digests { DigestsComeFrom }
{}

/// What one step changes in a fill: each stage comes after the one before it, by the window itself and by syncs, and nothing else moves.
pub fn fills_go_by_stages()
    ensures stages { AdvancesByStages }
    ensures leaves { LeavesFlightOnly }
    ensures syncs { SettlesAll }
    ensures map { MapStays }
    ensures acknowledged { AcknowledgesOnlySynced }
    ensures opened { OpensOnlyByGate }
    ensures begun { BeginsOnlyByGate }
    ensures gate { GateBegins }
    ensures faults { FaultsAreSeen }
    ensures quiet { FaultsStay }
    ensures failed { FailsForGood }
{}

/// The first write or sync that failed ends the fills, and the count of faults is at least that of the faults.
pub fn faults_are_told()
    ensures first { FailedIsFirst }
    ensures named { FirstIsFailed }
    ensures none { NoneHasFailed }
    ensures polls { PollLeavesFailed }
    ensures counted { FaultsAreCounted }
{}

/// A read ends by its own asker's poll or cancel alone.
pub fn reads_stay()
    ensures reads { ReadsStay }
    ensures come { ReadsComeFrom }
{}

/// The list from which ranges are told is the map's.
pub fn ranges_tell_the_map()
    ensures whole { PresenceIsWhole }
    ensures each { PresenceIsOfMap }
{}

/// What an executed core asks of its state holds along every legal history, over rows and over slots.
pub fn cores_are_held()
    ensures opening { OpeningIsStart }
    ensures start { StartIsHeld }
    ensures step { StepStaysHeld }
    ensures legal { LegalStaysHeld }
    ensures workable { HeldIsWorkable }
    ensures serials { HeldSerialsFit }
    ensures places { EntriesTakePlaces }
    ensures alone { GatesBeginAlone }
{}
