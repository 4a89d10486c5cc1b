//! The laws above the definitions: what a reviewer reads to know what they mean. The calls do
//! nothing, and have the laws for their contracts.
ghost use Rattle.bip_ip.specs.Laws.{AskedFits, AskedStandsInTheWay, LeadsToTheStep, NextOnlyRises};
ghost use Rattle.bip_ip.specs.Laws.{OneAnswerToAReply, OneAnswerToATry, PastStays, RefusalsTeach};
ghost use Rattle.bip_ip.specs.Laws.{AskedSuffices, LocalSuffices, TakenOnce};
ghost use Rattle.bip_ip.specs.Laws.{TellsByComponent, TellsOfferedNumbers, TellsOnce};
ghost use Rattle.bip_ip.specs.Laws.{TellsParticipants, TellsWhatMoves};

/// What is told goes to just the components that the interaction moves, once each, with the number
/// that each offered; and where their offers show a state, it leads each of them to where the joint
/// step does (docs/PROTOCOL.md, "Notifications").
pub fn notify_laws()
    ensures moves { TellsWhatMoves }
    ensures each { TellsParticipants }
    ensures rising { TellsByComponent }
    ensures once { TellsOnce }
    ensures numbers { TellsOfferedNumbers }
    ensures leads { LeadsToTheStep }
{}

/// A try and a reply have one answer each; what is asked for fits the plan, its reasons are true,
/// and the offers that it names suffice; it stands in the way of what is in conflict with it; a
/// record tells once, and a reply to it is stale then, whatever the node does; a refusal teaches
/// the used number that it names; request numbers only rise (docs/PROTOCOL.md, "Protocol nodes").
pub fn node_laws()
    ensures try_one { OneAnswerToATry }
    ensures reply_one { OneAnswerToAReply }
    ensures fits { AskedFits }
    ensures asked { AskedSuffices }
    ensures local { LocalSuffices }
    ensures in_the_way { AskedStandsInTheWay }
    ensures once { TakenOnce }
    ensures past { PastStays }
    ensures refused { RefusalsTeach }
    ensures next { NextOnlyRises }
{}
