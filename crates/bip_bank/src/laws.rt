//! The laws above the definitions: what a reviewer reads to know what any bank does. The call does
//! nothing, and has the laws for its contract.
ghost use Rattle.bip_bank.specs.Laws.{GrantsAreAllowed, GrantsAreHistories, GrantsGoOn};
ghost use Rattle.bip_bank.specs.Laws.{OneAnswerToAStep, PlanStays, ReasonsAreAll};
ghost use Rattle.bip_bank.specs.Laws.{ReasonsAreTrue};

/// Whatever is asked of a bank that had no grants, its grants are a history above its base, move no
/// component twice with one number, and explain the used numbers. The grants after any calls begin
/// with those before; plan and base stay; and where no request was open at first, the plan allows
/// each grant. Where stations share nothing, a token or forks, a step has one answer, but for the
/// serial of a grant, and leaves one content; a step for whose idleness a reason is given does
/// nothing, and one that does nothing without a reason lacks a serial (docs/PROTOCOL.md, "Banks").
pub fn bank_laws()
    ensures history { GrantsAreHistories }
    ensures go_on { GrantsGoOn }
    ensures plan { PlanStays }
    ensures allowed { GrantsAreAllowed }
    ensures one { OneAnswerToAStep }
    ensures reasons { ReasonsAreTrue }
    ensures all { ReasonsAreAll }
{}
