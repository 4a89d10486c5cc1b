//! The laws above the definitions: what a reviewer reads to know what they mean. Each call does
//! nothing, and has the laws for its contract.
ghost use Rattle.std.specs.Prelude.{◌≡◌, ℕ, ◌↔◌, List, [], ◌∷◌, ◌++◌, Ok, IsNone};
ghost use Rattle.bip_model.specs.Drafts.{component_line, end_line, inside, interaction_line};
ghost use Rattle.bip_model.specs.Drafts.{priority_line};
ghost use Rattle.bip_model.specs.Components.{loc_line, port_line, trans_line, var_line};
ghost use Rattle.bip_model.specs.Laws.{KeepsDraft, Commute, EnabledWhereAllCanGo, EndsAfterItsLast};
ghost use Rattle.bip_model.specs.Laws.{GoesOnByWhatMayRun, IsLocal, OneTransition, OthersStay};
ghost use Rattle.bip_model.specs.Laws.{ParticipantsGo, StatesLeadToStates, HistoryGoesOn};
ghost use Rattle.bip_model.specs.Laws.{OffersWhereItCanGo, StartsInAState};
ghost use Rattle.bip_model.specs.Laws.{IsInOrder, MovedIsWanted, NamesInAnyOrder};
ghost use Rattle.bip_model.specs.Laws.{SumsAreIntegers, TransfersAtOnce, TransfersInAnyOrder};
ghost use Rattle.bip_model.specs.Laws.{AboveGoesOn, MayRunIsLocal, OneWantsEach};
ghost use Rattle.bip_model.specs.Laws.{ParticipantsAreLed, PartiesAreWanted, PartiesHaveRoles};
ghost use Rattle.bip_model.specs.Laws.{AllPartiesCover, PartiesMove, SomethingMayRun};
ghost use Rattle.bip_model.specs.Laws.{UpdatesInOrder, UpdatesOneByOne};
ghost use Rattle.bip_model.specs.Laws.{FindsOfParticipants, NamesParticipants};
ghost use Rattle.bip_model.specs.Laws.{PartsOrMisplaces, PutsOnePair, UsedGoesOn};
ghost use Rattle.bip_model.specs.Grants.{IsGreatestUsed, IsHistory, MovesOnceEach, used_by};
ghost use Rattle.bip_model.specs.Parts.{IsSystem};
ghost use Rattle.bip_model.specs.Wants.{IsFresh, raised};
ghost use Rattle.bip_model.specs.declared.drafts.Draft.{Draft};
ghost use Rattle.bip_model.specs.declared.expressions.Assignment.{Assignment};
ghost use Rattle.bip_model.specs.declared.expressions.Comparison.{Comparison};
ghost use Rattle.bip_model.specs.Partitions.{AreDifferent, in_order};
ghost use Rattle.bip_model.specs.declared.grants.Grant.{Grant};
ghost use Rattle.bip_model.specs.declared.numbering.InterId.{InterId};
ghost use Rattle.bip_model.specs.declared.parts.System.{System};
ghost use Rattle.bip_model.specs.declared.scopes.VariableName.{VariableName};

/// What sums, transfers and updates mean: a sum is that of the integers modulo 2^32, a transfer's
/// assignments are done at once, and those of an update in written order (docs/DEFINITIONS.md,
/// "Expressions").
pub fn expression_laws()
    ensures sums { SumsAreIntegers }
    ensures transfers { TransfersAtOnce }
    ensures any_order { TransfersInAnyOrder }
    ensures updates { UpdatesInOrder }
    ensures one_by_one { UpdatesOneByOne }
{}

/// What the joint step means (docs/DEFINITIONS.md, "The joint step").
pub fn step_laws()
    ensures offers { (m : System) → IsSystem m → OffersWhereItCanGo m }
    ensures enabled { (m : System) → IsSystem m → EnabledWhereAllCanGo m }
    ensures stay { (m : System) → OthersStay m }
    ensures go { (m : System) → IsSystem m → ParticipantsGo m }
    ensures led { (m : System) → IsSystem m → ParticipantsAreLed m }
    ensures one { (m : System) → IsSystem m → OneTransition m }
    ensures starts { (m : System) → IsSystem m → StartsInAState m }
    ensures states { (m : System) → IsSystem m → StatesLeadToStates m }
    ensures local { (m : System) → IsLocal m }
    ensures commute { (m : System) → Commute m }
    ensures end { (m : System) → EndsAfterItsLast m }
    ensures run { (m : System) → GoesOnByWhatMayRun m }
{}

/// What priorities mean: what stands above goes on from pair to pair; where something is enabled
/// it may run, or something above it; and whether an interaction may run depends on what it moves
/// and looks at alone (docs/DEFINITIONS.md, "Priorities").
pub fn priority_laws()
    ensures above { AboveGoesOn }
    ensures something { (m : System) → IsSystem m → SomethingMayRun m }
    ensures local { (m : System) → MayRunIsLocal m }
{}

/// A line that is taken keeps all that earlier lines said: names, components, interactions, and
/// what the component that is begun has declared. The participants of an interaction are just what
/// its words name, one each, by component, so the order of the words doesn't count; a name that is
/// found there is a variable of a participant. A priority adds one pair, and nothing else
/// (docs/ANSWERS.md, "Model lines").
pub fn builder_laws()
    ensures component { (d e : Draft) (name : List ℕ) → IsNone d.begun
        → component_line d name ≡ Ok e → KeepsDraft d e }
    ensures var { (d e : Draft) (name : List ℕ) (value : ℕ)
        → inside (var_line name value) d ≡ Ok e → KeepsDraft d e }
    ensures loc { (d e : Draft) (name : List ℕ) → inside (loc_line name) d ≡ Ok e → KeepsDraft d e }
    ensures port { (d e : Draft) (name : List ℕ) → inside (port_line name) d ≡ Ok e
        → KeepsDraft d e }
    ensures trans { (d e : Draft) (port source target : List ℕ)
        (guard : List (Comparison VariableName)) (update : List (Assignment VariableName))
        → inside (trans_line port source target guard update) d ≡ Ok e → KeepsDraft d e }
    ensures end { (d e : Draft) → end_line d ≡ Ok e → KeepsDraft d e }
    ensures interaction { (d e : Draft) (name : List ℕ) (words : List (List ℕ × List ℕ))
        (guard : List (Comparison VariableName)) (transfer : List (Assignment VariableName))
        → IsNone d.begun
        → interaction_line d name words guard transfer ≡ Ok e → KeepsDraft d e }
    ensures priority { (d e : Draft) (low high : List ℕ) → IsNone d.begun
        → priority_line d low high ≡ Ok e → KeepsDraft d e }
    ensures participants { NamesParticipants }
    ensures any_order { NamesInAnyOrder }
    ensures variables { FindsOfParticipants }
    ensures pairs { PutsOnePair }
{}

/// What wants move; that those of an interaction's parties are just of what it moves and looks at,
/// in these roles, and by its offers one list; what grants use up, all that they do and one more;
/// that a used number is the greatest of the floor and of what was granted; and that a history
/// moves no component twice with one number (docs/DEFINITIONS.md, "Used numbers and histories").
pub fn history_laws()
    ensures moved { MovedIsWanted }
    ensures parties { PartiesMove }
    ensures roles { PartiesHaveRoles }
    ensures wanted { PartiesAreWanted }
    ensures covered { AllPartiesCover }
    ensures wants { OneWantsEach }
    ensures used { (floor : ℕ → ℕ) (gs : List Grant) (g : Grant)
        → used_by floor (gs ++ g ∷ []) ≡ raised (used_by floor gs) g.wants }
    ensures greatest { (floor : ℕ → ℕ) (gs : List Grant) (c : ℕ)
        → IsGreatestUsed floor gs c (used_by floor gs c) }
    ensures history { (floor : ℕ → ℕ) (gs : List Grant) (g : Grant)
        → IsHistory floor (gs ++ g ∷ [])
        ↔ (IsHistory floor gs × IsFresh (used_by floor gs) g.wants) }
    ensures used_on { UsedGoesOn }
    ensures history_on { HistoryGoesOn }
    ensures once { (floor : ℕ → ℕ) (gs : List Grant) → IsHistory floor gs → MovesOnceEach gs }
{}

/// What it means that lists are no partition, and what stands in a class
/// (docs/DEFINITIONS.md, "Partitions").
pub fn partition_laws()
    ensures parts { PartsOrMisplaces }
    ensures order { (class : List InterId) → AreDifferent class
        → IsInOrder class (in_order class) }
{}
