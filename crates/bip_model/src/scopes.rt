//! The variables for which the names in a text stand, and what a text says with them.
ghost use Rattle.std.specs.Prelude.{◌≡◌, ◌≤◌, ◌==◌, ◌<◌, ◌+◌, ◌*◌, [], length, map, position};
ghost use Rattle.std.specs.Prelude.{IfOk, IfSome};
ghost use Rattle.std.specs.List.{list_all};
ghost use Rattle.bip_model.specs.Scopes.{IsScope, assignment_with, assignments_with};
ghost use Rattle.bip_model.specs.Scopes.{comparison_with, guard_with, knows_assignments};
ghost use Rattle.bip_model.specs.Scopes.{knows_guard, knows_sum};
ghost use Rattle.bip_model.specs.Scopes.{knows_term, shared, sum_with, term_with};
ghost use Rattle.bip_model.specs.Scopes.{transfer_said, variable_among, variable_in};
ghost use Rattle.bip_model.specs.Scopes.{variable_named, variable_of};
ghost use Rattle.bip_model.specs.Parts.{IsSystemSoFar, Participant};
ghost use Rattle.bip_model.specs.declared.parts.TheConstants.{MOST_COMPONENTS};
ghost use Rattle.bip_model.specs.declared.scopes.TheConstants.{MOST_VARIABLES};
ghost use Rattle.bip_model.specs.declared.states.TheConstants.{MOST_VALUES};

use crate::clauses::{SpelledSum, SpelledTerms};
use crate::parts::{MOST_COMPONENTS, System};
use crate::states::MOST_VALUES;
use crate::{
    Assignment, Assignments, BuildFault, CompId, Comparison, Expr, Guard, Name, Names, PortId, Seq,
    Sign, SpelledAssignment, SpelledComparison, Term, VarId, Variable,
};
use std::alloc::{AllocError, Global};

/// How many variables all components of a model have at most, 8 each.
pub const MOST_VARIABLES: usize = 512;

/// A variable as a text names it: in a component by its name alone, in an interaction by its
/// component's name and its own.
#[derive(Clone, Copy)]
pub struct VariableName {
    pub owner: Option<Name>,
    pub name: Name,
}

/// Where names of variables are looked up: among those of one component, or among those of the
/// participants of an interaction.
#[derive(Clone, Copy)]
pub(crate) enum Scope<'a> {
    Own(&'a Names),
    Shared(&'a System, &'a [(CompId, PortId)]),
}

/// The variable with a name among those of an owner.
pub(crate) fn variable_named(names: &Names, owner: u8, name: &Name) -> Option<Variable>
    requires { length names.now ≤ 8 }
    ensures named { result ≡ variable_named names.now owner name.now }
    ensures there { IfSome result (λ v. (v.owner ≡ owner) × (v.number.0 < 8)) }
{
    let number = names.number_of(name)?;
    Some(Variable {
        owner,
        number: VarId(number as u8),
    })
}

fn variable_among(
    system: &System,
    participants: &[(CompId, PortId)],
    owner: &Name,
    name: &Name,
) -> Option<Variable>
    requires system { IsSystemSoFar system.now }
    requires few { length participants.now ≤ MOST_COMPONENTS }
    ensures named { result ≡ variable_among system.now participants.now owner.now name.now }
    ensures there { IfSome result (λ v.
        (v.owner < length participants.now) × (v.number.0 < 8)) }
{
    let comp = system.component_names.number_of(owner)?;
    let place = place_among(participants, CompId(comp as u16))?;
    let component = system.components.as_slice().get(comp)?;
    variable_named(&component.variables, place as u8, name)
}

fn place_among(participants: &[(CompId, PortId)], comp: CompId) -> Option<usize>
    ensures { result ≡ position (λ (q : Participant). q.0.0 == comp.0) participants.now }
{
    participants.iter().position(|q| q.0 == comp)
}

/// The variable for which a name stands among those of participants.
pub(crate) fn shared_variable(
    system: &System,
    participants: &[(CompId, PortId)],
    name: &VariableName,
) -> Option<Variable>
    requires system { IsSystemSoFar system.now }
    requires few { length participants.now ≤ MOST_COMPONENTS }
    ensures named { result ≡ shared system.now participants.now name.now }
    ensures there { IfSome result (λ v.
        (v.owner < length participants.now) × (v.number.0 < 8)) }
{
    let owner = name.owner?;
    variable_among(system, participants, &owner, &name.name)
}

impl<'a> Scope<'a> {
    /// The variable for which a name stands; none where it stands for none.
    fn variable(&self, name: &VariableName) -> Option<Variable>
        requires { IsScope self.now }
        ensures named { result ≡ variable_in self.now name.now }
        ensures there { IfSome result (λ v. (v.owner < MOST_COMPONENTS) × (v.number.0 < 8)) }
    {
        match (self, &name.owner) {
            (Scope::Own(names), None) => variable_named(names, 0, &name.name),
            (Scope::Own(_), Some(_)) => None,
            (Scope::Shared(system, participants), _) => {
                shared_variable(system, participants, name)
            }
        }
    }

    /// The same of a name that is known.
    fn variable_of(&self, name: &VariableName) -> Variable
        requires { IsScope self.now }
        ensures { result ≡ variable_of (variable_in self.now) name.now }
    {
        self.variable(name).unwrap_or(Variable {
            owner: 0,
            number: VarId(0),
        })
    }

    fn knows_term(&self, term: &Term<VariableName>) -> bool
        requires { IsScope self.now }
        ensures { result ≡ knows_term (variable_in self.now) term.now }
    {
        match term {
            Term::Value(_) => true,
            Term::Of(name) => self.variable(name).is_some(),
        }
    }

    fn knows_terms(&self, mut terms: SpelledTerms<'_>) -> bool
        requires { IsScope self.now }
        ensures { result ≡ list_all (λ (t : Sign × Term VariableName).
            knows_term (variable_in self.now) t.1) terms.entry }
    {
        terms.all(|t| self.knows_term(&t.1))
    }

    fn knows_sum(&self, sum: &SpelledSum<'_>) -> bool
        requires { IsScope self.now }
        ensures { result ≡ knows_sum (variable_in self.now) sum.now }
    {
        self.knows_term(&sum.first) && self.knows_terms(sum.rest.each())
    }

    /// Whether all names of a guard are known.
    pub(crate) fn knows_guard(&self, mut guard: Guard<'_>) -> bool
        requires { IsScope self.now }
        ensures { result ≡ knows_guard (variable_in self.now) guard.entry }
    {
        guard.all(|c| self.knows_sum(&c.left) && self.knows_sum(&c.right))
    }

    /// Whether all names of a list of assignments are known.
    pub(crate) fn knows_assignments(&self, mut assignments: Assignments<'_>) -> bool
        requires { IsScope self.now }
        ensures { result ≡ knows_assignments (variable_in self.now) assignments.entry }
    {
        assignments.all(|a| self.variable(&a.target).is_some() && self.knows_sum(&a.sum))
    }

    /// The first fault of a transfer's words: a name that isn't known, or a second assignment to
    /// one variable. Takes no memory.
    pub(crate) fn check_transfer(&self, transfer: Assignments<'_>) -> Result<(), BuildFault>
        requires { IsScope self.now }
        ensures { result ≡ transfer_said (variable_in self.now) [] transfer.entry }
    {
        let mut targets = [false; MOST_VARIABLES];
        for assignment in transfer {
            let Some(target) = self.variable(&assignment.target) else {
                return Err(BuildFault::Unknown);
            };
            let place = place_of(target);
            if targets[place] {
                return Err(BuildFault::Twice);
            }
            if !self.knows_sum(&assignment.sum) {
                return Err(BuildFault::Unknown);
            }
            targets[place] = true;
        }
        Ok(())
    }

    fn term(&self, term: &Term<VariableName>) -> Term<Variable>
        requires { IsScope self.now }
        ensures { result ≡ term_with (variable_of (variable_in self.now)) term.now }
    {
        match term {
            Term::Value(number) => Term::Value(*number),
            Term::Of(name) => Term::Of(self.variable_of(name)),
        }
    }

    fn terms(
        &self,
        alloc: Global,
        terms: SpelledTerms<'_>,
    ) -> Result<Seq<(Sign, Term<Variable>)>, AllocError>
        requires { IsScope self.now }
        ensures { IfOk result (λ ts. ts ≡ map (λ (t : Sign × Term VariableName).
            (t.0, term_with (variable_of (variable_in self.now)) t.1)) terms.entry) }
    {
        let mut all = Vec::new(alloc);
        for term in terms {
            all.push((term.0, self.term(&term.1)))?;
        }
        Ok(Seq::of(all))
    }

    fn sum(&self, alloc: Global, sum: &SpelledSum<'_>) -> Result<Expr<Variable>, AllocError>
        requires { IsScope self.now }
        ensures { IfOk result (λ e. e ≡ sum_with (variable_of (variable_in self.now)) sum.now) }
    {
        Ok(Expr {
            first: self.term(&sum.first),
            rest: self.terms(alloc, sum.rest.each())?,
        })
    }

    fn comparison(
        &self,
        alloc: Global,
        comparison: &SpelledComparison<'_>,
    ) -> Result<Comparison<Variable>, AllocError>
        requires { IsScope self.now }
        ensures { IfOk result (λ c. c
            ≡ comparison_with (variable_of (variable_in self.now)) comparison.now) }
    {
        Ok(Comparison {
            left: self.sum(alloc, &comparison.left)?,
            relation: comparison.relation,
            right: self.sum(alloc, &comparison.right)?,
        })
    }

    fn assignment(
        &self,
        alloc: Global,
        assignment: &SpelledAssignment<'_>,
    ) -> Result<Assignment<Variable>, AllocError>
        requires { IsScope self.now }
        ensures { IfOk result (λ a. a
            ≡ assignment_with (variable_of (variable_in self.now)) assignment.now) }
    {
        Ok(Assignment {
            target: self.variable_of(&assignment.target),
            sum: self.sum(alloc, &assignment.sum)?,
        })
    }

    /// A guard with variables in place of their names, which are known.
    pub(crate) fn guard(
        &self,
        alloc: Global,
        guard: Guard<'_>,
    ) -> Result<Seq<Comparison<Variable>>, AllocError>
        requires { IsScope self.now }
        ensures { IfOk result (λ g. g ≡ guard_with (variable_in self.now) guard.entry) }
    {
        let mut comparisons = Vec::new(alloc);
        for comparison in guard {
            comparisons.push(self.comparison(alloc, &comparison)?)?;
        }
        Ok(Seq::of(comparisons))
    }

    /// Assignments with variables in place of their names, which are known.
    pub(crate) fn assignments(
        &self,
        alloc: Global,
        assignments: Assignments<'_>,
    ) -> Result<Seq<Assignment<Variable>>, AllocError>
        requires { IsScope self.now }
        ensures { IfOk result (λ g. g
            ≡ assignments_with (variable_in self.now) assignments.entry) }
    {
        let mut all = Vec::new(alloc);
        for assignment in assignments {
            all.push(self.assignment(alloc, &assignment)?)?;
        }
        Ok(Seq::of(all))
    }
}

/// The place of a variable among all that participants can have.
fn place_of(variable: Variable) -> usize
    requires owner { variable.owner < MOST_COMPONENTS }
    requires number { variable.number.0 < 8 }
    ensures place { result ≡ variable.owner * MOST_VALUES + variable.number.0 }
    ensures within { result < MOST_VARIABLES }
{
    variable.owner as usize * MOST_VALUES + variable.number.0 as usize
}
