//! Expressions over the values of components: sums, comparisons, and lists of assignments.
ghost use Rattle.std.specs.Prelude.{◌≡◌, [], ◌∷◌};
ghost use Rattle.bip_model.specs.Expressions.{AreAssignmentsIn, AreComparisonsIn, IsComparisonIn};
ghost use Rattle.bip_model.specs.Expressions.{IsExprIn, IsTermIn, IsVariableIn, counts, holds};
ghost use Rattle.bip_model.specs.Expressions.{holds_in, joined, put_in, relates, term_value};
ghost use Rattle.bip_model.specs.Expressions.{transferred, updated, value_in, value_of};

use crate::{Seq, Values, VarId};

/// A variable: whose it is, by the place among an interaction's participants (0 in a component),
/// and its number there.
#[derive(Clone, Copy, Debug, PartialEq, Eq)]
pub struct Variable {
    pub owner: u8,
    pub number: VarId,
}

/// A number, or the value of a variable.
#[derive(Clone, Copy, Debug)]
pub enum Term<V> {
    Value(u32),
    Of(V),
}

/// Whether a term is added or taken away.
#[derive(Clone, Copy, Debug, PartialEq, Eq)]
pub enum Sign {
    Plus,
    Minus,
}

/// A sum of terms, joined from the left modulo 2^32.
#[derive(Drop)]
pub struct Expr<V> {
    pub first: Term<V>,
    pub rest: Seq<(Sign, Term<V>)>,
}

/// How the left of a comparison must stand to its right.
#[derive(Clone, Copy, Debug, PartialEq, Eq)]
pub enum Relation {
    Less,
    LessOrEqual,
    Greater,
    GreaterOrEqual,
    Equal,
    NotEqual,
}

/// A comparison of two sums.
#[derive(Drop)]
pub struct Comparison<V> {
    pub left: Expr<V>,
    pub relation: Relation,
    pub right: Expr<V>,
}

/// A variable that gets the value of a sum.
#[derive(Drop)]
pub struct Assignment<V> {
    pub target: V,
    pub sum: Expr<V>,
}

impl Variable {
    fn value(self, values: &[Values]) -> u32
        requires { IsVariableIn (counts values.now) self }
        ensures { result ≡ value_in values.now self }
    {
        values[self.owner as usize].as_slice()[self.number.0 as usize]
    }
}

impl Term<Variable> {
    fn value(self, values: &[Values]) -> u32
        requires { IsTermIn (counts values.now) self }
        ensures { result ≡ term_value values.now self }
    {
        match self {
            Term::Value(number) => number,
            Term::Of(variable) => variable.value(values),
        }
    }
}

impl Sign {
    fn join(self, sum: u32, number: u32) -> u32
        ensures { result ≡ joined self sum number }
    {
        match self {
            Sign::Plus => sum.wrapping_add(number),
            Sign::Minus => sum.wrapping_sub(number),
        }
    }
}

impl Expr<Variable> {
    /// The value of the sum, modulo 2^32, over the values of a component alone or of each
    /// participant of an interaction (docs/DEFINITIONS.md, "Expressions").
    pub fn eval(&self, values: &[Values]) -> u32
        requires { IsExprIn (counts values.now) self.now }
        ensures { result ≡ value_of values.now self.now }
    {
        let mut sum = self.first.value(values);
        for &(sign, term) in self.rest.as_slice() {
            sum = sign.join(sum, term.value(values));
        }
        sum
    }
}

impl Relation {
    fn relates(self, left: u32, right: u32) -> bool
        ensures { result ≡ relates self left right }
    {
        match self {
            Relation::Less => left < right,
            Relation::LessOrEqual => left <= right,
            Relation::Greater => left > right,
            Relation::GreaterOrEqual => left >= right,
            Relation::Equal => left == right,
            Relation::NotEqual => left != right,
        }
    }
}

impl Comparison<Variable> {
    fn holds(&self, values: &[Values]) -> bool
        requires { IsComparisonIn (counts values.now) self.now }
        ensures { result ≡ holds_in values.now self.now }
    {
        self.relation
            .relates(self.left.eval(values), self.right.eval(values))
    }
}

/// Whether all comparisons of a guard hold.
pub(crate) fn holds(guard: &[Comparison<Variable>], values: &[Values]) -> bool
    requires { AreComparisonsIn (counts values.now) guard.now }
    ensures { result ≡ holds guard.now values.now }
{
    guard.iter().all(|comparison| comparison.holds(values))
}

/// Does the assignments of a component one after another, each with the values that those before
/// it left.
pub(crate) fn update(assignments: &[Assignment<Variable>], values: &mut Values)
    requires { AreAssignmentsIn (counts (values.old ∷ [])) assignments.now }
    ensures { values.new ≡ updated assignments.now values.old }
{
    for assignment in assignments {
        let now = [*values];
        values.set(
            assignment.target.number.0 as usize,
            assignment.sum.eval(&now),
        );
    }
}

/// Does the assignments of an interaction at once: each sum is of the values that are there before.
pub(crate) fn transfer(assignments: &[Assignment<Variable>], values: &mut [Values])
    requires { AreAssignmentsIn (counts values.old) assignments.now }
    ensures { values.new ≡ transferred assignments.now values.old }
{
    if let [first, rest @ ..] = assignments {
        let number = first.sum.eval(values);
        transfer(rest, values);
        set_variable(values, first.target, number);
    }
}

fn set_variable(values: &mut [Values], target: Variable, number: u32)
    requires { IsVariableIn (counts values.old) target }
    ensures { values.new ≡ put_in values.old target number }
{
    values[target.owner as usize].set(target.number.0 as usize, number);
}
