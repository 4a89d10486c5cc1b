//! The guards and the lists of assignments that lines state, as the lines spell them: their form is
//! tested whole, and they are read where they are used, so that what is too long is never stored.
ghost use Rattle.std.specs.Prelude.{◌≡◌, ◌<◌, ◌||◌, ◌∷◌, [], Bool, List, Option, ℕ, IfNone};
ghost use Rattle.std.specs.Prelude.{is_some, length, nat_lt, IfSome};
ghost use Rattle.std.specs.List.{list_any};
ghost use Rattle.bip_model.specs.Scopes.{is_long_sum};
ghost use Rattle.bip_model.specs.Clauses.{assignment_form, clauses_form, comparison_form};
ghost use Rattle.bip_model.specs.Clauses.{head_of, list_form, pairs_form, relation_of, sign_of};
ghost use Rattle.bip_model.specs.Clauses.{signed_term_form, sum_form, term_form, variable_form};
ghost use Rattle.bip_model.specs.Clauses.{words_before, words_after};
ghost use Rattle.bip_model.specs.Words.{and_of, semicolon_of};

use crate::naming::is_text;
use crate::parts::{MOST_CLAUSES, MOST_TERMS};
use crate::words::{And, Do, Semicolon, When, Word, Words};
use crate::{Name, Relation, Sign, Term, VariableName, parse_value};
use std::marker;
use std::marker::PhantomData;

/// How a line spells variables: `v` inside a component, `C.v` in an interaction.
#[derive(Clone, Copy)]
pub enum Spelling {
    Own,
    Shared,
}

impl Word for Sign {
    ghost read_as = { sign_of };

    fn read(word: &[u8]) -> Option<Sign> {
        if is_text(word, b"+") {
            Some(Sign::Plus)
        } else if is_text(word, b"-") {
            Some(Sign::Minus)
        } else {
            None
        }
    }
}

impl Word for Relation {
    ghost read_as = { relation_of };

    fn read(word: &[u8]) -> Option<Relation> {
        if is_text(word, b"=") {
            Some(Relation::Equal)
        } else if is_text(word, b"!=") {
            Some(Relation::NotEqual)
        } else if is_text(word, b"<") {
            Some(Relation::Less)
        } else if is_text(word, b"<=") {
            Some(Relation::LessOrEqual)
        } else if is_text(word, b">") {
            Some(Relation::Greater)
        } else if is_text(word, b">=") {
            Some(Relation::GreaterOrEqual)
        } else {
            None
        }
    }
}

impl Spelling {
    fn variable(self, word: &[u8]) -> Option<VariableName>
        ensures { result ≡ variable_form self word.now }
    {
        match self {
            Spelling::Own => {
                let name = Name::read(word)?;
                Some(VariableName { owner: None, name })
            }
            Spelling::Shared => {
                let (owner, name) = <(Name, Name)>::read(word)?;
                Some(VariableName {
                    owner: Some(owner),
                    name,
                })
            }
        }
    }

    fn term(self, word: &[u8]) -> Option<Term<VariableName>>
        ensures { result ≡ term_form self word.now }
    {
        match parse_value(word) {
            Some(value) => Some(Term::Value(value)),
            None => Some(Term::Of(self.variable(word)?)),
        }
    }
}

/// Terms behind their signs, as a line spells them, down to none. Contracts see the list.
#[derive(Drop)]
pub struct SpelledTerms<'a> {
    spelling: Spelling,
    words: Words<'a>,
}

impl<'a> marker::Model for SpelledTerms<'a> {
    ghost use Rattle.std.specs.Prelude.{[], IsSome, List, unwrap_or};
    ghost use Rattle.bip_model.specs.declared.expressions.Sign.{Sign};
    ghost use Rattle.bip_model.specs.declared.expressions.Term.{Term};
    ghost use Rattle.bip_model.specs.declared.scopes.VariableName.{VariableName};
    ghost use Rattle.bip_model.specs.Clauses.{pairs_form, signed_term_form};

    ghost Value = { List (Sign × Term VariableName) };

    ghost view = { λ t. unwrap_or (pairs_form (signed_term_form t.spelling) t.words) [] };

    ghost invariant = { λ t. IsSome (pairs_form (signed_term_form t.spelling) t.words) };
}

impl<'a> SpelledTerms<'a> {
    fn of(spelling: Spelling, words: Words<'a>) -> Option<SpelledTerms<'a>>
        ensures { result ≡ pairs_form (signed_term_form spelling) words.entry }
    {
        if !are_signed_terms(spelling, &words) {
            return None;
        }
        Some(SpelledTerms { spelling, words })
    }

    /// The first, and those behind it; none where there is none.
    fn split_first(&self) -> Option<((Sign, Term<VariableName>), SpelledTerms<'a>)>
        ensures none { IfNone result (self.now ≡ []) }
        ensures some { IfSome result (λ parts. self.now ≡ parts.0 ∷ parts.1) }
    {
        let (sign, behind) = self.words.split_first()?;
        let (term, words) = behind.split_first()?;
        let first = signed_term(self.spelling, sign, term)?;
        let rest = SpelledTerms {
            spelling: self.spelling,
            words,
        };
        Some((first, rest))
    }

    /// How many there are.
    fn len(&self) -> usize
        ensures { result ≡ length self.now }
    {
        self.words.len() / 2
    }

    /// The same terms.
    pub(crate) fn each(&self) -> SpelledTerms<'a>
        ensures { result ≡ self.now }
    {
        SpelledTerms {
            spelling: self.spelling,
            words: self.words.all(),
        }
    }
}

impl<'a> Iterator for SpelledTerms<'a> {
    ghost use Rattle.std.specs.Iterator.{YieldsFirst, item_count};

    type Item = (Sign, Term<VariableName>);

    ghost next_gives = { YieldsFirst (λ left. left) };

    ghost remaining = { item_count (λ left. left) };

    fn next(&mut self) -> Option<(Sign, Term<VariableName>)> {
        let (first, rest) = self.split_first()?;
        *self = rest;
        Some(first)
    }
}

/// A term behind its sign.
fn signed_term(spelling: Spelling, sign: &[u8], term: &[u8]) -> Option<(Sign, Term<VariableName>)>
    ensures { result ≡ signed_term_form spelling sign.now term.now }
{
    Some((Sign::read(sign)?, spelling.term(term)?))
}

/// Whether words are terms behind their signs, down to none.
#[tactic(auto, using(crate::proofs::ClauseLemmas::first_read))]
fn are_signed_terms(spelling: Spelling, words: &Words<'_>) -> bool
    ensures { result ≡ is_some (pairs_form (signed_term_form spelling) words.now) }
{
    let mut rest = words.all();
    while let Some((sign, behind)) = rest.split_first() {
        let Some((term, behind)) = behind.split_first() else {
            return false;
        };
        if signed_term(spelling, sign, term).is_none() {
            return false;
        }
        rest = behind;
    }
    true
}

/// A sum as a line spells it. Contracts see the sum.
#[derive(Drop)]
pub struct SpelledSum<'a> {
    pub(crate) first: Term<VariableName>,
    pub(crate) rest: SpelledTerms<'a>,
}

impl<'a> marker::Model for SpelledSum<'a> {
    ghost use Rattle.bip_model.specs.declared.expressions.Expr.{Expr};
    ghost use Rattle.bip_model.specs.declared.scopes.VariableName.{VariableName};

    ghost Value = { Expr VariableName };

    ghost view = { λ s. record { first = s.first; rest = s.rest } };
}

impl<'a> SpelledSum<'a> {
    fn of(spelling: Spelling, words: &Words<'a>) -> Option<SpelledSum<'a>>
        ensures { result ≡ sum_form spelling words.now }
    {
        let (first, rest) = words.split_first()?;
        Some(SpelledSum {
            first: spelling.term(first)?,
            rest: SpelledTerms::of(spelling, rest)?,
        })
    }

    /// Whether it has more terms than a model's sum may have.
    fn is_long(&self) -> bool
        ensures { result ≡ is_long_sum self.now }
    {
        MOST_TERMS <= self.rest.len()
    }
}

/// A comparison as a line spells it. Contracts see the comparison.
#[derive(Drop)]
pub struct SpelledComparison<'a> {
    pub(crate) left: SpelledSum<'a>,
    pub(crate) relation: Relation,
    pub(crate) right: SpelledSum<'a>,
}

impl<'a> marker::Model for SpelledComparison<'a> {
    ghost use Rattle.bip_model.specs.declared.expressions.Comparison.{Comparison};
    ghost use Rattle.bip_model.specs.declared.scopes.VariableName.{VariableName};

    ghost Value = { Comparison VariableName };

    ghost view = { λ c. record { left = c.left; relation = c.relation; right = c.right } };
}

/// An assignment as a line spells it. Contracts see the assignment.
#[derive(Drop)]
pub struct SpelledAssignment<'a> {
    pub(crate) target: VariableName,
    pub(crate) sum: SpelledSum<'a>,
}

impl<'a> marker::Model for SpelledAssignment<'a> {
    ghost use Rattle.bip_model.specs.declared.expressions.Assignment.{Assignment};
    ghost use Rattle.bip_model.specs.declared.scopes.VariableName.{VariableName};

    ghost Value = { Assignment VariableName };

    ghost view = { λ a. record { target = a.target; sum = a.sum } };
}

/// What a comparison or an assignment is among others of its kind.
pub trait Clause: Drop {
    ghost use Rattle.bip_model.specs.declared.clauses.Spelling.{Spelling};

    /// What stands between two of them.
    type Mark: Word;

    ghost form: { Spelling → List (List ℕ) → Option Self };

    ghost is_long: { Self → Bool };

    /// Whether a sum of it has more terms than a model's may have.
    fn is_long(&self) -> bool
        ensures { result ≡ is_long self.now };
}

/// A clause as words spell it.
pub trait Spelled<'a>: Clause {
    /// What the words are; none where they lack the form.
    fn of(spelling: Spelling, words: &Words<'a>) -> Option<Self>
        ensures { result ≡ Self.form spelling words.now };
}

impl<'a> Clause for SpelledComparison<'a> {
    type Mark = And;

    ghost form = { comparison_form };

    ghost is_long = { λ c. is_long_sum c.left || is_long_sum c.right };

    fn is_long(&self) -> bool {
        self.left.is_long() || self.right.is_long()
    }
}

impl<'a> Spelled<'a> for SpelledComparison<'a> {
    fn of(spelling: Spelling, words: &Words<'a>) -> Option<SpelledComparison<'a>> {
        let (left, relation, right) = words.cut::<Relation>()?;
        Some(SpelledComparison {
            left: SpelledSum::of(spelling, &left)?,
            relation,
            right: SpelledSum::of(spelling, &right)?,
        })
    }
}

impl<'a> Clause for SpelledAssignment<'a> {
    type Mark = Semicolon;

    ghost form = { assignment_form };

    ghost is_long = { λ a. is_long_sum a.sum };

    fn is_long(&self) -> bool {
        self.sum.is_long()
    }
}

impl<'a> Spelled<'a> for SpelledAssignment<'a> {
    fn of(spelling: Spelling, words: &Words<'a>) -> Option<SpelledAssignment<'a>> {
        let (target, rest) = words.split_first()?;
        let (mark, sum) = rest.split_first()?;
        if !is_text(mark, b":=") {
            return None;
        }
        Some(SpelledAssignment {
            target: spelling.variable(target)?,
            sum: SpelledSum::of(spelling, &sum)?,
        })
    }
}

/// Clauses as a line spells them, with their marks between them; none where the line has no list of
/// them. They are read when they are asked for, so none is stored. Contracts see the list.
#[derive(Drop)]
pub struct Clauses<'a, C: Clause> {
    spelling: Spelling,
    rest: Option<Words<'a>>,
    kind: PhantomData<C>,
}

/// The comparisons of a guard.
pub type Guard<'a> = Clauses<'a, SpelledComparison<'a>>;

/// The assignments of an update or of a transfer.
pub type Assignments<'a> = Clauses<'a, SpelledAssignment<'a>>;

impl<'a, C: Clause> marker::Model for Clauses<'a, C> {
    ghost use Rattle.std.specs.Prelude.{[], IsSome, List, unwrap_or};
    ghost use Rattle.bip_model.specs.Clauses.{list_form};

    ghost Value = { List C };

    ghost view = { λ l. unwrap_or (list_form (C.form l.spelling) C.Mark.read_as l.rest) [] };

    ghost invariant = { λ l. IsSome (list_form (C.form l.spelling) C.Mark.read_as l.rest) };
}

impl<'a, C: Spelled<'a>> Clauses<'a, C> {
    /// The clauses that words are between their marks; none where they lack the form. Where there
    /// are no words there is no clause.
    pub fn of(spelling: Spelling, words: Option<Words<'a>>) -> Option<Clauses<'a, C>>
        ensures { result ≡ list_form (C.form spelling) C.Mark.read_as words.entry }
    {
        if !are_clauses::<C>(spelling, same_words(&words)) {
            return None;
        }
        Some(Clauses {
            spelling,
            rest: words,
            kind: PhantomData,
        })
    }

    /// The first, and those behind it; none where there is none.
    fn split_first(&self) -> Option<(C, Clauses<'a, C>)>
        ensures none { IfNone result (self.now ≡ []) }
        ensures some { IfSome result (λ parts. self.now ≡ parts.0 ∷ parts.1) }
    {
        let words = self.rest.as_ref()?;
        let (clause, rest) = cut_off::<C::Mark>(words);
        let first = C::of(self.spelling, &clause)?;
        let rest = Clauses {
            spelling: self.spelling,
            rest,
            kind: PhantomData,
        };
        Some((first, rest))
    }

    /// They, one after another.
    pub(crate) fn each(&self) -> Clauses<'a, C>
        ensures { result ≡ self.now }
    {
        Clauses {
            spelling: self.spelling,
            rest: same_words(&self.rest),
            kind: PhantomData,
        }
    }

    /// Whether they are more, or have a sum of more terms, than a model may have.
    pub(crate) fn are_long(&self) -> bool
        ensures { result ≡ (nat_lt 16 (length self.now) || list_any C.is_long self.now) }
    {
        let mut count = 0;
        for clause in self.each() {
            if count == MOST_CLAUSES || clause.is_long() {
                return true;
            }
            count += 1;
        }
        false
    }
}

impl<'a, C: Spelled<'a>> Iterator for Clauses<'a, C> {
    ghost use Rattle.std.specs.Iterator.{YieldsFirst, item_count};

    type Item = C;

    ghost next_gives = { YieldsFirst (λ left. left) };

    ghost remaining = { item_count (λ left. left) };

    fn next(&mut self) -> Option<C> {
        let (first, rest) = self.split_first()?;
        *self = rest;
        Some(first)
    }
}

/// Whether words are clauses between their marks, or aren't there.
#[tactic(auto, using(crate::proofs::ClauseLemmas::list_reads))]
fn are_clauses<'a, C: Spelled<'a>>(spelling: Spelling, words: Option<Words<'a>>) -> bool
    ensures { result ≡ is_some (list_form (C.form spelling) C.Mark.read_as words.entry) }
{
    let mut rest = words;
    while let Some(words) = &rest {
        let (clause, behind) = cut_off::<C::Mark>(words);
        if C::of(spelling, &clause).is_none() {
            return false;
        }
        rest = behind;
    }
    true
}

fn same_words<'a>(words: &Option<Words<'a>>) -> Option<Words<'a>>
    ensures { result ≡ words.now }
{
    Some(words.as_ref()?.all())
}

/// The words before the first mark, all where there is none, and those behind it, if it is there.
fn cut_off<'a, M: Word>(words: &Words<'a>) -> (Words<'a>, Option<Words<'a>>)
    ensures before { result.0 ≡ words_before M.read_as words.now }
    ensures behind { result.1 ≡ words_after M.read_as words.now }
    ensures shorter { IfSome result.1 (λ behind. length behind < length words.now) }
{
    match words.cut::<M>() {
        None => (words.all(), None),
        Some((before, _mark, behind)) => (before, Some(behind)),
    }
}

/// A line's words before its guard and its assignments.
pub fn head_of<'a>(words: &Words<'a>) -> Words<'a>
    ensures { result ≡ head_of words.now }
{
    let (front, _) = cut_off::<Do>(words);
    cut_off::<When>(&front).0
}

/// The guard and the assignments of a line; none where they lack their form.
pub fn clauses_of<'a>(spelling: Spelling, words: &Words<'a>) -> Option<(Guard<'a>, Assignments<'a>)>
    ensures { result ≡ clauses_form spelling words.now }
{
    let (front, assignments) = cut_off::<Do>(words);
    let (_, guard) = cut_off::<When>(&front);
    Some((
        Guard::of(spelling, guard)?,
        Assignments::of(spelling, assignments)?,
    ))
}
