//! Writing models.
ghost use Rattle.std.specs.Prelude.{◌≡◌, ◌==◌, ◌<◌, ◌++◌, ◌∷◌, ◌^◌, [], All, IfOk, OnOk, length};
ghost use Rattle.std.specs.Prelude.{if◌then◌else◌, map};
ghost use Rattle.std.specs.Fmt.{decimal};
ghost use Rattle.std.specs.List.{flat_map, range_with_len};
ghost use Rattle.bip_model.specs.Expressions.{AreAssignmentsIn, AreComparisonsIn, IsAssignmentIn};
ghost use Rattle.bip_model.specs.Expressions.{IsComparisonIn, IsExprIn, IsTermIn, IsVariableIn};
ghost use Rattle.bip_model.specs.Naming.{IsName, name_in};
ghost use Rattle.bip_model.specs.Partitions.{AreClassesOf, IsClasses};
ghost use Rattle.bip_model.specs.Parts.{IsComponent, IsInteraction, IsPortIn, IsSystem};
ghost use Rattle.bip_model.specs.Parts.{IsTransitionOf};
ghost use Rattle.bip_model.specs.Priorities.{IsPairOf};
ghost use Rattle.bip_model.specs.Texts.{spaced};
ghost use Rattle.bip_model.specs.declared.numbering.InterId.{InterId};
ghost use Rattle.bip_reader.specs.Texts.{Means};
ghost use Rattle.bip_reader.specs.Writing.{counts_for, line_of_class, line_of_interaction};
ghost use Rattle.bip_reader.specs.Writing.{line_of_name, line_of_priority, line_of_transition};
ghost use Rattle.bip_reader.specs.Writing.{line_of_variable, words_of_ends};
ghost use Rattle.bip_reader.specs.Writing.{line_with, lines_of_component, lines_of_components};
ghost use Rattle.bip_reader.specs.Writing.{lines_of_interactions, lines_of_variables, pair_word};
ghost use Rattle.bip_reader.specs.Writing.{participant_word, relation_word, sign_word, term_word};
ghost use Rattle.bip_reader.specs.Writing.{text_of_model, variable_word, words_of_assignment};
ghost use Rattle.bip_reader.specs.Writing.{words_of_assignments, words_of_comparison};
ghost use Rattle.bip_reader.specs.Writing.{words_of_guard, words_of_sum};
ghost use Rattle.bip_reader.specs.Writing.{AreSpelledAssignments, AreSpelledComponents};
ghost use Rattle.bip_reader.specs.Writing.{AreSpelledInteractions, AreSpelledStarts};
ghost use Rattle.bip_reader.specs.Writing.{IsSpelledComparison, IsSpelledComponent};
ghost use Rattle.bip_reader.specs.Writing.{IsSpelledGuard, IsSpelledInteraction, IsSpelledStart};
ghost use Rattle.bip_reader.specs.Writing.{IsSpelledSum, IsSpelledTerm, IsSpelledTransition};

use bip_model::{
    Assignment, ClassId, Classes, CompId, Comparison, Component, Expr, InterId, Interaction, Model,
    Name, PORT_MARK, Pair, PortId, Relation, Sign, Term, Transition, Variable, write_word,
};
use itoa::Buffer;
use std::alloc::{AllocError, Global};

/// How variables are spelled: `v` inside of a component, `C.v` in an interaction of participants
/// (docs/ANSWERS.md, "Canonical texts").
#[derive(Clone, Copy)]
pub enum Speller<'a> {
    Own(&'a Component),
    Shared(&'a Model, &'a [(CompId, PortId)]),
}

/// Puts `C.p` last in a text, behind a space.
fn write_pair(text: &mut Vec<u8>, component: &Name, own: &Name) -> Result<(), AllocError>
    ensures { OnOk result
        (text.new.items ≡ text.old.items ++ spaced (pair_word component.now own.now)) }
{
    write_word(text, component.as_bytes())?;
    text.push(PORT_MARK)?;
    text.extend_from_slice(own.as_bytes())
}

fn write_value(text: &mut Vec<u8>, value: u32) -> Result<(), AllocError>
    ensures text { OnOk result (text.new.items ≡ text.old.items ++ spaced (decimal value)) }
    ensures spelled { OnOk result (value < 2 ^ 32) }
{
    write_word(text, Buffer::new().format(value).as_bytes())
}

fn write_sign(text: &mut Vec<u8>, sign: Sign) -> Result<(), AllocError>
    ensures { OnOk result (text.new.items ≡ text.old.items ++ spaced (sign_word sign)) }
{
    match sign {
        Sign::Plus => write_word(text, b"+"),
        Sign::Minus => write_word(text, b"-"),
    }
}

fn write_relation(text: &mut Vec<u8>, relation: Relation) -> Result<(), AllocError>
    ensures { OnOk result (text.new.items ≡ text.old.items ++ spaced (relation_word relation)) }
{
    match relation {
        Relation::Equal => write_word(text, b"="),
        Relation::NotEqual => write_word(text, b"!="),
        Relation::Less => write_word(text, b"<"),
        Relation::LessOrEqual => write_word(text, b"<="),
        Relation::Greater => write_word(text, b">"),
        Relation::GreaterOrEqual => write_word(text, b">="),
    }
}

/// Puts the word before the first part of a list last in a text, or the mark before a later one.
fn write_mark(text: &mut Vec<u8>, index: usize, first: &[u8], mark: &[u8]) -> Result<(), AllocError>
    ensures { OnOk result (text.new.items
        ≡ text.old.items ++ spaced (if index == 0 then first.now else mark.now)) }
{
    if index == 0 {
        write_word(text, first)
    } else {
        write_word(text, mark)
    }
}

impl<'a> Speller<'a> {
    fn write_variable(&self, text: &mut Vec<u8>, variable: Variable) -> Result<(), AllocError>
        requires { IsVariableIn (counts_for self.now) variable }
        ensures { OnOk result
            (text.new.items ≡ text.old.items ++ spaced (variable_word self.now variable)) }
    {
        let number = variable.number.0 as usize;
        match self {
            Speller::Own(component) => {
                write_word(text, component.variables.as_slice()[number].as_bytes())
            }
            Speller::Shared(model, participants) => {
                let comp = participants[variable.owner as usize].0.0 as usize;
                let own = &model.components()[comp].variables.as_slice()[number];
                write_pair(text, &model.component_names()[comp], own)
            }
        }
    }

    fn write_term(&self, text: &mut Vec<u8>, term: Term<Variable>) -> Result<(), AllocError>
        requires { IsTermIn (counts_for self.now) term }
        ensures text { OnOk result (text.new.items
            ≡ text.old.items ++ spaced (term_word (variable_word self.now) term)) }
        ensures spelled { OnOk result (IsSpelledTerm term) }
    {
        match term {
            Term::Value(value) => write_value(text, value),
            Term::Of(variable) => self.write_variable(text, variable),
        }
    }

    fn write_sum(&self, text: &mut Vec<u8>, sum: &Expr<Variable>) -> Result<(), AllocError>
        requires { IsExprIn (counts_for self.now) sum.now }
        ensures text { OnOk result (text.new.items ≡ text.old.items
            ++ flat_map spaced (words_of_sum (variable_word self.now) sum.now)) }
        ensures spelled { OnOk result (IsSpelledSum sum.now) }
    {
        self.write_term(text, sum.first)?;
        for term in sum.rest.as_slice() {
            write_sign(text, term.0)?;
            self.write_term(text, term.1)?;
        }
        Ok(())
    }

    /// Puts a comparison last in a text, each word behind a space. Without memory what was put
    /// there is no comparison.
    pub fn write_comparison(
        &self,
        text: &mut Vec<u8>,
        comparison: &Comparison<Variable>,
    ) -> Result<(), AllocError>
        requires { IsComparisonIn (counts_for self.now) comparison.now }
        ensures text { OnOk result (text.new.items ≡ text.old.items
            ++ flat_map spaced (words_of_comparison (variable_word self.now) comparison.now)) }
        ensures spelled { OnOk result (IsSpelledComparison comparison.now) }
    {
        self.write_sum(text, &comparison.left)?;
        write_relation(text, comparison.relation)?;
        self.write_sum(text, &comparison.right)
    }

    /// The same of an assignment.
    pub fn write_assignment(
        &self,
        text: &mut Vec<u8>,
        assignment: &Assignment<Variable>,
    ) -> Result<(), AllocError>
        requires { IsAssignmentIn (counts_for self.now) assignment.now }
        ensures text { OnOk result (text.new.items ≡ text.old.items
            ++ flat_map spaced (words_of_assignment (variable_word self.now) assignment.now)) }
        ensures spelled { OnOk result (IsSpelledSum assignment.now.sum) }
    {
        self.write_variable(text, assignment.target)?;
        write_word(text, b":=")?;
        self.write_sum(text, &assignment.sum)
    }

    fn write_guard(
        &self,
        text: &mut Vec<u8>,
        guard: &[Comparison<Variable>],
    ) -> Result<(), AllocError>
        requires { AreComparisonsIn (counts_for self.now) guard.now }
        ensures text { OnOk result (text.new.items ≡ text.old.items
            ++ flat_map spaced (words_of_guard (variable_word self.now) guard.now)) }
        ensures spelled { OnOk result (IsSpelledGuard guard.now) }
    {
        for (index, comparison) in guard.iter().enumerate() {
            write_mark(text, index, b"when", b"and")?;
            self.write_comparison(text, comparison)?;
        }
        Ok(())
    }

    fn write_assignments(
        &self,
        text: &mut Vec<u8>,
        assignments: &[Assignment<Variable>],
    ) -> Result<(), AllocError>
        requires { AreAssignmentsIn (counts_for self.now) assignments.now }
        ensures text { OnOk result (text.new.items ≡ text.old.items
            ++ flat_map spaced (words_of_assignments (variable_word self.now) assignments.now)) }
        ensures spelled { OnOk result (AreSpelledAssignments assignments.now) }
    {
        for (index, assignment) in assignments.iter().enumerate() {
            write_mark(text, index, b"do", b";")?;
            self.write_assignment(text, assignment)?;
        }
        Ok(())
    }

    /// The guard and the assignments of a line.
    fn write_clauses(
        &self,
        text: &mut Vec<u8>,
        guard: &[Comparison<Variable>],
        assignments: &[Assignment<Variable>],
    ) -> Result<(), AllocError>
        requires guard { AreComparisonsIn (counts_for self.now) guard.now }
        requires assignments { AreAssignmentsIn (counts_for self.now) assignments.now }
        ensures text { OnOk result (text.new.items ≡ text.old.items
            ++ flat_map spaced (words_of_guard (variable_word self.now) guard.now
            ++ words_of_assignments (variable_word self.now) assignments.now)) }
        ensures spelled { OnOk result
            (IsSpelledGuard guard.now × AreSpelledAssignments assignments.now) }
    {
        self.write_guard(text, guard)?;
        self.write_assignments(text, assignments)
    }
}

/// A line of a first word and a name.
fn write_name(text: &mut Vec<u8>, keyword: &[u8], name: &Name) -> Result<(), AllocError>
    ensures text { OnOk result
        (text.new.items ≡ text.old.items ++ line_with keyword.now (name.now ∷ [])) }
    ensures spelled { OnOk result (IsName name.now) }
{
    text.extend_from_slice(keyword)?;
    write_word(text, name.as_bytes())?;
    text.push(b'\n')?;
    Ok(())
}

/// Such a line of each name.
fn write_names(text: &mut Vec<u8>, keyword: &[u8], names: &[Name]) -> Result<(), AllocError>
    ensures text { OnOk result
        (text.new.items ≡ text.old.items ++ flat_map (line_of_name keyword.now) names.now) }
    ensures spelled { OnOk result (All IsName names.now) }
{
    for name in names {
        write_name(text, keyword, name)?;
    }
    Ok(())
}

/// `var NAME VALUE`
fn write_start(text: &mut Vec<u8>, component: &Component, number: usize) -> Result<(), AllocError>
    requires name { number < length component.now.variables }
    requires value { number < length component.now.start }
    ensures text { OnOk result
        (text.new.items ≡ text.old.items ++ line_of_variable component.now number) }
    ensures spelled { OnOk result (IsSpelledStart component.now number) }
{
    text.extend_from_slice(b"var")?;
    write_word(text, component.variables.as_slice()[number].as_bytes())?;
    write_value(text, component.start.as_slice()[number])?;
    text.push(b'\n')?;
    Ok(())
}

/// Such a line of each variable.
fn write_starts(text: &mut Vec<u8>, component: &Component) -> Result<(), AllocError>
    requires { length component.now.start ≡ length component.now.variables }
    ensures text { OnOk result
        (text.new.items ≡ text.old.items ++ lines_of_variables component.now) }
    ensures spelled { OnOk result (AreSpelledStarts component.now) }
{
    for number in 0..component.variables.len() {
        write_start(text, component, number)?;
    }
    Ok(())
}

/// The names of a transition's port, source and target.
fn write_ends(
    text: &mut Vec<u8>,
    component: &Component,
    transition: &Transition,
) -> Result<(), AllocError>
    requires { IsTransitionOf component.now transition.now }
    ensures { OnOk result (text.new.items
        ≡ text.old.items ++ flat_map spaced (words_of_ends component.now transition.now)) }
{
    let locations = component.locations.as_slice();
    write_word(
        text,
        component.ports.as_slice()[transition.port.0 as usize].as_bytes(),
    )?;
    write_word(text, locations[transition.source.0 as usize].as_bytes())?;
    write_word(text, locations[transition.target.0 as usize].as_bytes())
}

/// `trans PORT FROM TO [when GUARD] [do ASSIGNS]`
fn write_transition(
    text: &mut Vec<u8>,
    component: &Component,
    transition: &Transition,
) -> Result<(), AllocError>
    requires { IsTransitionOf component.now transition.now }
    ensures text { OnOk result (text.new.items
        ≡ text.old.items ++ line_of_transition component.now transition.now) }
    ensures spelled { OnOk result (IsSpelledTransition transition.now) }
{
    text.extend_from_slice(b"trans")?;
    write_ends(text, component, transition)?;
    let speller = Speller::Own(component);
    speller.write_clauses(
        text,
        transition.guard.as_slice(),
        transition.update.as_slice(),
    )?;
    text.push(b'\n')?;
    Ok(())
}

/// Such a line of each transition.
fn write_transitions(text: &mut Vec<u8>, component: &Component) -> Result<(), AllocError>
    requires { All (IsTransitionOf component.now) component.now.transitions }
    ensures text { OnOk result (text.new.items
        ≡ text.old.items ++ flat_map (line_of_transition component.now) component.now.transitions) }
    ensures spelled { OnOk result (All IsSpelledTransition component.now.transitions) }
{
    for transition in component.transitions.as_slice() {
        write_transition(text, component, transition)?;
    }
    Ok(())
}

/// All lines of a component.
fn write_component(text: &mut Vec<u8>, name: &Name, component: &Component) -> Result<(), AllocError>
    requires { IsComponent component.now }
    ensures text { OnOk result
        (text.new.items ≡ text.old.items ++ lines_of_component name.now component.now) }
    ensures spelled { OnOk result (IsName name.now × IsSpelledComponent component.now) }
{
    write_name(text, b"component", name)?;
    write_starts(text, component)?;
    write_names(text, b"loc", component.locations.as_slice())?;
    write_names(text, b"port", component.ports.as_slice())?;
    write_transitions(text, component)?;
    text.extend_from_slice(b"end\n")
}

fn write_components(text: &mut Vec<u8>, model: &Model) -> Result<(), AllocError>
    ensures text { OnOk result (text.new.items ≡ text.old.items ++ lines_of_components model.now) }
    ensures spelled { OnOk result (AreSpelledComponents model.now) }
    ensures valid { IsSystem model.now }
{
    let names = model.component_names();
    for number in 0..model.components().len() {
        write_component(text, &names[number], &model.components()[number])?;
    }
    Ok(())
}

fn write_participants(
    text: &mut Vec<u8>,
    model: &Model,
    participants: &[(CompId, PortId)],
) -> Result<(), AllocError>
    requires { All (IsPortIn model.now.components) participants.now }
    ensures { OnOk result (text.new.items
        ≡ text.old.items ++ flat_map spaced (map (participant_word model.now) participants.now)) }
{
    for participant in participants {
        write_participant(text, model, *participant)?;
    }
    Ok(())
}

fn write_participant(
    text: &mut Vec<u8>,
    model: &Model,
    participant: (CompId, PortId),
) -> Result<(), AllocError>
    requires { IsPortIn model.now.components participant }
    ensures { OnOk result
        (text.new.items ≡ text.old.items ++ spaced (participant_word model.now participant)) }
{
    let comp = participant.0.0 as usize;
    let port = &model.components()[comp].ports.as_slice()[participant.1.0 as usize];
    write_pair(text, &model.component_names()[comp], port)
}

/// `interaction NAME C.p C.p .. [when GUARD] [do ASSIGNS]`
fn write_interaction(
    text: &mut Vec<u8>,
    model: &Model,
    name: &Name,
    interaction: &Interaction,
) -> Result<(), AllocError>
    requires { IsInteraction model.now.components interaction.now }
    ensures text { OnOk result (text.new.items
        ≡ text.old.items ++ line_of_interaction model.now name.now interaction.now) }
    ensures spelled { OnOk result (IsName name.now × IsSpelledInteraction interaction.now) }
{
    let participants = interaction.participants.as_slice();
    let speller = Speller::Shared(model, participants);
    text.extend_from_slice(b"interaction")?;
    write_word(text, name.as_bytes())?;
    write_participants(text, model, participants)?;
    speller.write_clauses(
        text,
        interaction.guard.as_slice(),
        interaction.transfer.as_slice(),
    )?;
    text.push(b'\n')?;
    Ok(())
}

fn write_interactions(text: &mut Vec<u8>, model: &Model) -> Result<(), AllocError>
    ensures text { OnOk result
        (text.new.items ≡ text.old.items ++ lines_of_interactions model.now) }
    ensures spelled { OnOk result (AreSpelledInteractions model.now) }
{
    let names = model.interaction_names();
    for number in 0..model.interactions().len() {
        write_interaction(text, model, &names[number], &model.interactions()[number])?;
    }
    Ok(())
}

/// `priority LOW < HIGH`
fn write_priority(text: &mut Vec<u8>, model: &Model, pair: Pair) -> Result<(), AllocError>
    requires { IsPairOf (length model.now.interactions) pair }
    ensures { OnOk result (text.new.items ≡ text.old.items ++ line_of_priority model.now pair) }
{
    let names = model.interaction_names();
    text.extend_from_slice(b"priority")?;
    write_word(text, names[pair.low.0 as usize].as_bytes())?;
    write_word(text, b"<")?;
    write_word(text, names[pair.high.0 as usize].as_bytes())?;
    text.push(b'\n')?;
    Ok(())
}

fn write_priorities(text: &mut Vec<u8>, model: &Model) -> Result<(), AllocError>
    ensures { OnOk result (text.new.items
        ≡ text.old.items ++ flat_map (line_of_priority model.now) model.now.priorities) }
{
    for pair in model.priorities() {
        write_priority(text, model, *pair)?;
    }
    Ok(())
}

fn write_members(text: &mut Vec<u8>, model: &Model, members: &[InterId]) -> Result<(), AllocError>
    requires { All (λ (a : InterId). a.0 < length model.now.interactions) members.now }
    ensures { OnOk result (text.new.items ≡ text.old.items
        ++ flat_map spaced (map (λ (a : InterId). name_in model.now.interaction_names a.0)
        members.now)) }
{
    let names = model.interaction_names();
    for member in members {
        write_word(text, names[member.0 as usize].as_bytes())?;
    }
    Ok(())
}

/// `class NAME INTER INTER ..`
fn write_class(
    text: &mut Vec<u8>,
    model: &Model,
    classes: &Classes,
    class: ClassId,
) -> Result<(), AllocError>
    requires of_model { AreClassesOf model.now classes.now }
    requires name { class.0 < length classes.now.names }
    requires members { class.0 < length classes.now.members }
    ensures text { OnOk result
        (text.new.items ≡ text.old.items ++ line_of_class model.now classes.now class.0) }
    ensures spelled { OnOk result (IsName (name_in classes.now.names class.0)) }
{
    text.extend_from_slice(b"class")?;
    write_word(text, classes.names()[class.0 as usize].as_bytes())?;
    write_members(text, model, classes.members(class))?;
    text.push(b'\n')?;
    Ok(())
}

fn write_classes(text: &mut Vec<u8>, model: &Model, classes: &Classes) -> Result<(), AllocError>
    requires { AreClassesOf model.now classes.now }
    ensures text { OnOk result (text.new.items ≡ text.old.items
        ++ flat_map (line_of_class model.now classes.now)
        (range_with_len 0 (length classes.now.names))) }
    ensures spelled { OnOk result (All IsName classes.now.names) }
    ensures valid { IsClasses classes.now }
{
    for number in 0..classes.len() {
        write_class(text, model, classes, ClassId(number as u16))?;
    }
    Ok(())
}

/// The canonical text of a model and its classes: its components in order, each with its variables,
/// locations, ports and transitions; then interactions, priorities and classes, each in order. It
/// means just this model and these classes, so what is read of it is written as the same bytes
/// (docs/ANSWERS.md, "Canonical texts").
pub fn write_model(alloc: Global, model: &Model, classes: &Classes) -> Result<Vec<u8>, AllocError>
    requires { AreClassesOf model.now classes.now }
    ensures text { IfOk result (λ text. text.items ≡ text_of_model model.now classes.now) }
    ensures means { IfOk result (λ text. Means text.items model.now classes.now) }
{
    let mut text = Vec::new(alloc);
    text.extend_from_slice(b"bip 1\n")?;
    write_components(&mut text, model)?;
    write_interactions(&mut text, model)?;
    write_priorities(&mut text, model)?;
    write_classes(&mut text, model, classes)?;
    Ok(text)
}
