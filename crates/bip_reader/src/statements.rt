//! The forms of lines: from the words of a line to what it states.
ghost use Rattle.std.specs.Prelude.{◌≡◌, IfSome};
ghost use Rattle.bip_model.specs.Naming.{same_text};
ghost use Rattle.bip_reader.specs.declared.statements.Keyword.TheVariants as keyword_is;
ghost use Rattle.bip_reader.specs.Statements.{class_form, end_form, header_form, interaction_form};
ghost use Rattle.bip_reader.specs.Statements.{keyword_in, keyword_of, name_and_words, one_name};
ghost use Rattle.bip_reader.specs.Statements.{priority_form, statement_of, three_names, trans_form};
ghost use Rattle.bip_reader.specs.Statements.{var_form};

use bip_model::{
    Assignments, Guard, Name, OneOrMore, Spelling, Word, Words, clauses_of, head_of, is_text,
    parse_value,
};

/// The word that a line begins with.
#[derive(Clone, Copy)]
pub(crate) enum Keyword {
    Bip,
    Component,
    Var,
    Loc,
    Port,
    Trans,
    End,
    Interaction,
    Priority,
    Class,
}

/// What a line states: a case for each form of a line. What it lists stays in the line, as words.
#[derive(Drop)]
pub(crate) enum Statement<'a> {
    Header,
    Component(Name),
    Var {
        name: Name,
        value: u32,
    },
    Loc(Name),
    Port(Name),
    Trans {
        port: Name,
        source: Name,
        target: Name,
        guard: Guard<'a>,
        update: Assignments<'a>,
    },
    End,
    Interaction {
        name: Name,
        participants: OneOrMore<'a, (Name, Name)>,
        guard: Guard<'a>,
        transfer: Assignments<'a>,
    },
    Priority {
        low: Name,
        high: Name,
    },
    Class {
        name: Name,
        interactions: OneOrMore<'a, Name>,
    },
}

/// What a line with this keyword states, by the words that follow; none where they lack its form.
/// Nothing of them is stored.
pub(crate) fn read_statement<'a>(keyword: Keyword, words: &Words<'a>) -> Option<Statement<'a>>
    ensures said { result ≡ statement_of keyword words.now }
    ensures keyword { IfSome result (λ statement. keyword_in statement ≡ keyword) }
{
    match keyword {
        Keyword::Bip => header(words),
        Keyword::Component => Some(Statement::Component(only_name(words)?)),
        Keyword::Var => variable(words),
        Keyword::Loc => Some(Statement::Loc(only_name(words)?)),
        Keyword::Port => Some(Statement::Port(only_name(words)?)),
        Keyword::Trans => transition(words),
        Keyword::End => end(words),
        Keyword::Interaction => interaction(words),
        Keyword::Priority => priority(words),
        Keyword::Class => class(words),
    }
}

#[tactic(auto, unfolding(crate::specs::Statements::interaction_form))]
fn interaction<'a>(words: &Words<'a>) -> Option<Statement<'a>>
    ensures form { result ≡ interaction_form words.now }
    ensures keyword { IfSome result (λ statement. keyword_in statement ≡ keyword_is.Interaction) }
{
    let (name, participants) = name_and_words(&head_of(words))?;
    let (guard, transfer) = clauses_of(Spelling::Shared, words)?;
    Some(Statement::Interaction {
        name,
        participants,
        guard,
        transfer,
    })
}

#[tactic(auto, unfolding(crate::specs::Statements::class_form))]
fn class<'a>(words: &Words<'a>) -> Option<Statement<'a>>
    ensures form { result ≡ class_form words.now }
    ensures keyword { IfSome result (λ statement. keyword_in statement ≡ keyword_is.Class) }
{
    let (name, interactions) = name_and_words(words)?;
    Some(Statement::Class { name, interactions })
}

/// A name, and what the words behind it are.
#[tactic(auto, unfolding(crate::specs::Statements::name_and_words))]
fn name_and_words<'a, W: Word>(words: &Words<'a>) -> Option<(Name, OneOrMore<'a, W>)>
    ensures { result ≡ name_and_words W.read_as words.now }
{
    let (word, rest) = words.split_first()?;
    Some((Name::read(word)?, OneOrMore::of(&rest)?))
}

#[tactic(auto, unfolding(crate::specs::Statements::header_form))]
fn header<'a>(words: &Words<'a>) -> Option<Statement<'a>>
    ensures form { result ≡ header_form words.now }
    ensures keyword { IfSome result (λ statement. keyword_in statement ≡ keyword_is.Bip) }
{
    let (version, rest) = words.split_first()?;
    match rest.split_first() {
        None if is_text(version, b"1") => Some(Statement::Header),
        _ => None,
    }
}

#[tactic(auto, unfolding(crate::specs::Statements::one_name))]
fn only_name(words: &Words<'_>) -> Option<Name>
    ensures { result ≡ one_name words.now }
{
    let (word, rest) = words.split_first()?;
    match rest.split_first() {
        None => Name::read(word),
        Some(_) => None,
    }
}

#[tactic(auto, unfolding(crate::specs::Statements::var_form))]
fn variable<'a>(words: &Words<'a>) -> Option<Statement<'a>>
    ensures form { result ≡ var_form words.now }
    ensures keyword { IfSome result (λ statement. keyword_in statement ≡ keyword_is.Var) }
{
    let (name, rest) = words.split_first()?;
    let (value, rest) = rest.split_first()?;
    if let Some(_) = rest.split_first() {
        return None;
    }
    Some(Statement::Var {
        name: Name::read(name)?,
        value: parse_value(value)?,
    })
}

#[tactic(auto, unfolding(crate::specs::Statements::three_names))]
fn three_names(words: &Words<'_>) -> Option<(Name, (Name, Name))>
    ensures { result ≡ three_names words.now }
{
    let (first, rest) = words.split_first()?;
    let (second, rest) = rest.split_first()?;
    let (third, rest) = rest.split_first()?;
    if let Some(_) = rest.split_first() {
        return None;
    }
    Some((
        Name::read(first)?,
        (Name::read(second)?, Name::read(third)?),
    ))
}

#[tactic(auto, unfolding(crate::specs::Statements::trans_form))]
fn transition<'a>(words: &Words<'a>) -> Option<Statement<'a>>
    ensures form { result ≡ trans_form words.now }
    ensures keyword { IfSome result (λ statement. keyword_in statement ≡ keyword_is.Trans) }
{
    let (port, (source, target)) = three_names(&head_of(words))?;
    let (guard, update) = clauses_of(Spelling::Own, words)?;
    Some(Statement::Trans {
        port,
        source,
        target,
        guard,
        update,
    })
}

#[tactic(auto, unfolding(crate::specs::Statements::priority_form))]
fn priority<'a>(words: &Words<'a>) -> Option<Statement<'a>>
    ensures form { result ≡ priority_form words.now }
    ensures keyword { IfSome result (λ statement. keyword_in statement ≡ keyword_is.Priority) }
{
    let (low, rest) = words.split_first()?;
    let (below, rest) = rest.split_first()?;
    let (high, rest) = rest.split_first()?;
    if let Some(_) = rest.split_first() {
        return None;
    }
    if !is_text(below, b"<") {
        return None;
    }
    Some(Statement::Priority {
        low: Name::read(low)?,
        high: Name::read(high)?,
    })
}

#[tactic(auto, unfolding(crate::specs::Statements::end_form))]
fn end<'a>(words: &Words<'a>) -> Option<Statement<'a>>
    ensures form { result ≡ end_form words.now }
    ensures keyword { IfSome result (λ statement. keyword_in statement ≡ keyword_is.End) }
{
    match words.split_first() {
        None => Some(Statement::End),
        Some(_) => None,
    }
}

#[tactic(auto, unfolding(crate::specs::Statements::keyword_of))]
pub(crate) fn keyword_of(word: &[u8]) -> Option<Keyword>
    ensures { result ≡ keyword_of word.now }
{
    if is_text(word, b"bip") {
        Some(Keyword::Bip)
    } else if is_text(word, b"component") {
        Some(Keyword::Component)
    } else if is_text(word, b"var") {
        Some(Keyword::Var)
    } else if is_text(word, b"loc") {
        Some(Keyword::Loc)
    } else if is_text(word, b"port") {
        Some(Keyword::Port)
    } else if is_text(word, b"trans") {
        Some(Keyword::Trans)
    } else if is_text(word, b"end") {
        Some(Keyword::End)
    } else if is_text(word, b"interaction") {
        Some(Keyword::Interaction)
    } else if is_text(word, b"priority") {
        Some(Keyword::Priority)
    } else if is_text(word, b"class") {
        Some(Keyword::Class)
    } else {
        None
    }
}
