//! What the text of a model lacks as a whole.
ghost use Rattle.std.specs.Prelude.{◌≡◌, ◌⊎◌, ◌||◌, ◌+◌, ℕ, All, IfNone, IfOk, IfSome, IsTrue};
ghost use Rattle.std.specs.Prelude.{List, false, ◌++◌, ◌∷◌, []};
ghost use Rattle.bip_explain.specs.Ends.{HasComponent, IsComplete, IsLocated, declares_location};
ghost use Rattle.bip_explain.specs.Ends.{has_location, is_located};
ghost use Rattle.bip_explain.specs.Scopes.{IsOutside};
ghost use Rattle.bip_explain.specs.declared.ends.EndReason.TheVariants.{InNoClass, NoComponent};
ghost use Rattle.bip_explain.specs.declared.ends.EndReason.TheVariants.{NoLocation};
ghost use Rattle.bip_explain.specs.Ends.{HasClassWith, IsEndReason, NoClassWith, end_parts};
ghost use Rattle.bip_explain.specs.Ends.{IsMemberAt, IsMemberBefore, IsPathFrom, IsSaidIn};
ghost use Rattle.bip_explain.specs.Ends.{LeadUp, PutAbove, SaysPriority, lines_parts, members};
ghost use Rattle.bip_explain.specs.Ends.{why_of_end};
ghost use Rattle.bip_reader.specs.declared.faults.Why.TheVariants.{Missing, NotAPartition};
ghost use Rattle.bip_reader.specs.declared.faults.Why.TheVariants.{PriorityCycle};
ghost use Rattle.bip_explain.specs.Explanations.{with_parts};
ghost use Rattle.bip_explain.specs.Placed.{IsBehindTwo, said_words};
ghost use Rattle.bip_model.specs.Naming.{is_known};
ghost use Rattle.bip_model.specs.Texts.{words};

use crate::Explanation;
use crate::declarations::{Declared, begins_component, line_with};
use crate::placed::{Placed, PlacedWords, four_words, two_words, words_of};
use crate::scopes::{Standing, ends_component, standing_at, standing_behind};
use crate::unknown::behind_first;
use bip_model::{MOST_INTERACTIONS, Name, Names, NumberedLines, is_text, line_at};
use std::alloc::{AllocError, Global};

/// What the text of a model lacks as a whole.
#[derive(Drop)]
pub(crate) enum EndReason<'t> {
    /// The component has no location.
    NoLocation(&'t [u8]),
    /// The component isn't ended.
    NoEnd(&'t [u8]),
    NoComponent,
    /// No line is the first line of a model.
    NoFirst,
    /// The interaction stands above itself: the numbers of the lines that lead back to it.
    Above(Name, Vec<u64>),
    /// The interaction stands in no class.
    InNoClass(Name),
    /// The interaction that a word of the line with this number names stands in a class before.
    InClasses(u64, Placed<'t>),
}

impl EndReason<'_> {
    /// Says what the text lacks.
    pub(crate) fn say(&self, explanation: &mut Explanation)
        ensures { explanation.new ≡ with_parts (end_parts self.now) explanation.old }
    {
        match self {
            EndReason::NoLocation(component) => {
                explanation.say(b"component ");
                explanation.say_word(component);
                explanation.say(b" has no location");
            }
            EndReason::NoEnd(component) => {
                explanation.say(b"component ");
                explanation.say_word(component);
                explanation.say(b" has no `end`");
            }
            EndReason::NoComponent => explanation.say(b"there is no component"),
            EndReason::NoFirst => explanation.say(b"no line is `bip 1`"),
            EndReason::Above(name, lines) => {
                explanation.say(b"interaction ");
                explanation.say_word(name.as_bytes());
                explanation.say(b" stands above itself");
                say_lines(explanation, b": line ", lines.as_slice());
            }
            EndReason::InNoClass(name) => {
                explanation.say(b"interaction ");
                explanation.say_word(name.as_bytes());
                explanation.say(b" stands in no class");
            }
            EndReason::InClasses(line, placed) => {
                explanation.say(b"line ");
                explanation.say_number(*line);
                explanation.say(b", ");
                explanation.say_placed(*placed);
                explanation.say(b" stands in a class already");
            }
        }
    }
}

// Says lines by their numbers, the first behind a text.
fn say_lines(explanation: &mut Explanation, front: &[u8], lines: &[u64])
    ensures { explanation.new ≡ with_parts (lines_parts front.now lines.now) explanation.old }
{
    if let [line, more @ ..] = lines {
        explanation.say(front);
        explanation.say_number(*line);
        say_lines(explanation, b", line ", more);
    }
}

/// What is missing: a location of the component that a line ends, or, at the end of the text, its
/// first line, an `end`, or a component.
pub(crate) fn find_missing(text: &[u8], number: u64) -> Option<EndReason<'_>>
    ensures is { IfSome result (IsEndReason text.now number) }
    ensures kind { IfSome result (λ reason. why_of_end reason ≡ Missing) }
    ensures none { IfNone result (IsComplete text.now number) }
{
    match unlocated(text, number) {
        Some(component) => Some(EndReason::NoLocation(component)),
        None => find_last(text, number),
    }
}

// The component that a line ends, if it has no location.
fn unlocated(text: &[u8], number: u64) -> Option<&[u8]>
    ensures is { IfSome result (λ component. IsEndReason text.now number (NoLocation component)) }
    ensures none { IfNone result (IsLocated text.now number) }
{
    if !ends_component(line_at(text, number)) || has_location(text, number) {
        return None;
    }
    match standing_at(text, number) {
        Standing::First => None,
        Standing::Outside => None,
        Standing::Inside(component) => Some(component),
    }
}

// Whether the component that is begun last in front of a line has a location there.
fn has_location(text: &[u8], line: u64) -> bool
    ensures { result ≡ has_location text.now line }
{
    let mut is_located = false;
    for (number, bytes) in NumberedLines::of(text) {
        if line <= number {
            return is_located;
        }
        is_located = is_located_behind(bytes, is_located);
    }
    is_located
}

fn is_located_behind(line: &[u8], before: bool) -> bool
    ensures { result ≡ is_located (said_words line.now) before }
{
    if begins_component(line) {
        false
    } else {
        before || declares_location(line)
    }
}

fn declares_location(line: &[u8]) -> bool
    ensures { result ≡ declares_location (said_words line.now) }
{
    match two_words(line) {
        None => false,
        Some((keyword, _name)) => is_text(keyword, b"loc"),
    }
}

// What a text lacks whose last line this is.
fn find_last(text: &[u8], last: u64) -> Option<EndReason<'_>>
    ensures is { IfSome result (IsEndReason text.now last) }
    ensures kind { IfSome result (λ reason. why_of_end reason ≡ Missing) }
    ensures none { IfNone result (HasComponent text.now last × IsOutside text.now (last + 1)) }
{
    match standing_behind(text, last) {
        Standing::First => Some(EndReason::NoFirst),
        Standing::Inside(component) => Some(EndReason::NoEnd(component)),
        Standing::Outside => {
            if has_component(text, last) {
                None
            } else {
                Some(EndReason::NoComponent)
            }
        }
    }
}

// Whether a line down to this one begins a component.
fn has_component(text: &[u8], last: u64) -> bool
    ensures some { IsTrue result → HasComponent text.now last }
    ensures none { result ≡ false → IsEndReason text.now last NoComponent }
{
    for (number, bytes) in NumberedLines::of(text) {
        if last < number {
            return false;
        }
        if begins_component(bytes) {
            return true;
        }
    }
    false
}

/// The first interaction that stands above itself.
pub(crate) fn find_cycle<'t>(
    alloc: Global,
    text: &'t [u8],
    number: u64,
) -> Result<Option<EndReason<'t>>, AllocError>
    ensures is { IfOk result (λ found. IfSome found (IsEndReason text.now number)) }
    ensures kind { IfOk result (λ found.
        IfSome found (λ reason. why_of_end reason ≡ PriorityCycle)) }
{
    let declared = Declared::before(alloc, text, u64::MAX)?;
    let said = priorities_in(alloc, text)?;
    for name in declared.interactions.as_slice() {
        if let Some(lines) = lines_around(alloc, said.as_slice(), name)? {
            return Ok(Some(EndReason::Above(*name, lines)));
        }
    }
    Ok(None)
}

/// A priority that a line says: the second interaction stands above the first.
#[derive(Clone, Copy)]
pub(crate) struct SaidPriority<'t> {
    line: u64,
    low: &'t [u8],
    high: &'t [u8],
}

/// The interaction to which lines lead up, and their numbers.
#[derive(Drop)]
pub(crate) struct PriorityPath {
    high: Name,
    lines: Vec<u64>,
}

// The priorities that the lines of a text say.
fn priorities_in<'t>(alloc: Global, text: &'t [u8]) -> Result<Vec<SaidPriority<'t>>, AllocError>
    ensures { IfOk result (λ said. All (IsSaidIn text.now) said.items) }
{
    let mut said = Vec::new(alloc);
    for (number, line) in NumberedLines::of(text) {
        if let Some(priority) = priority_on(number, line) {
            said.push(priority)?;
        }
    }
    Ok(said)
}

fn priority_on(number: u64, line: &[u8]) -> Option<SaidPriority<'_>>
    ensures number { IfSome result (λ said. said.line ≡ number) }
    ensures says { IfSome result (λ said.
        SaysPriority (said_words line.now) said.low.now said.high.now) }
{
    let (keyword, low, _below, high) = four_words(line)?;
    if !is_text(keyword, b"priority") {
        return None;
    }
    Some(SaidPriority {
        line: number,
        low,
        high,
    })
}

// The numbers of the lines that lead from an interaction back to it, if some do.
fn lines_around(
    alloc: Global,
    said: &[SaidPriority<'_>],
    name: &Name,
) -> Result<Option<Vec<u64>>, AllocError>
    ensures { (text : List ℕ) → All (IsSaidIn text) said.now
        → IfOk result (λ found. IfSome found (λ lines.
        PutAbove text name.now lines.items name.now)) }
{
    let paths = paths_from(alloc, said, name)?;
    lines_to(alloc, name, paths.as_slice())
}

// The numbers of the lines of the path that leads to an interaction, if one does.
fn lines_to(
    alloc: Global,
    high: &Name,
    paths: &[PriorityPath],
) -> Result<Option<Vec<u64>>, AllocError>
    ensures { (text : List ℕ) → (from : List ℕ) → All (IsPathFrom text from) paths.now
        → IfOk result (λ found. IfSome found (λ lines.
        PutAbove text from lines.items high.now)) }
{
    for path in paths {
        if is_text(path.high.as_bytes(), high.as_bytes()) {
            return Ok(Some(Vec::from_slice(alloc, path.lines.as_slice())?));
        }
    }
    Ok(None)
}

// Paths from an interaction to what is reached. Each turn goes on from what is reached, so as many
// as there are interactions reach all.
fn paths_from(
    alloc: Global,
    said: &[SaidPriority<'_>],
    name: &Name,
) -> Result<Vec<PriorityPath>, AllocError>
    ensures { (text : List ℕ) → All (IsSaidIn text) said.now
        → IfOk result (λ paths. All (IsPathFrom text name.now) paths.items) }
{
    let mut paths = Vec::new(alloc);
    for _turn in 0..MOST_INTERACTIONS {
        if !reach_more(alloc, said, name, &mut paths)? {
            return Ok(paths);
        }
    }
    Ok(paths)
}

// Goes on from an interaction, or from what is reached, and says whether that reaches more.
fn reach_more(
    alloc: Global,
    said: &[SaidPriority<'_>],
    from: &Name,
    paths: &mut Vec<PriorityPath>,
) -> Result<bool, AllocError>
    ensures { (text : List ℕ) → All (IsSaidIn text) said.now
        → All (IsPathFrom text from.now) paths.old.items
        → All (IsPathFrom text from.now) paths.new.items }
{
    let mut is_more = false;
    for priority in said {
        if let Some(path) = path_by(alloc, *priority, from, paths.as_slice())? {
            paths.push(path)?;
            is_more = true;
        }
    }
    Ok(is_more)
}

// The path to the interaction that a priority reaches, if none leads there yet.
fn path_by(
    alloc: Global,
    priority: SaidPriority<'_>,
    from: &Name,
    paths: &[PriorityPath],
) -> Result<Option<PriorityPath>, AllocError>
    ensures { (text : List ℕ) → IsSaidIn text priority.entry
        → All (IsPathFrom text from.now) paths.now
        → IfOk result (λ found. IfSome found (IsPathFrom text from.now)) }
{
    let Some((low, high)) = names_of(priority) else {
        return Ok(None);
    };
    if is_reached(&high, paths) {
        return Ok(None);
    }
    match lines_below(alloc, &low, from, paths)? {
        None => Ok(None),
        Some(lines) => Ok(Some(path_on(lines, priority.line, high)?)),
    }
}

fn names_of(priority: SaidPriority<'_>) -> Option<(Name, Name)>
    ensures low { IfSome result (λ names. names.0 ≡ priority.entry.low.now) }
    ensures high { IfSome result (λ names. names.1 ≡ priority.entry.high.now) }
{
    let low = Name::of(priority.low)?;
    let high = Name::of(priority.high)?;
    Some((low, high))
}

// The path with a line more, which leads to an interaction.
fn path_on(lines: Vec<u64>, line: u64, high: Name) -> Result<PriorityPath, AllocError>
    ensures lines { IfOk result (λ path. path.lines.items ≡ lines.items ++ line ∷ []) }
    ensures high { IfOk result (λ path. path.high ≡ high) }
{
    let mut lines = lines;
    lines.push(line)?;
    Ok(PriorityPath { high, lines })
}

fn is_reached(high: &Name, paths: &[PriorityPath]) -> bool {
    paths
        .iter()
        .any(|path| is_text(path.high.as_bytes(), high.as_bytes()))
}

// The numbers of the lines that lead up from one interaction to another; none to the same one.
fn lines_below(
    alloc: Global,
    low: &Name,
    from: &Name,
    paths: &[PriorityPath],
) -> Result<Option<Vec<u64>>, AllocError>
    ensures { (text : List ℕ) → All (IsPathFrom text from.now) paths.now
        → IfOk result (λ found. IfSome found (λ lines.
        LeadUp text from.now lines.items low.now)) }
{
    if is_text(from.as_bytes(), low.as_bytes()) {
        return Ok(Some(Vec::new(alloc)));
    }
    lines_to(alloc, low, paths)
}

fn number_of(names: &Names, word: &[u8]) -> Option<usize> {
    names.number_of(&Name::of(word)?)
}

/// The first interaction that stands in no class, or in more places than one.
pub(crate) fn find_unparted<'t>(
    alloc: Global,
    text: &'t [u8],
    number: u64,
) -> Result<Option<EndReason<'t>>, AllocError>
    ensures is { IfOk result (λ found. IfSome found (IsEndReason text.now number)) }
    ensures kind { IfOk result (λ found.
        IfSome found (λ reason. why_of_end reason ≡ NotAPartition)) }
{
    let declared = Declared::before(alloc, text, u64::MAX)?;
    let names = &declared.interactions;
    let times = times_in_classes(text, names);
    for (times, name) in times.iter().zip(names.as_slice()) {
        if *times == 0 && is_unparted(text, name) {
            return Ok(Some(EndReason::InNoClass(*name)));
        }
        if *times > 1 {
            return Ok(find_again(text, number, name));
        }
    }
    Ok(None)
}

// Whether a line of a text declares an interaction, and none puts it into a class.
fn is_unparted(text: &[u8], name: &Name) -> bool
    ensures { (number : ℕ) → IsTrue result → IsEndReason text.now number (InNoClass name.now) }
{
    match line_with(text, u64::MAX, b"interaction", name.as_bytes()) {
        None => false,
        Some(_) => !is_parted(text, name),
    }
}

// Whether a line of a text puts an interaction into a class.
fn is_parted(text: &[u8], name: &Name) -> bool
    ensures { result ≡ false → NoClassWith text.now name.now }
{
    for (number, line) in NumberedLines::of(text) {
        if is_member(name.as_bytes(), line) {
            return true;
        }
    }
    false
}

// Whether a line puts an interaction into a class.
fn is_member(name: &[u8], line: &[u8]) -> bool
    ensures { result ≡ is_known name.now (members (said_words line.now)) }
{
    match words_of(line) {
        None => false,
        Some((keyword, words)) => {
            is_text(keyword.word, b"class") && is_among(name, behind_first(words))
        }
    }
}

// Whether a name is one of the words that are left.
fn is_among(name: &[u8], left: PlacedWords<'_>) -> bool
    ensures { result ≡ is_known name.now (words left.entry.rest.now) }
{
    for placed in left {
        if is_text(name, placed.word) {
            return true;
        }
    }
    false
}

// How often each interaction stands in a class, up to 255 times.
fn times_in_classes(text: &[u8], names: &Names) -> [u8; MOST_INTERACTIONS] {
    let mut times = [0; MOST_INTERACTIONS];
    for (_, line) in NumberedLines::of(text) {
        if let Some((keyword, words)) = words_of(line) {
            if is_text(keyword.word, b"class") {
                count_members(&mut times, names, behind_first(words));
            }
        }
    }
    times
}

fn count_members(times: &mut [u8; MOST_INTERACTIONS], names: &Names, members: PlacedWords<'_>) {
    for member in members {
        if let Some(number) = number_of(names, member.word) {
            if number < MOST_INTERACTIONS {
                times[number] = times[number].saturating_add(1);
            }
        }
    }
}

// In which class an interaction stands again, with the line and the column.
fn find_again<'t>(text: &'t [u8], number: u64, name: &Name) -> Option<EndReason<'t>>
    ensures is { IfSome result (IsEndReason text.now number) }
    ensures kind { IfSome result (λ reason. why_of_end reason ≡ NotAPartition) }
{
    let mut is_seen = false;
    for (other, line) in NumberedLines::of(text) {
        if let Some(member) = member_again(line, name, &mut is_seen) {
            if is_member(member.word, line) && is_again(text, other, line, member) {
                return Some(EndReason::InClasses(other, member));
            }
        }
    }
    None
}

// Whether a member of a line's class stands in one before, or twice in this one.
fn is_again(text: &[u8], number: u64, line: &[u8], member: Placed<'_>) -> bool
    ensures { IsTrue result → HasClassWith text.now number member.entry.word.now
        ⊎ IsMemberBefore line.now member.entry }
{
    if is_parted_before(text, number, member.word) {
        true
    } else {
        is_member_before(line, member)
    }
}

// Whether a member of a line's class in front of one is the same.
fn is_member_before(line: &[u8], member: Placed<'_>) -> bool
    ensures { IsTrue result → IsMemberBefore line.now member.entry }
{
    let Some(members) = members_of(line) else {
        return false;
    };
    for before in members {
        if member.column <= before.column {
            return false;
        }
        if is_text(before.word, member.word) {
            return true;
        }
    }
    false
}

// Whether a line before one puts an interaction into a class.
fn is_parted_before(text: &[u8], line: u64, name: &[u8]) -> bool
    ensures { IsTrue result → HasClassWith text.now line name.now }
{
    for (number, bytes) in NumberedLines::of(text) {
        if line <= number {
            return false;
        }
        if is_member(name, bytes) {
            return true;
        }
    }
    false
}

// The member of a class line that is an interaction which was seen already.
fn member_again<'t>(line: &'t [u8], name: &Name, is_seen: &mut bool) -> Option<Placed<'t>>
    ensures { IfSome result (λ member. IsMemberAt line.now member.column member.word.now) }
{
    let members = members_of(line)?;
    for member in members {
        if is_text(member.word, name.as_bytes()) {
            if *is_seen {
                return Some(member);
            }
            *is_seen = true;
        }
    }
    None
}

// The members of a line's class: the words behind its name.
fn members_of(line: &[u8]) -> Option<PlacedWords<'_>>
    ensures line { IfSome result (λ members. members.line.now ≡ line.now) }
    ensures left { IfSome result (λ members. IsBehindTwo line.now members.rest.now) }
{
    let (keyword, mut words) = words_of(line)?;
    if !is_text(keyword.word, b"class") {
        return None;
    }
    let _name = words.next()?;
    Some(words)
}
