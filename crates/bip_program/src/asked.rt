//! What words ask, read of the library's matches.
ghost use Rattle.std.specs.Prelude.{◌≡◌};
ghost use Rattle.std.specs.Option.{option_map};
ghost use Rattle.clap.specs.Words.{all_of, first_of, found_of, rows_of, subcommand_rows_of};
ghost use Rattle.bip_program.specs.Asked.{IsExplainAsked, IsFlagAsked, IsFlagBehind, MayAskNumber};
ghost use Rattle.bip_program.specs.Programs.{names_in, parsed_of};

use clap::ArgMatches;

/// The text of an argument, if it has one.
pub fn text_asked<'a>(matches: &ArgMatches<'a>, name: &str) -> Option<&'a str>
    ensures { option_map (λ text. text.now) result
        ≡ first_of name.now (rows_of (found_of matches.now)) }
{
    matches.get_str(name)
}

/// The texts of an option that may have several, in order, if it is given.
pub fn texts_asked<'m, 'a>(matches: &'m ArgMatches<'a>, name: &str) -> Option<&'m [&'a str]>
    ensures { option_map names_in result ≡ all_of name.now (rows_of (found_of matches.now)) }
{
    matches.get_strs(name)
}

/// The number of 32 bits that an option gives, if it gives one.
pub fn number_asked(matches: &ArgMatches<'_>, name: &str) -> Option<u32>
    ensures { MayAskNumber (rows_of (found_of matches.now)) name.now 32 result }
{
    matches.get_one(name)
}

/// The same of 64 bits.
pub fn wide_number_asked(matches: &ArgMatches<'_>, name: &str) -> Option<u64>
    ensures { MayAskNumber (rows_of (found_of matches.now)) name.now 64 result }
{
    matches.get_one(name)
}

/// Whether an option that takes no value is set.
pub fn is_set(matches: &ArgMatches<'_>, name: &str) -> bool
    ensures { IsFlagAsked (rows_of (found_of matches.now)) name.now result }
{
    matches.get_flag(name)
}

/// Whether words ask to explain what is refused, before the command or behind it
/// (docs/ANSWERS.md, "Arguments").
pub fn is_explained(matches: &ArgMatches<'_>) -> bool
    ensures { IsExplainAsked (parsed_of matches.now) result }
{
    let above = is_set(matches, "explain");
    let behind = is_set_behind(matches, "explain");
    above | behind
}

// Whether such an option is set behind the command, if there is one.
fn is_set_behind(matches: &ArgMatches<'_>, name: &str) -> bool
    ensures { IsFlagBehind (subcommand_rows_of matches.now) name.now result }
{
    match matches.subcommand() {
        Some((_command, behind)) => is_set(behind, name),
        None => false,
    }
}
