//! What words ask, read of the library's matches.
ghost use Rattle.clap.specs.Words.{found_of, rows_of};
ghost use Rattle.bip_program.specs.Asked.{IsReadAs};
ghost use Rattle.bipr.specs.CommandLine.{AreDrawsAsked, AreTablesAsked, IsBaseAsked, IsDrawAsked};
ghost use Rattle.bipr.specs.CommandLine.{IsResolverAsked};

use crate::draws::draw_named;
use crate::resolvers::{Resolver, resolver_named, tables_named};
use bip_host::Tables;
use bip_model::Number;
use bip_program::{number_asked, text_asked, wide_number_asked};
use bip_schedule::{Draw, Draws};
use clap::ArgMatches;

/// The greatest base: one number at least is left above it.
const GREATEST_BASE: Number = 18_446_744_073_709_551_614;

/// The resolver that is named; none where that is no resolver's name.
pub fn resolver_asked(matches: &ArgMatches<'_>) -> Option<Resolver>
    ensures { IsReadAs (IsResolverAsked (rows_of (found_of matches.now))) result }
{
    resolver_named(text_asked(matches, "resolver")?)
}

/// How tables are shared; none where no such way is named.
pub fn tables_asked(matches: &ArgMatches<'_>) -> Option<Tables>
    ensures { IsReadAs (AreTablesAsked (rows_of (found_of matches.now))) result }
{
    tables_named(text_asked(matches, "table")?)
}

/// How events are drawn; none where no such way is named.
fn draw_asked(matches: &ArgMatches<'_>) -> Option<Draw>
    ensures { IsReadAs (IsDrawAsked (rows_of (found_of matches.now))) result }
{
    draw_named(text_asked(matches, "draw")?)
}

/// What is drawn of a seed; none where that isn't said.
pub fn draws_asked(matches: &ArgMatches<'_>) -> Option<Draws>
    ensures { IsReadAs (AreDrawsAsked (rows_of (found_of matches.now))) result }
{
    Some(Draws {
        count: number_asked(matches, "events")?,
        by: draw_asked(matches)?,
    })
}

/// The base; none where it is out of range.
pub fn base_asked(matches: &ArgMatches<'_>) -> Option<Number>
    ensures { IsReadAs (IsBaseAsked (rows_of (found_of matches.now))) result }
{
    let base = wide_number_asked(matches, "base")?;
    if base > GREATEST_BASE {
        return None;
    }
    Some(base)
}
