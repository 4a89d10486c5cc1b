//! The program's commands, their arguments and their help, as the library takes them.
ghost use Rattle.std.specs.Prelude.{◌≡◌, IfOk, List, codes};
ghost use Rattle.clap.specs.Words.{App, Rule, Shape, app_of, with_subcommand};
ghost use Rattle.bip_program.specs.Programs.{HasRule, HasShape, HaveRules, bare_program};
ghost use Rattle.bip_program.specs.Programs.{base_option, canon_command, with_arguments};
ghost use Rattle.bip_program.specs.Programs.{chart_command, check_command, draw_command};
ghost use Rattle.bip_program.specs.Programs.{draw_option, explore_command, flag, from_option};
ghost use Rattle.bip_program.specs.Programs.{needed, numbers, option, path, program};
ghost use Rattle.bip_program.specs.Programs.{replay_command, resolver_option, rows, run_command};
ghost use Rattle.bip_program.specs.Programs.{seed_command, steps_command, table_option};
ghost use Rattle.bip_program.specs.Programs.{text_option, texts_option, walk_command};

use crate::helps::{
    ABOUT, CANON_ABOUT, CANON_HELP, CHART_ABOUT, CHART_HELP, CHECK_ABOUT, CHECK_HELP, DRAW_ABOUT,
    DRAW_HELP, EXPLORE_ABOUT, EXPLORE_HELP, HELP, REPLAY_ABOUT, REPLAY_HELP, RUN_ABOUT, RUN_HELP,
    SEED_ABOUT, SEED_HELP, STEPS_ABOUT, STEPS_BASE, STEPS_HELP, TRACE_BASE, WALK_ABOUT, WALK_BASE,
    WALK_HELP,
};
use clap::{Arg, ArgAction, Command, value_parser};
use std::alloc::{AllocError, Global};

/// What names an option may have: the resolvers, how threads share a table, and how events are
/// drawn.
#[derive(Clone, Copy)]
pub struct Choices<'a> {
    pub resolvers: &'a [&'a str],
    pub tables: &'a [&'a str],
    pub draws: &'a [&'a str],
}

/// The program, whose options have these names to choose from, as the library takes it
/// (docs/ANSWERS.md, "Words").
pub fn program<'a>(alloc: Global, choices: Choices<'a>) -> Result<Command<'a>, AllocError>
    ensures { IfOk result (λ command. app_of command ≡ program choices.entry) }
{
    let program = with(bare(alloc), canon(alloc));
    let program = with(program, chart(alloc));
    let program = with(program, check(alloc));
    let program = with(program, draw(alloc));
    let program = with(program, replay(alloc));
    let program = with(program, walk(alloc));
    let program = with(program, steps(alloc, choices.resolvers));
    let program = with(program, explore(alloc, choices.resolvers, choices.draws));
    let program = with(program, seed(alloc, choices.resolvers, choices.draws));
    with(program, run(alloc, choices.resolvers, choices.tables))
}

// A program with one more command, where there is memory for both.
#[inline(never)]
fn with<'a>(
    program: Result<Command<'a>, AllocError>,
    command: Result<Command<'a>, AllocError>,
) -> Result<Command<'a>, AllocError>
    ensures { (above : App) → (shape : Shape) → IfOk program.entry (λ p. app_of p ≡ above)
        → IfOk command.entry (HasShape shape)
        → IfOk result (λ r. app_of r ≡ with_subcommand above shape) }
{
    program?.subcommand(command?)
}

// The program without its commands.
fn bare<'a>(alloc: Global) -> Result<Command<'a>, AllocError>
    ensures { IfOk result (HasShape bare_program) }
{
    Command::new(alloc, "bipr")
        .version("0.2.0")
        .about(ABOUT)
        .after_help(HELP)
        .subcommand_required(true)
        .arg(explain(alloc))
}

// A command of a name, with what is told of it and these arguments.
#[inline(never)]
fn command<'a>(
    alloc: Global,
    name: &'a str,
    about: &'a str,
    help: &'a str,
    arguments: Vec<Arg<'a>>,
) -> Result<Command<'a>, AllocError>
    ensures { (rules : List Rule) → HaveRules rules arguments.entry.items
        → IfOk result (HasShape (with_arguments name.entry.now rules)) }
{
    Command::new(alloc, name)
        .about(about)
        .after_help(help)
        .args(arguments)
}

fn canon<'a>(alloc: Global) -> Result<Command<'a>, AllocError>
    ensures { IfOk result (HasShape canon_command) }
{
    let arguments = vec![in alloc; model(alloc), explain(alloc)]?;
    command(alloc, "canon", CANON_ABOUT, CANON_HELP, arguments)
}

fn chart<'a>(alloc: Global) -> Result<Command<'a>, AllocError>
    ensures { IfOk result (HasShape chart_command) }
{
    let arguments = vec![in alloc;
        model(alloc),
        trace(alloc),
        lanes(alloc),
        base(alloc).help(TRACE_BASE),
        from(alloc),
        to(alloc),
        values(alloc),
        explain(alloc),
    ]?;
    command(alloc, "chart", CHART_ABOUT, CHART_HELP, arguments)
}

fn check<'a>(alloc: Global) -> Result<Command<'a>, AllocError>
    ensures { IfOk result (HasShape check_command) }
{
    let arguments = vec![in alloc; model(alloc), plan(alloc), explain(alloc)]?;
    command(alloc, "check", CHECK_ABOUT, CHECK_HELP, arguments)
}

fn draw<'a>(alloc: Global) -> Result<Command<'a>, AllocError>
    ensures { IfOk result (HasShape draw_command) }
{
    let arguments = vec![in alloc;
        model(alloc),
        drawn_part(alloc),
        drawn_classes(alloc),
        drawn_plan(alloc),
        explain(alloc),
    ]?;
    command(alloc, "draw", DRAW_ABOUT, DRAW_HELP, arguments)
}

fn replay<'a>(alloc: Global) -> Result<Command<'a>, AllocError>
    ensures { IfOk result (HasShape replay_command) }
{
    let arguments = vec![in alloc;
        model(alloc),
        trace(alloc),
        base(alloc).help(TRACE_BASE),
        end(alloc),
        explain(alloc),
    ]?;
    command(alloc, "replay", REPLAY_ABOUT, REPLAY_HELP, arguments)
}

fn steps<'a>(alloc: Global, resolvers: &'a [&'a str]) -> Result<Command<'a>, AllocError>
    ensures { IfOk result (HasShape (steps_command resolvers.entry)) }
{
    let arguments = vec![in alloc;
        model(alloc),
        schedule(alloc),
        resolver(alloc, resolvers),
        base(alloc).help(STEPS_BASE),
        tell(alloc),
        charted(alloc),
        from(alloc),
        to(alloc),
        explain(alloc),
    ]?;
    command(alloc, "steps", STEPS_ABOUT, STEPS_HELP, arguments)
}

fn explore<'a>(
    alloc: Global,
    resolvers: &'a [&'a str],
    draws: &'a [&'a str],
) -> Result<Command<'a>, AllocError>
    ensures { IfOk result (HasShape (explore_command resolvers.entry draws.entry)) }
{
    let arguments = vec![in alloc;
        model(alloc),
        resolver(alloc, resolvers),
        seeds(alloc),
        events(alloc),
        draw_by(alloc, draws),
        progress(alloc),
        jobs(alloc),
        stats(alloc),
        explain(alloc),
    ]?;
    command(alloc, "explore", EXPLORE_ABOUT, EXPLORE_HELP, arguments)
}

fn seed<'a>(
    alloc: Global,
    resolvers: &'a [&'a str],
    draws: &'a [&'a str],
) -> Result<Command<'a>, AllocError>
    ensures { IfOk result (HasShape (seed_command resolvers.entry draws.entry)) }
{
    let arguments = vec![in alloc;
        model(alloc),
        resolver(alloc, resolvers),
        which_seed(alloc),
        events(alloc),
        draw_by(alloc, draws),
        explain(alloc),
    ]?;
    command(alloc, "seed", SEED_ABOUT, SEED_HELP, arguments)
}

fn walk<'a>(alloc: Global) -> Result<Command<'a>, AllocError>
    ensures { IfOk result (HasShape walk_command) }
{
    let arguments = vec![in alloc;
        model(alloc),
        walk_seed(alloc),
        walk_seeds(alloc),
        grants(alloc),
        base(alloc).help(WALK_BASE),
        stats(alloc),
        explain(alloc),
    ]?;
    command(alloc, "walk", WALK_ABOUT, WALK_HELP, arguments)
}

fn run<'a>(
    alloc: Global,
    resolvers: &'a [&'a str],
    tables: &'a [&'a str],
) -> Result<Command<'a>, AllocError>
    ensures { IfOk result (HasShape (run_command resolvers.entry tables.entry)) }
{
    let arguments = vec![in alloc;
        model(alloc),
        resolver(alloc, resolvers),
        turns(alloc),
        run_grants(alloc),
        table(alloc, tables),
        record(alloc),
        stats(alloc),
        explain(alloc),
    ]?;
    command(alloc, "run", RUN_ABOUT, RUN_HELP, arguments)
}

// Below, what makes an argument is no part of who asks for it: in place it would take kilobytes of
// code each time.

// The argument that all commands have.
fn model<'a>(alloc: Global) -> Arg<'a>
    ensures { HasRule (path (codes "model")) result }
{
    path(alloc, "model", "MODEL").help("the path of the model's text, or -")
}

// The argument of commands that take a trace.
fn trace<'a>(alloc: Global) -> Arg<'a>
    ensures { HasRule (path (codes "trace")) result }
{
    path(alloc, "trace", "TRACE").help("the path of the trace's text, or -")
}

// The argument of the command that takes a schedule.
fn schedule<'a>(alloc: Global) -> Arg<'a>
    ensures { HasRule (path (codes "schedule")) result }
{
    path(alloc, "schedule", "SCHEDULE").help("the path of the schedule's text, or -")
}

// A path that has to be given.
#[inline(never)]
fn path<'a>(alloc: Global, name: &'a str, shown: &'a str) -> Arg<'a>
    ensures { HasRule (path name.entry.now) result }
{
    Arg::new(alloc, name).value_name(shown).required(true)
}

// The option that names who grants.
#[inline(never)]
fn resolver<'a>(alloc: Global, resolvers: &'a [&'a str]) -> Arg<'a>
    ensures { HasRule (resolver_option resolvers.entry) result }
{
    Arg::new(alloc, "resolver")
        .long("resolver")
        .value_name("R")
        .required(true)
        .value_parser(resolvers)
        .help("who grants reserved interactions: one table, a token ring, or philosophers' forks")
}

// The option of how many seeds.
fn seeds<'a>(alloc: Global) -> Arg<'a>
    ensures { HasRule (needed (codes "seeds") (numbers 1 1000000)) result }
{
    number(alloc, "seeds", "K", 1, 1_000_000)
        .required(true)
        .help("how many seeds, from 1 on: 1 to 1000000")
}

// The option of which seed.
fn which_seed<'a>(alloc: Global) -> Arg<'a>
    ensures { HasRule (needed (codes "seed") (numbers 1 1000000)) result }
{
    number(alloc, "seed", "S", 1, 1_000_000)
        .required(true)
        .help("which seed: 1 to 1000000")
}

// The options of which seed is walked, and of how many are.
fn walk_seed<'a>(alloc: Global) -> Arg<'a>
    ensures { HasRule (option (codes "seed") (numbers 1 1000000)) result }
{
    number(alloc, "seed", "S", 1, 1_000_000).help("which seed is walked: 1 to 1000000")
}

fn walk_seeds<'a>(alloc: Global) -> Arg<'a>
    ensures { HasRule (option (codes "seeds") (numbers 1 1000000)) result }
{
    number(alloc, "seeds", "K", 1, 1_000_000).help(
        "how many seeds are walked, from 1 on, in place of one: 1 to 1000000",
    )
}

// The option of how many grants.
fn grants<'a>(alloc: Global) -> Arg<'a>
    ensures { HasRule (needed (codes "grants") (numbers 0 1000000)) result }
{
    number(alloc, "grants", "N", 0, 1_000_000)
        .required(true)
        .help("how many grants at most: 0 to 1000000")
}

// The option of how many events.
fn events<'a>(alloc: Global) -> Arg<'a>
    ensures { HasRule (needed (codes "events") (numbers 0 1000000)) result }
{
    number(alloc, "events", "N", 0, 1_000_000)
        .required(true)
        .help("how many steps of each seed: 0 to 1000000")
}

// The option that names how events are drawn.
#[inline(never)]
fn draw_by<'a>(alloc: Global, draws: &'a [&'a str]) -> Arg<'a>
    ensures { HasRule (draw_option draws.entry) result }
{
    Arg::new(alloc, "draw")
        .long("draw")
        .value_name("D")
        .value_parser(draws)
        .default_value("table")
        .help("how steps are drawn: by a table, or busy: only those that have something to do")
}

// The option of how many turns.
fn turns<'a>(alloc: Global) -> Arg<'a>
    ensures { HasRule (option (codes "turns") (numbers 1 1000000)) result }
{
    number(alloc, "turns", "N", 1, 1_000_000).help("how many turns each thread makes: 1 to 1000000")
}

// The option of how many grants threads make, in place of that.
fn run_grants<'a>(alloc: Global) -> Arg<'a>
    ensures { HasRule (option (codes "grants") (numbers 1 1000000)) result }
{
    number(alloc, "grants", "N", 1, 1_000_000).help(
        "how many grants there are at least when threads end, in place of turns: 1 to 1000000",
    )
}

// The option that names how tables are shared.
#[inline(never)]
fn table<'a>(alloc: Global, tables: &'a [&'a str]) -> Arg<'a>
    ensures { HasRule (table_option tables.entry) result }
{
    Arg::new(alloc, "table")
        .long("table")
        .value_name("T")
        .value_parser(tables)
        .default_value("locked")
        .help("how threads share the table: behind a lock, or with `central` in words without one")
}

// The option that names the file in which a run is written down.
#[inline(never)]
fn record<'a>(alloc: Global) -> Arg<'a>
    ensures { HasRule (text_option (codes "record")) result }
{
    Arg::new(alloc, "record")
        .long("record")
        .value_name("FILE")
        .help("write the run down in this file, made anew: a schedule for `bipr steps`")
}

// The option that names the file in which steps are drawn.
#[inline(never)]
fn charted<'a>(alloc: Global) -> Arg<'a>
    ensures { HasRule (text_option (codes "chart")) result }
{
    Arg::new(alloc, "chart")
        .long("chart")
        .value_name("FILE")
        .help("draw the steps in this file, made anew: a picture for a browser")
}

// The options of which rows a chart shows.
fn from<'a>(alloc: Global) -> Arg<'a>
    ensures { HasRule from_option result }
{
    row(alloc, "from")
        .default_value("1")
        .help("the first row that is shown")
}

fn to<'a>(alloc: Global) -> Arg<'a>
    ensures { HasRule (option (codes "to") rows) result }
{
    row(alloc, "to").help("the last row that is shown; else the last one of all")
}

// The option of which components have a lane in a chart.
fn lanes<'a>(alloc: Global) -> Arg<'a>
    ensures { HasRule (texts_option (codes "only")) result }
{
    texts(alloc, "only", "C").help(
        "draw lanes for these components, and the grants that touch them",
    )
}

// The options of which part of a model is drawn.
fn drawn_part<'a>(alloc: Global) -> Arg<'a>
    ensures { HasRule (texts_option (codes "only")) result }
{
    texts(alloc, "only", "C").help("draw these components, with the interactions that move them")
}

fn drawn_classes<'a>(alloc: Global) -> Arg<'a>
    ensures { HasRule (texts_option (codes "only-class")) result }
{
    texts(alloc, "only-class", "K").help(
        "draw the interactions of these classes, with the components that they move",
    )
}

// An option that takes texts, one or more in each use.
#[inline(never)]
fn texts<'a>(alloc: Global, name: &'a str, shown: &'a str) -> Arg<'a>
    ensures { HasRule (texts_option name.entry.now) result }
{
    Arg::new(alloc, name)
        .long(name)
        .value_name(shown)
        .action(ArgAction::Append)
        .num_args(1..)
}

// An option that takes the number of a row.
#[inline(never)]
fn row<'a>(alloc: Global, name: &'a str) -> Arg<'a>
    ensures { HasRule (option name.entry.now rows) result }
{
    Arg::new(alloc, name)
        .long(name)
        .value_name("K")
        .value_parser(value_parser!(u64).range(1..))
}

// An option that takes a number from one to another.
#[inline(never)]
fn number<'a>(alloc: Global, name: &'a str, shown: &'a str, low: u32, high: u32) -> Arg<'a>
    ensures { HasRule (option name.entry.now (numbers low high)) result }
{
    let range = i64::from(low)..=i64::from(high);
    Arg::new(alloc, name)
        .long(name)
        .value_name(shown)
        .value_parser(value_parser!(u32).range(range))
}

// The option that shows the values of variables.
fn values<'a>(alloc: Global) -> Arg<'a>
    ensures { HasRule (flag (codes "values")) result }
{
    flag(alloc, "values").help("show the values of variables too, where they change")
}

// The option that shows the end of a run.
fn end<'a>(alloc: Global) -> Arg<'a>
    ensures { HasRule (flag (codes "end")) result }
{
    flag(alloc, "end").help("write behind `run N` where the run leads, and what may run there")
}

// The option that shows the plan.
fn plan<'a>(alloc: Global) -> Arg<'a>
    ensures { HasRule (flag (codes "plan")) result }
{
    flag(alloc, "plan").help("write the plan behind the counts, line by line")
}

// The option that draws the plan.
fn drawn_plan<'a>(alloc: Global) -> Arg<'a>
    ensures { HasRule (flag (codes "plan")) result }
{
    flag(alloc, "plan").help("draw the plan: classes, rows, conflicts, and the order of a ring")
}

// The option that tells what is counted.
fn stats<'a>(alloc: Global) -> Arg<'a>
    ensures { HasRule (flag (codes "stats")) result }
{
    flag(alloc, "stats").help("write what is counted on standard error")
}

// The option that tells each event.
fn tell<'a>(alloc: Global) -> Arg<'a>
    ensures { HasRule (flag (codes "tell")) result }
{
    let help = "tell on standard error what is in flight at first, what each step did, and what it \
        put into flight";
    flag(alloc, "tell").help(help)
}

// The option that tells progress.
fn progress<'a>(alloc: Global) -> Arg<'a>
    ensures { HasRule (flag (codes "progress")) result }
{
    let help = "write `seeds D of K` on standard error with each hundredth that is done, \
        and between them the time that is left";
    flag(alloc, "progress").help(help)
}

// The option of how many threads.
fn jobs<'a>(alloc: Global) -> Arg<'a>
    ensures { HasRule (option (codes "jobs") (numbers 1 256)) result }
{
    number(alloc, "jobs", "J", 1, 256).help(
        "in how many threads seeds are explored: 1 to 256; else one a processor",
    )
}

// The option that the program has, and all commands.
fn explain<'a>(alloc: Global) -> Arg<'a>
    ensures { HasRule (flag (codes "explain")) result }
{
    let help = "say in one more line on standard error what is wrong, and where";
    flag(alloc, "explain").help(help)
}

// An option that takes no value.
#[inline(never)]
fn flag<'a>(alloc: Global, name: &'a str) -> Arg<'a>
    ensures { HasRule (flag name.entry.now) result }
{
    Arg::new(alloc, name).long(name).action(ArgAction::SetTrue)
}

// The option of a base.
#[inline(never)]
fn base<'a>(alloc: Global) -> Arg<'a>
    ensures { HasRule base_option result }
{
    Arg::new(alloc, "base")
        .long("base")
        .value_name("N")
        .value_parser(value_parser!(u64))
        .default_value("0")
}
