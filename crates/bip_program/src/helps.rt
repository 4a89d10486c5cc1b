//! What help says of the program, of its commands and of a base.

pub(crate) const ABOUT: &str =
    "Runs BIP models as distributed nodes, and says which traces are runs of them";

pub(crate) const HELP: &str = "\
A model is a text of components and interactions:

    # a component that moves once
    bip 1
    component A
    loc a0
    loc a1
    port s
    trans s a0 a1
    end
    interaction x A.s
    class P x

Its lines, each name declared before it is used:

    bip 1                     the first one
    component NAME .. end     with the lines of these four inside it:
    var NAME VALUE            a variable with its value at the start
    loc NAME                  a location; the first one is the start
    port NAME
    trans PORT FROM TO [when GUARD] [do UPDATE]
    interaction NAME COMPONENT.PORT .. [when GUARD] [do TRANSFER]
    priority LOW < HIGH       where HIGH is enabled, LOW may not run; this goes on from
                              pair to pair
    class NAME INTERACTION .. a node that asks for these interactions

Blanks stand between all words: a guard is `n < 3 and m != 0`, an update `n := n + 1 ; m := 0`.
In an interaction a variable is named `COMPONENT.n`. Values are 0 to 4294967295, and sums go
round there: `0 - 1` is 4294967295. A guard has `and` and no `or`, a sum `+` and `-`.

A trace is a text of grants, each an interaction with its components, and of each the
number of its move, from 1:

    grant x A:1
    grant low A:2 see B:1     B shows that an interaction above `low` can't run

The verdict is `run N` where the trace's N grants are a run of the model from its start;
else `line N: ..`, the first line that can't be next, and why:

    x not enabled    a participant doesn't offer its port, or a guard doesn't hold
    x below y        y has the higher priority, and is enabled
    A expected N     N is the number of A's next move; 0: A moves no more
    x parties        x doesn't move just the components of the line, or doesn't look at
                     one behind `see`; or nothing that is named shows that one above x
                     can't run: a component whose port is off, or all that it moves

Comments (lines that begin with #), blank lines and tabs are allowed. A text is refused by
its first line at fault:

    syntax           no form of a line, or not in its place. Look for CR LF line ends, a
                     byte order mark, paths in the wrong order, a number that is cut off
    unknown name     no line before declares it
    named twice      it is there already
    too many         at most 64 components, 128 interactions and 32 classes; 8 variables,
                     64 locations, 16 ports and 256 transitions of a component; 8
                     participants; 16 comparisons, assignments, terms of a sum
    missing          a location or the `end` of a component, `bip 1`, or any component
    two transitions  with one port from one location
    priority cycle   an interaction above itself
    not a partition  an interaction in no class, in two, or twice in one
    touches too many more than 32 components that it moves or looks at
    a chart has at most 2000 rows    --from and --to show some of a longer one

With `--explain` one more line says what is wrong, and in which column.

Status: 0 done, 1 an input is refused or the answer can't be written, 2 bad command line,
3 no memory or no thread, 4 the trace is no run.";

pub(crate) const CANON_ABOUT: &str = "Writes a model's canonical text";

pub(crate) const CANON_HELP: &str = "\
Each model has one canonical text, which means it: components, interactions and classes
stand in their order, what an interaction moves by component, and what a class asks for and
all priorities by interaction; with one space between words, and no zeros in front of
numbers. Comments and blank lines go.

    bipr canon MODEL > canonical.bip";

pub(crate) const CHART_ABOUT: &str = "Draws the run of a trace, as a picture for a browser";

pub(crate) const CHART_HELP: &str = "\
Each component has a lane and each grant of the trace a row, with the interaction's name; a
full mark with its number where a component moves, an open one where it is looked at, and a
bar between them in the colour of the interaction's class. The names of locations stand on
their lanes where they change. The verdict of `bipr replay` goes to standard error. Where the
trace is no run, the first line that can't be next is drawn in red, and nothing behind it; of
a run the foot says what may run behind it, as `bipr replay --end` does.

    bipr chart MODEL TRACE > run.svg

A chart has at most 2000 rows: of a longer trace, --from and --to show some. With --only C .. the
components C .. alone have lanes, and only grants that move one of them or look at it have rows.";

pub(crate) const CHECK_ABOUT: &str = "Counts what a model's partition costs";

pub(crate) const CHECK_HELP: &str = "\
The answer is one line, and with --plan one more for each interaction and component, with
reasons, and for each station, with those it shares a fork with:

    components C interactions I classes K tabled T reserved R

C, I and K are what the model declares. T of its components need a row in the third layer's
table: those that some interaction looks at (a component of an interaction above it that it
doesn't move), those that two classes touch, and with each one all that an interaction
touches beside it. R of its interactions are reserved: they touch such components, and each
grant of them is asked of the third layer. The other I - R are granted by their class alone.
Fewer classes make T and R smaller; more classes let more grants go on side by side.

What an interaction looks at is all that its requests may look at: of each interaction above
one reason is enough, a component whose port is off, or a guard that is false.";

pub(crate) const DRAW_ABOUT: &str = "Draws a model, in the language of Graphviz";

pub(crate) const DRAW_HELP: &str = "\
The drawing has each declared thing once: a cluster for each component with its locations,
ports and transitions, a box in its class's colour for each interaction, with an edge to each
of its ports, and a dashed edge from an interaction to one of higher priority. `dot` makes a
picture of it:

    bipr draw MODEL | dot -Tsvg > model.svg

Of a large model a part is drawn by --only C .., the components C .. with the interactions that
move them, and by --only-class K .., the interactions of the classes K .. with the components
that they move; what else is moved is a dashed box with its name. `dot` may take hours for the
whole of a large model: `fdp` lays the largest ones out within a minute.

With --plan it draws what the partition comes to: a cluster for each class, with two borders
for each interaction that asks the third layer; the components, filled where they have a row;
dashed edges to those that are looked at, and edges between interactions that share a fork.";

pub(crate) const REPLAY_ABOUT: &str = "Says whether a trace is a run of a model";

pub(crate) const REPLAY_HELP: &str = "\
A path `-` is standard input. Where both are, the model is what stands before the first
line `---`, and the trace what stands behind it.

With --end, where the trace is that of a run, behind `run N` stands what each component is in,
and then what may run there: a line for each interaction that is enabled.

    at C NEXT L V=N ..   the number of its next move, 0 where none is left; its location, and
                         the values of its variables
    may X                X may run
    below X Y            X may not, since Y is enabled, the lowest above it
    nothing may run      no interaction is enabled";

pub(crate) const TRACE_BASE: &str = "the number that each component has used before the trace";

pub(crate) const STEPS_BASE: &str = "the number that each component has used at first";

pub(crate) const STEPS_ABOUT: &str =
    "Runs the steps of a schedule, and says which grants they lead to";

pub(crate) const STEPS_HELP: &str = "\
A schedule is a text of protocol steps, one a line:

    mail K          the K-th message in flight, from 0, is handed on, and is in flight no more
    try CLASS INTER the class tries the interaction
    serve S         the bank decides on the oldest open request of S
    deliver K       what is K-th in flight inside the bank arrives
    pass S T        the station of S hands over what it shares with that of T
    ask S T         the station of S asks for it

S and T are reserved interactions. At first the token is at the first one of the text;
it goes to the next, and behind the last to the first. A fork is with the lower of its
two at first, and goes only where it was asked for and is dirty; who shares one with whom
is said by `bipr check --plan`. At first each
component's offer is in flight to each class that touches it, by component, then class.
Requests of classes, the bank's replies, what granted components are told and their next
offers are mail too, put last: for a reserved interaction the request has to be handed
on before `serve`, and then the reply, and what its components are told. Of the model of
`bipr --help`,

    mail 0
    try P x

are steps that lead to the trace `grant x A:1`, which `bipr replay` takes, as any of at most
16,777,216 bytes. The report on standard error has one line: events, grants, refused requests,
steps that did nothing, and what was skipped or lost for want of memory: a trace is cut short
where that isn't 0. With --tell stands before it what is in flight at first, each message
with its place, and a line for each step: the message that it hands on, what was answered,
with the reasons of a request that is sent, and each message that this sent, with its place
in flight from then on:

    0 first: 0 offer A:1 to P
    1 mail 0: offer A:1 to P held
    2 try P x: granted A:1, 0 notify A:1 s

With --chart FILE the steps are drawn too, for a browser: a line downwards for each component,
class and station, a row for each step, and an arrow for each message, from the row in which it
was sent to the one in which it was handed on, or into the air. A picture has at most 2000 rows:
of more steps, --from and --to show some.";

pub(crate) const EXPLORE_ABOUT: &str = "Runs steps by chance, and checks that each trace is a run";

pub(crate) const EXPLORE_HELP: &str = "\
For each seed from 1 to K, N protocol steps are drawn by chance and done, from the new
world of the model on, as `bipr steps` does those of a schedule; and the trace to which
they lead is checked as `bipr replay` does. Of the model of `bipr --help`,

    bipr explore MODEL --resolver central --seeds 3 --events 200

writes `seeds 3 runs 3`: the traces of all three seeds are runs of the model. Were one
none, the answer would be `seed S: not a run`, of the lowest such seed. A seed draws the
same steps each time. Where there is memory for all threads, the answer is the same however
many explore. The steps of one seed are written by `bipr seed`. Most steps that are drawn
do nothing: with a ring or forks, and with many components, seeds of fewer than 100,000
steps may grant little or nothing, of which the answer doesn't tell. With `--draw busy` only
such steps are drawn as have something to do, and a seed ends where there are none. With
--stats, standard error tells: the sums of the reports of all seeds, as `bipr steps` has
them; how often each interaction is granted, and in how many seeds; and behind how many
traces nothing may run, with the first of these seeds and how many grants it has:

    events 600 grants 3 refusals 0 idle 588 skipped 0 lost 0
    granted x 3 seeds 3
    ended 3 first 1 after 1";

pub(crate) const SEED_ABOUT: &str = "Writes the steps of a seed of `explore` as a schedule";

pub(crate) const SEED_HELP: &str = "\
The steps are those that `bipr explore` draws from seed S with the same resolver, as many
events and the same --draw. So `bipr steps` of what is written leads to that seed's trace,
told with `--tell`:

    bipr seed MODEL --resolver ring --seed 7 --events 500 > seven.schedule
    bipr steps MODEL seven.schedule --resolver ring --tell

A schedule has at most 16777216 bytes.";

pub(crate) const RUN_ABOUT: &str =
    "Runs the nodes of a model as threads, and says which grants they made";

pub(crate) const RUN_HELP: &str = "\
Each component and each class has a thread, which makes N turns and ends: it takes what it
was sent, and moves, or tries its next interaction. A reserved one is asked of one table
behind a lock, or of a station, a thread too, in a token ring or with forks; with
`--table words` the one table is in single words, without a lock, and has at most 32 rows: as
many components as `bipr check` counts as tabled. The trace of all
grants is written then, and `bipr replay` takes it where it has at most 16,777,216 bytes:
that it is a run of the model is proved for every order in which threads run. Which grants
are made is another one each time. A turn that did nothing counts too, so of few turns the
trace may be short, or empty. Of the model of `bipr --help`,

    bipr run MODEL --resolver central --turns 1000000 --stats

writes `grant x A:1`, and on standard error how many threads made how many turns together,
the grants, of how many the components were told, how many messages were lost for want of
memory, how many seconds it took, how many tokens and forks stations sent, and how many
request tokens; how many requests were refused, and how many found a row busy; and how many
grants words were drawn for, and how many of these stand in the trace. These figures are
counted, and promise nothing.

With `--grants N` in place of `--turns` threads go on until there are N grants, or a few
more, since they race; or until each component and each class had 100,000 turns in a row
without anything to do, or 10,000,000 while a request of its own is open; or until one
thread made 1,000,000,000 turns. With --stats one more line says then which of these ended
the run: `ended by grants`, `ended by quiet` or `ended by turns`.

With `--record FILE` the run is written down, as a schedule that does it again:

    bipr run MODEL --resolver ring --turns 10000 --record run.schedule > run.trace
    bipr steps MODEL run.schedule --resolver ring --tell

writes the same trace: a schedule is kept only where its steps lead to that, in a check of
its own. What threads wrote in words is done again with `--resolver central`. Of a ring's
token the schedule passes on no more than grants and refusals need. Nothing is kept where
messages were lost for want of memory, or of more than 16777216 bytes.";

pub(crate) const WALK_ABOUT: &str = "Walks a model: writes a run of it, by chance";

pub(crate) const WALK_HELP: &str = "\
The run is one of the model itself, without classes and messages: each next grant is drawn
among those that can be next, with all that it looks at. It ends early where there is none,
and then `nothing may run after K grants` goes to standard error. A seed walks the same way
each time, and `bipr replay` takes what is written.

    bipr walk MODEL --seed 1 --grants 20

With --stats, standard error says what the walk comes to: how often each interaction is granted,
and whether nothing may run behind the last grant. With --seeds K in place of --seed no trace is
written, but what the walks of the seeds from 1 to K come to. Of the model of `bipr --help`,

    bipr walk MODEL --seeds 3 --grants 20

writes

    walks 3 grants 3         so many grants in all
    granted x 3 seeds 3      x, three times, in the walks of three seeds
    ended 3 first 1 after 1  behind three nothing may run: seed 1 is the first, after one grant

How often an interaction comes is chance's alone: no fairness is meant.";

pub(crate) const WALK_BASE: &str = "the number that each component has used before the walk";
