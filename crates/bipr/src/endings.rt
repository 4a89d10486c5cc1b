//! How a command ends: what it writes of its answer, and its status.
ghost use Rattle.std.specs.Prelude.{◌≡◌, ◌≤◌, length, Bool, Err, None, true};
ghost use Rattle.std.specs.List.{list_all};
ghost use Rattle.bip_explain.specs.Explanations.{is_shown};
ghost use Rattle.bipr.specs.Endings.{Ends, Explains, IsEnd, IsFileKept, IsOutcome, IsUnread};
ghost use Rattle.bipr.specs.Endings.{explaining, nothing_kept, told_status, why_line};
ghost use Rattle.bip_explain.specs.declared.explanations.TheConstants.{MOST_BYTES};
ghost use Rattle.bip_answers.specs.Answers.{complaining};
ghost use Rattle.bip_answers.specs.declared.answers.Status.TheVariants.{Refused};
ghost use Rattle.bipr.specs.Stops.{unwritten_text};
ghost use Rattle.bipr.specs.Streams.{Puts};

use crate::hosting::Hosting;
use crate::invocations::Invocation;
use crate::stops::{
    BAD_BASE, BAD_CHART, BAD_LIMITS, BAD_PART, BAD_RANGE, BAD_RECORD, BAD_SEEDS, BAD_SHOWING,
    CANNOT_WRITE, NO_MEMORY, NO_THREAD, NOT_A_RUN, SCHEDULE_TOO_LONG, Stop, TOO_MANY_ROWS,
    WORDS_NEED_CENTRAL, unread_text,
};
use crate::streams::{Stream, put};
use crate::wording::seed_verdict;
use arrayvec::ArrayVec;
use bip_answers::{Answer, FileText, Status};
use bip_explain::MOST_BYTES;

/// How many bytes the line has at most that explains a fault.
const MOST_OF_LINE: usize = 512;

impl<R, I, H: Hosting, O: Stream, E: Stream> Invocation<'_, R, I, H, O, E> {
    /// Ends a command with its answer, or with what stopped it: the output stands on standard
    /// output, then what it keeps in a file there, by this hosting, and then the complaint on
    /// standard error, each in one write (docs/ANSWERS.md, "Endings").
    pub fn end(&mut self, hosting: &H, answer: Result<Answer, Stop<'_>>) -> Status
        ensures { Ends (IsOutcome answer.entry) (Puts O.writes self.old.output self.new.output)
            (H.hosts hosting.now).keeps (Puts E.writes self.old.errors self.new.errors) result }
    {
        match answer {
            Ok(answer) => self.end_answered(hosting, &answer),
            Err(why) => self.end_stopped(&why),
        }
    }

    // Ends a command that has an answer.
    fn end_answered(&mut self, hosting: &H, answer: &Answer) -> Status
        ensures { IsEnd (Puts O.writes self.old.output self.new.output)
            (H.hosts hosting.now).keeps (Puts E.writes self.old.errors self.new.errors) answer.now
            result }
    {
        if !put(&mut self.output, answer.output.as_slice()) {
            return self.refuse_to_write(b"standard output took not all of the answer");
        }
        if !keep(hosting, self.record.take(), &answer.file) {
            return self.refuse_to_write(b"the file took not all of its text");
        }
        let is_out = put(&mut self.errors, answer.complaint.as_slice());
        told_status(is_out, answer.status)
    }

    // Ends a command with these texts, which keeps nothing in a file.
    fn end_texts(&mut self, status: Status, said: &[u8], complaint: &[u8]) -> Status
        ensures { IsEnd (Puts O.writes self.old.output self.new.output) nothing_kept
            (Puts E.writes self.old.errors self.new.errors) (record {
              status = status;
              output = said.now;
              complaint = complaint.now;
              file = None;
            }) result }
    {
        if !put(&mut self.output, said) {
            return self.refuse_to_write(b"standard output took not all of the answer");
        }
        let is_out = put(&mut self.errors, complaint);
        told_status(is_out, status)
    }

    // Ends a command whose answer can't be written, and explains why.
    fn refuse_to_write(&mut self, why: &[u8]) -> Status
        ensures status { result ≡ Refused }
        ensures complained { (is_told : Bool)
            × Puts E.writes self.old.errors self.new.errors unwritten_text is_told }
        ensures output { self.new.output ≡ self.old.output }
    {
        self.explanation.say_instead(why);
        put(&mut self.errors, CANNOT_WRITE);
        Status::Refused
    }

    fn end_stopped(&mut self, why: &Stop<'_>) -> Status
        ensures { Ends (IsOutcome (Err why.now)) (Puts O.writes self.old.output self.new.output)
            nothing_kept (Puts E.writes self.old.errors self.new.errors) result }
    {
        match *why {
            Stop::CannotRead(path) => self.end_unread(path),
            Stop::CannotWrite => self.complain(Status::Refused, CANNOT_WRITE),
            Stop::BaseOutOfRange => self.complain(Status::BadCommandLine, BAD_BASE),
            Stop::RowsOutOfOrder => self.complain(Status::BadCommandLine, BAD_RANGE),
            Stop::SeedOrSeeds => self.complain(Status::BadCommandLine, BAD_SEEDS),
            Stop::TurnsOrGrants => self.complain(Status::BadCommandLine, BAD_LIMITS),
            Stop::WordsNeedCentral => self.complain(Status::BadCommandLine, WORDS_NEED_CENTRAL),
            Stop::RecordOnOutput => self.complain(Status::BadCommandLine, BAD_RECORD),
            Stop::PlanOfPart => self.complain(Status::BadCommandLine, BAD_PART),
            Stop::DrawnAndTold => self.complain(Status::BadCommandLine, BAD_SHOWING),
            Stop::ChartOnOutput => self.complain(Status::BadCommandLine, BAD_CHART),
            Stop::TooManyRows => self.complain(Status::Refused, TOO_MANY_ROWS),
            Stop::ScheduleTooLong => self.complain(Status::Refused, SCHEDULE_TOO_LONG),
            Stop::GrantRefused => self.complain(Status::NotARun, NOT_A_RUN),
            Stop::ThreadRefused => self.complain(Status::NoThread, NO_THREAD),
            Stop::SeedNotARun(seed) => {
                let verdict = seed_verdict(seed);
                self.end_texts(Status::NotARun, verdict.as_slice(), &[])
            }
            Stop::OutOfMemory => {
                self.explanation
                    .say_instead(b"the answer takes more memory than there is");
                self.complain(Status::NoMemory, NO_MEMORY)
            }
        }
    }

    fn end_unread(&mut self, path: &str) -> Status
        ensures { Ends (IsUnread path.now) (Puts O.writes self.old.output self.new.output)
            nothing_kept (Puts E.writes self.old.errors self.new.errors) result }
    {
        match unread_text(self.alloc, path) {
            Ok(complaint) => self.complain(Status::Refused, complaint.as_slice()),
            Err(_) => {
                self.explanation
                    .say_instead(b"there is no memory to tell what is wrong");
                self.complain(Status::NoMemory, NO_MEMORY)
            }
        }
    }

    /// Ends a command with a complaint alone.
    pub fn complain(&mut self, status: Status, complaint: &[u8]) -> Status
        ensures { IsEnd (Puts O.writes self.old.output self.new.output) nothing_kept
            (Puts E.writes self.old.errors self.new.errors) (complaining status complaint.now)
            result }
    {
        self.end_texts(status, &[], complaint)
    }

    /// Explains a fault: puts what is said of it on standard error, in one write, behind all else.
    /// Nothing is put where nothing is said, or all is done (docs/ANSWERS.md, "Endings").
    pub fn explain(&mut self, status: Status)
        ensures explained { Explains E.writes self.old.errors self.new.errors status
            self.old.explanation.said }
        ensures shown { list_all is_shown self.old.explanation.said ≡ true }
        ensures short { length self.old.explanation.said ≤ MOST_BYTES }
        ensures output { self.new.output ≡ self.old.output }
    {
        let line = explaining(status, self.explanation.as_bytes());
        put(&mut self.errors, line.as_slice());
    }
}

/// Keeps what an answer does in the file that was made for it, and says whether all of that is out.
fn keep<H: Hosting>(hosting: &H, made: Option<H::Record>, file: &Option<FileText>) -> bool
    ensures { IsFileKept (H.hosts hosting.now).keeps file.now result }
{
    match file {
        Some(file) => hosting.keep(file.path.as_slice(), made, file.text.as_slice()),
        None => true,
    }
}

/// The status of an answer whose complaint was put: what is done is so only where that is out too.
fn told_status(is_told: bool, status: Status) -> Status
    ensures { result ≡ told_status is_told status }
{
    match status {
        Status::Done if !is_told => Status::Refused,
        status => status,
    }
}

/// What is put to explain a fault.
fn explaining(status: Status, why: &[u8]) -> ArrayVec<u8, MOST_OF_LINE>
    requires { length why.now ≤ MOST_BYTES }
    ensures { result.items ≡ explaining status why.now }
{
    match status {
        Status::Done => ArrayVec::new(),
        _ => why_line(why),
    }
}

/// The line of what is said of a fault.
fn why_line(why: &[u8]) -> ArrayVec<u8, MOST_OF_LINE>
    requires { length why.now ≤ MOST_BYTES }
    ensures { result.items ≡ why_line why.now }
{
    let mut line = ArrayVec::new();
    if !why.is_empty() {
        let _begun = line.try_extend_from_slice(b"bipr: ");
        let _said = line.try_extend_from_slice(why);
        let _ended = line.try_push(b'\n');
    }
    line
}
