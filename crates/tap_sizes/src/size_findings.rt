//! What the program finds, before anything is printed.
ghost use Rattle.std.specs.Prelude.{◌≡◌, IfOk, string_bytes};
ghost use Rattle.tap_sizes.specs.SizeFindings.{lines_of, report_in, status_by_end, status_of};
ghost use Rattle.tap_sizes.specs.SizeFindings.{status_of_files, too_long_lines, unanswered_line};

use crate::{SizeStatus, Unanswered};
use capture_file::CpuEnd;
use frame_view::{ByteList, Memory};
use reader_pace::ReaderError;
use run_reports::RingKind;
use setup_text::{SetupError, TextError};
use size_printing::{ReadFile, ReadFiles, SizeReport, push_files, reader_refusal, size_lines};
use std::alloc::Global;
use tap_printing::{setup_refusal, text_refusal};

/// What the program finds, from what the outside gives.
#[derive(Drop)]
pub(crate) enum SizeFinding {
    /// The words aren't two names.
    NoNames,
    /// A text can't be read.
    Unread,
    /// The setup is refused.
    BadSetup(SetupError),
    /// The filter is refused; the setup was accepted.
    BadFilter(TextError),
    /// The reader's text is refused; setup and filter were accepted.
    BadReader(ReaderError),
    /// The texts are accepted, and the program can't answer them yet.
    Unanswered(Unanswered),
    /// The captures were read, and their frames last longer than the clock of a schedule goes.
    TooLong(ReadFiles),
    /// The answers for rings of blocks, or of slots, of so many bytes each.
    Sized(RingKind, u32, SizeReport),
}

impl SizeFinding {
    /// The lines that it prints.
    pub(crate) fn lines(&self, alloc: Global) -> Result<ByteList, Memory>
        ensures { IfOk result (λ lines. lines ≡ lines_of self.now) }
    {
        let line = match self {
            SizeFinding::NoNames => format!(in alloc; "usage: ringsize CONF READER\n")?,
            SizeFinding::Unread => format!(in alloc; "read fault\n")?,
            SizeFinding::BadSetup(error) => setup_refusal(alloc, error)?,
            SizeFinding::BadFilter(error) => text_refusal(alloc, error)?,
            SizeFinding::BadReader(error) => reader_refusal(alloc, error)?,
            SizeFinding::Unanswered(why) => unanswered_line(alloc, *why)?,
            SizeFinding::TooLong(files) => return too_long_lines(alloc, files),
            SizeFinding::Sized(kind, unit, report) => {
                return size_lines(alloc, *kind, *unit, report);
            }
        };
        Ok(ByteList::from_vec(line.into_bytes()))
    }

    /// The status if printing doesn't fail.
    pub(crate) fn status(&self) -> SizeStatus
        ensures { result ≡ status_of self.now }
    {
        match self {
            SizeFinding::NoNames => SizeStatus::Usage,
            SizeFinding::Unread => SizeStatus::ReadFault,
            SizeFinding::BadSetup(error) => SizeStatus::Setup(*error),
            SizeFinding::BadFilter(error) => SizeStatus::Text(*error),
            SizeFinding::BadReader(error) => SizeStatus::Reader(*error),
            SizeFinding::Unanswered(why) => SizeStatus::Unanswered(*why),
            SizeFinding::TooLong(files) => status_of_files(files.as_slice(), SizeStatus::TooLong),
            SizeFinding::Sized(_, _, report) => {
                status_of_files(report.files.as_slice(), SizeStatus::Fine)
            }
        }
    }

    /// The report, if there is one.
    pub(crate) fn into_report(self) -> Option<SizeReport>
        ensures { result ≡ report_in self }
    {
        match self {
            SizeFinding::Sized(_, _, report) => Some(report),
            _ => None,
        }
    }
}

/// The line that says why the program can't answer texts that are accepted.
#[tactic(auto, unfolding(crate::specs::SizeFindings::unanswered_line))]
fn unanswered_line(alloc: Global, why: Unanswered) -> Result<String, Memory>
    ensures { IfOk result (λ line. string_bytes line ≡ unanswered_line why) }
{
    let line = match why {
        Unanswered::Poll => String::from_str(alloc, "reader: poll has no answer yet\n")?,
    };
    Ok(line)
}

/// The lines of captures whose frames last too long.
fn too_long_lines(alloc: Global, files: &ReadFiles) -> Result<ByteList, Memory>
    ensures { IfOk result (λ lines. lines ≡ too_long_lines files.now) }
{
    let mut lines = Vec::new(alloc);
    push_files(alloc, &mut lines, files.as_slice())?;
    lines.extend_from_slice(b"captures longer than 4294967295 ms\n")?;
    Ok(ByteList::from_vec(lines))
}

/// What the ends of files say: a fault of any, otherwise the damage of the first, otherwise this.
fn status_of_files(files: &[ReadFile], last: SizeStatus) -> SizeStatus
    ensures { result ≡ status_of_files files.now last }
{
    let mut status = last;
    let mut file = files.len();
    while file > 0 {
        file -= 1;
        status = status_by_end(files[file].cpu, files[file].end, status);
    }
    status
}

/// The status if a file of this CPU ended in this way, and those after it have this status.
fn status_by_end(cpu: u32, end: CpuEnd, rest: SizeStatus) -> SizeStatus
    ensures { result ≡ status_by_end cpu end rest }
{
    match end {
        CpuEnd::Whole => rest,
        CpuEnd::Fault => SizeStatus::ReadFault,
        CpuEnd::Damaged(fault) => match rest {
            SizeStatus::ReadFault => SizeStatus::ReadFault,
            _ => SizeStatus::Damaged { cpu, fault },
        },
    }
}
