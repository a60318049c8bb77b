//! What a command finds, before anything is printed and saved.
ghost use Rattle.std.specs.Prelude.{◌≡◌, ◌≤◌, IfOk, length};
ghost use Rattle.tap_engine.specs.Findings.{IsReady, lines_of, report_in, status_by_end, status_of};
ghost use Rattle.tap_engine.specs.Findings.{status_of_logs};

use crate::Status;
use crate::sent_captures::Sending;
use capture_file::CpuEnd;
use fanout_group::CpuLog;
use frame_view::{ByteList, Memory};
use run_reports::{Forwards, RingKind, RunReport};
use setup_text::{Setup, SetupError, TextError};
use std::alloc::Global;
use tap_printing::{send_lines, setup_refusal, summary, text_refusal};

/// What a command finds, from what the outside gives.
#[derive(Drop)]
pub(crate) enum CommandResult {
    /// The words aren't a command.
    NoCommand,
    /// A text can't be read.
    Unread,
    /// The setup is refused.
    BadSetup(SetupError),
    /// Another text is refused; all before it were accepted.
    BadText(TextError),
    /// All texts are accepted, and there is nothing to run.
    Checked,
    /// The run of a setup was made over rings of this kind, with what its members sent, if they
    /// send.
    Ran(RingKind, Setup, RunReport, Option<Forwards>),
    /// The capture of a setup was sent.
    Sent(Setup, Sending),
}

impl CommandResult {
    /// The lines that it prints.
    pub(crate) fn lines(&self, alloc: Global) -> Result<ByteList, Memory>
        ensures { IfOk result (λ lines. lines ≡ lines_of self.now) }
    {
        let line = match self {
            CommandResult::NoCommand => {
                format!(in alloc;
                    "usage: ringtap check|replay|capture|send|make|forward|replay2 CONF [SCHED]\n"
                )?
            }
            CommandResult::Unread => format!(in alloc; "read fault\n")?,
            CommandResult::BadSetup(error) => setup_refusal(alloc, error)?,
            CommandResult::BadText(error) => text_refusal(alloc, error)?,
            CommandResult::Checked => format!(in alloc; "ok\n")?,
            CommandResult::Ran(rings, setup, report, forwards) => {
                return summary(alloc, *rings, setup.shape.tov(), report, forwards.as_ref());
            }
            CommandResult::Sent(_, sending) => {
                send_lines(alloc, sending.frames, sending.end, &sending.sent)?
            }
        };
        Ok(ByteList::from_vec(line.into_bytes()))
    }

    /// The status if neither printing nor saving fails.
    pub(crate) fn status(&self) -> Status
        requires { IsReady self.now }
        ensures { result ≡ status_of self.now }
    {
        match self {
            CommandResult::NoCommand => Status::Usage,
            CommandResult::Unread => Status::ReadFault,
            CommandResult::BadSetup(error) => Status::Setup(*error),
            CommandResult::BadText(error) => Status::Text(*error),
            CommandResult::Checked => Status::Fine,
            CommandResult::Ran(_, _, report, _) => status_of_ends(report.cpus.as_slice()),
            CommandResult::Sent(_, sending) => status_with_end(0, sending.end, Status::Fine),
        }
    }

    /// The report, if a run was made.
    pub(crate) fn into_report(self) -> Option<RunReport>
        ensures { result ≡ report_in self }
    {
        match self {
            CommandResult::Ran(_, _, report, _) => Some(report),
            _ => None,
        }
    }
}

/// What the ends of CPUs say: a fault of any CPU, otherwise the damage of the lowest CPU.
fn status_of_ends(logs: &[CpuLog]) -> Status
    requires { length logs.now ≤ 8 }
    ensures { result ≡ status_of_logs 0 logs.now }
{
    let mut status = Status::Fine;
    let mut cpu = logs.len() as u32;
    while cpu > 0 {
        cpu -= 1;
        status = status_with_end(cpu, logs[cpu as usize].end, status);
    }
    status
}

/// The status if a CPU with this number ended in this way, and those after it have this status.
fn status_with_end(cpu: u32, end: CpuEnd, rest: Status) -> Status
    ensures { result ≡ status_by_end cpu end rest }
{
    match end {
        CpuEnd::Whole => rest,
        CpuEnd::Fault => Status::ReadFault,
        CpuEnd::Damaged(fault) => match rest {
            Status::ReadFault => Status::ReadFault,
            _ => Status::Damaged { cpu, fault },
        },
    }
}
