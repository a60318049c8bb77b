//! The files of members.
ghost use Rattle.std.specs.Prelude.{◌≡◌, ◌≤◌, ◌++◌, length, All, IfOk, IfSome, IsTrue, OnErr, OnOk};
ghost use Rattle.std.specs.Prelude.{is_some, option_copied};
ghost use Rattle.std.specs.List.{AllByRecursion};
ghost use Rattle.tap_saving.specs.Files.{CanBeOutput, files_at, files_from, names_from, sent_by};
ghost use Rattle.tap_saving.specs.Saves.{Saved, SavedSome, Touches};

use crate::names::file_name;
use crate::planned_file::PlannedFile;
use crate::saves::save_files;
use frame_view::{Memory, Packets};
use run_reports::{Forwards, MemberReport};
use setup_text::Setup;
use std::alloc::Global;
use tap_outside::Store;

/// Saves the files of members, those of member 0 first: the packets that were read, as a capture
/// file; if the setup asks for them, the bytes of the blocks; and, if members send, the packets
/// that were sent, as a capture file with the ending `.tx.pcap`. Every file is tried, even if one
/// failed. It returns whether all were saved. The error is out of memory: then each name holds what
/// it held before or its file's bytes, except for the saves that failed.
pub fn save_members<S: Store>(
    alloc: Global,
    setup: &Setup,
    reports: &[MemberReport],
    forwards: Option<&Forwards>,
    store: &mut S,
) -> Result<bool, Memory>
    requires few { length reports.now ≤ 8 }
    requires meant { AllByRecursion (λ name. IsTrue ((S.seen store.old).to_save name))
        (names_from setup.now (is_some (option_copied forwards)) 0 (length reports.now)) }
    requires short { All (λ report. CanBeOutput report.walked) reports.now }
    requires sent { IfSome (option_copied forwards) (λ forwards. All CanBeOutput forwards.sent) }
    ensures touches { Touches (S.seen store.old) (S.seen store.new)
        (names_from setup.now (is_some (option_copied forwards.entry)) 0 (length reports.now)) }
    ensures saved { IfOk result (λ all. Saved (S.seen store.old) (S.seen store.new)
        (files_from setup.now (option_copied forwards.entry) 0 reports.now) all) }
    ensures early { OnErr result (SavedSome (S.seen store.old) (S.seen store.new)
        (files_from setup.now (option_copied forwards.entry) 0 reports.now)) }
{
    let files = planned_files(alloc, setup, reports, forwards)?;
    save_files(alloc, &files, store)
}

/// The files of members.
fn planned_files<'a>(
    alloc: Global,
    setup: &Setup,
    reports: &'a [MemberReport],
    forwards: Option<&'a Forwards>,
) -> Result<Vec<PlannedFile<'a>>, Memory>
    requires short { All (λ report. CanBeOutput report.walked) reports.now }
    requires sent { IfSome (option_copied forwards) (λ forwards. All CanBeOutput forwards.sent) }
    ensures { IfOk result (λ files.
        files.items ≡ files_from setup.now (option_copied forwards.entry) 0 reports.now) }
{
    let mut files = Vec::new(alloc);
    for (member, report) in reports.iter().enumerate() {
        let sent = sent_by(forwards, member);
        push_files(alloc, setup, member, report, sent, &mut files)?;
    }
    Ok(files)
}

/// What a member sent, if members send.
fn sent_by<'a>(forwards: Option<&'a Forwards>, member: usize) -> Option<&'a Packets>
    ensures { option_copied result ≡ sent_by (option_copied forwards.entry) member }
{
    match forwards {
        None => None,
        Some(forwards) => forwards.sent.get(member),
    }
}

/// Appends the files of a member.
fn push_files<'a>(
    alloc: Global,
    setup: &Setup,
    member: usize,
    report: &'a MemberReport,
    sent: Option<&'a Packets>,
    files: &mut Vec<PlannedFile<'a>>,
) -> Result<(), Memory>
    requires short { CanBeOutput report.now.walked }
    requires sent { IfSome (option_copied sent) CanBeOutput }
    ensures { OnOk result (files.new.items ≡ files.old.items
        ++ files_at setup.now member report.now (option_copied sent.entry)) }
{
    let name = file_name(alloc, &setup.prefix, member, ".pcap")?;
    files.push(PlannedFile::capture(name, &report.walked))?;
    if setup.dump {
        let name = file_name(alloc, &setup.prefix, member, ".blk")?;
        files.push(PlannedFile::of_dump(name, &report.dump))?;
    }
    if let Some(packets) = sent {
        let name = file_name(alloc, &setup.prefix, member, ".tx.pcap")?;
        files.push(PlannedFile::capture(name, packets))?;
    }
    Ok(())
}
