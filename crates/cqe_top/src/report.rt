//! What is told of an end.
ghost use Rattle.std.specs.Prelude.{◌≡◌};
ghost use Rattle.cqe_top.specs.Reports.{status_of, report_of, answers_report, copies_report};
ghost use Rattle.cqe_top.specs.Reports.{has_refusal};
ghost use Rattle.cqe_top.specs.declared.end.CommandEnd.TheVariants as ends;

use crate::end::{CommandEnd, FilesEnd};
use audit_engine::AuditEnd;
use batch_engine::BatchEnd;
use case_engine::CaseEnd;
use cqe_base::text::ScriptError;
use cqe_base::user::User;
use dossier_engine::{CheckEnd, CheckRefusal, DossierEnd};
use init_engine::InitEnd;
use log_journal::OpenError;
use migrate_engine::MigrateEnd;
use policy_files::{FactsError, PolicyError};
use selfrun_engine::SelfrunEnd;
use serve_engine::ServeEnd;
use standby_engine::CopyEnd;
use user_desk::DeskError;

/// What is told of an end: by its status, and by its complaint, whose parts stand here.
#[derive(Drop)]
pub enum Report<'w> {
    /// All was done.
    Done,
    /// The words have no reading, or name a user whom the policy doesn't have.
    Usage,
    /// The policy is refused.
    Policy(PolicyError),
    /// The facts are refused.
    Facts(FactsError),
    /// The script is refused.
    Script(ScriptError),
    /// A read failed.
    ReadFault,
    /// A write failed.
    WriteFault,
    /// The file of this name isn't there.
    Missing(&'w str),
    /// The shelf failed.
    ShelfFault,
    /// The journal of the user of this name is refused.
    Journal(&'w str, DeskError),
    /// The disk of the user of this number isn't opened as a journal.
    JournalAt(Vec<User>, usize, OpenError),
    /// The disk to which the journal of the user of this number would be moved isn't empty.
    TargetAt(Vec<User>, usize),
    /// Journals of these users were refused; each has the first refusal of his, if one was.
    Journals(Vec<User>, Vec<Option<DeskError>>),
    /// A call of a disk failed, and no journal was refused.
    DiskFault,
    /// The links failed: nothing listens at the address, or no further client could be taken in.
    LinksFault,
    /// Memory was wanting.
    Memory,
    /// The dossier is refused.
    Dossier(CheckRefusal),
}

/// What is told of an end.
pub(crate) fn report_of<'w>(end: CommandEnd<'w>) -> Report<'w>
    ensures { result ≡ report_of end.entry }
{
    match end {
        CommandEnd::Usage | CommandEnd::Nobody => Report::Usage,
        CommandEnd::Memory => Report::Memory,
        CommandEnd::Files(end) => of_files(end),
        CommandEnd::Case(end) => of_case(end),
        CommandEnd::Init(users, end) => of_init(users, end),
        CommandEnd::Batch(users, end) => of_batch(users, end),
        CommandEnd::Audit(name, end) => of_audit(name, end),
        CommandEnd::Selfrun(end) => of_selfrun(end),
        CommandEnd::Serve(users, end) => of_serve(users, end),
        CommandEnd::Migrate(users, end) => of_migrate(users, end),
        CommandEnd::Dossier(name, end) => of_dossier(name, end),
        CommandEnd::Check(end) => of_check(end),
        CommandEnd::Standby(users, end) => of_standby(users, end),
    }
}

fn of_files<'w>(end: FilesEnd<'w>) -> Report<'w>
    ensures { result ≡ report_of (ends.Files end.entry) }
{
    match end {
        FilesEnd::Missing(name) => Report::Missing(name),
        FilesEnd::ShelfFault(_) => Report::ShelfFault,
        FilesEnd::Policy(why) => Report::Policy(why),
        FilesEnd::Facts(why) => Report::Facts(why),
        FilesEnd::Memory => Report::Memory,
    }
}

fn of_case<'w>(end: CaseEnd) -> Report<'w>
    ensures { result ≡ report_of (ends.Case end) }
{
    match end {
        CaseEnd::Done => Report::Done,
        CaseEnd::Script(refusal) => Report::Script(refusal),
        CaseEnd::ReadFault => Report::ReadFault,
        CaseEnd::WriteFault => Report::WriteFault,
        CaseEnd::Memory => Report::Memory,
    }
}

fn of_init<'w>(users: Vec<User>, end: InitEnd) -> Report<'w>
    ensures { result ≡ report_of (ends.Init users end) }
{
    match end {
        InitEnd::Done => Report::Done,
        InitEnd::Refused { user, why } => Report::JournalAt(users, user, why),
        InitEnd::DiskFault => Report::DiskFault,
        InitEnd::ShelfFault => Report::ShelfFault,
        InitEnd::Memory => Report::Memory,
    }
}

fn of_batch<'w>(users: Vec<User>, end: BatchEnd) -> Report<'w>
    ensures { result ≡ report_of (ends.Batch users end) }
{
    match end {
        BatchEnd::Done(refusals, is_broken) => of_answers(users, refusals, is_broken),
        BatchEnd::Script(refusal) => Report::Script(refusal),
        BatchEnd::ReadFault => Report::ReadFault,
        BatchEnd::WriteFault => Report::WriteFault,
        BatchEnd::ShelfFault => Report::ShelfFault,
        BatchEnd::Memory => Report::Memory,
    }
}

fn of_audit<'w>(name: &'w str, end: AuditEnd) -> Report<'w>
    ensures { result ≡ report_of (ends.Audit name.entry end) }
{
    match end {
        AuditEnd::Done => Report::Done,
        AuditEnd::Refused(why) => Report::Journal(name, why),
        AuditEnd::WriteFault => Report::WriteFault,
        AuditEnd::ShelfFault => Report::ShelfFault,
        AuditEnd::Memory => Report::Memory,
    }
}

fn of_selfrun<'w>(end: SelfrunEnd) -> Report<'w>
    ensures { result ≡ report_of (ends.Selfrun end) }
{
    match end {
        SelfrunEnd::Done => Report::Done,
        SelfrunEnd::WriteFault => Report::WriteFault,
        SelfrunEnd::Memory => Report::Memory,
    }
}

fn of_serve<'w>(users: Vec<User>, end: ServeEnd) -> Report<'w>
    ensures { result ≡ report_of (ends.Serve users end) }
{
    match end {
        ServeEnd::Done(refusals, is_broken) => of_answers(users, refusals, is_broken),
        ServeEnd::LinksFault => Report::LinksFault,
        ServeEnd::ShelfFault => Report::ShelfFault,
        ServeEnd::Memory => Report::Memory,
    }
}

fn of_migrate<'w>(users: Vec<User>, end: MigrateEnd) -> Report<'w>
    ensures { result ≡ report_of (ends.Migrate users end) }
{
    match end {
        MigrateEnd::Done => Report::Done,
        MigrateEnd::Refused { user, why } => Report::JournalAt(users, user, why),
        MigrateEnd::NotEmpty { user } => Report::TargetAt(users, user),
        MigrateEnd::DiskFault => Report::DiskFault,
        MigrateEnd::ShelfFault => Report::ShelfFault,
        MigrateEnd::Memory => Report::Memory,
    }
}

fn of_dossier<'w>(name: &'w str, end: DossierEnd) -> Report<'w>
    ensures { result ≡ report_of (ends.Dossier name.entry end) }
{
    match end {
        DossierEnd::Done => Report::Done,
        DossierEnd::Refused(why) => Report::Journal(name, why),
        DossierEnd::WriteFault => Report::WriteFault,
        DossierEnd::ShelfFault => Report::ShelfFault,
        DossierEnd::Memory => Report::Memory,
    }
}

fn of_check<'w>(end: CheckEnd) -> Report<'w>
    ensures { result ≡ report_of (ends.Check end) }
{
    match end {
        CheckEnd::Done => Report::Done,
        CheckEnd::Refused(why) => Report::Dossier(why),
        CheckEnd::ReadFault => Report::ReadFault,
        CheckEnd::WriteFault => Report::WriteFault,
        CheckEnd::Memory => Report::Memory,
    }
}

fn of_standby<'w>(users: Vec<User>, end: CopyEnd) -> Report<'w>
    ensures { result ≡ report_of (ends.Standby users end) }
{
    match end {
        CopyEnd::Done(refusals, is_broken, is_wanting) => {
            of_copies(users, refusals, is_broken, is_wanting)
        }
        CopyEnd::LinksFault => Report::LinksFault,
        CopyEnd::ShelfFault => Report::ShelfFault,
        CopyEnd::Memory => Report::Memory,
    }
}

/// What is told of a batch or a serving that came to its end.
fn of_answers<'w>(users: Vec<User>, refusals: Vec<Option<DeskError>>, is_broken: bool) -> Report<'w>
    ensures { result ≡ answers_report users refusals is_broken }
{
    if has_refusal(refusals.as_slice()) {
        Report::Journals(users, refusals)
    } else if is_broken {
        Report::DiskFault
    } else {
        Report::Done
    }
}

/// What is told of a standby that came to its end.
fn of_copies<'w>(
    users: Vec<User>,
    refusals: Vec<Option<DeskError>>,
    is_broken: bool,
    is_wanting: bool,
) -> Report<'w>
    ensures { result ≡ copies_report users refusals is_broken is_wanting }
{
    if has_refusal(refusals.as_slice()) {
        Report::Journals(users, refusals)
    } else if is_broken {
        Report::DiskFault
    } else if is_wanting {
        Report::Memory
    } else {
        Report::Done
    }
}

/// Whether one of the refusals is there.
fn has_refusal(refusals: &[Option<DeskError>]) -> bool
    ensures { result ≡ has_refusal refusals.now }
{
    refusals.iter().any(|refusal| refusal.is_some())
}

/// The status with which the program ends.
pub(crate) fn status_of(report: &Report<'_>) -> u8
    ensures { result ≡ status_of report.now }
{
    match report {
        Report::Done => 0,
        Report::Usage => 2,
        Report::Policy(_) => 3,
        Report::Facts(_) => 4,
        Report::Script(_) => 5,
        Report::ReadFault => 6,
        Report::WriteFault => 7,
        Report::Missing(_) => 8,
        Report::ShelfFault => 9,
        Report::Journal(..) | Report::JournalAt(..) | Report::Journals(..) => 10,
        Report::TargetAt(..) => 10,
        Report::DiskFault => 11,
        Report::LinksFault => 12,
        Report::Memory => 13,
        Report::Dossier(_) => 14,
    }
}
