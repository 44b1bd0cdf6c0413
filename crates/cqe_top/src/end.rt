//! How a command ends.
use audit_engine::AuditEnd;
use batch_engine::BatchEnd;
use case_engine::CaseEnd;
use cqe_base::user::User;
use dossier_engine::{CheckEnd, DossierEnd};
use init_engine::InitEnd;
use migrate_engine::MigrateEnd;
use policy_files::{FactsError, PolicyError};
use selfrun_engine::SelfrunEnd;
use serve_engine::ServeEnd;
use standby_engine::CopyEnd;

/// How a command ends: by the end of its engine with what names its cause, or before that.
#[derive(Drop)]
pub enum CommandEnd<'w> {
    /// The words have no reading. Nothing was read or written.
    Usage,
    /// Memory was wanting for the words. Nothing was read or written.
    Memory,
    /// The files of the words weren't read. Nothing else was done.
    Files(FilesEnd<'w>),
    /// A case came to this end.
    Case(CaseEnd),
    /// The making of these users' journals did.
    Init(Vec<User>, InitEnd),
    /// A batch over these users' journals did.
    Batch(Vec<User>, BatchEnd),
    /// The policy has no user of the name among the words. Nothing was read or written but the
    /// files.
    Nobody,
    /// The audit of the user of this name came to this end.
    Audit(&'w str, AuditEnd),
    /// A workload's run did.
    Selfrun(SelfrunEnd),
    /// Serving over these users' journals did.
    Serve(Vec<User>, ServeEnd),
    /// The moving of these users' journals did.
    Migrate(Vec<User>, MigrateEnd),
    /// The dossier of the user of this name did.
    Dossier(&'w str, DossierEnd),
    /// The check of a dossier did.
    Check(CheckEnd),
    /// A standby with copies of these users' journals did.
    Standby(Vec<User>, CopyEnd),
}

/// Why a policy file and a facts file weren't read: by the first of them of which that is so.
#[derive(Drop)]
pub enum FilesEnd<'w> {
    /// The file of this name isn't there.
    Missing(&'w str),
    /// The shelf failed at a file: the policy, or the facts behind a policy that was read.
    ShelfFault(FileKind),
    /// The policy is refused.
    Policy(PolicyError),
    /// The facts are refused.
    Facts(FactsError),
    /// Memory was wanting.
    Memory,
}

/// One of the two files.
#[derive(Clone, Copy, Debug, PartialEq, Eq)]
pub enum FileKind {
    /// The policy.
    Policy,
    /// The facts.
    Facts,
}
