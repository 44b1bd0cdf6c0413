//! The check of a dossier.
ghost use Rattle.std.specs.Prelude.{◌≡◌, ◌≤◌, ◌&&◌, false, [], codes, length, decimal, bytes_eq};
ghost use Rattle.std.specs.Prelude.{string_bytes, Ok, IfOk, OnOk};
ghost use Rattle.cqe_base.specs.Facts.{FactSet};
ghost use Rattle.cqe_base.specs.Schema.{DatabaseSchema, Text};
ghost use Rattle.cqe_base.specs.History.{UserProfile, History, profile_of, known};
ghost use Rattle.cqe_base.specs.Censor.{knows_truth_by};
ghost use Rattle.cqe_base.specs.Limits.{KeepsLimits};
ghost use Rattle.dossier.specs.Checked.{head, admission, item, head_rest};
ghost use Rattle.dossier.specs.Promised.{IsCheckOf, IsAccepted};
ghost use Rattle.dossier.specs.Reading.{bytes_left, field_said, ReadsOn};
ghost use Rattle.dossier.specs.Logs.{past_schema, past_user, past_history, IsKept, IsSamePast};
ghost use Rattle.dossier.specs.Logs.{IsPastOfSame};
ghost use Rattle.dossier.specs.Items.{ReadsItem, ReadsItems, EndsHere};

use crate::blocks::{Reason, Told, read_each};
use crate::cut::{Field, FieldIter, fields};
use crate::error::DossierError;
use crate::items::{is_refusal, read_ask, read_protect};
use crate::laws::{law_checked_is_sound, law_sound};
use crate::past::{Past, knows_truth};
use audit_print::method_word;
use cqe_base::laws::{law_added_secrets, law_limits, law_logs};
use cqe_base::schema::Schema;
use cqe_base::user::User;
use cqe_base::world::World;
use std::alloc::{AllocError, Global};

/// Checks the text of a dossier of a user over a world, line by line, and answers the number of its
/// items. Nothing is searched: each refutation is confirmed and each world tested. So it takes time
/// by the text and by the sentences of the log, written out, and never by what a search would cost.
/// What is accepted shows that the user is admissible and its history sound, whoever wrote it;
/// which asks are undecided it leaves open.
pub fn check_dossier(
    alloc: Global,
    schema: &Schema,
    world: &World,
    user: &User,
    text: &str,
) -> Result<u32, DossierError>
    requires limits { KeepsLimits schema.now (profile_of user.now) }
    requires bytes { length text.now ≤ 67108864 }
    ensures check { IsCheckOf schema.now world.now (string_bytes user.now.name)
        (profile_of user.now) text.now result }
    ensures accepted { IfOk result (IsAccepted schema.now world.now (string_bytes user.now.name)
        (profile_of user.now) text.now) }
{
    law_sound();
    law_checked_is_sound();
    let mut lines = fields(text);
    read_head(alloc, user, &mut lines)?;
    let mut past = Past::new(alloc, schema, user)?;
    read_admission(alloc, world, &mut past, &mut lines)?;
    read_items(alloc, world, &mut past, &mut lines)?;
    read_end(&mut lines)?;
    Ok(past.entries.len() as u32)
}

/// Reads the line of the user: he is this one, and open.
fn read_head(alloc: Global, user: &User, lines: &mut FieldIter<'_>) -> Result<(), DossierError>
    ensures reads { (schema : DatabaseSchema) (world : FactSet)
        → ReadsOn schema world (string_bytes user.now.name) (profile_of user.now) (Ok head)
        lines.old lines.new (λ _. Ok admission) result }
    ensures less { bytes_left lines.new ≤ bytes_left lines.old }
{
    let field = lines.take_line()?;
    let named = field.word == "dossier";
    if !named {
        return Err(DossierError::Form(field.line));
    }
    if says_head(alloc, user, "open", field.rest)? {
        return Ok(());
    }
    let closed = says_head(alloc, user, "closed", field.rest)?;
    if closed {
        return Err(DossierError::Admission(field.line));
    }
    let sealed = says_head(alloc, user, "sealed", field.rest)?;
    if sealed {
        return Err(DossierError::Admission(field.line));
    }
    Err(DossierError::Form(field.line))
}

/// Whether this stands behind `dossier` in the line of a user with this standing.
fn says_head(alloc: Global, user: &User, standing: &str, rest: &str) -> Result<bool, AllocError>
    ensures { IfOk result (λ yes. yes ≡ bytes_eq rest.now
        (head_rest (string_bytes user.now.name) (profile_of user.now) standing.now)) }
{
    let expected = head_rest(alloc, user, standing)?;
    Ok(rest == expected.as_str())
}

/// What stands behind `dossier` in the line of a user with this standing.
pub(crate) fn head_rest(alloc: Global, user: &User, standing: &str) -> Result<String, AllocError>
    ensures { IfOk result (λ text. string_bytes text
        ≡ head_rest (string_bytes user.now.name) (profile_of user.now) standing.now) }
{
    let mut text = String::from_str(alloc, "1 ")?;
    text.push_str(user.name.as_str())?;
    text.push_str(" ")?;
    text.push_str(method_word(user.method))?;
    text.push_str(" ")?;
    text.push_str(standing)?;
    Ok(text)
}

/// Reads the line of the admission and its blocks: what the user knows entails no guarded sentence,
/// and for refusal is true in the world.
fn read_admission(
    alloc: Global,
    world: &World,
    past: &mut Past<'_>,
    lines: &mut FieldIter<'_>,
) -> Result<(), DossierError>
    requires kept { IsKept past.old }
    requires none { past_history past.old ≡ [] }
    ensures reads { (name : Text) → ReadsOn (past_schema past.old) world.now name
        (past_user past.old) (Ok admission) lines.old lines.new (λ _. Ok (item [])) result }
    ensures kept { IsKept past.new }
    ensures same { IsSamePast past.old past.new }
    ensures less { bytes_left lines.new ≤ bytes_left lines.old }
{
    law_limits();
    law_logs();
    law_added_secrets();
    let field = lines.take_line()?;
    if !field.is_alone("admission") {
        return Err(DossierError::Form(field.line));
    }
    if !knows_truth_by(past, world) {
        return Err(DossierError::Admission(field.line));
    }
    let told = Told {
        schema: past.schema,
        user: past.user,
        entries: past.entries.as_slice(),
    };
    read_each(
        alloc,
        told,
        &mut past.view,
        None,
        past.guards.sentences(),
        Reason::Admitting,
        lines,
    )?;
    Ok(())
}

/// Whether what the user knows is true in a world, which refusal alone asks for.
fn knows_truth_by(past: &Past<'_>, world: &World) -> bool
    requires { IsKept past.now }
    ensures { result ≡ knows_truth_by (past_user past.now).method (past_schema past.now)
        world.now (known (past_user past.now)) }
{
    if is_refusal(past.user.method) {
        knows_truth(past.schema, world, past.user)
    } else {
        true
    }
}

/// Reads the items, up to the line that says how many there are.
fn read_items(
    alloc: Global,
    world: &World,
    past: &mut Past<'_>,
    lines: &mut FieldIter<'_>,
) -> Result<(), DossierError>
    requires kept { IsKept past.old }
    ensures reads { (name : Text) → ReadsItems (past_schema past.old) world.now name
        (past_user past.old) (past_history past.old) lines.old lines.new (past_history past.new)
        result }
    ensures kept { OnOk result (IsKept past.new) }
    ensures same { IsPastOfSame past.old past.new }
{
    loop {
        let field = lines.take_line()?;
        if says_done(alloc, past, &field)? {
            return Ok(());
        }
        read_item(alloc, world, past, &field, lines)?;
    }
}

/// Reads an item, of which this is the line.
fn read_item(
    alloc: Global,
    world: &World,
    past: &mut Past<'_>,
    field: &Field<'_>,
    lines: &mut FieldIter<'_>,
) -> Result<(), DossierError>
    requires kept { IsKept past.old }
    requires not_done { (bytes_eq (field_said field.now).word (codes "done")
        && bytes_eq (field_said field.now).rest (decimal (length (past_history past.old))))
        ≡ false }
    ensures reads { (name : Text) → ReadsItem (past_schema past.old) world.now name
        (past_user past.old) (past_history past.old) (field_said field.now) lines.old lines.new
        (past_history past.new) result }
    ensures kept { OnOk result (IsKept past.new) }
    ensures same { IsPastOfSame past.old past.new }
    ensures less { bytes_left lines.new ≤ bytes_left lines.old }
{
    let asks = field.word == "ask";
    let adds = field.word == "protect";
    if asks {
        read_ask(alloc, world, past, field, lines)
    } else if adds {
        read_protect(alloc, past, field, lines)
    } else {
        Err(DossierError::Form(field.line))
    }
}

/// Whether a line says that there are these items and no more.
fn says_done(alloc: Global, past: &Past<'_>, field: &Field<'_>) -> Result<bool, AllocError>
    ensures { IfOk result (λ yes. yes ≡ (bytes_eq (field_said field.now).word (codes "done")
        && bytes_eq (field_said field.now).rest (decimal (length (past_history past.now))))) }
{
    let count = past.entries.len();
    let expected = format!(in alloc; "{count}")?;
    Ok(field.word == "done" && field.rest == expected.as_str())
}

/// Nothing stands behind the end.
fn read_end(lines: &mut FieldIter<'_>) -> Result<(), DossierError>
    ensures { (schema : DatabaseSchema) (world : FactSet) (name : Text) (user : UserProfile)
        (entries : History) → EndsHere schema world name user entries lines.old result }
{
    match lines.take_field() {
        Some(field) => Err(DossierError::Form(field.line)),
        None => Ok(()),
    }
}
