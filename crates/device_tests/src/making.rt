ghost use Rattle.std.specs.Prelude.{◌≡◌, List, ℕ, false, IfOk, string_bytes};
ghost use Rattle.cqe_base.specs.Schema.{has_duplicate};
ghost use Rattle.init_engine.specs.Disks.{user_names};
ghost use Rattle.outside.specs.MemoryShelves.{is_disk_out};

use crate::checks;
use cqe_base::user::{Method, User};
use init_engine::{InitEnd, run_init};
use log_journal::{Header, OpenError};
use outside::{MemoryDisk, MemoryShelf, Plan};
use std::alloc::{AllocError, Global};
use std::process::Abort;
use std::test::Fail;

const HEADER: Header = Header {
    policy: [7; 32],
    facts: [9; 32],
};

const JOURNALS: [&str; 3] = ["d/ann.log", "d/bob.log", "d/eve.log"];

fn user(alloc: Global, name: &str) -> Result<User, AllocError>
    ensures { IfOk result (λ user. string_bytes user.name ≡ name.now) }
{
    Ok(User {
        name: String::from_str(alloc, name)?,
        method: Method::Lying,
        know: Vec::new(alloc),
        secrets: Vec::new(alloc),
        pairs: 0,
        budget: 1,
        token: None,
    })
}

fn users(alloc: Global) -> Result<Vec<User>, AllocError>
    ensures { IfOk result (λ users. has_duplicate (user_names users.items) ≡ false) }
{
    let mut users = Vec::new(alloc);
    users.push(user(alloc, "ann")?)?;
    users.push(user(alloc, "bob")?)?;
    users.push(user(alloc, "eve")?)?;
    Ok(users)
}

// Makes the journals of ann, bob and eve.
fn init(alloc: Global, shelf: &mut MemoryShelf, header: &Header) -> Result<InitEnd, AllocError>
    requires { (name : List ℕ) → is_disk_out shelf.old name ≡ false }
    ensures { (name : List ℕ) → is_disk_out shelf.new name ≡ false }
{
    let users = users(alloc)?;
    Ok(run_init(alloc, &users, header, "d", shelf))
}

// Makes them, and checks how that ends.
fn check_init(
    rt: &impl Abort,
    alloc: Global,
    shelf: &mut MemoryShelf,
    header: &Header,
    want: InitEnd,
) -> Result<(), AllocError>
    requires { (name : List ℕ) → is_disk_out shelf.old name ≡ false }
    ensures { (name : List ℕ) → is_disk_out shelf.new name ≡ false }
{
    assert_eq!(rt; init(alloc, shelf, header)?, want);
    Ok(())
}

// The bytes of a journal with this behind its header.
fn with_header(alloc: Global, behind: &[u8]) -> Result<Vec<u8>, AllocError> {
    let mut bytes = Vec::new(alloc);
    bytes.extend_from_slice(b"CQEJRNL2")?;
    bytes.extend_from_slice(&[7; 32])?;
    bytes.extend_from_slice(&[9; 32])?;
    bytes.extend_from_slice(behind)?;
    Ok(bytes)
}

// What the disks hold from byte 72 on, one after the other, with a 255 behind each, and a 254 for a
// disk that isn't there. An empty disk shows nothing.
fn shown(alloc: Global, shelf: &MemoryShelf) -> Result<Vec<u8>, AllocError> {
    let mut all = Vec::new(alloc);
    for name in JOURNALS {
        match shelf.disk(name) {
            Some(disk) => {
                let bytes = disk.bytes();
                all.extend_from_slice(bytes.get(72..).unwrap_or(&[]))?;
                all.push(255)?;
            }
            None => all.push(254)?,
        }
    }
    Ok(all)
}

// Checks what the disks hold.
fn check_shown(
    rt: &impl Abort,
    alloc: Global,
    shelf: &MemoryShelf,
    want: &[u8],
) -> Result<(), AllocError> {
    assert_eq!(rt; shown(alloc, shelf)?.as_slice(), want);
    Ok(())
}

// Checks that each disk holds a journal without records.
fn check_journals(rt: &impl Abort, alloc: Global, shelf: &MemoryShelf) -> Result<(), AllocError> {
    let want = with_header(alloc, &[0])?;
    for name in JOURNALS {
        match shelf.disk(name) {
            Some(disk) => assert_eq!(rt; disk.bytes(), want.as_slice(), "{name}"),
            None => assert!(rt; false, "{name}"),
        }
    }
    Ok(())
}

const OTHER_FACTS: Header = Header {
    policy: [7; 32],
    facts: [8; 32],
};

const OTHER_POLICY: InitEnd = InitEnd::Refused {
    user: 0,
    why: OpenError::OtherPolicy,
};

// What three journals without records show.
const THREE: [u8; 6] = [0, 255, 0, 255, 0, 255];

#[test]
fn empty_disks_become_journals(rt: HostRuntime) -> Result<(), Fail> {
    let alloc = rt.alloc();
    let mut shelf = MemoryShelf::new(alloc);
    check_init(&rt, alloc, &mut shelf, &HEADER, InitEnd::Done)?;
    check_journals(&rt, alloc, &shelf)?;
    check_init(&rt, alloc, &mut shelf, &HEADER, InitEnd::Done)?;
    check_shown(&rt, alloc, &shelf, &THREE)?;
    check_init(&rt, alloc, &mut shelf, &OTHER_FACTS, OTHER_POLICY)?;
    check_shown(&rt, alloc, &shelf, &THREE)?;
    checks::faults(&rt, shelf.faults(), 0);
    Ok(())
}

// A shelf with a disk of bob that has these bytes and fails by this plan.
fn shelf_of_bob(alloc: Global, bytes: Vec<u8>, plan: Plan) -> Result<MemoryShelf, AllocError>
    ensures { IfOk result (λ shelf. (name : List ℕ) → is_disk_out shelf name ≡ false) }
{
    let mut shelf = MemoryShelf::new(alloc);
    let disk = MemoryDisk::with_plan(alloc, bytes, plan)?;
    shelf.put_disk(alloc, "d/bob.log", disk)?;
    Ok(shelf)
}

// What stands behind the header on bob's disk, between two that are empty, how it ends, and what
// the disks show then.
const FOUND: [(&[u8], InitEnd, &[u8]); 5] = [
    (&[0], InitEnd::Done, &[0, 255, 0, 255, 0, 255]),
    (
        &[1, 2, 0, 1, 120, 0],
        InitEnd::Done,
        &[0, 255, 1, 2, 0, 1, 120, 0, 255, 0, 255],
    ),
    (&[0, 9, 9], InitEnd::Done, &[0, 255, 0, 9, 9, 255, 0, 255]),
    (
        &[1, 9, 0, 1, 120, 0],
        InitEnd::Refused {
            user: 1,
            why: OpenError::Damaged(0),
        },
        &[0, 255, 1, 9, 0, 1, 120, 0, 255, 254],
    ),
    (
        &[],
        InitEnd::Refused {
            user: 1,
            why: OpenError::NotAJournal,
        },
        &[0, 255, 255, 254],
    ),
];

// It is refused or left as it is.
#[test]
fn a_disk_that_is_not_empty_is_left(rt: HostRuntime) -> Result<(), Fail> {
    let alloc = rt.alloc();
    for (behind, end, shown) in &FOUND {
        let bytes = with_header(alloc, behind)?;
        let mut shelf = shelf_of_bob(alloc, bytes, Plan::Never)?;
        check_init(&rt, alloc, &mut shelf, &HEADER, *end)?;
        check_shown(&rt, alloc, &shelf, shown)?;
    }
    Ok(())
}

const REFUSED: InitEnd = InitEnd::Refused {
    user: 1,
    why: OpenError::DiskFault,
};

// One call of bob's disk fails: of an empty one the length, a sync, the write and a sync; of
// another the length, and then those of the opening.
#[test]
fn a_disk_that_fails_stops_it(rt: HostRuntime) -> Result<(), Fail> {
    let alloc = rt.alloc();
    for call in 0..4 {
        check_failing(&rt, alloc, Vec::new(alloc), call, InitEnd::DiskFault)?;
        let end = if call == 0 {
            InitEnd::DiskFault
        } else {
            REFUSED
        };
        check_failing(&rt, alloc, with_header(alloc, &[0])?, call, end)?;
    }
    Ok(())
}

// Checks how it ends where this call fails of a disk of bob with these bytes.
fn check_failing(
    rt: &impl Abort,
    alloc: Global,
    bytes: Vec<u8>,
    call: u64,
    end: InitEnd,
) -> Result<(), AllocError> {
    let mut shelf = failing_shelf(alloc, bytes, call)?;
    check_init(rt, alloc, &mut shelf, &HEADER, end)?;
    assert!(rt; shelf.disk("d/bob.log").is_some(), "call {call}");
    assert!(rt; shelf.disk("d/eve.log").is_none(), "call {call}");
    Ok(())
}

fn failing_shelf(alloc: Global, bytes: Vec<u8>, call: u64) -> Result<MemoryShelf, AllocError>
    ensures { IfOk result (λ shelf. (name : List ℕ) → is_disk_out shelf name ≡ false) }
{
    let plan = Plan::At(vec![in alloc; call]?);
    let shelf = shelf_of_bob(alloc, bytes, plan)?;
    Ok(shelf)
}

#[test]
fn a_shelf_that_fails_stops_it(rt: HostRuntime) -> Result<(), Fail> {
    let alloc = rt.alloc();
    let mut shelf = MemoryShelf::with_plan(alloc, Plan::At(vec![in alloc; 1]?));
    check_init(&rt, alloc, &mut shelf, &HEADER, InitEnd::ShelfFault)?;
    check_shown(&rt, alloc, &shelf, &[0, 255, 254, 254])?;
    check_init(&rt, alloc, &mut shelf, &HEADER, InitEnd::Done)?;
    check_shown(&rt, alloc, &shelf, &THREE)?;
    Ok(())
}
