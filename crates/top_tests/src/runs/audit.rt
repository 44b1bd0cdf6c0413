//! Audits that are cut, and the worlds that they print.
use super::ward::{AUDIT, FACTS, batch, init, stage_of, ward};
use super::{Stage, counted};
use outside::{MemorySink, Pieces, Plan};
use std::alloc::{AllocError, Global};
use std::process::Abort;
use std::sync::Wait;
use std::test::Fail;
use std::thread::Threads;

// Two asks of each of three users of the ward.
const SCRIPT: &str =
    "eve 1 ask drug(ann)\nron 1 ask drug(ann)\nkim 1 ask hiv(ann) or hiv(bob)\neve 2 ask hiv(bob)\nkim 1 ask hiv(ann)\nron 1 ask hiv(bob)\n";

#[test]
fn an_audit_may_be_cut(rt: HostRuntime) -> Result<(), Fail> {
    let alloc = rt.alloc();
    let mut stage = ward(&rt, alloc)?;
    batch(&rt, alloc, &mut stage, SCRIPT)?;
    let sink = MemorySink::with_plan(alloc, Pieces::Whole, Plan::From(1));
    let mut words = AUDIT;
    words[8] = "kim";
    stage.run_into(&rt, alloc, &words, "not read", sink)?;
    let what = "a sink that fails at its second call";
    let part = "user kim combined open\n";
    stage.check(&rt, 7, part, "cqe: write fault\n", what);
    Ok(())
}

// Users of each method, with one secret and with two, one whose budget is soon spent, and two who
// have nothing to hide.
const SEVERAL: &str = "version = 1\n
[domains]
person = [\"ann\", \"bob\"]\n
[relations]
drug = [\"person\"]
hiv = [\"person\"]
[[users]]
name = \"ivy\"
method = \"lying\"
know = [\"drug(ann) -> hiv(ann)\", \"drug(bob) -> hiv(bob)\"]
secrets = [\"hiv(ann)\"]
[[users]]
name = \"eve\"
method = \"lying\"
know = [\"forall x: person . drug(x) -> hiv(x)\"]
secrets = [\"hiv(ann)\"]
[[users]]
name = \"ron\"
method = \"refusal\"
know = [\"forall x: person . drug(x) -> hiv(x)\"]
secrets = [\"hiv(ann)\"]
[[users]]
name = \"ray\"
method = \"refusal\"
know = [\"forall x: person . drug(x) -> hiv(x)\"]
secrets = [\"hiv(ann)\"]
[[users]]
name = \"joe\"
method = \"combined\"
know = [\"forall x: person . drug(x) -> hiv(x)\"]
secrets = [\"hiv(ann)\"]
[[users]]
name = \"kim\"
method = \"combined\"
know = [\"forall x: person . drug(x) -> hiv(x)\"]
secrets = [\"hiv(ann)\", \"hiv(bob)\"]
[[users]]
name = \"lea\"
method = \"lying\"
know = [\"forall x: person . drug(x) -> hiv(x)\"]
secrets = [\"hiv(ann)\", \"hiv(bob)\"]
[[users]]
name = \"ned\"
method = \"lying\"
know = [\"forall x: person . drug(x) -> hiv(x)\"]
secrets = [\"hiv(ann)\"]
budget = 10
[[users]]
name = \"pia\"
method = \"refusal\"
know = [\"forall x: person . drug(x) -> hiv(x)\"]
secrets = [\"false\"]
[[users]]
name = \"sam\"
method = \"combined\"
know = [\"forall x: person . drug(x) -> hiv(x)\"]
secrets = [\"false\"]
";

// What they ask, and what each gets where ann takes the drug and has hiv.
const ASKS: &str =
    "ivy 1 ask drug(ann)\nivy 1 ask hiv(ann)\nivy 1 ask hiv(bob)\neve 1 ask drug(ann)\neve 1 ask hiv(bob)\nron 1 ask drug(ann)\nron 1 ask hiv(bob)\nron 1 ask hiv(bob)\nray 1 ask not drug(ann)\njoe 1 ask drug(ann)\nkim 1 ask hiv(ann) or hiv(bob)\nkim 1 ask hiv(ann)\nlea 1 ask hiv(ann) or hiv(bob)\nlea 1 ask hiv(bob)\nned 1 ask drug(ann)\npia 1 ask drug(ann)\npia 1 ask hiv(bob)\nsam 1 ask drug(ann)\nsam 1 ask hiv(bob)\n";

const REPLIES: &str =
    "ivy 1 no\nivy 1 no\nivy 1 no\neve 1 no\neve 1 no\nron 1 refused\nron 1 no\nron 1 no\nray 1 refused\njoe 1 no\nkim 1 yes\nkim 1 refused\nlea 1 no\nlea 1 no\nned 1 undecided\npia 1 yes\npia 1 no\nsam 1 yes\nsam 1 no\n";

// How many secrets each user has.
const SECRETS: [(&str, u8); 10] = [
    ("ivy", 1),
    ("eve", 1),
    ("ron", 1),
    ("ray", 1),
    ("joe", 1),
    ("kim", 2),
    ("lea", 2),
    ("ned", 1),
    ("pia", 1),
    ("sam", 1),
];

// The lines of a user.
fn lines_of(alloc: Global, text: &str, user: &str) -> Result<String, AllocError> {
    let mut lines = String::new(alloc);
    for line in text.lines() {
        if let Some((name, _)) = line.split_once(' ')
            && name == user
        {
            write!(lines, "{line}\n")?;
        }
    }
    Ok(lines)
}

// The lines of a user that the program wrote; none where it wrote no text.
fn written_for(alloc: Global, stage: &Stage, user: &str) -> Result<String, AllocError> {
    lines_of(alloc, text_of(stage), user)
}

// What the program wrote; nothing where it was no text.
fn text_of(stage: &Stage) -> &str {
    str::from_utf8(stage.sink.bytes()).unwrap_or("")
}

// The facts that an audit's line of a secret names, as a facts file.
fn facts_in(alloc: Global, line: &str) -> Result<Vec<u8>, AllocError> {
    let mut bytes = Vec::new(alloc);
    if let Some((_, facts)) = line.rsplit_once(" world ") {
        for fact in facts.split(' ') {
            if fact != "-" {
                bytes.extend_from_slice(fact.as_bytes())?;
                bytes.push(b'\n')?;
            }
        }
    }
    Ok(bytes)
}

// Whether the world of an audit's line has the secret itself, which is a fact or `false`.
fn has_its_secret(line: &str) -> bool {
    if let Some((head, facts)) = line.rsplit_once(" world ")
        && let Some(secret) = head.strip_prefix("secret ")
    {
        for fact in facts.split(' ') {
            if fact == secret {
                return true;
            }
        }
    }
    false
}

// What the user gets in the world of an audit's line.
fn replies_in(
    rt: &(impl Threads + Wait + Sync),
    alloc: Global,
    line: &str,
    user: &str,
) -> Result<String, AllocError> {
    let facts = facts_in(alloc, line)?;
    let mut stage = stage_of(alloc, SEVERAL.as_bytes(), &facts)?;
    init(rt, alloc, &mut stage)?;
    batch(rt, alloc, &mut stage, ASKS)?;
    written_for(alloc, &stage, user)
}

// Whether the world of an audit's line doesn't have its secret, and gives the user these lines.
fn is_same_world(
    rt: &(impl Threads + Wait + Sync),
    alloc: Global,
    line: &str,
    user: &str,
    wanted: &str,
) -> Result<bool, AllocError> {
    let replies = replies_in(rt, alloc, line, user)?;
    Ok(replies.as_str() == wanted && !has_its_secret(line))
}

// How many worlds an audit prints, each without its secret and with the same lines for the user;
// 17, more than there can be, where one is otherwise.
fn same_worlds(
    rt: &(impl Threads + Wait + Sync),
    alloc: Global,
    printed: &str,
    user: &str,
    wanted: &str,
) -> Result<u8, AllocError> {
    let mut worlds = 0u8;
    for line in printed.lines() {
        if line.starts_with("secret ") {
            if !is_same_world(rt, alloc, line, user, wanted)? {
                return Ok(17);
            }
            worlds = worlds.saturating_add(1);
        }
    }
    Ok(worlds)
}

// A user's audit prints so many such worlds.
fn check_worlds(
    rt: &(impl Threads + Wait + Sync + Abort),
    alloc: Global,
    stage: &mut Stage,
    user: &str,
    secrets: u8,
) -> Result<(), AllocError> {
    let mut words = AUDIT;
    words[8] = user;
    stage.run(rt, alloc, &words, "not read")?;
    let wanted = lines_of(alloc, REPLIES, user)?;
    let worlds = same_worlds(rt, alloc, text_of(stage), user, wanted.as_str())?;
    counted(rt, worlds as usize, secrets as usize, user);
    Ok(())
}

// A shelf with the files of the users and the journals behind their asks.
fn asked(rt: &(impl Threads + Wait + Sync + Abort), alloc: Global) -> Result<Stage, AllocError> {
    let mut stage = stage_of(alloc, SEVERAL.as_bytes(), FACTS.as_bytes())?;
    init(rt, alloc, &mut stage)?;
    stage.check(rt, 0, "", "", "empty journals");
    batch(rt, alloc, &mut stage, ASKS)?;
    stage.check(rt, 0, REPLIES, "", "all asks");
    Ok(stage)
}

// In each world that an audit prints a secret is false, and the same asks get the same lines.
#[test]
fn a_printed_world_gives_the_same_lines(rt: HostRuntime) -> Result<(), Fail> {
    let alloc = rt.alloc();
    let mut stage = asked(&rt, alloc)?;
    for (user, secrets) in SECRETS {
        check_worlds(&rt, alloc, &mut stage, user, secrets)?;
    }
    Ok(())
}
