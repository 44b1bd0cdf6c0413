//! The call that does all: words to a command, the command to its end, the end to a complaint and a
//! status.
ghost use Rattle.std.specs.Prelude.{◌≡◌, Option, map, string_bytes};
ghost use Rattle.command_words.specs.Readings.{Reading, reading_of};
ghost use Rattle.outside.specs.Shelf.{NoneOut};
ghost use Rattle.cqe_top.specs.Laws.{CallsHold};
ghost use Rattle.cqe_top.specs.Promise.{Promise, Does};
ghost use Rattle.cqe_top.specs.Scene.{scene_of, shelf_of, input_of, output_of, links_of};

use crate::complaint::complain;
use crate::end::CommandEnd;
use crate::for_user::run_for_user;
use crate::laws::{
    law_any_batches_join, law_any_calls_join, law_calls_are_parts, law_calls_join,
    law_dossiers_are_found_sound, law_standbys_keep, law_takeovers_join,
};
use crate::mirrored::run_mirrored;
use crate::over_files::run_over_files;
use crate::part::{Part, part_of};
use crate::report::{report_of, status_of};
use case_engine::run_case;
use command_words::read_words;
use outside::{Gate, Links, Shelf, Sink, Source};
use selfrun_engine::run_selfrun;
use std::alloc::{AllocError, Global};
use std::sync::Wait;
use std::thread::Threads;

/// Does all that the program does, and answers the status with which it ends: 0 done, 2 usage or no
/// such user, 3 policy, 4 facts, 5 script, 6 read, 7 write, 8 missing file, 9 shelf, 10 journal, 11
/// disk, 12 links, 13 memory, 14 dossier.
///
/// The command `case` reads a script with one user from the source and writes one line for each ask
/// to the sink. `init` reads a policy and facts from the shelf and makes an empty journal on the
/// disk of each user, where that is empty.
/// `batch` reads the same files and a script of many users from the source, over their journals; a
/// user whose journal is refused doesn't stop the others, each ask passes the gate, and users are
/// answered side by side from one restart to the next. `audit`
/// reads the same files and prints what the journal of one of the users holds. `selfrun` makes a
/// workload, runs it over objects in memory, and prints how often each reply came. `serve` reads
/// the same files as `batch` and serves the connections that the links give at an address, side by
/// side, until the links end or so many connections were served. It may wait, for a client, at the
/// desks and at the gate. `migrate` reads the same files as `init` and moves the old journal of
/// each user to a disk in another directory, which has to be empty. `dossier` reads the same files
/// as `audit` and writes the history of one of the users with what shows each reply; `check` reads
/// such a text from the source, over a policy and facts alone, and says whether it is sound.
/// `standby` reads the same files as `serve` and appends to the users' journals the records that
/// another program gives it over connections at an address, one after the other. With a standby at
/// an address the disks of `batch` and `serve` let a mark be told once the standby answered a count
/// above the number of its record (`standby_core`).
/// What can't be done is said to the complaints; where they fail too, nothing else changes.
///
/// No clause speaks of the gate, and none says that users of a batch or connections are served side
/// by side. Of a standby they say whom the dials call, that each exchange gives a record that lies
/// in the journal of its user as the call ends, and that no user has more entries then than the
/// standby answered for him, of a batch where an opening of his journal held; not that an exchange
/// came before its mark was told.
pub fn top<
    R: Threads + Wait + Sync,
    F: Shelf,
    S: Source,
    K: Sink,
    E: Sink,
    L: Links,
    G: Gate + Sync,
>(
    rt: &R,
    alloc: Global,
    words: &[String],
    shelf: &mut F,
    source: &mut S,
    sink: &mut K,
    complaints: &mut E,
    links: &mut L,
    gate: &G,
) -> u8
where
    F::D: Send,
    requires inside { NoneOut (F.is_out shelf.old) }
    ensures inside { NoneOut (F.is_out shelf.new) }
    ensures promise { Promise (map string_bytes words.now)
        (scene_of (shelf_of F.Shelf F.D.Disk shelf.old shelf.new)
        (input_of S.Source source.old source.new) (output_of K.Sink sink.old sink.new)
        (links_of L.Links links.old links.new))
        (output_of E.Sink complaints.old complaints.new) result }

    // What holds of several calls, by what this one and each other promises.
    ensures laws { CallsHold F.Shelf F.D.Disk S.Source K.Sink E.Sink L.Links }
{
    law_calls_join::<F, S, K, E, L>();
    law_calls_are_parts::<F, S, K, E, L>();
    law_any_calls_join::<F, S, K, E, L>();
    law_any_batches_join::<F>();
    law_standbys_keep::<F, S, K, E, L>();
    law_takeovers_join::<F, S, K, E, L>();
    law_dossiers_are_found_sound::<F, S, K, E, L>();
    let end = run(rt, alloc, words, shelf, source, sink, links, gate);
    let report = report_of(end);
    complain(complaints, &report);
    status_of(&report)
}

/// Runs the command of the words.
fn run<'w, R: Threads + Wait + Sync, F: Shelf, S: Source, K: Sink, L: Links, G: Gate + Sync>(
    rt: &R,
    alloc: Global,
    words: &'w [String],
    shelf: &mut F,
    source: &mut S,
    sink: &mut K,
    links: &mut L,
    gate: &G,
) -> CommandEnd<'w>
where
    F::D: Send,
    requires inside { NoneOut (F.is_out shelf.old) }
    ensures command { (read : Option Reading) × (reading_of (map string_bytes words.now) ≡ read)
        × Does (scene_of (shelf_of F.Shelf F.D.Disk shelf.old shelf.new)
        (input_of S.Source source.old source.new) (output_of K.Sink sink.old sink.new)
        (links_of L.Links links.old links.new)) read result }
{
    let command = match read_words(alloc, words) {
        Ok(Some(command)) => command,
        Ok(None) => return CommandEnd::Usage,
        Err(AllocError) => return CommandEnd::Memory,
    };
    match part_of(command) {
        Part::Case => CommandEnd::Case(run_case(rt, alloc, source, sink)),
        Part::Selfrun(words) => {
            let end = run_selfrun(rt, alloc, words.seed, words.users, words.asks, sink);
            CommandEnd::Selfrun(end)
        }
        Part::OverFiles(files, task) => {
            run_over_files(rt, alloc, files, task, shelf, source, sink, links, gate)
        }
        Part::ForUser(files, user, task) => {
            run_for_user::<F, S, K, L>(alloc, files, user, task, shelf, source, sink)
        }
        Part::Mirrored(files, task, standby) => run_mirrored(
            rt, alloc, files, task, standby, shelf, source, sink, links, gate,
        ),
    }
}
