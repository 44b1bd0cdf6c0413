//! The users of a stretch, who are answered side by side.

ghost use Rattle.std.specs.Prelude.{◌≡◌, ◌<◌, ◌≤◌, ◌+◌, [], ◌++◌, All, ℕ, map, length, IfErr, IfOk};
ghost use Rattle.std.specs.Prelude.{false, List, vec_len, vec_capacity};
ghost use Rattle.std.specs.List.{AllByRecursion, flat_map, list_any};
ghost use Rattle.std.specs.Thread.{IsSync};
ghost use Rattle.cqe_base.specs.Schema.{DatabaseSchema, has_duplicate};
ghost use Rattle.cqe_base.specs.Facts.{FactSet};
ghost use Rattle.cqe_base.specs.History.{profile_of};
ghost use Rattle.desk_crew.specs.Crew.{seat_user, seat_name, seat_kept, is_named, IsSeatServed};
ghost use Rattle.batch_engine.specs.Batches.{asks_in, AreShort};
ghost use Rattle.batch_engine.specs.Answers.{asks_of, strangers_from};
ghost use Rattle.batch_engine.specs.Posts.{HasRoom, HasRooms, RunsOwn, AllRunOwn, AreAnswered};
ghost use Rattle.batch_engine.specs.Posts.{seat_of, answers_at, names_of};

use crate::answer::{Answer, answer_to};
use crate::batch::BatchAsk;
use crate::line::purpose_of;
use desk_counter::{Owned, TicketedDesk};
use desk_crew::{DeskSeat, Seat, call_at, room_for};
use outside::{Disk, Gate};
use std::alloc::{AllocError, Global};
use std::sync::Wait;
use std::thread;
use std::thread::Threads;

/// A user at his desk, with the answers to his asks in a stretch.
#[derive(Drop)]
struct Post<'w, V: Owned> {
    seat: Seat<'w, V>,
    answers: Vec<Answer>,
}

type DeskPost<'w, D> = Post<'w, TicketedDesk<'w, D>>;

/// How many of the asks have this name.
fn asks_of(asks: &[BatchAsk], name: &str) -> usize
    ensures { result ≡ asks_of name.now (asks_in asks.now) }
{
    let mut count = 0;
    for ask in asks {
        if name == ask.name.as_str() {
            count += 1;
        }
    }
    count
}

/// Room for the answers to each user.
fn rooms_for<D: Disk>(
    alloc: Global,
    seats: &[DeskSeat<'_, D>],
    asks: &[BatchAsk],
) -> Result<Vec<Vec<Answer>>, AllocError>
    ensures rooms { IfOk result (λ rooms. HasRooms (asks_in asks.now) seats.now rooms.items) }
{
    let mut rooms = room_for(alloc, seats.len())?;
    for seat in seats {
        rooms.push_reserved(room_for(alloc, asks_of(asks, seat.user.name.as_str()))?);
    }
    Ok(rooms)
}

/// Gives each seat its room.
fn post_all<'w, D: Disk + Drop>(
    seats: Vec<DeskSeat<'w, D>>,
    rooms: Vec<Vec<Answer>>,
    room: Vec<DeskPost<'w, D>>,
    asks: &[BatchAsk],
) -> Vec<DeskPost<'w, D>>
    requires empty { room.items ≡ [] }
    requires room { length seats.items ≤ vec_capacity room }
    requires rooms { HasRooms (asks_in asks.now) seats.items rooms.items }
    ensures seats { map seat_of result.items ≡ seats.entry.items }
    ensures rooms { All (HasRoom (asks_in asks.now)) result.items }
{
    let mut posts = room;
    let mut rooms = rooms;
    for seat in seats {
        posts.push_reserved(Post {
            seat,
            answers: rooms.remove(0),
        });
    }
    posts
}

/// Answers the asks of one user, one after the other.
fn answer_own<R: Threads + Wait + Sync, G: Gate, D: Disk>(
    rt: &R,
    alloc: Global,
    asks: &[BatchAsk],
    post: &mut DeskPost<'_, D>,
    gate: &G,
)
    requires short { AreShort asks.now }
    requires user { (seat_kept post.old.seat).user ≡ profile_of (seat_user post.old.seat) }
    requires room { HasRoom (asks_in asks.now) post.old }
    ensures own { RunsOwn (asks_in asks.now) post.old post.new }
{
    for (number, ask) in asks.iter().enumerate() {
        if post.seat.user.name.as_str() == ask.name.as_str() {
            let reply = call_at(
                rt,
                alloc,
                &mut post.seat,
                purpose_of(ask.caller),
                ask.text.as_str(),
                gate,
            );
            post.answers
                .push_reserved(answer_to(number, ask, Some(reply)));
        }
    }
}

/// Answers the asks of all users, in as many threads as there are workers, or fewer.
fn answer_each<R: Threads + Wait + Sync, G: Gate + Sync, D: Disk + Drop + Send>(
    rt: &R,
    alloc: Global,
    workers: usize,
    asks: &[BatchAsk],
    posts: &mut [DeskPost<'_, D>],
    gate: &G,
)
    requires some { 0 < workers }
    requires short { AreShort asks.now }
    requires users { All (λ post. (seat_kept post.seat).user ≡ profile_of (seat_user post.seat))
        posts.old }
    requires rooms { All (HasRoom (asks_in asks.now)) posts.old }
    ensures count { length posts.new ≡ length posts.old }
    ensures own { AllRunOwn (asks_in asks.now) posts.old posts.new }
{
    thread::for_each_mut(
        rt,
        posts,
        workers,
        &|_, post: &mut DeskPost<'_, D>|
            requires sync { IsSync R.row }
            requires short { AreShort asks.now }
            requires user { (seat_kept post.now.seat).user
                ≡ profile_of (seat_user post.now.seat) }
            requires room { HasRoom (asks_in asks.now) post.now }
            ensures own { RunsOwn (asks_in asks.entry.now) post.entry.now post.exit.now }
        { answer_own(rt, alloc, asks, post, gate) },
    );
}

/// Whether a user has this name.
fn is_known<D: Disk>(posts: &[DeskPost<'_, D>], name: &str) -> bool
    ensures { result ≡ list_any (λ post. is_named name.now post.seat) posts.now }
{
    posts
        .iter()
        .any(|post| post.seat.user.name.as_str() == name)
}

/// The answers to asks of names that no user has, in a list with the room for all asks.
fn strangers<D: Disk>(
    posts: &[DeskPost<'_, D>],
    asks: &[BatchAsk],
    room: Vec<Answer>,
) -> Vec<Answer>
    requires short { AreShort asks.now }
    requires empty { room.items ≡ [] }
    requires room { length asks.now ≤ vec_capacity room }
    ensures answers { result.items ≡ strangers_from 0 (asks_in asks.now) (names_of posts.now) }
    ensures capacity { vec_capacity result ≡ vec_capacity room }
{
    let mut answers = room;
    for (number, ask) in asks.iter().enumerate() {
        if !is_known(posts, ask.name.as_str()) {
            answers.push_reserved(answer_to(number, ask, None));
        }
    }
    answers
}

/// Appends answers to a list with the room for them.
fn put_behind(answers: &mut Vec<Answer>, more: Vec<Answer>)
    requires { length answers.old.items + length more.items ≤ vec_capacity answers.old }
    ensures all { answers.new.items ≡ answers.old.items ++ more.items }
    ensures capacity { vec_capacity answers.new ≡ vec_capacity answers.old }
{
    for answer in more {
        answers.push_reserved(answer);
    }
}

/// Takes posts apart: the seats, and behind these answers all others.
fn dismiss<'w, D: Disk + Drop>(
    posts: Vec<DeskPost<'w, D>>,
    room: Vec<DeskSeat<'w, D>>,
    answers: Vec<Answer>,
) -> (Vec<DeskSeat<'w, D>>, Vec<Answer>)
    requires empty { room.items ≡ [] }
    requires room { length posts.items ≤ vec_capacity room }
    requires all { length answers.items
        + length (flat_map answers_at posts.items) ≤ vec_capacity answers }
    ensures seats { result.0.items ≡ map seat_of posts.entry.items }
    ensures answers { result.1.items ≡ answers.items
        ++ flat_map answers_at posts.entry.items }
    ensures capacity { vec_capacity result.1 ≡ vec_capacity answers }
{
    let mut seats = room;
    let mut answers = answers;
    for post in posts {
        put_behind(&mut answers, post.answers);
        seats.push_reserved(post.seat);
    }
    (seats, answers)
}

/// Answers the asks of a stretch, the users side by side: the seats behind it, and the answers in
/// any order, in a list with room for one more. For want of memory, before the first ask, the seats
/// come back as they were.
pub(crate) fn answer_stretch<'w, R: Threads + Wait + Sync, G: Gate + Sync, D: Disk + Drop + Send>(
    rt: &R,
    alloc: Global,
    workers: u32,
    seats: Vec<DeskSeat<'w, D>>,
    asks: &[BatchAsk],
    gate: &G,
) -> Result<(Vec<DeskSeat<'w, D>>, Vec<Answer>), Vec<DeskSeat<'w, D>>>
    requires some { 1 ≤ workers }
    requires short { AreShort asks.now }
    requires served { (schema : DatabaseSchema) × (world : FactSet) × (header : List ℕ)
        × AllByRecursion (IsSeatServed schema world header) seats.items }
    requires distinct { has_duplicate (map seat_name seats.items) ≡ false }
    ensures refused { IfErr result (λ same. same ≡ seats.entry) }
    ensures answered { IfOk result (λ told. (schema : DatabaseSchema) (world : FactSet)
        (header : List ℕ) → AllByRecursion (IsSeatServed schema world header) seats.entry.items
        → AreAnswered schema world (asks_in asks.now) seats.entry.items told.0.items told.1.items) }
    ensures spare { IfOk result (λ told. vec_len told.1 < vec_capacity told.1) }
{
    let count = seats.len();
    let Some(all) = asks.len().checked_add(1) else {
        return Err(seats);
    };
    let (Ok(posts), Ok(room), Ok(answers), Ok(rooms)) = (
        room_for(alloc, count),
        room_for(alloc, count),
        room_for(alloc, all),
        rooms_for(alloc, seats.as_slice(), asks),
    ) else {
        return Err(seats);
    };
    let mut posts = post_all(seats, rooms, posts, asks);
    answer_each(rt, alloc, workers as usize, asks, &mut posts, gate);
    let answers = strangers(posts.as_slice(), asks, answers);
    Ok(dismiss(posts, room, answers))
}
