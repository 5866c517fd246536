// One list of calls, met by a sheet over each of two systems.
ghost use Rattle.std.specs.Prelude.{◌≡◌, ◌+◌, ◌≤◌, ◌++◌, length, IfOk, Ok, vec_len, vec_capacity};
ghost use Rattle.std.specs.Option.{option_map};
ghost use Rattle.sheet.specs.Calls.{opened as opened_with};
ghost use Rattle.runs.specs.Met.{replies, after_each, answers_from, after_all, later_answers};
ghost use Rattle.runs.specs.Rooms.{Roomy, count_of};
ghost use Rattle.runs.specs.Runs.{LawOfRuns};

use crate::answer::{ClosedAnswer, OpenAnswer};
use crate::call::{ClosedCall, OpenCall};
use crate::meet::{Attended, Meets};
use std::alloc::{AllocError, Global};
use systems::System;

// The calls on a sheet that is opened with this serial and weight: those while it is open, then, unless there is `None`, the
// close and the calls on the closed sheet. Clauses read the slices as they stand behind their references: a type that is copied and
// has a lifetime can have no model.
#[derive(Clone, Copy)]
pub struct Run<'a> {
    pub serial: u32,
    pub weight: u64,
    pub opened: &'a [OpenCall],
    pub closed: Option<&'a [ClosedCall]>,
}

// What one sheet answers: to the calls while it is open, and to those after it was closed.
#[derive(Drop)]
pub struct Answers {
    pub opened: Vec<OpenAnswer>,
    pub closed: Vec<ClosedAnswer>,
}

// What the two sheets answer.
#[derive(Drop)]
pub struct Replayed {
    pub first: Answers,
    pub second: Answers,
}

// Calls in order, on an open sheet or on a closed one.
fn meet_all<M: Meets>(sheet: &mut M, calls: &[M::Call], answers: &mut Vec<M::Answer>)
    requires { vec_len answers.old + length calls.now ≤ vec_capacity answers.old }
    ensures items { answers.new.items ≡ answers.old.items ++ replies M.reply M.after (M.model sheet.old) calls.now }
    ensures after { M.model sheet.new ≡ after_each M.after (M.model sheet.old) calls.now }
{
    for call in calls {
        answers.push_reserved(sheet.meet(*call));
    }
}

// The sheet that is opened for the calls of a run.
fn opened_for<S: System>(system: S, run: Run) -> Attended<S>
    ensures { result.sheet ≡ opened_with run.entry.serial run.entry.weight }
{
    Attended::new(run.serial, run.weight, system)
}

// The calls on a sheet that is opened for them, into answers that have room for all.
fn answers_on<S: System>(system: S, run: Run, room: Answers) -> Answers
    requires { Roomy room (length run.opened.now) (count_of (option_map (λ x. x.now) run.closed)) }
    ensures opened { result.opened.items ≡ answers_from (opened_with run.entry.serial run.entry.weight) run.entry.opened.now }
    ensures closed { result.closed.items ≡ later_answers S.modulus (after_all (opened_with run.entry.serial run.entry.weight) run.entry.opened.now) (option_map (λ x. x.now) run.entry.closed) }
{
    let Answers {
        mut opened,
        mut closed,
    } = room;
    let mut sheet = opened_for(system, run);
    meet_all(&mut sheet, run.opened, &mut opened);
    if let Some(calls) = run.closed {
        meet_all(&mut sheet.close(), calls, &mut closed);
    }
    Answers { opened, closed }
}

// The calls on a sheet over each system, once there is room for the answers. Nothing can fail from here on, and whatever the calls
// are, the answers obey the law of runs.
fn answers_of_both<S: System, T: System>(
    first: S,
    second: T,
    run: Run,
    room: Answers,
    other: Answers,
) -> Replayed
    requires room { Roomy room (length run.opened.now) (count_of (option_map (λ x. x.now) run.closed)) }
    requires other { Roomy other (length run.opened.now) (count_of (option_map (λ x. x.now) run.closed)) }
    ensures { LawOfRuns run.entry.serial run.entry.weight S.modulus T.modulus run.entry.opened.now (option_map (λ x. x.now) run.entry.closed) (Ok result) }
{
    Replayed {
        first: answers_on(first, run, room),
        second: answers_on(second, run, other),
    }
}

fn room_for(heap: Global, run: Run) -> Result<Answers, AllocError>
    ensures { IfOk result (λ room. Roomy room (length run.entry.opened.now) (count_of (option_map (λ x. x.now) run.entry.closed))) }
{
    Ok(Answers {
        opened: Vec::with_capacity(heap, run.opened.len())?,
        closed: Vec::with_capacity(heap, run.closed.map_or(0, |calls| calls.len()))?,
    })
}

// Makes the calls on a sheet over each system. Whatever the calls are, the answers obey the law of runs; room for the answers is
// made first, so that want of memory comes before the first call.
pub fn replay<S: System, T: System>(
    heap: Global,
    first: S,
    second: T,
    run: Run,
) -> Result<Replayed, AllocError>
    ensures { LawOfRuns run.entry.serial run.entry.weight S.modulus T.modulus run.entry.opened.now (option_map (λ x. x.now) run.entry.closed) result }
{
    let room = room_for(heap, run)?;
    let other = room_for(heap, run)?;
    Ok(answers_of_both(first, second, run, room, other))
}
