//! Scenes are played.
use crate::cast::perform;
use crate::report::difference;
use crate::scene::{Call, Scene, Step};
use crate::stage::Stage;
use crate::trouble::Trouble;
use std::alloc::{AllocError, Global};
use std::sync::Wait;
use std::thread::Threads;

/// Plays all scenes: a line for each, and how many fit.
pub fn play_all(
    rt: &(impl Threads + Wait + Sync),
    alloc: Global,
    scenes: &[Scene],
) -> Result<String, Trouble> {
    let mut report = String::new(alloc);
    let mut fitting = 0usize;
    for scene in scenes {
        let differs = play(rt, alloc, scene)?;
        if differs.is_none() {
            fitting = fitting.saturating_add(1);
        }
        push_line(&mut report, scene.name.as_str(), differs)?;
    }
    write!(report, "{fitting} of {} scenes fit\n", scenes.len())?;
    Ok(report)
}

/// Appends the line of a scene: what differs, if anything does.
fn push_line(report: &mut String, name: &str, differs: Option<String>) -> Result<(), AllocError> {
    match differs {
        Some(what) => write!(report, "{name}: {what}\n"),
        None => write!(report, "{name} fits\n"),
    }
}

/// Plays a scene in each of its cuts: what differs first, if anything does.
fn play(
    rt: &(impl Threads + Wait + Sync),
    alloc: Global,
    scene: &Scene,
) -> Result<Option<String>, AllocError> {
    for cut in scene.cuts.iter() {
        if let Some(what) = play_cut(rt, alloc, scene, *cut)? {
            return Ok(Some(format!(in alloc; "in pieces of {cut}, {what}")?));
        }
    }
    Ok(None)
}

/// Plays a scene with streams that give and take pieces of this size.
fn play_cut(
    rt: &(impl Threads + Wait + Sync),
    alloc: Global,
    scene: &Scene,
    cut: usize,
) -> Result<Option<String>, AllocError> {
    let mut stage = Stage::new(alloc);
    for (number, step) in scene.steps.iter().enumerate() {
        if let Some(what) = take(rt, alloc, scene, &mut stage, step, cut)? {
            return Ok(Some(format!(in alloc; "step {number}: {what}")?));
        }
    }
    Ok(None)
}

/// Takes a step: what differs, if anything does.
fn take(
    rt: &(impl Threads + Wait + Sync),
    alloc: Global,
    scene: &Scene,
    stage: &mut Stage,
    step: &Step,
    cut: usize,
) -> Result<Option<String>, AllocError> {
    match step {
        Step::File(file) => stage.put_file(alloc, file)?,
        Step::Disk(disk) => stage.put_disk(alloc, disk)?,
        Step::Call(call) => return take_call(rt, alloc, scene, stage, call, cut),
    }
    Ok(None)
}

/// Calls a program: what differs, if anything does.
fn take_call(
    rt: &(impl Threads + Wait + Sync),
    alloc: Global,
    scene: &Scene,
    stage: &mut Stage,
    call: &Call,
    cut: usize,
) -> Result<Option<String>, AllocError> {
    match perform(rt, alloc, scene, stage, call, cut)? {
        Some(outcome) => difference(alloc, stage, call, &outcome),
        None => Ok(Some(String::from_str(alloc, "there is no such program")?)),
    }
}
