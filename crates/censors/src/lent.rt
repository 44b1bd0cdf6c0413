//! Views of one log that are lent together, each for a thread.

ghost use Rattle.std.specs.Prelude.{◌≡◌, ◌≤◌, ◌<◌, All, map, length, IfOk};
ghost use Rattle.entailment.specs.Views.{schema_of, log_of, IsViewOf, IsViewWithin};
ghost use Rattle.censors.specs.Lent.{held_views, held_view, first_view};

use crate::parts::PartFound;
use entailment::{View, Views};
use std::alloc::{AllocError, Global};
use std::marker::Model;

/// So many threads make the probes of a query at most.
pub(crate) const MOST_LANES: usize = 4;

/// A view in a thread's hands, with what the thread's part of the probes found, where memory
/// sufficed.
#[derive(Drop)]
pub(crate) struct Lane<'s> {
    pub(crate) view: View<'s>,
    pub(crate) found: Option<PartFound>,
}

/// One view, or one for each of several threads.
#[derive(Drop)]
pub(crate) enum Held<'s> {
    One(View<'s>),
    Several(Vec<Lane<'s>>),
}

/// Views of one log, after which the probes of a query are made side by side. Contracts see them
/// as one view, since they are alike.
#[derive(Drop)]
pub struct LentViews<'s> {
    pub(crate) held: Held<'s>,
}

impl<'s> Model for LentViews<'s> {
    ghost use Rattle.entailment.specs.Views.{LogView};
    ghost use Rattle.entailment.specs.ViewCode.{view_code};

    ghost Value = { LogView };

    ghost coded = { view_code };

    ghost use Rattle.censors.specs.Lent.{held_views, held_view, AreTogether};

    ghost view = { λ lent. held_view lent.held };

    ghost invariant = { λ lent. AreTogether (held_views lent.held) };
}

impl<'s> LentViews<'s> {
    /// So many views of the whole log, at least one and at most four, to be put back. Where memory
    /// is wanting there are fewer.
    pub fn lend(
        alloc: Global,
        views: &mut Views<'s>,
        count: usize,
    ) -> Result<LentViews<'s>, AllocError>
        ensures same { views.new ≡ views.old }
        ensures schema { IfOk result (λ lent. schema_of lent ≡ schema_of views.old) }
        ensures log { IfOk result (λ lent. log_of lent ≡ log_of views.old) }
    {
        let held = lend_held(alloc, views, count)?;
        Ok(LentViews { held })
    }

    /// How many sentences the log has.
    pub fn len(&self) -> usize
        ensures { result ≡ length (log_of self.now) }
    {
        len_of(&self.held)
    }

    /// Gives the views back.
    pub fn put(self, views: &mut Views<'s>)
        requires { IsViewWithin (schema_of views.old) (log_of views.old) self }
        ensures { views.new ≡ views.old }
    {
        let LentViews { held } = self;
        put_held(held, views);
    }
}

/// Lends one view, or several.
fn lend_held<'s>(alloc: Global, views: &mut Views<'s>, count: usize) -> Result<Held<'s>, AllocError>
    ensures same { views.new ≡ views.old }
    ensures some { IfOk result (λ held. 0 < length (held_views held)) }
    ensures lent { IfOk result (λ held.
        All (IsViewOf (schema_of views.old) (log_of views.old)) (held_views held)) }
{
    if count < 2 {
        let view = views.lend(alloc)?;
        return Ok(Held::One(view));
    }
    let lanes = lend_lanes(alloc, views, count)?;
    Ok(Held::Several(lanes))
}

/// Lends a view for each of so many threads, or of fewer where memory is wanting.
fn lend_lanes<'s>(
    alloc: Global,
    views: &mut Views<'s>,
    count: usize,
) -> Result<Vec<Lane<'s>>, AllocError>
    ensures same { views.new ≡ views.old }
    ensures some { IfOk result (λ lanes. 0 < length lanes.items) }
    ensures lent { IfOk result (λ lanes.
        All (λ lane. IsViewOf (schema_of views.old) (log_of views.old) lane.view) lanes.items) }
{
    let view = views.lend(alloc)?;
    let mut lanes = Vec::new(alloc);
    lanes.push(Lane { view, found: None })?;
    lend_more(alloc, views, count.min(MOST_LANES), &mut lanes);
    Ok(lanes)
}

/// Lends further views, up to so many in all.
fn lend_more<'s>(alloc: Global, views: &mut Views<'s>, count: usize, lanes: &mut Vec<Lane<'s>>)
    requires { All (λ lane. IsViewOf (schema_of views.old) (log_of views.old) lane.view)
        lanes.old.items }
    ensures same { views.new ≡ views.old }
    ensures more { length lanes.old.items ≤ length lanes.new.items }
    ensures lent { All (λ lane. IsViewOf (schema_of views.old) (log_of views.old) lane.view)
        lanes.new.items }
{
    for _ in 1..count {
        lend_one(alloc, views, lanes);
    }
}

/// Lends one more view, where memory suffices.
fn lend_one<'s>(alloc: Global, views: &mut Views<'s>, lanes: &mut Vec<Lane<'s>>)
    requires { All (λ lane. IsViewOf (schema_of views.old) (log_of views.old) lane.view)
        lanes.old.items }
    ensures same { views.new ≡ views.old }
    ensures more { length lanes.old.items ≤ length lanes.new.items }
    ensures lent { All (λ lane. IsViewOf (schema_of views.old) (log_of views.old) lane.view)
        lanes.new.items }
{
    let Ok(view) = views.lend(alloc) else {
        return;
    };
    let _kept = lanes.push(Lane { view, found: None });
}

/// How many sentences the log of the first view has.
fn len_of(held: &Held<'_>) -> usize
    ensures { result ≡ length (log_of (held_view held.now)) }
{
    match held {
        Held::One(view) => view.len(),
        Held::Several(lanes) => first_len(lanes.as_slice()),
    }
}

/// How many sentences the log of the first of some lanes has.
fn first_len(lanes: &[Lane<'_>]) -> usize
    ensures { result ≡ length (log_of (first_view (map (λ lane. lane.view) lanes.now))) }
{
    let Some((first, _rest)) = lanes.split_first() else {
        return 0;
    };
    first.view.len()
}

/// Gives all views back.
fn put_held<'s>(held: Held<'s>, views: &mut Views<'s>)
    requires { All (IsViewWithin (schema_of views.old) (log_of views.old)) (held_views held) }
    ensures { views.new ≡ views.old }
{
    match held {
        Held::One(view) => views.put(view),
        Held::Several(lanes) => put_lanes(lanes, views),
    }
}

/// Gives the views of all lanes back, that of the first last, so that it is the next to be lent.
fn put_lanes<'s>(lanes: Vec<Lane<'s>>, views: &mut Views<'s>)
    requires { All (λ lane. IsViewWithin (schema_of views.old) (log_of views.old) lane.view)
        lanes.items }
    ensures { views.new ≡ views.old }
{
    let mut lanes = lanes;
    while let Some(lane) = lanes.pop() {
        views.put(lane.view);
    }
}
