// The fates of visits, which take no more room than their departures if all visits depart.
ghost use Rattle.std.specs.Prelude.{◌≡◌, ◌+◌, ◌++◌, ◌<◌, ◌≤◌, IfOk, OnErr, OnOk, Some, length, map, slice_get, take};
ghost use Rattle.mq_base.specs.Lists.{between};
ghost use Rattle.mq_core.specs.declared.model.Fate.TheVariants.{Departs};

use crate::model::Fate;
use mq_base::{List, OutOfMemory};
use std::alloc::Global;
use std::marker::Model;
use std::mem::replace;

// How fates are kept.
#[derive(Drop)]
enum Kept {
    // When each visit departs, in ticks; none is lost or held.
    Departures(List<u64>),
    // How each visit ends.
    Each(List<Fate>),
}

/// The fates of the visits to a node, by position. They take 8 bytes per visit if they were made from departures, otherwise
/// 16.
#[derive(Drop)]
pub struct Fates {
    kept: Kept,
}

impl Model for Fates {
    ghost use Rattle.std.specs.Prelude.{List};
    ghost use Rattle.mq_core.specs.declared.model.Fate.{Fate};

    ghost Value = { List Fate };

    ghost use Rattle.mq_core.specs.FateLists.{fates_kept};

    ghost view = { λ f. fates_kept f.kept };
}

impl Fates {
    /// Returns the fates of visits that depart at these times, in ticks; none is lost or held. Takes no memory.
    pub fn departures(times: List<u64>) -> Self
        ensures { result ≡ map (λ time. Departs time) times }
    {
        Fates {
            kept: Kept::Departures(times),
        }
    }

    /// Returns these fates. Takes no memory.
    pub fn each(fates: List<Fate>) -> Self
        ensures { result ≡ fates }
    {
        Fates {
            kept: Kept::Each(fates),
        }
    }

    /// Replaces all fates from the position `from` on, which is at most the number of visits, by departures at these times,
    /// in ticks. If memory runs out, the fates are unchanged.
    pub fn replace_from(
        &mut self,
        alloc: Global,
        from: usize,
        times: &[u64],
    ) -> Result<(), OutOfMemory>
        requires { from ≤ length self.old }
        ensures ok { OnOk result (self.new ≡ take from self.old ++ map (λ time. Departs time) times.now) }
        ensures err { OnErr result (self.new ≡ self.old) }
    {
        match &mut self.kept {
            Kept::Departures(kept) => kept.replace_from(from, times),
            Kept::Each(kept) => replace_each(alloc, kept, from, times),
        }
    }

    /// Replaces all fates from the position `from` on by departures at these times, in ticks, which are at most as many.
    /// Takes no memory.
    pub fn put_back(&mut self, alloc: Global, from: usize, times: &[u64])
        requires { from + length times.now ≤ length self.old }
        ensures { self.new ≡ take from self.old ++ map (λ time. Departs time) times.now }
    {
        match &mut self.kept {
            Kept::Departures(kept) => kept.put_back(from, times),
            Kept::Each(kept) => put_each(alloc, kept, from, times),
        }
    }

    /// Returns the number of visits.
    pub fn len(&self) -> usize
        ensures { result ≡ length self.now }
    {
        match &self.kept {
            Kept::Departures(times) => times.len(),
            Kept::Each(fates) => fates.len(),
        }
    }

    /// Returns the fate of the visit at a position, from 0 and below the number of visits.
    #[inline]
    pub fn at(&self, position: usize) -> Fate
        requires { position < length self.now }
        ensures { slice_get self.now position ≡ Some result }
    {
        match &self.kept {
            Kept::Departures(times) => Fate::Departs(*times.get(position)),
            Kept::Each(fates) => *fates.get(position),
        }
    }

    /// Returns the fates of all visits.
    pub fn as_slice(&self) -> FateSlice<'_>
        ensures { result ≡ self.now }
    {
        match &self.kept {
            Kept::Departures(times) => FateSlice {
                kept: KeptSlice::Departures(times.as_slice()),
            },
            Kept::Each(fates) => FateSlice {
                kept: KeptSlice::Each(fates.as_slice()),
            },
        }
    }

    /// Returns the fates of the visits from one position up to, and without, another.
    pub fn part(&self, from: usize, to: usize) -> FateSlice<'_>
        requires order { from ≤ to }
        requires within { to ≤ length self.now }
        ensures { result ≡ between from to self.now }
    {
        match &self.kept {
            Kept::Departures(times) => FateSlice {
                kept: KeptSlice::Departures(&times.as_slice()[from..to]),
            },
            Kept::Each(fates) => FateSlice {
                kept: KeptSlice::Each(&fates.as_slice()[from..to]),
            },
        }
    }
}

// Departures at these times, as fates.
fn departing(alloc: Global, times: &[u64]) -> Result<Vec<Fate>, OutOfMemory>
    ensures { IfOk result (λ fates. fates.items ≡ map (λ time. Departs time) times.now) }
{
    let mut fates = Vec::with_capacity(alloc, times.len())?;
    for time in times {
        fates.push_reserved(Fate::Departs(*time));
    }
    Ok(fates)
}

// Replaces all fates from a position on by departures at these times.
fn replace_each(
    alloc: Global,
    kept: &mut List<Fate>,
    from: usize,
    times: &[u64],
) -> Result<(), OutOfMemory>
    requires { from ≤ length kept.old }
    ensures ok { OnOk result (kept.new ≡ take from kept.old ++ map (λ time. Departs time) times.now) }
    ensures err { OnErr result (kept.new ≡ kept.old) }
{
    let fates = departing(alloc, times)?;
    kept.replace_from(from, fates.as_slice())
}

// Replaces all fates from a position on by departures at these times, which are at most as many. Takes no memory.
fn put_each(alloc: Global, kept: &mut List<Fate>, from: usize, times: &[u64])
    requires { from + length times.now ≤ length kept.old }
    ensures { kept.new ≡ take from kept.old ++ map (λ time. Departs time) times.now }
{
    let mut fates = replace(kept, List::new(alloc)).into_vec();
    fates.truncate(from + times.len());
    for at in 0..times.len() {
        fates[from + at] = Fate::Departs(times[at]);
    }
    drop(replace(kept, List::from_vec(fates)));
}

// How neighbouring fates are kept.
#[derive(Drop)]
enum KeptSlice<'a> {
    // When each visit departs, in ticks; none is lost or held.
    Departures(&'a [u64]),
    // How each visit ends.
    Each(&'a [Fate]),
}

/// The fates of neighbouring visits, by position: a part of `Fates`.
#[derive(Drop)]
pub struct FateSlice<'a> {
    kept: KeptSlice<'a>,
}

impl<'a> Model for FateSlice<'a> {
    ghost use Rattle.std.specs.Prelude.{List};
    ghost use Rattle.mq_core.specs.declared.model.Fate.{Fate};

    ghost Value = { List Fate };

    ghost use Rattle.mq_core.specs.FateLists.{fates_in};

    ghost view = { λ f. fates_in f.kept };
}

impl<'a> FateSlice<'a> {
    /// Returns the fates of neighbouring visits that depart at these times, in ticks; none is lost or held.
    pub fn departures(times: &'a [u64]) -> Self
        ensures { result ≡ map (λ time. Departs time) times.now }
    {
        FateSlice {
            kept: KeptSlice::Departures(times),
        }
    }

    /// Returns the fate of the visit at an index, from 0 and below the number of visits.
    // Each slice is bound again because the check knows only of a variable that its slice fits in memory.
    #[inline]
    pub fn at(&self, index: usize) -> Fate
        requires { index < length self.now }
        ensures { slice_get self.now index ≡ Some result }
    {
        match &self.kept {
            KeptSlice::Departures(times) => {
                let times: &[u64] = times;
                Fate::Departs(times[index])
            }
            KeptSlice::Each(fates) => {
                let fates: &[Fate] = fates;
                fates[index]
            }
        }
    }
}
