//! Loops over counters: items whose steps lead round, with ranks that fall.
//!
//! Items are the just transitions of those that wait, each at its own locations, as far as all steps lead to the goal or to items again.
//! Where a measure falls on each way round, a rank is the measure as often as the longest way without a fall takes, and how far that way
//! still is. The least multiple that serves is taken, and of all ranks as much is taken away as leaves them at least 0.

use crate::bases::{Base, Setting, Wait, own_bases};
use crate::chain::{Chain, ChainItem, nearer};
use crate::edges::{Edge, depths, edges, mark_reached, may_be};
use crate::items::{Around, Denied, Trial, item_astray};
use crate::measures::{Web, candidates};
use crate::ranks::{Ranked, Ranks, raised};
use control_cubes::CubeFault;
use invariant_search::{ALWAYS, Allowed, Search};
use st_form::{Lin, SharedForm, Variable};
use st_memory::Memory;
use std::alloc::Global;

/// The most that is taken away from all ranks.
const MOST: u32 = 64;

/// Bases as items.
fn items_of(
    alloc: Global,
    search: &Search<'_>,
    bases: Vec<Base>,
) -> Result<Vec<ChainItem>, CubeFault> {
    let mut out = Vec::new(alloc);
    for base in bases {
        let helper = base.helper;
        let said = base.said;
        let trial = Trial::new(alloc, search, said.form, helper, None)?;
        out.push(ChainItem {
            base: said.text,
            cases: Vec::new(alloc),
            trial,
        })?;
    }
    Ok(out)
}

/// The number of the first item from which some step leads neither to the goal nor to an item.
fn first_astray(
    alloc: Global,
    search: &mut Search<'_>,
    setting: Setting<'_>,
    goal: &Denied,
    items: &[ChainItem],
) -> Result<Option<usize>, CubeFault> {
    let all = nearer(alloc, items, items.len())?;
    let around = Around {
        goal,
        nearer: &all,
        group: &[],
    };
    let mut used = Vec::new(alloc);
    for (number, item) in items.iter().enumerate() {
        let allowed = Allowed::From(ALWAYS);
        let system = setting.system;
        let found = item_astray(
            alloc,
            search,
            system,
            &item.trial,
            around,
            allowed,
            &mut used,
        )?;
        if found.is_some() {
            return Ok(Some(number));
        }
    }
    Ok(None)
}

/// Leaves items out until all steps from the others lead to the goal or to one of them.
fn close(
    alloc: Global,
    search: &mut Search<'_>,
    setting: Setting<'_>,
    goal: &Denied,
    items: &mut Vec<ChainItem>,
) -> Result<(), CubeFault> {
    for _ in 0..items.len() {
        match first_astray(alloc, search, setting, goal, items)? {
            Some(number) if number < items.len() => {
                items.remove(number);
            }
            _ => break,
        }
    }
    Ok(())
}

/// At which items the wait begins.
fn beginnings(
    alloc: Global,
    search: &mut Search<'_>,
    start: &SharedForm,
    goal: &Denied,
    items: &[ChainItem],
) -> Result<Vec<bool>, CubeFault> {
    let mut out = Vec::with_capacity(alloc, items.len())?;
    for item in items {
        let mut forms = Vec::new(alloc);
        forms.push(start.share()?)?;
        forms.push(goal.here.share()?)?;
        forms.push(item.trial.form.share()?)?;
        out.push(may_be(alloc, search, forms)?)?;
    }
    Ok(out)
}

/// The items that are marked.
fn marked(alloc: Global, items: Vec<ChainItem>, marks: &[bool]) -> Result<Vec<ChainItem>, Memory> {
    let mut out = Vec::new(alloc);
    for (number, item) in items.into_iter().enumerate() {
        if marks.get(number) == Some(&true) {
            out.push(item)?;
        }
    }
    Ok(out)
}

/// All measures among candidates.
fn measures(
    alloc: Global,
    search: &mut Search<'_>,
    web: Web<'_>,
    candidates: &[Lin],
) -> Result<Vec<Lin>, CubeFault> {
    let mut out = Vec::new(alloc);
    for form in candidates {
        web.push_measure(alloc, search, form, &mut out)?;
    }
    Ok(out)
}

/// A measure, and how far each item is from its next fall.
#[derive(Drop)]
struct Falling {
    measure: Lin,
    depths: Vec<usize>,
}

/// Appends a measure, if it falls on each way round.
fn push_falling(
    alloc: Global,
    search: &mut Search<'_>,
    web: Web<'_>,
    measure: &Lin,
    out: &mut Vec<Falling>,
) -> Result<(), CubeFault> {
    let level = web.level_edges(alloc, search, web.edges, measure)?;
    if let Some(depths) = depths(alloc, &level, web.items.len())? {
        out.push(Falling {
            measure: measure.copy(alloc)?,
            depths,
        })?;
    }
    Ok(())
}

/// The sum of all measures; 0 where there is none.
fn sum_of(alloc: Global, measures: &[Lin]) -> Result<Lin, CubeFault> {
    let mut sum = Lin::constant_of(alloc, 0)?;
    for measure in measures {
        sum = sum.add(alloc, measure)?;
    }
    Ok(sum)
}

/// The first measure that falls on each way round, else the sum of all, if it does.
fn first_falling(
    alloc: Global,
    search: &mut Search<'_>,
    web: Web<'_>,
    measures: &[Lin],
) -> Result<Vec<Falling>, CubeFault> {
    let mut out = Vec::new(alloc);
    for measure in measures {
        if out.is_empty() {
            push_falling(alloc, search, web, measure, &mut out)?;
        }
    }
    if out.is_empty() {
        let sum = sum_of(alloc, measures)?;
        push_falling(alloc, search, web, &sum, &mut out)?;
    }
    Ok(out)
}

/// The ranks by so much of a measure, less a number.
fn ranks_of(
    alloc: Global,
    falling: &Falling,
    times: i128,
    less: i128,
) -> Result<Vec<Lin>, CubeFault> {
    let form = raised(
        alloc,
        &falling.measure.scale(alloc, times)?,
        less.saturating_neg(),
    )?;
    let mut out = Vec::with_capacity(alloc, falling.depths.len())?;
    for depth in &falling.depths {
        let depth = i128::try_from(*depth).unwrap_or(i128::MAX);
        out.push(raised(alloc, &form, depth)?)?;
    }
    Ok(out)
}

/// Whether all items meet their conditions with these ranks.
fn serves(
    alloc: Global,
    search: &mut Search<'_>,
    setting: Setting<'_>,
    web: Web<'_>,
    ranks: &[Lin],
) -> Result<bool, CubeFault> {
    let ranked = Ranked {
        goal: web.goal,
        items: web.items,
        ranks,
    };
    let mut used = Vec::new(alloc);
    ranked.are_kept(
        alloc,
        search,
        setting.system,
        Allowed::From(ALWAYS),
        &mut used,
    )
}

/// The greatest depth.
fn deepest(depths: &[usize]) -> usize {
    let mut out = 0;
    for depth in depths {
        if *depth > out {
            out = *depth;
        }
    }
    out
}

/// The least multiple of a measure by which ranks serve.
fn least_times(
    alloc: Global,
    search: &mut Search<'_>,
    setting: Setting<'_>,
    web: Web<'_>,
    falling: &Falling,
) -> Result<Option<i128>, CubeFault> {
    for times in 0..=deepest(&falling.depths) {
        let times = i128::try_from(times).unwrap_or(0).saturating_add(1);
        let ranks = ranks_of(alloc, falling, times, 0)?;
        if serves(alloc, search, setting, web, &ranks)? {
            return Ok(Some(times));
        }
    }
    Ok(None)
}

/// How much can be taken away from all ranks.
fn superfluous(
    alloc: Global,
    search: &mut Search<'_>,
    web: Web<'_>,
    falling: &Falling,
    times: i128,
) -> Result<i128, CubeFault> {
    let mut out = 0;
    for number in 1..MOST {
        let less = i128::from(number);
        let ranks = ranks_of(alloc, falling, times, less)?;
        if !are_bounded(alloc, search, web, &ranks)? {
            break;
        }
        out = less;
    }
    Ok(out)
}

/// Whether each rank is at least 0 at its item.
fn are_bounded(
    alloc: Global,
    search: &mut Search<'_>,
    web: Web<'_>,
    ranks: &[Lin],
) -> Result<bool, CubeFault> {
    let mut used = Vec::new(alloc);
    for (item, rank) in web.items.iter().zip(ranks) {
        let allowed = Allowed::From(ALWAYS);
        if !crate::ranks::is_bounded(alloc, search, &item.trial, rank, allowed, &mut used)? {
            return Ok(false);
        }
    }
    Ok(true)
}

/// A number more than the depths of all items that are marked.
fn rounds_from(depths: &[usize], marks: &[bool]) -> i128 {
    let mut out = 0;
    for (depth, mark) in depths.iter().zip(marks) {
        let rounds = i128::try_from(*depth)
            .unwrap_or(i128::MAX)
            .saturating_add(1);
        if *mark && rounds > out {
            out = rounds;
        }
    }
    out
}

/// The ranks of a measure that falls, and the bound, for waits that begin at the items that are marked.
fn ranks_by(
    alloc: Global,
    search: &mut Search<'_>,
    setting: Setting<'_>,
    web: Web<'_>,
    falling: &Falling,
    marks: &[bool],
) -> Result<Option<Ranks>, CubeFault> {
    let Some(times) = least_times(alloc, search, setting, web, falling)? else {
        return Ok(None);
    };
    let less = superfluous(alloc, search, web, falling, times)?;
    let rounds = rounds_from(&falling.depths, marks).saturating_sub(less);
    let form = falling.measure.scale(alloc, times)?;
    Ok(Some(Ranks {
        of_items: ranks_of(alloc, falling, times, less)?,
        bound: raised(alloc, &form, rounds)?,
    }))
}

/// The ranks of items, if there are some.
fn ranks_for(
    alloc: Global,
    search: &mut Search<'_>,
    setting: Setting<'_>,
    variables: &[Variable],
    web: Web<'_>,
    marks: &[bool],
) -> Result<Option<Ranks>, CubeFault> {
    let candidates = candidates(alloc, search, variables)?;
    let measures = measures(alloc, search, web, &candidates)?;
    let falling = first_falling(alloc, search, web, &measures)?;
    match falling.first() {
        Some(falling) => ranks_by(alloc, search, setting, web, falling, marks),
        None => Ok(None),
    }
}

/// The items from which all steps lead to the goal or to items again, as far as a wait comes to them.
fn looping_items(
    alloc: Global,
    search: &mut Search<'_>,
    setting: Setting<'_>,
    wait: &Wait,
    start: &SharedForm,
    goal: &Denied,
) -> Result<Vec<ChainItem>, CubeFault> {
    let bases = own_bases(alloc, setting, search, wait)?;
    let mut items = items_of(alloc, search, bases)?;
    close(alloc, search, setting, goal, &mut items)?;
    let edges: Vec<Edge> = edges(alloc, search, goal, &items)?;
    let mut marks = beginnings(alloc, search, start, goal, &items)?;
    mark_reached(&edges, &mut marks);
    Ok(marked(alloc, items, &marks)?)
}

/// Gives a chain without items those of a loop with their ranks, if there is one at which each wait begins.
pub(crate) fn take_loop(
    alloc: Global,
    search: &mut Search<'_>,
    setting: Setting<'_>,
    variables: &[Variable],
    wait: &Wait,
    chain: &mut Chain,
) -> Result<bool, CubeFault> {
    let goal = &chain.goal;
    let items = looping_items(alloc, search, setting, wait, &chain.start, goal)?;
    let edges: Vec<Edge> = edges(alloc, search, goal, &items)?;
    let marks = beginnings(alloc, search, &chain.start, goal, &items)?;
    let web = Web {
        goal,
        items: &items,
        edges: &edges,
    };
    let ranks = ranks_for(alloc, search, setting, variables, web, &marks)?;
    if ranks.is_none() {
        return Ok(false);
    }
    chain.items = items;
    chain.ranks = ranks;
    let kept = chain.kept_by(alloc, search, setting.system, Allowed::From(ALWAYS))?;
    Ok(kept.is_some())
}
