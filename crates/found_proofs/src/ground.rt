//! Which candidates a proof uses: of each goal those because of which it holds, of these again those because of which they are kept, and so
//! on.
//!
//! The lemmas that an answer of the search names are a core of those that it may use: it asks for a lemma only where a state breaks it, the
//! first by number. So candidates go into the search by rising cost, and a proof mostly uses cheap ones.

use crate::candidates::{Candidate, Origin};
use crate::claims::Claim;
use crate::steps::joint_claim;
use crate::subject::Subject;
use control_cubes::{CubeFault, negation};
use invariant_search::{Allowed, Answer, Entry, Search};
use st_form::{Form, SharedForm};
use st_memory::Memory;
use std::alloc::Global;
use transition_system::Fts;
use waiting_search::Levels;

/// How a goal holds: whether it follows from lemmas in each state, or is kept by each step with them; and the lemmas.
#[derive(Drop)]
pub(crate) struct Shown {
    pub(crate) by_true: bool,
    pub(crate) uses: Vec<usize>,
}

/// What a proof uses, by the numbers of candidates.
#[derive(Drop)]
pub(crate) struct Needs {
    pub(crate) goals: Vec<Shown>,
    /// Of each candidate those that it uses itself, if the proof uses it.
    pub(crate) uses: Vec<Option<Vec<usize>>>,
}

/// Candidates, and a search that has each of them for a lemma, by the number at the same place.
#[derive(Drop)]
pub(crate) struct Ground<'a> {
    pub(crate) search: Search<'a>,
    pub(crate) candidates: Vec<Candidate>,
    pub(crate) numbers: Vec<u32>,
    pub(crate) system: &'a Fts,
    /// Of each part of a chain the lemmas because of which it was kept when that was asked last.
    pub(crate) cores: Vec<Option<Vec<u32>>>,
}

/// The numbers at the places that lemmas with these numbers have.
pub(crate) fn places_of(
    alloc: Global,
    numbers: &[u32],
    lemmas: &[u32],
) -> Result<Vec<usize>, Memory> {
    let mut places = Vec::with_capacity(alloc, lemmas.len())?;
    for lemma in lemmas {
        if let Some(place) = numbers.iter().position(|number| number == lemma) {
            places.push(place)?;
        }
    }
    Ok(places)
}

/// The lemmas because of which no step enters.
fn blocking(entry: Entry) -> Option<Vec<u32>> {
    match entry {
        Entry::Blocked(lemmas) => Some(lemmas),
        Entry::Before(_, _) | Entry::Unknown(_) => None,
    }
}

/// Whether something is kept without lemmas.
fn is_kept_alone(lemmas: Option<&Vec<u32>>) -> bool {
    match lemmas {
        Some(lemmas) => lemmas.is_empty(),
        None => false,
    }
}

/// How a goal is shown that follows from lemmas, or else is kept with some.
fn shown_by(
    alloc: Global,
    numbers: &[u32],
    implied: Option<Vec<u32>>,
    kept: Option<Vec<u32>>,
) -> Result<Option<Shown>, Memory> {
    if let Some(lemmas) = implied {
        return Ok(Some(Shown {
            by_true: true,
            uses: places_of(alloc, numbers, &lemmas)?,
        }));
    }
    match kept {
        Some(lemmas) => Ok(Some(Shown {
            by_true: false,
            uses: places_of(alloc, numbers, &lemmas)?,
        })),
        None => Ok(None),
    }
}

/// Whether all places are marked.
fn are_marked(places: &[usize], marks: &[bool]) -> bool {
    places.iter().all(|place| marks.get(*place) == Some(&true))
}

/// What was shown before, if it uses nothing but what is allowed.
fn still_shown(
    alloc: Global,
    shown: Option<&Shown>,
    allowed: &[bool],
) -> Result<Option<Shown>, Memory> {
    match shown {
        Some(shown) if are_marked(&shown.uses, allowed) => Ok(Some(Shown {
            by_true: shown.by_true,
            uses: Vec::from_slice(alloc, &shown.uses)?,
        })),
        _ => Ok(None),
    }
}

/// What a candidate used before, if nothing but what is allowed.
fn still_used(
    alloc: Global,
    before: Option<&Needs>,
    candidate: usize,
    allowed: &[bool],
) -> Result<Option<Vec<usize>>, Memory> {
    let Some(needs) = before else {
        return Ok(None);
    };
    match needs.uses.get(candidate) {
        Some(Some(uses)) if are_marked(uses, allowed) => Ok(Some(Vec::from_slice(alloc, uses)?)),
        _ => Ok(None),
    }
}

/// Puts what is used on the list of work, if it isn't marked already, and marks it.
fn push_work(uses: &[usize], marks: &mut [bool], work: &mut Vec<usize>) -> Result<(), Memory> {
    for used in uses {
        if let Some(mark) = marks.get_mut(*used)
            && !*mark
        {
            *mark = true;
            work.push(*used)?;
        }
    }
    Ok(())
}

/// Gives candidates to a search as lemmas that hold always, and their numbers.
fn give_all(
    alloc: Global,
    search: &mut Search<'_>,
    candidates: &[Candidate],
) -> Result<Vec<u32>, CubeFault> {
    let mut numbers = Vec::with_capacity(alloc, candidates.len())?;
    for candidate in candidates {
        numbers.push(search.give(alloc, candidate.form.copy(alloc)?)?)?;
    }
    Ok(numbers)
}

/// What is used by what was followed so far, and what is to be followed.
#[derive(Drop)]
struct Walk {
    marks: Vec<bool>,
    work: Vec<usize>,
    uses: Vec<Option<Vec<usize>>>,
}

impl Walk {
    /// The walk among so many candidates that begins with what goals use.
    fn new(alloc: Global, count: usize, goals: &[Shown]) -> Result<Walk, Memory> {
        let mut walk = Walk {
            marks: vec![in alloc; false; count]?,
            work: Vec::new(alloc),
            uses: Vec::new(alloc),
        };
        walk.begin(count, goals)?;
        Ok(walk)
    }

    fn begin(&mut self, count: usize, goals: &[Shown]) -> Result<(), Memory> {
        for shown in goals {
            push_work(&shown.uses, &mut self.marks, &mut self.work)?;
        }
        for _ in 0..count {
            self.uses.push(None)?;
        }
        Ok(())
    }

    /// Takes what a candidate uses.
    fn take(&mut self, place: usize, used: Vec<usize>) -> Result<(), Memory> {
        push_work(&used, &mut self.marks, &mut self.work)?;
        if let Some(slot) = self.uses.get_mut(place) {
            *slot = Some(used);
        }
        Ok(())
    }
}

impl<'a> Ground<'a> {
    /// Gives the candidates to a search as lemmas that hold always, in their order.
    pub(crate) fn new(
        alloc: Global,
        subject: &'a Subject,
        candidates: Vec<Candidate>,
        budget: u64,
    ) -> Result<Ground<'a>, CubeFault> {
        let mut search = subject.search(alloc, budget)?;
        let numbers = give_all(alloc, &mut search, &candidates)?;
        Ok(Ground {
            search,
            candidates,
            numbers,
            system: &subject.system,
            cores: Vec::new(alloc),
        })
    }

    /// The marks of the search's lemmas at the numbers of candidates that are marked, but one.
    pub(crate) fn marks(
        &self,
        alloc: Global,
        allowed: &[bool],
        but: Option<usize>,
    ) -> Result<Vec<bool>, Memory> {
        let mut marks = vec![in alloc; false; self.search.lemmas().len()]?;
        for (place, number) in self.numbers.iter().enumerate() {
            if allowed.get(place) == Some(&true)
                && but != Some(place)
                && let Some(mark) = marks.get_mut(*number as usize)
            {
                *mark = true;
            }
        }
        Ok(marks)
    }

    /// Because of which lemmas no state breaks the goal.
    fn implied_by(
        &mut self,
        alloc: Global,
        goal: &Form,
        marks: &[bool],
    ) -> Result<Option<Vec<u32>>, CubeFault> {
        let broken = SharedForm::new(alloc, negation(alloc, goal.copy(alloc)?)?, 0)?;
        match self
            .search
            .solve(alloc, vec![in alloc; broken]?, Allowed::Among(marks))?
        {
            Answer::Never(lemmas) => Ok(Some(lemmas)),
            Answer::State(_) | Answer::Unknown(_) => Ok(None),
        }
    }

    /// Which of the candidates that are allowed the levels of a waiting-for use.
    fn show_levels(
        &mut self,
        alloc: Global,
        levels: &Levels,
        allowed: &[bool],
    ) -> Result<Option<Shown>, CubeFault> {
        let marks = self.marks(alloc, allowed, None)?;
        match levels.kept_by(alloc, &mut self.search, Allowed::Among(&marks))? {
            Some(lemmas) => Ok(Some(Shown {
                by_true: false,
                uses: places_of(alloc, &self.numbers, &lemmas)?,
            })),
            None => Ok(None),
        }
    }

    /// How a claim holds with the candidates that are allowed.
    fn show(
        &mut self,
        alloc: Global,
        claim: &Claim,
        allowed: &[bool],
    ) -> Result<Option<Shown>, CubeFault> {
        match claim {
            Claim::Invariance(form) => self.show_invariance(alloc, form, allowed),
            Claim::Response(chain) => self.show_chain(alloc, chain, allowed),
            Claim::Waiting(levels) => self.show_levels(alloc, levels, allowed),
        }
    }

    /// How an invariance holds with them: by itself, else as what follows from them, else as what is kept.
    fn show_invariance(
        &mut self,
        alloc: Global,
        goal: &Form,
        allowed: &[bool],
    ) -> Result<Option<Shown>, CubeFault> {
        let marks = self.marks(alloc, allowed, None)?;
        let kept = blocking(
            self.search
                .form_kept_by(alloc, goal, Allowed::Among(&marks))?,
        );
        if is_kept_alone(kept.as_ref()) {
            return Ok(Some(Shown {
                by_true: false,
                uses: Vec::new(alloc),
            }));
        }
        let implied = self.implied_by(alloc, goal, &marks)?;
        Ok(shown_by(alloc, &self.numbers, implied, kept)?)
    }

    /// The lemmas because of which a candidate is kept.
    fn kept_by(
        &mut self,
        alloc: Global,
        place: usize,
        marks: &[bool],
    ) -> Result<Option<Vec<u32>>, CubeFault> {
        let Some(candidate) = self.candidates.get(place) else {
            return Ok(None);
        };
        let allowed = Allowed::Among(marks);
        let entry = match &candidate.cube {
            Some(cube) => self.search.cube_kept_by(alloc, cube, allowed)?,
            None => self.search.form_kept_by(alloc, &candidate.form, allowed)?,
        };
        Ok(blocking(entry))
    }

    /// Whether a candidate stands in an earlier step.
    fn is_known(&self, place: usize) -> bool {
        match self.candidates.get(place) {
            Some(candidate) => candidate.origin != Origin::Found,
            None => false,
        }
    }

    /// Which of the candidates that are allowed a candidate uses; an earlier step uses none.
    fn used_by(
        &mut self,
        alloc: Global,
        place: usize,
        allowed: &[bool],
    ) -> Result<Option<Vec<usize>>, CubeFault> {
        if self.is_known(place) {
            return Ok(Some(Vec::new(alloc)));
        }
        let marks = self.marks(alloc, allowed, Some(place))?;
        match self.kept_by(alloc, place, &marks)? {
            Some(lemmas) => Ok(Some(places_of(alloc, &self.numbers, &lemmas)?)),
            None => Ok(None),
        }
    }

    /// The same, where what was known before isn't asked again.
    fn uses(
        &mut self,
        alloc: Global,
        place: usize,
        allowed: &[bool],
        before: Option<&Needs>,
    ) -> Result<Option<Vec<usize>>, CubeFault> {
        match still_used(alloc, before, place, allowed)? {
            Some(used) => Ok(Some(used)),
            None => self.used_by(alloc, place, allowed),
        }
    }

    /// How the claim with a number holds, where what was known before isn't asked again.
    fn shown(
        &mut self,
        alloc: Global,
        number: usize,
        claim: &Claim,
        allowed: &[bool],
        before: Option<&Needs>,
    ) -> Result<Option<Shown>, CubeFault> {
        let known = before.and_then(|needs| needs.goals.get(number));
        match still_shown(alloc, known, allowed)? {
            Some(shown) => Ok(Some(shown)),
            None => self.show(alloc, claim, allowed),
        }
    }

    /// How each goal holds.
    fn show_all(
        &mut self,
        alloc: Global,
        claims: &[Claim],
        allowed: &[bool],
        before: Option<&Needs>,
    ) -> Result<Option<Vec<Shown>>, CubeFault> {
        let mut out = Vec::with_capacity(alloc, claims.len())?;
        for (number, claim) in claims.iter().enumerate() {
            match self.shown(alloc, number, claim, allowed, before)? {
                Some(shown) => out.push(shown)?,
                None => return Ok(None),
            }
        }
        Ok(Some(out))
    }

    /// Follows what the next candidate uses; whether that is known.
    fn follow(
        &mut self,
        alloc: Global,
        walk: &mut Walk,
        allowed: &[bool],
        before: Option<&Needs>,
    ) -> Result<bool, CubeFault> {
        let Some(place) = walk.work.pop() else {
            return Ok(true);
        };
        match self.uses(alloc, place, allowed, before)? {
            Some(used) => {
                walk.take(place, used)?;
                Ok(true)
            }
            None => Ok(false),
        }
    }

    /// Follows what is used to its end; whether all of it is known. Each round follows a candidate that wasn't followed.
    fn follow_all(
        &mut self,
        alloc: Global,
        walk: &mut Walk,
        allowed: &[bool],
        before: Option<&Needs>,
    ) -> Result<bool, CubeFault> {
        for _ in 0..self.candidates.len() {
            if !self.follow(alloc, walk, allowed, before)? {
                return Ok(false);
            }
        }
        Ok(true)
    }

    /// What a proof of the claims uses of the candidates that are allowed; `None` where it isn't known that they suffice. What `before`
    /// says of fewer candidates isn't asked again.
    pub(crate) fn needs(
        &mut self,
        alloc: Global,
        claims: &[Claim],
        allowed: &[bool],
        before: Option<&Needs>,
    ) -> Result<Option<Needs>, CubeFault> {
        let Some(goals) = self.show_all(alloc, claims, allowed, before)? else {
            return Ok(None);
        };
        let mut walk = Walk::new(alloc, self.candidates.len(), &goals)?;
        if !self.follow_all(alloc, &mut walk, allowed, before)? {
            return Ok(None);
        }
        Ok(Some(Needs {
            goals,
            uses: walk.uses,
        }))
    }

    /// Whether the candidates at some places are kept together, with those that they use.
    pub(crate) fn keeps_together(
        &mut self,
        alloc: Global,
        places: &[usize],
        uses: &[usize],
    ) -> Result<bool, CubeFault> {
        let mut allowed = vec![in alloc; false; self.candidates.len()]?;
        for used in uses {
            if let Some(mark) = allowed.get_mut(*used) {
                *mark = true;
            }
        }
        let marks = self.marks(alloc, &allowed, None)?;
        let form = joint_claim(alloc, &self.candidates, places)?;
        let entry = self
            .search
            .form_kept_by(alloc, &form, Allowed::Among(&marks))?;
        Ok(matches!(entry, Entry::Blocked(_)))
    }

    /// Gives back how many questions might still be asked. From then on none is.
    pub(crate) fn give_back(&mut self) -> u64 {
        self.search.give_back()
    }
}
