//! Which candidates a chain uses, part by part. When a candidate is left out, only the parts that used it are asked about again.

use crate::ground::{Ground, Shown, places_of};
use control_cubes::CubeFault;
use invariant_search::Allowed;
use response_search::Chain;
use std::alloc::Global;

/// Whether all lemmas with these numbers are marked.
fn are_lemmas_marked(lemmas: &[u32], marks: &[bool]) -> bool {
    lemmas
        .iter()
        .all(|number| marks.get(*number as usize) == Some(&true))
}

impl Ground<'_> {
    /// The lemmas because of which a part of a chain is kept, if it is. Where those of the last time may be used it isn't asked again.
    fn part_kept_by(
        &mut self,
        alloc: Global,
        chain: &Chain,
        part: usize,
        marks: &[bool],
    ) -> Result<Option<Vec<u32>>, CubeFault> {
        if let Some(Some(core)) = self.cores.get(part)
            && are_lemmas_marked(core, marks)
        {
            return Ok(Some(Vec::from_slice(alloc, core)?));
        }
        let allowed = Allowed::Among(marks);
        let kept = chain.part_kept_by(alloc, &mut self.search, self.system, part, allowed)?;
        if let Some(lemmas) = &kept
            && let Some(core) = self.cores.get_mut(part)
        {
            *core = Some(Vec::from_slice(alloc, lemmas)?);
        }
        Ok(kept)
    }

    /// Which of the candidates that are allowed a chain uses.
    pub(crate) fn show_chain(
        &mut self,
        alloc: Global,
        chain: &Chain,
        allowed: &[bool],
    ) -> Result<Option<Shown>, CubeFault> {
        let marks = self.marks(alloc, allowed, None)?;
        for _ in self.cores.len()..chain.parts() {
            self.cores.push(None)?;
        }
        let mut used = Vec::new(alloc);
        for part in 0..chain.parts() {
            match self.part_kept_by(alloc, chain, part, &marks)? {
                Some(mut lemmas) => used.append(&mut lemmas)?,
                None => return Ok(None),
            }
        }
        used.sort()?;
        used.dedup();
        Ok(Some(Shown {
            by_true: false,
            uses: places_of(alloc, &self.numbers, &used)?,
        }))
    }
}
