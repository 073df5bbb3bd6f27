//! The larger cubes that generalization tries, in order: rows over more than two variables left out, components freed, other rows left
//! out, boolean variables left out, rows weakened to constants that the program speaks of, and places added.

use crate::pool::{Pool, with_constant};
use crate::prover::narrowed;
use control_cubes::{Cube, CubeFault, Layout, PlaceSet};
use st_linear::Lin;
use st_memory::Memory;
use std::alloc::Global;
use std::cmp::Reverse;
use std::collections::VecDeque;

/// One way to make a cube larger.
#[derive(Drop)]
enum Enlargement {
    /// The row is left out.
    Row(Lin),
    /// The component may be anywhere.
    Component(usize),
    /// The boolean variable may have either value.
    Truth(u32),
    /// The row has this constant.
    Constant(Lin, i128),
    /// The component may be at this place too.
    Place(usize, u8),
}

/// The parts of a plan, in order.
#[derive(Clone, Copy)]
enum Stage {
    LongRows,
    Components,
    ShortRows,
    Truths,
    Constants,
    Places,
    Done,
}

/// The enlargements that are to be tried: those of one stage, made from the cube as it was at the stage's beginning, and then those of
/// the next.
#[derive(Drop)]
pub(crate) struct Plan {
    stage: Stage,
    waiting: VecDeque<Enlargement>,
}

fn stage_behind(stage: Stage) -> Stage {
    match stage {
        Stage::LongRows => Stage::Components,
        Stage::Components => Stage::ShortRows,
        Stage::ShortRows => Stage::Truths,
        Stage::Truths => Stage::Constants,
        Stage::Constants => Stage::Places,
        Stage::Places | Stage::Done => Stage::Done,
    }
}

/// The rows over more than two variables, or the others.
fn rows_of_length(alloc: Global, cube: &Cube, long: bool) -> Result<Vec<Lin>, Memory> {
    let mut rows = Vec::new(alloc);
    for row in &cube.rows {
        if (row.entries().len() > 2) == long {
            rows.push(row.copy(alloc)?)?;
        }
    }
    Ok(rows)
}

/// The rows over more than two variables, or the others, in the order in which they are left out: those over more variables first, then
/// those that the program doesn't speak of, then those with larger constants.
fn ranked_rows(alloc: Global, pool: &Pool, cube: &Cube, long: bool) -> Result<Vec<Lin>, Memory> {
    let mut rows = rows_of_length(alloc, cube, long)?;
    rows.sort_by_key(|row| {
        (
            Reverse(row.entries().len()),
            pool.knows(row),
            Reverse(row.constant().unsigned_abs()),
        )
    })?;
    Ok(rows)
}

impl Plan {
    pub(crate) fn new(alloc: Global, pool: &Pool, cube: &Cube) -> Result<Plan, CubeFault> {
        let mut plan = Plan {
            stage: Stage::LongRows,
            waiting: VecDeque::new(alloc),
        };
        plan.push_rows(alloc, pool, cube, true)?;
        Ok(plan)
    }

    fn push_rows(
        &mut self,
        alloc: Global,
        pool: &Pool,
        cube: &Cube,
        long: bool,
    ) -> Result<(), CubeFault> {
        for row in ranked_rows(alloc, pool, cube, long)? {
            self.waiting.push_back(Enlargement::Row(row))?;
        }
        Ok(())
    }

    fn push_components(&mut self, layout: &Layout, cube: &Cube) -> Result<(), CubeFault> {
        for (component, set) in cube.places.iter().enumerate() {
            if *set != layout.full_of(component) {
                self.waiting.push_back(Enlargement::Component(component))?;
            }
        }
        Ok(())
    }

    fn push_truths(&mut self, cube: &Cube) -> Result<(), CubeFault> {
        for (variable, _) in &cube.truths {
            self.waiting.push_back(Enlargement::Truth(*variable))?;
        }
        Ok(())
    }

    /// Lets constants of a row be tried.
    fn push_constants_of(
        &mut self,
        alloc: Global,
        row: &Lin,
        constants: &[i128],
    ) -> Result<(), Memory> {
        for constant in constants {
            let weaker = Enlargement::Constant(row.copy(alloc)?, *constant);
            self.waiting.push_back(weaker)?;
        }
        Ok(())
    }

    fn push_constants(&mut self, alloc: Global, pool: &Pool, cube: &Cube) -> Result<(), CubeFault> {
        for row in &cube.rows {
            let constants = pool.weaker_constants(alloc, row)?;
            self.push_constants_of(alloc, row, &constants)?;
        }
        Ok(())
    }

    fn push_places(&mut self, layout: &Layout, cube: &Cube) -> Result<(), CubeFault> {
        for (component, set) in cube.places.iter().enumerate() {
            let others = layout.full_of(component).difference(*set);
            for number in 0..128u8 {
                if others.has(number) {
                    self.waiting
                        .push_back(Enlargement::Place(component, number))?;
                }
            }
        }
        Ok(())
    }

    /// Goes on to the next stage.
    fn advance(
        &mut self,
        alloc: Global,
        layout: &Layout,
        pool: &Pool,
        cube: &Cube,
    ) -> Result<(), CubeFault> {
        self.stage = stage_behind(self.stage);
        match self.stage {
            Stage::LongRows => self.push_rows(alloc, pool, cube, true),
            Stage::Components => self.push_components(layout, cube),
            Stage::ShortRows => self.push_rows(alloc, pool, cube, false),
            Stage::Truths => self.push_truths(cube),
            Stage::Constants => self.push_constants(alloc, pool, cube),
            Stage::Places => self.push_places(layout, cube),
            Stage::Done => Ok(()),
        }
    }

    /// The next enlargement, and from one stage to the next as long as there is none.
    fn next_enlargement(
        &mut self,
        alloc: Global,
        layout: &Layout,
        pool: &Pool,
        cube: &Cube,
    ) -> Result<Option<Enlargement>, CubeFault> {
        for _ in 0..6 {
            if !self.waiting.is_empty() {
                return Ok(self.waiting.pop_front());
            }
            self.advance(alloc, layout, pool, cube)?;
        }
        Ok(self.waiting.pop_front())
    }

    /// The next larger cube that is to be tried in the place of this one; `None` where all were.
    pub(crate) fn next_cube(
        &mut self,
        alloc: Global,
        layout: &Layout,
        pool: &Pool,
        cube: &Cube,
    ) -> Result<Option<Cube>, CubeFault> {
        for _ in 0..u32::MAX {
            let Some(enlargement) = self.next_enlargement(alloc, layout, pool, cube)? else {
                return Ok(None);
            };
            let other = enlarged_by(alloc, layout, cube, enlargement)?;
            if other.is_some() {
                return Ok(other);
            }
        }
        Ok(None)
    }
}

/// The cube with an enlargement; `None` where it isn't larger than the cube is by then, or nothing would be left of it.
fn enlarged(
    alloc: Global,
    layout: &Layout,
    cube: &Cube,
    enlargement: &Enlargement,
) -> Result<Option<Cube>, CubeFault> {
    match enlargement {
        Enlargement::Row(row) => without_row(alloc, layout, cube, row),
        Enlargement::Component(component) => {
            with_places(alloc, cube, *component, layout.full_of(*component))
        }
        Enlargement::Truth(variable) => without_truth(alloc, cube, *variable),
        Enlargement::Constant(row, constant) => with_weaker(alloc, cube, row, *constant),
        Enlargement::Place(component, number) => with_place(alloc, cube, *component, *number),
    }
}

/// The cube with an enlargement that isn't needed any longer.
fn enlarged_by(
    alloc: Global,
    layout: &Layout,
    cube: &Cube,
    enlargement: Enlargement,
) -> Result<Option<Cube>, CubeFault> {
    enlarged(alloc, layout, cube, &enlargement)
}

/// The cube without a row, where something else is left of it.
fn without_row(
    alloc: Global,
    layout: &Layout,
    cube: &Cube,
    row: &Lin,
) -> Result<Option<Cube>, CubeFault> {
    if cube.size(layout) < 2 {
        return Ok(None);
    }
    Ok(Some(cube.without_row(alloc, row)?))
}

/// The cube in which a boolean variable may have either value.
fn without_truth(alloc: Global, cube: &Cube, variable: u32) -> Result<Option<Cube>, CubeFault> {
    Ok(Some(cube.without_truth(alloc, variable)?))
}

/// The cube in which a component may be at one place more.
fn with_place(
    alloc: Global,
    cube: &Cube,
    component: usize,
    number: u8,
) -> Result<Option<Cube>, CubeFault> {
    let held = cube.places_of(narrowed(component));
    with_places(alloc, cube, component, held.union(PlaceSet::one(number)))
}

/// The cube with these places of a component.
fn with_places(
    alloc: Global,
    cube: &Cube,
    component: usize,
    places: PlaceSet,
) -> Result<Option<Cube>, CubeFault> {
    let mut other = cube.copy(alloc)?;
    other.set_places(narrowed(component), places);
    Ok(Some(other))
}

/// The cube with a weaker constant of a row, where the row still has the constant that it had.
fn with_weaker(
    alloc: Global,
    cube: &Cube,
    row: &Lin,
    constant: i128,
) -> Result<Option<Cube>, CubeFault> {
    if !cube.has_row(row) {
        return Ok(None);
    }
    let weaker = with_constant(alloc, row, constant)?;
    Ok(Some(cube.with_row_instead(alloc, &weaker)?))
}
