//! A run reported: its texts are read, the schedule is played, and the goals are judged.

ghost use Rattle.std.specs.Prelude.{◌<◌, ◌^◌, length, IfOk, IfSome};
ghost use Rattle.posed_conditions.specs.Translated.{IsTranslated};
ghost use Rattle.run_reports.specs.Playable.{IsPlayable, IsShort};
ghost use Rattle.trace_player.specs.Watching.{IsWhole};

use crate::goals::goal_report;
use crate::positions::Ground;
use crate::reading::{LONGEST, playable_schedule, raw_program, translated_program};
use posed_conditions::TranslatedProgram;
use program_words::vocabulary;
use proof_reports::{GoalReport, RunReport};
use proof_script::{ScriptFault, read_script};
use run_judging::rounds;
use schedule_reader::Schedule;
use source_lines::Lines;
use source_places::{StepPlaces, statement_places, step_places};
use st_memory::Memory;
use std::alloc::Global;
use temporal_goals::{Script, Step};
use trace_player::{PlayFault, Played, Watched, judge_watched, play, watch};

/// The version of the form of reports of runs.
const SCHEMA: &str = "milkhour.trace/1";

/// A program, a proof and a schedule, the first two with the names of their files.
#[derive(Clone, Copy)]
pub struct RunTexts<'a> {
    pub program_name: &'a str,
    pub program: &'a [u8],
    pub proof_name: &'a str,
    pub proof: &'a [u8],
    pub schedule: &'a [u8],
}

/// What each goal comes to on a run.
fn goals(
    alloc: Global,
    ground: &Ground<'_>,
    played: &Played,
    watched: &Watched,
    steps: &[Step],
    lines: &[u64],
) -> Result<Vec<GoalReport>, Memory>
    requires whole { IsWhole played.now watched.now }
{
    let words = ground.words;
    let mut out = Vec::new(alloc);
    for (number, step) in steps.iter().enumerate() {
        let judged = judge_watched(alloc, played, watched, &step.goal)?;
        let line = lines.get(number).copied().unwrap_or(0);
        out.push(goal_report(alloc, words, played, watched, step, judged, line)?)?;
    }
    Ok(out)
}

/// The line of each step of a proof.
fn step_lines(alloc: Global, text: &[u8]) -> Result<Vec<u64>, Memory> {
    let lines = Lines::new(alloc, text)?;
    let mut out = Vec::new(alloc);
    for step in &step_places(alloc, text)? {
        out.push(lines.position(step.whole.from).line as u64)?;
    }
    Ok(out)
}

/// The report of a run that was played.
fn report(
    alloc: Global,
    texts: &RunTexts<'_>,
    ground: &Ground<'_>,
    played: &Played,
    script: &Script,
) -> Result<RunReport, Memory>
    requires short { IsShort played.now }
{
    let watched = watch(alloc, &ground.source.program, played)?;
    let counts = rounds(alloc, &watched.course)?;
    let lines = step_lines(alloc, texts.proof)?;
    Ok(RunReport {
        schema: String::from_str(alloc, SCHEMA)?,
        status: 0,
        headline: String::new(alloc),
        program: String::from_str(alloc, texts.program_name)?,
        proof: String::from_str(alloc, texts.proof_name)?,
        positions: ground.positions(alloc, played, &counts)?,
        goals: goals(alloc, ground, played, &watched, &script.steps, &lines)?,
    })
}

fn script(alloc: Global, text: &[u8], source: &TranslatedProgram) -> Result<Option<Script>, Memory>
    requires short { length text.now < 2 ^ 32 }
{
    match read_script(alloc, text, &source.names, &source.system) {
        Ok(script) => Ok(Some(script)),
        Err(ScriptFault::Memory) => Err(Memory),
        Err(ScriptFault::At(_, _)) => Ok(None),
    }
}

/// The run that a schedule gives; `None` where it can't be played.
fn run(
    alloc: Global,
    source: &TranslatedProgram,
    schedule: &Schedule,
) -> Result<Option<Played>, Memory>
    requires playable { IsPlayable source.now schedule.now }
    ensures { IfOk result (λ o. IfSome o IsShort) }
{
    match play(alloc, &source.program, schedule) {
        Ok(played) => Ok(Some(played)),
        Err(PlayFault::Memory) => Err(Memory),
        Err(PlayFault::NoStart) => Ok(None),
        Err(PlayFault::ValueLimit(_)) => Ok(None),
        Err(PlayFault::Illegal(_)) => Ok(None),
    }
}

/// The report of a run of a program that was read.
fn reported(
    alloc: Global,
    texts: &RunTexts<'_>,
    source: &TranslatedProgram,
    played: &Played,
    script: &Script,
) -> Result<Option<RunReport>, Memory>
    requires translated { IsTranslated source.now }
    requires short { IsShort played.now }
{
    let Some(raw) = raw_program(alloc, texts.program)? else {
        return Ok(None);
    };
    let lines = Lines::new(alloc, texts.program)?;
    let places = statement_places(alloc, texts.program, &raw)?;
    let words = vocabulary(alloc, source, &raw.processes, &lines, &places)?;
    let ground = Ground {
        name: texts.program_name,
        text: texts.program,
        lines: &lines,
        places: &places,
        words: &words,
        source,
    };
    Ok(Some(report(alloc, texts, &ground, played, script)?))
}

/// A schedule played and judged against the goals of a script.
fn judged(
    alloc: Global,
    texts: &RunTexts<'_>,
    source: &TranslatedProgram,
    script: &Script,
) -> Result<Option<RunReport>, Memory>
    requires translated { IsTranslated source.now }
    requires short { length texts.now.schedule.now < 2 ^ 32 }
{
    let Some(schedule) = playable_schedule(alloc, texts.schedule, source)? else {
        return Ok(None);
    };
    match run(alloc, source, &schedule)? {
        Some(played) => reported(alloc, texts, source, &played, script),
        None => Ok(None),
    }
}

/// What is told of the run that a schedule gives, and of the goals of a proof on it; `None` where a text is refused, or the run
/// isn't one of the program.
pub fn report_run(alloc: Global, texts: &RunTexts<'_>) -> Result<Option<RunReport>, Memory> {
    if LONGEST < texts.proof.len() || LONGEST < texts.schedule.len() {
        return Ok(None);
    }
    let Some(source) = translated_program(alloc, texts.program)? else {
        return Ok(None);
    };
    match script(alloc, texts.proof, &source)? {
        Some(script) => judged(alloc, texts, &source, &script),
        None => Ok(None),
    }
}
