//! The words by which a question is put to `step`.

ghost use Rattle.std.specs.Prelude.{◌≡◌, ◌≤◌, ◌++◌, ◌∷◌, [], IfOk, OnOk, codes, map};
ghost use Rattle.std.specs.Fmt.{decimal};
ghost use Rattle.step_words.specs.Definition.{words_of};
ghost use Rattle.milkhour_run.specs.Asked.{command_words};

use crate::Question;
use st_memory::Memory;
use std::alloc::Global;

static CHECK: [&str; 4] = ["check", "program", "proof", "third"];

static VERIFY: [&str; 3] = ["verify", "program", "proof"];

static PROVE: [&str; 3] = ["prove", "program", "proof"];

static TRACE: [&str; 4] = ["trace", "program", "proof", "third"];

static INVARIANTS: [&str; 2] = ["invariants", "program"];

fn command_words(question: Question) -> &'static [&'static str]
    ensures { map (λ word. word.now) result.now ≡ command_words question }
{
    match question {
        Question::Check => CHECK.as_slice(),
        Question::Verify => VERIFY.as_slice(),
        Question::Prove => PROVE.as_slice(),
        Question::Trace => TRACE.as_slice(),
        Question::Invariants => INVARIANTS.as_slice(),
    }
}

fn push_word(alloc: Global, words: &mut Vec<String>, word: &str) -> Result<(), Memory>
    ensures { OnOk result (words_of words.new.items ≡ words_of words.old.items ++ (word.now ∷ [])) }
{
    words.push(String::from_str(alloc, word)?)?;
    Ok(())
}

fn push_words(alloc: Global, words: &mut Vec<String>, more: &[&str]) -> Result<(), Memory>
    ensures { OnOk result (words_of words.new.items ≡ words_of words.old.items ++ map (λ word. word.now) more.now) }
{
    for word in more {
        push_word(alloc, words, word)?;
    }
    Ok(())
}

/// The program's name, the words of the command, and the number of workers.
pub fn words_for(alloc: Global, question: Question, workers: u32) -> Result<Vec<String>, Memory>
    ensures { IfOk result (λ words. words_of words.items ≡ codes "step" ∷ (command_words question ++ (codes "--workers" ∷ decimal workers ∷ []))) }
{
    let mut words = Vec::new(alloc);
    push_word(alloc, &mut words, "step")?;
    push_words(alloc, &mut words, command_words(question))?;
    push_word(alloc, &mut words, "--workers")?;
    words.push(format!(in alloc; "{workers}")?)?;
    Ok(words)
}
