//! What is listed in a script: formulas, and what the nodes of a net are made from.

ghost use Rattle.std.specs.Prelude.{◌≡◌};
ghost use Rattle.st_tokens.specs.Stream.{stream};
ghost use Rattle.st_reading.specs.Reading.{Reads};
ghost use Rattle.st_form.specs.Plain.{plain};
ghost use Rattle.temporal_goals.specs.Plain.{plain_node};
ghost use Rattle.proof_script.specs.Faults.{see};
ghost use Rattle.proof_script.specs.Rules.{helped_of, ranked_of, fair_of, ends_item, completed_of, node_of};

use crate::fault::{ScriptFault, ScriptKind};
use crate::lists::Item;
use crate::parts::{group, helper, wanted_helper, weight};
use crate::setting::Setting;
use crate::units::listed_formula;
use st_form::{Form, Lin};
use st_reading::{Mark, Sign, ahead, is, place_of, refusal};
use st_tokens::Tokens;
use std::alloc::Global;
use temporal_goals::Node;

impl Item for Form {
    ghost use Rattle.st_form.specs.Formula.{Formula};
    ghost use Rattle.proof_script.specs.Listing.{listed_formula_of};

    ghost Plain = { Formula };

    ghost plainly = { plain };

    ghost spelled = { listed_formula_of };

    fn read(
        alloc: Global,
        setting: &Setting<'_>,
        before: usize,
        tokens: &mut Tokens<'_>,
    ) -> Result<Self, ScriptFault> {
        listed_formula(alloc, setting, before, tokens)
    }
}

/// A formula with its helper.
impl Item for (Form, u32) {
    ghost use Rattle.std.specs.Prelude.{ℕ};
    ghost use Rattle.st_form.specs.Formula.{Formula};

    ghost Plain = { Formula × ℕ };

    ghost plainly = { λ x. (plain x.0, x.1) };

    ghost spelled = { helped_of };

    #[tactic(auto, unfolding(crate::specs::Rules::helped_of))]
    fn read(
        alloc: Global,
        setting: &Setting<'_>,
        before: usize,
        tokens: &mut Tokens<'_>,
    ) -> Result<Self, ScriptFault> {
        let form = listed_formula(alloc, setting, before, tokens)?;
        let helper = wanted_helper(setting, tokens)?;
        Ok((form, helper))
    }
}

/// A formula with its rank and its helper.
impl Item for (Form, Lin, u32) {
    ghost use Rattle.std.specs.Prelude.{ℕ};
    ghost use Rattle.st_linear.specs.Linear.{Linear};
    ghost use Rattle.st_form.specs.Formula.{Formula};

    ghost Plain = { Formula × Linear × ℕ };

    ghost plainly = { λ x. (plain x.0, x.1, x.2) };

    ghost spelled = { ranked_of };

    #[tactic(auto, unfolding(crate::specs::Rules::ranked_of))]
    fn read(
        alloc: Global,
        setting: &Setting<'_>,
        before: usize,
        tokens: &mut Tokens<'_>,
    ) -> Result<Self, ScriptFault> {
        let form = listed_formula(alloc, setting, before, tokens)?;
        let rank = weight(alloc, setting, Mark::Rank, tokens)?;
        let helper = wanted_helper(setting, tokens)?;
        Ok((form, rank, helper))
    }
}

/// A formula, perhaps with a helper.
impl Item for (Form, Option<u32>) {
    ghost use Rattle.std.specs.Prelude.{ℕ, Option};
    ghost use Rattle.st_form.specs.Formula.{Formula};

    ghost Plain = { Formula × Option ℕ };

    ghost plainly = { λ x. (plain x.0, x.1) };

    ghost spelled = { fair_of };

    #[tactic(auto, unfolding(crate::specs::Rules::fair_of))]
    fn read(
        alloc: Global,
        setting: &Setting<'_>,
        before: usize,
        tokens: &mut Tokens<'_>,
    ) -> Result<Self, ScriptFault> {
        let form = listed_formula(alloc, setting, before, tokens)?;
        let helper = helper(setting, tokens)?;
        Ok((form, helper))
    }
}

/// Whether an item ends there.
pub fn ends_item(sign: Sign) -> bool
    ensures { result ≡ ends_item sign }
{
    is(sign, Mark::Semicolon) || is(sign, Mark::CloseBlock)
}

/// A node that begins at the place, once its end has been seen: it has a group or a helper.
#[tactic(auto, unfolding(crate::specs::Rules::completed_of))]
fn completed(place: u64, node: Node, tokens: &Tokens<'_>) -> Result<Node, ScriptFault>
    ensures { Reads see plain_node result (stream tokens.now) (completed_of place (plain_node node) (stream tokens.now)) }
{
    if !ends_item(ahead(tokens)) {
        return Err(ScriptFault::from(refusal(tokens)));
    }
    if node.group.is_none() && node.helper.is_none() {
        return Err(ScriptFault::At(ScriptKind::NoHelper, place));
    }
    Ok(node)
}

/// A node of a net.
impl Item for Node {
    ghost use Rattle.temporal_goals.specs.Texts.{PlainNode};

    ghost Plain = { PlainNode };

    ghost plainly = { plain_node };

    ghost spelled = { node_of };

    #[tactic(auto, unfolding(crate::specs::Rules::node_of))]
    fn read(
        alloc: Global,
        setting: &Setting<'_>,
        before: usize,
        tokens: &mut Tokens<'_>,
    ) -> Result<Self, ScriptFault> {
        let place = place_of(tokens);
        let form = listed_formula(alloc, setting, before, tokens)?;
        let base = weight(alloc, setting, Mark::Base, tokens)?;
        let delay = weight(alloc, setting, Mark::Delay, tokens)?;
        let top = weight(alloc, setting, Mark::Top, tokens)?;
        let group = group(setting, tokens)?;
        let helper = helper(setting, tokens)?;
        let node = Node {
            form,
            base,
            delay,
            top,
            group,
            helper,
        };
        completed(place, node, tokens)
    }
}
