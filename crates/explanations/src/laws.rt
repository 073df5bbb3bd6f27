//! What an outline counts are the conditions that a proof has.

ghost use Rattle.std.specs.Prelude.{◌≡◌, ℕ, List, length};
ghost use Rattle.posed_conditions.specs.declared.scripts.PosedScript.{PosedScript};
ghost use Rattle.posed_conditions.specs.Posed.{IsPosedBy};
ghost use Rattle.proof_reports.specs.declared.proofs.Report.{Report};
ghost use Rattle.explanations.specs.Explained.{IsOutlined};

/// Where the conditions of a proof pass no limit, so that they can be made, an outline counts as many as they are.
pub fn what_is_posed_is_counted()
    ensures { (program proof : List ℕ) (r : Report) (o : IsOutlined program proof r) (p : PosedScript)
        → IsPosedBy proof o.source p → r.conditions ≡ length p.conditions.items }
{}
