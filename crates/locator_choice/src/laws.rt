// Laws of the choice. Each function has an empty body and states one law.
ghost use Rattle.std.specs.Prelude.{◌≡◌, ℕ, List, get_or, sum};
ghost use Rattle.locator_choice.specs.Choice.{shares};
ghost use Rattle.locator_choice.specs.Shares.{choosing};
ghost use Rattle.locator_choice.specs.declared.choice.Candidate.{Candidate as CandidateValue};

/// Law: of the hashes from 0 on, as many as all shares together, each candidate gets exactly its
/// share.
pub fn each_candidate_gets_its_share()
    ensures { (candidates : List CandidateValue) (i : ℕ)
        → choosing candidates i (sum (shares candidates)) ≡ get_or (shares candidates) i 0 }
{}
